//! A schedule's run: exactly its steps, and the output text.
//!
//! The one contract is that of `drive`: each step that the script names is taken, once and in its place, of whatever machine
//! the core shows; the answers are those that came, each with the disk's clock after its step; and the text that is written is
//! the text of this run, whole, or the front of it that a failing sink took. `specs/Driving.antt` says so.
//!
//! No type keeps an invariant.
#![tactic(auto)]

ghost use Rattle.std.specs.Prelude.{◌≡◌, ◌≤◌, [], All, IfOk, length, vec_capacity};
ghost use Rattle.hb_space.specs.Actors.{IsActor};
ghost use Rattle.hb_core.specs.CoreSeen.{core_seen, core_disk};
ghost use Rattle.hb_core.specs.Relied.{MayTakeSteps};
ghost use Rattle.hb_drive.specs.Driving.{DrivesTo, LeavesRun};

mod ending;
mod taking;
mod writing;

pub use ending::end_run;
use hb_core::{Core, End, Ran};
use hb_disk::Disk;
use hb_outside::Sink;
use hb_set::{Answered, Script};
use hb_space::{Actor, NoMemory};
use std::alloc::Global;
pub use taking::take_answer;
use taking::take_steps;
pub use writing::{put_answer, put_order_on};

/// Takes exactly the script's steps, and writes the output: the reply of each line as it is answered, then the lines that
/// have no answer, then the order. After a fault of the sink nothing more is written, and the steps go on.
///
/// For want of memory, which is asked for before the first step alone, no step is taken and nothing is written.
pub fn drive<D: Disk, K: Sink>(alloc: Global, mut core: Core<D>, mut sink: K) -> Ran<D, K>
    requires may { MayTakeSteps (D.model (core_disk core)) (core_seen core) }
    requires actors { All IsActor (core_seen core).steps }
    ensures { LeavesRun (λ m. DrivesTo m (core_seen core).steps result.answered.items (D.model (core_disk core)) (D.model (core_disk result.core)) (core_seen result.core) result.end (K.model sink) (K.model result.sink))
        D.model K.model core sink result }
{
    let Ok((steps, mut answered, left)) = room_for(alloc, core.script()) else {
        return Ran {
            core,
            sink,
            answered: Vec::new(alloc),
            end: End::NoMemory,
        };
    };
    let put = take_steps(&mut core, steps.as_slice(), &mut sink, &mut answered);
    end_run(core, sink, put, answered, left)
}

/// The schedule once more, since a core can't be read while it takes steps, and room for an answer to each line, or for the
/// number of each.
fn room_for(
    alloc: Global,
    script: &Script,
) -> Result<(Vec<Actor>, Vec<Answered>, Vec<u32>), NoMemory>
    ensures steps { IfOk result (λ r. r.0.items ≡ script.now.steps) }
    ensures answered { IfOk result (λ r. r.1.items ≡ []) }
    ensures answers { IfOk result (λ r. length script.now.lines ≤ vec_capacity r.1) }
    ensures left { IfOk result (λ r. r.2.items ≡ []) }
    ensures numbers { IfOk result (λ r. length script.now.lines ≤ vec_capacity r.2) }
{
    let lines = script.lines.as_slice().len();
    let steps = Vec::from_slice(alloc, script.steps.as_slice())?;
    let answered = Vec::with_capacity(alloc, lines)?;
    let left = Vec::with_capacity(alloc, lines)?;
    Ok((steps, answered, left))
}
