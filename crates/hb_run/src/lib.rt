//! A run: the sessions of a script in threads over one core.
//!
//! The one contract: whoever has the lock takes one step of the core, or none. `Course::take_turn` says what a turn does, in full;
//! the type `Shared` keeps, whenever the lock is free, that steps lead from the beginning of the run to what the core shows; and `run`
//! gives back such a run, with nothing left to do unless the core is stopped. `specs/Running.antt` says so.
#![tactic(auto)]

ghost use Rattle.std.specs.Prelude.{◌≡◌, ◌≤◌, [], IfOk, length, map, vec_capacity};
ghost use Rattle.hb_core.specs.CoreSeen.{core_seen, core_disk};
ghost use Rattle.hb_core.specs.Relied.{MayTakeSteps};
ghost use Rattle.hb_drive.specs.Driving.{LeavesRun};
ghost use Rattle.hb_space.specs.declared.actors.TheConstants.{SESSIONS};
ghost use Rattle.hb_run.specs.Running.{RunsTo};
ghost use Rattle.hb_run.specs.Seats.{AreSessionsTo};

mod begun;
mod bells;
mod courses;
mod crews;
mod gates;
mod holds;
mod ringing;
mod rosters;
mod seats;
mod shared;
mod threads;
mod turns;
mod whole;

use bells::Bells;
use courses::Course;
pub use gates::{FreeGate, Gate, HoldGate, Place};
use hb_core::run_laws::runs_go_on;
use hb_core::{Core, End, Ran};
use hb_disk::Disk;
use hb_outside::Sink;
use hb_set::{Answered, Script};
use hb_space::NoMemory;
use holds::Hand;
use rosters::Roster;
use seats::sessions_of;
use std::alloc::Global;
use std::marker::Brand;
use std::sync::Wait;
use std::thread::Threads;
use whole::run_whole;

/// Runs the sessions of the core's script in threads, and who posts, who merges and who flushes beside them. Each reply is written in the
/// turn that gives it; then the lines that have no answer, and the order. After a fault of the sink nothing more is written, and the
/// turns go on.
///
/// For want of memory, which is asked for before the first step alone, no step is taken and nothing is written.
pub fn run<R: Threads + Wait + Sync, D: Disk + Send, K: Sink + Send, G: Gate + Sync>(
    rt: &R,
    alloc: Global,
    core: Core<D>,
    sink: K,
    gate: &G,
) -> Ran<D, K>
    requires may { MayTakeSteps (D.model (core_disk core)) (core_seen core) }
    ensures { LeavesRun (λ m. RunsTo m result.answered.items (D.model (core_disk core)) (D.model (core_disk result.core)) (core_seen result.core) result.end (K.model sink) (K.model result.sink))
        D.model K.model core sink result }
{
    let Ok((answered, numbers, sessions, bells)) = room_for(alloc, core.script()) else {
        return Ran {
            core,
            sink,
            answered: Vec::new(alloc),
            end: End::NoMemory,
        };
    };
    runs_go_on();
    let left = core.left() as usize;
    let course = Course {
        core,
        sink,
        put: Ok(()),
        answered,
        left,
        roster: Roster::new(!gate.may_hold()),
    };
    run_whole::<R, Brand, D, K, G>(rt, course, gate, &bells, sessions, numbers)
}

/// What a run of these lines takes: room for an answer to each and for the number of each, the sessions, and the bells.
fn room_for(
    alloc: Global,
    script: &Script,
) -> Result<(Vec<Answered>, Vec<u32>, Vec<Hand>, Bells), NoMemory>
    ensures answered { IfOk result (λ r. r.0.items ≡ []) }
    ensures answers { IfOk result (λ r. length script.now.lines ≤ vec_capacity r.0) }
    ensures none { IfOk result (λ r. r.1.items ≡ []) }
    ensures numbers { IfOk result (λ r. length script.now.lines ≤ vec_capacity r.1) }
    ensures sessions { IfOk result (λ r. AreSessionsTo SESSIONS script.now.lines (map (λ h. h.seat.actor) r.2.items)) }
{
    let lines = script.lines.as_slice();
    let answered = Vec::with_capacity(alloc, lines.len())?;
    let numbers = Vec::with_capacity(alloc, lines.len())?;
    let sessions = sessions_of(alloc, lines)?;
    let bells = Bells::new(alloc)?;
    Ok((answered, numbers, sessions, bells))
}
