//! How a run ended, and what is written then.
ghost use Rattle.std.specs.Prelude.{◌≡◌, ◌≤◌, ◌↔◌, [], IsTrue, length, vec_capacity};
ghost use Rattle.hb_core.specs.CoreSeen.{core_seen, core_disk};
ghost use Rattle.hb_steps.specs.Machines.{Machine};
ghost use Rattle.hb_core.specs.Runs.{HasReadFault};
ghost use Rattle.hb_core.specs.Relied.{MayTakeSteps};
ghost use Rattle.hb_core.specs.Working.{MayStep};
ghost use Rattle.hb_drive.specs.Driving.{IsEndOf, LeavesEnd};

use crate::writing::put_rest;
use hb_core::{Core, End, Ran};
use hb_disk::Disk;
use hb_outside::{Failed, Sink};
use hb_set::{Answered, Reply};
use hb_store::StopWhy;

/// Ends a run whose steps are taken: puts what follows the replies, which are the lines that have no answer and the order, and
/// says how it ended. `put` is what became of the replies. The empty vector `left` has room for the number of each line.
pub fn end_run<D: Disk, K: Sink>(
    core: Core<D>,
    mut sink: K,
    put: Result<(), Failed>,
    answered: Vec<Answered>,
    mut left: Vec<u32>,
) -> Ran<D, K>
    requires may { MayTakeSteps (D.model (core_disk core)) (core_seen core) }
    requires none { left.items ≡ [] }
    requires room { length (core_seen core).lines ≤ vec_capacity left }
    ensures same { (result.core ≡ core) × (result.answered ≡ answered) }
    ensures ends { (m : Machine) → MayStep (D.model (core_disk core)) (core_seen core) m →
        LeavesEnd m put answered.items result.end (K.model sink) (K.model result.sink) }
{
    core.unanswered(&mut left);
    let stop = core.stop();
    let last = put_rest(
        &mut sink,
        put,
        left.as_slice(),
        stop.is_some(),
        core.order(),
        core.settled(),
    );
    let failed = last.is_err();
    let end = end_of(failed, stop, answered.as_slice());
    Ran {
        core,
        sink,
        answered,
        end,
    }
}

/// How a run ended: a fault of the sink comes first, then a stop, then a reply `read fault`.
fn end_of(failed: bool, stop: Option<StopWhy>, answered: &[Answered]) -> End
    ensures { IsEndOf result failed stop answered.now }
{
    if failed {
        return End::SinkFault;
    }
    if let Some(why) = stop {
        return End::Stopped(why);
    }
    if has_read_fault(answered) {
        return End::ReadFault;
    }
    End::Finished
}

/// Whether some reply is `read fault`.
fn has_read_fault(answered: &[Answered]) -> bool
    ensures { IsTrue result ↔ HasReadFault answered.now }
{
    answered.iter().any(|a| matches!(a.reply, Reply::ReadFault))
}
