//! The end of a run of a core.
ghost use Rattle.std.specs.Prelude.{◌≡◌};
ghost use Rattle.hb_core.specs.CoreSeen.{core_seen, core_disk};
ghost use Rattle.hbpi.specs.Codes.{status_after, stop_status};
ghost use Rattle.hbpi.specs.Counted.{counts_text, records_left};
ghost use Rattle.hbpi.specs.Handing.{EndsCounting, EndsText, HandsOver};
ghost use Rattle.hbpi.specs.Saying.{SaysCounts};

use crate::counting::records_left;
use crate::faults::put_fault;
use crate::finished::Finished;
use crate::nowhere::Nowhere;
use crate::saying::{counts_line, say};
use crate::statuses::{Damage, Status};
use hb_core::{Core, End, Ran};
use hb_disk::Disk;
use hb_outside::Sink;
use hb_set::{Answered, Line};
use hb_store::StopWhy;

/// The status of a core that is stopped.
fn status_of_stop(why: &StopWhy) -> Status
    ensures { result ≡ stop_status why.now }
{
    match why {
        StopWhy::WriteFault => Status::DiskFault,
        StopWhy::Damaged { page, why } => Status::Damaged(Damage::of_page(*page, why)),
    }
}

/// The status behind the last step.
fn status_of(end: &End) -> Status
    ensures { result ≡ status_after end.now }
{
    match end {
        End::Finished => Status::Done,
        End::NoMemory => Status::NoMemory,
        End::SinkFault => Status::SinkFault,
        End::ReadFault => Status::DiskFault,
        End::Stopped(why) => status_of_stop(why),
    }
}

/// What a run of a core leaves.
fn leave<K, D: Disk>(
    core: Core<D>,
    status: Status,
    sink: K,
    answered: Vec<Answered>,
) -> Finished<K, D>
    ensures hands { HandsOver (core_disk core) result.disk answered.items result.answered.items (core_seen core).order result.order.items }
    ensures given { (result.status ≡ status) × (result.sink ≡ sink) }
{
    let (store, order) = core.into_store();
    Finished {
        status,
        sink,
        disk: store.into_disk(),
        answered,
        order,
    }
}

/// Writes the fault line behind the output of a run, and gives back what it leaves.
pub(crate) fn finish<K: Sink, D: Disk>(ran: Ran<D, K>) -> Finished<K, D>
    ensures { EndsText K.model (record { end = ran.end; core = core_seen ran.core; disk = core_disk ran.core; sink = ran.sink; answered = ran.answered.items })
        (record { status = result.status; disk = result.disk; sink = result.sink; answered = result.answered.items; order = result.order.items }) }
{
    let Ran {
        core,
        mut sink,
        answered,
        end,
    } = ran;
    let status = status_of(&end);
    put_fault(&mut sink, status);
    leave(core, status, sink, answered)
}

/// Says how many answers have each reply, and how many records are left of so many. Where the run didn't end well, its fault line is put.
fn say_counts<K: Sink>(
    end: &End,
    lines: &[Line],
    answered: &[Answered],
    records: u64,
    sink: &mut K,
) -> Status
    ensures { SaysCounts end.now (counts_text answered.now (records_left lines.now answered.now records)) (K.model sink.old) (K.model sink.new) result }
{
    if let End::Finished = end {
        let left = records_left(lines, answered, records);
        return say(sink, counts_line(answered, left).as_slice());
    }
    let status = status_of(end);
    put_fault(sink, status);
    status
}

/// Says the counts of a run that put nothing, over a file that had so many records, and gives back what it leaves.
pub(crate) fn finish_counting<K: Sink, D: Disk>(
    ran: Ran<D, Nowhere>,
    records: u64,
    mut sink: K,
) -> Finished<K, D>
    ensures { EndsCounting K.model (counts_text ran.answered.items (records_left (core_seen ran.core).lines ran.answered.items records)) sink (record { end = ran.end; core = core_seen ran.core; disk = core_disk ran.core; sink = ran.sink; answered = ran.answered.items })
        (record { status = result.status; disk = result.disk; sink = result.sink; answered = result.answered.items; order = result.order.items }) }
{
    let Ran {
        core,
        sink: _,
        answered,
        end,
    } = ran;
    let lines = core.script().lines.as_slice();
    let status = say_counts(&end, lines, answered.as_slice(), records, &mut sink);
    leave(core, status, sink, answered)
}
