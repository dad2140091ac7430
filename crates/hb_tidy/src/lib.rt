//! Tidying: late postings are made and pages that may become one are merged, until nothing of the kind is left.
//!
//! The one contract is that of `tidy`: where it is done, the file that the core has is settled and no three of its pages may be
//! merged; its contents are what they were, and what crashes leave at each moment of the call is what they left before.
//! `specs/Tidying.antt` says so.
//!
//! The file is looked through page by page. What is found waits as a job for the core's workers, and is worked off by steps of
//! theirs behind the pass. A pass over the whole file behind which no job waits ends the call. No step is taken without a cause, and
//! no job waits that the file doesn't owe (`specs/Working.antt`).
//!
//! No type keeps an invariant.
//!
//! Source of the idea: Evangelidis, Lomet and Salzberg 1997, whose structure changes are completed late.
#![tactic(auto)]

ghost use Rattle.std.specs.Prelude.{◌≡◌};
ghost use Rattle.hb_core.specs.CoreSeen.{core_seen, core_disk};
ghost use Rattle.hb_steps.specs.Machines.{Machine};
ghost use Rattle.hb_core.specs.Working.{MayStep};
ghost use Rattle.hb_tidy.specs.Counted.{AreAtMost, EndsSpent, added};
ghost use Rattle.hb_tidy.specs.Tidying.{EndsTidying, HasTidied, MayBeTidied};
ghost use Rattle.hb_tidy.specs.Working.{HasWorked, operations_in};

mod below;
mod finding;
pub mod laws;
mod listing;
mod looking;
mod passes;
mod stepping;
mod stops;

use hb_activity::JobKind;
use hb_core::between_laws::{all_is_kept_between_steps, operations_are_counted};
use hb_core::run_laws::runs_go_on;
use hb_core::{Core, TidyCounts};
use hb_disk::Device;
use passes::pass;
use std::alloc::Global;
use stepping::work_off;
pub use stops::TidyStop;

/// Makes late postings and merges pages until the file is settled and no three of its pages may be merged, and says how many
/// operations of each kind that took.
///
/// What was done before an error stays done.
///
/// # Errors
///
/// `Full` where no page is free and a posting or a growth wants one; `ReadFault` and `WriteFault` where the disk failed, and
/// `Damaged` where a page is none that the file may have there, which after the last two stops the core; `Spent` exactly where
/// the core's count of steps has come to its last value; `NoMemory` where memory was refused.
pub fn tidy<D: Device>(alloc: Global, core: &mut Core<D>) -> Result<TidyCounts, TidyStop>
    requires { MayBeTidied (D.model (core_disk core.old)) (core_seen core.old) }
    ensures tidies { (m : Machine) → MayStep (D.model (core_disk core.old)) (core_seen core.old) m →
        (t : HasTidied (D.model (core_disk core.old)) m (D.model (core_disk core.new)) (core_seen core.new))
        × (w : HasWorked result (core_seen core.old) m (core_seen core.new) t.new)
        × EndsTidying (D.model (core_disk core.old)) (D.model (core_disk core.new)) (core_seen core.new) (operations_in w.events) t.new result }
    ensures spent { EndsSpent result (core_seen core.new) }
{
    runs_go_on();
    all_is_kept_between_steps();
    operations_are_counted();
    if core.taken() == u64::MAX {
        return Err(TidyStop::Spent);
    }
    let before = core.done();
    loop {
        pass(alloc, core)?;
        if core.jobs(JobKind::Post) == 0 && core.jobs(JobKind::Merge) == 0 {
            return Ok(rise_of(before, core.done()));
        }
        work_off(core, JobKind::Post)?;
        work_off(core, JobKind::Merge)?;
    }
}

/// By how much each count rose.
fn rise_of(before: TidyCounts, after: TidyCounts) -> TidyCounts
    requires { AreAtMost before after }
    ensures { after ≡ added before result }
{
    TidyCounts {
        grown: after.grown - before.grown,
        posted: after.posted - before.posted,
        split: after.split - before.split,
        merged: after.merged - before.merged,
    }
}
