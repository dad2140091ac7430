//! Steps of the workers and flushes, and why they end a tidying.
ghost use Rattle.std.specs.Prelude.{◌≡◌, ◌⊎◌, ◌+◌, ◌<◌, OnOk};
ghost use Rattle.hb_core.specs.CoreSeen.{core_seen, core_disk};
ghost use Rattle.hb_steps.specs.Machines.{Machine};
ghost use Rattle.hb_core.specs.Showing.{ShowsMachine};
ghost use Rattle.hb_steps.specs.ProgressLaws.{jobs_of};
ghost use Rattle.hb_steps.specs.ProgressLaws.{worker_for};
ghost use Rattle.hb_tidy.specs.Going.{AllRest, Goes};
ghost use Rattle.hb_tidy.specs.Looking.{LooksOver, NothingOf};
ghost use Rattle.hb_tidy.specs.Stepping.{EndsCall, EndsStep, MayMakeRoom, MayTakeStep, MayWorkOff, TakesStep, stop_by};

use crate::TidyStop;
use hb_activity::JobKind;
use hb_core::{Core, DropWhy, Outcome};
use hb_disk::Device;
use hb_space::Actor;
use hb_space::actors::{CONSOLIDATOR, POSTER};
use hb_store::StopWhy;

/// Takes steps of the worker for this kind of jobs until none of these waits or is in work.
pub(crate) fn work_off<D: Device>(core: &mut Core<D>, kind: JobKind) -> Result<(), TidyStop>
    requires { MayWorkOff (D.model (core_disk core.old)) (core_seen core.old) }
    ensures goes { Goes result (D.model (core_disk core.old)) (core_seen core.old) (D.model (core_disk core.new)) (core_seen core.new) }
    ensures rests { OnOk result (AllRest (core_seen core.new)) }
    ensures done { OnOk result ((m : Machine) → ShowsMachine (D.model (core_disk core.new)) (core_seen core.new) m → jobs_of kind m ≡ 0) }
    ensures more { OnOk result (((core_seen core.old).taken < (core_seen core.new).taken) ⊎ (core.new ≡ core.old)) }
{
    while core.jobs(kind) != 0 {
        step(core, kind)?;
    }
    Ok(())
}

/// Who works off the jobs of the kind.
fn worker_for(kind: JobKind) -> Actor
    ensures { result ≡ worker_for kind }
{
    match kind {
        JobKind::Post => POSTER,
        JobKind::Merge => CONSOLIDATOR,
    }
}

/// Takes one step of the worker for this kind of jobs.
fn step<D: Device>(core: &mut Core<D>, kind: JobKind) -> Result<(), TidyStop>
    requires { MayTakeStep kind (D.model (core_disk core.old)) (core_seen core.old) }
    ensures { TakesStep kind result (D.model (core_disk core.old)) (core_seen core.old) (D.model (core_disk core.new)) (core_seen core.new) }
{
    let outcome = core.step(worker_for(kind));
    went_on(core)?;
    end_of(&outcome)
}

/// Why a step ends the tidying though the core isn't stopped: a worker's job was dropped.
fn end_of(outcome: &Outcome) -> Result<(), TidyStop>
    ensures { EndsStep outcome.now result }
{
    match outcome {
        Outcome::Dropped(DropWhy::NoMemory) => Err(TidyStop::NoMemory),
        Outcome::Dropped(DropWhy::ReadFault) => Err(TidyStop::ReadFault),
        Outcome::Stopped(_)
        | Outcome::Idle
        | Outcome::Blocked { .. }
        | Outcome::Helped
        | Outcome::Answered { .. }
        | Outcome::Moved => Ok(()),
    }
}

/// Whether steps are left and the core isn't stopped, behind a step.
fn went_on<D: Device>(core: &Core<D>) -> Result<(), TidyStop>
    ensures { EndsCall (core_seen core.now) result }
{
    if core.taken() == u64::MAX {
        return Err(TidyStop::Spent);
    }
    match core.stop() {
        None => Ok(()),
        Some(why) => Err(stop_by(why)),
    }
}

/// Why a tidying ends where the core is stopped.
fn stop_by(why: StopWhy) -> TidyStop
    ensures { result ≡ stop_by why }
{
    match why {
        StopWhy::WriteFault => TidyStop::WriteFault,
        StopWhy::Damaged { page, why } => TidyStop::Damaged { page, why },
    }
}

/// Flushes once, since a page has no place in memory. It counts as a step.
pub(crate) fn flush<D: Device>(core: &mut Core<D>) -> Result<(), TidyStop>
    requires { MayMakeRoom (D.model (core_disk core.old)) (core_seen core.old) }
    ensures looks { LooksOver NothingOf result (λ v. NothingOf) (D.model (core_disk core.old)) (core_seen core.old) (D.model (core_disk core.new)) (core_seen core.new) }
    ensures one { OnOk result ((core_seen core.new).taken ≡ (core_seen core.old).taken + 1) }
{
    let _flushed = core.help();
    went_on(core)
}
