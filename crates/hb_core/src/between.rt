//! What a caller does to a core between two steps: it lets a job wait, looks at a page, and flushes.
ghost use Rattle.std.specs.Prelude.{◌≡◌, ◌⊎◌, ◌↔◌, ◌<◌, length, IfErr, IfOk, IsErrOf, IsSome, IsTrue, Some, OnErr};
ghost use Rattle.std.specs.List.{Contains};
ghost use Rattle.hb_disk.specs.Calls.{ReadsOnly};
ghost use Rattle.hb_store.specs.Fetching.{IsCrowdedOut};
ghost use Rattle.hb_store.specs.Replaying.{IsPageOf};
ghost use Rattle.hb_store.specs.States.{in_memory};
ghost use Rattle.hb_store.specs.WritingHome.{IsDue};
ghost use Rattle.hb_store.specs.declared.stops.StopWhy.TheVariants as stops;
ghost use Rattle.hb_space.specs.declared.actors.TheConstants.{FLUSHER};
ghost use Rattle.hb_activity.specs.declared.waiting_jobs.TheConstants.{JOBS};
ghost use Rattle.hb_core.specs.declared.copies.CopyStop.TheVariants as copies;
ghost use Rattle.hb_core.specs.Between.{AddsToQueue, CopiesPage, FailsToLook, IsNotCopied, LetsWait, said_of_flush};
ghost use Rattle.hb_core.specs.CoreSeen.{core_seen, core_disk, Alters};
ghost use Rattle.hb_core.specs.Counting.{CountsFlush, CountsStay};
ghost use Rattle.hb_steps.specs.KeptFits.{JobFits};
ghost use Rattle.hb_steps.specs.Machines.{Machine};
ghost use Rattle.hb_core.specs.Showing.{ShowsMachine};
ghost use Rattle.hb_steps.specs.Steps.{StepsTo};
ghost use Rattle.hb_core.specs.Touching.{Touches, held_in};
ghost use Rattle.hb_core.specs.Relied.{MayRun};
ghost use Rattle.hb_core.specs.Working.{MayStep};

use crate::copies::CopyStop;
use crate::halts::copy_of_why;
use crate::state::Core;
use hb_activity::Job;
use hb_disk::Device;
use hb_frag::Page;
use hb_store::{FetchStop, Flushed, StopWhy, WriteFault};

impl<D: Device> Core<D> {
    /// Lets a job wait behind the others, where it doesn't wait already. `false`, and nothing changes, exactly where 256 others
    /// wait and it isn't among them.
    pub fn add_job(&mut self, job: Job) -> bool
        requires { JobFits (core_seen self.old).store.meta.k job }
        ensures waits { IsTrue result ↔ (Contains (core_seen self.old).jobs job ⊎ (length (core_seen self.old).jobs < JOBS)) }
        ensures queue { Alters (AddsToQueue job) self.old self.new }
        ensures goes_on { (m : Machine) → MayStep (D.model (core_disk self.old)) (core_seen self.old) m →
            (new : Machine) × LetsWait job m new × MayStep (D.model (core_disk self.new)) (core_seen self.new) new }
    {
        self.jobs.add(job)
    }

    /// The page of a number, with memory of its own. It comes into memory, if it isn't there; the file stays as it was.
    ///
    /// `Damaged` exactly where the page's bytes are no page or break one of the rules that `local_rule` tests; then the core is
    /// stopped. `Crowded` exactly where the page isn't in memory and there is no place for it: a flush makes one.
    pub fn page_copy(&mut self, id: u32) -> Result<Page, CopyStop>
        requires runs { MayRun (D.model (core_disk self.old)) (core_seen self.old) }
        requires page { IsPageOf (core_seen self.old).store.meta id }
        ensures copies { (m : Machine) → MayStep (D.model (core_disk self.old)) (core_seen self.old) m →
            (new : Machine) × CopiesPage id result m new × MayStep (D.model (core_disk self.new)) (core_seen self.new) new }
        ensures why { IfErr result (IsNotCopied (core_seen self.old).store.meta (D.model (core_disk self.old)) id) }
        ensures crowded { IsErrOf result copies.Crowded ↔ IsCrowdedOut id (core_seen self.old).store (core_seen self.old).uses }
        ensures reads { ReadsOnly (IsErrOf result copies.ReadFault) (D.model (core_disk self.old)) (D.model (core_disk self.new)) }
        ensures counts { CountsStay (core_seen self.old) (core_seen self.new) }
    {
        match self.store.fetch(id) {
            Ok(()) => {
                self.store.stands_well();
                self.copy_here(id)
            }
            Err(stop) => Err(self.fails_to_look(stop)),
        }
    }

    /// The page of a number, which is in memory, with memory of its own.
    fn copy_here(&self, id: u32) -> Result<Page, CopyStop>
        requires { IsSome (in_memory (core_seen self.now).store id) }
        ensures page { IfOk result (λ page. in_memory (core_seen self.now).store id ≡ Some page) }
        ensures memory { IfErr result (λ stop. stop ≡ copies.NoMemory) }
    {
        match self.store.get(id) {
            Some(view) => match view.page(self.alloc) {
                Ok(page) => Ok(page),
                Err(_refused) => Err(CopyStop::NoMemory),
            },
            None => unreachable!(),
        }
    }

    /// What a caller is told of a page that wasn't fetched. A damaged one stops the core.
    fn fails_to_look(&mut self, stop: FetchStop) -> CopyStop
        ensures { Alters (FailsToLook stop result) self.old self.new }
    {
        match stop {
            FetchStop::Damaged { page, why } => {
                let said = copy_of_why(&why);
                let _ = self.stop_for(StopWhy::Damaged { page, why });
                CopyStop::Damaged { page, why: said }
            }
            FetchStop::ReadFault => CopyStop::ReadFault,
            FetchStop::Crowded => CopyStop::Crowded,
        }
    }

    /// Flushes once, and says what that did. It is a step of the flusher, and counts as one. A fault stops the core.
    pub fn help(&mut self) -> Result<Flushed, WriteFault>
        requires { MayRun (D.model (core_disk self.old)) (core_seen self.old) }
        ensures which { IfOk result (IsDue (held_in (core_seen self.old))) }
        ensures steps { (m : Machine) → MayStep (D.model (core_disk self.old)) (core_seen self.old) m →
            (new : Machine) × StepsTo m FLUSHER (said_of_flush result) new × ShowsMachine (D.model (core_disk self.new)) (core_seen self.new) new }
        ensures touches { Touches (D.model (core_disk self.old)) (core_seen self.old) (said_of_flush result) (D.model (core_disk self.new)) (core_seen self.new) }
        ensures stop { OnErr result ((core_seen self.new).stop ≡ Some stops.WriteFault) }
        ensures counts { CountsFlush (core_seen self.old) (core_seen self.new) }
    {
        self.taken = self.taken.saturating_add(1);
        match self.store.flush_step() {
            Ok(flushed) => Ok(flushed),
            Err(fault) => {
                let _ = self.stop_for(StopWhy::WriteFault);
                Err(fault)
            }
        }
    }
}
