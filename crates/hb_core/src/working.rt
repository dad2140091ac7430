//! A step that wants a latch or changes the file.
ghost use Rattle.std.specs.Prelude.{◌≡◌, ◌⊎◌, ◌↔◌, ◌≤◌, ◌++◌, length, None, IsTrue, IfOk, IfErr, IsErrAnd, IfSome, IsSomeAnd};
ghost use Rattle.hb_latch.specs.Tables.{IsGrantable, IsLeastInTheWay, mode_at};
ghost use Rattle.hb_activity.specs.Classes.{hand_of};
ghost use Rattle.hb_steps.specs.Acting.{DoesRow};
ghost use Rattle.hb_pool.specs.Pools.{places};
ghost use Rattle.hb_store.specs.Calls.{HasPlaces, IsReady};
ghost use Rattle.hb_store.specs.States.{in_memory};
ghost use Rattle.hb_core.specs.CoreSeen.{core_seen, core_disk, ChangesBy};
ghost use Rattle.hb_core.specs.Counting.{CountsPart};
ghost use Rattle.hb_steps.specs.Machines.{Machine};
ghost use Rattle.hb_core.specs.Moving.{number_of, with_order_of_use};
ghost use Rattle.hb_steps.specs.Performing.{latches_held};
ghost use Rattle.hb_core.specs.Pinning.{CanUnpin};
ghost use Rattle.hb_steps.specs.Using.{page_wanted, pages_of, unpin_each};
ghost use Rattle.hb_core.specs.Showing.{ShowsMachine};
ghost use Rattle.hb_steps.specs.Steps.{Works};
ghost use Rattle.hb_disk.specs.Calls.{ReadsOnly};
ghost use Rattle.hb_core.specs.Touching.{IsReadHalt, Touches};
ghost use Rattle.hb_core.specs.Going.{IsWorking, MayWork};
ghost use Rattle.hb_core.specs.Working.{Halts, HaltsPinned, HasCome, IsStop, MayStep};
ghost use Rattle.hb_core.specs.Relied.{IsAtWork, MayDoRow, MayNumber};

use crate::aiming::Aim;
use crate::halts::Halt;
use crate::state::Core;
use arrayvec::ArrayVec;
use hb_activity::Wanted;
use hb_disk::Device;
use hb_space::Actor;
use hb_steps::Outcome;
use hb_steps::machine_laws::rows_may_be_done;
use hb_store::a_store_keeps_one_file;

impl<D: Device> Core<D> {
    /// Does the row of the actor's activity, unless another actor is in the way. Flushes once instead, where log and
    /// memory aren't ready for it.
    pub(crate) fn work(&mut self, actor: Actor) -> Outcome
        requires { IsAtWork (D.model (core_disk self.old)) (core_seen self.old) actor }
        ensures works { (m : Machine) → MayStep (D.model (core_disk self.old)) (core_seen self.old) m → m.stop ≡ None → IsWorking (m.activity actor) →
            (new : Machine) × Works m actor result new × ShowsMachine (D.model (core_disk self.new)) (core_seen self.new) new }
        ensures touches { Touches (D.model (core_disk self.old)) (core_seen self.old) result (D.model (core_disk self.new)) (core_seen self.new) }
        ensures counts { CountsPart actor (core_seen self.old) (core_seen self.new) }
    {
        let aim = self.aim(actor);
        if let Some(by) = self.in_the_way(actor, aim.wanted) {
            return Outcome::Blocked { by };
        }
        if self.is_unready(&aim) {
            return self.flush(Outcome::Helped);
        }
        let line = self.line_in_hand(actor);
        let pins = self.held_pages(actor);
        match self.do_row(actor, &aim, line, pins.as_slice()) {
            Ok(outcome) => outcome,
            Err(Halt::GivesUp(why)) => self.give_up(actor, line, why, pins.as_slice()),
            Err(Halt::Stops(why)) => self.stop_for(why),
        }
    }

    /// Whether a step that aims so may change the file, and log and memory aren't ready for a change; or there is no place for the
    /// page that it wants.
    fn is_unready(&self, aim: &Aim) -> bool
        ensures { IsTrue result ↔ ((IsTrue aim.now.may_commit × (¬ (IsReady (core_seen self.now).store × HasPlaces (core_seen self.now).uses)))
            ⊎ ((places (core_seen self.now).uses ≡ 0) × IsSomeAnd aim.now.wanted (λ w. in_memory (core_seen self.now).store w.page ≡ None))) }
    {
        (aim.may_commit && !self.store.ready()) || self.is_crowded(aim.wanted)
    }

    /// Whether a page is wanted that isn't in memory, and there is no place for it.
    fn is_crowded(&self, wanted: Option<Wanted>) -> bool
        ensures { IsTrue result ↔ ((places (core_seen self.now).uses ≡ 0) × IsSomeAnd wanted (λ w. in_memory (core_seen self.now).store w.page ≡ None)) }
    {
        match wanted {
            Some(wanted) => self.store.places() == 0 && self.store.get(wanted.page).is_none(),
            None => false,
        }
    }

    /// The least other actor that is in the way of the latch.
    fn in_the_way(&self, actor: Actor, wanted: Option<Wanted>) -> Option<Actor>
        ensures free { result ≡ None → IfSome wanted (λ w. IsGrantable (mode_at (core_seen self.now).latches) actor w.page w.mode) }
        ensures least { IfSome result (λ by. IsSomeAnd wanted (λ w. IsLeastInTheWay (mode_at (core_seen self.now).latches) actor w.page w.mode by)) }
    {
        let wanted = wanted?;
        self.latches.in_the_way(actor, wanted.page, wanted.mode)
    }

    /// Does the row: brings the wanted page, which is pinned for the step, and does what is left of it. `pins` are the pages that
    /// the actor holds.
    fn do_row(
        &mut self,
        actor: Actor,
        aim: &Aim,
        line: Option<u32>,
        pins: &[u32],
    ) -> Result<Outcome, Halt>
        requires row { MayDoRow (D.model (core_disk self.old)) (core_seen self.old) actor aim.now }
        requires line { (m : Machine) → MayStep (D.model (core_disk self.old)) (core_seen self.old) m → line ≡ number_of (hand_of (m.activity actor)) }
        requires pins { (m : Machine) → MayStep (D.model (core_disk self.old)) (core_seen self.old) m → pins.now ≡ pages_of (latches_held m.store (m.activity actor)) }
        ensures done { IfOk result (λ outcome. (m : Machine) → MayStep (D.model (core_disk self.old)) (core_seen self.old) m → MayWork m actor →
            (new : Machine) × DoesRow m actor outcome new × ShowsMachine (D.model (core_disk self.new)) (core_seen self.new) new) }
        ensures halts { IfErr result (λ halt. (m : Machine) → MayStep (D.model (core_disk self.old)) (core_seen self.old) m → MayWork m actor →
            Halts m actor halt (D.model (core_disk self.new)) (core_seen self.new)) }
        // where the core is to be stopped, everybody stands as before
        ensures reads { ReadsOnly (IsErrAnd result IsReadHalt) (D.model (core_disk self.old)) (D.model (core_disk self.new)) }
        ensures intact { IfErr result (λ halt. IsStop halt → (core_seen self.new).activities ≡ (core_seen self.old).activities) }
        ensures counts { CountsPart actor (core_seen self.old) (core_seen self.new) }
    {
        self.bring(actor, aim)?;
        match self.row_there(actor, aim.wanted, line, pins) {
            Ok(outcome) => Ok(outcome),
            Err(halt) => {
                self.let_go(aim.wanted);
                Err(halt)
            }
        }
    }

    /// Does the row at the page that came: takes a number where it makes a page, asks the decider, and performs what that says.
    fn row_there(
        &mut self,
        actor: Actor,
        wanted: Option<Wanted>,
        line: Option<u32>,
        pins: &[u32],
    ) -> Result<Outcome, Halt>
        requires row { MayNumber (D.model (core_disk self.old)) (core_seen self.old) actor wanted }
        requires line { (m : Machine) → HasCome m actor (D.model (core_disk self.old)) (core_seen self.old) → line ≡ number_of (hand_of (m.activity actor)) }
        requires pins { (m : Machine) → HasCome m actor (D.model (core_disk self.old)) (core_seen self.old) → pins.now ≡ pages_of (latches_held m.store (m.activity actor)) }
        ensures done { IfOk result (λ outcome. (m : Machine) → HasCome m actor (D.model (core_disk self.old)) (core_seen self.old) →
            (new : Machine) × DoesRow m actor outcome new × ShowsMachine (D.model (core_disk self.new)) (core_seen self.new) new) }
        ensures halts { IfErr result (λ halt. (m : Machine) → HasCome m actor (D.model (core_disk self.old)) (core_seen self.old) →
            HaltsPinned m actor halt (D.model (core_disk self.new)) (core_seen self.new)) }
        ensures reads { ReadsOnly (IsErrAnd result IsReadHalt) (D.model (core_disk self.old)) (D.model (core_disk self.new)) }
        ensures intact { IfErr result (λ halt. IsStop halt → (core_seen self.new).activities ≡ (core_seen self.old).activities) }
        ensures counts { CountsPart actor (core_seen self.old) (core_seen self.new) }
    {
        let free = self.number(actor, wanted)?;
        match self.decide(actor, wanted, free) {
            Ok(next) => {
                rows_may_be_done();
                a_store_keeps_one_file(&self.store);
                let pinned = with_wanted(wanted, pins);
                self.perform(actor, line, next, pinned.as_slice())
            }
            Err(refused) => Err(Halt::from(refused)),
        }
    }

    /// The wanted page isn't pinned for the step any more.
    fn let_go(&mut self, wanted: Option<Wanted>)
        requires { CanUnpin (page_wanted wanted) (core_seen self.old).uses }
        ensures { ChangesBy (λ c. with_order_of_use (unpin_each (page_wanted wanted) c.uses) c) self.old self.new }
    {
        if let Some(wanted) = wanted {
            self.store.unpin(wanted.page);
        }
    }
}

/// The wanted page, and the pages that the actor holds.
fn with_wanted(wanted: Option<Wanted>, pins: &[u32]) -> ArrayVec<u32, 3>
    requires { length pins.now ≤ 2 }
    ensures { result.items ≡ page_wanted wanted ++ pins.now }
{
    let mut pinned = ArrayVec::new();
    if let Some(wanted) = wanted {
        pinned.push(wanted.page);
    }
    match pins {
        [] => {}
        [one] => pinned.push(*one),
        [one, other] => {
            pinned.push(*one);
            pinned.push(*other);
        }
        _ => unreachable!(),
    }
    pinned
}
