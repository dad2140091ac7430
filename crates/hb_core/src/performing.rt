//! How a core does what its deciders say: latches, the queue, the order, and what becomes of the line in hand.
ghost use Rattle.std.specs.Prelude.{◌≡◌, ℕ, ◌<◌, ◌≤◌, ◌^◌, ◌++◌, [], length, take, drop, Some, None, IsSome, IsSomeAnd, IfSome, IfOk, IfErr, IsErr, OnOk, OnErr};
ghost use Rattle.std.specs.FinMap as map;
ghost use Rattle.hb_latch.specs.Tables.{IsGrantable, latches_of, mode_at};
ghost use Rattle.hb_space.specs.Actors.{IsActor};
ghost use Rattle.hb_activity.specs.Classes.{class_of, hand_of};
ghost use Rattle.hb_activity.specs.Deciding.{deed_of};
ghost use Rattle.hb_activity.specs.Queue.{AddsJobs};
ghost use Rattle.hb_activity.specs.Walks.{walk_held};
ghost use Rattle.std.specs.Option.{option_and_then};
ghost use Rattle.hb_ops.specs.Files.{if_live};
ghost use Rattle.hb_store.specs.Held.{IsTied};
ghost use Rattle.hb_store.specs.Making.{TakesMemory};
ghost use Rattle.hb_view.specs.Views.{IsLive};
ghost use Rattle.hb_store.specs.States.{StoreState};
ghost use Rattle.hb_core.specs.declared.halts.Halt.TheVariants as halts;
ghost use Rattle.hb_activity.specs.declared.dropping.DropWhy.TheVariants as drops;
ghost use Rattle.hb_core.specs.CoreSeen.{core_seen, core_disk, Alters, ChangesBy};
ghost use Rattle.hb_core.specs.Counts.{counted_by};
ghost use Rattle.hb_steps.specs.GivingUp.{gives_up, reply_for};
ghost use Rattle.hb_steps.specs.KeptFits.{class_for};
ghost use Rattle.hb_steps.specs.Machines.{AreApart, live_here};
ghost use Rattle.std.specs.Option.{option_to_list};
ghost use Rattle.hb_core.specs.Moving.{DoesDeed, KeepsFilesBy, KeepsStaying, MayCommit, MayHave, MayStand, Queues, StandsFree, StandsNow, StandsAs, joins_order, number_of, placed, placed_at, said, with_counts, with_jobs, with_latches, with_order, with_order_of_use, with_store};
ghost use Rattle.hb_steps.specs.Performing.{MayDo, Relatches, latches_held, mode_among};
ghost use Rattle.hb_core.specs.Pinning.{CanMovePins, CanPin, CanUnpin};
ghost use Rattle.hb_steps.specs.Using.{pages_of, pin_each, unpin_each, use_done};
ghost use Rattle.hb_core.specs.Going.{IsWorking};

use crate::counts::TidyCounts;
use crate::halts::Halt;
use crate::reading::idle;
use crate::state::Core;
use arrayvec::ArrayVec;
use hb_activity::{Activity, DropWhy, Fate, Job, Latch, Next};
use hb_disk::Device;
use hb_latch::Latches;
use hb_latch::laws::{each_call_changes_one_latch, each_latch_counts_once};
use hb_ops::Op;
use hb_set::Reply;
use hb_space::{Actor, NoMemory};
use hb_steps::Outcome;
use hb_view::PageView;

impl<D: Device> Core<D> {
    /// Performs what the decider said, with the number of the line that was in hand. `pins` are the pages that are pinned for the actor.
    /// For want of memory nothing changes.
    pub(crate) fn perform(
        &mut self,
        actor: Actor,
        line: Option<u32>,
        next: Next,
        pins: &[u32],
    ) -> Result<Outcome, Halt>
        requires commit { IfSome next.op (MayCommit (D.model (core_disk self.old)) (core_seen self.old)) }
        requires stand { (st : StoreState) → MayDo next.op (length (core_seen self.old).order) (core_seen self.old).store st →
            MayStand actor (mode_at (core_seen self.old).latches) st (placed_at (length (core_seen self.old).order) next.then) }
        requires room { IsSome (joins_order line next.then next.fate) → length (core_seen self.old).order < length (core_seen self.old).lines }
        requires few { length (core_seen self.old).order < 2 ^ 32 }
        requires hold { (st : StoreState) → MayDo next.op (length (core_seen self.old).order) (core_seen self.old).store st →
            IsTied st (use_done next.op (core_seen self.old).store (core_seen self.old).uses) →
            CanMovePins pins.now (pages_of (latches_held st (placed_at (length (core_seen self.old).order) next.then))) (use_done next.op (core_seen self.old).store (core_seen self.old).uses) }
        ensures does { IfOk result (λ outcome. (state : _) → line ≡ number_of (hand_of state) →
            DoesDeed actor pins.now (placed (length (core_seen self.old).order) (deed_of state next)) outcome (core_seen self.old) (core_seen self.new)) }
        ensures files { IfOk result (λ outcome. KeepsFilesBy next.op (D.model (core_disk self.old)) (core_seen self.old).store (D.model (core_disk self.new)) (core_seen self.new).store) }
        ensures why { IfErr result (λ halt. (halt ≡ halts.GivesUp drops.NoMemory) × IsSomeAnd next.op TakesMemory × (core_seen self.new ≡ core_seen self.old)) }
        ensures disk { core_disk self.new ≡ core_disk self.old }
    {
        let Next {
            then,
            op,
            jobs,
            fate,
        } = next;
        let place = self.order.len() as u32;
        let done = self.counts_with(actor, &op);
        let Ok(()) = self.commit(op, place) else {
            return Err(Halt::GivesUp(DropWhy::NoMemory));
        };
        self.store.stands_well();
        self.add_all(jobs);
        let joins = joins(line, &then, &fate);
        self.stand_with(actor, at_place(then, place), pins);
        self.join(joins);
        self.count(done);
        Ok(outcome_of(line, fate))
    }

    /// The counts once the actor has done the operation, where there is one.
    fn counts_with(&self, actor: Actor, op: &Option<Op>) -> TidyCounts
        ensures { result ≡ counted_by actor op.now (core_seen self.now).done }
    {
        match op {
            Some(op) => self.done.with_op(actor, op),
            None => self.done,
        }
    }

    /// So many operations were done.
    fn count(&mut self, done: TidyCounts)
        ensures { ChangesBy (with_counts done) self.old self.new }
    {
        self.done = done;
    }

    /// Does the operation in memory, where there is one. For want of memory nothing changes.
    fn commit(&mut self, op: Option<Op>, place: u32) -> Result<(), NoMemory>
        requires may { IfSome op (MayCommit (D.model (core_disk self.old)) (core_seen self.old)) }
        requires place { place ≡ length (core_seen self.old).order }
        ensures done { OnOk result (MayDo op place (core_seen self.old).store (core_seen self.new).store) }
        ensures uses { OnOk result ((core_seen self.new).uses ≡ use_done op (core_seen self.old).store (core_seen self.old).uses) }
        ensures stays { OnOk result (KeepsStaying op (core_seen self.old) (core_seen self.new).store) }
        ensures files { OnOk result (KeepsFilesBy op (D.model (core_disk self.old)) (core_seen self.old).store (D.model (core_disk self.new)) (core_seen self.new).store) }
        ensures same { OnErr result (core_seen self.new ≡ core_seen self.old) }
        ensures cause { IsErr result → IsSomeAnd op TakesMemory }
        ensures rest { ChangesBy (λ c. with_order_of_use (core_seen self.new).uses (with_store (core_seen self.new).store c)) self.old self.new }
    {
        match op {
            Some(op) => self.store.commit(op, place),
            None => Ok(()),
        }
    }

    /// Lets the jobs wait, one after the other.
    fn add_all(&mut self, mut jobs: ArrayVec<Job, 2>)
        requires { length jobs.items ≤ 2 }
        ensures { Alters (Queues jobs.items) self.old self.new }
    {
        self.add_first(&mut jobs);
        self.add_first(&mut jobs);
    }

    /// Lets the first of the jobs wait, where there is one.
    fn add_first(&mut self, jobs: &mut ArrayVec<Job, 2>)
        ensures jobs { Alters (Queues (take 1 jobs.old.items)) self.old self.new }
        ensures left { jobs.new.items ≡ drop 1 jobs.old.items }
    {
        if !jobs.is_empty() {
            let _ = self.jobs.add(jobs.remove(0));
        }
    }

    /// The line of the number takes effect, where there is one.
    fn join(&mut self, line: Option<u32>)
        requires room { IsSome line → length (core_seen self.old).order < length (core_seen self.old).lines }
        ensures { ChangesBy (with_order ((core_seen self.old).order ++ option_to_list line)) self.old self.new }
    {
        if let Some(line) = line {
            self.order.push(line).unwrap();
        }
    }

    /// The actor stands so from now on, and holds no page before and afterwards.
    pub(crate) fn stand(&mut self, actor: Actor, next: Activity)
        requires actor { IsActor actor }
        requires none { latches_held (core_seen self.old).store next ≡ [] }
        ensures { Alters (StandsFree actor next) self.old self.new }
    {
        self.latch_all(actor, &[]);
        let _ = self.replace(actor, next);
    }

    /// The actor stands so from now on, with the latches of that and no other. Its pins go over from these pages to those.
    pub(crate) fn stand_with(&mut self, actor: Actor, next: Activity, pins: &[u32])
        requires stand { MayStand actor (mode_at (core_seen self.old).latches) (core_seen self.old).store next }
        requires pins { CanMovePins pins.now (pages_of (latches_held (core_seen self.old).store next)) (core_seen self.old).uses }
        ensures { Alters (StandsNow actor pins.now next) self.old self.new }
    {
        let held = next.held(self.walked(&next));
        self.latch_all(actor, held.as_slice());
        self.unpin_all(pins);
        self.pin_all(held.as_slice());
        let _ = self.replace(actor, next);
    }

    /// Each of the pages is pinned once less.
    fn unpin_all(&mut self, pages: &[u32])
        requires { CanUnpin pages.now (core_seen self.old).uses }
        ensures { ChangesBy (λ c. with_order_of_use (unpin_each pages.now c.uses) c) self.old self.new }
    {
        if let [first, rest @ ..] = pages {
            self.store.unpin(*first);
            self.unpin_all(rest);
        }
    }

    /// The page of each of the latches is pinned once more.
    fn pin_all(&mut self, latches: &[Latch])
        requires { CanPin (pages_of latches.now) (core_seen self.old).uses }
        ensures { ChangesBy (λ c. with_order_of_use (pin_each (pages_of latches.now) c.uses) c) self.old self.new }
    {
        if let [first, rest @ ..] = latches {
            self.store.pin(first.page);
            self.pin_all(rest);
        }
    }

    /// The pages of the latches that the actor holds.
    pub(crate) fn held_pages(&self, actor: Actor) -> ArrayVec<u32, 2>
        requires actor { IsActor actor }
        requires walks { (activity : _) → StandsAs (core_seen self.now) actor activity → IsSome (walk_held activity) → IsSome (option_and_then (live_here (core_seen self.now).store) (walk_held activity)) }
        ensures { (activity : _) → StandsAs (core_seen self.now) actor activity → result.items ≡ pages_of (latches_held (core_seen self.now).store activity) }
    {
        let activity = self.activity(actor);
        let held = activity.held(self.walked(activity));
        pages_of(held.as_slice())
    }

    /// The page that a walk holds.
    fn walked(&self, activity: &Activity) -> Option<PageView<'_>>
        ensures live { IfSome result IsLive }
        ensures page { if_live result ≡ option_and_then (live_here (core_seen self.now).store) (walk_held activity.now) }
    {
        self.live(activity.walk_held()?)
    }

    /// The actor has these latches and no other. Nobody is in the way of them.
    fn latch_all(&mut self, actor: Actor, latches: &[Latch])
        requires { MayHave actor (mode_at (core_seen self.old).latches) latches.now }
        ensures latches { Relatches actor latches.now (core_seen self.old).latches (core_seen self.new).latches }
        ensures rest { ChangesBy (with_latches (core_seen self.new).latches) self.old self.new }
    {
        each_call_changes_one_latch();
        each_latch_counts_once();
        self.latches.release_all(actor);
        match latches {
            [] => {}
            [one] => take(&mut self.latches, actor, *one),
            [one, other] => {
                take(&mut self.latches, actor, *one);
                take(&mut self.latches, actor, *other);
            }
            _ => unreachable!(),
        }
    }

    /// What the actor has in hand is given up: a line is answered outside the order, and a job is dropped.
    /// Its pages, which are these, are pinned for it no more.
    pub(crate) fn give_up(
        &mut self,
        actor: Actor,
        line: Option<u32>,
        why: DropWhy,
        pins: &[u32],
    ) -> Outcome
        requires actor { IsActor actor }
        requires pins { CanUnpin pins.now (core_seen self.old).uses }
        requires tied { IsTied (core_seen self.old).store (core_seen self.old).uses }
        ensures { Alters (λ c after. (state : _) → IsWorking state → class_of state ≡ class_for actor → line ≡ number_of (hand_of state) →
            DoesDeed actor pins.now (gives_up why state) result c after) self.old self.new }
    {
        self.stand_with(actor, idle(actor), pins);
        match line {
            Some(line) => Outcome::Answered {
                line,
                reply: reply_for(why),
            },
            None => Outcome::Dropped(why),
        }
    }
}

/// Takes a latch that nobody is in the way of.
fn take(latches: &mut Latches, actor: Actor, latch: Latch)
    requires actor { IsActor actor }
    requires few { latches_of latches.old actor < 3 }
    requires absent { mode_at latches.old actor latch.page ≡ None }
    requires free { IsGrantable (mode_at latches.old) actor latch.page latch.mode }
    ensures { latches.new ≡ map.insert latches.old (actor, latch.page) latch.mode }
{
    match latches.try_take(actor, latch.page, latch.mode) {
        Ok(()) => {}
        Err(_) => unreachable!(),
    }
}

/// A session that awaits its place awaits this one.
fn at_place(then: Activity, place: u32) -> Activity
    ensures { result ≡ placed_at place then }
{
    match then {
        Activity::SessionAwait { line, reply, .. } => Activity::SessionAwait { line, reply, place },
        other => other,
    }
}

/// The number of the line that joins the order: of the one in hand, where it takes effect and its session awaits its place.
fn joins(line: Option<u32>, then: &Activity, fate: &Fate) -> Option<u32>
    ensures { result ≡ joins_order line then.now fate.now }
{
    match (then, fate) {
        (Activity::SessionAwait { .. }, Fate::TakesEffect) => line,
        _ => None,
    }
}

/// What a step comes to that has this line in hand: its fate.
fn outcome_of(line: Option<u32>, fate: Fate) -> Outcome
    ensures { result ≡ said line fate }
{
    match (line, fate) {
        (Some(line), Fate::Answers(reply)) => Outcome::Answered { line, reply },
        _ => Outcome::Moved,
    }
}

/// What a line is answered that is given up.
fn reply_for(why: DropWhy) -> Reply
    ensures { result ≡ reply_for why }
{
    match why {
        DropWhy::NoMemory => Reply::NoMemory,
        DropWhy::ReadFault => Reply::ReadFault,
    }
}

/// The pages of the latches.
fn pages_of(latches: &[Latch]) -> ArrayVec<u32, 2>
    requires { length latches.now ≤ 2 }
    ensures { result.items ≡ pages_of latches.now }
{
    let mut pages = ArrayVec::new();
    match latches {
        [] => {}
        [one] => pages.push(one.page),
        [one, other] => {
            pages.push(one.page);
            pages.push(other.page);
        }
        _ => unreachable!(),
    }
    pages
}
