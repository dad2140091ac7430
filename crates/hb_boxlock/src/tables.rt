ghost use Rattle.std.specs.Prelude.{◌≡◌, ◌≢◌, ◌<◌, ◌+◌, ◌↔◌, length, None, IsOk, IsSome, IsSomeAnd, IsTrue, IfErr, IfSome, OnOk, OnErr};
ghost use Rattle.std.specs.Option.{option_copied};
ghost use Rattle.std.specs.FinMap as map;
ghost use Rattle.hb_boxlock.specs.Locking.{Excludes, HaveAttributes, IsLeastToKeep, MayHaveLock, lock_at, lock_on};
ghost use Rattle.hb_space.specs.Actors.{IsActor};
ghost use Rattle.hb_boxlock.specs.Slots.{table_from};

use crate::BoxLock;
use hb_space::actors::ACTORS;
use hb_space::{Actor, Area};
use std::marker::Model;

/// The locks that actors have, one at most for each.
#[derive(Drop)]
pub struct BoxLocks {
    // the lock of actor n stands at n - 1
    places: [Option<BoxLock>; ACTORS],
}

/// Why a lock is refused: this actor has a box that meets it, and one of the two isn't shared. Of
/// several it is the least one.
#[derive(Clone, Copy, Debug, PartialEq, Eq)]
pub struct HeldBy(pub Actor);

impl Model for BoxLocks {
    ghost use Rattle.std.specs.Prelude.{◌≡◌, length};
    ghost use Rattle.std.specs.FinMap as map;
    ghost use Rattle.std.specs.Ordering.{nat_cmp};
    ghost use Rattle.hb_space.specs.declared.actors.TheConstants.{ACTORS};
    ghost use Rattle.hb_boxlock.specs.declared.locks.BoxLock.{BoxLock};
    ghost use Rattle.hb_boxlock.specs.Slots.{table_from};

    ghost Value = { map.FinMap nat_cmp BoxLock };

    ghost use Rattle.hb_boxlock.specs.contracts.locks.BoxLock as lock;
    ghost use Rattle.std.specs.Coded.{coded_ℕ};

    ghost coded = { map.code coded_ℕ lock.the_row.coded };

    ghost view = { λ l. table_from 1 l.places };

    ghost invariant = { λ l. length l.places ≡ ACTORS };
}

impl BoxLocks {
    /// No box is locked.
    pub fn new() -> BoxLocks
        ensures { result ≡ map.empty }
    {
        BoxLocks {
            places: Default::default(),
        }
    }

    /// Locks the box for the actor, for itself alone or shared, unless another actor's lock excludes
    /// that.
    pub fn try_take(&mut self, actor: Actor, area: Area, share: bool) -> Result<(), HeldBy>
        requires actor { IsActor actor }
        requires absent { lock_at self.old actor ≡ None }
        requires attributes { HaveAttributes self.old (length area.lo) }
        ensures granted { IsOk result ↔ MayHaveLock self.old actor (lock_on area share) }
        ensures refused { IfErr result (λ by. IsLeastToKeep self.old actor (lock_on area share) by.0) }
        ensures taken { OnOk result (self.new ≡ map.insert self.old actor (lock_on area share)) }
        ensures same { OnErr result (self.new ≡ self.old) }
    {
        let lock = BoxLock {
            area,
            shared: share,
        };
        if let Some(other) = first_against(&self.places, actor, &lock) {
            return Err(HeldBy(other));
        }
        self.places[place_of(actor)] = Some(lock);
        Ok(())
    }

    /// Gives back the actor's lock.
    pub fn release(&mut self, actor: Actor)
        requires actor { IsActor actor }
        requires held { IsSome (lock_at self.old actor) }
        ensures { self.new ≡ map.remove self.old actor }
    {
        self.places[place_of(actor)] = None;
    }

    /// The least other actor whose lock excludes this one. `None` where there is none: then the actor may
    /// have the lock.
    pub fn in_the_way(&self, actor: Actor, lock: &BoxLock) -> Option<Actor>
        requires { HaveAttributes self.now (length lock.now.area.lo) }
        ensures free { (result ≡ None) ↔ MayHaveLock self.now actor lock.now }
        ensures least { IfSome result (IsLeastToKeep self.now actor lock.now) }
    {
        first_against(&self.places, actor, lock)
    }

    /// The lock that the actor has, if it has one.
    pub fn lock_of(&self, actor: Actor) -> Option<&BoxLock>
        requires { IsActor actor }
        ensures { option_copied result ≡ lock_at self.now actor }
    {
        match &self.places[place_of(actor)] {
            Some(lock) => Some(lock),
            None => None,
        }
    }
}

// Where the actor's lock stands.
fn place_of(actor: Actor) -> usize
    requires { IsActor actor }
    ensures place { result + 1 ≡ actor }
    ensures few { result < ACTORS }
{
    usize::from(actor) - 1
}

// The least other actor whose lock excludes this one.
fn first_against(places: &[Option<BoxLock>], actor: Actor, lock: &BoxLock) -> Option<Actor>
    requires few { length places.now ≡ ACTORS }
    requires attributes { HaveAttributes (table_from 1 places.now) (length lock.now.area.lo) }
    ensures free { (result ≡ None) ↔ MayHaveLock (table_from 1 places.now) actor lock.now }
    ensures least { IfSome result (IsLeastToKeep (table_from 1 places.now) actor lock.now) }
{
    for (place, held) in places.iter().enumerate() {
        let other = place as u8 + 1;
        if is_against(held, other, actor, lock) {
            return Some(other);
        }
    }
    None
}

// Whether there is a lock of another actor that excludes this one.
fn is_against(held: &Option<BoxLock>, other: Actor, actor: Actor, lock: &BoxLock) -> bool
    requires { IfSome held.now (λ held. length held.area.lo ≡ length lock.now.area.lo) }
    ensures { IsTrue result ↔ ((other ≢ actor) × IsSomeAnd held.now (λ held. Excludes lock.now held)) }
{
    match held {
        Some(held) => other != actor && lock.excludes(held),
        None => false,
    }
}
