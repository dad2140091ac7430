//! Whose lock keeps a session from the box of its next line.
ghost use Rattle.std.specs.Prelude.{◌≡◌, ◌↔◌, ◌≢◌, ◌+◌, length, None, IfSome, IsTrue, IsSomeAnd};
ghost use Rattle.hb_activity.specs.BoxLocks.{lock_of};
ghost use Rattle.hb_boxlock.specs.Locking.{Excludes};
ghost use Rattle.hb_space.specs.declared.actors.TheConstants.{ACTORS};
ghost use Rattle.hb_core.specs.Taking.{HaveBoxes, IsFirstAgainst, NoneAgainst};

use hb_activity::Activity;
use hb_boxlock::BoxLock;
use hb_space::Actor;

/// The least other actor whose lock excludes this one, where actor 1 stands first. `None` where no other actor's lock does.
pub(crate) fn first_against(activities: &[Activity], actor: Actor, lock: &BoxLock) -> Option<Actor>
    requires few { length activities.now ≡ ACTORS }
    requires boxes { HaveBoxes (length lock.now.area.lo) activities.now }
    ensures free { result ≡ None → NoneAgainst activities.now actor lock.now }
    ensures least { IfSome result (IsFirstAgainst activities.now actor lock.now) }
{
    for (place, activity) in activities.iter().enumerate() {
        let other = place as u8 + 1;
        if is_against(activity, other, actor, lock) {
            return Some(other);
        }
    }
    None
}

/// Whether another actor stands so that it has a lock which excludes this one.
fn is_against(activity: &Activity, other: Actor, actor: Actor, lock: &BoxLock) -> bool
    requires { IfSome (lock_of activity.now) (λ held. length held.area.lo ≡ length lock.now.area.lo) }
    ensures { IsTrue result ↔ ((other ≢ actor) × IsSomeAnd (lock_of activity.now) (λ held. Excludes lock.now held)) }
{
    match activity.box_lock() {
        Some(held) => other != actor && lock.excludes(&held),
        None => false,
    }
}
