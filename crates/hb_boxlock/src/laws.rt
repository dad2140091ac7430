//! What follows of locks from their definitions alone. Each law is the contract of a function that does
//! nothing: a caller learns it by the call.

ghost use Rattle.std.specs.Prelude.{ℕ};
ghost use Rattle.std.specs.FinMap as map;
ghost use Rattle.hb_boxlock.specs.Laws.{AloneHasItsPoints, ReleasedMayBeHad, ReleasesOneLock, ReleasingKeepsAttributes, ReleasingKeepsThemShared, SharedKeepsNone, TakesOneLock, TakingKeepsAttributes, TakingKeepsThemShared};
ghost use Rattle.hb_boxlock.specs.Locking.{AreSharedWhereTheyMeet, HaveAttributes};

/// What is taken changes one actor's lock, and so does what is released.
#[tactic(auto, using(crate::proofs::Places::after_insert, crate::proofs::Places::after_remove))]
pub fn each_call_changes_one_lock()
    ensures taken { TakesOneLock }
    ensures released { ReleasesOneLock }
{}

/// Where locks of two actors that meet are shared, they are after each call, too: no box is locked, one
/// is taken that nobody keeps the actor from, one is released.
#[tactic(auto, using(crate::proofs::Sharing::none_shared, crate::proofs::Sharing::taken_shared, crate::proofs::Sharing::released_shared))]
pub fn locks_that_meet_stay_shared()
    ensures none { AreSharedWhereTheyMeet map.empty }
    ensures taken { TakingKeepsThemShared }
    ensures released { ReleasingKeepsThemShared }
{}

/// What an actor had and gave back it may have again.
#[tactic(auto, using(crate::proofs::Sharing::released_again))]
pub fn a_released_lock_may_be_taken_again()
    ensures { ReleasedMayBeHad }
{}

/// Two shared locks never keep each other's actors away.
#[tactic(auto, using(crate::proofs::Sharing::shared_together))]
pub fn shared_locks_go_together()
    ensures { SharedKeepsNone }
{}

/// A box that an actor has for itself alone has no point in common with another actor's.
#[tactic(auto, using(crate::proofs::Sharing::alone_there))]
pub fn a_lock_for_one_alone_has_its_points()
    ensures { AloneHasItsPoints }
{}

/// Where each locked box has so many attributes, each has so many after each call, too.
#[tactic(auto, using(crate::proofs::Facts::LockedBoxes::none_locked, crate::proofs::Facts::LockedBoxes::attributes_taken, crate::proofs::Facts::LockedBoxes::attributes_released))]
pub fn locked_boxes_keep_their_attributes()
    ensures none { (k : ℕ) → HaveAttributes map.empty k }
    ensures taken { TakingKeepsAttributes }
    ensures released { ReleasingKeepsAttributes }
{}
