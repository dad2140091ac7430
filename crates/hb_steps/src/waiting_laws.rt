//! Which actors wait for which, and why no circle of them does. Each law is the contract of a function
//! that does nothing: a caller learns it by the call.
//!
//! Source of the idea: Lomet and Salzberg 1992, who take latches from the root down and from container to
//! contained page, and promote one only while nothing later in that order is held.

ghost use Rattle.hb_steps.specs.WaitingLaws.{LockHoldersWork, NobodyWaitsInACircle, SomebodyGoesOn, SomebodyUnderWayGoesOn, WantedComesLater};

/// The page that a step wants comes later than each page that its actor holds: its level is lower, or the
/// level is the same and its box holds fewer points. The exception is a promotion: there the actor holds
/// that one page, for update, and no other.
pub fn what_is_wanted_comes_later()
    ensures { WantedComesLater }
{}

/// No actor waits for itself, by others in between: neither for latches nor for boxes.
#[tactic(auto, using(crate::proofs::Walks::NoCircle::nobody_waits_in_a_circle))]
pub fn nobody_waits_in_a_circle()
    ensures { NobodyWaitsInACircle }
{}

/// Where an actor is at work, not every actor at work is kept waiting. So a schedule that always takes one
/// that isn't never comes to a stand.
#[tactic(auto, using(crate::proofs::Walks::SomebodyFree::somebody_goes_on))]
pub fn somebody_goes_on()
    ensures { SomebodyGoesOn }
{}

/// Whom an idle session waits for to lock its box is at work. So where somebody is under way, at work or with
/// a line to take next, not everybody who is under way is kept back by a latch or a box.
#[tactic(auto, using(crate::proofs::Walks::LockHolders::lock_holders_work, crate::proofs::Walks::LockHolders::somebody_under_way_goes_on))]
pub fn somebody_under_way_goes_on()
    ensures holders { LockHoldersWork }
    ensures further { SomebodyUnderWayGoesOn }
{}
