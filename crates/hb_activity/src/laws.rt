//! What follows of activities from their definitions alone. Each law is the contract of a function
//! that does nothing: a caller learns it by the call.

ghost use Rattle.std.specs.Prelude.{◌≡◌, ◌≢◌, ◌<◌, ◌≤◌, ◌∷◌, ℕ, List, length, Option, Some};
ghost use Rattle.hb_frag.specs.declared.pages.LivePage.{LivePage as OnePage};
ghost use Rattle.hb_latch.specs.Tables.{HeldModes, IsGrantable, IsLeastInTheWay};
ghost use Rattle.hb_activity.specs.declared.wanting.Wanted.{Wanted as OneLatch};
ghost use Rattle.hb_activity.specs.declared.activities.Activity.{Activity as Standing};
ghost use Rattle.hb_activity.specs.Holding.{held_of};
ghost use Rattle.hb_activity.specs.Waiting.{WaitsFor, IsLater, GetLater, last_page};
ghost use Rattle.hb_activity.specs.Wanting.{SessionsGoOn, WorkersGoOn, ChangersAreAlone};

/// An activity holds two latches at most. An actor may hold three, so there is always room for the
/// one that its next step wants.
#[tactic(auto, using(crate::proofs::Facts::HeldLatches::two_at_most))]
pub fn two_latches_are_held_at_most()
    ensures { (activity : Standing) (page : Option OnePage) → length (held_of activity page) ≤ 2 }
{}

/// A walk that goes on holds what it wanted, as it wanted it.
#[tactic(auto, using(crate::proofs::Facts::HeldLatches::sessions_go_on, crate::proofs::Facts::HeldLatches::workers_go_on))]
pub fn walks_hold_what_they_wanted()
    ensures sessions { SessionsGoOn }
    ensures workers { WorkersGoOn }
{}

/// Where the next step may change the file, the activity holds a page alone, or wants one so.
#[tactic(auto, using(crate::proofs::Facts::HeldLatches::changers_are_alone))]
pub fn who_may_change_is_alone()
    ensures { ChangersAreAlone }
{}

/// Whom a refused latch names, the actor waits for. Who waits for nobody may have its latch.
pub fn refusals_are_waits()
    ensures refused { (modes : HeldModes) (wants : ℕ → Option OneLatch) (actor other : ℕ)
        (wanted : OneLatch) → wants actor ≡ Some wanted →
        IsLeastInTheWay modes actor wanted.page wanted.mode other → WaitsFor modes wants actor other }
    ensures granted { (modes : HeldModes) (wants : ℕ → Option OneLatch) (actor : ℕ)
        (wanted : OneLatch) → wants actor ≡ Some wanted →
        ((other : ℕ) → ¬ (WaitsFor modes wants actor other)) →
        IsGrantable modes actor wanted.page wanted.mode }
{}

/// Coming later is a strict order.
#[tactic(auto, using(crate::proofs::Facts::LaterPages::never_itself, crate::proofs::Facts::LaterPages::onward))]
pub fn coming_later_is_an_order()
    ensures irreflexive { (a : OnePage) → ¬ (IsLater a a) }
    ensures transitive { (a b c : OnePage) → IsLater a b → IsLater b c → IsLater a c }
{}

/// Pages of which each next one comes later than the one before, two or more, never come back to
/// the first.
pub fn later_pages_never_come_back()
    ensures { (first next : OnePage) (rest : List OnePage) → GetLater first (next ∷ rest) →
        last_page first (next ∷ rest) ≢ first }
{}
