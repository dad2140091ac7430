//! That there are places enough in memory, over any disk. Each law is the contract of a function that does
//! nothing: a caller learns it by the call.

ghost use Rattle.hb_steps.specs.KeptFrames.{FlushingMakesReady, PlacesAreLeft};

/// Where no page is dirty, 90 frames and more are empty or may be given up, since actors hold two
/// pages each at most. So a step that isn't ready has something to flush.
#[tactic(auto, using(crate::proofs::Machines::PlacesLeft::places_are_left, crate::proofs::Machines::PlacesLeft::flushing_makes_ready))]
pub fn places_are_left()
    ensures places { PlacesAreLeft }
    ensures ready { FlushingMakesReady }
{}
