//! What follows of these rows. Each law is the contract of a function that does nothing: a caller
//! learns it by the call.

ghost use Rattle.hb_poster.specs.Laws.{GrowthIsAllowed, PostingsAreAllowed, PostingsAreOfTheChild};

/// A file that is to grow may.
pub fn growth_is_allowed()
    ensures { GrowthIsAllowed }
{}

/// A posting is allowed, and so is the split of a parent that has no room for it. A posting is of a box
/// that the child gave.
pub fn a_posting_is_allowed()
    ensures allowed { PostingsAreAllowed }
    ensures of_child { PostingsAreOfTheChild }
{}
