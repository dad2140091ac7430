//! What follows of these rows. Each law is the contract of a function that does nothing: a caller
//! learns it by the call.

ghost use Rattle.hb_consol.specs.Laws.{MergesAreAllowed, PairsAreNamed};

/// A page that is tried is one that the parent names, and the page to keep names it by a sibling leaf.
pub fn the_parent_names_what_is_tried()
    ensures { PairsAreNamed }
{}

/// A merge that is decided is allowed on the parent and its two children.
pub fn a_merge_is_allowed()
    ensures { MergesAreAllowed }
{}
