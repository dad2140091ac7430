//! What follows from the definitions of this crate.
ghost use Rattle.hb_view.specs.Splicing.{PutsAreSplices, DeletesAreSplices};

/// A put and a delete that are allowed on a page are splices of it, and it is ordered at the point.
pub fn puts_and_deletes_are_splices()
    ensures puts { PutsAreSplices }
    ensures deletes { DeletesAreSplices }
{}
