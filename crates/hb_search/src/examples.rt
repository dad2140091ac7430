//! Rows that are worked out by hand. Each is the contract of a function that does nothing.

ghost use Rattle.hb_set.specs.declared.scripts.Line.{Line as OneLine};
ghost use Rattle.hb_activity.specs.Sights.{Sight};
ghost use Rattle.hb_search.specs.Examples.{SearchesByHand};

/// A search gathers records of a leaf, and what of its box lies outside the leaf remains. With the last
/// box it takes effect.
pub fn a_search_goes_through_leaves()
    ensures { (s : Sight) (line : OneLine) → SearchesByHand s line }
{}
