//! That a body may ask the deciders of the rows at the pages that its step has at hand. Each law is the
//! contract of a function that does nothing: a caller learns it by the call.

ghost use Rattle.hb_steps.specs.AskedLaws.{ChildrenMayBeAsked, MergerWalksMayBeAsked, OthersMayBeAsked, PagesAtHandFit, PairsMayBeAsked, PointsMayBeAsked, PosterWalksMayBeAsked, PutsMayBeAsked, SearchesMayBeAsked, SplitsMayBeAsked, WalksStayInside};

/// Every page in memory keeps the rules that speak of a page alone, in a file within its limits.
pub fn pages_at_hand_fit()
    ensures { PagesAtHandFit }
{}

/// The page at hand of a walk has the walk's point in its box.
pub fn walks_stay_inside()
    ensures { WalksStayInside }
{}

/// The decider of commands on a point may be asked at the page of a walk, where the line isn't a search;
/// with the page that is to be split; and with both halves of one that was split.
#[tactic(auto, using(crate::proofs::Walks::MayBeAsked::points_may_be_asked, crate::proofs::Walks::MayBeAsked::splits_may_be_asked, crate::proofs::Walks::MayBeAsked::puts_may_be_asked))]
pub fn points_may_be_asked()
    ensures walks { PointsMayBeAsked }
    ensures splits { SplitsMayBeAsked }
    ensures puts { PutsMayBeAsked }
{}

/// The decider of searches may be asked at the page of a walk, where the line is a search.
#[tactic(auto, using(crate::proofs::Walks::MayBeAsked::searches_may_be_asked))]
pub fn searches_may_be_asked()
    ensures { SearchesMayBeAsked }
{}

/// The decider of the poster may be asked at the page of its walk, at a child together with its parent,
/// and where the file gets a level or the parent is to be had alone.
#[tactic(auto, using(crate::proofs::Walks::MayBeAsked::poster_walks_may_be_asked, crate::proofs::Walks::MayBeAsked::others_may_be_asked))]
pub fn the_poster_may_be_asked()
    ensures walks { PosterWalksMayBeAsked }
    ensures children { ChildrenMayBeAsked }
    ensures others { OthersMayBeAsked }
{}

/// The decider of the consolidator may be asked at the page of its walk, and at a parent, with that and the
/// page to keep.
#[tactic(auto, using(crate::proofs::Walks::AskedToMerge::merger_walks_may_be_asked, crate::proofs::Walks::AskedToMerge::pairs_may_be_asked))]
pub fn the_consolidator_may_be_asked()
    ensures walks { MergerWalksMayBeAsked }
    ensures pairs { PairsMayBeAsked }
{}
