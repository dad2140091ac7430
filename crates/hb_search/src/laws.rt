//! What follows of this row. Each law is the contract of a function that does nothing: a caller learns
//! it by the call.

ghost use Rattle.hb_search.specs.Laws.{SearchesBeginApart, SearchesChangeNothing, SearchesHaveOneDeed};

/// A search has one deed at a page, and changes neither file nor queue.
pub fn a_search_has_one_deed()
    ensures one { SearchesHaveOneDeed }
    ensures nothing { SearchesChangeNothing }
{}

/// A search that begins may be asked of: `next` keeps that from then on.
#[tactic(auto, using(crate::proofs::Facts::BeginsApart::begins_apart))]
pub fn a_search_begins_apart()
    ensures { SearchesBeginApart }
{}
