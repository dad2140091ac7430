//! Rows that are worked out by hand. Each is the contract of a function that does nothing.

ghost use Rattle.hb_activity.specs.declared.jobs.Job.{Job as OneJob};
ghost use Rattle.hb_activity.specs.Sights.{Sight};
ghost use Rattle.hb_consol.specs.Examples.{DecidesByHand, KeepsByHand, ScansByHand, TakesMergesByHand, TriesByHand, TriesPairsInOrder, WalksToMergeByHand};

/// Jobs at, above and below the height of the file.
pub fn a_job_is_taken()
    ensures { (job : OneJob) → TakesMergesByHand job }
{}

/// A consolidator tries the pairs of a page from the left, and scans each child of a parent once.
pub fn pairs_are_tried_from_the_left()
    ensures { TriesPairsInOrder }
{}

/// A walk that is over, and one that goes on.
pub fn a_walk_is_over_at_a_parent()
    ensures { (job : OneJob) → WalksToMergeByHand job }
{}

/// The first pair of a child, the child behind one without pairs, and the end of the job.
pub fn children_are_scanned()
    ensures { (s : Sight) (job : OneJob) → ScansByHand s job }
{}

/// A pair that may become one, and pairs that are too heavy.
pub fn a_pair_is_tried()
    ensures { (s : Sight) (job : OneJob) → TriesByHand s job }
{}

/// A page to keep that gave a box to the page that is to go, or gave it nothing any more.
pub fn a_page_to_keep_gave_something()
    ensures { (job : OneJob) → KeepsByHand job }
{}

/// Pages that don't become one after all, and parents that are thin or not.
pub fn a_job_is_dropped()
    ensures { (s : Sight) (job : OneJob) → DecidesByHand s job }
{}
