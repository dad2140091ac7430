//! Rows that are worked out by hand. Each is the contract of a function that does nothing.

ghost use Rattle.hb_activity.specs.declared.jobs.Job.{Job as OneJob};
ghost use Rattle.hb_activity.specs.Sights.{Sight};
ghost use Rattle.hb_poster.specs.Examples.{GrowsByHand, LooksByHand, PostsByHand, SplitsParentsByHand, TakesByHand, WalksByHand};

/// Jobs above, at and below the height of the file.
pub fn a_job_is_taken()
    ensures { (job : OneJob) → TakesByHand job }
{}

/// A file that gets a level, and files that don't.
pub fn a_file_gets_a_level()
    ensures { (s : Sight) (job : OneJob) → GrowsByHand s job }
{}

/// A walk that is over, and walks that go on.
pub fn a_walk_is_over_at_a_child()
    ensures { (job : OneJob) → WalksByHand job }
{}

/// A child that owes a posting at one point, and none at another.
pub fn a_child_is_looked_at()
    ensures { (s : Sight) (job : OneJob) → LooksByHand s job }
{}

/// The posting has exactly the box that the child gave.
pub fn a_box_is_posted()
    ensures { (s : Sight) (job : OneJob) → PostsByHand s job }
{}

/// A parent without room is split, where a page is free.
pub fn a_parent_without_room_is_split()
    ensures { (s : Sight) (job : OneJob) → SplitsParentsByHand s job }
{}
