//! Rows of the table that are worked out by hand. Each is the contract of a function that does nothing.

ghost use Rattle.hb_set.specs.declared.commands.Reply.{Reply as OneReply};
ghost use Rattle.hb_set.specs.declared.scripts.Line.{Line as OneLine};
ghost use Rattle.hb_activity.specs.declared.jobs.Job.{Job as OneJob};
ghost use Rattle.hb_activity.specs.Examples.{KindsByHand, OwesPostings};

/// A sibling leaf owes a posting one level up; a child leaf and a leaf of records owe none.
pub fn a_sibling_leaf_owes_a_posting()
    ensures { OwesPostings }
{}

/// Of which kind an actor is, what it has in hand, and how it stands with nothing in hand.
pub fn an_actor_is_of_a_kind()
    ensures { (line : OneLine) (reply : OneReply) (job : OneJob) → KindsByHand line reply job }
{}
