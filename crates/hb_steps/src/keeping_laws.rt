//! What each step keeps of the walks, the room and the groups that wait, and what follows for a list
//! of steps. Each law is the contract of a function that does nothing: a caller learns it by the call.

ghost use Rattle.hb_steps.specs.DoableLaws.{PutsFindRoom, RowsCanBeDone};
ghost use Rattle.hb_steps.specs.KeepingLaws.{AnswersAreInPlace, BegunKeepsAll, FilesHavePrefixes, NobodyElseComes, PrefixStaysPending, RoomStaysKnown, SettledStaysSettled, StepsKeepAll, WalksStayInSpace};
ghost use Rattle.hb_steps.specs.SteppingLaws.{StepsGoOn, StoppedStays};

use crate::file_laws::{
    a_beginning_keeps_all, files_stay_sound, rows_are_allowed, searches_are_exact,
    the_order_stays_legal,
};
use crate::machine_laws::machines_stay_kept;
use hb_frag::laws::{each_point_has_one_leaf, leaves_part_the_box, parts_are_stretches};
use hb_layout::limits::limits_of_this_version;

/// Under no number but those of the actors anybody comes to stand.
#[tactic(auto, using(crate::proofs::Facts::StillThere::nobody_else_comes))]
pub fn nobody_else_comes()
    ensures stands { NobodyElseComes }
{}

/// After a step the page that a walk holds has the walk's point in its box, and the parent that a poster
/// holds has a child leaf at the job's point.
#[tactic(auto, using(crate::proofs::Walks::WalksKept::walks_stay_in_space))]
pub fn walks_stay_in_space()
    ensures { WalksStayInSpace }
{}

/// After a step a page that is to be split directly holds the point of its insert, without a record there
/// and without room, and one of the two halves of a split directly holds it, without a record there and
/// with room. So it is over every disk.
pub fn room_stays_known()
    ensures { RoomStaysKnown }
{
    leaves_part_the_box();
    each_point_has_one_leaf();
    parts_are_stretches();
    limits_of_this_version();
}

/// A session puts its record into the half of a split that has room, since the halves never both hold its
/// point. So where a row has an operation, that is allowed on the pages in memory, over every disk.
pub fn rows_can_be_done()
    ensures room { PutsFindRoom }
    ensures allowed { RowsCanBeDone }
{
    rows_are_allowed();
}

/// A line is answered once its place in the order is settled, or outside of the order.
#[tactic(auto, using(crate::proofs::Orders::AnswersInPlace::answers_are_in_place))]
pub fn answers_are_in_place()
    ensures { AnswersAreInPlace }
{}

/// After a step the file before each group that waits has the set after as many entries of the order as
/// its mark says, marks don't fall, and each answered entry stands below the oldest one's. No step
/// unsettles a place of the order.
pub fn prefix_stays_pending()
    ensures prefix { PrefixStaysPending }
    ensures settled { SettledStaysSettled }
{}

/// The durable file has the set after a prefix of the order that has each answered entry, and the file
/// after each group that waits has the set after one that is at least as long.
pub fn files_have_prefixes()
    ensures { FilesHavePrefixes }
{}

/// Over a list of steps the lines stay, the order and the answers only grow, at their ends, and the clock
/// never falls. Each answer that came has a value of the clock between the first and the last one. A machine
/// that is stopped stays as it is.
pub fn steps_go_on()
    ensures further { StepsGoOn }
    ensures stopped { StoppedStays }
{}

/// A list of steps of actors keeps all that a machine keeps over a disk that tells, and unsettles no
/// place of the order; and so it is from a beginning on.
pub fn steps_keep_all()
    ensures steps { StepsKeepAll }
    ensures begun { BegunKeepsAll }
{
    a_beginning_keeps_all();
    machines_stay_kept();
    files_stay_sound();
    searches_are_exact();
    the_order_stays_legal();
}
