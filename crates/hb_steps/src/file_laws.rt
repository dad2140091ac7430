//! What a step does to the file, to its contents and to the order. Each law is the contract of a function
//! that does nothing: a caller learns it by the call.

ghost use Rattle.hb_steps.specs.AllowedLaws.{RowsAreAllowed};
ghost use Rattle.hb_steps.specs.ContentsLaws.{ContentsFollowOrder, PointsStay};
ghost use Rattle.hb_steps.specs.FileLaws.{FilesStaySound, LinesStayFit, MetaStaysWithinLimits, PagesStayOfFile, RowsAreLicensed};
ghost use Rattle.hb_steps.specs.OrderLaws.{OrderStaysLegal, SearchesAreRight, SearchesStayExact, SequenceStays};
ghost use Rattle.hb_steps.specs.SteppingLaws.{BeginningExists, BeginningKeeps, BeginningKeepsAll};

use crate::laws::a_step_leaves_other_actors_alone;
use hb_sound::laws::{operations_keep_a_file_sound, what_stands_is_what_the_contents_have};
use hb_space::laws::held_is_a_point;
use hb_store::what_is_made_can_be_written;

/// What the lines of the script and those in hand would store can be stored, after a step, too.
#[tactic(auto, using(crate::proofs::Orders::LinesFit::lines_stay_fit))]
pub fn lines_stay_fit()
    ensures { LinesStayFit }
{}

/// After a step every page in memory is one of the file and keeps the rules that speak of a page alone,
/// and what the file says of itself is within its limits, where each actor holds the latches of its activity.
/// So it is over every disk.
pub fn pages_stay_pages_of_the_file()
    ensures pages { PagesStayOfFile }
    ensures within { MetaStaysWithinLimits }
{
    what_is_made_can_be_written();
    held_is_a_point();
}

/// The operation that a row does may be done in the file: it is allowed and licensed there.
pub fn rows_are_licensed()
    ensures { RowsAreLicensed }
{
    what_is_made_can_be_written();
    held_is_a_point();
}

/// After a step every file is sound: the durable one, and that after each group that waits.
pub fn files_stay_sound()
    ensures { FilesStaySound }
{
    what_is_made_can_be_written();
    held_is_a_point();
    operations_keep_a_file_sound();
}

/// A step leaves the contents as they are, and no line joins the order; or its actor's line joins it, and
/// takes effect on them. So it changes what the file has under a point only where that line changes the
/// point.
pub fn contents_follow_the_order()
    ensures contents { ContentsFollowOrder }
    ensures points { PointsStay }
{
    what_is_made_can_be_written();
    held_is_a_point();
    operations_keep_a_file_sound();
    what_stands_is_what_the_contents_have();
}

/// After a step each session still answers its lines in their order: the line that it has in hand, or for
/// whose place it waits, is its first one without an answer.
#[tactic(auto, using(crate::proofs::Orders::Sequences::sequence_stays))]
pub fn sequence_stays()
    ensures { SequenceStays }
{}

/// After a step each search has found exactly the records of the contents that its box holds and none of its
/// remaining boxes does. So the reply of a search that takes effect is the machine's.
pub fn searches_are_exact()
    ensures exact { SearchesStayExact }
    ensures replies { SearchesAreRight }
{
    contents_follow_the_order();
    held_is_a_point();
    what_stands_is_what_the_contents_have();
}

/// After a step the order is legal, and the file has its result.
pub fn the_order_stays_legal()
    ensures { OrderStaysLegal }
{
    contents_follow_the_order();
    searches_are_exact();
}

/// Where a row has an operation, that is allowed on the pages in memory, where its actor holds the latches of
/// its activity: nothing but the row's own condition keeps it from being done.
#[tactic(auto, using(crate::proofs::Files::AllowedRows::rows_are_allowed))]
pub fn rows_are_allowed()
    ensures { RowsAreAllowed }
{}

/// A machine that has taken no step keeps what every machine keeps, over any disk.
pub fn a_beginning_keeps_what_a_machine_keeps()
    ensures { BeginningKeeps }
{}

/// A machine that has taken no step, over a disk that tells a sound file, keeps all that a machine keeps there,
/// from the contents of the file.
pub fn a_beginning_keeps_all()
    ensures { BeginningKeepsAll }
{}

/// Over each sound file and for each script that fits it there is a machine that has taken no step. So what
/// is said of such a machine is said of something.
#[tactic(auto, using(crate::proofs::Machines::Beginnings::beginning_exists))]
pub fn there_is_a_beginning()
    ensures { BeginningExists }
{}
