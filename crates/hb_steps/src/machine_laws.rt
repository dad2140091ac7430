//! What each step keeps over any disk, and what a body may know of a machine there. Each law is the
//! contract of a function that does nothing: a caller learns it by the call.

ghost use Rattle.hb_steps.specs.MachineLaws.{BoxLocksStayFit, MachineStaysKept, MachinesStayKept, NoPageIsLatchedTwice, RowsMayBeDone, WalksLeadFurther, WalksLeadOn};

use crate::file_laws::{pages_stay_pages_of_the_file, rows_are_allowed};
use crate::keeping_laws::room_stays_known;
use crate::laws::latches_stay_fit;
use hb_space::laws::held_is_a_point;
use hb_store::what_is_made_can_be_written;

/// After a step locks of different actors whose boxes meet are shared.
#[tactic(auto, using(crate::proofs::Machines::LocksKept::box_locks_stay_fit))]
pub fn box_locks_stay_fit()
    ensures { BoxLocksStayFit }
{}

/// Each step of an actor keeps what every machine keeps, and so does a list of such steps. So it
/// is over any disk, whether it tells its bytes or not.
pub fn machines_stay_kept()
    ensures step { MachineStaysKept }
    ensures steps { MachinesStayKept }
{
    pages_stay_pages_of_the_file();
    latches_stay_fit();
    room_stays_known();
}

/// The operation of a row is allowed on the pages in memory and licensed by them, and its points and boxes have as many
/// attributes as the file. So a body that works out a row may do what this says.
pub fn rows_may_be_done()
    ensures { RowsMayBeDone }
{
    rows_are_allowed();
    what_is_made_can_be_written();
    held_is_a_point();
}

/// The page that a walk latches after one that it holds comes later: it is of a lower level, or of the same level
/// with a box of fewer points. More than that, it has the walk's point in its box, and is one level down, or its box
/// lies within the held page's and isn't all of it. A page that isn't so has failed the test of its level and its
/// box, whatever the disk gave.
pub fn walks_lead_on()
    ensures later { WalksLeadOn }
    ensures further { WalksLeadFurther }
{}

/// The page that a step latches is none that its actor holds, but for a promotion.
pub fn no_page_is_latched_twice()
    ensures { NoPageIsLatchedTwice }
{}
