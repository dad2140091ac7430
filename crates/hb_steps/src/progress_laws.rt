//! What an image of the disk opens to at each moment, and that somebody may always go on. Each law is the
//! contract of a function that does nothing: a caller learns it by the call.

ghost use Rattle.hb_steps.specs.MomentLaws.{ImagesHavePrefixes};
ghost use Rattle.hb_steps.specs.ProgressLaws.{SomebodyGoesOnNow};

use hb_sound::laws::{a_level_parts_the_space, a_walk_ends_at_the_responsible_page};

/// Bytes that open to the durable file, or to the file after all groups that wait, open to a sound
/// file that has the set after a prefix of the order, with each line answered by then; and each point has
/// exactly one responsible page in it.
pub fn images_have_prefixes()
    ensures { ImagesHavePrefixes }
{
    a_walk_ends_at_the_responsible_page();
    a_level_parts_the_space();
}

/// In a machine that runs and has something left, a line without an answer, a job that waits or an actor at
/// work, there is an actor of whom no step waits for another one or finds nothing to do.
#[tactic(auto, using(crate::proofs::Walks::WhoGoesOn::somebody_goes_on_now))]
pub fn somebody_goes_on_now()
    ensures { SomebodyGoesOnNow }
{}
