//! What follows of the map of a sound file.
ghost use Rattle.hb_map.specs.Boxes.{EachPointHasOneBox};

use hb_sound::laws::{a_level_parts_the_space, each_page_has_a_box};

/// The boxes that a map prints with records part the space: each point lies in exactly one of them.
pub fn each_point_has_one_box()
    ensures { EachPointHasOneBox }
{
    a_level_parts_the_space();
    each_page_has_a_box();
}
