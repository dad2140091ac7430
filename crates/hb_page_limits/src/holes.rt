//! Boxes with a hole, each with any of its sides free: what lies outside the hole, and a leaf that is carved by it.

ghost use Rattle.std.specs.Prelude.{◌≡◌, length, IsTrue};
ghost use Rattle.hb_space.specs.Boxes.{Meets};

use crate::shapes::{area, hole_in};
use hb_frag::carve;
use hb_space::Area;
use std::alloc::Global;

/// Whether the two have as many attributes and share a point.
fn meet(area: &Area, hole: &Area) -> bool
    ensures attributes { IsTrue result → length hole.now.lo ≡ length area.now.lo }
    ensures meets { IsTrue result → Meets area.now hole.now }
{
    area.lo().attributes() == hole.lo().attributes() && area.meets(hole)
}

/// A hole that leaves one piece outside for each bit of the mask.
fn is_carved(alloc: Global, k: u8, mask: u32) -> Option<()> {
    let around = area(k, [10; 4], [99; 4])?;
    let hole = hole_in(&around, mask)?;
    if !meet(&around, &hole) {
        return None;
    }
    carve(alloc, &around, &hole, 1, 2).ok()?;
    around.outside(alloc, &hole).ok()?;
    Some(())
}

/// All holes of one to four attributes.
pub(crate) fn all_holes(alloc: Global) -> Option<()> {
    for (k, masks) in [(1, 4), (2, 16), (3, 64), (4, 256)] {
        for mask in 0..masks {
            is_carved(alloc, k, mask)?;
        }
    }
    Some(())
}
