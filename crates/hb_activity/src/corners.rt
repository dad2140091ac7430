ghost use Rattle.std.specs.Prelude.{◌≡◌, Some};
ghost use Rattle.hb_space.specs.Boxes.{Area as Extent, Cuts as Parts};
ghost use Rattle.hb_frag.specs.Leaves.{WellCut};
ghost use Rattle.hb_frag.specs.Paths.{part_at};
ghost use Rattle.hb_frag.specs.Trees.{Tree};
ghost use Rattle.hb_ops.specs.Cutting.{PartLeaves, half_area, reached, PlanesCut};

use hb_frag::{LivePage, Path, Side};
use hb_ops::{Cuts, LeafCut};
use hb_space::{Area, Point};

/// The lower corner of the box of the part that leaves a page: the path leads to it, and the cuts
/// are made there. Takes no memory.
#[tactic(auto, using(hb_ops::proofs::CutTests::planes_cut, hb_ops::proofs::CutTests::stays_inside))]
pub fn corner_of(page: &LivePage, path: &Path, cuts: &Cuts) -> Point
    requires well_cut { WellCut page.now }
    requires leaves { (part : Tree × Extent) × (part_at path.now page.now.frag page.now.area ≡ Some part)
        × PartLeaves cuts.now part.0 part.1 }
    ensures { (part : Tree × Extent) → part_at path.now page.now.frag page.now.area ≡ Some part →
        result ≡ (reached cuts.now part.0 part.1).1.lo }
{
    match page.subtree(path) {
        Some((_, area)) => corner_behind(area, cuts.as_slice()),
        None => unreachable!(),
    }
}

// The lower corner of the box that goes on at all cuts.
fn corner_behind(area: Area, cuts: &[LeafCut]) -> Point
    requires { PlanesCut cuts.now area }
    ensures { (tree : Tree) → result ≡ (reached cuts.now tree area).1.lo }
{
    match cuts {
        [] => area.lo().copy(),
        [cut, rest @ ..] => corner_behind(half_area(&area, *cut), rest),
    }
}

// The box of what goes on at the cut.
fn half_area(area: &Area, cut: LeafCut) -> Area
    requires { Parts area.now cut.axis cut.value }
    ensures { result ≡ half_area cut area.now }
{
    let (below, from) = area.cut(cut.axis, cut.value);
    match cut.side {
        Side::Left => below,
        Side::Right => from,
    }
}
