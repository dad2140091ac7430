ghost use Rattle.std.specs.Prelude.{◌≡◌, ◌≢◌, ◌≤◌, ◌+◌, ◌↔◌, ℕ, List, length, IfOk, OnErr, IsTrue, MatchOption};
ghost use Rattle.hb_space.specs.Boxes.{Area as Extent, Holds, Meets};
ghost use Rattle.hb_frag.specs.declared.paths.Side.{Side};
ghost use Rattle.hb_frag.specs.Leaves.{weight_of, WellCut};
ghost use Rattle.hb_frag.specs.Rules.{IsNormal};
ghost use Rattle.hb_frag.specs.Carving.{carved};
ghost use Rattle.hb_terms.specs.Plans.{IsPlan};
ghost use Rattle.hb_ops.specs.Owing.{NamesChildAt, Posts};

use hb_frag::{Leaf, LivePage, Path, carved_weight};
use hb_space::{Area, NoMemory, Point};
use std::alloc::Global;

/// What a posting does that makes a parent name the page to which its child gave a box.
#[derive(Debug, Drop)]
pub enum PostPlan {
    /// No page is owed a leaf of the parent at the point.
    Nothing,
    /// The parent's leaf at the way `at` is carved: the page `inner` is named over what the leaf's
    /// box has in common with `area`.
    Post { at: Path, inner: u32, area: Area },
    /// The parent has no room for that, and is split first.
    SplitFirst,
}

/// The plan for a parent, the child that its leaf at the point names, and the point, where a page
/// above level 0 may weigh at most `icap`. Only the way of a posting takes memory.
pub fn post_plan(
    alloc: Global,
    parent: &LivePage,
    child: &LivePage,
    point: &Point,
    icap: u16,
) -> Result<PostPlan, NoMemory>
    requires parent_cut { WellCut parent.now }
    requires parent_held { Holds parent.now.area point.now }
    requires child_cut { WellCut child.now }
    requires child_held { Holds child.now.area point.now }
    requires child_leaf { NamesChildAt parent.now point.now }
    requires normal { IsNormal parent.now.frag }
    requires light { weight_of parent.now.frag ≤ icap }
    ensures plan { IfOk result (IsPlan parent.now child.now point.now icap) }
    ensures memory { OnErr result ((at : List Side) × (inner : ℕ) × (area : Extent)
        × Posts parent.now child.now point.now icap at inner area) }
{
    let (leaf, leaf_area) = parent.leaf_at(point);
    let (there, area) = child.leaf_at(point);
    match owed(child_of(leaf), there) {
        None => Ok(PostPlan::Nothing),
        Some(inner) => {
            if has_room(parent, &leaf_area, &area, icap) {
                let at = parent.path_to(alloc, point)?;
                Ok(PostPlan::Post { at, inner, area })
            } else {
                Ok(PostPlan::SplitFirst)
            }
        }
    }
}

/// The page that a child leaf names.
fn child_of(leaf: &Leaf) -> u32
    requires { (page : ℕ) × (leaf.now ≡ Leaf.Child page) }
    ensures { leaf.now ≡ Leaf.Child result }
{
    match leaf {
        Leaf::Child(page) => *page,
        Leaf::Records(_) | Leaf::Sibling(_) => unreachable!(),
    }
}

/// Whom the child's leaf names as a sibling, where that isn't the page that the parent's leaf
/// names already.
fn owed(outer: u32, there: &Leaf) -> Option<u32>
    ensures { MatchOption result
        ((inner : ℕ) → there.now ≡ Leaf.Sibling inner → inner ≡ outer)
        (λ inner. (there.now ≡ Leaf.Sibling inner) × (inner ≢ outer)) }
{
    match there {
        Leaf::Sibling(inner) if *inner != outer => Some(*inner),
        Leaf::Records(_) | Leaf::Child(_) | Leaf::Sibling(_) => None,
    }
}

/// Whether the parent has room for its leaf once that is carved: what comes is a carved leaf, and
/// what goes weighs 1.
fn has_room(parent: &LivePage, leaf: &Area, area: &Area, icap: u16) -> bool
    requires meets { Meets leaf.now area.now }
    requires attributes { length area.now.lo ≡ length leaf.now.lo }
    requires light { weight_of parent.now.frag ≤ icap }
    ensures { (outer inner : ℕ) → IsTrue result
        ↔ (weight_of parent.now.frag + weight_of (carved leaf.now area.now outer inner) ≤ icap + 1) }
{
    parent.weight() + carved_weight(leaf, area) <= u32::from(icap) + 1
}
