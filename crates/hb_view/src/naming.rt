//! Leaves looked for by the page that they name, or by their place, in a tree that stands at the front of bytes.
ghost use Rattle.std.specs.Prelude.{◌≡◌, ◌+◌, length, None, IfErr, IfOk, IfSome, MatchOption, option_map};
ghost use Rattle.std.specs.List.{slice_get};
ghost use Rattle.hb_frag.specs.Leaves.{IsWellCut, leaves_of};
ghost use Rattle.hb_view.specs.Naming.{named_box, StopsAtLeaf};
ghost use Rattle.hb_view.specs.Seen.{tree_seen, rest_seen, area_seen};
ghost use Rattle.hb_view.specs.Views.{ShowsLeaf};

use crate::LeafView;
use crate::bounds::Bounds;
use crate::lists::rest_behind_list;
use crate::roots::{Root, root_of};
use crate::trees::{Inside, ListView, TreeView};
use hb_space::Area;

/// Goes over a tree with this box, to the first leaf that is this one. There it stops, and the box is the leaf's. Where no
/// leaf is, the box stays as it is.
fn past_named<'a>(tree: &TreeView<'a>, bounds: &mut Bounds, sought: LeafView) -> Option<&'a [u8]>
    requires well_cut { IsWellCut (tree_seen tree.now) bounds.old }
    ensures stops { StopsAtLeaf (named_box sought (leaves_of (tree_seen tree.now) bounds.old))
        bounds.new (rest_seen tree.now) (option_map (λ b. b.now) result) }
    ensures same { IfSome result (λ b. bounds.new ≡ bounds.old) }
{
    let k = tree.k;
    match root_of(tree) {
        Root::Cut { axis, value, left } => {
            let greatest = bounds.take_below(axis, value);
            let right = past_named(&TreeView { k, bytes: left }, bounds, sought)?;
            bounds.put_hi(axis, greatest);
            let least = bounds.take_from(axis, value);
            let rest = past_named(&TreeView { k, bytes: right }, bounds, sought)?;
            bounds.put_lo(axis, least);
            Some(rest)
        }
        Root::Records { count, first } => Some(rest_behind_list(&ListView { k, count, first })),
        Root::Child { page, rest } => past_tip(LeafView::Child(page), rest, sought),
        Root::Sibling { page, rest } => past_tip(LeafView::Sibling(page), rest, sought),
    }
}

/// The bytes behind a leaf, unless it is the one that is looked for.
fn past_tip(leaf: LeafView, rest: &[u8], sought: LeafView) -> Option<&[u8]>
    ensures { MatchOption (option_map (λ b. b.now) result) (sought ≡ leaf) (λ b. (b ≡ rest.now) × (¬ (sought ≡ leaf))) }
{
    if sought == leaf { None } else { Some(rest) }
}

/// The box of the first leaf from the left that is this one.
pub(crate) fn named_in(inside: &Inside<'_>, sought: LeafView) -> Option<Area>
    requires well_cut { IsWellCut (tree_seen inside.now.tree) (area_seen inside.now) }
    ensures { result ≡ named_box sought (leaves_of (tree_seen inside.now.tree) (area_seen inside.now)) }
{
    let mut bounds = Bounds::of(inside);
    match past_named(&inside.tree, &mut bounds, sought) {
        Some(_) => None,
        None => Some(bounds.area()),
    }
}

/// Goes over a tree with this box, to the leaf at this place from the left. There it stops, and the box is the leaf's. Where
/// the tree has fewer leaves, the box stays as it is, and it hands on the place behind it.
fn past_place<'a>(
    tree: &TreeView<'a>,
    bounds: &mut Bounds,
    place: u32,
) -> Result<(u32, &'a [u8]), LeafView>
    requires well_cut { IsWellCut (tree_seen tree.now) bounds.old }
    ensures leaf { IfErr result (λ view. ShowsLeaf
        (slice_get (leaves_of (tree_seen tree.now) bounds.old) place)
        view bounds.new) }
    ensures past { IfOk result (λ r. place ≡ length (leaves_of (tree_seen tree.now) bounds.old) + r.0) }
    ensures rest { IfOk result (λ r. r.1.now ≡ rest_seen tree.now) }
    ensures same { IfOk result (λ r. bounds.new ≡ bounds.old) }
{
    let k = tree.k;
    match root_of(tree) {
        Root::Cut { axis, value, left } => {
            let greatest = bounds.take_below(axis, value);
            let (behind, right) = past_place(&TreeView { k, bytes: left }, bounds, place)?;
            bounds.put_hi(axis, greatest);
            let least = bounds.take_from(axis, value);
            let further = past_place(&TreeView { k, bytes: right }, bounds, behind)?;
            bounds.put_lo(axis, least);
            Ok(further)
        }
        Root::Records { count, first } => {
            if place == 0 {
                return Err(LeafView::Records);
            }
            Ok((place - 1, rest_behind_list(&ListView { k, count, first })))
        }
        Root::Child { page, rest } => past_one(LeafView::Child(page), rest, place),
        Root::Sibling { page, rest } => past_one(LeafView::Sibling(page), rest, place),
    }
}

/// The place behind a leaf and the bytes behind it, unless the place is its own.
fn past_one(leaf: LeafView, rest: &[u8], place: u32) -> Result<(u32, &[u8]), LeafView>
    ensures leaf { IfErr result (λ view. (place ≡ 0) × (view ≡ leaf)) }
    ensures past { IfOk result (λ r. place ≡ 1 + r.0) }
    ensures rest { IfOk result (λ r. r.1.now ≡ rest.now) }
{
    if place == 0 {
        return Err(leaf);
    }
    Ok((place - 1, rest))
}

/// The leaf at this place from the left with its box. `None` behind the last leaf.
pub(crate) fn leaf_of_place(inside: &Inside<'_>, place: u32) -> Option<(LeafView, Area)>
    requires well_cut { IsWellCut (tree_seen inside.now.tree) (area_seen inside.now) }
    ensures { MatchOption result (slice_get (leaves_of (tree_seen inside.now.tree) (area_seen inside.now)) place ≡ None)
        (λ r. ShowsLeaf (slice_get (leaves_of (tree_seen inside.now.tree) (area_seen inside.now)) place) r.0 r.1) }
{
    let mut bounds = Bounds::of(inside);
    match past_place(&inside.tree, &mut bounds, place) {
        Ok(_) => None,
        Err(leaf) => Some((leaf, bounds.area())),
    }
}
