//! The rules that a page in use keeps by itself, told from the bytes of its tree. Each walk reads over the bytes once, and
//! stops where the rule is broken.
ghost use Rattle.std.specs.Prelude.{◌≡◌, ◌↔◌, All, IsTrue, option_map};
ghost use Rattle.hb_space.specs.Boxes.{Cuts};
ghost use Rattle.hb_frag.specs.Leaves.{IsWellCut, leaves};
ghost use Rattle.hb_frag.specs.Rules.{AreAlike, BelongsAt, IsNormal};
ghost use Rattle.hb_view.specs.Walks.{WalksOver};
ghost use Rattle.hb_view.specs.Seen.{tree_seen, rest_seen};

use crate::bounds::Bounds;
use crate::lists::rest_behind_list;
use crate::roots::{Root, root_of};
use crate::trees::{ListView, TreeView};

/// Whether the plane cuts the box.
pub(crate) fn cuts(bounds: &Bounds, axis: u8, value: u64) -> bool
    ensures { IsTrue result ↔ Cuts bounds.now axis value }
{
    let at = usize::from(axis);
    let (lo, hi) = bounds.corners();
    at < lo.len() && lo[at] < value && value <= hi[at]
}

/// Goes over a tree with this box, where every cut cuts its box. The box stays as it is.
pub(crate) fn behind_cuts<'a>(tree: &TreeView<'a>, bounds: &mut Bounds) -> Option<&'a [u8]>
    ensures passes { WalksOver (IsWellCut (tree_seen tree.now) bounds.old)
        (rest_seen tree.now) (option_map (λ b. b.now) result) }
    ensures same { bounds.new ≡ bounds.old }
{
    let k = tree.k;
    match root_of(tree) {
        Root::Cut { axis, value, left } => {
            if !cuts(bounds, axis, value) {
                return None;
            }
            let greatest = bounds.take_below(axis, value);
            let below = behind_cuts(&TreeView { k, bytes: left }, bounds);
            bounds.put_hi(axis, greatest);
            let right = below?;
            let least = bounds.take_from(axis, value);
            let from = behind_cuts(&TreeView { k, bytes: right }, bounds);
            bounds.put_lo(axis, least);
            from
        }
        Root::Records { count, first } => Some(rest_behind_list(&ListView { k, count, first })),
        Root::Child { rest, .. } => Some(rest),
        Root::Sibling { rest, .. } => Some(rest),
    }
}

/// Goes over a tree whose leaves are of kinds that stand at the level.
pub(crate) fn behind_kinds<'a>(tree: &TreeView<'a>, level: u8) -> Option<&'a [u8]>
    ensures { WalksOver (All (BelongsAt level) (leaves (tree_seen tree.now)))
        (rest_seen tree.now) (option_map (λ b. b.now) result) }
{
    let k = tree.k;
    match root_of(tree) {
        Root::Cut { left, .. } => {
            let right = behind_kinds(&TreeView { k, bytes: left }, level)?;
            behind_kinds(&TreeView { k, bytes: right }, level)
        }
        Root::Records { count, first } => {
            if level > 0 {
                return None;
            }
            Some(rest_behind_list(&ListView { k, count, first }))
        }
        Root::Child { rest, .. } => {
            if level == 0 {
                return None;
            }
            Some(rest)
        }
        Root::Sibling { rest, .. } => Some(rest),
    }
}

/// Whether two sides should be one leaf.
fn are_alike(left: &TreeView<'_>, right: &TreeView<'_>) -> bool
    ensures { IsTrue result ↔ AreAlike (tree_seen left.now) (tree_seen right.now) }
{
    match (root_of(left), root_of(right)) {
        (Root::Records { .. }, Root::Records { .. }) => true,
        (Root::Child { page, .. }, Root::Child { page: other, .. }) => page == other,
        _ => false,
    }
}

/// Goes over a tree of which no cut has two sides that should be one leaf.
pub(crate) fn behind_normal<'a>(tree: &TreeView<'a>) -> Option<&'a [u8]>
    ensures { WalksOver (IsNormal (tree_seen tree.now)) (rest_seen tree.now) (option_map (λ b. b.now) result) }
{
    let k = tree.k;
    match root_of(tree) {
        Root::Cut { left, .. } => {
            let left = TreeView { k, bytes: left };
            let right = behind_normal(&left)?;
            let right = TreeView { k, bytes: right };
            if are_alike(&left, &right) {
                return None;
            }
            behind_normal(&right)
        }
        Root::Records { count, first } => Some(rest_behind_list(&ListView { k, count, first })),
        Root::Child { rest, .. } => Some(rest),
        Root::Sibling { rest, .. } => Some(rest),
    }
}
