//! The first rule that a page in use breaks by itself, told from the bytes of its tree.
ghost use Rattle.std.specs.Prelude.{◌≡◌, ◌≤◌, ◌↔◌, length, All, IfSome, IsNone, IsTrue};
ghost use Rattle.hb_frag.specs.Leaves.{IsWellCut, leaves, leaves_of, weight_of};
ghost use Rattle.hb_frag.specs.Rules.{BelongsAt, IsFilledRight, IsInOrder, IsNormal, IsSiblingTip};
ghost use Rattle.hb_ops.specs.Sound.{FitsFile, BreaksFirst};
ghost use Rattle.hb_space.specs.Boxes.{Area as Extent};
ghost use Rattle.hb_view.specs.Limits.{meta_with};
ghost use Rattle.hb_view.specs.Seen.{tree_seen, area_seen};

use crate::bounds::Bounds;
use crate::order::behind_order;
use crate::roots::{Root, root_of};
use crate::rules::{behind_cuts, behind_kinds, behind_normal};
use crate::trees::{Inside, TreeView};
use crate::walking::weigh;
use hb_frag::capacity_of;
use hb_space::form::PAGE;

/// What a file says of itself that a page by itself has to keep.
#[derive(Clone, Copy)]
pub(crate) struct Limits {
    /// The number of attributes.
    pub k: u8,
    /// The number of levels.
    pub height: u8,
    /// What a page of level 0 may weigh.
    pub dcap: u16,
    /// What a page of a higher level may weigh.
    pub icap: u16,
}

// Rule 4: every cut cuts its box.
fn is_cut(inside: &Inside<'_>) -> bool
    ensures { IsTrue result ↔ IsWellCut (tree_seen inside.now.tree) (area_seen inside.now) }
{
    let mut bounds = Bounds::of(inside);
    match behind_cuts(&inside.tree, &mut bounds) {
        Some(_) => true,
        None => false,
    }
}

// Whether each leaf is of a kind that stands at the level.
fn all_belong(tree: &TreeView<'_>, level: u8) -> bool
    ensures { IsTrue result ↔ All (BelongsAt level) (leaves (tree_seen tree.now)) }
{
    match behind_kinds(tree, level) {
        Some(_) => true,
        None => false,
    }
}

// Whether all of the tree is one sibling leaf.
fn is_sibling(tree: &TreeView<'_>) -> bool
    ensures { IsTrue result ↔ IsSiblingTip (tree_seen tree.now) }
{
    match root_of(tree) {
        Root::Sibling { .. } => true,
        Root::Cut { .. } => false,
        Root::Records { .. } => false,
        Root::Child { .. } => false,
    }
}

// Rule 5: leaves of the right kinds, a weight that the page may have, and no lone sibling leaf.
fn is_filled_right(tree: &TreeView<'_>, level: u8, limits: Limits) -> bool
    requires { weight_of (tree_seen tree.now) ≤ PAGE }
    ensures { (area : Extent) → IsTrue result ↔ IsFilledRight (record { level = level; area = area; frag = tree_seen tree.now })
        limits.dcap limits.icap }
{
    all_belong(tree, level)
        && weigh(tree).0 <= u32::from(capacity_of(level, limits.dcap, limits.icap))
        && !is_sibling(tree)
}

// Rule 6: the records of each leaf lie in its box and rise.
fn is_in_order(inside: &Inside<'_>) -> bool
    requires { IsWellCut (tree_seen inside.now.tree) (area_seen inside.now) }
    ensures { IsTrue result ↔ All IsInOrder (leaves_of (tree_seen inside.now.tree) (area_seen inside.now)) }
{
    let mut bounds = Bounds::of(inside);
    match behind_order(&inside.tree, &mut bounds) {
        Some(_) => true,
        None => false,
    }
}

// Rule 10: no cut has two sides that should be one leaf.
fn is_normal(tree: &TreeView<'_>) -> bool
    ensures { IsTrue result ↔ IsNormal (tree_seen tree.now) }
{
    match behind_normal(tree) {
        Some(_) => true,
        None => false,
    }
}

/// The least of the rules 3, 4, 5, 6 and 10 that a page of this level breaks by itself, with this box and tree. `None`
/// where it keeps them all.
pub(crate) fn first_broken(inside: &Inside<'_>, level: u8, limits: Limits) -> Option<u8>
    requires same { inside.now.tree.k.number ≡ length (area_seen inside.now).lo }
    requires light { weight_of (tree_seen inside.now.tree) ≤ PAGE }
    ensures none { IsNone result ↔ FitsFile (meta_with limits.k limits.height limits.dcap limits.icap)
        (record { level = level; area = area_seen inside.now; frag = tree_seen inside.now.tree }) }
    ensures first { IfSome result (λ r. BreaksFirst r
        (record { level = level; area = area_seen inside.now; frag = tree_seen inside.now.tree })
        (meta_with limits.k limits.height limits.dcap limits.icap)) }
{
    if level >= limits.height || inside.tree.k.number != limits.k {
        return Some(3);
    }
    if !is_cut(inside) {
        return Some(4);
    }
    if !is_filled_right(&inside.tree, level, limits) {
        return Some(5);
    }
    if !is_in_order(inside) {
        return Some(6);
    }
    if !is_normal(&inside.tree) {
        return Some(10);
    }
    None
}
