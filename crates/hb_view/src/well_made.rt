//! Whether bytes spell a page that keeps all rules that speak of it alone, told in one walk over them. Which rule is broken it
//! doesn't tell.
ghost use Rattle.std.specs.Prelude.{◌≡◌, ◌+◌, ◌*◌, ◌<◌, ◌≤◌, ◌↔◌, length, slice_index, IfSome, IsTrue, None, option_map};
ghost use Rattle.std.specs.Ordering.{nat_cmp, ordering_then};
ghost use Rattle.std.specs.declared.cmp.Ordering.TheVariants.{Less};
ghost use Rattle.hb_space.specs.Boxes.{Area as Extent, Holds};
ghost use Rattle.hb_space.specs.Points.{point_cmp};
ghost use Rattle.hb_frag.specs.declared.leaves.Leaf.TheVariants.{Child, Sibling};
ghost use Rattle.hb_layout.specs.declared.meta.Meta.{Meta};
ghost use Rattle.hb_page_codec.specs.ReadingFields.{records_at};
ghost use Rattle.hb_page_codec.specs.ReadingPages.{cut_at, records_tip_at, node_at, tree_at, live_at, fields_at};
ghost use Rattle.hb_view.specs.Corners.{point_there};
ghost use Rattle.hb_view.specs.Limits.{meta_with};
ghost use Rattle.hb_view.specs.Walks.{ComesBehind, RiseFrom};
ghost use Rattle.hb_view.specs.WellMade.{GoesPast, GoesPastTree, IsLoneSibling, KeepsRules, ShouldBeOne, SpellWellMade, free_at, named_at};

use crate::LeafView;
use crate::bounds::Bounds;
use crate::broken::Limits;
use crate::corners::value_at;
use crate::lists::parts_of;
use crate::rules::cuts;
use crate::skipping::behind_name;
use hb_frag::capacity_of;
use hb_lemmas::is_zero;
use hb_page_codec::{axis_of, count_of, head_of, u32_of, u64_of};
use hb_space::Attributes;
use hb_space::form::PAGE;
use std::cmp::Ordering;

/// How far a walk over trees came.
#[derive(Clone, Copy)]
pub(crate) struct Passed<'a> {
    /// The bytes behind the last tree.
    pub rest: &'a [u8],
    /// What all of them weigh together.
    pub weight: u32,
    /// The leaf that the last tree is, where it has no cut.
    pub leaf: Option<LeafView>,
}

/// How two points compare, by the values in front of one of the second point, and by that value.
fn compared_at(k: Attributes, order: Ordering, last: &[u8], axis: usize, value: u64) -> Ordering
    requires room { 8 * k.number ≤ length last.now }
    requires attribute { axis < k.number }
    ensures { result ≡ ordering_then order (nat_cmp (slice_index (point_there k.number last.now) axis) value) }
{
    if order.is_eq() {
        value_at(k, last, axis).cmp(&value)
    } else {
        order
    }
}

/// Whether the value is neither below the least one nor above the greatest one.
fn lies_between(least: u64, greatest: u64, value: u64) -> bool
    ensures { IsTrue result ↔ ((least ≤ value) × (value ≤ greatest)) }
{
    least <= value && value <= greatest
}

/// Whether the box holds the point that stands there.
fn holds_there(k: Attributes, bounds: &Bounds, key: &[u8]) -> bool
    requires same { length bounds.now.lo ≡ k.number }
    requires room { 8 * k.number ≤ length key.now }
    ensures { IsTrue result ↔ Holds bounds.now (point_there k.number key.now) }
{
    let (lo, hi) = bounds.corners();
    for axis in 0..lo.len() {
        let value = value_at(k, key, axis);
        if !lies_between(lo[axis], hi[axis], value) {
            return false;
        }
    }
    true
}

/// Whether the box holds the point that stands there, and it comes behind the last one.
fn follows_there(k: Attributes, bounds: &Bounds, last: &[u8], key: &[u8]) -> bool
    requires same { length bounds.now.lo ≡ k.number }
    requires room { 8 * k.number ≤ length key.now }
    requires last { 8 * k.number ≤ length last.now }
    ensures { IsTrue result ↔ (Holds bounds.now (point_there k.number key.now) ×
        (point_cmp (point_there k.number last.now) (point_there k.number key.now) ≡ Less)) }
{
    let (lo, hi) = bounds.corners();
    let mut order = Ordering::Equal;
    for axis in 0..lo.len() {
        let value = value_at(k, key, axis);
        if !lies_between(lo[axis], hi[axis], value) {
            return false;
        }
        order = compared_at(k, order, last, axis, value);
    }
    order.is_lt()
}

/// Whether the box holds the point that stands there, and it comes behind the last one, where there was one.
fn comes_next(k: Attributes, bounds: &Bounds, last: Option<&[u8]>, key: &[u8]) -> bool
    requires same { length bounds.now.lo ≡ k.number }
    requires room { 8 * k.number ≤ length key.now }
    requires last { IfSome last (λ b. 8 * k.number ≤ length b.now) }
    ensures { IsTrue result ↔ (Holds bounds.now (point_there k.number key.now) ×
        ComesBehind (option_map (λ b. point_there k.number b.now) last.entry) (point_there k.number key.now)) }
{
    match last {
        Some(last) => follows_there(k, bounds, last, key),
        None => holds_there(k, bounds, key),
    }
}

/// Goes past so many records whose points lie in the box and rise.
fn past_records<'a>(k: Attributes, bounds: &Bounds, count: u16, bytes: &'a [u8]) -> Option<&'a [u8]>
    requires same { length bounds.now.lo ≡ k.number }
    ensures passes { GoesPast (RiseFrom bounds.now None) (records_at k.number count bytes.now) (option_map (λ b. b.now) result) }
    ensures few { IfSome result (λ rest. count + length rest.now ≤ length bytes.now) }
{
    let mut last = None;
    let mut rest = bytes;
    for _ in 0..count {
        let (key, _, after) = parts_of(k, rest)?;
        if !comes_next(k, bounds, last, key) {
            return None;
        }
        last = Some(key);
        rest = after;
    }
    Some(rest)
}

/// Goes past a leaf of records, from behind its tag.
#[tactic(auto, unfolding(hb_page_codec::specs::ReadingPages::records_tip_at))]
fn past_list<'a>(
    k: Attributes,
    level: u8,
    bounds: &Bounds,
    passed: &mut Passed<'a>,
    bytes: &'a [u8],
) -> bool
    requires same { length bounds.now.lo ≡ k.number }
    requires few { passed.old.weight + length bytes.now < PAGE }
    ensures passes { GoesPastTree level bounds.now passed.old.weight (records_tip_at k.number bytes.now) passed.new result }
    ensures light { IsTrue result → passed.new.weight + length passed.new.rest.now ≤ passed.old.weight + 1 + length bytes.now }
{
    if level > 0 {
        return false;
    }
    let Some((count, first)) = count_of(k, bytes) else {
        return false;
    };
    let Some(rest) = past_records(k, bounds, count, first) else {
        return false;
    };
    passed.rest = rest;
    passed.weight += u32::from(count).max(1);
    passed.leaf = Some(LeafView::Records);
    true
}

/// Goes past a leaf that names a page one level down, from behind its tag.
fn past_child<'a>(level: u8, passed: &mut Passed<'a>, bytes: &'a [u8]) -> bool
    requires few { passed.old.weight + length bytes.now < PAGE }
    ensures passes { (area : Extent) → GoesPastTree level area passed.old.weight (named_at Child bytes.now) passed.new result }
    ensures light { IsTrue result → passed.new.weight + length passed.new.rest.now ≤ passed.old.weight + 1 + length bytes.now }
{
    if level == 0 {
        return false;
    }
    let Some((page, rest)) = u32_of(bytes) else {
        return false;
    };
    passed.rest = rest;
    passed.weight += 1;
    passed.leaf = Some(LeafView::Child(page));
    true
}

/// Goes past a leaf that names a page of the same level, from behind its tag.
fn past_sibling<'a>(level: u8, passed: &mut Passed<'a>, bytes: &'a [u8]) -> bool
    requires few { passed.old.weight + length bytes.now < PAGE }
    ensures passes { (area : Extent) → GoesPastTree level area passed.old.weight (named_at Sibling bytes.now) passed.new result }
    ensures light { IsTrue result → passed.new.weight + length passed.new.rest.now ≤ passed.old.weight + 1 + length bytes.now }
{
    let Some((page, rest)) = u32_of(bytes) else {
        return false;
    };
    passed.rest = rest;
    passed.weight += 1;
    passed.leaf = Some(LeafView::Sibling(page));
    true
}

/// Whether two sides should be one leaf, told from the leaf that each of them is.
fn are_alike(left: Option<LeafView>, right: Option<LeafView>) -> bool
    ensures { IsTrue result ↔ ShouldBeOne left right }
{
    match (left, right) {
        (Some(LeafView::Records), Some(LeafView::Records)) => true,
        (Some(LeafView::Child(page)), Some(LeafView::Child(other))) => page == other,
        _ => false,
    }
}

/// Goes past a cut, from behind its tag. The box stays as it is.
#[cycle(trees)]
#[tactic(auto, unfolding(hb_page_codec::specs::ReadingPages::cut_at))]
fn past_cut<'a>(
    k: Attributes,
    level: u8,
    bounds: &mut Bounds,
    passed: &mut Passed<'a>,
    bytes: &'a [u8],
) -> bool
    requires same { length bounds.old.lo ≡ k.number }
    requires few { passed.old.weight + length bytes.now ≤ PAGE }
    ensures passes { GoesPastTree level bounds.old passed.old.weight (cut_at (tree_at k.number) k.number bytes.now) passed.new result }
    ensures light { IsTrue result → passed.new.weight + length passed.new.rest.now ≤ passed.old.weight + length bytes.now }
    ensures back { bounds.new ≡ bounds.old }
{
    let Some((axis, rest)) = axis_of(k, bytes) else {
        return false;
    };
    let Some((value, left)) = u64_of(rest) else {
        return false;
    };
    if !cuts(bounds, axis, value) {
        return false;
    }
    let greatest = bounds.take_below(axis, value);
    let below = past_tree(k, level, bounds, passed, left);
    bounds.put_hi(axis, greatest);
    if !below {
        return false;
    }
    let first = *passed;
    let least = bounds.take_from(axis, value);
    let from = past_tree(k, level, bounds, passed, first.rest);
    bounds.put_lo(axis, least);
    if !from {
        return false;
    }
    let alike = are_alike(first.leaf, passed.leaf);
    passed.leaf = None;
    !alike
}

/// Goes past a tree by its root. The box stays as it is.
#[cycle(trees)]
#[tactic(auto, unfolding(hb_page_codec::specs::ReadingPages::node_at))]
fn past_root<'a>(
    k: Attributes,
    level: u8,
    bounds: &mut Bounds,
    passed: &mut Passed<'a>,
    bytes: &'a [u8],
) -> bool
    requires same { length bounds.old.lo ≡ k.number }
    requires few { passed.old.weight + length bytes.now ≤ PAGE }
    ensures passes { GoesPastTree level bounds.old passed.old.weight (node_at (tree_at k.number) k.number bytes.now) passed.new result }
    ensures light { IsTrue result → passed.new.weight + length passed.new.rest.now ≤ passed.old.weight + length bytes.now }
    ensures back { bounds.new ≡ bounds.old }
{
    match bytes {
        [0, rest @ ..] => past_cut(k, level, bounds, passed, rest),
        [1, rest @ ..] => past_list(k, level, bounds, passed, rest),
        [2, rest @ ..] => past_child(level, passed, rest),
        [3, rest @ ..] => past_sibling(level, passed, rest),
        _ => false,
    }
}

/// Goes past a tree of this level with this box that keeps the rules, and adds what it weighs. The box stays as it is.
#[cycle(trees)]
fn past_tree<'a>(
    k: Attributes,
    level: u8,
    bounds: &mut Bounds,
    passed: &mut Passed<'a>,
    bytes: &'a [u8],
) -> bool
    requires same { length bounds.old.lo ≡ k.number }
    requires few { passed.old.weight + length bytes.now ≤ PAGE }
    ensures passes { GoesPastTree level bounds.old passed.old.weight (tree_at k.number bytes.now) passed.new result }
    ensures light { IsTrue result → passed.new.weight + length passed.new.rest.now ≤ passed.old.weight + length bytes.now }
    ensures back { bounds.new ≡ bounds.old }
{
    past_root(k, level, bounds, passed, bytes)
}

/// Whether all of the tree is one sibling leaf, told from the leaf that it is.
fn is_sibling(leaf: Option<LeafView>) -> bool
    ensures { IsTrue result ↔ IsLoneSibling leaf }
{
    match leaf {
        Some(LeafView::Sibling(_)) => true,
        _ => false,
    }
}

/// Goes past a page in use that keeps the rules, from behind its tag.
fn past_live(bytes: &[u8], limits: Limits) -> Option<&[u8]>
    requires short { length bytes.now ≤ PAGE }
    ensures { GoesPast (KeepsRules (meta_with limits.k limits.height limits.dcap limits.icap)) (live_at bytes.now) (option_map (λ b. b.now) result) }
{
    let (level, k, rest) = head_of(bytes)?;
    if level >= limits.height {
        return None;
    }
    if k.number != limits.k {
        return None;
    }
    let (area, tree) = Bounds::read(k, rest)?;
    let mut bounds = area;
    let mut passed = Passed {
        rest: tree,
        weight: 0,
        leaf: None,
    };
    if !past_tree(k, level, &mut bounds, &mut passed, tree) {
        return None;
    }
    if passed.weight > u32::from(capacity_of(level, limits.dcap, limits.icap)) {
        return None;
    }
    if is_sibling(passed.leaf) {
        return None;
    }
    Some(passed.rest)
}

/// Goes past a free page, from behind its tag.
fn past_free(bytes: &[u8]) -> Option<&[u8]>
    ensures { (meta : Meta) → GoesPast (KeepsRules meta) (free_at bytes.now) (option_map (λ b. b.now) result) }
{
    behind_name(bytes)
}

/// Goes past the fields of a page that keeps the rules.
#[tactic(auto, unfolding(hb_page_codec::specs::ReadingPages::fields_at))]
fn past_page(bytes: &[u8], limits: Limits) -> Option<&[u8]>
    requires short { length bytes.now ≤ PAGE }
    ensures { GoesPast (KeepsRules (meta_with limits.k limits.height limits.dcap limits.icap)) (fields_at bytes.now) (option_map (λ b. b.now) result) }
{
    match bytes {
        [1, rest @ ..] => past_live(rest, limits),
        [2, rest @ ..] => past_free(rest),
        _ => None,
    }
}

/// Whether the bytes spell a page that keeps the rules that speak of it alone. It reads over them once.
pub(crate) fn is_well_made(bytes: &[u8], limits: Limits) -> bool
    ensures { IsTrue result ↔ SpellWellMade (meta_with limits.k limits.height limits.dcap limits.icap) bytes.now }
{
    if bytes.len() != PAGE {
        return false;
    }
    match past_page(bytes, limits) {
        Some(rest) => is_zero(rest),
        None => false,
    }
}
