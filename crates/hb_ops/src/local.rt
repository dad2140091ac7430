//! Which of its own rules a page breaks.

ghost use Rattle.std.specs.Prelude.{◌≡◌, ◌<◌, ◌^◌, ◌↔◌, length, All, AllPairs, IfSome, IsNone, IsTrue};
ghost use Rattle.hb_space.specs.Boxes.{Cuts, Holds};
ghost use Rattle.hb_frag.specs.Leaves.{IsWellCut, WellCut, leaves, leaves_of};
ghost use Rattle.hb_frag.specs.Trees.{Tip};
ghost use Rattle.hb_frag.specs.Rules.{AreAlike, AreInOrder, BelongsAt, Fits, IsFilledRight, IsInOrder, IsNormal, IsSiblingTip, Precedes};
ghost use Rattle.hb_ops.specs.Sound.{FitsFile, BreaksFirst};

use crate::Meta;
use hb_frag::{Frag, Leaf, LivePage, Node, capacity_of};
use hb_space::form::KMAX;
use hb_space::{Area, Record};

/// The least of the rules 3, 4, 5, 6 and 10 that the page breaks by itself in a file that says
/// this of itself. `None` where it keeps them all.
pub fn local_rule(page: &LivePage, meta: &Meta) -> Option<u8>
    ensures none { IsNone result ↔ FitsFile meta.now page.now }
    ensures first { IfSome result (λ r. BreaksFirst r page.now meta.now) }
{
    if !fits(page, meta) {
        return Some(3);
    }
    if !is_cut(page) {
        return Some(4);
    }
    if !is_filled_right(page, meta) {
        return Some(5);
    }
    if !is_in_order_throughout(page) {
        return Some(6);
    }
    if !is_normal(&page.frag) {
        return Some(10);
    }
    None
}

// Rule 3: the level and the number of attributes are those of a page of the file.
fn fits(page: &LivePage, meta: &Meta) -> bool
    ensures { IsTrue result ↔ Fits page.now meta.now.k meta.now.height }
{
    page.level < meta.height && page.area.lo().attributes() == meta.k
}

// Rule 4: every cut cuts its box.
fn is_cut(page: &LivePage) -> bool
    ensures { IsTrue result ↔ WellCut page.now }
{
    let count = page.area.lo().values().len();
    let mut lo = [0; KMAX];
    let mut hi = [0; KMAX];
    lo[..count].copy_from_slice(page.area.lo().values());
    hi[..count].copy_from_slice(page.area.hi().values());
    all_cut(&page.frag, &mut lo[..count], &mut hi[..count])
}

// Whether the plane cuts the box of these corners.
fn cuts(lo: &[u64], hi: &[u64], axis: u8, value: u64) -> bool
    requires { length lo.now ≡ length hi.now }
    ensures { IsTrue result ↔ Cuts (record { lo = lo.now; hi = hi.now }) axis value }
{
    let at = usize::from(axis);
    at < lo.len() && lo[at] < value && value <= hi[at]
}

// Whether every cut of the part cuts its box, which has these corners. They stay as they are.
fn all_cut(frag: &Frag, lo: &mut [u64], hi: &mut [u64]) -> bool
    requires { length lo.old ≡ length hi.old }
    ensures cut { IsTrue result ↔ IsWellCut frag.now (record { lo = lo.old; hi = hi.old }) }
    ensures lo { lo.new ≡ lo.old }
    ensures hi { hi.new ≡ hi.old }
{
    match &frag.node {
        Node::Tip(_) => true,
        Node::Cut {
            axis,
            value,
            left,
            right,
        } => {
            if !cuts(lo, hi, *axis, *value) {
                return false;
            }
            let at = usize::from(*axis);
            let greatest = hi[at];
            hi[at] = *value - 1;
            let below = all_cut(left, lo, hi);
            hi[at] = greatest;
            let least = lo[at];
            lo[at] = *value;
            let from = all_cut(right, lo, hi);
            lo[at] = least;
            below && from
        }
    }
}

// Rule 5: leaves of the right kinds, a weight that the page may have, and no lone sibling leaf.
fn is_filled_right(page: &LivePage, meta: &Meta) -> bool
    ensures { IsTrue result ↔ IsFilledRight page.now meta.now.dcap meta.now.icap }
{
    all_belong(&page.frag, page.level)
        && page.weighs_at_most(capacity_of(page.level, meta.dcap, meta.icap))
        && !is_sibling_tip(&page.frag)
}

// Whether each leaf is of a kind that stands at the level.
fn all_belong(frag: &Frag, level: u8) -> bool
    ensures { IsTrue result ↔ All (BelongsAt level) (leaves frag.now) }
{
    match &frag.node {
        Node::Tip(leaf) => belongs(leaf, level),
        Node::Cut { left, right, .. } => all_belong(left, level) && all_belong(right, level),
    }
}

// Whether the leaf is.
fn belongs(leaf: &Leaf, level: u8) -> bool
    ensures { IsTrue result ↔ BelongsAt level leaf.now }
{
    match leaf {
        Leaf::Records(_) => level == 0,
        Leaf::Child(_) => level > 0,
        Leaf::Sibling(_) => true,
    }
}

// Whether all of the part is one sibling leaf.
pub(crate) fn is_sibling_tip(frag: &Frag) -> bool
    ensures { IsTrue result ↔ IsSiblingTip frag.now }
{
    matches!(&frag.node, Node::Tip(Leaf::Sibling(_)))
}

// Rule 6: the records of each leaf lie in its box and rise. Where each leaf is of a kind that stands at the level, only a
// page of level 0 has some.
fn is_in_order_throughout(page: &LivePage) -> bool
    requires cut { WellCut page.now }
    requires kinds { All (BelongsAt page.now.level) (leaves page.now.frag) }
    ensures { IsTrue result ↔ AreInOrder page.now }
{
    if page.level == 0 {
        are_in_order(&page.frag, &page.area)
    } else {
        true
    }
}

// So do those of each leaf of a part with this box.
fn are_in_order(frag: &Frag, area: &Area) -> bool
    requires { IsWellCut frag.now area.now }
    ensures { IsTrue result ↔ All IsInOrder (leaves_of frag.now area.now) }
{
    match &frag.node {
        Node::Tip(leaf) => is_in_order(leaf, area),
        Node::Cut {
            axis,
            value,
            left,
            right,
        } => {
            let (below, from) = area.cut(*axis, *value);
            are_in_order(left, &below) && are_in_order(right, &from)
        }
    }
}

// Whether those of the leaf do.
fn is_in_order(leaf: &Leaf, area: &Area) -> bool
    ensures { IsTrue result ↔ IsInOrder (record { leaf = leaf.now; area = area.now }) }
{
    match leaf {
        Leaf::Records(records) => {
            all_inside(records.as_slice(), area) && are_rising(records.as_slice())
        }
        Leaf::Child(_) | Leaf::Sibling(_) => true,
    }
}

// Whether each record lies in the box.
fn all_inside(records: &[Record], area: &Area) -> bool
    ensures { IsTrue result ↔ All (λ r. Holds area.now r.key) records.now }
{
    records.iter().all(|each| lies_in(each, area))
}

// Whether the record lies in the box.
fn lies_in(each: &Record, area: &Area) -> bool
    ensures { IsTrue result ↔ Holds area.now each.now.key }
{
    each.key.attributes() == area.lo().attributes() && area.holds(&each.key)
}

// Whether the points of the records rise.
fn are_rising(records: &[Record]) -> bool
    ensures { IsTrue result ↔ AllPairs Precedes records.now }
{
    records.is_sorted_by(|each, next| each.key.cmp(&next.key).is_lt())
}

// Rule 10: no cut has two sides that should be one leaf.
fn is_normal(frag: &Frag) -> bool
    ensures { IsTrue result ↔ IsNormal frag.now }
{
    match &frag.node {
        Node::Tip(_) => true,
        Node::Cut { left, right, .. } => {
            !are_alike(left, right) && is_normal(left) && is_normal(right)
        }
    }
}

// Whether two sides should be one leaf.
fn are_alike(left: &Frag, right: &Frag) -> bool
    ensures { IsTrue result ↔ AreAlike left.now right.now }
{
    match (&left.node, &right.node) {
        (Node::Tip(one), Node::Tip(other)) => are_alike_leaves(one, other),
        _ => false,
    }
}

// Whether two leaves are both of records, or name the same child.
fn are_alike_leaves(one: &Leaf, other: &Leaf) -> bool
    ensures { IsTrue result ↔ AreAlike (Tip one.now) (Tip other.now) }
{
    match (one, other) {
        (Leaf::Records(_), Leaf::Records(_)) => true,
        (Leaf::Child(page), Leaf::Child(named)) => page == named,
        _ => false,
    }
}
