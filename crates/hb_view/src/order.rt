//! Whether the records of each leaf lie in its box and rise, told from the bytes of a tree.
ghost use Rattle.std.specs.Prelude.{◌≡◌, ◌↔◌, All, IsTrue, None, option_map};
ghost use Rattle.hb_space.specs.Boxes.{Holds};
ghost use Rattle.hb_frag.specs.Leaves.{IsWellCut, leaves_of};
ghost use Rattle.hb_frag.specs.Rules.{IsInOrder};
ghost use Rattle.hb_view.specs.Walks.{WalksOver, ComesBehind, RiseFrom};
ghost use Rattle.hb_view.specs.Seen.{tree_seen, rest_seen, list_seen, after_seen};

use crate::bounds::Bounds;
use crate::lists::entry_of;
use crate::roots::{Root, root_of};
use crate::trees::{ListView, TreeView};
use hb_space::Point;

/// Whether the box holds the point.
fn holds(bounds: &Bounds, p: &[u64]) -> bool
    ensures { IsTrue result ↔ Holds bounds.now p.now }
{
    let (lo, hi) = bounds.corners();
    if p.len() != lo.len() {
        return false;
    }
    for at in 0..p.len() {
        if p[at] < lo[at] || hi[at] < p[at] {
            return false;
        }
    }
    true
}

/// Whether the point comes behind the last one, where there was one.
fn follows(last: &Option<Point>, p: &Point) -> bool
    ensures { IsTrue result ↔ ComesBehind last.now p.now }
{
    match last {
        Some(last) => last.cmp(p).is_lt(),
        None => true,
    }
}

/// Whether the point lies in the box, and comes behind the last one.
fn comes_next(bounds: &Bounds, last: &Option<Point>, p: &Point) -> bool
    ensures { IsTrue result ↔ (Holds bounds.now p.now × ComesBehind last.now p.now) }
{
    holds(bounds, p.values()) && follows(last, p)
}

/// Goes over records whose points lie in the box and rise.
fn behind_rising<'a>(list: &ListView<'a>, bounds: &Bounds) -> Option<&'a [u8]>
    ensures { WalksOver (RiseFrom bounds.now None (list_seen list.now))
        (after_seen list.now) (option_map (λ b. b.now) result) }
{
    let mut rest = list.first;
    let mut last = None;
    for _ in 0..list.count {
        match entry_of(list.k, rest) {
            Some((key, _, after)) => {
                if !comes_next(bounds, &last, &key) {
                    return None;
                }
                last = Some(key);
                rest = after;
            }
            None => unreachable!(),
        }
    }
    Some(rest)
}

/// Goes over a tree with this box, where the records of each leaf lie in its box and rise. The box stays as it is.
pub(crate) fn behind_order<'a>(tree: &TreeView<'a>, bounds: &mut Bounds) -> Option<&'a [u8]>
    requires well_cut { IsWellCut (tree_seen tree.now) bounds.old }
    ensures passes { WalksOver (All IsInOrder (leaves_of (tree_seen tree.now) bounds.old))
        (rest_seen tree.now) (option_map (λ b. b.now) result) }
    ensures same { bounds.new ≡ bounds.old }
{
    let k = tree.k;
    match root_of(tree) {
        Root::Cut { axis, value, left } => {
            let greatest = bounds.take_below(axis, value);
            let below = behind_order(&TreeView { k, bytes: left }, bounds);
            bounds.put_hi(axis, greatest);
            let right = below?;
            let least = bounds.take_from(axis, value);
            let from = behind_order(&TreeView { k, bytes: right }, bounds);
            bounds.put_lo(axis, least);
            from
        }
        Root::Records { count, first } => {
            let list = ListView { k, count, first };
            behind_rising(&list, bounds)
        }
        Root::Child { rest, .. } => Some(rest),
        Root::Sibling { rest, .. } => Some(rest),
    }
}
