//! Copies of the records that lie in a box, out of a leaf that is read where it stands.
ghost use Rattle.std.specs.Prelude.{◌≡◌, ◌≤◌, ◌*◌, ◌++◌, length, IfOk, IfSome, OnOk};
ghost use Rattle.hb_space.specs.Boxes.{Holds, IsArea, holds};
ghost use Rattle.hb_frag.specs.Leaves.{IsWellCut, first_at, leaves_of};
ghost use Rattle.hb_view.specs.Corners.{point_there};
ghost use Rattle.hb_view.specs.Seen.{area_seen, list_seen, tree_seen};
ghost use Rattle.hb_view.specs.Within.{TakesFound, records_within};

use crate::boxes::leaf_in;
use crate::corners::value_at;
use crate::lists::parts_of;
use crate::trees::{Inside, ListView};
use crate::walking::list_in;
use hb_page_codec::point_of;
use hb_space::form::BMAX;
use hb_space::{Area, Attributes, Body, NoMemory, Point, Record};

/// Whether the point of `k` values that stands there lies in the box.
fn lies_in(k: Attributes, bytes: &[u8], at_hand: &Area) -> bool
    requires room { 8 * k.number ≤ length bytes.now }
    requires attributes { length at_hand.now.lo ≡ k.number }
    ensures { result ≡ holds at_hand.now (point_there k.number bytes.now) }
{
    let least = at_hand.lo().values();
    let greatest = at_hand.hi().values();
    for axis in 0..usize::from(k.number) {
        let value = value_at(k, bytes, axis);
        if value < least[axis] || greatest[axis] < value {
            return false;
        }
    }
    true
}

/// The record of the point of `k` values that stands there, and this body.
fn record_of(k: Attributes, bytes: &[u8], body: &[u8]) -> Record
    requires room { 8 * k.number ≤ length bytes.now }
    requires short { length body.now ≤ BMAX }
    ensures { result ≡ record { key = point_there k.number bytes.now; body = body.now } }
{
    match point_of(k, bytes) {
        Some((key, _)) => Record {
            key,
            body: Body::new(body),
        },
        None => unreachable!(),
    }
}

/// Copies of the records that the box holds join others.
fn take_held(list: &ListView<'_>, at_hand: &Area, found: &mut Vec<Record>) -> Result<(), NoMemory>
    requires { length at_hand.now.lo ≡ list.now.k.number }
    ensures { OnOk result (found.new.items ≡ found.old.items ++ records_within at_hand.now (list_seen list.now)) }
{
    let mut rest = list.first;
    for _ in 0..list.count {
        match parts_of(list.k, rest) {
            Some((key, body, after)) => {
                if lies_in(list.k, key, at_hand) {
                    found.push(record_of(list.k, key, body))?;
                }
                rest = after;
            }
            None => unreachable!(),
        }
    }
    Ok(())
}

/// Copies of the records that the box holds, out of the leaf whose own box holds the point, join others. The leaf's box comes
/// back; none does where the leaf names a page.
pub(crate) fn take_in(
    inside: &Inside<'_>,
    p: &Point,
    at_hand: &Area,
    found: &mut Vec<Record>,
) -> Result<Option<Area>, NoMemory>
    requires well_cut { IsWellCut (tree_seen inside.now.tree) (area_seen inside.now) }
    requires held { Holds (area_seen inside.now) p.now }
    requires attributes { length p.now ≡ inside.now.tree.k.number }
    requires same { length at_hand.now.lo ≡ inside.now.tree.k.number }
    ensures takes { IfOk result (λ told. TakesFound at_hand.now
        (first_at p.now (leaves_of (tree_seen inside.now.tree) (area_seen inside.now))) found.old.items found.new.items told) }
    ensures area { IfOk result (λ told. IfSome told IsArea) }
{
    match list_in(&inside.tree, p.values()) {
        Some(list) => {
            take_held(&list, at_hand, found)?;
            Ok(Some(leaf_in(inside, p).1))
        }
        None => Ok(None),
    }
}
