//! What a search gathers at a leaf of records.

ghost use Rattle.std.specs.Prelude.{◌≡◌, ℕ, List, ◌++◌, length, All, AllPairs, IfOk, OnOk};
ghost use Rattle.std.specs.List.Sorted.{IsPermutation};
ghost use Rattle.hb_frag.specs.Rules.{Differ, Precedes};
ghost use Rattle.hb_layout.specs.declared.meta.Meta.{Meta as Facts};
ghost use Rattle.hb_search.specs.Gathering.{GoesBehind, GoesOnBy, IsLeafBehind};
ghost use Rattle.hb_search.specs.Searching.{IsGathering, StaysGathering};
ghost use Rattle.hb_space.specs.Boxes.{Meets, common_area, pieces_outside};
ghost use Rattle.hb_view.specs.Within.{records_within};

use hb_activity::{Activity, Next};
use hb_set::{Line, Reply};
use hb_space::{Area, Areas, NoMemory, Record, Records};
use std::alloc::Global;

/// Once the leaf's records that lie in the last box that remains are among those that were found: what of that box lies outside
/// the leaf's takes its place.
pub(crate) fn go_behind(
    alloc: Global,
    line: Line,
    rest: Areas,
    found: Vec<Record>,
    area: &Area,
) -> Result<Next, NoMemory>
    requires { IsLeafBehind rest found.items area.now }
    ensures row { IfOk result (λ next. (meta : Facts) → GoesBehind meta line rest found.items area.now next) }
    ensures kept { IfOk result (λ next. StaysGathering next.then) }
{
    let mut boxes = rest.into_vec();
    let Some(at_hand) = boxes.pop() else {
        unreachable!()
    };
    put_pieces(alloc, &mut boxes, &at_hand, area)?;
    Ok(go_on(line, boxes, found))
}

/// Copies of the records that the box holds join those that were found.
pub(crate) fn take_held(
    found: &mut Vec<Record>,
    records: &[Record],
    at_hand: &Area,
) -> Result<(), NoMemory>
    requires { All (λ r. length r.key ≡ length at_hand.now.lo) records.now }
    ensures { OnOk result (found.new.items ≡ found.old.items ++ records_within at_hand.now records.now) }
{
    for record in records {
        if at_hand.holds(&record.key) {
            found.push(record.copy())?;
        }
    }
    Ok(())
}

/// What of the box lies outside the leaf's joins the boxes that remain.
fn put_pieces(
    alloc: Global,
    boxes: &mut Vec<Area>,
    at_hand: &Area,
    area: &Area,
) -> Result<(), NoMemory>
    requires same { length at_hand.now.lo ≡ length area.now.lo }
    requires meets { Meets at_hand.now area.now }
    ensures { OnOk result (boxes.new.items ≡ boxes.old.items ++ pieces_outside at_hand.now (common_area at_hand.now area.now)) }
{
    let mut pieces = at_hand.outside(alloc, area)?.into_vec();
    boxes.append(&mut pieces)
}

/// The search walks again, to the last box. Where none is left it takes effect, with its records in the
/// order of their points.
#[tactic(auto, using(crate::proofs::AskedSearches::stays_so))]
fn go_on(line: Line, boxes: Vec<Area>, mut found: Vec<Record>) -> Next
    requires { IsGathering boxes.items found.items }
    ensures row { (meta : Facts) → GoesOnBy meta line boxes.items found.items result }
    ensures kept { StaysGathering result.then }
{
    if boxes.is_empty() {
        put_in_order(&mut found);
        return Next::takes_effect(line.number, Reply::Within(Records::new(found)), None);
    }
    Next::moves(Activity::SessionWalk {
        line,
        held: None,
        rest: Areas::new(boxes),
        found: Records::new(found),
    })
}

/// Sorts records of different points by their points.
fn put_in_order(found: &mut Vec<Record>)
    requires { AllPairs Differ found.old.items }
    ensures same { IsPermutation found.old.items found.new.items }
    ensures rising { AllPairs Precedes found.new.items }
{
    found.sort_unstable_by(|record, other| record.key.cmp(&other.key));
}
