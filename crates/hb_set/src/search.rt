//! Which records of a sorted vector a box holds.
ghost use Rattle.std.specs.Prelude.{◌≡◌, ℕ, ◌+◌, ◌≤◌, List, ◌++◌, false, length, filter, All, IfOk, IfSome};
ghost use Rattle.std.specs.declared.cmp.Ordering.TheVariants.{Less};
ghost use Rattle.hb_space.specs.Points.{point_cmp};
ghost use Rattle.hb_space.specs.Boxes.{holds};
ghost use Rattle.hb_set.specs.Kept.{records_behind, AreSearchable};

use arrayvec::ArrayVec;
use hb_space::form::KMAX;
use hb_space::{Area, NoMemory, Point, Record};
use std::alloc::Global;

// Copies of the records that the box holds, in their order.
pub(crate) fn held_by(
    alloc: Global,
    records: &[Box<Record>],
    area: &Area,
) -> Result<Vec<Record>, NoMemory>
    requires { AreSearchable (length area.now.lo) records.now }
    ensures { IfOk result (λ held. held.items ≡ filter (λ r. holds area.now r.key) (records_behind records.now)) }
{
    let mut held = Vec::new(alloc);
    let mut rest = window(records, area);
    while let Some((record, later)) = rest.split_first() {
        if area.holds(&record.key) {
            held.push(record.copy())?;
            rest = later;
        } else {
            rest = past_outside(&record.key, later, area);
        }
    }
    Ok(held)
}

// The records among which those of the box stand: from the first whose point is not below the
// lower corner, up to the last whose first value is not above the greatest one.
fn window<'a>(records: &'a [Box<Record>], area: &Area) -> &'a [Box<Record>]
    requires { AreSearchable (length area.now.lo) records.now }
    ensures held { filter (λ r. holds area.now r.key) (records_behind result.now) ≡ filter (λ r. holds area.now r.key) (records_behind records.now) }
    ensures searchable { AreSearchable (length area.now.lo) result.now }
{
    let start = records.partition_point(|handle| handle.key.cmp(area.lo()).is_lt());
    let rest = &records[start..];
    let greatest = area.hi().values()[0];
    let count = rest.partition_point(|handle| handle.key.values()[0] <= greatest);
    &rest[..count]
}

// The records behind one outside the box, without those up to a limit that are outside as well.
fn past_outside<'a>(outside: &Point, later: &'a [Box<Record>], area: &Area) -> &'a [Box<Record>]
    requires later { AreSearchable (length area.now.lo) later.now }
    requires behind { All (λ h. point_cmp outside.now h.value.key ≡ Less) later.now }
    requires same { length outside.now ≡ length area.now.lo }
    ensures held { filter (λ r. holds area.now r.key) (records_behind result.now) ≡ filter (λ r. holds area.now r.key) (records_behind later.now) }
    ensures searchable { AreSearchable (length area.now.lo) result.now }
    ensures fewer { length result.now ≤ length later.now }
{
    let Some(next) = later.first() else {
        return later;
    };
    let Some(limit) = limit_behind(outside, &next.key, area) else {
        return later;
    };
    let near = &later[..reach(later, limit.as_slice())];
    let count = near.partition_point(|handle| handle.key.values().cmp(limit.as_slice()).is_lt());
    &later[count..]
}

// How many records to look through for the first at the limit or above it: twice as many again and
// again, until the last of them is not below it.
fn reach(records: &[Box<Record>], limit: &[u64]) -> usize
    ensures { result ≤ length records.now }
{
    let mut count = 1;
    while count < records.len() && records[count - 1].key.values().cmp(limit).is_lt() {
        count *= 2;
    }
    count.min(records.len())
}

// Where the box may go on behind a point outside it: no point between the two is in the box. None
// where the next point lies behind that already.
fn limit_behind(outside: &Point, next: &Point, area: &Area) -> Option<ArrayVec<u64, KMAX>>
    requires same { length outside.now ≡ length area.now.lo }
    requires next { length next.now ≡ length area.now.lo }
    ensures { IfSome result (λ limit. (q : List ℕ) → point_cmp outside.now q ≡ Less → point_cmp q limit.items ≡ Less → holds area.now q ≡ false) }
{
    let values = outside.values();
    let least = area.lo().values();
    let greatest = area.hi().values();
    for (axis, value) in values.iter().enumerate() {
        if *value < least[axis] {
            return Some(joined(&values[..axis], &least[axis..]));
        }
        if greatest[axis] < *value {
            return Some(joined(&values[..axis], &[u64::MAX]));
        }
        if next.values()[axis] != *value {
            return None;
        }
    }
    None
}

// The values of both parts, one after the other.
fn joined(front: &[u64], back: &[u64]) -> ArrayVec<u64, KMAX>
    requires { length front.now + length back.now ≤ KMAX }
    ensures { result.items ≡ front.now ++ back.now }
{
    let mut values = ArrayVec::new();
    let _fits = values.try_extend_from_slice(front);
    let _fits_too = values.try_extend_from_slice(back);
    values
}
