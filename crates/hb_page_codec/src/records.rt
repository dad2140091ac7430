//! Points, boxes and records, from the front of bytes.
ghost use Rattle.std.specs.Prelude.{◌≡◌, ◌<◌, ◌≤◌, length, IfSome};
ghost use Rattle.hb_page_codec.specs.Reading.{ReadsAs};
ghost use Rattle.hb_page_codec.specs.ReadingFields.{point_at, area_between, area_at, body_at, record_at};

use crate::numbers::u64_of;
use arrayvec::ArrayVec;
use hb_space::form::{BMAX, KMAX};
use hb_space::{Area, Attributes, Body, Point, Record};

/// A point of `k` values.
pub fn point_of(k: Attributes, bytes: &[u8]) -> Option<(Point, &[u8])>
    ensures reads { ReadsAs (λ x. (x.0, x.1.now)) result (point_at k.number bytes.now) }
    ensures count { IfSome result (λ x. length x.0 ≡ k.number) }
{
    let mut values: ArrayVec<u64, KMAX> = ArrayVec::new();
    let mut rest = bytes;
    for _ in 0..k.number {
        let (value, after) = u64_of(rest)?;
        values.push(value);
        rest = after;
    }
    Some((Point::new(values.as_slice()), rest))
}

/// The box between these corners. `None` where a lower value exceeds its upper one.
fn area_of_corners(lo: Point, hi: Point) -> Option<Area>
    requires { length lo ≡ length hi }
    ensures { ReadsAs (λ x. x) result (area_between lo hi) }
{
    Area::between(lo, hi)
}

/// A box of `k` attributes.
#[tactic(auto, unfolding(crate::specs::ReadingFields::area_at))]
pub fn area_of(k: Attributes, bytes: &[u8]) -> Option<(Area, &[u8])>
    ensures { ReadsAs (λ x. (x.0, x.1.now)) result (area_at k.number bytes.now) }
{
    let (lo, rest) = point_of(k, bytes)?;
    let (hi, rest) = point_of(k, rest)?;
    let area = area_of_corners(lo, hi)?;
    Some((area, rest))
}

/// A body, behind its length.
#[tactic(auto, unfolding(crate::specs::ReadingFields::body_at))]
fn body_of(bytes: &[u8]) -> Option<(Body, &[u8])>
    ensures { ReadsAs (λ x. (x.0, x.1.now)) result (body_at bytes.now) }
{
    let (count, rest) = bytes.split_first()?;
    let count = usize::from(*count);
    if count > BMAX || rest.len() < count {
        return None;
    }
    let (body, rest) = rest.split_at(count);
    Some((Body::new(body), rest))
}

/// A record whose point has `k` values.
#[tactic(auto, unfolding(crate::specs::ReadingFields::record_at))]
pub fn record_of(k: Attributes, bytes: &[u8]) -> Option<(Record, &[u8])>
    ensures { ReadsAs (λ x. (x.0, x.1.now)) result (record_at k.number bytes.now) }
{
    let (key, rest) = point_of(k, bytes)?;
    let (body, rest) = body_of(rest)?;
    Some((Record { key, body }, rest))
}
