//! Points and boxes at the front of bytes, of which values are read where they stand.
ghost use Rattle.std.specs.Prelude.{◌≡◌, ◌<◌, ◌≤◌, ◌*◌, ◌↔◌, drop, length, slice_index, IfSome, IsTrue};
ghost use Rattle.hb_space.specs.Points.{point_cmp};
ghost use Rattle.hb_page_codec.specs.Reading.{ReadsAs};
ghost use Rattle.hb_page_codec.specs.ReadingFields.{point_at, area_at, are_ordered};
ghost use Rattle.hb_view.specs.Behind.{behind};
ghost use Rattle.hb_view.specs.Corners.{point_there};

use arrayvec::ArrayVec;
use hb_page_codec::u64_of;
use hb_space::Attributes;
use hb_space::form::KMAX;
use std::cmp::Ordering;

/// A corner of a box, of which each value may be changed.
pub(crate) type Corner = ArrayVec<u64, KMAX>;

/// The bytes from a place on.
pub(crate) fn from_place(bytes: &[u8], place: usize) -> &[u8]
    requires { place ≤ length bytes.now }
    ensures { result.now ≡ drop place bytes.now }
{
    &bytes[place..]
}

/// A value of the point of `k` values that stands there.
pub(crate) fn value_at(k: Attributes, bytes: &[u8], axis: usize) -> u64
    requires room { 8 * k.number ≤ length bytes.now }
    requires attribute { axis < k.number }
    ensures { result ≡ slice_index (point_there k.number bytes.now) axis }
{
    match u64_of(from_place(bytes, 8 * axis)) {
        Some((value, _)) => value,
        None => unreachable!(),
    }
}

/// The values of the point of `k` values that stands there.
pub(crate) fn corner_at(k: Attributes, bytes: &[u8]) -> Corner
    requires { 8 * k.number ≤ length bytes.now }
    ensures { result.items ≡ point_there k.number bytes.now }
{
    let mut corner = ArrayVec::new();
    for axis in 0..usize::from(k.number) {
        corner.push(value_at(k, bytes, axis));
    }
    corner
}

/// Whether the point of `k` values that stands there has these.
pub(crate) fn is_point(k: Attributes, bytes: &[u8], p: &[u64]) -> bool
    requires room { 8 * k.number ≤ length bytes.now }
    requires attributes { length p.now ≡ k.number }
    ensures { IsTrue result ↔ (point_there k.number bytes.now ≡ p.now) }
{
    for axis in 0..p.len() {
        if value_at(k, bytes, axis) != p[axis] {
            return false;
        }
    }
    true
}

/// How the point of `k` values that stands there compares with the one of these.
pub(crate) fn compare(k: Attributes, bytes: &[u8], p: &[u64]) -> Ordering
    requires room { 8 * k.number ≤ length bytes.now }
    requires attributes { length p.now ≡ k.number }
    ensures { result ≡ point_cmp (point_there k.number bytes.now) p.now }
{
    for axis in 0..p.len() {
        let order = value_at(k, bytes, axis).cmp(&p[axis]);
        if order.is_ne() {
            return order;
        }
    }
    Ordering::Equal
}

/// Whether no value of the first of two points exceeds the second one's in the same attribute.
pub(crate) fn is_ordered(k: Attributes, lo: &[u8], hi: &[u8]) -> bool
    requires lo { 8 * k.number ≤ length lo.now }
    requires hi { 8 * k.number ≤ length hi.now }
    ensures { result ≡ are_ordered (point_there k.number lo.now) (point_there k.number hi.now) }
{
    for axis in 0..usize::from(k.number) {
        if value_at(k, hi, axis) < value_at(k, lo, axis) {
            return false;
        }
    }
    true
}

/// The bytes of a point of `k` values, and those behind it.
pub(crate) fn point_read(k: Attributes, bytes: &[u8]) -> Option<(&[u8], &[u8])>
    ensures reads { ReadsAs (λ x. (point_there k.number x.0.now, x.1.now)) result (point_at k.number bytes.now) }
    ensures room { IfSome result (λ x. 8 * k.number ≤ length x.0.now) }
{
    let length = 8 * usize::from(k.number);
    if bytes.len() < length {
        return None;
    }
    Some((bytes, from_place(bytes, length)))
}

/// The bytes behind a box of `k` attributes.
pub(crate) fn behind_box(k: Attributes, bytes: &[u8]) -> Option<&[u8]>
    ensures { ReadsAs (λ x. x.now) result (behind (area_at k.number bytes.now)) }
{
    let (lo, rest) = point_read(k, bytes)?;
    let (hi, rest) = point_read(k, rest)?;
    if is_ordered(k, lo, hi) {
        Some(rest)
    } else {
        None
    }
}
