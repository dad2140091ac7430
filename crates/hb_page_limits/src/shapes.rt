//! Points, boxes and files of one to four attributes.

ghost use Rattle.std.specs.Prelude.{◌≡◌};

use hb_layout::Meta;
use hb_space::{Area, Point};

/// What a file of so many attributes and levels says of itself. 300 of its pages are in use, and none is free.
pub(crate) fn file_of(k: u8, height: u8) -> Meta
    ensures { result.k ≡ k }
{
    Meta {
        k,
        pages: 65_536,
        log: 65_536,
        dcap: 48,
        icap: 256,
        root: 1,
        height,
        high: 300,
        live: 300,
        free: 0,
    }
}

/// The point that has so many of the values.
pub(crate) fn point(k: u8, values: [u64; 4]) -> Option<Point> {
    let count = usize::from(k);
    if count < 1 || 4 < count {
        return None;
    }
    Some(Point::new(&values[..count]))
}

/// The box between two such points.
pub(crate) fn area(k: u8, least: [u64; 4], greatest: [u64; 4]) -> Option<Area> {
    let count = usize::from(k);
    if count < 1 || 4 < count {
        return None;
    }
    Area::between(Point::new(&least[..count]), Point::new(&greatest[..count]))
}

/// The whole space of so many attributes.
pub(crate) fn whole(k: u8) -> Option<Area> {
    area(k, [0; 4], [u64::MAX; 4])
}

/// A box within a box: with each bit of the mask one of its ends is moved in by one. An attribute has two bits, the first
/// one for its least value.
pub(crate) fn hole_in(around: &Area, mask: u32) -> Option<Area> {
    let (mut least, mut greatest, mut left) = ([0; 4], [0; 4], mask);
    for (end, value) in least.iter_mut().zip(around.lo().values()) {
        *end = value.saturating_add(u64::from(left % 2));
        left /= 4;
    }
    left = mask / 2;
    for (end, value) in greatest.iter_mut().zip(around.hi().values()) {
        *end = value.saturating_sub(u64::from(left % 2));
        left /= 4;
    }
    area(around.lo().attributes(), least, greatest)
}

/// How many bits of a number below 256 are set.
pub(crate) fn bits_of(mask: u32) -> u32 {
    let mut bits = 0u32;
    for place in [1, 2, 4, 8, 16, 32, 64, 128] {
        bits = bits.saturating_add(mask / place % 2);
    }
    bits
}
