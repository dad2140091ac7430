//! A box that becomes one of its sides, and itself again.
ghost use Rattle.std.specs.Prelude.{◌≡◌, ◌<◌, ◌≤◌, length, slice_index, slice_set, IfSome};
ghost use Rattle.hb_space.specs.Boxes.{Cuts, IsArea, side_below, side_from};
ghost use Rattle.hb_page_codec.specs.Reading.{ReadsAs};
ghost use Rattle.hb_page_codec.specs.ReadingFields.{area_at};
ghost use Rattle.hb_view.specs.Seen.{area_seen};

use crate::corners::{Corner, corner_at, from_place, is_ordered, point_read};
use crate::trees::Inside;
use hb_space::{Area, Attributes, Point};
use std::marker::Model;

/// A box as its corners, of which values may be changed.
#[derive(Drop)]
pub(crate) struct Bounds {
    lo: Corner,
    hi: Corner,
}

impl Model for Bounds {
    ghost use Rattle.hb_space.specs.Boxes.{Area, IsArea};

    ghost Value = { Area };

    ghost view = { λ b. record { lo = b.lo.items; hi = b.hi.items } };

    ghost invariant = { λ b. IsArea (record { lo = b.lo.items; hi = b.hi.items }) };
}

impl Bounds {
    /// The box that stands there.
    pub(crate) fn of(inside: &Inside<'_>) -> Bounds
        ensures { result ≡ area_seen inside.now }
    {
        let k = inside.tree.k;
        let hi = from_place(inside.corners, 8 * usize::from(k.number));
        Bounds {
            lo: corner_at(k, inside.corners),
            hi: corner_at(k, hi),
        }
    }

    /// The box of `k` attributes at the front of the bytes, and those behind it.
    #[tactic(auto, unfolding(hb_page_codec::specs::ReadingFields::area_at))]
    pub(crate) fn read(k: Attributes, bytes: &[u8]) -> Option<(Bounds, &[u8])>
        ensures reads { ReadsAs (λ x. (x.0, x.1.now)) result (area_at k.number bytes.now) }
        ensures same { IfSome result (λ x. length x.0.lo ≡ k.number) }
        ensures shorter { IfSome result (λ x. length x.1.now ≤ length bytes.now) }
    {
        let (lo, middle) = point_read(k, bytes)?;
        let (hi, rest) = point_read(k, middle)?;
        if !is_ordered(k, lo, hi) {
            return None;
        }
        let bounds = Bounds {
            lo: corner_at(k, lo),
            hi: corner_at(k, hi),
        };
        Some((bounds, rest))
    }

    /// The box as a value.
    pub(crate) fn area(&self) -> Area
        ensures { result ≡ self.now }
    {
        let (lo, hi) = self.corners();
        match Area::between(Point::new(lo), Point::new(hi)) {
            Some(area) => area,
            None => unreachable!(),
        }
    }

    /// The least values and the greatest ones.
    pub(crate) fn corners(&self) -> (&[u64], &[u64])
        ensures lo { result.0.now ≡ self.now.lo }
        ensures hi { result.1.now ≡ self.now.hi }
        ensures area { IsArea self.now }
    {
        (self.lo.as_slice(), self.hi.as_slice())
    }

    /// Becomes its side below the plane. Hands back the greatest value that it had.
    pub(crate) fn take_below(&mut self, axis: u8, value: u64) -> u64
        requires { Cuts self.old axis value }
        ensures side { self.new ≡ side_below self.old axis value }
        ensures whole { IsArea self.old }
        ensures greatest { result ≡ slice_index self.old.hi axis }
    {
        let at = usize::from(axis);
        let greatest = self.hi.as_slice()[at];
        self.hi.as_mut_slice()[at] = value - 1;
        greatest
    }

    /// Becomes its side from the plane on. Hands back the least value that it had.
    pub(crate) fn take_from(&mut self, axis: u8, value: u64) -> u64
        requires { Cuts self.old axis value }
        ensures side { self.new ≡ side_from self.old axis value }
        ensures whole { IsArea self.old }
        ensures least { result ≡ slice_index self.old.lo axis }
    {
        let at = usize::from(axis);
        let least = self.lo.as_slice()[at];
        self.lo.as_mut_slice()[at] = value;
        least
    }

    /// Gives a side below a plane its greatest value back.
    pub(crate) fn put_hi(&mut self, axis: u8, greatest: u64)
        requires attribute { axis < length self.old.hi }
        requires area { IsArea (record { lo = self.old.lo; hi = slice_set self.old.hi axis greatest }) }
        ensures { self.new ≡ record { lo = self.old.lo; hi = slice_set self.old.hi axis greatest } }
    {
        self.hi.as_mut_slice()[usize::from(axis)] = greatest;
    }

    /// Gives a side from a plane on its least value back.
    pub(crate) fn put_lo(&mut self, axis: u8, least: u64)
        requires attribute { axis < length self.old.lo }
        requires area { IsArea (record { lo = slice_set self.old.lo axis least; hi = self.old.hi }) }
        ensures { self.new ≡ record { lo = slice_set self.old.lo axis least; hi = self.old.hi } }
    {
        self.lo.as_mut_slice()[usize::from(axis)] = least;
    }
}
