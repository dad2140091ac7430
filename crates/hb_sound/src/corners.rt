//! Boxes by the values of their two corners, of which a walk over a page's cuts changes one at a time.
ghost use Rattle.std.specs.Prelude.{◌≡◌, ◌<◌, ◌↔◌, length, slice_index, slice_set, IfSome, IsTrue};
ghost use Rattle.hb_space.specs.Boxes.{Within};
ghost use Rattle.hb_space.specs.Points.{AtMost};

use hb_space::form::KMAX;
use hb_space::{Area, Point};
use std::marker::Model;

/// A box as its corners, of which values may be changed: so it may hold no point.
#[derive(Drop)]
pub(crate) struct Corners {
    lo: [u64; KMAX],
    hi: [u64; KMAX],
    /// The number of attributes. No value behind it counts.
    count: usize,
}

impl Model for Corners {
    ghost use Rattle.std.specs.Prelude.{◌<◌, ◌≤◌, take};
    ghost use Rattle.hb_space.specs.Boxes.{Area};
    ghost use Rattle.hb_space.specs.declared.form.TheConstants.{KMAX};

    ghost Value = { Area };

    ghost view = { λ c. record { lo = take c.count c.lo; hi = take c.count c.hi } };

    ghost invariant = { λ c. (0 < c.count) × (c.count ≤ KMAX) };
}

/// Whether no value is greater than the bound in its place.
fn are_at_most(values: &[u64], bounds: &[u64]) -> bool
    requires { length values.now ≡ length bounds.now }
    ensures { IsTrue result ↔ AtMost values.now bounds.now }
{
    let mut pairs = values.iter().zip(bounds);
    pairs.all(|(value, bound)| value <= bound)
}

impl Corners {
    /// Those of this box.
    pub(crate) fn of(area: &Area) -> Corners
        ensures { result ≡ area.now }
    {
        let count = area.lo().values().len();
        let mut lo = [0; KMAX];
        let mut hi = [0; KMAX];
        lo[..count].copy_from_slice(area.lo().values());
        hi[..count].copy_from_slice(area.hi().values());
        Corners { lo, hi, count }
    }

    /// The least values.
    pub(crate) fn lo(&self) -> &[u64]
        ensures { result.now ≡ self.now.lo }
    {
        &self.lo[..self.count]
    }

    /// The greatest values.
    pub(crate) fn hi(&self) -> &[u64]
        ensures { result.now ≡ self.now.hi }
    {
        &self.hi[..self.count]
    }

    /// The box as a value. `None` where it holds no point.
    pub(crate) fn area(&self) -> Option<Area>
        ensures { IfSome result (λ area. area ≡ self.now) }
    {
        let lo = Point::new(&self.lo[..self.count]);
        let hi = Point::new(&self.hi[..self.count]);
        Area::between(lo, hi)
    }

    /// Whether the box lies in this one, which has as many attributes then.
    pub(crate) fn are_within(&self, area: &Area) -> bool
        ensures { IsTrue result ↔ ((length self.now.lo ≡ length area.now.lo) × Within self.now area.now) }
    {
        self.count == area.lo().values().len()
            && are_at_most(area.lo().values(), self.lo())
            && are_at_most(self.hi(), area.hi().values())
    }

    /// Changes a least value, and hands back the one that was there.
    pub(crate) fn replace_lo(&mut self, axis: u8, value: u64) -> u64
        requires { axis < length self.old.lo }
        ensures replaced { self.new ≡ record { lo = slice_set self.old.lo axis value; hi = self.old.hi } }
        ensures before { result ≡ slice_index self.old.lo axis }
    {
        let at = usize::from(axis);
        let before = self.lo[at];
        self.lo[at] = value;
        before
    }

    /// Changes a greatest value, and hands back the one that was there.
    pub(crate) fn replace_hi(&mut self, axis: u8, value: u64) -> u64
        requires { axis < length self.old.hi }
        ensures replaced { self.new ≡ record { lo = self.old.lo; hi = slice_set self.old.hi axis value } }
        ensures before { result ≡ slice_index self.old.hi axis }
    {
        let at = usize::from(axis);
        let before = self.hi[at];
        self.hi[at] = value;
        before
    }
}
