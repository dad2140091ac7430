//! A leaf's box is carved: a new child gets what it has in common with a box, and the old child
//! keeps the rest. Source of the idea: Lomet and Salzberg 1990, Evangelidis, Lomet and Salzberg
//! 1997: an index term describes space for which the child is responsible.

ghost use Rattle.std.specs.Prelude.{◌≡◌, ◌<◌, ◌≤◌, ◌+◌, ◌-◌, ◌*◌, ℕ, length, IfOk};
ghost use Rattle.hb_space.specs.declared.form.TheConstants.{KMAX};
ghost use Rattle.hb_space.specs.Boxes.{Meets};
ghost use Rattle.hb_frag.specs.Leaves.{weight_of};
ghost use Rattle.hb_frag.specs.Carving.{carve_below, carve_above, carve_from, carved};

use crate::fragments::boxed_cut;
use crate::{Frag, Leaf};
use hb_space::form::KMAX;
use hb_space::{Area, NoMemory};
use std::alloc::Global;

/// What stands for a child leaf of the box `leaf` that names `outer_id`, once the child
/// `inner_id` is named over what the box has in common with the box `inner`: at most two cuts for
/// each attribute, and none where `inner` holds the leaf's whole box.
pub fn carve(
    alloc: Global,
    leaf: &Area,
    inner: &Area,
    outer_id: u32,
    inner_id: u32,
) -> Result<Frag, NoMemory>
    requires meets { Meets leaf.now inner.now }
    requires attributes { length inner.now.lo ≡ length leaf.now.lo }
    ensures { IfOk result (λ t. t ≡ carved leaf.now inner.now outer_id inner_id) }
{
    match leaf.common(inner) {
        Some(common) => carve_from(alloc, 0, leaf, &common, outer_id, inner_id),
        None => unreachable!(),
    }
}

/// What a child leaf of the box `leaf` weighs once it is carved by the box `inner`: 1, and 1 more
/// for each cut. Takes no memory.
pub fn carved_weight(leaf: &Area, inner: &Area) -> u32
    requires meets { Meets leaf.now inner.now }
    requires attributes { length inner.now.lo ≡ length leaf.now.lo }
    ensures weight { (outer name : ℕ) → result ≡ weight_of (carved leaf.now inner.now outer name) }
    ensures light { result ≤ 2 * KMAX + 1 }
{
    match leaf.common(inner) {
        Some(common) => weight_from(0, leaf, &common),
        None => unreachable!(),
    }
}

/// The cuts of the attributes from `axis` on, with the new child within them.
#[tactic(auto, using(crate::proofs::Carves::carve_ends, crate::proofs::Carves::carve_goes_on))]
fn carve_from(
    alloc: Global,
    axis: u8,
    leaf: &Area,
    common: &Area,
    outer: u32,
    inner: u32,
) -> Result<Frag, NoMemory>
    requires attributes { length common.now.lo ≡ length leaf.now.lo }
    requires within { axis ≤ length leaf.now.lo }
    ensures { IfOk result (λ t. t ≡ carve_from (length leaf.now.lo - axis) axis leaf.now common.now outer inner) }
{
    if axis < leaf.lo().attributes() {
        let rest = carve_from(alloc, axis + 1, leaf, common, outer, inner)?;
        let rest = carve_above(alloc, axis, leaf, common, outer, rest)?;
        carve_below(alloc, axis, leaf, common, outer, rest)
    } else {
        Ok(Frag::tip(Leaf::Child(inner)))
    }
}

/// The rest, behind a cut where the leaf's box begins below the common one in the attribute.
fn carve_below(
    alloc: Global,
    axis: u8,
    leaf: &Area,
    common: &Area,
    outer: u32,
    rest: Frag,
) -> Result<Frag, NoMemory>
    requires attributes { length common.now.lo ≡ length leaf.now.lo }
    requires within { axis < length leaf.now.lo }
    ensures { IfOk result (λ t. t ≡ carve_below axis leaf.now common.now outer rest) }
{
    let least = common.lo().values()[usize::from(axis)];
    if leaf.lo().values()[usize::from(axis)] < least {
        let old = Frag::tip(Leaf::Child(outer));
        boxed_cut(alloc, axis, least, old, rest)
    } else {
        Ok(rest)
    }
}

/// The rest, in front of a cut where the leaf's box ends above the common one in the attribute.
fn carve_above(
    alloc: Global,
    axis: u8,
    leaf: &Area,
    common: &Area,
    outer: u32,
    rest: Frag,
) -> Result<Frag, NoMemory>
    requires attributes { length common.now.lo ≡ length leaf.now.lo }
    requires within { axis < length leaf.now.lo }
    ensures { IfOk result (λ t. t ≡ carve_above axis leaf.now common.now outer rest) }
{
    let greatest = common.hi().values()[usize::from(axis)];
    if greatest < leaf.hi().values()[usize::from(axis)] {
        let old = Box::new(alloc, Frag::tip(Leaf::Child(outer)))?;
        let rest = Box::new(alloc, rest)?;
        Ok(Frag::cut(axis, greatest + 1, rest, old))
    } else {
        Ok(rest)
    }
}

/// What the cuts of the attributes from `axis` on weigh, with the new child.
#[tactic(auto, using(crate::proofs::Carves::weight_ends, crate::proofs::Carves::weight_goes_on))]
fn weight_from(axis: u8, leaf: &Area, common: &Area) -> u32
    requires attributes { length common.now.lo ≡ length leaf.now.lo }
    requires within { axis ≤ length leaf.now.lo }
    ensures weight { (outer inner : ℕ) → result ≡
        weight_of (carve_from (length leaf.now.lo - axis) axis leaf.now common.now outer inner) }
    ensures light { result ≤ 2 * (length leaf.now.lo - axis) + 1 }
    ensures few { length leaf.now.lo ≤ KMAX }
{
    if axis < leaf.lo().attributes() {
        let at = usize::from(axis);
        let below = leaf.lo().values()[at] < common.lo().values()[at];
        let above = common.hi().values()[at] < leaf.hi().values()[at];
        weight_from(axis + 1, leaf, common) + u32::from(below) + u32::from(above)
    } else {
        1
    }
}
