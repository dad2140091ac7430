ghost use Rattle.std.specs.Prelude.{◌≡◌, ◌+◌, ◌≤◌, ◌++◌, ◌<◌, ◌^◌, ◌*◌, ◌↔◌, reverse, IfOk, IsTrue, OnOk};
ghost use Rattle.hb_frag.specs.Leaves.{weight_of};
ghost use Rattle.hb_split.specs.Choosing.{heavier_side, way_down};
ghost use Rattle.hb_split.specs.Steps.{own_step};

use hb_frag::{Frag, Node, Path, Side};
use hb_space::NoMemory;
use smallvec::SmallVec;
use std::alloc::Global;

/// Whether a part has more than two thirds of the whole weight.
pub(crate) fn is_heavy(total: u32, weight: u32) -> bool
    ensures { IsTrue result ↔ (2 * total < 3 * weight) }
{
    2 * u64::from(total) < 3 * u64::from(weight)
}

/// The heavier side, the left one where both weigh the same.
pub(crate) fn heavier_side(left: u32, right: u32) -> Side
    ensures { result ≡ heavier_side left right }
{
    if left < right {
        Side::Right
    } else {
        Side::Left
    }
}

/// The way to the heavier side of each cut, while what it reached has more than two thirds of the
/// whole weight.
pub(crate) fn way_down(alloc: Global, frag: &Frag, total: u32) -> Result<Path, NoMemory>
    requires { weight_of frag.now ≤ total }
    ensures { IfOk result (λ path. path ≡ way_down total frag.now) }
{
    let mut steps = SmallVec::new(alloc);
    let _weight = climb(frag, total, &mut steps)?;
    steps.as_mut_slice().reverse();
    Ok(Path::new(steps))
}

/// The part's weight. Adds the steps of its way down, the last of them first. Of two sides at most
/// one has more than two thirds, so the other one adds none.
#[tactic(auto, using(hb_frag::proofs::Facts::Parts::weight_cut))]
fn climb(frag: &Frag, total: u32, steps: &mut SmallVec<Side, 32>) -> Result<u32, NoMemory>
    requires { weight_of frag.now ≤ total }
    ensures weight { IfOk result (λ weight. weight ≡ weight_of frag.now) }
    ensures way { OnOk result (steps.new.items ≡ steps.old.items ++ reverse (way_down total frag.now)) }
{
    match &frag.node {
        Node::Tip(leaf) => Ok(leaf.weight()),
        Node::Cut { left, right, .. } => {
            let left = climb(left, total, steps)?;
            let right = climb(right, total, steps)?;
            add_step(total, left, right, steps)?;
            Ok(left + right)
        }
    }
}

/// Adds the step to the heavier side of a cut, where both sides together have more than two thirds
/// of the whole weight.
fn add_step(
    total: u32,
    left: u32,
    right: u32,
    steps: &mut SmallVec<Side, 32>,
) -> Result<(), NoMemory>
    requires { left + right ≤ total }
    ensures { OnOk result (steps.new.items ≡ steps.old.items ++ own_step total left right) }
{
    if is_heavy(total, left + right) {
        steps.push(heavier_side(left, right))?;
    }
    Ok(())
}
