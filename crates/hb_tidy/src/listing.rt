//! The leaves of a page that name other pages, with their boxes, as lists.
ghost use Rattle.std.specs.Prelude.{◌≡◌, ◌++◌, [], ◌∷◌, IfOk, OnOk};
ghost use Rattle.hb_space.specs.Boxes.{IsArea};
ghost use Rattle.hb_frag.specs.Leaves.{IsWellCut, WellCut, leaves_of};
ghost use Rattle.hb_tidy.specs.Placing.{named_leaves};

use hb_frag::{Frag, Leaf, LivePage, Node};
use hb_space::{Area, NoMemory};
use std::alloc::Global;

/// What a leaf that is listed names.
#[derive(Clone, Copy)]
pub(crate) enum Names {
    /// A child of the page.
    Children,
    /// A page to which it gave a part of its box.
    Siblings,
}

/// The leaves that name such pages, from the left: the page that each names, and its box.
pub(crate) fn leaves_naming(
    alloc: Global,
    page: &LivePage,
    names: Names,
) -> Result<Vec<(u32, Area)>, NoMemory>
    requires { WellCut page.now }
    ensures leaves { IfOk result (λ leaves. leaves.items ≡ named_leaves names (leaves_of page.now.frag page.now.area)) }
    ensures area { IsArea page.now.area }
{
    let mut leaves = Vec::new(alloc);
    list_leaves(&page.frag, page.area.copy(), names, &mut leaves)?;
    Ok(leaves)
}

/// Adds such leaves of a part with this box to the list.
#[tactic(auto, using(crate::proofs::Listings::leaf_lists))]
fn list_leaves(
    part: &Frag,
    area: Area,
    names: Names,
    into: &mut Vec<(u32, Area)>,
) -> Result<(), NoMemory>
    requires { IsWellCut part.now area }
    ensures { OnOk result (into.new.items ≡ into.old.items ++ named_leaves names (leaves_of part.now area)) }
{
    match &part.node {
        Node::Tip(leaf) => list_leaf(leaf, area, names, into),
        Node::Cut {
            axis,
            value,
            left,
            right,
        } => {
            let (below, from) = area.cut(*axis, *value);
            list_leaves(left, below, names, into)?;
            list_leaves(right, from, names, into)
        }
    }
}

/// Adds a leaf with this box to the list, where it names such a page.
#[tactic(auto, using(crate::proofs::Listings::one_leaf))]
fn list_leaf(
    leaf: &Leaf,
    area: Area,
    names: Names,
    into: &mut Vec<(u32, Area)>,
) -> Result<(), NoMemory>
    ensures { OnOk result (into.new.items ≡ into.old.items ++ named_leaves names (record { leaf = leaf.now; area = area } ∷ [])) }
{
    match (names, leaf) {
        (Names::Children, Leaf::Child(page)) | (Names::Siblings, Leaf::Sibling(page)) => {
            Ok(into.push((*page, area))?)
        }
        (Names::Children, Leaf::Records(_) | Leaf::Sibling(_))
        | (Names::Siblings, Leaf::Records(_) | Leaf::Child(_)) => Ok(()),
    }
}
