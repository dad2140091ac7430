ghost use Rattle.std.specs.Prelude.{◌≡◌, ◌<◌, ◌^◌, ◌↔◌, ◌++◌, Some, None, length, All, IfOk, IsSome, IsTrue, MatchOption, OnOk, ◌-◌, min};
ghost use Rattle.std.specs.List.{Contains};
ghost use Rattle.hb_space.specs.Boxes.{Holds, Meets};
ghost use Rattle.hb_frag.specs.Trees.{Tip, Cut};
ghost use Rattle.hb_frag.specs.Leaves.{IsWellCut, first_at, leaves_of, leaves, child_names, with_names, first_named, siblings, weight_of};
ghost use Rattle.hb_frag.specs.Paths.{part_at, with_part, way_to, sibling_way, StaysInside, TracesTo};
ghost use Rattle.hb_frag.specs.Renaming.{renamed};

use crate::{Leaf, Pages, Path, Side};
use hb_space::{Area, NoMemory, Point};
use std::alloc::Global;
use std::marker::Model;

/// A page's inside, or a part of it: a k-d tree of cuts whose tips are leaves.
#[cycle(fragment)]
#[derive(Debug, Drop)]
pub struct Frag {
    pub node: Node,
}

/// The root of a fragment.
#[cycle(fragment)]
#[derive(Debug, Drop)]
pub enum Node {
    /// A plane: points whose value in the attribute is below `value` are on the left.
    Cut {
        axis: u8,
        value: u64,
        left: Box<Frag>,
        right: Box<Frag>,
    },
    /// A leaf.
    Tip(Leaf),
}

impl Model for Frag {
    ghost use Rattle.hb_frag.specs.Trees.{Tree, tree_size};
    ghost use Rattle.hb_frag.specs.TreeCode.{tree_code};

    ghost Value = { Tree };

    ghost coded = { tree_code };

    ghost use Rattle.hb_frag.specs.Nodes.{tree_of};

    ghost view = { λ f. tree_of f.node };

    ghost size = { tree_size };

    ghost use Rattle.std.proofs.Common.{arith};

    ghost size_decreases = { λ a h. Prim.grind (arith) };
}

impl Frag {
    /// The part that is a leaf.
    pub fn tip(leaf: Leaf) -> Frag
        ensures { result ≡ Tip leaf }
    {
        Frag {
            node: Node::Tip(leaf),
        }
    }

    /// The part that a plane cuts: `left` is what lies below `value` in the attribute, `right`
    /// the rest.
    pub fn cut(axis: u8, value: u64, left: Box<Frag>, right: Box<Frag>) -> Frag
        ensures { result ≡ Cut axis value left.value right.value }
    {
        Frag {
            node: Node::Cut {
                axis,
                value,
                left,
                right,
            },
        }
    }

    /// Whether every cut cuts its box, in a part with this box.
    pub(crate) fn is_well_cut(&self, area: Area) -> bool
        ensures { IsTrue result ↔ IsWellCut self.now area }
    {
        match &self.node {
            Node::Tip(_) => true,
            Node::Cut {
                axis,
                value,
                left,
                right,
            } => {
                if !area.cuts(*axis, *value) {
                    return false;
                }
                let (below, from) = area.cut(*axis, *value);
                left.is_well_cut(below) && right.is_well_cut(from)
            }
        }
    }

    /// The leaf whose box holds the point, and that box, in a part with this box.
    #[tactic(auto, using(crate::proofs::Facts::Points::going_left, crate::proofs::Facts::Points::going_right, crate::proofs::Facts::Sides::held_test))]
    pub(crate) fn leaf_at(&self, area: Area, p: &Point) -> (&Leaf, Area)
        requires well_cut { IsWellCut self.now area }
        requires held { Holds area p.now }
        ensures value { first_at p.now (leaves_of self.now area) ≡ Some (record { leaf = result.0.now; area = result.1 }) }
        ensures inside { Holds result.1 p.now }
    {
        match &self.node {
            Node::Tip(leaf) => (leaf, area),
            Node::Cut {
                axis,
                value,
                left,
                right,
            } => {
                let (below, from) = area.cut(*axis, *value);
                let at = usize::from(*axis);
                if p.values()[at] < *value {
                    left.leaf_at(below, p)
                } else {
                    right.leaf_at(from, p)
                }
            }
        }
    }

    /// Adds the steps to the leaf whose box holds the point, in a part with this box.
    pub(crate) fn trace(&self, area: Area, p: &Point, path: &mut Path) -> Result<(), NoMemory>
        requires well_cut { IsWellCut self.now area }
        requires held { Holds area p.now }
        ensures { OnOk result (path.new ≡ path.old ++ way_to p.now self.now) }
    {
        match &self.node {
            Node::Tip(_) => Ok(()),
            Node::Cut {
                axis,
                value,
                left,
                right,
            } => {
                let (below, from) = area.cut(*axis, *value);
                if p.values()[usize::from(*axis)] < *value {
                    path.push(Side::Left)?;
                    left.trace(below, p, path)
                } else {
                    path.push(Side::Right)?;
                    right.trace(from, p, path)
                }
            }
        }
    }

    /// What the leaves weigh together.
    pub(crate) fn weight(&self) -> u32
        requires { weight_of self.now < 2 ^ 32 }
        ensures { result ≡ weight_of self.now }
    {
        match &self.node {
            Node::Tip(leaf) => leaf.weight(),
            Node::Cut { left, right, .. } => left.weight() + right.weight(),
        }
    }

    /// The same, or the greatest number of the type where that is less.
    #[tactic(auto, using(crate::proofs::Facts::Parts::most_of_cut))]
    pub(crate) fn weight_or_most(&self) -> u32
        ensures { result ≡ min (weight_of self.now) (2 ^ 32 - 1) }
    {
        match &self.node {
            Node::Tip(leaf) => leaf.weight_or_most(),
            Node::Cut { left, right, .. } => left
                .weight_or_most()
                .saturating_add(right.weight_or_most()),
        }
    }

    /// Whether a child leaf names the page.
    pub(crate) fn names(&self, id: u32) -> bool
        ensures { IsTrue result ↔ Contains (leaves self.now) (Leaf.Child id) }
    {
        match &self.node {
            Node::Tip(leaf) => leaf.is_child(id),
            Node::Cut { left, right, .. } => left.names(id) || right.names(id),
        }
    }

    /// Adds the pages that child leaves name to the list, each that isn't in it yet.
    #[tactic(auto, using(crate::proofs::Facts::NamesListed::listing))]
    pub(crate) fn list_children(&self, pages: &mut Pages) -> Result<(), NoMemory>
        ensures { OnOk result (pages.new ≡ with_names pages.old (child_names (leaves self.now))) }
    {
        match &self.node {
            Node::Tip(leaf) => leaf.list_child(pages),
            Node::Cut { left, right, .. } => {
                left.list_children(pages)?;
                right.list_children(pages)
            }
        }
    }

    /// The box of the first sibling leaf from the left that names the page, in a part with this
    /// box.
    #[tactic(auto, using(crate::proofs::Facts::NamesListed::finding))]
    pub(crate) fn sibling_area(&self, area: Area, id: u32) -> Option<Area>
        requires { IsWellCut self.now area }
        ensures { result ≡ first_named id (siblings (leaves_of self.now area)) }
    {
        match &self.node {
            Node::Tip(leaf) => leaf.sibling_area(area, id),
            Node::Cut {
                axis,
                value,
                left,
                right,
            } => {
                let (below, from) = area.cut(*axis, *value);
                match left.sibling_area(below, id) {
                    Some(found) => Some(found),
                    None => right.sibling_area(from, id),
                }
            }
        }
    }

    /// Adds the steps to the first sibling leaf from the left that names the page. Where none does, it
    /// adds no step and tells so.
    pub(crate) fn trace_sibling(&self, id: u32, path: &mut Path) -> Result<bool, NoMemory>
        ensures { IfOk result (λ found. TracesTo (sibling_way id self.now) path.old path.new found) }
    {
        match &self.node {
            Node::Tip(leaf) => Ok(leaf.is_sibling(id)),
            Node::Cut { left, right, .. } => {
                path.push(Side::Left)?;
                if left.trace_sibling(id, path)? {
                    return Ok(true);
                }
                path.pop();
                path.push(Side::Right)?;
                if right.trace_sibling(id, path)? {
                    return Ok(true);
                }
                path.pop();
                Ok(false)
            }
        }
    }

    /// Whether no sibling leaf's box meets the box `a`, in a part with the box `area`.
    pub(crate) fn is_clear_of(&self, area: Area, a: &Area) -> bool
        requires well_cut { IsWellCut self.now area }
        requires attributes { length a.now.lo ≡ length area.lo }
        ensures { IsTrue result ↔ All (λ s. ¬ (Meets s.1 a.now)) (siblings (leaves_of self.now area)) }
    {
        match &self.node {
            Node::Tip(leaf) => leaf.is_clear_of(area, a),
            Node::Cut {
                axis,
                value,
                left,
                right,
            } => {
                let (below, from) = area.cut(*axis, *value);
                left.is_clear_of(below, a) && right.is_clear_of(from, a)
            }
        }
    }

    /// The part to which the steps lead, and its box, in a part with this box.
    pub(crate) fn part(&self, area: Area, path: &[Side]) -> Option<(&Frag, Area)>
        requires { IsWellCut self.now area }
        ensures value { MatchOption result
            (part_at path.now self.now area ≡ None)
            (λ part. part_at path.now self.now area ≡ Some (part.0.now, part.1)) }
        ensures inside { IsSome result ↔ StaysInside path.now self.now }
    {
        match path {
            [] => Some((self, area)),
            [side, rest @ ..] => match &self.node {
                Node::Tip(_) => None,
                Node::Cut {
                    axis,
                    value,
                    left,
                    right,
                } => {
                    let (below, from) = area.cut(*axis, *value);
                    match side {
                        Side::Left => left.part(below, rest),
                        Side::Right => right.part(from, rest),
                    }
                }
            },
        }
    }

    /// Puts another part where the steps lead.
    pub(crate) fn put(&mut self, path: &[Side], part: Frag)
        requires { StaysInside path.now self.old }
        ensures { self.new ≡ with_part path.now self.old part }
    {
        match path {
            [] => *self = part,
            [side, rest @ ..] => match &mut self.node {
                Node::Tip(_) => unreachable!(),
                Node::Cut { left, right, .. } => match side {
                    Side::Left => left.put(rest, part),
                    Side::Right => right.put(rest, part),
                },
            },
        }
    }

    /// The same part once more.
    pub fn copy(&self, alloc: Global) -> Result<Frag, NoMemory>
        ensures { IfOk result (λ frag. frag ≡ self.now) }
    {
        match &self.node {
            Node::Tip(leaf) => Ok(Frag::tip(leaf.copy(alloc)?)),
            Node::Cut {
                axis,
                value,
                left,
                right,
            } => {
                let left = Box::new(alloc, left.copy(alloc)?)?;
                let right = Box::new(alloc, right.copy(alloc)?)?;
                Ok(Frag::cut(*axis, *value, left, right))
            }
        }
    }

    /// The same part once more, but with `new` in the place of `old` in the child leaves that name it.
    pub fn copy_renamed(&self, alloc: Global, old: u32, new: u32) -> Result<Frag, NoMemory>
        ensures { IfOk result (λ frag. frag ≡ renamed old new self.now) }
    {
        match &self.node {
            Node::Tip(leaf) => Ok(Frag::tip(leaf.copy_renamed(alloc, old, new)?)),
            Node::Cut {
                axis,
                value,
                left,
                right,
            } => {
                let left = Box::new(alloc, left.copy_renamed(alloc, old, new)?)?;
                let right = Box::new(alloc, right.copy_renamed(alloc, old, new)?)?;
                Ok(Frag::cut(*axis, *value, left, right))
            }
        }
    }

    /// The same part once more, but with another part where the path leads. What stands there
    /// is not copied.
    pub fn copy_with(&self, alloc: Global, path: &Path, part: Frag) -> Result<Frag, NoMemory>
        requires { StaysInside path.now self.now }
        ensures { IfOk result (λ frag. frag ≡ with_part path.now self.now part) }
    {
        self.copy_around(alloc, path.as_slice(), part)
    }

    /// The same part once more, but with another part where the steps lead.
    fn copy_around(&self, alloc: Global, path: &[Side], part: Frag) -> Result<Frag, NoMemory>
        requires { StaysInside path.now self.now }
        ensures { IfOk result (λ frag. frag ≡ with_part path.now self.now part) }
    {
        match path {
            [] => Ok(part),
            [side, rest @ ..] => match &self.node {
                Node::Tip(_) => unreachable!(),
                Node::Cut {
                    axis,
                    value,
                    left,
                    right,
                } => match side {
                    Side::Left => {
                        let left = left.copy_around(alloc, rest, part)?;
                        left.beside_copy(alloc, *axis, *value, right)
                    }
                    Side::Right => {
                        let right = right.copy_around(alloc, rest, part)?;
                        right.behind_copy(alloc, *axis, *value, left)
                    }
                },
            },
        }
    }

    /// A cut with this part on its left, and a copy of another one on its right.
    fn beside_copy(
        self,
        alloc: Global,
        axis: u8,
        value: u64,
        right: &Frag,
    ) -> Result<Frag, NoMemory>
        ensures { IfOk result (λ frag. frag ≡ Cut axis value self right.now) }
    {
        let right = right.copy(alloc)?;
        boxed_cut(alloc, axis, value, self, right)
    }

    /// A cut with this part on its right, and a copy of another one on its left.
    fn behind_copy(self, alloc: Global, axis: u8, value: u64, left: &Frag) -> Result<Frag, NoMemory>
        ensures { IfOk result (λ frag. frag ≡ Cut axis value left.now self) }
    {
        let left = left.copy(alloc)?;
        boxed_cut(alloc, axis, value, left, self)
    }
}

/// The part that a plane cuts, of two sides that aren't boxed yet.
pub(crate) fn boxed_cut(
    alloc: Global,
    axis: u8,
    value: u64,
    left: Frag,
    right: Frag,
) -> Result<Frag, NoMemory>
    ensures { IfOk result (λ frag. frag ≡ Cut axis value left right) }
{
    let left = Box::new(alloc, left)?;
    let right = Box::new(alloc, right)?;
    Ok(Frag::cut(axis, value, left, right))
}

/// The tree with another part where the path leads.
pub fn replace(frag: Frag, path: &Path, part: Frag) -> Result<Frag, NoMemory>
    requires { StaysInside path.now frag }
    ensures { IfOk result (λ whole. whole ≡ with_part path.now frag part) }
{
    let mut frag = frag;
    frag.put(path.as_slice(), part);
    Ok(frag)
}
