//! Cuts that part nothing are taken away: a cut stays only where its two sides differ.

ghost use Rattle.std.specs.Prelude.{◌≡◌, ◌++◌, ℕ, IfOk, OnOk, MatchOption};
ghost use Rattle.hb_frag.specs.Trees.{Tip, Cut};
ghost use Rattle.hb_frag.specs.Normal.{in_point_order, one_leaf_or_cut, normal};

use crate::{Frag, Leaf, Node};
use hb_space::{NoMemory, Record, Records};
use std::alloc::Global;
use std::mem;

/// The tree without cuts whose two sides should be one leaf: two records leaves become one with
/// the records of both in the order of their points, and two child leaves of the same name become
/// one. One pass from the leaves up; a cut that stays keeps its boxes.
pub fn normal(alloc: Global, frag: Frag) -> Result<Frag, NoMemory>
    ensures { IfOk result (λ t. t ≡ normal frag) }
{
    let mut frag = frag;
    frag.normalize(alloc)?;
    Ok(frag)
}

impl Frag {
    /// Takes away the cuts whose two sides should be one leaf.
    fn normalize(&mut self, alloc: Global) -> Result<(), NoMemory>
        ensures { OnOk result (self.new ≡ normal self.old) }
    {
        match &mut self.node {
            Node::Tip(_) => {}
            Node::Cut { left, right, .. } => {
                left.normalize(alloc)?;
                right.normalize(alloc)?;
                if let Some(leaf) = left.one_leaf(alloc, right)? {
                    self.node = Node::Tip(leaf);
                }
            }
        }
        Ok(())
    }

    /// One leaf for the two sides of a cut, of which this is the left one. None where the cut
    /// stays.
    fn one_leaf(&mut self, alloc: Global, right: &mut Frag) -> Result<Option<Leaf>, NoMemory>
        ensures { IfOk result (λ leaf. (axis value : ℕ) → MatchOption leaf
            (one_leaf_or_cut axis value self.old right.old ≡ Cut axis value self.new right.new)
            (λ leaf. one_leaf_or_cut axis value self.old right.old ≡ Tip leaf)) }
    {
        match (&mut self.node, &mut right.node) {
            (Node::Tip(leaf), Node::Tip(other)) => leaf.joined(alloc, other),
            _ => Ok(None),
        }
    }
}

impl Leaf {
    /// One leaf for two of a cut, of which this is the left one. None where the cut stays.
    fn joined(&mut self, alloc: Global, right: &mut Leaf) -> Result<Option<Leaf>, NoMemory>
        ensures { IfOk result (λ leaf. (axis value : ℕ) → MatchOption leaf
            (one_leaf_or_cut axis value (Tip self.old) (Tip right.old) ≡ Cut axis value (Tip self.new) (Tip right.new))
            (λ leaf. one_leaf_or_cut axis value (Tip self.old) (Tip right.old) ≡ Tip leaf)) }
    {
        match (self, right) {
            (Leaf::Records(records), Leaf::Records(others)) => {
                Ok(Some(Leaf::Records(in_one_order(alloc, records, others)?)))
            }
            (Leaf::Child(page), Leaf::Child(other)) if *page == *other => {
                Ok(Some(Leaf::Child(*page)))
            }
            _ => Ok(None),
        }
    }
}

/// The records of both, moved into one vector, in the order of their points.
fn in_one_order(
    alloc: Global,
    records: &mut Records,
    others: &mut Records,
) -> Result<Records, NoMemory>
    ensures { IfOk result (λ r. r ≡ in_point_order (records.old ++ others.old)) }
{
    let mut joined = mem::replace(records, Records::new(Vec::new(alloc))).into_vec();
    let mut others = mem::replace(others, Records::new(Vec::new(alloc))).into_vec();
    joined.append(&mut others)?;
    put_in_order(&mut joined)?;
    Ok(Records::new(joined))
}

/// Sorts the records by their points.
fn put_in_order(records: &mut Vec<Record>) -> Result<(), NoMemory>
    ensures { OnOk result (records.new.items ≡ in_point_order records.old.items) }
{
    records.sort_by(|record, other| record.key.cmp(&other.key))
}
