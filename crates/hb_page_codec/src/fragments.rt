//! A page's inside, from the front of bytes.
ghost use Rattle.std.specs.Prelude.{◌≡◌, ◌<◌, ◌≤◌};
ghost use Rattle.hb_page_codec.specs.Memory.{WantsOnly, IsSomeCount, IsCutOrRecords};
ghost use Rattle.hb_page_codec.specs.Reading.{ReadsAs, Gives};
ghost use Rattle.hb_page_codec.specs.ReadingFields.{count_at, records_at, axis_at};
ghost use Rattle.hb_page_codec.specs.ReadingPages.{cut_at, records_tip_at, node_at, tree_at};
ghost use Rattle.hb_frag.specs.Nodes.{tree_of};

use crate::errors::PageError;
use crate::numbers::{u16_of, u32_of, u64_of};
use crate::records::record_of;
use hb_frag::{Frag, Leaf, Node};
use hb_space::{Attributes, Records};
use std::alloc::Global;

/// How many records follow, each with `k` attributes: no more than there is room for.
#[tactic(auto, unfolding(crate::specs::ReadingFields::count_at))]
pub fn count_of(k: Attributes, bytes: &[u8]) -> Option<(u16, &[u8])>
    ensures { ReadsAs (λ x. (x.0, x.1.now)) result (count_at k.number bytes.now) }
{
    let (count, rest) = u16_of(bytes)?;
    let least = 8 * usize::from(k.number) + 1;
    if rest.len() < usize::from(count) * least {
        return None;
    }
    Some((count, rest))
}

/// So many records.
fn records_of(
    alloc: Global,
    k: Attributes,
    count: u16,
    bytes: &[u8],
) -> Result<(Records, &[u8]), PageError>
    ensures gives { Gives (λ x. (x.0, x.1.now)) result (records_at k.number count bytes.now) }
    ensures memory { WantsOnly result (0 < count) }
{
    let mut records = Vec::with_capacity(alloc, usize::from(count))?;
    let mut rest = bytes;
    for _ in 0..count {
        let (record, after) = record_of(k, rest).ok_or(PageError::BadPage)?;
        records.push(record)?;
        rest = after;
    }
    Ok((Records::new(records), rest))
}

/// A leaf of records, behind its tag.
#[tactic(auto, unfolding(crate::specs::ReadingPages::records_tip_at))]
fn records_tip_of(alloc: Global, k: Attributes, bytes: &[u8]) -> Result<(Node, &[u8]), PageError>
    ensures gives { Gives (λ x. (tree_of x.0, x.1.now)) result (records_tip_at k.number bytes.now) }
    ensures memory { WantsOnly result (IsSomeCount bytes.now) }
{
    let (count, rest) = count_of(k, bytes).ok_or(PageError::BadPage)?;
    let (records, rest) = records_of(alloc, k, count, rest)?;
    Ok((Node::Tip(Leaf::Records(records)), rest))
}

/// An attribute below `k`.
#[tactic(auto, unfolding(crate::specs::ReadingFields::axis_at))]
pub fn axis_of(k: Attributes, bytes: &[u8]) -> Option<(u8, &[u8])>
    ensures { ReadsAs (λ x. (x.0, x.1.now)) result (axis_at k.number bytes.now) }
{
    let (axis, rest) = bytes.split_first()?;
    if *axis < k.number {
        Some((*axis, rest))
    } else {
        None
    }
}

/// A cut, behind its tag.
#[cycle(fragments)]
#[tactic(auto, unfolding(crate::specs::ReadingPages::cut_at))]
fn cut_of(alloc: Global, k: Attributes, bytes: &[u8]) -> Result<(Node, &[u8]), PageError>
    ensures { Gives (λ x. (tree_of x.0, x.1.now)) result (cut_at (tree_at k.number) k.number bytes.now) }
{
    let (axis, rest) = axis_of(k, bytes).ok_or(PageError::BadPage)?;
    let (value, rest) = u64_of(rest).ok_or(PageError::BadPage)?;
    let (left, rest) = fragment_of(alloc, k, rest)?;
    let left = Box::new(alloc, left)?;
    let (right, rest) = fragment_of(alloc, k, rest)?;
    let right = Box::new(alloc, right)?;
    let node = Node::Cut {
        axis,
        value,
        left,
        right,
    };
    Ok((node, rest))
}

/// The root of a fragment, with what lies below it.
#[cycle(fragments)]
#[tactic(auto, unfolding(crate::specs::ReadingPages::node_at))]
fn node_of(alloc: Global, k: Attributes, bytes: &[u8]) -> Result<(Node, &[u8]), PageError>
    ensures gives { Gives (λ x. (tree_of x.0, x.1.now)) result (node_at (tree_at k.number) k.number bytes.now) }
    ensures memory { WantsOnly result (IsCutOrRecords bytes.now) }
{
    match bytes {
        [0, rest @ ..] => cut_of(alloc, k, rest),
        [1, rest @ ..] => records_tip_of(alloc, k, rest),
        [2, rest @ ..] => {
            let (page, rest) = u32_of(rest).ok_or(PageError::BadPage)?;
            Ok((Node::Tip(Leaf::Child(page)), rest))
        }
        [3, rest @ ..] => {
            let (page, rest) = u32_of(rest).ok_or(PageError::BadPage)?;
            Ok((Node::Tip(Leaf::Sibling(page)), rest))
        }
        _ => Err(PageError::BadPage),
    }
}

/// A fragment for pages of `k` attributes.
#[cycle(fragments)]
pub(crate) fn fragment_of(
    alloc: Global,
    k: Attributes,
    bytes: &[u8],
) -> Result<(Frag, &[u8]), PageError>
    ensures gives { Gives (λ x. (x.0, x.1.now)) result (tree_at k.number bytes.now) }
    ensures memory { WantsOnly result (IsCutOrRecords bytes.now) }
{
    let (node, rest) = node_of(alloc, k, bytes)?;
    Ok((Frag { node }, rest))
}
