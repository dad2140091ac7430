//! Reading over what stands at the front of bytes, without keeping it.
ghost use Rattle.std.specs.Prelude.{◌≡◌, ◌+◌, ◌^◌, ◌<◌, ◌≤◌, length, Some, IsSome};
ghost use Rattle.hb_page_codec.specs.Reading.{ReadsAs};
ghost use Rattle.hb_page_codec.specs.ReadingFields.{records_at};
ghost use Rattle.hb_page_codec.specs.ReadingPages.{tree_at};
ghost use Rattle.hb_view.specs.Behind.{behind, record_behind, list_behind, cut_behind, name_behind, node_behind, rest_after};
ghost use Rattle.hb_view.specs.Seen.{rest_seen};

use crate::corners::{from_place, point_read};
use crate::fields::body_of;
use crate::trees::TreeView;
use hb_page_codec::{axis_of, count_of, u32_of, u64_of};
use hb_space::Attributes;

/// The bytes behind a record whose point has `k` values.
#[tactic(auto, unfolding(crate::specs::Behind::record_behind))]
fn behind_record(k: Attributes, bytes: &[u8]) -> Option<&[u8]>
    ensures { ReadsAs (λ x. x.now) result (record_behind k.number bytes.now) }
{
    let (_, rest) = point_read(k, bytes)?;
    let (_, rest) = body_of(rest)?;
    Some(rest)
}

/// The bytes behind so many records.
pub(crate) fn behind_list(k: Attributes, count: u16, bytes: &[u8]) -> Option<&[u8]>
    ensures { ReadsAs (λ x. x.now) result (behind (records_at k.number count bytes.now)) }
{
    let mut rest = bytes;
    for _ in 0..count {
        rest = behind_record(k, rest)?;
    }
    Some(rest)
}

/// The bytes behind a leaf of records, from behind its tag.
#[tactic(auto, unfolding(crate::specs::Behind::list_behind))]
fn behind_records(k: Attributes, bytes: &[u8]) -> Option<&[u8]>
    ensures { ReadsAs (λ x. x.now) result (list_behind k.number bytes.now) }
{
    let (count, rest) = count_of(k, bytes)?;
    behind_list(k, count, rest)
}

/// The bytes behind the name of a page.
#[tactic(auto, unfolding(crate::specs::Behind::name_behind))]
pub(crate) fn behind_name(bytes: &[u8]) -> Option<&[u8]>
    ensures { ReadsAs (λ x. x.now) result (name_behind bytes.now) }
{
    let (_page, rest) = u32_of(bytes)?;
    Some(rest)
}

/// The bytes behind a cut, from behind its tag.
#[cycle(trees)]
#[tactic(auto, unfolding(crate::specs::Behind::cut_behind))]
fn behind_cut(k: Attributes, bytes: &[u8]) -> Option<&[u8]>
    ensures { ReadsAs (λ x. x.now) result (cut_behind k.number bytes.now) }
{
    let (_axis, rest) = axis_of(k, bytes)?;
    let (_value, rest) = u64_of(rest)?;
    let rest = behind_tree(k, rest)?;
    behind_tree(k, rest)
}

/// The bytes behind the root of a tree and what lies below it.
#[cycle(trees)]
#[tactic(auto, unfolding(crate::specs::Behind::node_behind))]
fn behind_node(k: Attributes, bytes: &[u8]) -> Option<&[u8]>
    ensures { ReadsAs (λ x. x.now) result (node_behind k.number bytes.now) }
{
    match bytes {
        [0, rest @ ..] => behind_cut(k, rest),
        [1, rest @ ..] => behind_records(k, rest),
        [2, rest @ ..] => behind_name(rest),
        [3, rest @ ..] => behind_name(rest),
        _ => None,
    }
}

/// The bytes behind a tree. None where no tree stands there.
#[cycle(trees)]
pub(crate) fn behind_tree(k: Attributes, bytes: &[u8]) -> Option<&[u8]>
    ensures { ReadsAs (λ x. x.now) result (behind (tree_at k.number bytes.now)) }
{
    behind_node(k, bytes)
}

/// The bytes behind a leaf of records that stands there, from behind its tag.
fn rest_behind_records(k: Attributes, bytes: &[u8]) -> &[u8]
    requires { IsSome (list_behind k.number bytes.now) }
    ensures { list_behind k.number bytes.now ≡ Some result.now }
{
    match behind_records(k, bytes) {
        Some(rest) => rest,
        None => unreachable!(),
    }
}

/// Where so many trees stand one behind the other: how many stand behind the first node, and their bytes. A cut has two
/// trees in place of one.
fn past_node(k: Attributes, trees: usize, bytes: &[u8]) -> (usize, &[u8])
    requires some { 0 < trees }
    requires few { trees + length bytes.now ≤ 2 ^ 63 }
    requires there { IsSome (rest_after trees k.number bytes.now) }
    ensures same { rest_after result.0 k.number result.1.now ≡ rest_after trees k.number bytes.now }
    ensures fewer { result.0 + length result.1.now < trees + length bytes.now }
{
    let tag = bytes[0];
    if tag == 0 {
        (trees + 1, from_place(bytes, 10))
    } else if tag == 1 {
        (trees - 1, rest_behind_records(k, from_place(bytes, 1)))
    } else {
        (trees - 1, from_place(bytes, 5))
    }
}

/// The bytes behind a tree that stands there. Of a node the tag alone says how far it goes, but for a leaf of records.
pub(crate) fn rest_of<'a>(tree: &TreeView<'a>) -> &'a [u8]
    ensures { result.now ≡ rest_seen tree.now }
{
    let mut trees: usize = 1;
    let mut rest = tree.bytes;
    while trees > 0 {
        (trees, rest) = past_node(tree.k, trees, rest);
    }
    rest
}
