//! The root of a tree, from the front of bytes.
ghost use Rattle.hb_page_codec.specs.Reading.{ReadsAs};
ghost use Rattle.hb_view.specs.Roots.{IsSeenAt, sight_of, root_at};

use crate::trees::TreeView;
use hb_page_codec::{axis_of, count_of, u32_of, u64_of};
use hb_space::Attributes;

/// What stands at the root of a tree.
#[derive(Clone, Copy)]
pub(crate) enum Root<'a> {
    /// A plane. The left side begins at `left`, and the right side behind it.
    Cut {
        axis: u8,
        value: u64,
        left: &'a [u8],
    },
    /// A leaf of so many records, the first of which stands at `first`.
    Records {
        count: u16,
        first: &'a [u8],
    },
    /// A leaf that names a page one level down, and the bytes behind it.
    Child {
        page: u32,
        rest: &'a [u8],
    },
    /// A leaf that names a page of the same level, and the bytes behind it.
    Sibling {
        page: u32,
        rest: &'a [u8],
    },
}

/// The root at the front of the bytes. None where none stands there.
#[tactic(auto, unfolding(crate::specs::Roots::root_at))]
fn root_read(k: Attributes, bytes: &[u8]) -> Option<Root<'_>>
    ensures { ReadsAs sight_of result (root_at k.number bytes.now) }
{
    match bytes {
        [0, rest @ ..] => {
            let (axis, rest) = axis_of(k, rest)?;
            let (value, left) = u64_of(rest)?;
            Some(Root::Cut { axis, value, left })
        }
        [1, rest @ ..] => {
            let (count, first) = count_of(k, rest)?;
            Some(Root::Records { count, first })
        }
        [2, rest @ ..] => {
            let (page, rest) = u32_of(rest)?;
            Some(Root::Child { page, rest })
        }
        [3, rest @ ..] => {
            let (page, rest) = u32_of(rest)?;
            Some(Root::Sibling { page, rest })
        }
        _ => None,
    }
}

/// The root of a tree.
pub(crate) fn root_of<'a>(tree: &TreeView<'a>) -> Root<'a>
    ensures { IsSeenAt tree.now.k.number tree.now.bytes.now (sight_of result) }
{
    match root_read(tree.k, tree.bytes) {
        Some(root) => root,
        None => unreachable!(),
    }
}
