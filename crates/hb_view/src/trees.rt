//! The box, the tree and the lists of records of a page in use, where they stand.
ghost use Rattle.std.specs.Prelude.{◌≤◌, ◌*◌, length, IsSome};
ghost use Rattle.hb_space.specs.Boxes.{IsArea};
ghost use Rattle.hb_page_codec.specs.ReadingFields.{records_at};
ghost use Rattle.hb_page_codec.specs.ReadingPages.{tree_at};
ghost use Rattle.hb_view.specs.Corners.{corners_there};

use hb_space::Attributes;

/// A tree as the bytes that it stands at the front of.
#[derive(Clone, Copy)]
pub(crate) struct TreeView<'a> {
    /// The number of attributes.
    pub k: Attributes,
    pub bytes: &'a [u8],
    ghost there: { IsSome (tree_at k.number bytes.now) },
}

/// A box and a tree.
#[derive(Clone, Copy)]
pub(crate) struct Inside<'a> {
    /// The bytes from the box on.
    pub corners: &'a [u8],
    pub tree: TreeView<'a>,
    ghost room: { 16 * tree.k.number ≤ length corners.now },
    ghost is_area: { IsArea (corners_there tree.k.number corners.now) },
}

/// So many records as the bytes that they stand at the front of.
#[derive(Clone, Copy)]
pub(crate) struct ListView<'a> {
    pub k: Attributes,
    pub count: u16,
    pub first: &'a [u8],
    ghost listed: { IsSome (records_at k.number count first.now) },
}
