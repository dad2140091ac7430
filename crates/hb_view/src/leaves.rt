/// What stands at a point of a page. The records of a leaf are looked up by `PageView::find`.
#[derive(Clone, Copy, Debug, PartialEq, Eq)]
pub enum LeafView {
    /// Records.
    Records,
    /// The page one level down that has the leaf's box in its own.
    Child(u32),
    /// The page of the same level to which the leaf's box was given.
    Sibling(u32),
}
