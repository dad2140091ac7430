ghost use Rattle.std.specs.Prelude.{◌≡◌};

use arrayvec::ArrayVec;
use hb_frag::Page;
use hb_ops::Op;

/// A group of the log: page images by their numbers, and one operation.
#[derive(Debug, Drop)]
pub struct Group {
    /// The pages as they were before the operation. No two have the same number.
    pub images: ArrayVec<(u32, Page), 3>,
    /// The operation.
    pub op: Op,
}
