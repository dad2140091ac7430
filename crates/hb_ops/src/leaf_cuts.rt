ghost use Rattle.std.specs.Prelude.{◌≡◌};

use hb_frag::Side;
use smallvec::SmallVec;
use std::marker::Model;

/// A plane through a records leaf, and the side of it that goes on.
#[derive(Clone, Copy, Debug, Default, PartialEq, Eq)]
pub struct LeafCut {
    /// The attribute that the plane cuts.
    pub axis: u8,
    /// Records whose value in the attribute is below this lie on the left.
    pub value: u64,
    /// The side that goes on.
    pub side: Side,
}

/// The cuts that are made of a records leaf, the first of them first, each inside the last one.
#[derive(Debug, Drop)]
pub struct Cuts {
    cuts: SmallVec<LeafCut, 8>,
}

impl Model for Cuts {
    ghost use Rattle.std.specs.Prelude.{List};
    ghost use Rattle.hb_ops.specs.declared.leaf_cuts.LeafCut.{LeafCut};

    ghost Value = { List LeafCut };

    ghost view = { λ c. c.cuts.items };
}

impl Cuts {
    /// These cuts, the first of them first.
    pub fn new(cuts: SmallVec<LeafCut, 8>) -> Cuts
        ensures { result ≡ cuts.items }
    {
        Cuts { cuts }
    }

    /// The cuts, the first of them first.
    pub fn as_slice(&self) -> &[LeafCut]
        ensures { result.now ≡ self.now }
    {
        self.cuts.as_slice()
    }

    /// The vector of the cuts.
    pub fn into_vec(self) -> SmallVec<LeafCut, 8>
        ensures { result.items ≡ self }
    {
        self.cuts
    }
}
