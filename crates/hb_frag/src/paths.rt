ghost use Rattle.std.specs.Prelude.{◌≡◌, List, [], ◌∷◌, ◌++◌, OnOk, OnErr};

use hb_space::NoMemory;
use smallvec::SmallVec;
use std::marker::Model;

/// A side of a cut.
#[derive(Clone, Copy, Debug, Default, PartialEq, Eq)]
pub enum Side {
    /// What lies below the cut's value.
    #[default]
    Left,
    /// What lies from the cut's value on.
    Right,
}

/// A way down a page from its root: at each cut a side.
#[derive(Debug, Drop)]
pub struct Path {
    steps: SmallVec<Side, 32>,
}

impl Model for Path {
    ghost use Rattle.std.specs.Prelude.{List};
    ghost use Rattle.hb_frag.specs.declared.paths.Side.{Side};

    ghost Value = { List Side };

    ghost view = { λ p. p.steps.items };
}

impl Path {
    /// The path of these steps, the first of them first.
    pub fn new(steps: SmallVec<Side, 32>) -> Path
        ensures { result ≡ steps.items }
    {
        Path { steps }
    }

    /// The steps, the first of them first.
    pub fn as_slice(&self) -> &[Side]
        ensures { result.now ≡ self.now }
    {
        self.steps.as_slice()
    }

    /// The vector of the steps.
    pub fn into_vec(self) -> SmallVec<Side, 32>
        ensures { result.items ≡ self }
    {
        self.steps
    }

    /// Adds a step at the end.
    pub(crate) fn push(&mut self, side: Side) -> Result<(), NoMemory>
        ensures ok { OnOk result (self.new ≡ self.old ++ side ∷ []) }
        ensures err { OnErr result (self.new ≡ self.old) }
    {
        Ok(self.steps.push(side)?)
    }

    /// Takes the last step away.
    pub(crate) fn pop(&mut self)
        requires { (front : List Side) × (side : Side) × (self.old ≡ front ++ side ∷ []) }
        ensures { (front : List Side) (side : Side) → self.old ≡ front ++ side ∷ [] → self.new ≡ front }
    {
        self.steps.pop();
    }
}
