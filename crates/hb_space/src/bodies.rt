ghost use Rattle.std.specs.Prelude.{◌≡◌, ◌≤◌, length, ⊤};
ghost use Rattle.hb_space.specs.Points.{IsBody};

use crate::form::BMAX;
use arrayvec::ArrayVec;
use std::alloc::AllocError;
use std::marker::Model;

/// What a record holds beside its point: at most `BMAX` bytes.
#[derive(Debug, PartialEq, Eq, PartialOrd, Ord, Drop)]
pub struct Body {
    bytes: ArrayVec<u8, BMAX>,
}

impl Model for Body {
    ghost use Rattle.std.specs.Prelude.{ℕ, List};
    ghost use Rattle.hb_space.specs.Points.{IsBody};

    ghost Value = { List ℕ };

    ghost view = { λ b. b.bytes.items };

    ghost invariant = { λ b. IsBody b.bytes.items };

    ghost inverse = { λ b. record { bytes = record { items = b } } };
}

impl Body {
    /// The body of these bytes.
    pub fn new(bytes: &[u8]) -> Body
        requires { length bytes.now ≤ BMAX }
        ensures { result ≡ bytes.now }
    {
        let mut held = ArrayVec::new();
        let _fits = held.try_extend_from_slice(bytes);
        Body { bytes: held }
    }

    /// The bytes.
    pub fn bytes(&self) -> &[u8]
        ensures value { result.now ≡ self.now }
        ensures body { IsBody self.now }
    {
        self.bytes.as_slice()
    }

    /// The same body once more.
    pub fn copy(&self) -> Body
        ensures { result ≡ self.now }
    {
        Body::new(self.bytes())
    }
}

impl Clone for Body {
    ghost is_clone = { λ b c. c ≡ b };

    ghost is_infallible = { λ _. ⊤ };

    fn clone(&self) -> Result<Body, AllocError> {
        Ok(self.copy())
    }
}
