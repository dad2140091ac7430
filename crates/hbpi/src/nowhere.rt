//! A sink that drops what it is given.

use hb_outside::{Failed, Sink};

/// A sink that drops what it is given: it tells nothing, and never fails.
#[derive(Clone, Copy)]
pub(crate) struct Nowhere;

impl Sink for Nowhere {
    ghost use Rattle.std.specs.Prelude.{None};

    ghost model = { λ s. record { written = None; faults = 0 } };

    fn put(&mut self, _piece: &[u8]) -> Result<(), Failed> {
        Ok(())
    }
}
