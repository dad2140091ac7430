ghost use Rattle.std.specs.Prelude.{◌≡◌};
ghost use Rattle.hb_page_codec.specs.declared.errors.PageError.TheVariants.{NoMemory as Refused};

use std::alloc::{AllocError, AllocFailed};

/// Why bytes weren't read as a page.
#[derive(Clone, Copy, Debug, PartialEq, Eq)]
pub enum PageError {
    /// They are no spelling of any page.
    BadPage,
    /// Memory was refused.
    NoMemory,
}

impl From<AllocError> for PageError {
    ghost from_gives = { λ _ e. e ≡ Refused };

    fn from(_refused: AllocError) -> PageError {
        PageError::NoMemory
    }
}

impl<T: Drop> From<AllocFailed<T>> for PageError {
    ghost from_gives = { λ _ e. e ≡ Refused };

    fn from(_refused: AllocFailed<T>) -> PageError {
        PageError::NoMemory
    }
}
