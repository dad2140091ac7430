//! Why a tidying ends before the file is tidy.
ghost use Rattle.std.specs.Prelude.{◌≡◌};
ghost use Rattle.hb_tidy.specs.declared.stops.TidyStop.TheVariants.{NoMemory as Refused};

use hb_space::NoMemory;
use hb_store::Why;

/// Why a tidying ended before the file was tidy.
#[derive(Debug, Drop)]
pub enum TidyStop {
    /// A posting or a growth wants a page, and none is free.
    Full,
    /// The disk failed to read.
    ReadFault,
    /// The disk failed to write, zero or sync. The core is stopped.
    WriteFault,
    /// The page of this number isn't one that the file may have there. The core is stopped.
    Damaged { page: u32, why: Why },
    /// The core's count of steps has come to its last value.
    Spent,
    /// Memory was refused.
    NoMemory,
}

impl From<NoMemory> for TidyStop {
    ghost from_gives = { λ _ e. e ≡ Refused };

    fn from(_refused: NoMemory) -> TidyStop {
        TidyStop::NoMemory
    }
}
