use hb_outside::Failed;

/// A call gave up since the disk failed.
#[derive(Clone, Copy, Debug, PartialEq, Eq)]
pub struct DiskFault;

impl From<Failed> for DiskFault {
    ghost use Rattle.std.specs.Prelude.{⊤};

    ghost from_gives = { λ _ _. ⊤ };

    fn from(_: Failed) -> DiskFault {
        DiskFault
    }
}
