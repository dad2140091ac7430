//! What the calls of a disk in memory leave on record.
ghost use Rattle.std.specs.Prelude.{◌≡◌, ◌+◌, ◌≤◌, length, replicate};
ghost use Rattle.hb_disk.specs.Model.{overwritten};
ghost use Rattle.hb_disk.specs.Events.{undone, range_of, LiesWithin};

use hb_space::NoMemory;
use std::alloc::AllocFailed;

/// Why a call wasn't done.
#[derive(Clone, Copy, PartialEq, Eq)]
pub(crate) enum Refused {
    /// It is one of those that were to fail.
    Listed,
    /// The clock stands at its last value.
    Over,
    /// No memory was found for its record.
    NoMemory,
}

impl From<NoMemory> for Refused {
    ghost use Rattle.std.specs.Prelude.{◌≡◌};
    ghost use Rattle.hb_disk.specs.declared.event.Refused.TheVariants.{NoMemory as Starved};

    ghost from_gives = { λ _ refused. refused ≡ Starved };

    fn from(_refused: NoMemory) -> Refused {
        Refused::NoMemory
    }
}

impl<T: Drop> From<AllocFailed<T>> for Refused {
    ghost use Rattle.std.specs.Prelude.{◌≡◌};
    ghost use Rattle.hb_disk.specs.declared.event.Refused.TheVariants.{NoMemory as Starved};

    ghost from_gives = { λ _ refused. refused ≡ Starved };

    fn from(_refused: AllocFailed<T>) -> Refused {
        Refused::NoMemory
    }
}

/// Which bytes stand in an image at each place that wasn't synced.
#[derive(Clone, Copy, Debug, PartialEq, Eq)]
pub enum Pick {
    /// Those of the last sync that succeeded, or the first ones where none did.
    Old,
    /// Those that a read gives.
    New,
    /// This byte.
    Noise(u8),
}

/// What a call did to the bytes.
#[derive(Drop)]
pub(crate) enum Change {
    /// Other bytes were put at the place, where these stood before.
    Wrote { at: usize, before: Vec<u8> },
    /// Bytes were to be put there, and the call failed.
    Tried { at: usize, len: usize },
    /// All that was written before was made to last.
    Synced,
}

/// A call on record: where the clock stood and which call it was, and what it did.
#[derive(Drop)]
pub(crate) struct Event {
    pub(crate) clock: u64,
    pub(crate) call: u64,
    pub(crate) change: Change,
}

impl Change {
    /// Takes the change back.
    pub(crate) fn undo(&self, bytes: &mut [u8])
        requires { LiesWithin self.now (length bytes.old) }
        ensures { bytes.new ≡ undone self.now bytes.old }
    {
        if let Change::Wrote { at, before } = self {
            put_at(bytes, *at, before);
        }
    }

    /// The place and the length of the range that it left open, and `None` of a sync.
    pub(crate) fn range(&self) -> Option<(usize, usize)>
        ensures { result ≡ range_of self.now }
    {
        match self {
            Change::Wrote { at, before } => Some((*at, before.len())),
            Change::Tried { at, len } => Some((*at, *len)),
            Change::Synced => None,
        }
    }
}

/// Puts the piece at the place.
pub(crate) fn put_at(bytes: &mut [u8], at: usize, piece: &[u8])
    requires { at + length piece.now ≤ length bytes.old }
    ensures { bytes.new ≡ overwritten bytes.old at piece.now }
{
    bytes[at..at + piece.len()].copy_from_slice(piece);
}

/// Puts so many bytes of one value at the place.
pub(crate) fn fill_at(bytes: &mut [u8], at: usize, len: usize, byte: u8)
    requires { at + len ≤ length bytes.old }
    ensures { bytes.new ≡ overwritten bytes.old at (replicate len byte) }
{
    bytes[at..at + len].fill(byte);
}
