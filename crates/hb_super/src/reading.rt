ghost use Rattle.std.specs.Prelude.{◌≡◌, ℕ, ◌+◌, ◌*◌, ◌%◌, ◌<◌, ◌≤◌, List, length, Some, IsTrue, IfOk, IfSome, IsErr, IsErrOf};
ghost use Rattle.hb_space.specs.declared.form.TheConstants.{PAGE};
ghost use Rattle.hb_disk.specs.Calls.{ReadsOnly};
ghost use Rattle.hb_super.specs.declared.reading.SuperStop.TheVariants.{NoSuper, DiskFault};
ghost use Rattle.hb_layout.specs.Limits.{IsLayout};
ghost use Rattle.hb_layout.specs.Offsets.{slot_offset};
ghost use Rattle.hb_super.specs.Superblocks.{IsLegal, IsNewest, HasNone};
ghost use Rattle.hb_super.specs.Reading.{IsOf, StandsInPlace, NewestIs, MayBeLegal};

use crate::body::{BODY, body_of, fields_of};
use hb_disk::{Device, OPEN};
use hb_layout::{Meta, slot_offset};
use hb_outside::Failed;

/// Why no superblock was read.
#[derive(Clone, Copy, Debug, PartialEq, Eq)]
pub enum SuperStop {
    /// Neither place is open over a legal body.
    NoSuper,
    /// The disk failed.
    DiskFault,
}

impl From<Failed> for SuperStop {
    ghost use Rattle.std.specs.Prelude.{◌≡◌};
    ghost use Rattle.hb_super.specs.declared.reading.SuperStop.TheVariants.{DiskFault};

    ghost from_gives = { λ _ e. e ≡ DiskFault };

    fn from(_: Failed) -> SuperStop {
        SuperStop::DiskFault
    }
}

/// Whether a turn may stand in a place with a legal layout.
fn belongs(turn: u8, place: u8, meta: &Meta) -> bool
    ensures within { IsTrue result → (turn ≤ 3) × (turn % 2 ≡ place) × IsLayout meta.now }
    ensures only { turn ≤ 3 → turn % 2 ≡ place → IsLayout meta.now → IsTrue result }
{
    turn <= 3 && turn % 2 == place && meta.is_layout()
}

/// The superblock of a place in its first 41 bytes. The fields stand at fixed places, and the bytes are a body exactly
/// where they are that of the fields.
fn super_in(bytes: &[u8], place: u8) -> Option<(u8, Meta)>
    requires { length bytes.now ≡ 41 }
    ensures { IsOf place result bytes.now }
{
    let body = &bytes[1..];
    let (turn, meta) = fields_of(body);
    if bytes[0] == OPEN && belongs(turn, place, &meta) && body == body_of(turn, &meta).as_slice() {
        Some((turn, meta))
    } else {
        None
    }
}

/// Reads the superblock of a place.
fn super_at<D: Device>(disk: &mut D, place: u8) -> Result<Option<(u8, Meta)>, Failed>
    requires room { 2 * PAGE ≤ (D.model disk.old).size }
    requires place { place < 2 }
    ensures stands { IfOk result (λ said. IfSome (D.model disk.old).told (λ b. StandsInPlace place said b)) }
    ensures legal { IfOk result (λ said. MayBeLegal said) }
    ensures only { ReadsOnly (IsErr result) (D.model disk.old) (D.model disk.new) }
{
    let mut bytes = [0; 1 + BODY];
    disk.read(slot_offset(place), &mut bytes)?;
    Ok(super_in(&bytes, place))
}

/// The newer of two superblocks in different places.
fn newer(first: (u8, Meta), second: (u8, Meta)) -> (u8, Meta)
    requires first { IsLegal first.0 first.1 }
    requires second { IsLegal second.0 second.1 }
    ensures newest { (bytes : List ℕ) → StandsInPlace 0 (Some first) bytes → StandsInPlace 1 (Some second) bytes →
        NewestIs (Some result) bytes }
    ensures legal { IsLegal result.0 result.1 }
{
    if second.0 == (first.0 + 1) % 4 {
        second
    } else {
        first
    }
}

/// The newest of what stands in the two places.
fn newest_of(first: Option<(u8, Meta)>, second: Option<(u8, Meta)>) -> Option<(u8, Meta)>
    requires first { MayBeLegal first }
    requires second { MayBeLegal second }
    ensures newest { (bytes : List ℕ) → StandsInPlace 0 first bytes → StandsInPlace 1 second bytes → NewestIs result bytes }
    ensures legal { MayBeLegal result }
{
    match (first, second) {
        (Some(first), Some(second)) => Some(newer(first, second)),
        (Some(first), None) => Some(first),
        (None, second) => second,
    }
}

/// Reads the newest superblock: its turn, and what the file says of itself.
pub fn read_super<D: Device>(disk: &mut D) -> Result<(u8, Meta), SuperStop>
    requires room { 2 * PAGE ≤ (D.model disk.old).size }
    ensures newest { IfOk result (λ said. IfSome (D.model disk.old).told (λ b. IsNewest b said.0 said.1)) }
    ensures legal { IfOk result (λ said. IsLegal said.0 said.1) }
    ensures none { IsErrOf result NoSuper → IfSome (D.model disk.old).told HasNone }
    ensures only { ReadsOnly (IsErrOf result DiskFault) (D.model disk.old) (D.model disk.new) }
{
    let first = super_at(disk, 0)?;
    let second = super_at(disk, 1)?;
    newest_of(first, second).ok_or(SuperStop::NoSuper)
}
