ghost use Rattle.std.specs.Prelude.{◌≡◌, ◌⊎◌, ℕ, ◌<◌, ◌≤◌, ◌+◌, ◌-◌, ◌^◌, List, length, take, drop, IfSome, IsErr, IsErrOf, IfOk, IfErr, option_map};
ghost use Rattle.hb_disk.specs.Calls.{ReadsOnly};
ghost use Rattle.hb_wal.specs.declared.heads.FrameStop.TheVariants.{BadLength, NoMemory, DiskFault};
ghost use Rattle.hb_wal.specs.Frames.{IsPayload, IsBadFrame, range};
ghost use Rattle.hb_wal.specs.Reading.{HeadIs, FrameIs, BeginsFrame};

use hb_disk::{Device, OPEN};
use hb_outside::{Failed, take_u32};
use std::alloc::{AllocError, Global};

/// Bytes of a frame beside its payload: the gate and the length.
pub(crate) const FRAME: u32 = 5;

/// Why a frame wasn't read.
#[derive(Drop)]
pub(crate) enum FrameStop {
    BadLength,
    NoMemory,
    DiskFault,
}

impl From<AllocError> for FrameStop {
    ghost use Rattle.std.specs.Prelude.{◌≡◌};
    ghost use Rattle.hb_wal.specs.declared.heads.FrameStop.TheVariants.{NoMemory};

    ghost from_gives = { λ _ e. e ≡ NoMemory };

    fn from(_: AllocError) -> FrameStop {
        FrameStop::NoMemory
    }
}

impl From<Failed> for FrameStop {
    ghost use Rattle.std.specs.Prelude.{◌≡◌};
    ghost use Rattle.hb_wal.specs.declared.heads.FrameStop.TheVariants.{DiskFault};

    ghost from_gives = { λ _ e. e ≡ DiskFault };

    fn from(_: Failed) -> FrameStop {
        FrameStop::DiskFault
    }
}

/// Reads the gate and the length of a frame. `None` where the gate is closed.
fn read_head<D: Device>(disk: &mut D, at: u64) -> Result<Option<u32>, Failed>
    requires inside { at + 5 ≤ (D.model disk.old).size }
    ensures head { IfOk result (λ len. IfSome (D.model disk.old).told (λ b. HeadIs len (take 5 (drop at b)))) }
    ensures only { ReadsOnly (IsErr result) (D.model disk.old) (D.model disk.new) }
{
    let mut head = [0; 5];
    disk.read(at, &mut head)?;
    Ok(length_in(&head))
}

/// The length in the first five bytes of a frame. `None` where the gate is closed.
fn length_in(head: &[u8]) -> Option<u32>
    requires { length head.now ≡ 5 }
    ensures { HeadIs result head.now }
{
    if head[0] == OPEN {
        take_u32(head, 1)
    } else {
        None
    }
}

/// Reads the frame that begins at a place, where `left` bytes of the area are left. `None` at an end.
pub(crate) fn read_frame<D: Device>(
    alloc: Global,
    disk: &mut D,
    at: u64,
    left: u32,
) -> Result<Option<Vec<u8>>, FrameStop>
    requires inside { at + left ≤ (D.model disk.old).size }
    ensures frame { IfOk result (λ payload. IfSome (D.model disk.old).told (λ b.
        FrameIs (option_map (λ v. v.items) payload) (range at left b))) }
    ensures fits { IfOk result (λ payload. IfSome payload (λ v.
        IsPayload v.items × (5 + length v.items ≤ left))) }
    ensures bad { IsErrOf result BadLength → IfSome (D.model disk.old).told (λ b. IsBadFrame (range at left b)) }
    ensures memory { IsErrOf result NoMemory → IfSome (D.model disk.old).told (λ b.
        (payload : List ℕ) × BeginsFrame (range at left b) payload) }
    ensures only { ReadsOnly (IsErrOf result DiskFault) (D.model disk.old) (D.model disk.new) }
{
    if left < FRAME {
        return Ok(None);
    }
    let Some(len) = read_head(disk, at)? else {
        return Ok(None);
    };
    if len == 0 || left - FRAME < len {
        return Err(FrameStop::BadLength);
    }
    Ok(Some(read_payload(alloc, disk, at + u64::from(FRAME), len)?))
}

/// Reads the bytes of a payload.
fn read_payload<D: Device>(
    alloc: Global,
    disk: &mut D,
    at: u64,
    len: u32,
) -> Result<Vec<u8>, FrameStop>
    requires inside { at + len ≤ (D.model disk.old).size }
    ensures bytes { IfOk result (λ v. IfSome (D.model disk.old).told (λ b. v.items ≡ range at len b)) }
    ensures long { IfOk result (λ v. length v.items ≡ len) }
    ensures stop { IfErr result (λ e. (e ≡ NoMemory) ⊎ (e ≡ DiskFault)) }
    ensures only { ReadsOnly (IsErrOf result DiskFault) (D.model disk.old) (D.model disk.new) }
{
    let mut payload = vec![in alloc; 0; len as usize]?;
    disk.read(at, &mut payload)?;
    Ok(payload)
}
