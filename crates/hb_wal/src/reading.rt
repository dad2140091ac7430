ghost use Rattle.std.specs.Prelude.{◌≡◌, ℕ, ◌<◌, ◌≤◌, ◌+◌, ◌^◌, ◌++◌, length, All, IfSome, IsErrOf, IfOk, IfErr};
ghost use Rattle.hb_disk.specs.Calls.{ReadsOnly};
ghost use Rattle.hb_wal.specs.declared.reading.ReadStop.TheVariants.{NoMemory, DiskFault};
ghost use Rattle.hb_wal.specs.Frames.{frames, IsPayload, HasFrames, range};
ghost use Rattle.hb_wal.specs.Reading.{StopsAt, stop_after};

use crate::Payloads;
use crate::heads::{FRAME, FrameStop, read_frame};
use hb_disk::Device;
use std::alloc::{AllocError, Global};

/// Why the frames of an area weren't read to an end.
#[derive(Debug, Drop)]
pub enum ReadStop {
    /// The length of the open frame of this number, counted from 0, is 0 or passes the area. The payloads of the
    /// frames in front of it come with it.
    BadFrame { frame: u32, before: Payloads },
    /// Memory was refused.
    NoMemory,
    /// The disk failed.
    DiskFault,
}

impl From<AllocError> for ReadStop {
    ghost use Rattle.std.specs.Prelude.{◌≡◌};
    ghost use Rattle.hb_wal.specs.declared.reading.ReadStop.TheVariants.{NoMemory};

    ghost from_gives = { λ _ e. e ≡ NoMemory };

    fn from(_: AllocError) -> ReadStop {
        ReadStop::NoMemory
    }
}

impl FrameStop {
    /// The stop of the reading, behind the frames of these payloads.
    fn after(self, before: Payloads) -> ReadStop
        requires { length before < 2 ^ 32 }
        ensures { result ≡ stop_after self before }
    {
        match self {
            FrameStop::BadLength => ReadStop::BadFrame {
                frame: before.len() as u32,
                before,
            },
            FrameStop::NoMemory => ReadStop::NoMemory,
            FrameStop::DiskFault => ReadStop::DiskFault,
        }
    }
}

/// Reads the payloads of the open frames of an area, the oldest first, to the first place that has none.
pub fn read_area<D: Device>(
    alloc: Global,
    disk: &mut D,
    area: u64,
    len: u32,
) -> Result<Payloads, ReadStop>
    requires inside { area + len ≤ (D.model disk.old).size }
    ensures read { IfOk result (λ payloads. IfSome (D.model disk.old).told (λ b. HasFrames (range area len b) payloads)) }
    ensures stopped { IfErr result (λ stop. IfSome (D.model disk.old).told (λ b. StopsAt stop (range area len b))) }
    ensures fits { IfOk result (λ payloads. All IsPayload payloads × (length (frames payloads) ≤ len)) }
    ensures only { ReadsOnly (IsErrOf result DiskFault) (D.model disk.old) (D.model disk.new) }
{
    let mut payloads = Payloads::new(Vec::new(alloc));
    let mut left = len;
    loop {
        match read_frame(alloc, disk, area + u64::from(len - left), left) {
            Ok(None) => return Ok(payloads),
            Ok(Some(payload)) => {
                left -= FRAME + payload.len() as u32;
                payloads.push(payload)?;
            }
            Err(stop) => return Err(stop.after(payloads)),
        }
    }
}
