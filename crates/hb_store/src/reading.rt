ghost use Rattle.std.specs.Prelude.{◌≡◌, ◌<◌, ◌≤◌, ◌^◌, length, IfOk, IfErr, IfSome, IsErrOf};
ghost use Rattle.hb_disk.specs.Calls.{ReadsOnly};
ghost use Rattle.hb_super.specs.Superblocks.{IsLegal};
ghost use Rattle.hb_layout.specs.Offsets.{file_size};
ghost use Rattle.hb_store.specs.Replaying.{HasLimits, replayed_of, HasReplayed};
ghost use Rattle.hb_store.specs.LogReading.{NamesBad, NamesBadOr, log_stop, ReadsLog, ReadsNoLog, IsTouched};
ghost use Rattle.hb_store.specs.declared.touched.LogStop.TheVariants.{DiskFault};

use crate::touched::{LogStop, ReplayStop, Touched};
use hb_disk::Device;
use hb_layout::log_start;
use hb_ops::Meta;
use hb_wal::{Payloads, ReadStop, read_area};
use std::alloc::Global;

impl ReplayStop {
    /// The stop of reading a log, at the frame of this number.
    fn at(self, frame: usize) -> LogStop
        ensures stop { frame < 2 ^ 32 → result ≡ log_stop frame self }
        ensures no_fault { result ≡ DiskFault → ⊥ }
    {
        match self {
            ReplayStop::Unfit => LogStop::BadGroup {
                frame: frame.min(u32::MAX as usize) as u32,
            },
            ReplayStop::NoMemory => LogStop::NoMemory,
        }
    }
}

/// What the payloads make of a file that says this of itself, one after the other. Each goes once it was replayed, so that
/// its memory serves the pages behind it.
fn replayed(alloc: Global, meta: &Meta, payloads: Payloads) -> Result<Touched, LogStop>
    requires limits { HasLimits meta.now }
    ensures read { IfOk result (λ t. HasReplayed meta.now payloads (replayed_of t)) }
    ensures touched { IfOk result (λ t. IsTouched meta.now t) }
    ensures stopped { length payloads < 2 ^ 32 → IfErr result (NamesBad meta.now payloads) }
    ensures no_fault { IsErrOf result DiskFault → ⊥ }
{
    let mut touched = Touched::new(alloc, meta);
    let mut frame = 0;
    for payload in payloads.into_vec() {
        match touched.follow_all(alloc, &payload) {
            Ok(()) => frame += 1,
            Err(stop) => return Err(stop.at(frame)),
        }
    }
    Ok(touched)
}

/// Why a log isn't read whose frame of this number has a bad length, behind frames of these payloads.
fn before_bad(alloc: Global, meta: &Meta, frame: u32, before: Payloads) -> LogStop
    requires limits { HasLimits meta.now }
    ensures stopped { length before < 2 ^ 32 → frame ≡ length before → NamesBadOr meta.now before result }
    ensures no_fault { result ≡ DiskFault → ⊥ }
{
    match replayed(alloc, meta, before) {
        Ok(_) => LogStop::BadGroup { frame },
        Err(stop) => stop,
    }
}

/// Reads the log area of a turn and replays its groups, over pages that they touch alone.
pub fn read_log<D: Device>(
    alloc: Global,
    disk: &mut D,
    turn: u8,
    meta: &Meta,
) -> Result<Touched, LogStop>
    requires legal { IsLegal turn meta.now }
    requires room { file_size meta.now ≤ (D.model disk.old).size }
    ensures read { IfOk result (λ t. IfSome (D.model disk.old).told (λ b. ReadsLog b turn meta.now t)) }
    ensures touched { IfOk result (λ t. IsTouched meta.now t) }
    ensures stopped { IfErr result (λ stop. IfSome (D.model disk.old).told (λ b. ReadsNoLog b turn meta.now stop)) }
    ensures only { ReadsOnly (IsErrOf result DiskFault) (D.model disk.old) (D.model disk.new) }
{
    match read_area(alloc, disk, log_start(turn, meta), meta.log) {
        Ok(payloads) => replayed(alloc, meta, payloads),
        Err(ReadStop::BadFrame { frame, before }) => Err(before_bad(alloc, meta, frame, before)),
        Err(ReadStop::NoMemory) => Err(LogStop::NoMemory),
        Err(ReadStop::DiskFault) => Err(LogStop::DiskFault),
    }
}
