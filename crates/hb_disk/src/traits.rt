ghost use Rattle.std.specs.Prelude.{◌≡◌, ℕ, ◌+◌, ◌<◌, ◌≤◌, replicate, length, IsSome};
ghost use Rattle.hb_disk.specs.Model.{DiskModel, IsDisk};
ghost use Rattle.hb_disk.specs.Calls.{Writes, Syncs, ReadsAt};

use hb_outside::Failed;

/// What reads and writes a disk: a fixed number of bytes, with calls that may fail and that a crash may cut short.
///
/// A call with a place wants its range to lie within the disk. Code over a `Device` can't ask for the clock, and with it
/// not whether the disk tells its bytes: so the calls that it makes are the same over a file as over a disk that tells.
pub trait Device {
    /// The disk as contracts see it.
    ghost model: { Self → DiskModel };

    /// How many bytes it has. No call changes it.
    fn size(&self) -> u64
        ensures { result ≡ (model self.now).size };

    /// Fills `into` with the bytes from the place on. After `Failed` it holds any bytes.
    fn read(&mut self, at: u64, into: &mut [u8]) -> Result<(), Failed>
        requires { at + length into.old ≤ (model self.old).size }
        ensures { ReadsAt at into.new result (model self.old) (model self.new) };

    /// Puts the bytes at the place.
    fn write(&mut self, at: u64, from: &[u8]) -> Result<(), Failed>
        requires { at + length from.now ≤ (model self.old).size }
        ensures { Writes at from.now result (model self.old) (model self.new) };

    /// Puts `len` zero bytes at the place, as one range.
    fn zero(&mut self, at: u64, len: u64) -> Result<(), Failed>
        requires { at + len ≤ (model self.old).size }
        ensures { Writes at (replicate len 0) result (model self.old) (model self.new) };

    /// Makes all that was written last: after it a crash leaves what a read gives.
    fn sync(&mut self) -> Result<(), Failed>
        ensures { Syncs result (model self.old) (model self.new) };

    /// What holds of the disk at all times.
    ghost is_disk: { (disk : Self) → IsDisk (model disk) };
}

/// A device with its clock, for those who say when something was answered.
pub trait Disk: Device {
    /// The clock where the disk tells, and any number where it doesn't.
    fn clock(&self) -> u64
        ensures { IsSome (Self.model self.now).told → result ≡ (Self.model self.now).clock };
}
