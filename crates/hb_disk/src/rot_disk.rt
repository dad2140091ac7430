//! A disk that tells nothing, and in which one byte goes bad.
ghost use Rattle.std.specs.Prelude.{◌≡◌, ℕ, ◌+◌, ◌<◌, ◌≤◌, [], ◌∷◌, length, replicate, OnOk};
ghost use Rattle.hb_disk.specs.Calls.{Writes, Syncs, ReadsAt};
ghost use Rattle.hb_disk.specs.MemDisk.{SetsByte, mem_disk_seen, ReadExactly, CalledExactly};
ghost use Rattle.hb_disk.specs.Untold.{untold_of, untold_is_disk};

use crate::{Device, Disk, MemDisk};
use hb_outside::Failed;

/// A disk over another one. It tells nothing, and directly before the call of number `before`, as the inner disk counts,
/// it sets the byte at the place `at`. A place outside the disk sets nothing.
#[derive(Drop)]
pub struct RotDisk {
    pub inner: MemDisk,
    pub before: u64,
    pub at: u64,
    pub byte: u8,
}

/// Sets the byte where its time has come.
fn rot(inner: &mut MemDisk, before: u64, at: u64, byte: u8)
    ensures { SetsByte before at byte inner.old inner.new }
{
    if inner.calls == before && at < inner.size() {
        inner.history.put(at as usize, &[byte]);
    }
}

impl Device for RotDisk {
    ghost use Rattle.hb_disk.specs.RotDisk.{hidden, AfterRot};
    ghost use Rattle.hb_disk.specs.MemDisk.{bytes_of, HasSameRecord, Records};
    ghost use Rattle.hb_disk.specs.NotedCalls.{IsOver};
    ghost use Rattle.hb_disk.specs.declared.event.Change.TheVariants.{Tried, Synced};

    ghost model = { λ d. untold_of (length d.inner.history.bytes.items) d.inner.read_faults d.inner.write_faults };

    fn size(&self) -> u64 {
        self.inner.size()
    }

    fn read(&mut self, at: u64, into: &mut [u8]) -> Result<(), Failed>
        requires { at + length into.old ≤ (hidden self.old).size }
        ensures reads { ReadsAt at into.new result (hidden self.old) (hidden self.new) }
        ensures exact { AfterRot self.old (λ found. ReadExactly result found self.new.inner
            × ReadsAt at into.new result (mem_disk_seen found) (mem_disk_seen self.new.inner)) }
    {
        rot(&mut self.inner, self.before, self.at, self.byte);
        self.inner.read(at, into)
    }

    fn write(&mut self, at: u64, from: &[u8]) -> Result<(), Failed>
        requires { at + length from.now ≤ (hidden self.old).size }
        ensures writes { Writes at from.now result (hidden self.old) (hidden self.new) }
        ensures exact { AfterRot self.old (λ found.
            CalledExactly (Records (λ d. d ≡ Tried at (length from.now)) found self.new.inner) result found self.new.inner
            × OnOk result (Records (IsOver at (length from.now) (bytes_of found)) found self.new.inner)
            × Writes at from.now result (mem_disk_seen found) (mem_disk_seen self.new.inner)) }
    {
        rot(&mut self.inner, self.before, self.at, self.byte);
        self.inner.write(at, from)
    }

    fn zero(&mut self, at: u64, len: u64) -> Result<(), Failed>
        requires { at + len ≤ (hidden self.old).size }
        ensures writes { Writes at (replicate len 0) result (hidden self.old) (hidden self.new) }
        ensures exact { AfterRot self.old (λ found.
            CalledExactly (Records (λ d. d ≡ Tried at len) found self.new.inner) result found self.new.inner
            × OnOk result (Records (IsOver at len (bytes_of found)) found self.new.inner)
            × Writes at (replicate len 0) result (mem_disk_seen found) (mem_disk_seen self.new.inner)) }
    {
        rot(&mut self.inner, self.before, self.at, self.byte);
        self.inner.zero(at, len)
    }

    fn sync(&mut self) -> Result<(), Failed>
        ensures syncs { Syncs result (hidden self.old) (hidden self.new) }
        ensures exact { AfterRot self.old (λ found.
            CalledExactly (HasSameRecord found self.new.inner) result found self.new.inner
            × OnOk result (Records (λ d. d ≡ Synced) found self.new.inner)
            × Syncs result (mem_disk_seen found) (mem_disk_seen self.new.inner)) }
    {
        rot(&mut self.inner, self.before, self.at, self.byte);
        self.inner.sync()
    }

    ghost is_disk = { λ d. untold_is_disk (length d.inner.history.bytes.items) d.inner.read_faults d.inner.write_faults d.inner.history.size_fits };
}

impl Disk for RotDisk {
    fn clock(&self) -> u64 {
        self.inner.clock()
    }
}
