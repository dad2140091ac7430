//! A disk in memory that keeps a record of its calls and fails at chosen ones.
ghost use Rattle.std.specs.Prelude.{◌≡◌, ◌⊎◌, ℕ, ◌+◌, ◌<◌, ◌≤◌, ◌↔◌, [], length, reverse, replicate, Contains, IsTrue, IsSome, IsErr, IfOk, IfSome, IfErr, OnOk, OnErr, Err};
ghost use Rattle.hb_outside.specs.Memory.{next_count};
ghost use Rattle.hb_disk.specs.Calls.{Writes, Syncs, ReadsAt};
ghost use Rattle.hb_disk.specs.Events.{rewound, IsPicked, IsImage, disk_after};
ghost use Rattle.hb_disk.specs.NotedCalls.{starved_after};
ghost use Rattle.hb_disk.specs.EventLaws.{history_is_disk};

use crate::event::{Pick, Refused};
use crate::history::History;
use crate::{Device, Disk};
use hb_outside::Failed;
use hb_space::NoMemory;
use std::alloc::Global;

/// A disk in memory. It tells its bytes, and it can tell what a crash might have left at each moment of its life.
///
/// A read, write, zero or sync is a call, and the calls are counted from 0. The calls of chosen numbers fail, a write or
/// zero with its range open. No other fails, but for want of memory for the record of a write, zero or sync, or where the
/// clock stands at its last value; then it isn't done, and leaves no range open.
#[derive(Drop)]
pub struct MemDisk {
    alloc: Global,
    pub(crate) history: History,
    failing: Vec<u64>,
    pub(crate) calls: u64,
    pub(crate) read_faults: u64,
    pub(crate) write_faults: u64,
    starved: u64,
}

impl MemDisk {
    ghost use Rattle.hb_disk.specs.MemDisk.{bytes_of, events_of, mem_disk_seen, StartsWith};

    /// A disk of these bytes that fails at no call.
    pub fn new(alloc: Global, bytes: Vec<u8>) -> MemDisk
        ensures { StartsWith bytes.items [] result }
    {
        MemDisk::failing(alloc, bytes, Vec::new(alloc))
    }

    /// A disk of these bytes that fails at the calls of these numbers.
    pub fn failing(alloc: Global, bytes: Vec<u8>, calls: Vec<u64>) -> MemDisk
        ensures { StartsWith bytes.items calls.items result }
    {
        MemDisk {
            alloc,
            history: History::new(alloc, bytes),
            failing: calls,
            calls: 0,
            read_faults: 0,
            write_faults: 0,
            starved: 0,
        }
    }

    /// How many calls were made, up to the greatest `u64`: the number of the next one.
    pub fn calls(&self) -> u64
        ensures { result ≡ self.now.calls }
    {
        self.calls
    }

    /// The bytes as they read now.
    pub fn bytes(&self) -> &[u8]
        ensures { result.now ≡ bytes_of self.now }
    {
        &self.history.bytes
    }

    /// What a crash at the moment before the call of that number might have left, and `None` exactly where there was no
    /// such moment yet. `pick` says which bytes stand in it at each place that wasn't synced then.
    pub fn image(&self, before: u64, pick: Pick) -> Result<Option<Vec<u8>>, NoMemory>
        ensures exists { IfOk result (λ o. IsSome o ↔ before ≤ self.now.calls) }
        ensures picked { IfOk result (λ o. IfSome o (λ v. let moment = rewound before (bytes_of self.now) (events_of self.now) in
            IsPicked pick moment.0 moment.1 v.items)) }
        ensures image { IfOk result (λ o. IfSome o (λ v. let moment = rewound before (bytes_of self.now) (events_of self.now) in
            IsImage moment.0 moment.1 v.items)) }
        ensures since { IfOk result (λ o. IfSome o (λ v. (mem_disk_seen self.now).ImageSince 0 v.items)) }
    {
        if before > self.calls {
            return Ok(None);
        }
        let image = self.history.image(self.alloc, before, pick)?;
        Ok(Some(image))
    }

    /// How many calls failed for want of memory, up to the greatest `u64`.
    pub fn starved(&self) -> u64
        ensures { result ≡ self.now.starved }
    {
        self.starved
    }
}

/// Whether the number is in the list.
fn is_listed(numbers: &[u64], number: u64) -> bool
    ensures { IsTrue result ↔ Contains numbers.now number }
{
    numbers.contains(&number)
}

/// What a write, zero or sync answers. It counts the fault, and whether memory was wanting.
fn answer(done: Result<(), Refused>, faults: &mut u64, starved: &mut u64) -> Result<(), Failed>
    ensures alike { IsErr done ↔ IsErr result }
    ensures done { OnOk done ((faults.new ≡ faults.old) × (starved.new ≡ starved.old)) }
    ensures failed { OnErr done (faults.new ≡ next_count faults.old) }
    ensures starved { IfErr done (λ e. starved.new ≡ starved_after e starved.old) }
    ensures later { faults.old ≤ faults.new }
{
    let Err(refused) = done else {
        return Ok(());
    };
    *faults = faults.saturating_add(1);
    if refused == Refused::NoMemory {
        *starved = starved.saturating_add(1);
    }
    Err(Failed)
}

impl Device for MemDisk {
    ghost use Rattle.hb_disk.specs.MemDisk.{bytes_of, mem_disk_seen, ReadExactly, CalledExactly, HasSameRecord, Records};
    ghost use Rattle.hb_disk.specs.NotedCalls.{IsOver};
    ghost use Rattle.hb_disk.specs.declared.event.Change.TheVariants.{Tried, Synced};

    ghost model = { λ d. disk_after d.history.bytes.items (reverse d.history.events.items) d.history.clock
        d.read_faults d.write_faults };

    fn size(&self) -> u64 {
        self.history.bytes.len() as u64
    }

    fn read(&mut self, at: u64, into: &mut [u8]) -> Result<(), Failed>
        requires { at + length into.old ≤ (mem_disk_seen self.old).size }
        ensures reads { ReadsAt at into.new result (mem_disk_seen self.old) (mem_disk_seen self.new) }
        ensures exact { ReadExactly result self.old self.new }
    {
        let listed = is_listed(&self.failing, self.calls);
        self.calls = self.calls.saturating_add(1);
        if listed {
            self.read_faults = self.read_faults.saturating_add(1);
            return Err(Failed);
        }
        let at = at as usize;
        into.copy_from_slice(&self.history.bytes[at..at + into.len()]);
        Ok(())
    }

    fn write(&mut self, at: u64, from: &[u8]) -> Result<(), Failed>
        requires { at + length from.now ≤ (mem_disk_seen self.old).size }
        ensures writes { Writes at from.now result (mem_disk_seen self.old) (mem_disk_seen self.new) }
        ensures exact { CalledExactly (Records (λ d. d ≡ Tried at (length from.now)) self.old self.new) result self.old self.new }
        ensures recorded { OnOk result (Records (IsOver at (length from.now) (bytes_of self.old)) self.old self.new) }
    {
        let listed = is_listed(&self.failing, self.calls);
        let done = self
            .history
            .write(self.alloc, self.calls, listed, at as usize, from);
        self.calls = self.calls.saturating_add(1);
        answer(done, &mut self.write_faults, &mut self.starved)
    }

    fn zero(&mut self, at: u64, len: u64) -> Result<(), Failed>
        requires { at + len ≤ (mem_disk_seen self.old).size }
        ensures writes { Writes at (replicate len 0) result (mem_disk_seen self.old) (mem_disk_seen self.new) }
        ensures exact { CalledExactly (Records (λ d. d ≡ Tried at len) self.old self.new) result self.old self.new }
        ensures recorded { OnOk result (Records (IsOver at len (bytes_of self.old)) self.old self.new) }
    {
        let listed = is_listed(&self.failing, self.calls);
        let done = self
            .history
            .zero(self.alloc, self.calls, listed, at as usize, len as usize);
        self.calls = self.calls.saturating_add(1);
        answer(done, &mut self.write_faults, &mut self.starved)
    }

    fn sync(&mut self) -> Result<(), Failed>
        ensures syncs { Syncs result (mem_disk_seen self.old) (mem_disk_seen self.new) }
        ensures exact { CalledExactly (HasSameRecord self.old self.new) result self.old self.new }
        ensures recorded { OnOk result (Records (λ d. d ≡ Synced) self.old self.new) }
    {
        let listed = is_listed(&self.failing, self.calls);
        let done = self.history.sync(self.calls, listed);
        self.calls = self.calls.saturating_add(1);
        answer(done, &mut self.write_faults, &mut self.starved)
    }

    ghost is_disk = { λ d. history_is_disk d.history.bytes.items (reverse d.history.events.items) d.history.clock
        d.read_faults d.write_faults d.history.bytes_fit d.history.size_fits d.history.clock_fits d.history.events_fit };
}

impl Disk for MemDisk {
    ghost use Rattle.hb_disk.specs.MemDisk.{mem_disk_seen};

    fn clock(&self) -> u64
        ensures { result ≡ (mem_disk_seen self.now).clock }
    {
        self.history.clock
    }
}
