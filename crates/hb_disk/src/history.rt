//! Bytes in memory with the record of all that changed them.
ghost use Rattle.std.specs.Prelude.{◌≡◌, ◌⊎◌, ℕ, ◌+◌, ◌^◌, ◌<◌, ◌≤◌, ◌↔◌, List, [], length, reverse, replicate, All, true, false, IsErr, IfOk, Ok, Err};
ghost use Rattle.std.proofs.Props.{props};
ghost use Rattle.hb_outside.specs.Calls.{Counts};
ghost use Rattle.hb_outside.specs.Memory.{next_count};
ghost use Rattle.hb_disk.specs.Model.{last_value, overwritten};
ghost use Rattle.hb_disk.specs.Calls.{Writes, Syncs};
ghost use Rattle.hb_disk.specs.Events.{LiesWithin, AreKept, IsImage, IsImageSince, IsPicked, rewound, disk_after};

use crate::event::{Change, Event, Pick, Refused, fill_at, put_at};
use crate::images::choose_before;
use hb_space::NoMemory;
use std::alloc::Global;

/// The bytes as they read now, each event that changed them, oldest first, and the clock.
#[derive(Drop)]
pub(crate) struct History {
    pub(crate) bytes: Vec<u8>,
    pub(crate) events: Vec<Event>,
    pub(crate) clock: u64,
    ghost bytes_fit: { All (λ x. x < 2 ^ 8) bytes.items },
    ghost size_fits: { length bytes.items ≤ last_value },
    ghost clock_fits: { clock ≤ last_value },
    ghost events_fit: { AreKept clock (length bytes.items) (reverse events.items) } by { Prim.hlevel props },
}

impl History {
    ghost use Rattle.hb_disk.specs.NotedCalls.{IsOver, IsNoted, Passes};
    ghost use Rattle.hb_disk.specs.declared.event.Change.TheVariants.{Tried, Synced};

    /// These bytes, before any event.
    pub(crate) fn new(alloc: Global, bytes: Vec<u8>) -> History
        ensures bytes { result.bytes ≡ bytes }
        ensures events { result.events.items ≡ [] }
        ensures clock { result.clock ≡ 0 }
    {
        History {
            bytes,
            events: Vec::new(alloc),
            clock: 0,
        }
    }

    /// The image that is picked, of the moment before the call of that number.
    pub(crate) fn image(&self, alloc: Global, before: u64, pick: Pick) -> Result<Vec<u8>, NoMemory>
        ensures picked { IfOk result (λ v. let moment = rewound before self.now.bytes.items (reverse self.now.events.items) in
            IsPicked pick moment.0 moment.1 v.items) }
        ensures image { IfOk result (λ v. let moment = rewound before self.now.bytes.items (reverse self.now.events.items) in
            IsImage moment.0 moment.1 v.items) }
        ensures since { IfOk result (λ v. IsImageSince 0 self.now.bytes.items (reverse self.now.events.items) v.items) }
    {
        let mut bytes = self.bytes.to_vec(alloc)?;
        choose_before(&mut bytes, &self.events, before, pick);
        Ok(bytes)
    }

    /// A call passes that leaves nothing on record. It is refused for this cause, unless the clock stands at its last
    /// value.
    fn miss(&mut self, cause: Refused) -> Refused
        ensures bytes { self.new.bytes ≡ self.old.bytes }
        ensures events { self.new.events ≡ self.old.events }
        ensures clock { self.new.clock ≡ next_count self.old.clock }
        ensures cause { self.old.clock < last_value → result ≡ cause }
        ensures over { self.old.clock ≡ last_value → result ≡ Refused.Over }
    {
        if self.clock == u64::MAX {
            return Refused::Over;
        }
        self.clock += 1;
        cause
    }

    /// A call passes that leaves this change on record.
    fn note(&mut self, call: u64, change: Change) -> Result<(), Refused>
        requires { LiesWithin change (length self.old.bytes.items) }
        ensures { Passes (λ d. d ≡ change) ⊥ self.old.bytes.items call false result self.old self.new }
    {
        let clock = self.clock;
        if clock == u64::MAX {
            return Err(Refused::Over);
        }
        self.clock = clock + 1;
        let event = Event {
            clock,
            call,
            change,
        };
        self.events.push(event)?;
        Ok(())
    }

    /// A listed call passes, which leaves on record that it tried the range.
    fn try_range(&mut self, call: u64, at: usize, len: usize) -> Result<(), Refused>
        requires { at + len ≤ length self.old.bytes.items }
        ensures { Passes (λ d. ⊥) (IsNoted (λ d. d ≡ Tried at len) call self.old self.new)
            self.old.bytes.items call true result self.old self.new }
    {
        match self.note(call, Change::Tried { at, len }) {
            Ok(()) => Err(Refused::Listed),
            Err(refused) => Err(refused),
        }
    }

    /// Keeps the bytes of a range on record, before others are put there. A listed call fails, with its range on
    /// record.
    fn keep(
        &mut self,
        alloc: Global,
        call: u64,
        listed: bool,
        at: usize,
        len: usize,
    ) -> Result<(), Refused>
        requires { at + len ≤ length self.old.bytes.items }
        ensures { Passes (IsOver at len self.old.bytes.items) (IsNoted (λ d. d ≡ Tried at len) call self.old self.new)
            self.old.bytes.items call listed result self.old self.new }
    {
        if listed {
            return self.try_range(call, at, len);
        }
        match self.bytes[at..at + len].to_vec(alloc) {
            Ok(before) => self.note(call, Change::Wrote { at, before }),
            Err(refused) => Err(self.miss(Refused::from(refused))),
        }
    }

    /// Puts the piece at the place, and leaves the record as it is.
    pub(crate) fn put(&mut self, at: usize, piece: &[u8])
        requires { at + length piece.now ≤ length self.old.bytes.items }
        ensures bytes { self.new.bytes.items ≡ overwritten self.old.bytes.items at piece.now }
        ensures events { self.new.events ≡ self.old.events }
        ensures clock { self.new.clock ≡ self.old.clock }
    {
        put_at(&mut self.bytes, at, piece);
    }

    /// The same with zero bytes.
    fn clear(&mut self, at: usize, len: usize)
        requires { at + len ≤ length self.old.bytes.items }
        ensures bytes { self.new.bytes.items ≡ overwritten self.old.bytes.items at (replicate len 0) }
        ensures events { self.new.events ≡ self.old.events }
        ensures clock { self.new.clock ≡ self.old.clock }
    {
        fill_at(&mut self.bytes, at, len, 0);
    }

    /// Puts the bytes at the place.
    pub(crate) fn write(
        &mut self,
        alloc: Global,
        call: u64,
        listed: bool,
        at: usize,
        piece: &[u8],
    ) -> Result<(), Refused>
        requires { at + length piece.now ≤ length self.old.bytes.items }
        ensures writes { (reads before after : ℕ) → Counts (IsErr result) before after → Writes at piece.now result
            (disk_after self.old.bytes.items (reverse self.old.events.items) self.old.clock reads before)
            (disk_after self.new.bytes.items (reverse self.new.events.items) self.new.clock reads after) }
        ensures passes { Passes (IsOver at (length piece.now) self.old.bytes.items)
            (IsNoted (λ d. d ≡ Tried at (length piece.now)) call self.old self.new)
            (overwritten self.old.bytes.items at piece.now) call listed result self.old self.new }
    {
        self.keep(alloc, call, listed, at, piece.len())?;
        self.put(at, piece);
        Ok(())
    }

    /// Puts zero bytes at the place.
    pub(crate) fn zero(
        &mut self,
        alloc: Global,
        call: u64,
        listed: bool,
        at: usize,
        len: usize,
    ) -> Result<(), Refused>
        requires { at + len ≤ length self.old.bytes.items }
        ensures writes { (reads before after : ℕ) → Counts (IsErr result) before after → Writes at (replicate len 0) result
            (disk_after self.old.bytes.items (reverse self.old.events.items) self.old.clock reads before)
            (disk_after self.new.bytes.items (reverse self.new.events.items) self.new.clock reads after) }
        ensures passes { Passes (IsOver at len self.old.bytes.items)
            (IsNoted (λ d. d ≡ Tried at len) call self.old self.new)
            (overwritten self.old.bytes.items at (replicate len 0)) call listed result self.old self.new }
    {
        self.keep(alloc, call, listed, at, len)?;
        self.clear(at, len);
        Ok(())
    }

    /// Makes all that was written last.
    pub(crate) fn sync(&mut self, call: u64, listed: bool) -> Result<(), Refused>
        ensures syncs { (reads before after : ℕ) → Counts (IsErr result) before after → Syncs result
            (disk_after self.old.bytes.items (reverse self.old.events.items) self.old.clock reads before)
            (disk_after self.new.bytes.items (reverse self.new.events.items) self.new.clock reads after) }
        ensures passes { Passes (λ d. d ≡ Synced) (self.new.events.items ≡ self.old.events.items)
            self.old.bytes.items call listed result self.old self.new }
    {
        if listed {
            return Err(self.miss(Refused::Listed));
        }
        self.note(call, Change::Synced)
    }
}
