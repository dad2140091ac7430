//! A sink of bytes in memory that fails at chosen calls.
ghost use Rattle.std.specs.Prelude.{◌≡◌, ◌⊎◌, [], Contains, IsErr, OnErr, OnOk};
ghost use Rattle.hb_outside.specs.Calls.{Puts};
ghost use Rattle.hb_outside.specs.Memory.{next_count, memory_sink as seen};

use crate::memory_source::is_listed;
use crate::traits::{Failed, Sink};
use std::alloc::Global;
use std::marker::Model;

/// A sink into memory, which fails at the calls of chosen numbers, and where no memory is found.
#[derive(Drop)]
pub struct MemSink {
    bytes: Vec<u8>,
    calls: Vec<u64>,
    call: u64,
    faults: u64,
    starved: u64,
}

impl Model for MemSink {
    ghost use Rattle.hb_outside.specs.Memory.{SinkState};

    ghost Value = { SinkState };

    ghost view = { λ s. record {
      written = s.bytes.items;
      calls = s.calls.items;
      call = s.call;
      faults = s.faults;
      starved = s.starved;
    } };
}

impl MemSink {
    /// A sink with nothing in it. The calls of `put` are counted from 0, and those whose numbers
    /// stand in `calls` fail.
    pub fn new(alloc: Global, calls: Vec<u64>) -> MemSink
        ensures { result ≡ record {
          written = [];
          calls = calls.items;
          call = 0;
          faults = 0;
          starved = 0;
        } }
    {
        MemSink {
            bytes: Vec::new(alloc),
            calls,
            call: 0,
            faults: 0,
            starved: 0,
        }
    }

    /// What was written.
    pub fn bytes(&self) -> &[u8]
        ensures { result.now ≡ self.now.written }
    {
        &self.bytes
    }

    /// How many calls failed for want of memory, up to the greatest `u64`.
    pub fn starved(&self) -> u64
        ensures { result ≡ self.now.starved }
    {
        self.starved
    }

    /// The number of the next call, which is how many were made, up to the greatest `u64`.
    pub fn calls_made(&self) -> u64
        ensures { result ≡ self.now.call }
    {
        self.call
    }
}

impl Sink for MemSink {
    ghost model = { λ s. seen s };

    fn put(&mut self, piece: &[u8]) -> Result<(), Failed>
        ensures put { Puts piece.now result (seen self.old) (seen self.new) }

        // It fails at the calls that were chosen, and else only for want of memory.
        ensures listed { Contains self.old.calls self.old.call → IsErr result }
        ensures blame { OnErr result (Contains self.old.calls self.old.call
            ⊎ (self.new.starved ≡ next_count self.old.starved)) }
        ensures fed { Contains self.old.calls self.old.call → self.new.starved ≡ self.old.starved }
        ensures ok_fed { OnOk result (self.new.starved ≡ self.old.starved) }

        ensures unchanged { OnErr result (self.new.written ≡ self.old.written) }
        ensures calls { self.new.calls ≡ self.old.calls }
        ensures call { self.new.call ≡ next_count self.old.call }
        ensures fault { OnErr result (self.new.faults ≡ next_count self.old.faults) }
    {
        let fails = is_listed(&self.calls, self.call);
        self.call = self.call.saturating_add(1);
        if fails {
            self.faults = self.faults.saturating_add(1);
            return Err(Failed);
        }
        if self.bytes.extend_from_slice(piece).is_err() {
            self.starved = self.starved.saturating_add(1);
            self.faults = self.faults.saturating_add(1);
            return Err(Failed);
        }
        Ok(())
    }
}
