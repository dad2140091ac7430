//! A source of bytes in memory that fails at chosen calls.
ghost use Rattle.std.specs.Prelude.{◌≡◌, ◌<◌, ◌↔◌, length, drop, min, Contains, IsTrue, IsErr, IfOk, OnErr};
ghost use Rattle.hb_outside.specs.Calls.{Took};
ghost use Rattle.hb_outside.specs.Streams.{TakesFront};
ghost use Rattle.hb_outside.specs.Memory.{next_count, memory_source as seen};

use crate::traits::{Failed, Source};
use std::marker::Model;

/// Bytes in memory as a source, which fails at the calls of chosen numbers.
#[derive(Drop)]
pub struct MemSource {
    bytes: Vec<u8>,
    at: usize,
    calls: Vec<u64>,
    call: u64,
    faults: u64,
}

impl Model for MemSource {
    ghost use Rattle.std.specs.Prelude.{drop, vec_len, ◌≤◌};
    ghost use Rattle.hb_outside.specs.Memory.{SourceState};

    ghost Value = { SourceState };

    ghost view = { λ s. record {
      left = drop s.at s.bytes.items;
      calls = s.calls.items;
      call = s.call;
      faults = s.faults;
    } };

    ghost invariant = { λ s. s.at ≤ vec_len s.bytes };
}

impl MemSource {
    /// A source of these bytes. The calls of `take` are counted from 0, and those whose numbers
    /// stand in `calls` fail.
    pub fn new(bytes: Vec<u8>, calls: Vec<u64>) -> MemSource
        ensures { result ≡ record {
          left = bytes.items;
          calls = calls.items;
          call = 0;
          faults = 0;
        } }
    {
        MemSource {
            bytes,
            at: 0,
            calls,
            call: 0,
            faults: 0,
        }
    }

    /// What is left.
    pub fn bytes(&self) -> &[u8]
        ensures { result.now ≡ self.now.left }
    {
        &self.bytes[self.at..]
    }

    /// The number of the next call, which is how many were made, up to the greatest `u64`.
    pub fn calls_made(&self) -> u64
        ensures { result ≡ self.now.call }
    {
        self.call
    }
}

impl Source for MemSource {
    ghost model = { λ s. seen s };

    fn take(&mut self, into: &mut [u8]) -> Result<usize, Failed>
        requires { 0 < length into.old }
        ensures took { Took result into.new (seen self.old) (seen self.new) }

        // It fails at the calls that were chosen, and at no other.
        ensures exact { IsErr result ↔ Contains self.old.calls self.old.call }
        ensures count { IfOk result (λ n. n ≡ min (length into.old) (length self.old.left)) }
        ensures calls { self.new.calls ≡ self.old.calls }
        ensures call { self.new.call ≡ next_count self.old.call }
        ensures fault { OnErr result (self.new.faults ≡ next_count self.old.faults) }
    {
        let fails = is_listed(&self.calls, self.call);
        self.call = self.call.saturating_add(1);
        if fails {
            self.faults = self.faults.saturating_add(1);
            return Err(Failed);
        }
        let count = move_front(&self.bytes[self.at..], into);
        self.at += count;
        Ok(count)
    }
}

/// Moves as many of the first bytes as there is room for, and answers how many.
fn move_front(left: &[u8], into: &mut [u8]) -> usize
    requires { 0 < length into.old }
    ensures count { result ≡ min (length into.old) (length left.now) }
    ensures moved { TakesFront left.now (drop result left.now) into.new result }
{
    let count = left.len().min(into.len());
    into[..count].copy_from_slice(&left[..count]);
    count
}

/// Whether the number is in the list.
pub(crate) fn is_listed(numbers: &[u64], number: u64) -> bool
    ensures { IsTrue result ↔ Contains numbers.now number }
{
    numbers.contains(&number)
}
