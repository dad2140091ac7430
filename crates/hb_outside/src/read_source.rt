//! A reader of std as a source of bytes.
ghost use Rattle.std.specs.Prelude.{◌≡◌, ◌<◌, ◌≤◌, None, Some, length, IsTrue, IsSome, IfSome, IfOk, OnErr};
ghost use Rattle.std.specs.Io.KnownBytes.{ReadConsumes};
ghost use Rattle.hb_outside.specs.Calls.{Took};
ghost use Rattle.hb_outside.specs.Memory.{next_count};
ghost use Rattle.hb_outside.specs.Told.{told_source};

use crate::traits::{Failed, Source};
use std::io::{ErrorKind, Read};

/// A reader as a source. An interrupted read is tried again, and any other error is a fault.
///
/// It tells what is left where it was made by `telling`, of a reader whose bytes are known. std
/// doesn't rule out that a reader's bytes are unknown at first and known later, and a source that
/// tells nothing goes on so: one that was made by `new` never tells.
#[derive(Drop)]
pub struct ReadSource<R: Read> {
    inner: R,
    faults: u64,
    tells: bool,
    ghost told: { IsTrue tells → IsSome (R.remaining inner) },
}

impl<R: Read> ReadSource<R> {
    /// A source over any reader, which tells nothing of what is left.
    pub fn new(inner: R) -> ReadSource<R>
        ensures reader { result.inner ≡ inner }
        ensures silent { ⟦<ReadSource<R> as Source>⟧.model result ≡ record {
          left = None;
          faults = 0;
        } }
    {
        ReadSource {
            inner,
            faults: 0,
            tells: false,
        }
    }

    /// A source that tells what is left in the reader, as one over memory.
    pub fn telling(inner: R) -> ReadSource<R>
        requires { IsSome (R.remaining inner) }
        ensures reader { result.inner ≡ inner }
        ensures told { ⟦<ReadSource<R> as Source>⟧.model result ≡ record {
          left = R.remaining inner;
          faults = 0;
        } }
    {
        ReadSource {
            inner,
            faults: 0,
            tells: true,
        }
    }

    /// The reader, with what is left in it.
    pub fn into_inner(self) -> R
        ensures reader { result ≡ self.inner }
        ensures left { IfSome ((⟦<ReadSource<R> as Source>⟧.model self).left)
            (λ bytes. R.remaining result ≡ Some bytes) }
    {
        let ReadSource { inner, .. } = self;
        inner
    }
}

impl<R: Read> Source for ReadSource<R> {
    ghost model = { λ s. told_source s.tells (R.remaining s.inner) s.faults };

    fn take(&mut self, into: &mut [u8]) -> Result<usize, Failed>
        requires { 0 < length into.old }
        ensures took { Took result into.new
            (told_source self.old.tells (R.remaining self.old.inner) self.old.faults)
            (told_source self.new.tells (R.remaining self.new.inner) self.new.faults) }

        // The bytes are the reader's, whether this source tells or not.
        ensures read { ReadConsumes (R.remaining self.old.inner) (R.remaining self.new.inner)
            result into.new }

        // Each failed call is counted, and no other.
        ensures fault { OnErr result (self.new.faults ≡ next_count self.old.faults) }
    {
        let outcome = read_once(&mut self.inner, into);
        if outcome.is_err() {
            self.faults = self.faults.saturating_add(1);
        }
        outcome
    }
}

/// One read, tried again where it was interrupted.
fn read_once<R: Read>(reader: &mut R, into: &mut [u8]) -> Result<usize, Failed>
    ensures bound { IfOk result (λ n. n ≤ length into.old) }
    ensures bytes { ReadConsumes (R.remaining reader.old) (R.remaining reader.new) result into.new }
{
    for _ in 0..u64::MAX {
        match reader.read(into) {
            Ok(n) => return Ok(n),
            Err(e) if e.kind() == ErrorKind::Interrupted => {}
            Err(_) => return Err(Failed),
        }
    }
    Err(Failed)
}
