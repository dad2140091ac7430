//! A writer of std as a sink of bytes.
ghost use Rattle.std.specs.Prelude.{◌≡◌, None, Some, IsTrue, IsSome, IfSome, OnErr, OnOk};
ghost use Rattle.std.specs.Io.KnownBytes.{Appends as WriterAppends, Keeps};
ghost use Rattle.hb_outside.specs.Calls.{Puts};
ghost use Rattle.hb_outside.specs.Memory.{next_count};
ghost use Rattle.hb_outside.specs.Told.{told_sink, AppendsSome};

use crate::traits::{Failed, Sink};
use std::io::{ErrorKind, Write};

/// A writer as a sink. An interrupted write is tried again. Any other error is a fault, and so is a
/// write that takes nothing.
///
/// It tells what was written where it was made by `telling`, of a writer whose bytes are known. std
/// doesn't rule out that a writer's bytes are unknown at first and known later, and a sink that
/// tells nothing goes on so: one that was made by `new` never tells.
#[derive(Drop)]
pub struct WriteSink<W: Write> {
    inner: W,
    faults: u64,
    tells: bool,
    ghost told: { IsTrue tells → IsSome (W.contents inner) },
}

impl<W: Write> WriteSink<W> {
    /// A sink over any writer, which tells nothing of what was written.
    pub fn new(inner: W) -> WriteSink<W>
        ensures writer { result.inner ≡ inner }
        ensures silent { ⟦<WriteSink<W> as Sink>⟧.model result ≡ record {
          written = None;
          faults = 0;
        } }
    {
        WriteSink {
            inner,
            faults: 0,
            tells: false,
        }
    }

    /// A sink that tells what the writer holds, as one over memory.
    pub fn telling(inner: W) -> WriteSink<W>
        requires { IsSome (W.contents inner) }
        ensures writer { result.inner ≡ inner }
        ensures told { ⟦<WriteSink<W> as Sink>⟧.model result ≡ record {
          written = W.contents inner;
          faults = 0;
        } }
    {
        WriteSink {
            inner,
            faults: 0,
            tells: true,
        }
    }

    /// The writer, with what was written in it.
    pub fn into_inner(self) -> W
        ensures writer { result ≡ self.inner }
        ensures written { IfSome ((⟦<WriteSink<W> as Sink>⟧.model self).written)
            (λ bytes. W.contents result ≡ Some bytes) }
    {
        let WriteSink { inner, .. } = self;
        inner
    }

    /// Flushes the writer. What was written stays as it is, and an error is a fault.
    pub fn flush(&mut self) -> Result<(), Failed>
        ensures written { (⟦<WriteSink<W> as Sink>⟧.model self.new).written
            ≡ (⟦<WriteSink<W> as Sink>⟧.model self.old).written }
        ensures kept { Keeps (W.contents self.old.inner) (W.contents self.new.inner) }
        ensures fault { OnErr result (self.new.faults ≡ next_count self.old.faults) }
        ensures no_fault { OnOk result (self.new.faults ≡ self.old.faults) }
    {
        if self.inner.flush().is_err() {
            self.faults = self.faults.saturating_add(1);
            return Err(Failed);
        }
        Ok(())
    }
}

impl<W: Write> Sink for WriteSink<W> {
    ghost model = { λ s. told_sink s.tells (W.contents s.inner) s.faults };

    fn put(&mut self, piece: &[u8]) -> Result<(), Failed>
        ensures put { Puts piece.now result
            (told_sink self.old.tells (W.contents self.old.inner) self.old.faults)
            (told_sink self.new.tells (W.contents self.new.inner) self.new.faults) }

        // The bytes go to the writer, whether this sink tells or not.
        ensures wrote { OnOk result
            (WriterAppends (W.contents self.old.inner) (W.contents self.new.inner) piece.now) }
        ensures front { OnErr result
            (AppendsSome (W.contents self.old.inner) (W.contents self.new.inner) piece.now) }

        // Each failed call is counted, and no other.
        ensures fault { OnErr result (self.new.faults ≡ next_count self.old.faults) }
    {
        let outcome = write_piece(&mut self.inner, piece);
        if outcome.is_err() {
            self.faults = self.faults.saturating_add(1);
        }
        outcome
    }
}

/// Writes the whole piece, by as many writes as it takes.
fn write_piece<W: Write>(writer: &mut W, piece: &[u8]) -> Result<(), Failed>
    ensures ok { OnOk result
        (WriterAppends (W.contents writer.old) (W.contents writer.new) piece.now) }
    ensures failed { OnErr result
        (AppendsSome (W.contents writer.old) (W.contents writer.new) piece.now) }
{
    let mut at = 0;
    for _ in 0..u64::MAX {
        if at == piece.len() {
            return Ok(());
        }
        match writer.write(&piece[at..]) {
            Ok(0) => return Err(Failed),
            Ok(n) => at += n,
            Err(e) if e.kind() == ErrorKind::Interrupted => {}
            Err(_) => return Err(Failed),
        }
    }
    Err(Failed)
}
