//! A file as a disk.
ghost use Rattle.std.specs.Prelude.{◌≡◌, ◌↔◌, ◌+◌, ◌≤◌, length, IsErr, IsSome};
ghost use Rattle.hb_disk.specs.Model.{last_value};
ghost use Rattle.hb_disk.specs.Calls.{Writes};
ghost use Rattle.hb_outside.specs.Calls.{Counts};
ghost use Rattle.hb_disk.specs.Untold.{untold_of, untold_is_disk};

use crate::trouble::{Attempt, Trouble};
use hb_disk::{Device, Disk};
use hb_lemmas::is_zero;
use hb_outside::Failed;
use std::fs::File;
use std::io;
use std::os::unix::fs::FileExt;

/// A file of fixed size as a disk. It tells nothing of its bytes: that a file behaves as a disk that
/// tells is assumed wherever a promise speaks of crashes.
///
/// Its clock counts the writes, zeroes and syncs, failed ones too, up to the greatest `u64`.
#[derive(Drop)]
pub struct FileDisk {
    file: File,
    size: u64,
    /// Whether the file has a block for each of its bytes.
    is_whole: bool,
    clock: u64,
    read_faults: u64,
    write_faults: u64,
    /// The first call that failed.
    trouble: Option<Trouble>,
    ghost size_fits: { size ≤ last_value },
}

impl FileDisk {
    /// The disk of an open file of so many bytes, which has a block for each of them or not.
    pub(crate) fn new(file: File, size: u64, is_whole: bool) -> FileDisk {
        FileDisk {
            file,
            size,
            is_whole,
            clock: 0,
            read_faults: 0,
            write_faults: 0,
            trouble: None,
        }
    }

    /// How many reads failed.
    pub fn read_faults(&self) -> u64
        ensures { result ≡ self.now.read_faults }
    {
        self.read_faults
    }

    /// How many writes, zeroes and syncs failed.
    pub fn write_faults(&self) -> u64
        ensures { result ≡ self.now.write_faults }
    {
        self.write_faults
    }

    /// The first call that failed, and what the system answered.
    pub fn trouble(&self) -> Option<Trouble>
        ensures { result ≡ self.now.trouble }
    {
        self.trouble
    }
}

/// Bytes that are made zero at once. An opening zeroes a whole log area, and most of the time that takes is that of the
/// calls of the system.
const PIECE: usize = 65_536;

/// Makes the bytes from a place of the file on zero, by way of as many in memory, which are zero before and behind it.
///
/// Where the file has all its blocks, what is zero already isn't written. Where it may lack some it is, so that it has
/// them there, and no later write behind it wants new ones.
fn zero_piece(file: &File, at: u64, piece: &mut [u8], is_whole: bool) -> io::Result<()>
    ensures { length piece.new ≡ length piece.old }
{
    if is_whole {
        if file.read_exact_at(piece, at).is_ok() && is_zero(piece) {
            return Ok(());
        }
        piece.fill(0);
    }
    file.write_all_at(piece, at)
}

/// Makes so many bytes from a place of the file on zero, where it has a block for each of its bytes or not.
pub(crate) fn zero_at(file: &File, at: u64, len: u64, is_whole: bool) -> io::Result<()>
    requires { at + len ≤ last_value }
{
    let mut piece = [0; PIECE];
    let mut left = len;
    while left > 0 {
        let count = left.min(PIECE as u64);
        zero_piece(
            file,
            at + (len - left),
            &mut piece[..count as usize],
            is_whole,
        )?;
        left -= count;
    }
    Ok(())
}

/// Counts a call that failed, and keeps the first one.
fn counted(
    attempt: Attempt,
    done: io::Result<()>,
    faults: &mut u64,
    first: &mut Option<Trouble>,
) -> Result<(), Failed>
    ensures same { IsErr result ↔ IsErr done }
    ensures kept { IsSome first.old → first.new ≡ first.old }
    ensures told { IsErr done → IsSome first.new }
    ensures counts { Counts (IsErr result) faults.old faults.new }
{
    match attempt.of(done) {
        Ok(()) => Ok(()),
        Err(trouble) => {
            *faults = faults.saturating_add(1);
            if first.is_none() {
                *first = Some(trouble);
            }
            Err(Failed)
        }
    }
}

impl Device for FileDisk {
    ghost model = { λ d. untold_of d.size d.read_faults d.write_faults };

    fn size(&self) -> u64 {
        self.size
    }

    fn read(&mut self, at: u64, into: &mut [u8]) -> Result<(), Failed> {
        let done = self.file.read_exact_at(into, at);
        counted(
            Attempt::Read,
            done,
            &mut self.read_faults,
            &mut self.trouble,
        )
    }

    fn write(&mut self, at: u64, from: &[u8]) -> Result<(), Failed> {
        self.clock = self.clock.saturating_add(1);
        let done = self.file.write_all_at(from, at);
        counted(
            Attempt::Write,
            done,
            &mut self.write_faults,
            &mut self.trouble,
        )
    }

    fn zero(&mut self, at: u64, len: u64) -> Result<(), Failed> {
        self.clock = self.clock.saturating_add(1);
        let done = zero_at(&self.file, at, len, self.is_whole);
        counted(
            Attempt::Write,
            done,
            &mut self.write_faults,
            &mut self.trouble,
        )
    }

    fn sync(&mut self) -> Result<(), Failed> {
        self.clock = self.clock.saturating_add(1);
        let done = self.file.sync_data();
        counted(
            Attempt::Sync,
            done,
            &mut self.write_faults,
            &mut self.trouble,
        )
    }

    ghost is_disk = { λ d. untold_is_disk d.size d.read_faults d.write_faults d.size_fits };
}

impl Disk for FileDisk {
    fn clock(&self) -> u64 {
        self.clock
    }
}
