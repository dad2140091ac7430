//! Writers whose output is lost, and one that tells how it came.

use std::alloc::Global;
use std::io;
use std::io::{ErrorKind, Write};

/// Takes every byte, and then can't hand them on: it fails at its flush.
#[derive(Drop)]
pub(crate) struct FailsToFlush;

impl Write for FailsToFlush {
    fn write(&mut self, buf: &[u8]) -> io::Result<usize> {
        Ok(buf.len())
    }

    fn flush(&mut self) -> io::Result<()> {
        Err(io::Error::from(ErrorKind::StorageFull))
    }
}

/// Has no room for a byte.
#[derive(Drop)]
pub(crate) struct Full;

impl Write for Full {
    fn write(&mut self, _buf: &[u8]) -> io::Result<usize> {
        Err(io::Error::from(ErrorKind::StorageFull))
    }

    fn flush(&mut self) -> io::Result<()> {
        Ok(())
    }
}

/// Keeps what it takes, with a bar behind each piece.
#[derive(Drop)]
pub(crate) struct Pieces {
    pub(crate) taken: Vec<u8>,
}

impl Pieces {
    pub(crate) fn new(alloc: Global) -> Pieces {
        Pieces {
            taken: Vec::new(alloc),
        }
    }
}

impl Write for Pieces {
    fn write(&mut self, buf: &[u8]) -> io::Result<usize> {
        self.taken.extend_from_slice(buf)?;
        self.taken.push(b'|')?;
        Ok(buf.len())
    }

    fn flush(&mut self) -> io::Result<()> {
        Ok(())
    }
}
