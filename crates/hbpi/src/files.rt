//! Real files: how one that is there is opened. It is locked as long as it is open, so that no second program uses it.

use crate::file_disk::FileDisk;
use crate::trouble::{Attempt, Trouble};
use std::fs::File;
use std::io;
use std::os::unix::fs::MetadataExt;

/// The bytes of what the system counts as a block of a file.
const BLOCK: u64 = 512;

/// Three handles of the root folder. Opened before a file, they take the numbers of standard streams that were closed, so
/// that the file gets none of them: else the output would be written into the file, or the file read as the text.
pub(crate) fn hold_numbers(rt: &HostRuntime) -> io::Result<[File; 3]> {
    Ok([
        File::open(rt, "/")?,
        File::open(rt, "/")?,
        File::open(rt, "/")?,
    ])
}

/// Locks a file, unless another program has it.
pub(crate) fn lock(file: &File) -> Result<(), Trouble> {
    match file.try_lock() {
        Ok(()) => Ok(()),
        Err(refused) => Attempt::Lock.of(Err(io::Error::from(refused))),
    }
}

/// The disk of an open file. It is locked as long as the disk is there.
///
/// Errors: where it can't be locked, as when another program has it. Nothing is changed.
pub fn disk_of(file: File) -> Result<FileDisk, Trouble> {
    lock(&file)?;
    let said = Attempt::Open.of(file.metadata())?;
    let is_whole = said.blocks() >= said.len().div_ceil(BLOCK);
    Ok(FileDisk::new(file, said.len(), is_whole))
}

/// The file of this name, which is there, for reading and writing. It is locked as long as it is open.
///
/// Errors: where it can't be had, or can't be locked. Nothing is made or changed.
pub fn open_file(rt: &HostRuntime, name: &str) -> Result<FileDisk, Trouble> {
    let _held = Attempt::Open.of(hold_numbers(rt))?;
    disk_of(Attempt::Open.of(File::options().read(true).write(true).open(rt, name))?)
}
