//! How a new file is made: beside its name, so that nothing stands under the name before the file is whole and synced.

ghost use Rattle.std.specs.Prelude.{◌≡◌, ◌++◌, IfOk, codes, decimal, string_bytes};

use crate::file_disk::{FileDisk, zero_at};
use crate::files::{hold_numbers, lock};
use crate::trouble::{Attempt, Trouble};
use itoa::Buffer;
use std::alloc::{AllocError, Global};
use std::fs::File;
use std::io::ErrorKind;
use std::{fs, io, process};

/// A new file that hasn't its name yet. It stands beside it: in the same folder, as `.hbpi-new-ID` with the number of the
/// process, and it is locked as long as its disk is there. Its name is short whatever the other one is.
#[derive(Drop)]
pub struct NewFile {
    beside: String,
}

/// The folder that a file of this name stands in.
fn folder_of(name: &str) -> &str {
    match name.rsplit_once('/') {
        Some((folder, _)) if folder.is_empty() => "/",
        Some((folder, _)) => folder,
        None => ".",
    }
}

/// The name of a new file in a folder, for the process of this number.
fn name_in(alloc: Global, folder: &str, id: u32) -> Result<String, AllocError>
    ensures { IfOk result (λ beside. string_bytes beside ≡ folder.now ++ codes "/.hbpi-new-" ++ decimal id) }
{
    let mut number = Buffer::new();
    let mut beside = folder.to_string(alloc)?;
    beside.push_str("/.hbpi-new-")?;
    beside.push_str(number.format(id))?;
    Ok(beside)
}

/// Nothing, where the name is free: there is no file of this name, nor a link that leads nowhere.
fn find_none(rt: &HostRuntime, name: &str) -> io::Result<()> {
    match fs::symlink_metadata(rt, name) {
        Ok(_) => Err(io::Error::from(ErrorKind::AlreadyExists)),
        Err(error) if error.kind() == ErrorKind::NotFound => Ok(()),
        Err(error) => Err(error),
    }
}

/// Removes the file of this name that a `create` which was killed has left, unless a program has it. Where that one was killed
/// as its file had both names, the other name stays.
fn remove_left(rt: &HostRuntime, beside: &str) -> io::Result<()> {
    let left = File::options().read(true).write(true).open(rt, beside)?;
    match left.try_lock() {
        Ok(()) => fs::remove_file(rt, beside),
        Err(refused) => Err(io::Error::from(refused)),
    }
}

/// Makes a new file of this name, in the place of one that was left there.
fn make_beside(rt: &HostRuntime, beside: &str) -> io::Result<File> {
    match File::create_new(rt, beside) {
        Ok(file) => Ok(file),
        Err(error) => match error.kind() {
            ErrorKind::AlreadyExists => {
                remove_left(rt, beside)?;
                File::create_new(rt, beside)
            }
            _ => Err(error),
        },
    }
}

/// Locks a file that was just made, gives it its size, and makes it last. Its zeros are written, so that it has all its blocks
/// on the device, and no later call wants a new one.
fn set_up(file: &File, size: u64) -> Result<(), Trouble> {
    lock(file)?;
    Attempt::Size.of(file.set_len(size))?;
    Attempt::Size.of(zero_at(file, 0, size, false))?;
    Attempt::Sync.of(file.sync_all())
}

/// Gives the file its name where the system has no second names for a file. An empty file is made there first, which fails
/// where one is, and then the file takes its place.
fn replace_empty(rt: &HostRuntime, beside: &str, name: &str) -> io::Result<()> {
    drop(File::create_new(rt, name)?);
    match fs::rename(rt, beside, name) {
        Ok(()) => Ok(()),
        Err(error) => {
            let _left = fs::remove_file(rt, name);
            Err(error)
        }
    }
}

/// Takes away the first one of the two names of a new file, and both where that fails.
fn take_beside(rt: &HostRuntime, beside: &str, name: &str) -> io::Result<()> {
    let taken = fs::remove_file(rt, beside);
    if taken.is_err() {
        let _left = fs::remove_file(rt, name);
    }
    taken
}

/// Gives the file beside its name that name, unless there is one of the name.
fn give_name(rt: &HostRuntime, beside: &str, name: &str) -> io::Result<()> {
    match fs::hard_link(rt, beside, name) {
        Ok(()) => take_beside(rt, beside, name),
        Err(error) => match error.kind() {
            ErrorKind::PermissionDenied | ErrorKind::Unsupported => replace_empty(rt, beside, name),
            _ => Err(error),
        },
    }
}

impl NewFile {
    /// Makes a new file of so many bytes, which are zeros, beside this name.
    ///
    /// Errors: where there is a file of the name, or none can be made, locked or given its size. None is left behind.
    pub fn make(rt: &HostRuntime, name: &str, size: u64) -> Result<(NewFile, FileDisk), Trouble> {
        let id = process::id(rt.process());
        Attempt::Find.of(find_none(rt, name))?;
        let _held = Attempt::Make(id).of(hold_numbers(rt))?;
        let beside = match name_in(rt.alloc(), folder_of(name), id) {
            Ok(beside) => beside,
            Err(refused) => return Attempt::Make(id).of(Err(io::Error::from(refused))),
        };
        let file = Attempt::Make(id).of(make_beside(rt, beside.as_str()))?;
        let made = NewFile { beside };
        match set_up(&file, size) {
            Ok(()) => Ok((made, FileDisk::new(file, size, true))),
            Err(trouble) => {
                made.remove(rt);
                Err(trouble)
            }
        }
    }

    /// Gives the file this name, beside which it was made, and syncs the folder. The file's bytes have to be synced.
    ///
    /// Errors: where there is a file of the name by now, which stays as it is, or a call fails. No new file is left then.
    pub fn name(self, rt: &HostRuntime, name: &str) -> Result<(), Trouble> {
        if let Err(trouble) = Attempt::Name.of(give_name(rt, self.beside.as_str(), name)) {
            self.remove(rt);
            return Err(trouble);
        }
        let synced = match File::open(rt, folder_of(name)) {
            Ok(folder) => folder.sync_all(),
            Err(error) => Err(error),
        };
        if synced.is_err() {
            let _left = fs::remove_file(rt, name);
        }
        Attempt::SyncFolder.of(synced)
    }

    /// Removes the file, which has no name yet.
    pub fn remove(self, rt: &HostRuntime) {
        let _left = fs::remove_file(rt, self.beside.as_str());
    }
}
