//! A `create` that fails, or is stopped before its end: nothing stands under its name.

use crate::beside::call_alone;
use hbpi::{Attempt, NewFile, Trouble};
use std::sync::Wait;
use std::thread::Threads;
use std::{fs, io, process};

const NAME: &str = "./hbpi_files.making";

const CREATE: &str = "create 2 64 65536 6 32";

const SIZE: u64 = 401_408;

/// Another name of a file that is left.
const OTHER: &str = "./hbpi_files.making.other";

/// How the name of a file beside it begins.
const BESIDE: &str = ".hbpi-new-";

/// How many bytes the longest name has that the system takes.
const LONGEST: usize = 255;

/// Removes the files that were left beside the name, and says how many there were, and whether one has the name.
fn clear_left(rt: &HostRuntime) -> io::Result<()> {
    let mut count = 0_u32;
    for entry in fs::read_dir(rt, ".")? {
        let entry = entry?;
        if entry.file_name().starts_with(BESIDE) {
            fs::remove_file(rt, entry.path())?;
            count = count.saturating_add(1);
        }
    }
    let named = fs::exists(rt, NAME)?;
    println!(rt; "left beside the name {count}, under it {named}")
}

/// Says how a new file wasn't made, or wasn't given its name. The number of the process isn't told.
fn tell_trouble(rt: &HostRuntime, done: Result<(), Trouble>) -> io::Result<()> {
    match done {
        Ok(()) => println!(rt; "done"),
        Err(trouble) if trouble.attempt == Attempt::Make(process::id(rt.process())) => {
            let kind = trouble.error.kind();
            println!(rt; "not made beside the name: {kind:?}")
        }
        Err(trouble) => println!(rt; "{trouble}"),
    }
}

/// Makes a new file, without a name, which isn't locked from then on.
fn make(rt: &HostRuntime) -> Result<NewFile, Trouble> {
    let (file, _disk) = NewFile::make(rt, NAME, SIZE)?;
    Ok(file)
}

/// Says whether a new file can be made beside one that is there.
fn make_again(rt: &HostRuntime) -> io::Result<()> {
    match make(rt) {
        Ok(_) => println!(rt; "made in the place of the other one"),
        Err(trouble) => tell_trouble(rt, Err(trouble)),
    }
}

/// A process that ends before its new file has its name: the file beside it is all that is left. As long as that is locked
/// it stands in the way; then the next one takes its place, and leaves it as it is under another name.
fn stopped(rt: &HostRuntime) -> io::Result<()> {
    println!(rt; "stopped before the file has its name")?;
    let (_forgotten, disk) = NewFile::make(rt, NAME, SIZE)?;
    make_again(rt)?;
    drop(disk);
    let id = process::id(rt.process());
    fs::hard_link(rt, format!(in rt.alloc(); "./{BESIDE}{id}")?, OTHER)?;
    fs::write(rt, OTHER, "another")?;
    make_again(rt)?;
    println!(rt; "it says: {}", fs::read_to_string(rt, OTHER)?.as_str())?;
    fs::remove_file(rt, OTHER)?;
    clear_left(rt)
}

/// A file that comes under the name while the new one is made: it stays.
fn overtaken(rt: &HostRuntime) -> io::Result<()> {
    println!(rt; "another file comes under the name")?;
    let file = make(rt)?;
    fs::write(rt, NAME, "another")?;
    tell_trouble(rt, file.name(rt, NAME))?;
    clear_left(rt)?;
    println!(rt; "it says: {}", fs::read_to_string(rt, NAME)?.as_str())?;
    fs::remove_file(rt, NAME)
}

/// A new file that is removed before it has its name, and one whose size no file can have.
fn given_up(rt: &HostRuntime) -> io::Result<()> {
    println!(rt; "given up")?;
    make(rt)?.remove(rt);
    clear_left(rt)?;
    println!(rt; "too large")?;
    match NewFile::make(rt, NAME, u64::MAX) {
        Ok(_) => println!(rt; "made")?,
        Err(trouble) => tell_trouble(rt, Err(trouble))?,
    }
    clear_left(rt)
}

/// A new file with the longest name that the system takes, for which the file beside it has to have a shorter one.
fn longest<R: Threads + Wait + Sync>(rt: &HostRuntime, threads: &R) -> io::Result<()> {
    println!(rt; "a name of {LONGEST} bytes")?;
    let name = "n".repeat(rt.alloc(), LONGEST)?;
    call_alone(rt, threads, name.as_str(), CREATE, "".as_bytes())?;
    call_alone(rt, threads, name.as_str(), "check", "".as_bytes())?;
    fs::remove_file(rt, name.as_str())?;
    clear_left(rt)
}

/// Tries all of this, and prints what came out. The last `create` finds nothing in its way.
pub(crate) fn tell<R: Threads + Wait + Sync>(rt: &HostRuntime, threads: &R) -> io::Result<()> {
    let _gone = fs::remove_file(rt, NAME);
    stopped(rt)?;
    overtaken(rt)?;
    given_up(rt)?;
    longest(rt, threads)?;
    call_alone(rt, threads, NAME, CREATE, "".as_bytes())?;
    clear_left(rt)?;
    fs::remove_file(rt, NAME)
}
