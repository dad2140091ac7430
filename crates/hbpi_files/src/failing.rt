//! A file that fails while it is open: it is cut short by another handle, or can't be written.

use crate::beside::{call_alone, call_of, on_disk, tell as tell_outcome};
use hb_disk::Device;
use hbpi::{FileDisk, disk_of};
use std::fs::File;
use std::io::Read;
use std::sync::Wait;
use std::thread::Threads;
use std::{fs, io};

const NAME: &str = "./hbpi_files.failing";

const CREATE: &str = "create 2 64 65536 6 32";

/// How many bytes the file has, and where its pages begin: behind the superblocks and the log areas.
const SIZE: u64 = 401_408;

const PAGES: u64 = 139_264;

const FIRST: &str = "1 insert 5 7 =a
step 1x4
";

/// Three lines, with as many steps as they take. Where no page can be read, session 1 has the point of its second line locked
/// while session 2 would insert there, which gets its turn behind it.
const SECOND: &str = "1 lookup 5 7
2 insert 6 9 =b
1 lookup 6 9
step 1x3 2x4 1x3 2x4
";

/// A text that is read behind the opening. Then another handle cuts the file to so many bytes.
#[derive(Drop)]
struct Cuts {
    file: File,
    size: u64,
    text: &'static [u8],
}

impl Read for Cuts {
    fn read(&mut self, buf: &mut [u8]) -> io::Result<usize> {
        self.file.set_len(self.size)?;
        self.text.read(buf)
    }
}

/// Whether sixteen bytes are read at this place, which lies within the disk.
fn reads<D: Device>(disk: &mut D, at: u64) -> bool {
    let mut bytes = [0; 16];
    at <= SIZE - 16 && disk.size() == SIZE && disk.read(at, &mut bytes).is_ok()
}

/// Whether sixteen bytes are written there.
fn writes<D: Device>(disk: &mut D, at: u64) -> bool {
    at <= SIZE - 16 && disk.size() == SIZE && disk.write(at, &[1; 16]).is_ok()
}

/// Whether so many bytes are made zero there.
fn zeroes<D: Device>(disk: &mut D, at: u64, len: u64) -> bool {
    at <= PAGES && len <= SIZE - PAGES && disk.size() == SIZE && disk.zero(at, len).is_ok()
}

/// Prints the counts of faults, and the call that failed first.
fn tell_faults(rt: &HostRuntime, disk: &FileDisk) -> io::Result<()> {
    let (reads, others) = (disk.read_faults(), disk.write_faults());
    println!(rt; "failed reads {reads}, other calls {others}")?;
    match disk.trouble() {
        Some(trouble) => println!(rt; "the first: {trouble}"),
        None => Ok(()),
    }
}

/// Reads of a file that is cut to its pages while it is open for reading, in front of its new end, over it and behind it. A
/// write fails too, behind these.
fn cut_a_disk(rt: &HostRuntime) -> io::Result<()> {
    println!(rt; "cut while it is open")?;
    let mut disk = disk_of(File::open(rt, NAME)?)?;
    let other = File::options().write(true).open(rt, NAME)?;
    other.set_len(PAGES)?;
    let front = reads(&mut disk, PAGES - 16);
    tell_faults(rt, &disk)?;
    let over = reads(&mut disk, PAGES - 8);
    let behind = reads(&mut disk, PAGES + 8);
    println!(rt; "in front {front}, over its end {over}, behind it {behind}")?;
    println!(rt; "written {}", writes(&mut disk, 0))?;
    tell_faults(rt, &disk)
}

/// A drive of a file that is cut behind its opening, and then of the file as it was.
fn cut_a_drive<R: Threads + Wait + Sync>(
    rt: &HostRuntime,
    threads: &R,
    size: u64,
) -> io::Result<()> {
    println!(rt; "cut to {size} bytes behind the opening")?;
    let cuts = Cuts {
        file: File::options().write(true).open(rt, NAME)?,
        size,
        text: SECOND.as_bytes(),
    };
    call_alone(rt, threads, NAME, "drive", cuts)
}

/// A drive and calls by a handle that may only read.
fn only_read<R: Threads + Wait + Sync>(rt: &HostRuntime, threads: &R) -> io::Result<()> {
    println!(rt; "opened for reading alone")?;
    let call = call_of(rt.alloc(), NAME, "drive")?;
    let disk = disk_of(File::open(rt, NAME)?)?;
    let (outcome, mut disk) = on_disk(threads, rt.alloc(), &call, SECOND, disk)?;
    tell_outcome(rt, &outcome, disk.trouble())?;
    tell_faults(rt, &disk)?;
    let read = reads(&mut disk, 0);
    let (written, zero) = (writes(&mut disk, 8), zeroes(&mut disk, 0, 100_000));
    let synced = disk.sync().is_ok();
    println!(rt; "read {read}, written {written}, zeroed {zero}, synced {synced}")?;
    tell_faults(rt, &disk)
}

/// Tries all of this, each with the file of one record, and prints what came out.
pub(crate) fn tell<R: Threads + Wait + Sync>(rt: &HostRuntime, threads: &R) -> io::Result<()> {
    let _gone = fs::remove_file(rt, NAME);
    call_alone(rt, threads, NAME, CREATE, "".as_bytes())?;
    call_alone(rt, threads, NAME, "drive", FIRST.as_bytes())?;
    let whole = fs::read(rt, NAME)?;
    only_read(rt, threads)?;
    let is_same = fs::read(rt, NAME)?.as_slice() == whole.as_slice();
    println!(rt; "every byte is as it was: {is_same}")?;
    cut_a_disk(rt)?;
    fs::write(rt, NAME, &whole)?;
    cut_a_drive(rt, threads, PAGES)?;
    fs::write(rt, NAME, &whole)?;
    println!(rt; "whole again")?;
    call_alone(rt, threads, NAME, "drive", SECOND.as_bytes())?;
    fs::remove_file(rt, NAME)
}
