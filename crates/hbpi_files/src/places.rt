//! A file as a disk, call by call: what isn't written because it is zero may show in no read.

use hb_disk::{Device, MemDisk};
use hbpi::{NewFile, open_file};
use std::alloc::Global;
use std::fs::File;
use std::{fs, io};

const NAME: &str = "./hbpi_files.places";

/// How many bytes the file has: three pieces of those that are made zero at once, and some.
const SIZE: usize = 200_000;

/// A call of a disk: where it begins, and how many bytes it has.
#[derive(Clone, Copy, Drop)]
enum Step {
    Read(usize, usize),
    Write(usize, usize),
    Zero(usize, usize),
}

/// Reads behind each other, over the ends of pieces; reads of what was written, or made zero, since, in front of the place,
/// over it and behind it; ranges that have zeros already, in part and throughout; and the last bytes.
const STEPS: [Step; 32] = [
    Step::Read(0, 41),
    Step::Read(41, 4096),
    Step::Read(4137, 61_000),
    Step::Read(65_137, 1000),
    Step::Write(65_200, 10),
    Step::Read(65_137, 1000),
    Step::Read(66_137, 100),
    Step::Write(66_250, 50),
    Step::Read(66_237, 100),
    Step::Read(66_337, 70_000),
    Step::Read(136_337, 4096),
    Step::Zero(140_000, 600),
    Step::Read(140_433, 4096),
    Step::Read(139_000, 4096),
    Step::Zero(1000, 140_000),
    Step::Read(900, 200),
    Step::Read(1100, 100),
    Step::Read(140_900, 200),
    Step::Read(141_100, 100),
    Step::Write(70_000, 1),
    Step::Write(141_000, 1),
    Step::Zero(900, 140_200),
    Step::Read(69_990, 20),
    Step::Read(70_010, 20),
    Step::Read(140_990, 200),
    Step::Zero(2000, 131_072),
    Step::Read(0, 70_000),
    Step::Read(199_000, 900),
    Step::Read(199_900, 100),
    Step::Write(199_999, 1),
    Step::Read(199_999, 1),
    Step::Read(199_000, 1000),
];

/// The bytes that the file has at first.
fn pattern(alloc: Global) -> io::Result<Vec<u8>> {
    let mut bytes = Vec::with_capacity(alloc, SIZE)?;
    for at in 0..SIZE {
        bytes.push((at % 251) as u8)?;
    }
    Ok(bytes)
}

/// Makes a call that lies within the disk. What it read, or no bytes; none where it failed.
fn done<D: Device>(alloc: Global, disk: &mut D, step: Step) -> io::Result<Option<Vec<u8>>> {
    let (Step::Read(at, len) | Step::Write(at, len) | Step::Zero(at, len)) = step;
    if at > SIZE || len > SIZE - at || disk.size() != SIZE as u64 {
        return Ok(None);
    }
    let mut bytes = vec![in alloc; 165; len]?;
    let made = match step {
        Step::Read(..) => disk.read(at as u64, &mut bytes),
        Step::Write(..) => disk.write(at as u64, &bytes),
        Step::Zero(..) => disk.zero(at as u64, len as u64),
    };
    match step {
        Step::Read(..) => {}
        Step::Write(..) | Step::Zero(..) => bytes.clear(),
    }
    Ok(made.is_ok().then_some(bytes))
}

/// Makes each call on both disks, and says which of the first one come to something else.
fn compare<D: Device>(rt: &HostRuntime, disk: &mut D, beside: &mut MemDisk) -> io::Result<()> {
    let mut same = 0_u32;
    for (number, &step) in STEPS.iter().enumerate() {
        let found = done(rt.alloc(), disk, step)?;
        if found.is_some() && found == done(rt.alloc(), beside, step)? {
            same = same.saturating_add(1);
        } else {
            println!(rt; "call {number} comes to something else")?;
        }
    }
    println!(rt; "{same} calls are as in memory")
}

/// Says whether the file has these bytes.
fn compare_bytes(rt: &HostRuntime, wanted: &[u8]) -> io::Result<()> {
    if fs::read(rt, NAME)?.as_slice() == wanted {
        println!(rt; "and so is every byte")
    } else {
        println!(rt; "the bytes aren't as in memory")
    }
}

/// A file that has a block for each of its bytes.
fn on_written(rt: &HostRuntime) -> io::Result<()> {
    let bytes = pattern(rt.alloc())?;
    fs::write(rt, NAME, &bytes)?;
    let mut beside = MemDisk::new(rt.alloc(), bytes);
    compare(rt, &mut open_file(rt, NAME)?, &mut beside)?;
    compare_bytes(rt, beside.bytes())
}

/// A file that has none.
fn on_sparse(rt: &HostRuntime) -> io::Result<()> {
    let mut beside = MemDisk::new(rt.alloc(), vec![in rt.alloc(); 0; SIZE]?);
    File::create_new(rt, NAME)?.set_len(SIZE as u64)?;
    compare(rt, &mut open_file(rt, NAME)?, &mut beside)?;
    compare_bytes(rt, beside.bytes())
}

/// A new file, which has one for each again.
fn on_made(rt: &HostRuntime) -> io::Result<()> {
    let mut beside = MemDisk::new(rt.alloc(), vec![in rt.alloc(); 0; SIZE]?);
    let (file, mut disk) = NewFile::make(rt, NAME, SIZE as u64)?;
    compare(rt, &mut disk, &mut beside)?;
    file.name(rt, NAME)?;
    compare_bytes(rt, beside.bytes())
}

/// Tries the three, and prints what came out.
pub(crate) fn tell(rt: &HostRuntime) -> io::Result<()> {
    let _gone = fs::remove_file(rt, NAME);
    println!(rt; "a file that was written")?;
    on_written(rt)?;
    fs::remove_file(rt, NAME)?;
    println!(rt; "a file without blocks")?;
    on_sparse(rt)?;
    fs::remove_file(rt, NAME)?;
    println!(rt; "a file that was made")?;
    on_made(rt)?;
    fs::remove_file(rt, NAME)
}
