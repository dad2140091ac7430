//! Files that aren't there, forms that leave theirs as it is, output piece by piece, and a file that is full.

use crate::beside::{Pair, call_alone};
use crate::lost::Pieces;
use hb_disk::MemDisk;
use std::sync::Wait;
use std::thread::Threads;
use std::{fs, io, str};

const NAME: &str = "hbpi_files.edges";

/// Words that make no file: those that want one which is there, a layout out of its limits, and words that are no form.
const MAKE_NONE: [&str; 10] = [
    "run",
    "drive",
    "check",
    "map",
    "tidy",
    "work 1 1",
    "dry 1",
    "gen 1 1 1",
    "create 1 3 65536 5 32",
    "create",
];

/// A file of three pages, and how many bytes it has.
const CREATE: &str = "create 1 3 65536 6 32";

const SIZE: usize = 151_552;

const FIRST: &str = "1 insert 10 =a
1 lookup 10
";

const SECOND: &str = "1 lookup 10
1 lookup 20
step 1x6
";

/// The last one finds no room in its page, and no page is free.
const FILL: &str = "1 insert 20 =
1 insert 30 =
1 insert 40 =
1 insert 50 =
1 insert 60 =
1 insert 70 =
1 insert 80 =
1 insert 90 =
1 insert 100 =
1 insert 110 =
1 insert 120 =
step 1x100
";

/// Calls over a file that isn't there.
fn make_none<R: Threads + Wait + Sync>(rt: &HostRuntime, threads: &R) -> io::Result<()> {
    for words in MAKE_NONE {
        call_alone(rt, threads, NAME, words, "".as_bytes())?;
        let made = fs::exists(rt, NAME)?;
        println!(rt; "made {made}")?;
    }
    Ok(())
}

/// A call over both whose output is told piece by piece.
fn in_pieces<R: Threads + Wait + Sync>(
    rt: &HostRuntime,
    threads: &R,
    pair: Pair,
    words: &str,
    text: &str,
) -> io::Result<Pair> {
    let mut pieces = Pieces::new(rt.alloc());
    let pair = pair.call_into(rt, threads, words, text, &mut pieces)?;
    match str::from_utf8(pieces.taken.as_slice()) {
        Ok(text) => println!(rt; "{text}")?,
        Err(_) => println!(rt; "the output isn't text")?,
    }
    Ok(pair)
}

/// Tries all of this, and prints what came out. The output of threads comes line by line, and that of a schedule at once.
pub(crate) fn tell<R: Threads + Wait + Sync>(rt: &HostRuntime, threads: &R) -> io::Result<()> {
    let _gone = fs::remove_file(rt, NAME);
    make_none(rt, threads)?;
    let pair = Pair {
        name: NAME,
        disk: MemDisk::new(rt.alloc(), vec![in rt.alloc(); 0; SIZE]?),
    };
    let pair = pair.call(rt, threads, CREATE, "")?;
    let pair = in_pieces(rt, threads, pair, "run", FIRST)?;
    let pair = in_pieces(rt, threads, pair, "drive", SECOND)?;
    let pair = pair.call(rt, threads, "map", "")?;
    pair.call_that_changes_nothing(rt, threads, "dry 1", FIRST)?;
    pair.call_that_changes_nothing(rt, threads, "gen 1 1 1", "")?;
    let pair = pair.call(rt, threads, "drive", FILL)?;
    let pair = pair.call(rt, threads, "tidy", "")?;
    drop(pair);
    fs::remove_file(rt, NAME)
}
