//! A file of many records, and searches that find all of them, or half.

use crate::calls::{Script, call, drive, zeros};
use crate::missed::Missed;
use std::alloc::Global;

/// How many records are put in.
const COUNT: u64 = 13_000;

/// The words that make a file of 8,192 pages of six records each, and its bytes. Some 3,000 are needed, and 2,167 at least. A log area
/// has room for all changes, so the next call opens the file by a log that touches each of these pages.
const WORDS: &str = "create 2 8192 4194304 6 256";

const SIZE: usize = 8192 + 2 * 4_194_304 + 8192 * 4096;

/// The second value of the point with this first value.
fn second_of(first: u64) -> u64 {
    first.wrapping_mul(331) % 10_007
}

/// Inserts all records, their first values one after another in steps of 7,919, which has no common divisor with their number.
fn add_inserts(script: &mut Script) -> Result<(), Missed> {
    for turn in 0..COUNT {
        let line = script.next_line()?;
        let first = turn.wrapping_mul(7919) % COUNT;
        let second = second_of(first);
        write!(script.text, "1 insert {first} {second} ={first}\n")?;
        write!(script.output, "{line} ok\n")?;
    }
    for _ in 0..COUNT {
        write!(script.text, "step 1x10 px3\n")?;
    }
    script.end("step 1x200000\n")?;
    Ok(())
}

/// How many records have a second value of at most this.
fn count_of(most: u64) -> u64 {
    let mut count: u64 = 0;
    for first in 0..COUNT {
        if second_of(first) <= most {
            count = count.saturating_add(1);
        }
    }
    count
}

/// Searches for the records whose second value is at most this, in the order of their first values.
fn add_search(script: &mut Script, most: u64) -> Result<(), Missed> {
    let (line, count) = (script.next_line()?, count_of(most));
    write!(script.text, "1 search 0 {COUNT} 0 {most}\n")?;
    write!(script.output, "{line} box {count}\n")?;
    for first in 0..COUNT {
        let second = second_of(first);
        if second <= most {
            write!(script.output, "+ {first} {second} ={first}\n")?;
        }
    }
    Ok(())
}

/// Fills a file, and searches it in the next run.
pub(crate) fn many_found(alloc: Global) -> Result<(), Missed> {
    let disk = call(alloc, WORDS, "", "created\n", zeros(alloc, SIZE)?)?;
    let mut script = Script::new(alloc)?;
    add_inserts(&mut script)?;
    let disk = drive(alloc, &script, disk)?;
    let mut script = Script::new(alloc)?;
    for most in [10_006, 4999, 0] {
        add_search(&mut script, most)?;
    }
    script.end("step 1x200000\n")?;
    drive(alloc, &script, disk)?;
    Ok(())
}
