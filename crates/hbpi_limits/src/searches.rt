//! A long text for `dry`, and a search that finds all that it put in.

use crate::calls::{Script, call, zeros};
use crate::missed::Missed;
use std::alloc::Global;

/// How many records are put in.
const COUNT: u64 = 500_000;

/// How many lines of lookups make a text of 1,000,000 lines, behind one for each record and one search.
const LOOKUPS: u64 = 1_000_000 - COUNT - 1;

/// How many records are mixed with one another.
const BLOCK: u64 = 10_000;

/// The first value of the record that is inserted or looked up at this turn: each number once, as the factor and `BLOCK`
/// have no common divisor.
fn first_of(turn: u64) -> u64 {
    let place = turn % BLOCK;
    (turn - place).wrapping_add(place * 7919 % BLOCK)
}

/// The second value of the point with this first value.
fn second_of(first: u64) -> u64 {
    u64::MAX - first
}

/// Inserts all records.
fn add_inserts(script: &mut Script) -> Result<(), Missed> {
    for turn in 0..COUNT {
        let line = script.next_line()?;
        let first = first_of(turn);
        let second = second_of(first);
        write!(script.text, "1 insert {first} {second} ={first:032}\n")?;
        write!(script.output, "{line} ok\n")?;
    }
    Ok(())
}

/// Searches the whole space. All records are in it, in the order of their first values.
fn add_search(script: &mut Script) -> Result<(), Missed> {
    let (line, most) = (script.next_line()?, u64::MAX);
    write!(script.text, "1 search 0 {most} 0 {most}\n")?;
    write!(script.output, "{line} box {COUNT}\n")?;
    for first in 0..COUNT {
        let second = second_of(first);
        write!(script.output, "+ {first} {second} ={first:032}\n")?;
    }
    Ok(())
}

/// Looks up records, and in each second line a point that isn't there.
fn add_lookups(script: &mut Script) -> Result<(), Missed> {
    for turn in 0..LOOKUPS {
        let line = script.next_line()?;
        let first = first_of(turn);
        let second = second_of(first);
        if turn % 2 == 0 {
            write!(script.text, "1 lookup {second} {first}\n")?;
            write!(script.output, "{line} none\n")?;
        } else {
            write!(script.text, "1 lookup {first} {second}\n")?;
            write!(script.output, "{line} found ={first:032}\n")?;
        }
    }
    Ok(())
}

/// Answers a text of as many lines as there may be.
pub(crate) fn many_lines(alloc: Global) -> Result<(), Missed> {
    let mut script = Script::new(alloc)?;
    add_inserts(&mut script)?;
    add_search(&mut script)?;
    add_lookups(&mut script)?;
    script.end("")?;
    let (text, output) = (script.text.as_str(), script.output.as_str());
    call(alloc, "dry 2", text, output, zeros(alloc, 0)?)?;
    Ok(())
}
