//! A crash before each device call, and each device call failing, once or from then on, of a run that splits a page twice and
//! posts both.

use crate::ordered::{Commands, EMPTY, Plain, Verb, all_hold, told_by};
use crate::runs::{Left, NEVER, left_of, run_over};
use hb_disk::{Disk, MemDisk};
use std::alloc::Global;

/// The commands of session 1: points, of which the first nine split a page twice, and the verbs on them.
const LINES: [(usize, Verb); 30] = [
    (1, Verb::Insert),
    (2, Verb::Insert),
    (3, Verb::Insert),
    (4, Verb::Insert),
    (5, Verb::Insert),
    (6, Verb::Insert),
    (7, Verb::Insert),
    (8, Verb::Insert),
    (9, Verb::Insert),
    (1, Verb::Lookup),
    (9, Verb::Lookup),
    (10, Verb::Insert),
    (3, Verb::Delete),
    (3, Verb::Lookup),
    (11, Verb::Insert),
    (3, Verb::Insert),
    (10, Verb::Delete),
    (10, Verb::Delete),
    (4, Verb::Delete),
    (4, Verb::Lookup),
    (2, Verb::Insert),
    (12, Verb::Insert),
    (0, Verb::Insert),
    (7, Verb::Delete),
    (7, Verb::Insert),
    (5, Verb::Lookup),
    (12, Verb::Lookup),
    (12, Verb::Delete),
    (13, Verb::Insert),
    (13, Verb::Lookup),
];

/// Those commands, and steps enough for them: eleven lines, the poster, and the others. The poster is stepped once more behind
/// each few of them.
fn lines(alloc: Global) -> Option<Commands> {
    let mut commands = Commands::new(alloc, 1, 0);
    for &(place, verb) in &LINES {
        commands.add(1, verb, place)?;
    }
    commands
        .text
        .push_str("step 1x48 px40 1x17 px9 1x60 px40 1x60\n")
        .ok()?;
    Some(commands)
}

/// A new file of four pages.
fn new_file(alloc: Global) -> Option<Vec<u8>> {
    left_of(alloc, "create 1 4 65536 6 32", &[], 155_648, 0)
}

/// What a run of them over a new file leaves, whose calls of these numbers fail: so many from the first one on.
fn run(alloc: Global, commands: &Commands, first: u64, count: u64) -> Option<Left> {
    let mut calls = Vec::new(alloc);
    for more in 0..count {
        calls.push(first.saturating_add(more)).ok()?;
    }
    let disk = MemDisk::failing(alloc, new_file(alloc)?, calls);
    run_over(alloc, "drive", commands.text.as_str(), NEVER, NEVER, disk)
}

/// How many lines were answered before this call of the disk. All reads come before the first force.
fn answered_before(left: &Left, call: u64) -> usize {
    let reads = left.disk.calls().saturating_sub(left.disk.clock());
    let clock = call.saturating_sub(reads);
    let mut count = 0usize;
    for one in &left.answered {
        if one.at <= clock {
            count = count.wrapping_add(1);
        }
    }
    count
}

/// Whether a stop before this call leaves what the lines left that were answered, or one line more.
fn stops_well(alloc: Global, commands: &Commands, left: &Left, before: u64) -> Option<bool> {
    let answered = answered_before(left, before);
    let more = answered.wrapping_add(1);
    let (one, other) = (commands.behind(answered)?, commands.behind(more)?);
    all_hold(alloc, &left.disk, before, 16, one, other)
}

/// The device calls of the run. A new file's recovery and the read of page 1 take 16. Each of 21 changes is forced by four: two of
/// them with their splits, and the first one behind the poster with the growth and both postings.
const CALLS: u64 = 16 + 4 * 21;

/// Whether a stop before each of them leaves what it may.
pub(crate) fn growth_is_stopped(alloc: Global) -> Option<bool> {
    let commands = lines(alloc)?;
    let left = run(alloc, &commands, 0, 0)?;
    let told = told_by(&commands, EMPTY, left.said.as_str())?;
    if !told.done || left.disk.calls() != CALLS {
        return Some(false);
    }
    for before in 0..CALLS + 1 {
        if !stops_well(alloc, &commands, &left, before)? {
            return Some(false);
        }
    }
    Some(true)
}

/// What the points may have once a run has said this: what the settled part of the order made of them, or all of it.
fn ends(commands: &Commands, said: &str) -> Option<(Plain, Plain)> {
    if said == "6 disk fault\n" {
        return Some((EMPTY, EMPTY));
    }
    let told = told_by(commands, EMPTY, said)?;
    Some((told.settled, told.whole))
}

/// Whether a run with so many failing calls is right: it says so, and what it leaves opens with what it told.
fn fails_well(alloc: Global, commands: &Commands, first: u64, count: u64) -> Option<bool> {
    let left = run(alloc, commands, first, count)?;
    let said = left.said.as_str();
    let (one, other) = ends(commands, said)?;
    if !said.starts_with("6 ") || !said.ends_with("disk fault\n") {
        return Some(false);
    }
    all_hold(alloc, &left.disk, left.disk.calls(), 16, one, other)
}

/// Whether each call may fail, alone or with all behind it.
pub(crate) fn growth_fails(alloc: Global) -> Option<bool> {
    let commands = lines(alloc)?;
    for call in 0..CALLS {
        if !fails_well(alloc, &commands, call, 1)? || !fails_well(alloc, &commands, call, 300)? {
            return Some(false);
        }
    }
    Some(true)
}
