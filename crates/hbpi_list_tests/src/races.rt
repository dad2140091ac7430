//! Two sessions on one page, in all interleavings of their first six steps each.

use crate::ordered::{Commands, Verb, holds, told_by};
use crate::runs::{drive_on, left_of};
use std::alloc::Global;

/// A file with records at the points 1 and up to this one.
fn file_to(alloc: Global, last: usize) -> Option<(Commands, Vec<u8>)> {
    let mut commands = Commands::new(alloc, 1, 0);
    for place in 1..7 {
        if place <= last {
            commands.add(1, Verb::Insert, place)?;
        }
    }
    let mut text = commands.text.as_str().to_string(alloc).ok()?;
    text.push_str("step 1x24\n").ok()?;
    let file = left_of(alloc, "create 1 4 65536 6 32", &[text.as_str()], 155_648, 0)?;
    Some((commands, file))
}

/// The commands of a race: both insert, then session 1 looks up what session 2 inserts, and session 2 deletes a point.
fn race(alloc: Global, one: usize, two: usize, gone: usize) -> Option<Commands> {
    let mut commands = Commands::new(alloc, 1, 100);
    commands.add(1, Verb::Insert, one)?;
    commands.add(2, Verb::Insert, two)?;
    commands.add(1, Verb::Lookup, two)?;
    commands.add(2, Verb::Delete, gone)?;
    Some(commands)
}

/// The text of an interleaving: each bit is a step of session 1 or 2. Then steps enough for both.
fn interleaved(alloc: Global, commands: &Commands, bits: u32) -> Option<String> {
    let mut text = commands.text.as_str().to_string(alloc).ok()?;
    text.push_str("step").ok()?;
    let mut rest = bits;
    for _ in 0..12 {
        let actor = if rest % 2 == 0 { " 1" } else { " 2" };
        text.push_str(actor).ok()?;
        rest = rest / 2;
    }
    text.push_str(" 1x24 2x24 1x24 2x24\n").ok()?;
    Some(text)
}

/// Whether an interleaving is right: the replies are the plain list's over the order, and the file opens with its records.
fn is_right(
    alloc: Global,
    before: &(Commands, Vec<u8>),
    commands: &Commands,
    bits: u32,
) -> Option<bool> {
    let text = interleaved(alloc, commands, bits)?;
    let left = drive_on(alloc, text.as_str(), before.1.as_slice())?;
    let told = told_by(commands, before.0.behind(6)?, left.said.as_str())?;
    if !told.done {
        return Some(false);
    }
    holds(alloc, left.disk.bytes(), 1, 16, told.whole, told.whole)
}

/// How many of the interleavings are right. `None` where one goes wrong by its output.
fn right_ones(alloc: Global, last: usize, commands: &Commands) -> Option<u32> {
    let before = file_to(alloc, last)?;
    let mut count = 0u32;
    for bits in 0..4096u32 {
        if bits.count_ones() == 6 && is_right(alloc, &before, commands, bits)? {
            count = count.wrapping_add(1);
        }
    }
    Some(count)
}

/// Whether all races for one point are right.
pub(crate) fn for_a_point(alloc: Global) -> Option<bool> {
    Some(right_ones(alloc, 2, &race(alloc, 9, 9, 1)?)? == 924)
}

/// Whether all races for a full page are.
pub(crate) fn for_a_page(alloc: Global) -> Option<bool> {
    Some(right_ones(alloc, 6, &race(alloc, 9, 8, 9)?)? == 924)
}
