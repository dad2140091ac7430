//! Files of more pages than there are frames in memory: they grow in one run, with the poster, and are looked up, changed and
//! searched; drawn schedules over them; and by hand, from which change on a page is written to its place for want of frames, and
//! which pages are read again.

use crate::drawn::{Draw, Rows, Wave, driven, finish};
use crate::ordered::{Commands, EMPTY, Plain, Told, Verb, holds};
use crate::runs::{drive_on, left_of};
use hb_disk::Disk;
use std::alloc::Global;

/// How many pages such a file may have, and how many bytes it has: two superblocks, two log areas, and these pages.
const PAGES: usize = 384;

const SIZE: usize = 8192 + 2 * 1_048_576 + PAGES * 4096;

/// How many records are put in.
const COUNT: usize = 800;

/// How many pages are in their places once the file has grown, at least. A page has room for six records, so these take 134, and
/// one above names 32. Of these 140 pages 128 may be in memory alone.
const HOME: usize = 12;

/// How far the point of an insert is behind the one before it, where they come in order, and where they are spread.
const IN_ORDER: usize = 1;

const SPREAD: usize = 387;

/// A new file of so many attributes.
fn new_file(alloc: Global, k: u8) -> Option<Vec<u8>> {
    let words = if k == 1 {
        "create 1 384 1048576 6 32"
    } else {
        "create 2 384 1048576 6 32"
    };
    left_of(alloc, words, &[], SIZE, 0)
}

/// How many of so many pages have other bytes in their places. Both files have log areas of so many pages.
pub(crate) fn changed(one: &[u8], other: &[u8], area: usize, pages: usize) -> usize {
    let mut count = 0usize;
    for page in 0..pages {
        let at = page
            .wrapping_add(2)
            .wrapping_add(area)
            .wrapping_add(area)
            .wrapping_mul(4096);
        let end = at.wrapping_add(4096);
        if one.get(at..end) != other.get(at..end) {
            count = count.wrapping_add(1);
        }
    }
    count
}

/// The inserts of all records by session 1, each point so far behind the one before it, and one by session 2.
fn inserts(alloc: Global, k: u8, far: usize) -> Option<Commands> {
    let mut commands = Commands::new(alloc, k, 0);
    for turn in 0..COUNT {
        commands.add(1, Verb::Insert, turn.wrapping_mul(far) % 1024)?;
    }
    commands.add(2, Verb::Insert, COUNT.wrapping_mul(far) % 1024)?;
    Some(commands)
}

/// Adds steps enough for these inserts and for the poster behind each of them. Session 2 forces what was posted last.
fn grow(text: &mut String) -> Option<()> {
    for _ in 0..COUNT {
        text.push_str("step 1x9 px12\n").ok()?;
    }
    text.push_str("step 1x800 px400 2x40\n").ok()
}

/// The file of these inserts, in which an opening has put each page into its place, and what was told of them.
fn grown(alloc: Global, k: u8, far: usize) -> Option<(Told, Vec<u8>)> {
    let mut commands = inserts(alloc, k, far)?;
    grow(&mut commands.text)?;
    let new = new_file(alloc, k)?;
    let (told, file) = driven(alloc, &commands, EMPTY, new.as_slice())?;
    if !told.done || changed(new.as_slice(), file.as_slice(), 256, PAGES) < HOME {
        return None;
    }
    let opened = drive_on(alloc, "", file.as_slice())?;
    Some((told, Vec::from_slice(alloc, opened.disk.bytes()).ok()?))
}

/// The inserts, and behind them in the same run 200 lines of three sessions all over the file, and a search of the whole space.
fn story(alloc: Global, k: u8) -> Option<Commands> {
    let mut commands = inserts(alloc, k, SPREAD)?;
    for turn in 0..200usize {
        let verb = match turn % 4 {
            0 => Verb::Lookup,
            1 => Verb::Delete,
            2 => Verb::Insert,
            _ => Verb::Search,
        };
        let session = (turn % 3) as u8 + 1;
        commands.add(session, verb, turn.wrapping_mul(155) % 1024)?;
    }
    commands.add(1, Verb::Whole, 0)?;
    grow(&mut commands.text)?;
    finish(&mut commands.text, 200)?;
    Some(commands)
}

/// Whether that run is right, and the file opens with its records.
fn is_driven(alloc: Global, k: u8) -> Option<bool> {
    let commands = story(alloc, k)?;
    let new = new_file(alloc, k)?;
    let (told, file) = driven(alloc, &commands, EMPTY, new.as_slice())?;
    if !told.done || changed(new.as_slice(), file.as_slice(), 256, PAGES) < HOME {
        return Some(false);
    }
    holds(alloc, file.as_slice(), k, 1024, told.whole, told.whole)
}

/// The same over one attribute, and over two.
pub(crate) fn large_files(alloc: Global) -> Option<bool> {
    Some(is_driven(alloc, 1)? && is_driven(alloc, 2)?)
}

/// Changes all over a file: of the points three quarters are there, so some 240 lines of such a wave change a page.
const CHANGING: Wave = Wave {
    verbs: [
        Verb::Insert,
        Verb::Insert,
        Verb::Insert,
        Verb::Delete,
        Verb::Delete,
        Verb::Delete,
        Verb::Delete,
        Verb::Search,
    ],
    rows: Rows::All,
    commands: 500,
    turns: 1100,
    beside: "c",
};

/// Whether a case is right over a file that has grown. Its first run is cut off by its schedule. Where pages that it changed had
/// to leave memory, some are in their places, and one more is counted.
fn is_right(
    alloc: Global,
    draw: &mut Draw,
    before: Plain,
    file: &[u8],
    crowded: &mut usize,
) -> Option<bool> {
    let first = draw.commands(alloc, &CHANGING, 1000)?;
    let (one, after) = driven(alloc, &first, before, file)?;
    if changed(file, after.as_slice(), 256, PAGES) > 0 {
        *crowded = crowded.wrapping_add(1);
    }
    let mut second = draw.commands(alloc, &CHANGING, 2000)?;
    finish(&mut second.text, 200)?;
    let (two, file) = driven(alloc, &second, one.settled, after.as_slice())?;
    if !two.done {
        return Some(false);
    }
    holds(alloc, file.as_slice(), draw.k, 1024, two.whole, two.whole)
}

/// The case of this number over a file of so many attributes, with up to 14 sessions.
fn case(k: u8, number: u64) -> Draw {
    Draw {
        k,
        sessions: number % 4 * 4 + u64::from(k),
        seed: number,
    }
}

/// Whether 25 cases from this number on are right over a file of so many attributes, and in most of them pages had to leave
/// memory. Each case has two schedules.
fn are_right(alloc: Global, k: u8, first: u64) -> Option<bool> {
    let (told, file) = grown(alloc, k, SPREAD)?;
    let mut crowded = 0usize;
    for more in 0..25u64 {
        let mut draw = case(k, first.wrapping_add(more));
        if !is_right(alloc, &mut draw, told.whole, file.as_slice(), &mut crowded)? {
            return Some(false);
        }
    }
    Some(crowded >= 20)
}

/// The same over one attribute.
pub(crate) fn schedules_of_one(alloc: Global) -> Option<bool> {
    are_right(alloc, 1, 200)
}

/// And over two.
pub(crate) fn schedules_of_two(alloc: Global) -> Option<bool> {
    are_right(alloc, 2, 300)
}

/// How many records are taken out of a file that grew in order, each from a page of its own; and how many pages are written to
/// their places.
///
/// In order a page has two or three records or, the last one, up to six, one behind another. So points that are six apart have
/// pages of their own. A parent keeps 11 of 32 children or more when it splits, so the file has three levels, and a delete takes
/// 6 steps. In the one that changes the page the parent is pinned, and with 124 dirty pages three of 128 frames are left. With
/// 125 the first of them is written, a step more, and so it goes on.
const CROWDED: [(usize, usize); 5] = [(124, 0), (125, 0), (126, 1), (127, 2), (130, 5)];

/// Those deletes, and so many steps.
fn deletes(alloc: Global, count: usize, steps: usize) -> Option<Commands> {
    let mut commands = Commands::new(alloc, 1, 0);
    for turn in 0..count {
        commands.add(1, Verb::Delete, turn.wrapping_mul(6))?;
    }
    write!(commands.text, "step 1x{steps}\n").ok()?;
    Some(commands)
}

/// Whether so many steps answer all of them, if they do, and write so many pages.
fn ends(
    alloc: Global,
    commands: &Commands,
    before: &(Told, Vec<u8>),
    written: usize,
) -> Option<bool> {
    let file = before.1.as_slice();
    let (told, left) = driven(alloc, commands, before.0.whole, file)?;
    if changed(file, left.as_slice(), 256, PAGES) != written {
        return None;
    }
    Some(told.done)
}

/// Whether the steps are just enough.
fn are_enough(
    alloc: Global,
    before: &(Told, Vec<u8>),
    count: usize,
    written: usize,
) -> Option<bool> {
    let steps = count.wrapping_mul(6).wrapping_add(written);
    let all = deletes(alloc, count, steps)?;
    let less = deletes(alloc, count, steps.wrapping_sub(1))?;
    let is_done = ends(alloc, &all, before, written)?;
    Some(is_done && !ends(alloc, &less, before, written)?)
}

/// Whether they are for each number of records.
pub(crate) fn pages_are_written(alloc: Global) -> Option<bool> {
    let before = grown(alloc, 1, IN_ORDER)?;
    for &(count, written) in &CROWDED {
        if !are_enough(alloc, &before, count, written)? {
            return Some(false);
        }
    }
    Some(true)
}

/// How many calls of the disk the lookups of so many points make that are six apart, each of them so many times, with an opening
/// before them. `None` too where steps are missing.
fn calls_of(alloc: Global, file: &[u8], count: usize, times: usize) -> Option<u64> {
    let lines = count.wrapping_mul(times);
    let mut commands = Commands::new(alloc, 1, 0);
    for turn in 0..lines {
        commands.add(1, Verb::Lookup, (turn % count.max(1)).wrapping_mul(6))?;
    }
    let steps = lines.wrapping_mul(5).wrapping_add(1);
    write!(commands.text, "step 1x{steps}\n").ok()?;
    let left = drive_on(alloc, commands.text.as_str(), file)?;
    if left.said.as_str().contains("unfinished") {
        return None;
    }
    Some(left.disk.calls())
}

/// Whether so many lookups, each on a page of its own, read what they have to where they are made twice. At first each page is
/// read once. Then none is read again where all have frames. Else each page of records is, since 128 others or more were used
/// behind it; the root isn't, and those between may still be there. An opening alone makes so many calls.
fn are_read_again(alloc: Global, file: &[u8], count: usize, none: u64) -> Option<bool> {
    let once = calls_of(alloc, file, count, 1)?;
    let first = once.saturating_sub(none);
    let again = calls_of(alloc, file, count, 2)?.saturating_sub(once);
    let right = if first <= 128 {
        again == 0
    } else {
        count as u64 <= again && again < first
    };
    Some(right && first > count as u64)
}

/// How many points. 90 pages of records have frames, with 27 pages above them at most: one of these names 11 others or more, and
/// one of records has two records. 130 have none.
const READ_AGAIN: [usize; 9] = [90, 95, 100, 105, 110, 115, 120, 125, 130];

/// Whether they are for each number of points.
pub(crate) fn pages_are_read_again(alloc: Global) -> Option<bool> {
    let (_, file) = grown(alloc, 1, IN_ORDER)?;
    let none = calls_of(alloc, file.as_slice(), 0, 0)?;
    for &count in &READ_AGAIN {
        if !are_read_again(alloc, file.as_slice(), count, none)? {
            return Some(false);
        }
    }
    Some(true)
}
