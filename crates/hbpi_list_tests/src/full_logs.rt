//! A small log that runs full over a file of more pages than there are frames, by hand: which step writes a page to its place, in
//! which one the next turn begins, and a crash before each of these calls, or a failure of it.

use crate::drawn::driven;
use crate::many_pages::changed;
use crate::ordered::{Commands, EMPTY, Plain, Verb, all_hold};
use crate::runs::{Left, drive_on, left_of, run_failing};
use hb_disk::Disk;
use std::alloc::Global;

/// The file, and how many pages and bytes it may have: two superblocks, two log areas of 16 pages, and these pages.
const WORDS: &str = "create 1 192 65536 6 32";

const PAGES: usize = 192;

const SIZE: usize = 8192 + 2 * 65_536 + PAGES * 4096;

/// How many records are put in.
const COUNT: usize = 340;

/// A file of records that were put in one behind the other, with the poster, and what the points have. An opening has put each
/// page into its place, and these are more than there are frames. There are three levels, as in `many_pages`: 57 pages of
/// records or more, 170 or less, and 15 above these and the root or less.
fn grown(alloc: Global) -> Option<(Plain, Vec<u8>)> {
    let mut commands = Commands::new(alloc, 1, 0);
    for place in 0..COUNT {
        commands.add(1, Verb::Insert, place)?;
    }
    // steps enough: a step line is a line too, so all of them stand behind the commands
    for _ in 0..COUNT {
        commands.text.push_str("step 1x9 px12\n").ok()?;
    }
    let new = left_of(alloc, WORDS, &[], SIZE, 0)?;
    let (told, left) = driven(alloc, &commands, EMPTY, new.as_slice())?;
    let opened = drive_on(alloc, "", left.as_slice())?;
    let file = Vec::from_slice(alloc, opened.disk.bytes()).ok()?;
    if !told.done || changed(new.as_slice(), file.as_slice(), 16, PAGES) <= 128 {
        return None;
    }
    Some((told.whole, file))
}

/// The points of 13 deletes: each has a page of its own, and none is beside the end, where a posting may be lost.
///
/// The frame of a delete has 5 bytes, 1 for the count of images, an image of 4,100, and 13 of the operation. A change is begun
/// where the log has at most 49,147 bytes. Behind eleven it has 45,309, and behind twelve 49,428. So the next turn begins in front of the
/// last one.
const POINTS: [usize; 13] = [24, 48, 72, 96, 120, 144, 168, 192, 216, 240, 264, 288, 312];

/// How many steps there are; what is said to the last delete and to a lookup of its point, and where they are in the order; how many
/// pages are in their places; and how many deletes last.
type Row = (u32, &'static str, &'static str, usize, usize);

/// A delete takes 6 steps. From the fourth of the last one on the twelve pages that were changed are written one by one, a step more
/// begins the next turn, and then it takes effect, is forced and answered. The lookup takes five.
const ROWS: [Row; 12] = [
    (72, "13 unfinished\n14 unfinished\n", "", 0, 12),
    (75, "13 unfinished\n14 unfinished\n", "", 0, 12),
    (76, "13 unfinished\n14 unfinished\n", "", 1, 12),
    (81, "13 unfinished\n14 unfinished\n", "", 6, 12),
    (87, "13 unfinished\n14 unfinished\n", "", 12, 12),
    (88, "13 unfinished\n14 unfinished\n", "", 12, 12),
    (89, "13 unfinished\n14 unfinished\n", " | 13", 12, 12),
    (90, "13 unfinished\n14 unfinished\n", " 13", 12, 13),
    (91, "13 ok\n14 unfinished\n", " 13", 12, 13),
    (94, "13 ok\n14 unfinished\n", " 13", 12, 13),
    (95, "13 ok\n14 unfinished\n", " 13 14", 12, 13),
    (96, "13 ok\n14 none\n", " 13 14", 12, 13),
];

/// The deletes, the lookup, and so many steps.
fn text_of(alloc: Global, steps: u32) -> Option<String> {
    let mut text = String::new(alloc);
    for point in &POINTS {
        write!(text, "1 delete {point}\n").ok()?;
    }
    write!(text, "1 lookup 312\nstep 1x{steps}\n").ok()?;
    Some(text)
}

/// What is said to them, with this status and fault line.
fn want_of(alloc: Global, status: &str, said: &str, place: &str, fault: &str) -> Option<String> {
    let mut want = String::from_str(alloc, status).ok()?;
    let mut order = String::from_str(alloc, "order").ok()?;
    for line in 1..13 {
        write!(want, "{line} ok\n").ok()?;
        write!(order, " {line}").ok()?;
    }
    write!(want, "{said}{order}{place}\n{fault}").ok()?;
    Some(want)
}

/// What a run of so many steps leaves, if it says this, has so many pages in their places, and the next opening has the others.
fn left_by(alloc: Global, file: &[u8], row: &Row) -> Option<Left> {
    let &(steps, said, place, home, last) = row;
    let left = drive_on(alloc, text_of(alloc, steps)?.as_str(), file)?;
    if left.said != want_of(alloc, "0 ", said, place, "")? {
        return None;
    }
    let next = drive_on(alloc, "", left.disk.bytes())?;
    let all = changed(file, next.disk.bytes(), 16, PAGES);
    let rest = changed(left.disk.bytes(), next.disk.bytes(), 16, PAGES);
    if changed(file, left.disk.bytes(), 16, PAGES) != home
        || all != last
        || home.wrapping_add(rest) != last
    {
        return None;
    }
    Some(left)
}

/// Whether each of the rows is right.
pub(crate) fn logs_run_full(alloc: Global) -> Option<bool> {
    let (_, file) = grown(alloc)?;
    for row in &ROWS {
        left_by(alloc, file.as_slice(), row)?;
    }
    Some(true)
}

/// What the points have behind so many deletes.
fn behind(plain: Plain, count: usize) -> Plain {
    let mut plain = plain;
    for &point in POINTS.iter().take(count) {
        if let Some(body) = plain.get_mut(point) {
            *body = 0;
        }
    }
    plain
}

/// Whether the run ends well where the call of this number fails: the machine is stopped, and nothing is lost. The last delete may be
/// in the order then.
fn fails_well(
    alloc: Global,
    file: &[u8],
    call: u64,
    place: &str,
    one: Plain,
    other: Plain,
) -> Option<bool> {
    let text = text_of(alloc, 96)?;
    let left = run_failing(alloc, "drive", text.as_str(), file, call)?;
    let said = "13 unanswered\n14 unanswered\n";
    let want = want_of(alloc, "6 ", said, place, "disk fault\n")?;
    if left.said != want || left.disk.calls() != call.wrapping_add(1) {
        return Some(false);
    }
    all_hold(alloc, &left.disk, left.disk.calls(), COUNT, one, other)
}

/// At the end the run writes twelve pages, begins the next turn by nine calls, reads the page of the last delete, and forces that by four.
/// So many calls there are.
const CALLS: u64 = 12 + 9 + 1 + 4;

/// Whether a stop before each of them leaves what it may.
pub(crate) fn writing_is_stopped(alloc: Global) -> Option<bool> {
    let (plain, file) = grown(alloc)?;
    let (old, new) = (behind(plain, 12), behind(plain, 13));
    let left = left_by(alloc, file.as_slice(), &ROWS[11])?;
    let calls = left.disk.calls();
    for more in 0..CALLS.wrapping_add(1) {
        // before the last sync the gate is written
        let one = if more == 0 { new } else { old };
        let other = if more < 2 { new } else { old };
        let before = calls.saturating_sub(more);
        if !all_hold(alloc, &left.disk, before, COUNT, one, other)? {
            return Some(false);
        }
    }
    Some(true)
}

/// From which of them on, and up to which, counted from the end, a call fails; and where the last delete is in the order then. Behind a
/// failing gate or its sync the delete may last. The read is none of these.
const FAULTS: [(u64, u64, &str); 3] = [(1, 3, " | 13"), (3, 5, " | 13"), (6, CALLS + 1, "")];

/// Whether the run ends well where one of these calls fails.
fn part_fails(
    alloc: Global,
    file: &[u8],
    plain: Plain,
    calls: u64,
    row: (u64, u64, &str),
) -> Option<bool> {
    let (first, end, place) = row;
    let (old, new) = (behind(plain, 12), behind(plain, 13));
    let other = if first == 1 { new } else { old };
    for more in first..end {
        let call = calls.saturating_sub(more);
        if !fails_well(alloc, file, call, place, old, other)? {
            return Some(false);
        }
    }
    Some(true)
}

/// Whether it does for each of them.
pub(crate) fn writing_fails(alloc: Global) -> Option<bool> {
    let (plain, file) = grown(alloc)?;
    let calls = left_by(alloc, file.as_slice(), &ROWS[11])?.disk.calls();
    for &row in &FAULTS {
        if !part_fails(alloc, file.as_slice(), plain, calls, row)? {
            return Some(false);
        }
    }
    Some(true)
}
