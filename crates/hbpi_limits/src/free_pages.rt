//! Files with pages to spare, and splits until no page is free.

use crate::calls::{Script, drive};
use crate::missed::Missed;
use crate::sizes::{find, insert, miss};
use crate::trees::{Tree, file_of, part_of};
use hb_disk::MemDisk;
use std::alloc::Global;

/// A file, how many pages are free or behind the highest one, so that so many of its pages of records can be split, how many steps
/// the poster has then, and how many a lookup has at most behind that.
#[derive(Clone, Copy)]
struct Row {
    tree: Tree,
    splits: u32,
    posts: u32,
    lookup: u32,
}

const ROWS: [Row; 2] = [
    // The free pages are the last 50 up to the highest one and the first 50, and 200 more may be behind the highest one. The poster
    // takes one job, and posts nothing. A lookup takes 3 steps, two more for the pages above, and one more where the record left for a
    // new page.
    Row {
        tree: Tree {
            k: 2,
            live: 4900,
            above: 20,
            free: 100,
            more: 200,
            ahead: 50,
        },
        splits: 300,
        posts: 1,
        lookup: 6,
    },
    // Each split adds a job, so 70 wait. The one page of level 1 names 72 pages, and may name 256. A posting takes six steps: the job,
    // two pages, the child, the latch, and the posting. Four more find that nothing is owed, since the job waits once more. Then no
    // lookup goes over a sibling leaf.
    Row {
        tree: Tree {
            k: 2,
            live: 74,
            above: 1,
            free: 0,
            more: 70,
            ahead: 0,
        },
        splits: 70,
        posts: 2000,
        lookup: 5,
    },
];

impl Row {
    /// How many records are inserted: five in each page that is split, and four in the next one.
    fn records(&self) -> u32 {
        self.splits.saturating_mul(5).saturating_add(4)
    }

    /// How many steps write an older page to its place.
    ///
    /// Memory has 128 frames. A change begins where three of them may go, and the page above is pinned then: so it finds 124 dirty
    /// pages at most. Each page that is split makes two dirty, its own and the new one, and the last one is made dirty, too. In the
    /// end 124 of these are dirty, and the others were written.
    fn writes(&self) -> u32 {
        self.splits.saturating_mul(2).saturating_sub(123)
    }
}

/// The first value of the record that is inserted at a turn: five a page.
fn first_of(turn: u32) -> u64 {
    part_of(turn / 5).wrapping_add(u64::from(turn % 5 + 1))
}

/// Splits as many pages as can be, and then one more is to be split. A page has one record and a sibling leaf, and may weigh
/// 6: so the fifth insert splits it. An insert takes 4 steps, two more for the pages above, and two more where it splits. The
/// last one takes 3 and those two. The writes to places come besides, where no group waits. Behind the poster another session looks a
/// record up, which forces what was posted: its place is behind that.
fn inserts(alloc: Global, row: &Row) -> Result<Script, Missed> {
    let mut script = Script::new(alloc)?;
    for turn in 0..row.records() {
        insert(&mut script, row.tree.k, first_of(turn))?;
    }
    let line = script.next_line()?;
    write!(
        script.text,
        "2 lookup 0 7\n1 insert {} 7 =x\n",
        first_of(row.records())
    )?;
    write!(
        script.output,
        "{} full\n{line} found =x\n",
        line.wrapping_add(1)
    )?;
    let steps = row
        .splits
        .saturating_mul(32)
        .saturating_add(29)
        .saturating_add(row.writes());
    write!(script.text, "step 1x{steps} px{} 2x9\n", row.posts)?;
    script.end("")?;
    Ok(script)
}

/// Looks up the record of each insert, and the point of the last one, which has none.
fn finds(alloc: Global, row: &Row) -> Result<Script, Missed> {
    let mut script = Script::new(alloc)?;
    for turn in 0..row.records() {
        find(&mut script, row.tree.k, first_of(turn))?;
    }
    miss(&mut script, row.tree.k, first_of(row.records()))?;
    let steps = row.records().saturating_add(1).saturating_mul(row.lookup);
    write!(script.text, "step 1x{steps}\n")?;
    script.end("")?;
    Ok(script)
}

/// Whether the superblock of turn 2 says what has to be: the highest page and the pages in use are as many as there may be,
/// and none is free.
fn is_used_up(tree: &Tree, disk: &MemDisk) -> Result<(), Missed> {
    let pages = tree.pages().to_be_bytes();
    let bytes = disk.bytes();
    let is_full = bytes.get(29..33) == Some(pages.as_slice())
        && bytes.get(33..37) == Some(pages.as_slice())
        && bytes.get(37..41) == Some([0; 4].as_slice());
    if is_full && bytes.get(10).copied() == Some(2) {
        Ok(())
    } else {
        Err(Missed::NotUsedUp)
    }
}

/// Takes all free pages, those of the chain first, and finds in the next two calls what was put in.
pub(crate) fn all_are_taken(alloc: Global) -> Result<(), Missed> {
    for row in &ROWS {
        let disk = MemDisk::new(alloc, file_of(alloc, &row.tree)?);
        let disk = drive(alloc, &inserts(alloc, row)?, disk)?;
        let finds = finds(alloc, row)?;
        let disk = drive(alloc, &finds, disk)?;
        is_used_up(&row.tree, &disk)?;
        drive(alloc, &finds, disk)?;
    }
    Ok(())
}
