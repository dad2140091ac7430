//! Files of many pages, and a log that touches the first one, the last one and some between.

use crate::calls::{Script, drive};
use crate::fields::page_at;
use crate::missed::Missed;
use crate::trees::{Tree, file_of, leaf_fields, part_of};
use hb_disk::MemDisk;
use std::alloc::Global;

/// A file, and how many pairs of neighbours are touched.
#[derive(Clone, Copy)]
struct Row {
    tree: Tree,
    pairs: u32,
}

/// The pages of the pair in the middle are the last one and page 1.
const ROWS: [Row; 3] = [
    Row {
        tree: Tree {
            k: 4,
            live: 65,
            above: 1,
            free: 0,
            more: 0,
            ahead: 32,
        },
        pairs: 31,
    },
    Row {
        tree: Tree {
            k: 3,
            live: 1000,
            above: 4,
            free: 0,
            more: 0,
            ahead: 498,
        },
        pairs: 51,
    },
    Row {
        tree: Tree {
            k: 2,
            live: 65_536,
            above: 256,
            free: 0,
            more: 0,
            ahead: 32_640,
        },
        pairs: 51,
    },
];

impl Row {
    /// The first page of records of a pair. The pairs are spread evenly, from the first two pages to the last two.
    fn first(&self, pair: u32) -> u32 {
        let room = u64::from(self.tree.leaves().saturating_sub(2));
        let between = u64::from(self.pairs.saturating_sub(1).max(1));
        (u64::from(pair).wrapping_mul(room) / between).min(room) as u32
    }
}

/// Puts a line of a verb and the point of this first value, without its end.
fn put_line(script: &mut Script, k: u8, verb: &str, first: u64) -> Result<u64, Missed> {
    let line = script.next_line()?;
    write!(script.text, "1 {verb} {first}")?;
    for _ in 1..k {
        write!(script.text, " 7")?;
    }
    Ok(line)
}

/// Inserts a record of this first value.
pub(crate) fn insert(script: &mut Script, k: u8, first: u64) -> Result<(), Missed> {
    let line = put_line(script, k, "insert", first)?;
    write!(script.text, " =x\n")?;
    write!(script.output, "{line} ok\n")?;
    Ok(())
}

/// Finds the record of this first value.
pub(crate) fn find(script: &mut Script, k: u8, first: u64) -> Result<(), Missed> {
    let line = put_line(script, k, "lookup", first)?;
    write!(script.text, "\n")?;
    write!(script.output, "{line} found =x\n")?;
    Ok(())
}

/// Misses a record of this first value.
pub(crate) fn miss(script: &mut Script, k: u8, first: u64) -> Result<(), Missed> {
    let line = put_line(script, k, "lookup", first)?;
    write!(script.text, "\n")?;
    write!(script.output, "{line} none\n")?;
    Ok(())
}

/// Deletes the record of this first value.
fn delete(script: &mut Script, k: u8, first: u64) -> Result<(), Missed> {
    let line = put_line(script, k, "delete", first)?;
    write!(script.text, "\n")?;
    write!(script.output, "{line} ok\n")?;
    Ok(())
}

/// Puts a record into the first page of each pair, and takes the one of the second page out. A change takes 4 steps, and
/// one more for each of the two pages above.
fn changes(alloc: Global, row: &Row) -> Result<Script, Missed> {
    let mut script = Script::new(alloc)?;
    for pair in 0..row.pairs {
        let item = row.first(pair);
        insert(&mut script, row.tree.k, part_of(item).wrapping_add(1))?;
        delete(&mut script, row.tree.k, part_of(item.wrapping_add(1)))?;
    }
    let steps = u64::from(row.pairs) * 12;
    write!(script.text, "step 1x{steps}\n")?;
    script.end("")?;
    Ok(script)
}

/// Looks for both records of the first page of each pair, and for that of the second page. A lookup takes 3 steps, and two
/// more for the pages above.
fn finds(alloc: Global, row: &Row) -> Result<Script, Missed> {
    let mut script = Script::new(alloc)?;
    for pair in 0..row.pairs {
        let item = row.first(pair);
        find(&mut script, row.tree.k, part_of(item))?;
        find(&mut script, row.tree.k, part_of(item).wrapping_add(1))?;
        miss(&mut script, row.tree.k, part_of(item.wrapping_add(1)))?;
    }
    let steps = u64::from(row.pairs) * 15;
    write!(script.text, "step 1x{steps}\n")?;
    script.end("")?;
    Ok(script)
}

/// Whether the page of records stands in its place with so many records.
fn stands(
    alloc: Global,
    tree: &Tree,
    disk: &MemDisk,
    item: u32,
    records: u8,
) -> Result<(), Missed> {
    let fields = leaf_fields(alloc, tree, item, records)?;
    let page = tree.number(tree.leaf(item));
    match disk.bytes().get(page_at(page)..) {
        Some(rest) if rest.starts_with(&fields) => Ok(()),
        _ => Err(Missed::NotHome { page }),
    }
}

/// Whether each touched page stands in its place as it was changed, page 1 and the last one among them.
fn all_stand(alloc: Global, row: &Row, disk: &MemDisk) -> Result<(), Missed> {
    let (mut least, mut most) = (u32::MAX, 0);
    for pair in 0..row.pairs {
        let item = row.first(pair);
        let next = item.wrapping_add(1);
        stands(alloc, &row.tree, disk, item, 2)?;
        stands(alloc, &row.tree, disk, next, 0)?;
        least = least.min(row.tree.number(row.tree.leaf(next)));
        most = most.max(row.tree.number(row.tree.leaf(item)));
    }
    if least == 1 && most == row.tree.high() {
        Ok(())
    } else {
        Err(Missed::AnotherPage)
    }
}

/// Changes pages of each file, and looks for what was changed in the next two calls. The first of these replays the log and
/// writes the pages to their places.
pub(crate) fn many_pages(alloc: Global) -> Result<(), Missed> {
    for row in &ROWS {
        let disk = MemDisk::new(alloc, file_of(alloc, &row.tree)?);
        let disk = drive(alloc, &changes(alloc, row)?, disk)?;
        let finds = finds(alloc, row)?;
        let disk = drive(alloc, &finds, disk)?;
        all_stand(alloc, row, &disk)?;
        drive(alloc, &finds, disk)?;
    }
    Ok(())
}
