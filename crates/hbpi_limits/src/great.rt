//! A file of 4,865 pages, of which those above the records name 255 each: checked, tidied, mapped, and searched whole.

use crate::calls::{Script, call, drive};
use crate::fields::put_page;
use crate::generated::is_put;
use crate::missed::Missed;
use crate::trees::{Tree, file_of, leaf_fields, part_of};
use hb_disk::MemDisk;
use std::alloc::Global;

/// The free pages are the last 50 up to the highest one and the first 50.
const TREE: Tree = Tree {
    k: 1,
    live: 4865,
    above: 19,
    free: 100,
    more: 0,
    ahead: 50,
};

/// The pages of records in front of this one have three each. From here on the last page above names them, and they have one.
const LIGHT: u32 = 4590;

fn records_of(item: u32) -> u8 {
    if item < LIGHT { 3 } else { 1 }
}

fn file(alloc: Global) -> Result<Vec<u8>, Missed> {
    let mut file = file_of(alloc, &TREE)?;
    for item in 0..LIGHT {
        let fields = leaf_fields(alloc, &TREE, item, records_of(item))?;
        put_page(&mut file, TREE.number(TREE.leaf(item)), &fields);
    }
    Ok(file)
}

/// Of the 255 light pages each but the last one weighs 2, and the last one weighs 1. A page takes over the next one where it weighs at most
/// 4 of 6 then, without the leaf that named that one: so each third takes over two. No other page has its whole box below one page.
const TIDIED: &str = "tidy grown 0 posted 0 split 0 merged 170\n";

const BEFORE: &str = "sound height 3 pages 4865 records 14025\n";

const BEHIND: &str = "sound height 3 pages 4695 records 14025\n";

/// How many bytes the map has then, and a sum of them, by a plain program.
const BYTES: usize = 880_391;

const SUM: u64 = 16_061_631_144_041_625_993;

fn search(alloc: Global) -> Result<Script, Missed> {
    let mut script = Script::new(alloc)?;
    let line = script.next_line()?;
    write!(script.text, "1 search 0 {}\n", u64::MAX)?;
    write!(script.output, "{line} box 14025\n")?;
    for item in 0..TREE.leaves() {
        for record in 0..records_of(item) {
            let first = part_of(item).wrapping_add(u64::from(record));
            write!(script.output, "+ {first} =x\n")?;
        }
    }
    script.end("step 1x60000\n")?;
    Ok(script)
}

/// Makes all these calls.
pub(crate) fn all_are_seen(alloc: Global) -> Result<(), Missed> {
    let disk = MemDisk::new(alloc, file(alloc)?);
    let disk = call(alloc, "check", "", BEFORE, disk)?;
    let disk = call(alloc, "tidy", "", TIDIED, disk)?;
    let disk = call(alloc, "check", "", BEHIND, disk)?;
    let disk = is_put(alloc, "map", BYTES, SUM, disk)?;
    drive(alloc, &search(alloc)?, disk)?;
    Ok(())
}
