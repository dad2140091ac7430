//! Files of one to twelve levels, of which each but the highest gets one more.

use crate::calls::{Script, call, drive};
use crate::fields::{
    DCAP, ICAP, LOG, blank, page_at, put_cut, put_fields, put_head, put_name, put_records,
};
use crate::missed::Missed;
use crate::sizes::{find, insert};
use hb_disk::MemDisk;
use hb_layout::Meta;
use std::alloc::{AllocError, Global};

/// How many levels a file may have.
const MOST: u8 = 12;

/// From here on the first values of points lie in the second page of each level.
const SECOND: u64 = 1 << 32;

/// What a file says of itself. It has two pages on each level, and some may be added.
fn meta_of(height: u8) -> Meta {
    let live = 2 * u32::from(height);
    Meta {
        k: height % 4 + 1,
        pages: live + 2,
        log: LOG,
        dcap: DCAP,
        icap: ICAP,
        root: live.saturating_sub(1),
        height,
        high: live,
        live,
        free: 0,
    }
}

/// Puts what a page has of its own: one record, or the child leaf to the page that is two numbers less.
fn put_own(
    bytes: &mut Vec<u8>,
    k: u8,
    level: u8,
    number: u32,
    from: u64,
) -> Result<(), AllocError> {
    if level == 0 {
        put_records(bytes, k, from, 1)
    } else {
        put_name(bytes, 2, number.saturating_sub(2))
    }
}

/// Puts the two pages of a level. The first one has the whole space, and gave the upper part to the second one, which has
/// the next number.
fn put_level(alloc: Global, file: &mut [u8], k: u8, level: u8) -> Result<(), AllocError> {
    let number = 2 * u32::from(level) + 1;
    let mut first = Vec::new(alloc);
    put_head(&mut first, level, k, 0)?;
    put_cut(&mut first, SECOND)?;
    put_own(&mut first, k, level, number, 0)?;
    put_name(&mut first, 3, number + 1)?;
    put_fields(file, page_at(number), &first);
    let mut second = Vec::new(alloc);
    put_head(&mut second, level, k, SECOND)?;
    put_own(&mut second, k, level, number + 1, SECOND)?;
    put_fields(file, page_at(number + 1), &second);
    Ok(())
}

/// The file of so many levels.
fn file_of(alloc: Global, meta: &Meta) -> Result<Vec<u8>, AllocError> {
    let mut file = blank(alloc, meta)?;
    for level in 0..meta.height {
        put_level(alloc, &mut file, meta.k, level)?;
    }
    Ok(file)
}

/// A lookup goes by the root's sibling leaf and over one page a level, 3 steps and one for each level. So the poster gives
/// the file a level, and posts the sibling there. An insert goes over one page a level again, now with the new root, and
/// forces both and what it did at once: a step more than a lookup takes.
fn growth(alloc: Global, meta: &Meta) -> Result<Script, Missed> {
    let mut script = Script::new(alloc)?;
    let levels = u32::from(meta.height);
    find(&mut script, meta.k, SECOND)?;
    insert(&mut script, meta.k, SECOND + 1)?;
    write!(script.text, "step 1x{} px40 1x{}\n", levels + 3, levels + 4)?;
    script.end("")?;
    Ok(script)
}

/// Lookups on each side. A lookup takes 2 steps and one for each level of the grown file. In one of twelve levels the upper
/// part is behind the root's sibling leaf, a page more.
fn finds(alloc: Global, meta: &Meta) -> Result<Script, Missed> {
    let mut script = Script::new(alloc)?;
    find(&mut script, meta.k, 0)?;
    find(&mut script, meta.k, SECOND)?;
    find(&mut script, meta.k, SECOND + 1)?;
    let before = u32::from(meta.height);
    let after = u32::from(meta.height.saturating_add(1).min(MOST));
    let steps = (2 + after) + 2 * (3 + before);
    write!(script.text, "step 1x{steps}\n")?;
    script.end("")?;
    Ok(script)
}

/// Lets each of the files grow, and looks into it. The superblock of turn 2 has its height.
pub(crate) fn each_height(alloc: Global) -> Result<(), Missed> {
    for below in 0..MOST {
        let meta = meta_of(below + 1);
        let disk = MemDisk::new(alloc, file_of(alloc, &meta)?);
        let disk = drive(alloc, &growth(alloc, &meta)?, disk)?;
        let disk = drive(alloc, &finds(alloc, &meta)?, disk)?;
        let height = disk.bytes().get(12).copied().unwrap_or(0);
        if height != MOST.min(meta.height.saturating_add(1)) {
            return Err(Missed::Height { height });
        }
    }
    Ok(())
}

/// What a tidying says that finds nothing to do.
const NOTHING: &str = "tidy grown 0 posted 0 split 0 merged 0\n";

/// The heights, what `tidy` says of the file, and what `check` says of what it leaves.
///
/// The root has a sibling leaf, so the file gets a level, for which a page is free. The new root names the old one alone,
/// and the sibling is posted there; the root has room, so no page is split. Now the root names both pages of the level
/// below, and has no sibling leaf. They weigh 2 and 1, and together may weigh 4 of 6, or 192 of 256. So the second one
/// goes, and the first gets its child. Now the first names both pages of the next level, and so on down to the records.
/// Each level keeps one of its two pages, and the new root is one more.
///
/// A file of twelve levels grows no more, and its root keeps its sibling leaf. So each parent names one page of a level and not
/// the other one, and nothing may be merged.
const TIDIED: [(u8, &str, &str); 12] = [
    (
        1,
        "tidy grown 1 posted 1 split 0 merged 1\n",
        "sound height 2 pages 2 records 2\n",
    ),
    (
        2,
        "tidy grown 1 posted 1 split 0 merged 2\n",
        "sound height 3 pages 3 records 2\n",
    ),
    (
        3,
        "tidy grown 1 posted 1 split 0 merged 3\n",
        "sound height 4 pages 4 records 2\n",
    ),
    (
        4,
        "tidy grown 1 posted 1 split 0 merged 4\n",
        "sound height 5 pages 5 records 2\n",
    ),
    (
        5,
        "tidy grown 1 posted 1 split 0 merged 5\n",
        "sound height 6 pages 6 records 2\n",
    ),
    (
        6,
        "tidy grown 1 posted 1 split 0 merged 6\n",
        "sound height 7 pages 7 records 2\n",
    ),
    (
        7,
        "tidy grown 1 posted 1 split 0 merged 7\n",
        "sound height 8 pages 8 records 2\n",
    ),
    (
        8,
        "tidy grown 1 posted 1 split 0 merged 8\n",
        "sound height 9 pages 9 records 2\n",
    ),
    (
        9,
        "tidy grown 1 posted 1 split 0 merged 9\n",
        "sound height 10 pages 10 records 2\n",
    ),
    (
        10,
        "tidy grown 1 posted 1 split 0 merged 10\n",
        "sound height 11 pages 11 records 2\n",
    ),
    (
        11,
        "tidy grown 1 posted 1 split 0 merged 11\n",
        "sound height 12 pages 12 records 2\n",
    ),
    (12, NOTHING, "sound height 12 pages 24 records 2\n"),
];

/// Tidies a file of so many levels, tidies it again, which finds nothing, and looks whether it is sound.
fn tidied(alloc: Global, height: u8, said: &str, checked: &str) -> Result<MemDisk, Missed> {
    let disk = MemDisk::new(alloc, file_of(alloc, &meta_of(height))?);
    let disk = call(alloc, "tidy", "", said, disk)?;
    let disk = call(alloc, "tidy", "", NOTHING, disk)?;
    call(alloc, "check", "", checked, disk)
}

/// Tidies each of the files.
pub(crate) fn each_height_tidied(alloc: Global) -> Result<(), Missed> {
    for &(height, said, checked) in &TIDIED {
        match tidied(alloc, height, said, checked) {
            Ok(_) => (),
            Err(Missed::Call { call, .. }) => return Err(Missed::Tidied { call, height }),
            Err(other) => return Err(other),
        }
    }
    Ok(())
}
