//! The whole program over one to four attributes: a file that grows to three levels, and searches.

use crate::calls::{Script, call, drive, zeros};
use crate::missed::Missed;
use hb_disk::MemDisk;
use std::alloc::Global;

/// How many records are put in.
const COUNT: u64 = 1900;

/// A file of 2,048 pages, each of six records or 256 children. A log area has room for all changes.
const SIZE: usize = 8192 + 2 * 16_777_216 + 2048 * 4096;

/// The words that make such a file.
fn words(k: u8) -> &'static str {
    match k {
        1 => "create 1 2048 16777216 6 256",
        2 => "create 2 2048 16777216 6 256",
        3 => "create 3 2048 16777216 6 256",
        _ => "create 4 2048 16777216 6 256",
    }
}

fn dry(k: u8) -> &'static str {
    match k {
        1 => "dry 1",
        2 => "dry 2",
        3 => "dry 3",
        _ => "dry 4",
    }
}

/// Puts the values of a number's point. The first values of different ones differ.
fn put_point(text: &mut String, k: u8, number: u64) -> Result<(), Missed> {
    for factor in [1, 331, 17, 1577].into_iter().take(usize::from(k)) {
        write!(text, " {}", number.wrapping_mul(factor) % 1901)?;
    }
    Ok(())
}

/// Inserts all records.
fn inserts(alloc: Global, k: u8) -> Result<Script, Missed> {
    let mut script = Script::new(alloc)?;
    for number in 0..COUNT {
        let line = script.next_line()?;
        write!(script.text, "1 insert")?;
        put_point(&mut script.text, k, number)?;
        write!(script.text, " ={number}\n")?;
        write!(script.output, "{line} ok\n")?;
    }
    Ok(script)
}

/// Looks up all records.
fn lookups(alloc: Global, k: u8) -> Result<Script, Missed> {
    let mut script = Script::new(alloc)?;
    for number in 0..COUNT {
        let line = script.next_line()?;
        write!(script.text, "1 lookup")?;
        put_point(&mut script.text, k, number)?;
        write!(script.text, "\n")?;
        write!(script.output, "{line} found ={number}\n")?;
    }
    Ok(script)
}

/// The height of a file. It stands at place 12 of a superblock, and the last opening wrote the one that says more.
fn height_of(disk: &MemDisk) -> u64 {
    let heights = [disk.bytes().get(12), disk.bytes().get(4096 + 12)];
    let [one, other] = heights.map(|height| height.map_or(0, |height| u64::from(*height)));
    one.max(other)
}

/// Fills a file, with steps enough for the poster to post each split, and looks all records up. As six records at most have
/// room in a page and 256 children in one above, there are three levels. Where all is posted a walk passes one page of each
/// level, so a lookup takes two steps and one for each level. In the first run another session looks a record up at the end, which
/// forces what was posted last: its place is behind that.
fn grows(alloc: Global, k: u8) -> Result<(), Missed> {
    let disk = call(alloc, words(k), "", "created\n", zeros(alloc, SIZE)?)?;
    let mut script = inserts(alloc, k)?;
    let line = script.next_line()?;
    write!(script.text, "2 lookup")?;
    put_point(&mut script.text, k, 0)?;
    write!(script.text, "\n")?;
    write!(script.output, "{line} found =0\n")?;
    for _ in 0..COUNT {
        write!(script.text, "step 1x8 px40\n")?;
    }
    script.end("step 1x8000 2x8\n")?;
    let disk = drive(alloc, &script, disk)?;
    let disk = call(alloc, "drive", "", "order\n", disk)?;
    if height_of(&disk) < 3 {
        return Err(Missed::Otherwise {
            call: "height",
            attributes: k,
            level: 3,
            count: 1900,
        });
    }
    let mut script = lookups(alloc, k)?;
    let steps = height_of(&disk).saturating_add(2).saturating_mul(COUNT);
    script.end(format!(in alloc; "step 1x{steps}\n")?.as_str())?;
    drive(alloc, &script, disk)?;
    Ok(())
}

/// Puts the same records in a set, and searches a part of the space: the records whose first value is at most 99.
fn searches(alloc: Global, k: u8) -> Result<(), Missed> {
    let mut script = inserts(alloc, k)?;
    let line = script.next_line()?;
    write!(script.text, "1 search 0 99")?;
    for _ in 1..k {
        write!(script.text, " 0 1900")?;
    }
    write!(script.text, "\n")?;
    write!(script.output, "{line} box 100\n")?;
    for number in 0..100u64 {
        write!(script.output, "+")?;
        put_point(&mut script.output, k, number)?;
        write!(script.output, " ={number}\n")?;
    }
    script.end("")?;
    let (text, output) = (script.text.as_str(), script.output.as_str());
    call(alloc, dry(k), text, output, zeros(alloc, 0)?)?;
    Ok(())
}

/// Each number of attributes.
pub(crate) fn all_spaces(alloc: Global) -> Result<(), Missed> {
    for k in 1..=4 {
        grows(alloc, k)?;
        searches(alloc, k)?;
    }
    Ok(())
}
