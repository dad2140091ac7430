//! The longest texts that `gen` puts.

use crate::calls::{run_words, zeros};
use crate::missed::Missed;
use hb_disk::MemDisk;
use std::alloc::Global;

/// The words for one of each number of attributes, how many bytes it has, and a sum of them in which each one's place counts, by a
/// plain program.
const LONGEST: [(&str, usize, u64); 4] = [
    ("gen 1 1000000 1", 18_008_604, 2_367_255_773_196_607_274),
    ("gen 1 1000000 2", 22_305_326, 13_568_614_866_608_198_008),
    ("gen 1 1000000 3", 26_579_153, 14_911_225_382_031_411_472),
    ("gen 1 1000000 4", 30_868_509, 15_640_263_640_816_413_717),
];

/// Runs the program over the disk, whose output has to have so many bytes and this sum.
pub(crate) fn is_put(
    alloc: Global,
    call: &'static str,
    bytes: usize,
    sum: u64,
    disk: MemDisk,
) -> Result<MemDisk, Missed> {
    let finished = run_words(alloc, call, "", disk)?;
    let text = finished.sink.bytes();
    let mut found: u64 = 0;
    for byte in text {
        found = found.wrapping_mul(31).wrapping_add(u64::from(*byte));
    }
    let status = finished.status.code();
    if status == 0 && text.len() == bytes && found == sum {
        return Ok(finished.disk);
    }
    Err(Missed::Call {
        call,
        status,
        from: text.len(),
    })
}

/// Puts each.
pub(crate) fn longest_texts(alloc: Global) -> Result<(), Missed> {
    for (call, bytes, sum) in LONGEST {
        is_put(alloc, call, bytes, sum, zeros(alloc, 0)?)?;
    }
    Ok(())
}
