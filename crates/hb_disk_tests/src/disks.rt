//! Calls over disks in memory, and the images that each moment leaves.

use crate::replies::{PICKS, Reply};
use hb_disk::{Device, Disk, MemDisk, Pick, RotDisk, write_behind_gate, write_in_order};
use std::alloc::Global;

// An image of a disk, or `none`.
fn image(reply: &mut Reply, disk: &MemDisk, before: u64, pick: Pick) {
    match disk.image(before, pick) {
        Ok(Some(image)) => reply.bytes(&image),
        Ok(None) => reply.say("none"),
        Err(_) => reply.need(false),
    }
}

fn images(reply: &mut Reply, disk: &MemDisk, before: u64) {
    for pick in PICKS {
        if !reply.text().is_empty() {
            reply.say(" ");
        }
        image(reply, disk, before, pick);
    }
}

fn writes<D: Device>(disk: &mut D, at: u64, from: &[u8]) -> bool {
    at < 6 && from.len() < 3 && disk.size() > 7 && disk.write(at, from).is_ok()
}

fn zeroes<D: Device>(disk: &mut D) -> bool {
    disk.size() > 0 && disk.zero(0, 1).is_ok()
}

fn reads<D: Device>(disk: &mut D) -> bool {
    let mut into = [0; 3];
    disk.size() > 6 && disk.read(4, &mut into).is_ok()
}

// Writes, syncs, writes, zeroes and reads: whether each succeeded.
fn five_calls<D: Device>(disk: &mut D) -> [bool; 5] {
    let wrote = writes(disk, 2, b"XY");
    let synced = disk.sync().is_ok();
    let wrote_more = writes(disk, 5, b"Z");
    let zeroed = zeroes(disk);
    [wrote, synced, wrote_more, zeroed, reads(disk)]
}

fn calls(reply: &mut Reply, disk: &mut MemDisk) {
    for is_done in five_calls(disk) {
        reply.say(if is_done { "y" } else { "n" });
    }
}

/// Which of five calls succeed, and the images of a moment: from `FAILING | MOMENT`, the numbers of the calls
/// that fail and the number of the call before which the moment lies.
pub(crate) fn run(reply: &mut Reply, question: &str) {
    let (failing, before) = reply.parts(question, " | ");
    let before = reply.read(before);
    let mut disk = reply.disk("abcdefgh", failing);
    calls(reply, &mut disk);
    images(reply, &disk, before);
}

// The disk on which `ab` was written behind a gate.
fn framed(alloc: Global) -> Option<MemDisk> {
    let mut disk = MemDisk::new(alloc, b"ijklmnop".to_vec(alloc).ok()?);
    match write_behind_gate(&mut disk, 1, b"ab") {
        Ok(()) => Some(disk),
        Err(_) => None,
    }
}

// The disk on which `ab` and then `cd` was written.
fn pieced(alloc: Global) -> Option<MemDisk> {
    let mut disk = MemDisk::new(alloc, b"ijklmnop".to_vec(alloc).ok()?);
    match write_in_order(&mut disk, 0, b"ab", 4, b"cd") {
        Ok(()) => Some(disk),
        Err(_) => None,
    }
}

fn images_of(reply: &mut Reply, disk: &Option<MemDisk>, before: &str) {
    let before = reply.read(before);
    match disk {
        Some(disk) => images(reply, disk, before),
        None => reply.need(false),
    }
}

/// The images of a moment while `ab` is written behind a gate.
pub(crate) fn gate(reply: &mut Reply, question: &str) {
    images_of(reply, &framed(reply.alloc), question);
}

/// The images of a moment while `ab` and then `cd` is written.
pub(crate) fn order(reply: &mut Reply, question: &str) {
    images_of(reply, &pieced(reply.alloc), question);
}

pub(crate) const ROWS: &str = "
run:  | 0 => yyyyy abcdefgh abcdefgh abcdefgh
run:  | 1 => yyyyy abcdefgh abXYefgh ab##efgh
run:  | 2 => yyyyy abXYefgh abXYefgh abXYefgh
run:  | 3 => yyyyy abXYefgh abXYeZgh abXYe#gh
run:  | 4 => yyyyy abXYefgh _bXYeZgh #bXYe#gh
run:  | 5 => yyyyy abXYefgh _bXYeZgh #bXYe#gh
run:  | 6 => yyyyy none none none
// a call of each kind fails
run: 0 | 5 => nyyyy abcdefgh _bcdeZgh #bcde#gh
run: 1 9 | 5 => ynyyy abcdefgh _bXYeZgh #b##e#gh
run: 2 | 5 => yynyy abXYefgh _bXYefgh #bXYe#gh
run: 3 2 | 5 => yynny abXYefgh abXYefgh #bXYe#gh
run: 4 | 5 => yyyyn abXYefgh _bXYeZgh #bXYe#gh
// a gate opens last
gate: 0 => ijklmnop ijklmnop ijklmnop
gate: 1 => ijklmnop ijabmnop ij##mnop
gate: 2 => ijabmnop ijabmnop ijabmnop
gate: 3 => ijabmnop i#abmnop i#abmnop
gate: 4 => i#abmnop i#abmnop i#abmnop
// the second piece waits for the first
order: 0 => ijklmnop ijklmnop ijklmnop
order: 1 => ijklmnop abklmnop ##klmnop
order: 2 => abklmnop abklmnop abklmnop
order: 3 => abklmnop abklcdop abkl##op
order: 4 => abklcdop abklcdop abklcdop
count: abcdefgh => 5 4 0 _bXYeZgh
rot: abcd => abcd;abXd;
";

/// The disk's counts of calls, of those that changed it and of those that memory was refused to, and its bytes, behind five calls:
/// from `BYTES`.
pub(crate) fn count(reply: &mut Reply, question: &str) {
    let mut disk = reply.disk(question, "");
    let _done = five_calls(&mut disk);
    for count in [disk.calls(), disk.clock(), disk.starved()] {
        reply.number(count);
        reply.say(" ");
    }
    reply.bytes(disk.bytes());
}

fn read_twice<D: Device>(disk: &mut D) -> Option<[[u8; 4]; 2]> {
    let mut first = [0; 4];
    let mut second = [0; 4];
    if disk.size() != 4 {
        return None;
    }
    disk.read(0, &mut first).ok()?;
    disk.read(0, &mut second).ok()?;
    Some([first, second])
}

/// What two reads give of four bytes, the third of which is `X` from the second read on: from `BYTES`.
pub(crate) fn rot(reply: &mut Reply, question: &str) {
    let mut disk = RotDisk {
        inner: reply.disk(question, ""),
        before: 1,
        at: 2,
        byte: b'X',
    };
    let reads = read_twice(&mut disk);
    reply.need(reads.is_some());
    for read in reads.unwrap_or([[0; 4]; 2]) {
        reply.bytes(&read);
        reply.say(";");
    }
}
