//! Superblocks by hand: which of two is the newest, which bytes are none, and what crashes and faults leave.
//!
//! A superblock is spelled as what differs from `SUPER`, `PLACE=BYTE` for each such byte, or `zeros`.

ghost use Rattle.std.specs.Prelude.{◌≤◌};

use crate::replies::{PICKS, Reply};
use hb_disk::{Device, MemDisk, Pick};
use hb_layout::Meta;
use hb_super::{SuperStop, clear_hidden, read_super, write_super};
use std::alloc::Global;

// What a file of one attribute with 64 pages says when it is made.
const META: Meta = Meta {
    k: 1,
    pages: 64,
    log: 65536,
    dcap: 6,
    icap: 32,
    root: 1,
    height: 1,
    high: 1,
    live: 1,
    free: 0,
};

// That with turn 0, behind its gate.
const SUPER: [u8; 41] = [
    0xA5, 0x48, 0x42, 0x50, 0x49, 0x54, 0x52, 0x45, 0x45, 0x01, 0x00, 0x01, 0x01, 0x00, 0x00, 0x00,
    0x40, 0x00, 0x01, 0x00, 0x00, 0x00, 0x06, 0x00, 0x20, 0x00, 0x00, 0x00, 0x01, 0x00, 0x00, 0x00,
    0x01, 0x00, 0x00, 0x00, 0x01, 0x00, 0x00, 0x00, 0x00,
];

fn put_byte(bytes: &mut [u8; 41], at: u64, byte: u8) -> bool {
    if at < 41 {
        bytes[at as usize] = byte;
    }
    at < 41
}

fn super_of(reply: &mut Reply, text: &str) -> [u8; 41] {
    if text == "zeros" {
        return [0; 41];
    }
    let mut bytes = SUPER;
    for word in text.split_whitespace() {
        let (at, byte) = reply.parts(word, "=");
        let is_there = put_byte(&mut bytes, reply.read(at), reply.read_byte(byte));
        reply.need(is_there);
    }
    bytes
}

// The two places with these bytes, and zeros behind them.
fn places(alloc: Global, first: &[u8; 41], second: &[u8; 41]) -> Option<Vec<u8>> {
    let Ok(mut bytes) = vec![in alloc; 0; 8192] else {
        return None;
    };
    bytes[..41].copy_from_slice(first);
    bytes[4096..4137].copy_from_slice(second);
    Some(bytes)
}

// A disk of two places that fails at the calls of these numbers.
fn disk_of(reply: &mut Reply, first: &str, second: &str, failing: &str) -> MemDisk {
    let first = super_of(reply, first);
    let second = super_of(reply, second);
    let bytes = places(reply.alloc, &first, &second);
    reply.need(bytes.is_some());
    let failing = reply.read_all(failing);
    MemDisk::failing(reply.alloc, bytes.unwrap_or(Vec::new(reply.alloc)), failing)
}

// The newest turn. 7 where the disk is too small, 8 where there is none, and 9 where the disk fails.
fn turn_of<D: Device>(disk: &mut D) -> u64 {
    if disk.size() < 8192 {
        return 7;
    }
    match read_super(disk) {
        Ok((turn, _)) => u64::from(turn),
        Err(SuperStop::NoSuper) => 8,
        Err(SuperStop::DiskFault) => 9,
    }
}

/// The newest turn of two places: from `FIRST | SECOND` or `FIRST | SECOND | FAILING`.
pub(crate) fn newest(reply: &mut Reply, question: &str) {
    let (first, rest) = reply.parts(question, " | ");
    let (second, failing) = rest.split_once(" | ").unwrap_or((rest, ""));
    let mut disk = disk_of(reply, first, second, failing);
    reply.number(turn_of(&mut disk));
}

// Whether the superblock of a turn is written.
fn wrote<D: Device>(disk: &mut D, turn: u8) -> bool
    requires { turn ≤ 3 }
{
    disk.size() >= 8192 && write_super(disk, turn, &META).is_ok()
}

// The newest turn of an image of the disk, or `none`.
fn image(reply: &mut Reply, disk: &MemDisk, before: u64, pick: Pick) {
    match disk.image(before, pick) {
        Ok(Some(image)) => reply.number(turn_of(&mut MemDisk::new(reply.alloc, image))),
        _ => reply.say("none"),
    }
}

/// Whether turn 1 is written beside `SUPER`, and the newest turns of the images of a moment: from
/// `SECOND | FAILING | MOMENT`.
pub(crate) fn write(reply: &mut Reply, question: &str) {
    let (second, rest) = reply.parts(question, " | ");
    let (failing, before) = reply.parts(rest, " | ");
    let before = reply.read(before);
    let mut disk = disk_of(reply, "", second, failing);
    reply.truth(wrote(&mut disk, 1));
    for pick in PICKS {
        reply.say(" ");
        image(reply, &disk, before, pick);
    }
}

// Whether the place of turn 1 is made to hide nothing but what META says.
fn cleared<D: Device>(disk: &mut D) -> bool {
    disk.size() >= 8192 && clear_hidden(disk, 1, &META).is_ok()
}

// What became of the second place.
fn fate(place: &[u8; 41], after: Option<&[u8]>) -> &'static str {
    if after == Some(place.as_slice()) {
        "as it was"
    } else if after == Some([0; 41].as_slice()) {
        "zeros"
    } else {
        "some other bytes"
    }
}

/// Whether the second place is made to hide nothing, by how many calls, and what becomes of it: from `SECOND`.
pub(crate) fn clear(reply: &mut Reply, question: &str) {
    let mut disk = disk_of(reply, "", question, "");
    reply.truth(cleared(&mut disk));
    reply.say(" ");
    reply.number(disk.calls());
    reply.say(" ");
    let place = super_of(reply, question);
    reply.say(fate(&place, disk.bytes().get(4096..4137)));
}

pub(crate) const ROWS: &str = "
newest: 10=0 | 10=1 => 1
newest: 10=2 | 10=1 => 2
newest: 10=2 | 10=3 => 3
newest: 10=0 | 10=3 => 0
newest: 0=0 | 10=3 => 3
newest: 10=2 | 0=0 => 2
newest: 0=0 | 0=164 => 8
newest: 10=1 | 10=0 => 8
newest: 10=4 | 10=5 => 8
newest: zeros | 10=0 => 8
// a read fails
newest: 10=0 | 10=3 | 0 => 9
newest: 10=0 | 10=3 | 1 => 9
// bodies that are legal, or not
newest: 0=164 | zeros => 8
newest: 1=73 | zeros => 8
newest: 9=2 | zeros => 8
newest: 11=0 | zeros => 8
newest: 11=4 | zeros => 0
newest: 11=5 | zeros => 8
newest: 12=0 | zeros => 8
newest: 12=12 | zeros => 0
newest: 12=13 | zeros => 8
newest: 16=0 | zeros => 8
newest: 14=1 | zeros => 8
newest: 18=0 | zeros => 8
newest: 17=4 | zeros => 8
newest: 22=5 | zeros => 8
newest: 22=48 | zeros => 0
newest: 22=49 | zeros => 8
newest: 24=31 | zeros => 8
newest: 23=1 | zeros => 8
newest: 40=255 | zeros => 0
// over zeros
first:  => true 6 true true
// a write is stopped
write: 10=3 |  | 0 => true 0 0 0
write: 10=3 |  | 1 => true 0 0 0
write: 10=3 |  | 2 => true 0 0 0
write: 10=3 |  | 3 => true 0 0 0
write: 10=3 |  | 4 => true 0 0 0
write: 10=3 |  | 5 => true 0 1 1
write: 10=3 |  | 6 => true 1 1 1
// each call of a write fails
write: 10=3 | 0 | 1 => false 0 0 0
write: 10=3 | 1 | 2 => false 0 0 0
write: 10=3 | 2 | 3 => false 0 0 0
write: 10=3 | 3 | 4 => false 0 0 0
write: 10=3 | 4 | 5 => false 0 0 1
write: 10=3 | 5 | 6 => false 0 1 1
// the place has another body of turn 1, whose gate was never opened: a crash tears it open
write: 0=0 10=1 28=9 32=9 36=9 |  | 0 => true 0 0 0
write: 0=0 10=1 28=9 32=9 36=9 |  | 1 => true 0 0 1
write: 0=0 10=1 28=9 32=9 36=9 |  | 2 => true 0 0 0
write: 0=0 10=1 28=9 32=9 36=9 |  | 4 => true 0 0 0
write: 0=0 10=1 28=9 32=9 36=9 |  | 6 => true 1 1 1
// that body is cleared, and no other one
clear: 0=0 10=1 28=9 32=9 36=9 => true 3 zeros
clear: 0=0 10=1 => true 1 as it was
clear: 0=0 10=3 => true 1 as it was
clear: 10=1 28=9 32=9 36=9 => true 1 as it was
clear: zeros => true 1 as it was
";

// Whether the newest superblock is that of turn 0.
fn is_first<D: Device>(disk: &mut D) -> bool {
    disk.size() >= 8192 && read_super(disk) == Ok((0, META))
}

/// Whether turn 0 is written over zeros, by how many calls, whether it is `SUPER`, and whether it is read.
pub(crate) fn first(reply: &mut Reply) {
    let mut disk = disk_of(reply, "zeros", "zeros", "");
    reply.truth(wrote(&mut disk, 0));
    reply.say(" ");
    reply.number(disk.calls());
    reply.say(" ");
    reply.truth(disk.bytes().get(..41) == Some(SUPER.as_slice()));
    reply.say(" ");
    reply.truth(is_first(&mut disk));
}
