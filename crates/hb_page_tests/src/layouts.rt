//! Where the parts of files stand, worked out by hand.

use crate::replies::Reply;
use hb_layout::{Meta, file_size, log_start, page_offset, slot_offset};

// A file of these pages, with log areas of so many bytes.
fn file_of(pages: u32, log: u32) -> Meta {
    Meta {
        k: 1,
        pages,
        log,
        dcap: 6,
        icap: 32,
        root: 1,
        height: 1,
        high: 1,
        live: 1,
        free: 0,
    }
}

fn say_offsets(reply: &mut Reply, file: &Meta) {
    if !file.is_layout() || file.pages < 1 {
        return reply.need(false);
    }
    reply.number(log_start(2, file));
    reply.marked(" ", log_start(3, file));
    reply.marked(" ", page_offset(file, 1));
    reply.marked(" ", page_offset(file, file.pages));
    reply.marked(" ", file_size(file));
}

/// Where the two log areas, the first page and the last one begin, and how long the file is: from `PAGES LOG`.
pub(crate) fn offsets(reply: &mut Reply, question: &str) {
    let (pages, log) = reply.parts(question, " ");
    let file = file_of(reply.read_u32(pages), reply.read_u32(log));
    say_offsets(reply, &file);
}

/// Where the superblock of a turn stands.
pub(crate) fn slot(reply: &mut Reply, question: &str) {
    let turn = reply.read_u8(question);
    reply.number(slot_offset(turn));
}

pub(crate) const ROWS: &str = "
offsets: 1 65536 => 8192 73728 139264 139264 143360
offsets: 64 65536 => 8192 73728 139264 397312 401408
offsets: 65536 67108864 => 8192 67117056 134225920 402657280 402661376
slot: 2 => 0
slot: 3 => 4096
";
