//! Numbers as bytes, and back.

use crate::replies::Reply;
use hb_outside::{give_u16, give_u32, give_u64, take_u8, take_u16, take_u32, take_u64};

// Writes the number in so many bytes at place 1.
fn give(reply: &mut Reply, into: &mut [u8; 10], width: &str, n: u64) {
    match width {
        "2" if n < 1 << 16 => give_u16(into, 1, n as u16),
        "4" if n < 1 << 32 => give_u32(into, 1, n as u32),
        "8" => give_u64(into, 1, n),
        _ => reply.need(false),
    }
}

/// Ten bytes that were 9 before the number was given at place 1: from `WIDTH NUMBER`.
pub(crate) fn given(reply: &mut Reply, question: &str) {
    let (width, n) = reply.parts(question, " ");
    let n = reply.read(n);
    let mut bytes = [9; 10];
    give(reply, &mut bytes, width, n);
    let mut mark = "";
    for byte in bytes {
        reply.say(mark);
        reply.number(u64::from(byte));
        mark = " ";
    }
}

fn take(reply: &mut Reply, bytes: &[u8], width: &str, at: usize) -> Option<u64> {
    match width {
        "1" => take_u8(bytes, at).map(|n| u64::from(n)),
        "2" => take_u16(bytes, at).map(|n| u64::from(n)),
        "4" => take_u32(bytes, at).map(|n| u64::from(n)),
        _ => {
            reply.need(width == "8");
            take_u64(bytes, at)
        }
    }
}

// Bytes from text, with a blank between them.
fn words_of(reply: &mut Reply, text: &str) -> Vec<u8> {
    let mut bytes = Vec::new(reply.alloc);
    for word in text.split_whitespace() {
        let is_done = bytes.push(reply.read_byte(word)).is_ok();
        reply.need(is_done);
    }
    bytes
}

/// The number that is taken: from `WIDTH PLACE | BYTES`.
pub(crate) fn taken(reply: &mut Reply, question: &str) {
    let (asked, bytes) = reply.parts(question, " | ");
    let (width, at) = reply.parts(asked, " ");
    let at = reply.read(at) as usize;
    let bytes = words_of(reply, bytes);
    match take(reply, &bytes, width, at) {
        Some(n) => reply.number(n),
        None => reply.say("none"),
    }
}

pub(crate) const ROWS: &str = "
give: 2 0 => 9 0 0 9 9 9 9 9 9 9
give: 2 1 => 9 0 1 9 9 9 9 9 9 9
give: 2 255 => 9 0 255 9 9 9 9 9 9 9
give: 2 256 => 9 1 0 9 9 9 9 9 9 9
give: 2 4660 => 9 18 52 9 9 9 9 9 9 9
give: 2 65535 => 9 255 255 9 9 9 9 9 9 9
give: 4 0 => 9 0 0 0 0 9 9 9 9 9
give: 4 1 => 9 0 0 0 1 9 9 9 9 9
give: 4 255 => 9 0 0 0 255 9 9 9 9 9
give: 4 256 => 9 0 0 1 0 9 9 9 9 9
give: 4 305419896 => 9 18 52 86 120 9 9 9 9 9
give: 4 4294967295 => 9 255 255 255 255 9 9 9 9 9
give: 8 0 => 9 0 0 0 0 0 0 0 0 9
give: 8 1 => 9 0 0 0 0 0 0 0 1 9
give: 8 255 => 9 0 0 0 0 0 0 0 255 9
give: 8 256 => 9 0 0 0 0 0 0 1 0 9
give: 8 72623859790382856 => 9 1 2 3 4 5 6 7 8 9
give: 8 18446744073709551615 => 9 255 255 255 255 255 255 255 255 9
take: 1 1 | 7 8 => 8
take: 1 2 | 7 8 => none
take: 1 18446744073709551615 | 7 8 => none
take: 2 1 | 9 0 255 9 => 255
take: 2 1 | 9 1 0 9 => 256
take: 2 1 | 9 18 52 9 => 4660
take: 2 0 | 255 255 => 65535
take: 2 3 | 9 18 52 9 => none
take: 2 18446744073709551615 | 9 18 52 9 => none
take: 4 0 | 0 0 1 0 9 => 256
take: 4 1 | 9 18 52 86 120 => 305419896
take: 4 0 | 255 255 255 255 9 => 4294967295
take: 4 2 | 18 52 86 120 9 => none
take: 4 18446744073709551615 | 18 52 86 120 9 => none
take: 8 1 | 9 0 0 0 0 0 0 1 0 => 256
take: 8 1 | 9 1 2 3 4 5 6 7 8 => 72623859790382856
take: 8 0 | 255 255 255 255 255 255 255 255 => 18446744073709551615
take: 8 2 | 9 1 2 3 4 5 6 7 8 => none
take: 8 18446744073709551615 | 9 1 2 3 4 5 6 7 8 => none
";
