//! Bytes from text.
//!
//! A word is a byte, `COUNT*BYTE,BYTE` for some bytes many times, `@LENGTH` to cut the bytes off
//! there or fill them up with zeros, `PLACE:BYTE` to put another byte at a place, or a name.
//!
//! Of a tree it may be `ATTRIBUTE<COUNT`, cuts at COUNT, COUNT - 1 down to 1, each the left side of the one before;
//! `ATTRIBUTE>COUNT`, cuts at 1, 2 up to COUNT, each the right side of the one before, with an empty leaf of records as
//! their left sides; or `PAGE^COUNT`, as many child leaves, to PAGE, PAGE + 1 and on.

use crate::replies::Reply;
use hb_space::form::PAGE;

// What a name stands for.
fn named(word: &str) -> &str {
    match word {
        // the first page of a file with one attribute: of level 0, of the whole space, with no record
        "first" => "1 0 1 0 8*0 8*255 1 0 0",
        // the same with 452 records of point 0 with an empty body: 5 bytes are left behind them
        "full" => "1 0 1 0 8*0 8*255 1 1 196",
        // the deepest page: all its 4,096 bytes are taken. Of its 313 cuts each is the left side of the one before. The
        // deepest leaf is sibling 7, the last one from the left sibling 9, and 312 empty leaves of records are between
        "deep" => "1 0 1 0 8*0 8*255 0<313 3 0 0 0 7 312*1,0,0 3 0 0 0 9",
        // 312 such cuts, and 0 with the body `a` in the deepest leaf
        "pit" => "1 0 1 0 8*0 8*255 0<312 1 0 1 8*0 1 97 312*1,0,0",
        // of 313 cuts each is the right side of the one before, and the deepest leaf is sibling 9
        "slope" => "1 0 1 0 8*0 8*255 0>313 3 0 0 0 9",
        // the same over two to four attributes, which are cut one behind the other, as deep as there is room
        "deep2" => "1 0 2 0 16*0 16*255 0<156 1<155 3 0 0 0 7 310*1,0,0 3 0 0 0 9",
        "slope2" => "1 0 2 0 16*0 16*255 0>156 1>155 3 0 0 0 9",
        "deep3" => "1 0 3 0 24*0 24*255 0<104 1<103 2<103 3 0 0 0 7 309*1,0,0 3 0 0 0 9",
        "slope3" => "1 0 3 0 24*0 24*255 0>104 1>103 2>103 3 0 0 0 9",
        "deep4" => "1 0 4 0 32*0 32*255 0<78 1<77 2<77 3<77 3 0 0 0 7 308*1,0,0 3 0 0 0 9",
        "slope4" => "1 0 4 0 32*0 32*255 0>78 1>77 2>77 3>77 3 0 0 0 9",
        // children 1 to 256: sixteen rows of sixteen, cut at 1 to 15 in both attributes
        "grid" => {
            "1 1 2 0 16*0 16*255 0<15 1<15 1^16 1<15 17^16 1<15 33^16 1<15 49^16 1<15 65^16 1<15 81^16 1<15 97^16 1<15 113^16 1<15 129^16 1<15 145^16 1<15 161^16 1<15 177^16 1<15 193^16 1<15 209^16 1<15 225^16 1<15 241^16"
        }
        // the free page that ends its chain
        "page" => "2 4095*0",
        // the put of the point 5 with the body `a` into page 1, and no page image
        "put" => "0 1 0 0 0 1 7*0 5 1 97",
        // the delete of the point 5 from page 7, and no image
        "del" => "0 2 0 0 0 7 7*0 5",
        // the split of page 1: of the part on the right of its first cut, the records below 40 go to
        // page 2, and page 9 is the free head afterwards. No image
        "split" => "0 3 0 0 0 1 0 0 0 2 0 0 0 9 1 1 1 0 7*0 40 0",
        // the posting of page 2 over 0 to 39 at the left leaf of page 3, and no image
        "post" => "0 4 0 0 0 3 1 0 0 0 0 2 8*0 7*0 39",
        // the merge of page 2 into page 1 under page 3, and no image
        "merge" => "0 5 0 0 0 3 0 0 0 1 0 0 0 2",
        // the growth by page 3, with page 7 as the free head afterwards, and no image
        "grow" => "0 6 0 0 0 3 0 0 0 7",
        _ => word,
    }
}

fn add(reply: &mut Reply, bytes: &mut Vec<u8>, byte: u8) {
    let is_done = bytes.push(byte).is_ok();
    reply.need(is_done);
}

fn add_all(reply: &mut Reply, bytes: &mut Vec<u8>, more: &[u8]) {
    let is_done = bytes.extend_from_slice(more).is_ok();
    reply.need(is_done);
}

fn add_each(reply: &mut Reply, bytes: &mut Vec<u8>, items: &str) {
    for item in items.split(',') {
        add_word(reply, bytes, item);
    }
}

fn add_many(reply: &mut Reply, bytes: &mut Vec<u8>, count: &str, items: &str) {
    for _ in 0..reply.read_u32(count) {
        add_each(reply, bytes, items);
    }
}

fn put_byte(reply: &mut Reply, bytes: &mut [u8], at: &str, byte: &str) {
    let at = reply.read(at) as usize;
    if at >= bytes.len() {
        return reply.need(false);
    }
    bytes[at] = reply.read_u8(byte);
}

fn add_cut(reply: &mut Reply, bytes: &mut Vec<u8>, axis: u8, value: u64) {
    add_all(reply, bytes, &[0, axis]);
    add_all(reply, bytes, &value.to_be_bytes());
}

fn add_lefts(reply: &mut Reply, bytes: &mut Vec<u8>, axis: &str, count: &str) {
    let axis = reply.read_u8(axis);
    for value in (1..=reply.read(count)).rev() {
        add_cut(reply, bytes, axis, value);
    }
}

fn add_empty_leaf(reply: &mut Reply, bytes: &mut Vec<u8>) {
    add_all(reply, bytes, &[1, 0, 0]);
}

fn add_rights(reply: &mut Reply, bytes: &mut Vec<u8>, axis: &str, count: &str) {
    let axis = reply.read_u8(axis);
    for value in 1..=reply.read(count) {
        add_cut(reply, bytes, axis, value);
        add_empty_leaf(reply, bytes);
    }
}

fn add_child(reply: &mut Reply, bytes: &mut Vec<u8>, page: Option<u32>) {
    reply.need(page.is_some());
    add(reply, bytes, 2);
    add_all(reply, bytes, &page.unwrap_or(0).to_be_bytes());
}

fn add_children(reply: &mut Reply, bytes: &mut Vec<u8>, first: &str, count: &str) {
    let first = reply.read_u32(first);
    for place in 0..reply.read_u32(count) {
        add_child(reply, bytes, first.checked_add(place));
    }
}

fn add_word(reply: &mut Reply, bytes: &mut Vec<u8>, word: &str) {
    let byte = reply.read_u8(word);
    add(reply, bytes, byte);
}

fn add_nodes(reply: &mut Reply, bytes: &mut Vec<u8>, word: &str) {
    if let Some((axis, count)) = word.split_once('<') {
        return add_lefts(reply, bytes, axis, count);
    }
    if let Some((axis, count)) = word.split_once('>') {
        return add_rights(reply, bytes, axis, count);
    }
    match word.split_once('^') {
        Some((first, count)) => add_children(reply, bytes, first, count),
        None => add_word(reply, bytes, word),
    }
}

// Cuts the bytes off at a length, or fills them up with zeros.
fn fit(reply: &mut Reply, bytes: &mut Vec<u8>, length: usize) {
    let is_done = bytes.resize(length, 0).is_ok();
    reply.need(is_done);
}

fn add_items(reply: &mut Reply, bytes: &mut Vec<u8>, word: &str) {
    if let Some(length) = word.strip_prefix('@') {
        let length = reply.read(length) as usize;
        return fit(reply, bytes, length);
    }
    if let Some((at, byte)) = word.split_once(':') {
        return put_byte(reply, bytes, at, byte);
    }
    match word.split_once('*') {
        Some((count, items)) => add_many(reply, bytes, count, items),
        None => add_nodes(reply, bytes, word),
    }
}

fn add_words(reply: &mut Reply, bytes: &mut Vec<u8>, words: &str) {
    for word in words.split_whitespace() {
        add_items(reply, bytes, word);
    }
}

pub(crate) fn bytes_of(reply: &mut Reply, text: &str) -> Vec<u8> {
    let mut bytes = Vec::new(reply.alloc);
    for word in text.split_whitespace() {
        add_words(reply, &mut bytes, named(word));
    }
    bytes
}

/// The same with zeros behind them up to the length of a page.
pub(crate) fn page_bytes_of(reply: &mut Reply, text: &str) -> Vec<u8> {
    let mut bytes = bytes_of(reply, text);
    fit(reply, &mut bytes, PAGE);
    bytes
}
