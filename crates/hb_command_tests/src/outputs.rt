//! Replies, lines that have none, and orders, as text, and where a sink fails. Where something is `None`, memory was refused.

use crate::rows::expect;
use hb_outside::MemSink;
use hb_set::Reply;
use hb_space::{Body, Point, Record, Records};
use hb_text::{put_left, put_order, put_reply};
use std::alloc::Global;

/// A number that no call has.
const NEVER: u64 = u64::MAX;

/// A sink that fails at the call of this number.
fn sink_of(alloc: Global, failing: u64) -> Option<MemSink> {
    Some(MemSink::new(alloc, [failing].to_vec(alloc).ok()?))
}

/// The reply to a search with two records.
fn found_box(alloc: Global) -> Option<Reply> {
    let mut records = Vec::new(alloc);
    let key = Point::new(&[1, u64::MAX]);
    let body = Body::new(b"x");
    records.push(Record { key, body }).ok()?;
    let key = Point::new(&[2, 0]);
    let body = Body::new(b"");
    records.push(Record { key, body }).ok()?;
    Some(Reply::Within(Records::new(records)))
}

/// A reply by a word.
fn reply_of(alloc: Global, word: &str) -> Option<Reply> {
    match word {
        "done" => Some(Reply::Done),
        "duplicate" => Some(Reply::Duplicate),
        "absent" => Some(Reply::Absent),
        "found" => Some(Reply::Found(Body::new(b"ab"))),
        "empty" => Some(Reply::Found(Body::new(b""))),
        "missing" => Some(Reply::Missing),
        "none" => Some(Reply::Within(Records::new(Vec::new(alloc)))),
        "two" => found_box(alloc),
        "full" => Some(Reply::Full),
        "memory" => Some(Reply::NoMemory),
        "fault" => Some(Reply::ReadFault),
        _ => None,
    }
}

/// The reply to line 7, the call of the sink that fails, what the sink has, and whether all was put.
const REPLIES: [(&str, u64, &str, bool); 14] = [
    ("done", NEVER, "7 ok\n", true),
    ("duplicate", NEVER, "7 duplicate\n", true),
    ("absent", NEVER, "7 absent\n", true),
    ("found", NEVER, "7 found =ab\n", true),
    ("empty", NEVER, "7 found =\n", true),
    ("missing", NEVER, "7 none\n", true),
    ("none", NEVER, "7 box 0\n", true),
    (
        "two",
        NEVER,
        "7 box 2\n+ 1 18446744073709551615 =x\n+ 2 0 =\n",
        true,
    ),
    ("full", NEVER, "7 full\n", true),
    ("memory", NEVER, "7 no memory\n", true),
    ("fault", NEVER, "7 read fault\n", true),
    ("two", 0, "", false),
    ("two", 1, "7 box 2\n", false),
    ("two", 2, "7 box 2\n+ 1 18446744073709551615 =x\n", false),
];

/// Whether a reply is put so.
fn says_reply(alloc: Global, word: &str, failing: u64, want: &str, whole: bool) -> Option<bool> {
    let reply = reply_of(alloc, word)?;
    let mut sink = sink_of(alloc, failing)?;
    let put = put_reply(&mut sink, 7, &reply);
    Some(put.is_ok() == whole && sink.bytes() == want.as_bytes())
}

#[test]
fn replies(rt: HostRuntime) {
    for (place, &(word, failing, want, whole)) in REPLIES.iter().enumerate() {
        let right = says_reply(rt.alloc(), word, failing, want, whole);
        expect(&rt, place, right == Some(true));
    }
}

/// A body, and what is printed of it. Only those without a byte outside 33 to 126 can come from a command.
const BODIES: [(&[u8], &str); 16] = [
    (b"", "="),
    (b"=", "=="),
    (b"%41", "=%41"),
    (b"!~", "=!~"),
    (b" ", "%20"),
    (b"\n", "%0a"),
    (&[0], "%00"),
    (&[127], "%7f"),
    (&[128], "%80"),
    (&[255], "%ff"),
    (b"\nA", "%0a41"),
    (b"a b", "%612062"),
    (b"a\n", "%610a"),
    (&[9, 144, 154, 169], "%09909aa9"),
    (b"x\n2 ok\norder 2", "%780a32206f6b0a6f726465722032"),
    (
        &[255; 32],
        "%ffffffffffffffffffffffffffffffffffffffffffffffffffffffffffffffff",
    ),
];

/// The reply to a search with one record, which has this body.
fn box_with(alloc: Global, body: Body) -> Option<Reply> {
    let mut records = Vec::new(alloc);
    let key = Point::new(&[5]);
    records.push(Record { key, body }).ok()?;
    Some(Reply::Within(Records::new(records)))
}

/// Whether a body is put so, under a lookup and under a search, and each line in one put.
fn says_body(alloc: Global, bytes: &[u8], want: &str) -> Option<bool> {
    if bytes.len() > 32 {
        return None;
    }
    let mut sink = sink_of(alloc, NEVER)?;
    put_reply(&mut sink, 7, &Reply::Found(Body::new(bytes))).ok()?;
    put_reply(&mut sink, 8, &box_with(alloc, Body::new(bytes))?).ok()?;
    let text = format!(in alloc; "7 found {want}\n8 box 1\n+ 5 {want}\n").ok()?;
    Some(sink.bytes() == text.as_bytes() && sink.calls_made() == 3)
}

#[test]
fn bodies(rt: HostRuntime) {
    for (place, &(bytes, want)) in BODIES.iter().enumerate() {
        expect(&rt, place, says_body(rt.alloc(), bytes, want) == Some(true));
    }
}

/// The lines of an order, how many of them are settled, and its text.
const ORDERS: [(&[u32], u32, &str); 6] = [
    (&[], 0, "order\n"),
    (&[], 9, "order\n"),
    (&[1, 2, 3], 3, "order 1 2 3\n"),
    (&[1, 2, 3], 9, "order 1 2 3\n"),
    (&[1, 2], 0, "order | 1 2\n"),
    (&[1, 2], 1, "order 1 | 2\n"),
];

/// Whether an order is put so.
fn says_order(alloc: Global, order: &[u32], settled: u32, want: &str) -> Option<bool> {
    let mut sink = sink_of(alloc, NEVER)?;
    put_order(&mut sink, order, settled).ok()?;
    Some(sink.bytes() == want.as_bytes())
}

#[test]
fn orders(rt: HostRuntime) {
    for (place, &(order, settled, want)) in ORDERS.iter().enumerate() {
        let right = says_order(rt.alloc(), order, settled, want);
        expect(&rt, place, right == Some(true));
    }
}

/// How many bytes the order of forty numbers of ten digits has, and in how many puts.
fn length_of_forty(alloc: Global) -> Option<(usize, u64)> {
    let mut sink = sink_of(alloc, NEVER)?;
    put_order(&mut sink, &[4_000_000_000; 40], 40).ok()?;
    Some((sink.bytes().len(), sink.calls_made()))
}

// Fifteen numbers of ten digits fill a put, so forty take three.
#[test]
fn long_order(rt: HostRuntime) {
    expect(&rt, 0, length_of_forty(rt.alloc()) == Some((446, 3)));
}

/// Whether this is said of two lines that have no reply.
fn says_left(alloc: Global, want: &[u8]) -> Option<bool> {
    let mut sink = sink_of(alloc, NEVER)?;
    put_left(&mut sink, 3, true).ok()?;
    put_left(&mut sink, u32::MAX, false).ok()?;
    Some(sink.bytes() == want)
}

#[test]
fn left_lines(rt: HostRuntime) {
    let want = b"3 unanswered\n4294967295 unfinished\n";
    expect(&rt, 0, says_left(rt.alloc(), want) == Some(true));
}
