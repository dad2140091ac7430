//! Tables of rows. A row is `KIND: QUESTION => ANSWER`; a line that begins with `//` is a comment.

use crate::replies::Reply;
use crate::{disks, logs, numbers, streams, supers};
use std::alloc::Global;
use std::process::Abort;

fn answer(reply: &mut Reply, kind: &str, question: &str) {
    match kind {
        "source" => streams::source(reply, question),
        "sink" => streams::sink(reply, question),
        "reader" => streams::reader(reply, question),
        "slice" => streams::slice(reply, question),
        "writer" => streams::writer(reply, question),
        "vector" => streams::vector(reply),
        "give" => numbers::given(reply, question),
        "take" => numbers::taken(reply, question),
        "run" => disks::run(reply, question),
        "gate" => disks::gate(reply, question),
        "order" => disks::order(reply, question),
        "count" => disks::count(reply, question),
        "rot" => disks::rot(reply, question),
        "area" => logs::area(reply, question),
        "life" => logs::life(reply, question),
        "force" => logs::force(reply, question),
        "frame" => logs::frame(reply),
        "first" => supers::first(reply),
        "newest" => supers::newest(reply, question),
        "write" => supers::write(reply, question),
        "clear" => supers::clear(reply, question),
        _ => reply.need(false),
    }
}

// What is said of a row's question, and the answer that is wanted.
fn replied<'a>(reply: &mut Reply, row: &'a str) -> &'a str {
    let (asked, wanted) = reply.parts(row, " => ");
    let (kind, question) = reply.parts(asked, ": ");
    answer(reply, kind, question);
    wanted
}

// Asserts that a row's question has the row's answer.
fn expect(rt: &impl Abort, alloc: Global, row: &str) {
    let mut reply = Reply::new(alloc);
    let wanted = replied(&mut reply, row);
    assert!(rt; reply.is(wanted), "{row}: {}", reply.text());
}

// Asserts that each row's question has the row's answer.
fn expect_all(rt: &impl Abort, alloc: Global, rows: &str) {
    for row in rows.lines() {
        if !row.is_empty() && !row.starts_with("//") {
            expect(rt, alloc, row);
        }
    }
}

const TABLES: [&str; 7] = [
    streams::ROWS,
    numbers::ROWS,
    disks::ROWS,
    logs::AREAS,
    logs::LIFE,
    logs::FORCES,
    supers::ROWS,
];

#[test]
fn rows_are_answered(rt: HostRuntime) {
    for table in TABLES {
        expect_all(&rt, rt.alloc(), table);
    }
}
