//! The replies of a run: in the sequence of answering, and how often the plain set of `dry` gives each one to a generated text.

use crate::rows::Row;
use crate::runs::{Asked, Left, NO_TROUBLE, left_of};
use hb_set::{Answered, Reply};
use std::alloc::Global;
use std::sync::Wait;
use std::thread::Threads;

/// How many answers have each of the six replies.
fn tally(answered: &[Answered]) -> [usize; 6] {
    let mut counts = [0_usize; 6];
    for a in answered {
        let place = match &a.reply {
            Reply::Done => 0,
            Reply::Duplicate => 1,
            Reply::Absent => 2,
            Reply::Found(_) => 3,
            Reply::Missing => 4,
            Reply::Within(_) => 5,
            _ => continue,
        };
        counts[place] = counts[place].wrapping_add(1);
    }
    counts
}

/// What is run without a disk.
fn asked<'a>(words: &'a str, text: &'a str) -> Asked<'a> {
    Asked {
        words,
        text,
        trouble: NO_TROUBLE,
    }
}

/// The replies to what other words generate, by `WORDS | OTHER WORDS`.
pub(crate) fn tallied<R: Threads + Wait + Sync>(
    rt: &R,
    alloc: Global,
    row: &Row,
) -> Option<String> {
    let made = left_of(rt, alloc, &asked(row.text, ""), &[])?;
    let text = made.said.as_str().strip_prefix("0 ")?;
    let left = left_of(rt, alloc, &asked(row.words, text), &[])?;
    let [ok, duplicate, absent, found, none, within] = tally(left.answered.as_slice());
    format!(in alloc;
        "ok {ok} duplicate {duplicate} absent {absent} found {found} none {none} box {within}"
    ).ok()
}

/// The word of a reply.
fn word_of(reply: &Reply) -> &'static str {
    match reply {
        Reply::Done => "ok",
        Reply::Duplicate => "duplicate",
        Reply::Absent => "absent",
        Reply::Found(_) => "found",
        Reply::Missing => "none",
        Reply::Within(_) => "box",
        Reply::Full => "full",
        Reply::NoMemory => "no memory",
        Reply::ReadFault => "read fault",
    }
}

/// The lines that the first of these runs answered, with the word of each reply, in the sequence of answering.
pub(crate) fn replies_of(alloc: Global, lefts: &[Left]) -> Option<String> {
    let mut replies = String::new(alloc);
    let mut space = "";
    for one in &lefts.first()?.answered {
        write!(replies, "{space}{} {}", one.line, word_of(&one.reply)).ok()?;
        space = " ";
    }
    if replies.is_empty() {
        replies.push_str("none").ok()?;
    }
    Some(replies)
}
