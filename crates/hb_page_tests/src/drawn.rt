//! Boxes and pages as text, in the form in which `spelled` reads them.

use crate::replies::Reply;
use hb_frag::{Frag, Leaf, LivePage, Node, Page};
use hb_space::{Area, Record};

fn say_span(reply: &mut Reply, lo: u64, hi: u64) {
    reply.marked(" ", lo);
    reply.say("..");
    if hi != u64::MAX {
        reply.number(hi);
    }
}

pub(crate) fn say_area(reply: &mut Reply, area: &Area) {
    for (lo, hi) in area.lo().values().iter().zip(area.hi().values()) {
        say_span(reply, *lo, *hi);
    }
}

pub(crate) fn say_record(reply: &mut Reply, record: &Record) {
    for value in record.key.values() {
        reply.number(*value);
        reply.say("=");
    }
    reply.letters(record.body.bytes());
}

fn say_records(reply: &mut Reply, records: &[Record]) {
    let mut mark = "";
    for record in records {
        reply.say(mark);
        say_record(reply, record);
        mark = ",";
    }
}

pub(crate) fn say_leaf(reply: &mut Reply, leaf: &Leaf) {
    match leaf {
        Leaf::Child(page) => reply.marked("^", u64::from(*page)),
        Leaf::Sibling(page) => reply.marked(">", u64::from(*page)),
        Leaf::Records(records) if records.as_slice().is_empty() => reply.say("-"),
        Leaf::Records(records) => say_records(reply, records.as_slice()),
    }
}

fn say_plane(reply: &mut Reply, axis: u8, value: u64) {
    reply.marked(" |", u64::from(axis));
    reply.marked(":", value);
    reply.say("| ");
}

pub(crate) fn say_frag(reply: &mut Reply, frag: &Frag) {
    match &frag.node {
        Node::Tip(leaf) => say_leaf(reply, leaf),
        Node::Cut {
            axis,
            value,
            left,
            right,
        } => {
            reply.say("( ");
            say_frag(reply, left);
            say_plane(reply, *axis, *value);
            say_frag(reply, right);
            reply.say(" )");
        }
    }
}

fn say_live(reply: &mut Reply, page: &LivePage) {
    reply.number(u64::from(page.level));
    say_area(reply, &page.area);
    reply.say(" : ");
    say_frag(reply, &page.frag);
}

/// A page as `LEVEL BOX : TREE`, or as `free NEXT`.
pub(crate) fn say_page(reply: &mut Reply, page: &Page) {
    match page {
        Page::Live(page) => say_live(reply, page),
        Page::Free { next } => reply.marked("free ", u64::from(*next)),
    }
}
