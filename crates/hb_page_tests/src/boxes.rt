//! Which points a box holds, how two boxes lie, and what they have in common; boxes that are cut, and what of
//! one lies outside another; points, bodies and records that are kept.

ghost use Rattle.std.specs.Prelude.{◌≡◌, IsTrue, length};

use crate::drawn::{say_area, say_record};
use crate::replies::Reply;
use crate::spelled::{area_of, between as box_between, point_from};
use hb_space::form::KMAX;
use hb_space::{Area, Body, Point, Record, Records};
use std::alloc::Global;

fn say_box(reply: &mut Reply, area: &Area) {
    reply.say("box");
    say_area(reply, area);
}

/// The whole space, copied: from `ATTRIBUTES`.
pub(crate) fn whole(reply: &mut Reply, question: &str) {
    let k = reply.read_u8(question);
    if k < 1 || KMAX < usize::from(k) {
        return reply.need(false);
    }
    match Area::whole(k).clone() {
        Ok(area) => say_box(reply, &area),
        Err(_) => reply.need(false),
    }
}

/// The box of a point: from `POINT`.
pub(crate) fn alone(reply: &mut Reply, question: &str) {
    let point = point_from(reply, question);
    say_box(reply, &Area::of_point(&point));
}

fn say_between(reply: &mut Reply, lo: Point, hi: Point) {
    reply.need(lo.attributes() == hi.attributes());
    reply.truth(box_between(lo, hi).is_some());
}

/// Whether there is a box between two corners: from `POINT | POINT`.
pub(crate) fn between(reply: &mut Reply, question: &str) {
    let (lo, hi) = reply.parts(question, " | ");
    let lo = point_from(reply, lo);
    let hi = point_from(reply, hi);
    say_between(reply, lo, hi);
}

fn say_held(reply: &mut Reply, area: &Area, point: &Point) {
    if area.lo().attributes() != point.attributes() {
        return reply.need(false);
    }
    reply.truth(area.holds(point));
}

/// Whether a box holds a point: from `BOX | POINT`.
pub(crate) fn holds(reply: &mut Reply, question: &str) {
    let (area, point) = reply.parts(question, " | ");
    let area = area_of(reply, area);
    let point = point_from(reply, point);
    say_held(reply, &area, &point);
}

fn two_of(reply: &mut Reply, text: &str) -> (Area, Area) {
    let (first, second) = reply.parts(text, " | ");
    (area_of(reply, first), area_of(reply, second))
}

// Whether two boxes have as many attributes, which they have to.
fn are_alike(reply: &mut Reply, first: &Area, second: &Area) -> bool
    ensures { IsTrue result → length first.now.lo ≡ length second.now.lo }
{
    let are_alike = first.lo().attributes() == second.lo().attributes();
    reply.need(are_alike);
    are_alike
}

fn say_how_they_lie(reply: &mut Reply, first: &Area, second: &Area) {
    if are_alike(reply, first, second) {
        reply.truth(first.meets(second));
        reply.say(" ");
        reply.truth(second.meets(first));
        reply.say(" ");
        reply.truth(first.within(second));
    }
}

/// Whether two boxes meet, the second and the first, and whether the first lies within the second: from `BOX | BOX`.
pub(crate) fn lie(reply: &mut Reply, question: &str) {
    let (first, second) = two_of(reply, question);
    say_how_they_lie(reply, &first, &second);
}

fn say_common(reply: &mut Reply, first: &Area, second: &Area) {
    if are_alike(reply, first, second) {
        match first.common(second) {
            Some(area) => say_box(reply, &area),
            None => reply.say("none"),
        }
    }
}

/// What two boxes have in common: from `BOX | BOX`.
pub(crate) fn common(reply: &mut Reply, question: &str) {
    let (first, second) = two_of(reply, question);
    say_common(reply, &first, &second);
}

fn say_sides(reply: &mut Reply, area: &Area, axis: u8, value: u64) {
    if !area.cuts(axis, value) {
        return reply.say("none");
    }
    let (below, from) = area.cut(axis, value);
    say_box(reply, &below);
    reply.say(" ");
    say_box(reply, &from);
}

/// The two sides of a plane in a box: from `BOX | ATTRIBUTE VALUE`.
pub(crate) fn cut(reply: &mut Reply, question: &str) {
    let (area, plane) = reply.parts(question, " | ");
    let (axis, value) = reply.parts(plane, " ");
    let (axis, value) = (reply.read_u8(axis), reply.read(value));
    let area = area_of(reply, area);
    say_sides(reply, &area, axis, value);
}

fn say_boxes(reply: &mut Reply, pieces: &[Area]) {
    reply.say("boxes");
    for piece in pieces {
        reply.say(" :");
        say_area(reply, piece);
    }
}

fn say_outside(reply: &mut Reply, first: &Area, second: &Area) {
    if are_alike(reply, first, second) {
        match first.outside(reply.alloc, second) {
            Ok(pieces) => say_boxes(reply, pieces.as_slice()),
            Err(_) => reply.need(false),
        }
    }
}

/// What of a box lies outside another: from `BOX | BOX`.
pub(crate) fn outside(reply: &mut Reply, question: &str) {
    let (first, second) = two_of(reply, question);
    say_outside(reply, &first, &second);
}

pub(crate) const ROWS: &str = "
whole: 1 => box 0..
whole: 4 => box 0.. 0.. 0.. 0..
alone: 3 18446744073709551615 => box 3..3 18446744073709551615..
between: 1 5 | 2 4 => false
between: 1 4 | 2 4 => true
// one attribute
holds: 0.. | 0 => true
holds: 0.. | 18446744073709551615 => true
holds: 18446744073709551615.. | 18446744073709551615 => true
holds: 18446744073709551615.. | 18446744073709551614 => false
// two
holds: 1..3 2..4 | 3 4 => true
holds: 1..3 2..4 | 1 2 => true
holds: 1..3 2..4 | 3 5 => false
holds: 1..3 2..4 | 0 3 => false
// three and four
holds: 0..9 0.. 7..7 | 5 5 7 => true
holds: 0..9 0.. 7..7 | 5 5 8 => false
holds: 1..2 1..2 1..2 1..2 | 1 2 1 2 => true
holds: 1..2 1..2 1..2 1..2 | 1 2 1 3 => false
// boxes and boxes
lie: 0..4 | 0.. => true true true
lie: 0..4 | 4.. => true true false
lie: 0..4 | 5.. => false false false
lie: 1..3 1..3 | 3..9 4..9 => false false false
lie: 1..3 1..3 | 1..4 0..3 => true true true
lie: 1..3 1..3 | 1..4 2..3 => true true false
common: 0..3 0..9 | 2..7 4..5 => box 2..3 4..5
common: 0..3 0..9 | 4..7 4..5 => none
// planes above the least value, in no attribute, and at the greatest value
cut: 0.. 0.. | 0 0 => none
cut: 0.. 0.. | 2 1 => none
cut: 0.. 0.. | 0 1 => box 0..0 0.. box 1.. 0..
cut: 0.. 0.. | 1 18446744073709551615 => box 0.. 0..18446744073709551614 box 0.. 18446744073709551615..
// what is left outside: below and above, all, nothing
outside: 2..9 | 4..6 => boxes : 2..3 : 7..9
outside: 2..3 | 5..6 => boxes : 2..3
outside: 2..3 | 0.. => boxes
outside: 0..9 0..9 | 3..5 4..20 => boxes : 0..2 0..9 : 6..9 0..9 : 3..5 0..3
outside: 0.. 0.. | 1..1 0.. => boxes : 0..0 0.. : 2.. 0..
copied: 7 8 9 => 3 7=8=9=ab 3 7=8=9=ab 2
";

// A record, its point and its body, each twice.
fn copies(alloc: Global, record: &Record) -> Option<Records> {
    let key = record.key.clone().ok()?;
    let body = record.body.clone().ok()?;
    let mut records = Vec::new(alloc);
    records.push(record.copy()).ok()?;
    records.push(Record { key, body }).ok()?;
    Some(Records::new(records))
}

fn say_kept(reply: &mut Reply, records: &Records) {
    for record in records.as_slice() {
        reply.number(u64::from(record.key.attributes()));
        reply.say(" ");
        say_record(reply, record);
        reply.say(" ");
    }
}

/// A record of this point with the body `ab`, copied: how many attributes it has, and itself, twice; and how many records there
/// are then.
pub(crate) fn copied(reply: &mut Reply, question: &str) {
    let record = Record {
        key: point_from(reply, question),
        body: Body::new(b"ab"),
    };
    match copies(reply.alloc, &record) {
        Some(records) => {
            say_kept(reply, &records);
            reply.number(records.into_vec().len() as u64);
        }
        None => reply.need(false),
    }
}
