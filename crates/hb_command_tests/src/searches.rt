//! Searches by hand, over a page with two holes and the two pages that have those: which records are found, and by how
//! many steps at a page. Pages are given as such, and as their bytes: both come to the same.

ghost use Rattle.std.specs.Prelude.{IsTrue, IfSome};
ghost use Rattle.hb_layout.specs.Limits.{IsLayout};
ghost use Rattle.hb_ops.specs.Sound.{FitsFile};
ghost use Rattle.hb_search.specs.Searching.{MaySearch, MaySearchIn, StaysGathering};
ghost use Rattle.hb_view.specs.Views.{IsLiveAnd};

use crate::deciders::{fits, is_inside};
use crate::rows::expect;
use crate::spelled::{bytes_of, fits_file, has_point};
use crate::texts::Text;
use hb_activity::{Activity, Latched, Next};
use hb_frag::{Frag, Leaf, LivePage};
use hb_ops::Meta;
use hb_set::{Command, Line, Reply};
use hb_space::{Area, Areas, Body, Point, Record, Records};
use hb_view::PageView;
use std::alloc::Global;

// The greatest value.
const M: u64 = u64::MAX;

// The records of page 1, whose leaf has what is below 50 in the first attribute and below 31 in the last one; those of page 7,
// which has what is from 50 on in the first attribute; and those of page 8, which has the rest. With four attributes page 8 has no
// records. Each is written as its first value and each further one.
const CORNER: [(u64, u64); 4] = [(5, 5), (25, 12), (30, 9), (40, 20)];

const BEHIND: [(u64, u64); 4] = [(50, 0), (60, 11), (65, 85), (M, M)];

const ABOVE: [(u64, u64); 3] = [(10, 50), (20, 31), (49, M)];

// With one attribute page 1 has what is below 31, and page 8 what is from there on below 50.
const CORNER_OF_ONE: [(u64, u64); 3] = [(5, 0), (25, 0), (30, 0)];

const ABOVE_OF_ONE: [(u64, u64); 2] = [(31, 0), (49, 0)];

/// The number of attributes, the least and the greatest values of a box, and what comes: the steps, and the records in their
/// order. `M` is the greatest value.
const ROWS: [(u8, [u64; 4], [u64; 4], &str); 17] = [
    // one point, which is there or isn't
    (1, [25, 0, 0, 0], [25, 0, 0, 0], "1: 25"),
    (1, [26, 0, 0, 0], [26, 0, 0, 0], "1:"),
    // the whole space, and a box that meets all three pages
    (1, [0, 0, 0, 0], [M, 0, 0, 0], "5: 5 25 30 31 49 50 60 65 M"),
    (1, [10, 0, 0, 0], [60, 0, 0, 0], "5: 25 30 31 49 50 60"),
    // a box in a hole
    (1, [60, 0, 0, 0], [70, 0, 0, 0], "2: 60 65"),
    (
        2,
        [20, 10, 0, 0],
        [99, 99, 0, 0],
        "5: 20.31 25.12 40.20 60.11 65.85",
    ),
    (
        2,
        [0, 0, 0, 0],
        [M, M, 0, 0],
        "5: 5.5 10.50 20.31 25.12 30.9 40.20 49.M 50.0 60.11 65.85 M.M",
    ),
    // the least and the greatest point, and a box of which one corner alone has a record
    (2, [M, M, 0, 0], [M, M, 0, 0], "2: M.M"),
    (2, [0, 0, 0, 0], [0, 0, 0, 0], "1:"),
    (2, [40, 20, 0, 0], [50, 31, 0, 0], "5: 40.20"),
    // three and four attributes
    (
        3,
        [20, 0, 10, 0],
        [99, M, 99, 0],
        "5: 20.31.31 25.12.12 40.20.20 60.11.11 65.85.85",
    ),
    (
        4,
        [5, 5, 5, 5],
        [30, 12, 12, 12],
        "1: 5.5.5.5 25.12.12.12 30.9.9.9",
    ),
    (
        4,
        [40, 0, 0, 0],
        [M, 20, 20, M],
        "5: 40.20.20.20 50.0.0.0 60.11.11.11",
    ),
    // a box whose greatest values one record has
    (1, [26, 0, 0, 0], [30, 0, 0, 0], "1: 30"),
    (2, [31, 0, 0, 0], [40, 20, 0, 0], "1: 40.20"),
    (3, [31, 0, 0, 0], [40, 20, 20, 0], "1: 40.20.20"),
    (4, [31, 0, 0, 0], [40, 20, 20, 20], "1: 40.20.20.20"),
];

// How a step is given its page.
#[derive(Clone, Copy)]
enum Given {
    Page,
    Bytes,
}

// A file of three pages of records, of which each may weigh 6.
fn meta(k: u8) -> Meta {
    Meta {
        k,
        pages: 64,
        log: 65_536,
        dcap: 6,
        icap: 32,
        root: 1,
        height: 1,
        high: 8,
        live: 3,
        free: 2,
    }
}

fn point(k: u8, values: [u64; 4]) -> Option<Point> {
    let count = usize::from(k);
    if count < 1 || 4 < count {
        return None;
    }
    Some(Point::new(&values[..count]))
}

fn area(k: u8, least: [u64; 4], greatest: [u64; 4]) -> Option<Area> {
    let count = usize::from(k);
    if count < 1 || 4 < count {
        return None;
    }
    Area::between(Point::new(&least[..count]), Point::new(&greatest[..count]))
}

fn records(alloc: Global, k: u8, values: &[(u64, u64)]) -> Option<Frag> {
    let mut records = Vec::new(alloc);
    for &(first, other) in values {
        let key = point(k, [first, other, other, other])?;
        let body = Body::new(b"");
        records.push(Record { key, body }).ok()?;
    }
    Some(Frag::tip(Leaf::Records(Records::new(records))))
}

// What is below the value has this part, and the rest another page.
fn parted(alloc: Global, axis: u8, value: u64, part: Frag, other: u32) -> Option<Frag> {
    let left = Box::new(alloc, part).ok()?;
    let right = Box::new(alloc, Frag::tip(Leaf::Sibling(other))).ok()?;
    Some(Frag::cut(axis, value, left, right))
}

// Page 1, with its holes.
fn root_of(alloc: Global, k: u8) -> Option<LivePage> {
    let values: &[(u64, u64)] = if k == 1 { &CORNER_OF_ONE } else { &CORNER };
    let corner = records(alloc, k, values)?;
    let below = parted(alloc, k.wrapping_sub(1), 31, corner, 8)?;
    Some(LivePage {
        level: 0,
        area: area(k, [0; 4], [M; 4])?,
        frag: parted(alloc, 0, 50, below, 7)?,
    })
}

// Page 7.
fn behind(alloc: Global, k: u8) -> Option<LivePage> {
    Some(LivePage {
        level: 0,
        area: area(k, [50, 0, 0, 0], [M; 4])?,
        frag: records(alloc, k, &BEHIND)?,
    })
}

// Page 8.
fn above(alloc: Global, k: u8) -> Option<LivePage> {
    let values: &[(u64, u64)] = match k {
        1 => &ABOVE_OF_ONE,
        4 => &[],
        _ => &ABOVE,
    };
    let least = match k {
        1 => [31, 0, 0, 0],
        2 => [0, 31, 0, 0],
        3 => [0, 0, 31, 0],
        _ => [0, 0, 0, 31],
    };
    Some(LivePage {
        level: 0,
        area: area(k, least, [49, M, M, M])?,
        frag: records(alloc, k, values)?,
    })
}

// The page at which the next step is: the root where none is held, else the one that has the next corner.
fn next_page(alloc: Global, k: u8, state: &Activity) -> Option<(u32, LivePage)> {
    if state.walk_held().is_none() {
        return Some((1, root_of(alloc, k)?));
    }
    let first = state.walk_point()?.values().first()?;
    if 50 <= *first {
        Some((7, behind(alloc, k)?))
    } else {
        Some((8, above(alloc, k)?))
    }
}

// Whether the page has the corner of the last box that remains.
fn may_ask(state: &Activity, page: &LivePage) -> bool
    requires { StaysGathering state.now }
    ensures { IsTrue result → MaySearch state.now page.now }
{
    let Activity::SessionWalk { line, rest, .. } = state else {
        return false;
    };
    match (&line.command, rest.as_slice().last()) {
        (Command::Search(_), Some(area)) => is_inside(page, area.lo()),
        _ => false,
    }
}

// What the step at the page comes to.
fn next_at(alloc: Global, state: Activity, id: u32, page: &LivePage, meta: &Meta) -> Option<Next>
    requires { StaysGathering state }
    ensures { IfSome result (λ next. StaysGathering next.then) }
{
    if !meta.is_layout() || !fits(page, meta) || !may_ask(&state, page) {
        return None;
    }
    hb_search::next(alloc, state, Latched { id, page, meta }).ok()
}

// Whether the page in use has the corner of the last box that remains.
fn may_ask_in(state: &Activity, view: &PageView<'_>, meta: &Meta) -> bool
    requires gathering { StaysGathering state.now }
    requires layout { IsLayout meta.now }
    requires fits { IsLiveAnd view.now (FitsFile meta.now) }
    ensures { IsTrue result → IsLiveAnd view.now (MaySearchIn state.now) }
{
    let Activity::SessionWalk { line, rest, .. } = state else {
        return false;
    };
    match (&line.command, rest.as_slice().last()) {
        (Command::Search(_), Some(area)) => has_point(view, area.lo()),
        _ => false,
    }
}

// The same where the page is read from its bytes.
fn next_in(alloc: Global, state: Activity, id: u32, page: &LivePage, meta: &Meta) -> Option<Next>
    requires { StaysGathering state }
    ensures { IfSome result (λ next. StaysGathering next.then) }
{
    let bytes = bytes_of(alloc, page)?;
    let view = PageView::checked(&bytes)?;
    if !meta.is_layout() || !fits_file(&view, meta) || !may_ask_in(&state, &view, meta) {
        return None;
    }
    hb_search::descend(alloc, state, id, view).ok()
}

// Where the session stands behind the step.
fn step(alloc: Global, state: Activity, given: Given, meta: &Meta) -> Option<Activity>
    requires { StaysGathering state }
    ensures { IfSome result StaysGathering }
{
    let (id, page) = next_page(alloc, meta.k, &state)?;
    let next = match given {
        Given::Page => next_at(alloc, state, id, &page, meta)?,
        Given::Bytes => next_in(alloc, state, id, &page, meta)?,
    };
    Some(next.then)
}

// What the search finds, and how many of its steps are left.
fn found_by(
    alloc: Global,
    state: Activity,
    given: Given,
    meta: &Meta,
    steps: u32,
) -> Option<(u32, Records)>
    requires { StaysGathering state }
{
    if steps == 0 {
        return None;
    }
    let then = step(alloc, state, given, meta)?;
    match then {
        Activity::SessionAwait {
            reply: Reply::Within(records),
            ..
        } => Some((steps - 1, records)),
        then => found_by(alloc, then, given, meta, steps - 1),
    }
}

// A session with a search that takes its first step.
#[tactic(auto, using(hb_search::proofs::Facts::BeginsApart::begins_apart))]
fn begun(alloc: Global, asked: Option<Area>) -> Option<Activity>
    ensures { IfSome result StaysGathering }
{
    let asked = asked?;
    let mut rest = Vec::new(alloc);
    rest.push(asked.copy()).ok()?;
    Some(Activity::SessionWalk {
        line: Line {
            number: 3,
            session: 1,
            command: Command::Search(asked),
        },
        held: None,
        rest: Areas::new(rest),
        found: Records::new(Vec::new(alloc)),
    })
}

fn say_value(text: &mut Text, value: u64) {
    if value == M {
        text.say("M");
    } else {
        text.number(value);
    }
}

// Says the values of the point, with a dot between them.
fn say_point(text: &mut Text, point: &Point) {
    let mut mark = " ";
    for value in point.values() {
        text.say(mark);
        say_value(text, *value);
        mark = ".";
    }
}

// Says how many steps the search takes of twenty, and its records.
fn say_found(text: &mut Text, left: u32, found: &Records) {
    text.need(left <= 20);
    text.number(u64::from(20_u32.saturating_sub(left)));
    text.say(":");
    for record in found.as_slice() {
        say_point(text, &record.key);
    }
}

fn says(alloc: Global, left: u32, found: &Records, want: &str) -> bool {
    let mut text = Text::new(alloc);
    say_found(&mut text, left, found);
    text.is(want)
}

// Whether the search comes to this.
fn comes_to(alloc: Global, k: u8, given: Given, asked: Option<Area>, want: &str) -> bool {
    let Some(state) = begun(alloc, asked) else {
        return false;
    };
    match &found_by(alloc, state, given, &meta(k), 20) {
        Some((left, found)) => says(alloc, *left, found, want),
        None => false,
    }
}

#[test]
fn searches_over_three_pages(rt: HostRuntime) {
    for (place, &(k, least, greatest, want)) in ROWS.iter().enumerate() {
        let asked = area(k, least, greatest);
        let right = comes_to(rt.alloc(), k, Given::Page, asked, want);
        expect(&rt, place, right);
    }
}

#[test]
fn searches_over_bytes(rt: HostRuntime) {
    for (place, &(k, least, greatest, want)) in ROWS.iter().enumerate() {
        let asked = area(k, least, greatest);
        let right = comes_to(rt.alloc(), k, Given::Bytes, asked, want);
        expect(&rt, place, right);
    }
}
