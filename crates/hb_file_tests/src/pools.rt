//! Steps on pools by hand: which page goes, how many places there are, and which dirty page is the oldest.

use crate::rows::expect;
use hb_pool::Pool;
use hb_space::form::PAGE;
use std::alloc::Global;

/// What a page's bytes are here.
fn byte_of(id: u32) -> u8 {
    (id % 251) as u8
}

/// Brings a page in, if it isn't there and the pool has a place.
fn bring(pool: &mut Pool, id: u32, dirty: bool) -> bool {
    if pool.places() == 0 || pool.pins(id).is_some() {
        return false;
    }
    pool.bring(id, &[byte_of(id); PAGE], dirty);
    true
}

fn pin(pool: &mut Pool, id: u32) -> bool {
    match pool.pins(id) {
        Some(pins) if pins < 255 => {
            pool.pin(id);
            true
        }
        _ => false,
    }
}

fn unpin(pool: &mut Pool, id: u32) -> bool {
    match pool.pins(id) {
        Some(pins) if pins > 0 => {
            pool.unpin(id);
            true
        }
        _ => false,
    }
}

fn change(pool: &mut Pool, id: u32) -> bool {
    match pool.pins(id) {
        Some(_) => {
            pool.change(id, &[byte_of(id); PAGE]);
            true
        }
        None => false,
    }
}

/// Cleans the oldest dirty page, if it is this one.
fn clean(pool: &mut Pool, id: u32) -> bool {
    match pool.oldest_dirty() {
        Some(oldest) if oldest == id => {
            pool.cleaned(oldest);
            true
        }
        _ => false,
    }
}

/// Whether the step could be taken, and was.
fn take(pool: &mut Pool, step: char, id: u32) -> bool {
    match step {
        'b' => bring(pool, id, false),
        'd' => bring(pool, id, true),
        'p' => pin(pool, id),
        'u' => unpin(pool, id),
        'c' => change(pool, id),
        'w' => clean(pool, id),
        _ => false,
    }
}

/// Whether the page is in a frame, with its bytes.
fn has(pool: &Pool, id: u32) -> bool {
    match pool.get(id) {
        Some(bytes) => bytes[0] == byte_of(id) && bytes[PAGE - 1] == byte_of(id),
        None => false,
    }
}

/// How many of the pages up to that one are in frames.
fn count(pool: &Pool, last: u32) -> usize {
    let mut there = 0;
    for id in 1..=last {
        if has(pool, id) {
            there = usize::saturating_add(there, 1);
        }
    }
    there
}

/// Whether a step at this page makes that page go, where it isn't 0, and the page of the step is in a frame then.
fn goes(pool: &mut Pool, step: char, id: u32, gone: u32) -> bool {
    let was_there = gone == 0 || has(pool, gone);
    was_there && take(pool, step, id) && has(pool, id) && (gone == 0 || !has(pool, gone))
}

/// A step: `b` and `d` bring a clean and a dirty page, `p` and `u` pin and unpin, `c` changes, `w` is told that the page was
/// written. The first of its pages, the last one, and how far each is from the one before; the page that the first of them makes go,
/// 0 for none, and how far each further one is from it. Then how many places there are behind it, the oldest dirty page, 0 for none,
/// and how many of the pages up to a number are in frames.
type Row = (char, [u32; 3], [u32; 2], u32, u32, (u32, usize));

/// All frames have pages.
const ALL: (u32, usize) = (400, 128);

/// Whether the steps of a row do this.
fn is_so(pool: &mut Pool, row: &Row) -> bool {
    let (step, [first, last, by], [gone, gone_by], places, oldest, (most, there)) = *row;
    let mut goer = gone;
    for id in first..=last {
        if id % by.max(1) == first % by.max(1) && !goes(pool, step, id, goer) {
            return false;
        }
        goer = goer.saturating_add(gone_by);
    }
    pool.places() == places
        && pool.oldest_dirty().unwrap_or(0) == oldest
        && count(pool, most) == there
}

/// Whether it is so of each of these rows, over a pool that had no page. `None` where memory was refused.
fn are_so(alloc: Global, rows: &[Row]) -> Option<bool> {
    let mut pool = Pool::new(alloc).ok()?;
    for row in rows {
        if !is_so(&mut pool, row) {
            return Some(false);
        }
    }
    Some(true)
}

/// Pages 1 to 128 come in that order.
const FILL: Row = ('b', [1, 128, 1], [0, 0], 128, 0, ALL);

/// The first page that may go does.
const USES: [Row; 28] = [
    FILL,
    ('b', [129, 129, 1], [1, 0], 128, 0, ALL),
    ('p', [2, 2, 1], [0, 0], 127, 0, ALL),
    ('b', [130, 130, 1], [3, 0], 127, 0, ALL),
    ('c', [4, 4, 1], [0, 0], 126, 4, ALL),
    ('b', [131, 131, 1], [5, 0], 126, 4, ALL),
    ('d', [132, 132, 1], [6, 0], 125, 4, ALL),
    ('u', [2, 2, 1], [0, 0], 126, 4, ALL),
    ('w', [4, 4, 1], [0, 0], 127, 132, ALL),
    ('b', [133, 133, 1], [7, 0], 127, 132, ALL),
    ('p', [8, 8, 1], [0, 0], 126, 132, ALL),
    ('p', [8, 8, 1], [0, 0], 126, 132, ALL),
    ('u', [8, 8, 1], [0, 0], 126, 132, ALL),
    ('b', [134, 134, 1], [9, 0], 126, 132, ALL),
    ('u', [8, 8, 1], [0, 0], 127, 132, ALL),
    ('c', [132, 132, 1], [0, 0], 127, 132, ALL),
    ('d', [135, 135, 1], [10, 0], 126, 132, ALL),
    ('w', [132, 132, 1], [0, 0], 127, 135, ALL),
    // pages 11 to 129 go, which were before all that the steps had put last
    ('b', [136, 254, 1], [11, 1], 127, 135, ALL),
    ('b', [255, 255, 1], [2, 0], 127, 135, ALL),
    ('b', [256, 256, 1], [130, 0], 127, 135, ALL),
    ('b', [257, 257, 1], [4, 0], 127, 135, ALL),
    ('b', [258, 258, 1], [131, 0], 127, 135, ALL),
    ('b', [259, 259, 1], [133, 0], 127, 135, ALL),
    ('b', [260, 260, 1], [8, 0], 127, 135, ALL),
    ('b', [261, 261, 1], [134, 0], 127, 135, ALL),
    ('b', [262, 262, 1], [132, 0], 127, 135, ALL),
    ('b', [263, 263, 1], [136, 0], 127, 135, ALL),
];

/// All pages but three are pinned, until there is no place.
const CROWD: [Row; 10] = [
    FILL,
    ('p', [1, 125, 1], [0, 0], 3, 0, ALL),
    ('b', [200, 200, 1], [126, 0], 3, 0, ALL),
    ('d', [201, 201, 1], [127, 0], 2, 201, ALL),
    ('d', [202, 202, 1], [128, 0], 1, 201, ALL),
    ('d', [203, 203, 1], [200, 0], 0, 201, ALL),
    // 201 was written
    ('w', [201, 201, 1], [0, 0], 1, 202, ALL),
    ('b', [204, 204, 1], [201, 0], 1, 202, ALL),
    ('u', [3, 3, 1], [0, 0], 2, 202, ALL),
    ('b', [205, 205, 1], [3, 0], 2, 202, (125, 124)),
];

/// Nineteen actors with three pages each: the first has 2, 4 and 6, the last 110, 112 and 114. Nobody holds 1, 3 .. 113, which are 57,
/// and 115 to 128, which are 14.
const HELD: [Row; 8] = [
    FILL,
    ('p', [2, 114, 2], [0, 0], 71, 0, ALL),
    ('b', [201, 257, 1], [1, 2], 71, 0, ALL),
    ('b', [258, 271, 1], [115, 1], 71, 0, (128, 57)),
    ('b', [272, 272, 1], [201, 0], 71, 0, ALL),
    // the last actor lets a page go, which was used before 202
    ('u', [114, 114, 1], [0, 0], 72, 0, ALL),
    ('b', [273, 273, 1], [114, 0], 72, 0, ALL),
    ('b', [274, 274, 1], [202, 0], 72, 0, (200, 56)),
];

/// Pages go in the order in which they came.
const ORDER: [Row; 2] = [FILL, ('b', [129, 300, 1], [1, 1], 128, 0, (172, 0))];

const RUNS: [&[Row]; 4] = [&USES, &CROWD, &HELD, &ORDER];

#[test]
fn the_first_page_that_may_go_does(rt: HostRuntime) {
    for (place, rows) in RUNS.iter().enumerate() {
        expect(&rt, place, are_so(rt.alloc(), rows) == Some(true));
    }
}
