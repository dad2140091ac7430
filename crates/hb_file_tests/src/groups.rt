//! Operations on files of one page, by hand: what their groups are, in memory and on the disk, and a tree that grows and
//! shrinks: a page is split, one above it is made and names both, and the two become one again. The log makes the same pages.
//! The disk tells nothing.
ghost use Rattle.std.specs.Prelude.{◌≡◌, false, IfSome};
ghost use Rattle.hb_store.specs.Seen.{seen_as};

use crate::homes::flush;
use crate::rows::expect;
use crate::stores::{EMPTY, FOUR, NEVER, POINTS, SPLIT, with_groups};
use hb_disk::{Device, RotDisk};
use hb_frag::{Leaf, Node, Page};
use hb_ops::Meta;
use hb_space::Record;
use hb_store::{Store, Touched, read_log};
use std::alloc::Global;

/// The put of the point 1 with an empty body into page 1, as a group of the log has it. No page image.
pub(crate) const PUT_1: [u8; 15] = [0, 1, 0, 0, 0, 1, 0, 0, 0, 0, 0, 0, 0, 1, 0];

/// The put of the point 5 with the body `a` into page 1, and with `b`.
pub(crate) const PUT_5: [u8; 16] = [0, 1, 0, 0, 0, 1, 0, 0, 0, 0, 0, 0, 0, 5, 1, 0x61];

const PUT_5_B: [u8; 16] = [0, 1, 0, 0, 0, 1, 0, 0, 0, 0, 0, 0, 0, 5, 1, 0x62];

/// The delete of the point 1 from page 1.
pub(crate) const DELETE_1: [u8; 14] = [0, 2, 0, 0, 0, 1, 0, 0, 0, 0, 0, 0, 0, 1];

/// The put of the point 7 with the body `a` into page 2.
const PUT_7: [u8; 16] = [0, 1, 0, 0, 0, 2, 0, 0, 0, 0, 0, 0, 0, 7, 1, 0x61];

/// The growth by page 3.
const GROW: [u8; 10] = [0, 6, 0, 0, 0, 3, 0, 0, 0, 0];

/// The posting of page 2 at the only leaf of page 3, over the box from 5 on that page 1 gave.
const POST: [u8; 27] = [
    0, 4, 0, 0, 0, 3, 0, 0, 0, 0, 2, 0, 0, 0, 0, 0, 0, 0, 5, 255, 255, 255, 255, 255, 255, 255, 255,
];

/// The merge of page 2 into page 1 under page 3.
const MERGE: [u8; 14] = [0, 5, 0, 0, 0, 3, 0, 0, 0, 1, 0, 0, 0, 2];

/// Four operations on a page without a record: the third one isn't allowed.
const CHANGES: [&[u8]; 4] = [&PUT_1, &PUT_5, &PUT_5_B, &DELETE_1];

/// Five operations on the page with two points.
const TREE: [&[u8]; 5] = [&SPLIT, &PUT_7, &GROW, &POST, &MERGE];

/// The fields of page 1, how many of the operations were done, and what comes of them: the bytes that wait; the root, the
/// height, the highest page and the pages in use; how many pages are in memory; and the number that an allocation takes.
type Row = (bool, usize, u32, [u32; 4], usize, u32);

const ROWS: [Row; 10] = [
    (false, 0, 0, [1, 1, 1, 1], 1, 2),
    // the first group has a page image
    (false, 1, 4115, [1, 1, 1, 1], 1, 2),
    (false, 2, 4131, [1, 1, 1, 1], 1, 2),
    (false, 3, 4131, [1, 1, 1, 1], 1, 2),
    (false, 4, 4145, [1, 1, 1, 1], 1, 2),
    // so has the split, and no page that was made in this turn has one
    (true, 1, 4126, [1, 1, 2, 2], 2, 3),
    (true, 2, 4142, [1, 1, 2, 2], 2, 3),
    (true, 3, 4152, [3, 2, 3, 3], 3, 4),
    (true, 4, 4179, [3, 2, 3, 3], 3, 4),
    // the page that goes is the next one that is taken
    (true, 5, 4193, [3, 2, 3, 2], 3, 2),
];

/// The store once so many of the operations were done, and a force came behind each of these numbers of them.
pub(crate) fn turned(
    alloc: Global,
    is_tree: bool,
    count: usize,
    forces: &[usize],
    failing: u64,
) -> Option<Store<RotDisk>>
    ensures { IfSome result (λ store. (seen_as store).stopped ≡ false) }
{
    if is_tree {
        with_groups(alloc, &POINTS, TREE.get(..count)?, forces, failing)
    } else {
        with_groups(alloc, &EMPTY, CHANGES.get(..count)?, forces, failing)
    }
}

/// The store once so many of the operations were done, and none was forced.
pub(crate) fn behind(
    alloc: Global,
    is_tree: bool,
    count: usize,
    failing: u64,
) -> Option<Store<RotDisk>>
    ensures { IfSome result (λ store. (seen_as store).stopped ≡ false) }
{
    turned(alloc, is_tree, count, &[], failing)
}

/// What changes of what a file says: the root, the height, the highest page and the pages in use.
fn meta_numbers(meta: &Meta) -> [u32; 4] {
    [meta.root, u32::from(meta.height), meta.high, meta.live]
}

/// How many of the four pages are in memory.
fn there(store: &Store<RotDisk>) -> usize {
    let mut count = 0;
    for id in 1..5 {
        if store.get(id).is_some() {
            count = usize::wrapping_add(count, 1);
        }
    }
    count
}

/// Whether this comes of so many of the operations.
fn comes(alloc: Global, row: Row) -> Option<bool> {
    let (is_tree, count, pending, said, pages, next) = row;
    let mut store = behind(alloc, is_tree, count, NEVER)?;
    let right = store.pending() == pending
        && meta_numbers(store.meta()) == said
        && there(&store) == pages;
    Some(right && store.next_page().ok()? == Some((next, 0)))
}

#[test]
fn groups_wait(rt: HostRuntime) {
    for (place, row) in ROWS.iter().enumerate() {
        expect(&rt, place, comes(rt.alloc(), *row) == Some(true));
    }
}

/// Flushes so many times, and says what came of the last one, as `flush` does, or `e` for one that failed.
pub(crate) fn flushed(store: &mut Store<RotDisk>, times: u8) -> char
    requires { (seen_as store.old).stopped ≡ false }
{
    let mut last = ' ';
    for _ in 0..times {
        match flush(store) {
            Some(did) => last = did,
            None => return 'e',
        }
    }
    last
}

/// A force behind each operation.
const APART: &[usize] = &[1, 2, 3, 4, 5];

/// Whether the operations are those of the tree, behind which numbers of them a force came, an offset of the disk once all groups
/// were forced, and the bytes there.
const FRAMES: [(bool, &[usize], usize, &[u8]); 36] = [
    // the gate and the length, the count of page images, and the number of the one; its page, and the put
    (false, APART, 8192, &[0xA5, 0, 0, 16, 19, 1, 0, 0, 0, 1]),
    (false, APART, 8202, &EMPTY),
    (false, APART, 12_298, b"\x01\0\0\0\x01\0\0\0\0\0\0\0\x01\0"),
    // the groups of the put and the delete, which have no page image
    (false, APART, 12_312, &[0xA5, 0, 0, 0, 16]),
    (false, APART, 12_317, &PUT_5),
    (false, APART, 12_333, &[0xA5, 0, 0, 0, 14]),
    (false, APART, 12_338, &DELETE_1),
    (false, APART, 12_352, &[0]),
    // the same as one frame, with the length of all of them
    (false, &[], 8192, &[0xA5, 0, 0, 0x10, 0x31, 1, 0, 0, 0, 1]),
    (false, &[], 8202, &EMPTY),
    (false, &[], 12_298, b"\x01\0\0\0\x01\0\0\0\0\0\0\0\x01\0"),
    (false, &[], 12_312, &PUT_5),
    (false, &[], 12_328, &DELETE_1),
    (false, &[], 12_342, &[0, 0, 0, 0, 0]),
    // the split with its page image, and four groups without one
    (true, APART, 8192, &[0xA5, 0, 0, 0x10, 0x1E, 1, 0, 0, 0, 1]),
    (true, APART, 8202, &POINTS),
    (
        true,
        APART,
        12_298,
        b"\x03\0\0\0\x01\0\0\0\x02\0\0\0\0\0\x01\0\0\0\0\0\0\0\0\x05\x01\xA5\0\0\0\x10",
    ),
    (true, APART, 12_328, &PUT_7),
    (
        true,
        APART,
        12_344,
        b"\xA5\0\0\0\x0A\0\x06\0\0\0\x03\0\0\0\0\xA5\0\0\0\x1B",
    ),
    (true, APART, 12_364, &POST),
    (true, APART, 12_391, &[0xA5, 0, 0, 0, 14]),
    (true, APART, 12_396, &MERGE),
    // a closed gate behind them
    (true, APART, 12_410, &[0]),
    // the same as one frame
    (true, &[], 8192, &[0xA5, 0, 0, 0x10, 0x61, 1, 0, 0, 0, 1]),
    (true, &[], 8202, &POINTS),
    (
        true,
        &[],
        12_298,
        b"\x03\0\0\0\x01\0\0\0\x02\0\0\0\0\0\x01\0\0\0\0\0\0\0\0\x05\x01",
    ),
    (true, &[], 12_323, &PUT_7),
    (true, &[], 12_339, &GROW),
    (true, &[], 12_349, &POST),
    (true, &[], 12_376, &MERGE),
    (true, &[], 12_390, &[0, 0, 0, 0, 0]),
    // the first two as one frame, the next one alone, and the last two as one frame
    (
        true,
        &[2, 3],
        8192,
        &[0xA5, 0, 0, 0x10, 0x2E, 1, 0, 0, 0, 1],
    ),
    (true, &[2, 3], 12_323, &PUT_7),
    (
        true,
        &[2, 3],
        12_339,
        b"\xA5\0\0\0\x0A\0\x06\0\0\0\x03\0\0\0\0\xA5\0\0\0\x29\0\x04",
    ),
    (true, &[2, 3], 12_359, &POST),
    (true, &[2, 3], 12_386, &MERGE),
];

/// The disk once the groups of so many of the operations were forced: behind these numbers of them, and those that are left at the end,
/// by one flush.
fn forced(alloc: Global, is_tree: bool, count: usize, forces: &[usize]) -> Option<RotDisk> {
    let mut store = turned(alloc, is_tree, count, forces, NEVER)?;
    if store.pending() > 0 && flushed(&mut store, 1) != 'f' {
        return None;
    }
    Some(store.into_disk())
}

/// Whether these bytes stand at an offset of it.
fn stands(alloc: Global, is_tree: bool, forces: &[usize], at: usize, want: &[u8]) -> Option<bool> {
    let count = if is_tree { TREE.len() } else { CHANGES.len() };
    let disk = forced(alloc, is_tree, count, forces)?;
    Some(disk.inner.bytes().get(at..)?.starts_with(want))
}

#[test]
fn groups_have_these_bytes(rt: HostRuntime) {
    for (place, &(is_tree, forces, at, want)) in FRAMES.iter().enumerate() {
        let right = stands(rt.alloc(), is_tree, forces, at, want);
        expect(&rt, place, right == Some(true));
    }
}

/// What the log of the tree makes, once so many of the operations were done, and forces came behind these numbers of them.
fn replayed(alloc: Global, count: usize, forces: &[usize]) -> Option<Touched> {
    let mut disk = forced(alloc, true, count, forces)?;
    if disk.size() < 155_648 {
        return None;
    }
    read_log(alloc, &mut disk, 0, &FOUR).ok()
}

/// Whether it makes three pages, and of what the file says this.
fn replays(alloc: Global, count: usize, forces: &[usize], said: [u32; 4]) -> Option<bool> {
    let touched = replayed(alloc, count, forces)?;
    Some(meta_numbers(&touched.meta) == said && touched.pages.len() == 3)
}

/// Each group as a frame, all as one, and some together.
const WAYS: [&[usize]; 4] = [APART, &[], &[2, 3], &[1]];

#[test]
fn a_tree_grows(rt: HostRuntime) {
    for (place, forces) in WAYS.iter().enumerate() {
        let grows = replays(rt.alloc(), 4, forces, [3, 2, 3, 3]);
        expect(&rt, place, grows == Some(true));
    }
}

/// Whether a record has the point of this value alone.
pub(crate) fn is_of(record: &Record, value: u64) -> bool {
    match record.key.values() {
        [one] => *one == value,
        _ => false,
    }
}

/// Whether a page is one leaf of records with the points 1, 5 and 7.
fn has_points(page: &Page) -> bool {
    match page {
        Page::Live(page) => match &page.frag.node {
            Node::Tip(Leaf::Records(records)) => match records.as_slice() {
                [first, second, third] => { is_of(first, 1) && is_of(second, 5) && is_of(third, 7) }
                _ => false,
            },
            _ => false,
        },
        Page::Free { .. } => false,
    }
}

/// Whether a page is one leaf that names page 1.
fn names_1(page: &Page) -> bool {
    match page {
        Page::Live(page) => match &page.frag.node {
            Node::Tip(Leaf::Child(1)) => true,
            _ => false,
        },
        Page::Free { .. } => false,
    }
}

/// Whether the merge makes one page of records, one above it, and a free page that ends the chain.
fn merges(alloc: Global, forces: &[usize]) -> Option<bool> {
    let touched = replayed(alloc, 5, forces)?;
    let last = match touched.pages.get(&2)? {
        Page::Free { next } => *next == 0 && touched.meta.free == 2,
        Page::Live(_) => false,
    };
    Some(last && has_points(touched.pages.get(&1)?) && names_1(touched.pages.get(&3)?))
}

#[test]
fn a_tree_shrinks(rt: HostRuntime) {
    for (place, forces) in WAYS.iter().enumerate() {
        let shrinks = replays(rt.alloc(), 5, forces, [3, 2, 3, 2]);
        expect(&rt, place, shrinks == Some(true));
        expect(&rt, place, merges(rt.alloc(), forces) == Some(true));
    }
}
