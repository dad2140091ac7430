//! Forces of one, two and five groups of the operations in `groups`: one frame and four calls each, whatever call fails. What waits
//! behind a force. The disk tells nothing.

use crate::groups::{behind, flushed, turned};
use crate::rows::expect;
use crate::stores::NEVER;
use std::alloc::Global;

/// What came of flushes, the bytes that wait then, the mark of the first group that does or else 9, and how many calls were made.
type Outcome = (char, u32, u32, u64);

/// Whether the operations are those of the tree, how many of them were done, where a call fails while the store is flushed so many
/// times, and what comes of it. Call 0 reads the page, and the next four force all groups that wait.
const FORCES: [(bool, usize, u64, u8, Outcome); 24] = [
    // one group
    (false, 1, NEVER, 0, (' ', 4115, 7, 1)),
    (false, 1, NEVER, 1, ('f', 0, 9, 5)),
    (false, 1, 1, 1, ('e', 4115, 7, 2)),
    (false, 1, 4, 1, ('e', 4115, 7, 5)),
    // two
    (false, 2, NEVER, 0, (' ', 4131, 7, 1)),
    (false, 2, NEVER, 1, ('f', 0, 9, 5)),
    (false, 2, NEVER, 2, ('1', 0, 9, 6)),
    (false, 2, NEVER, 3, ('s', 0, 9, 15)),
    (false, 2, NEVER, 4, ('n', 0, 9, 15)),
    (false, 2, 1, 1, ('e', 4131, 7, 2)),
    (false, 2, 2, 1, ('e', 4131, 7, 3)),
    (false, 2, 3, 2, ('e', 4131, 7, 4)),
    (false, 2, 4, 3, ('e', 4131, 7, 5)),
    // the page that goes home fails to be written
    (false, 2, 5, 1, ('f', 0, 9, 5)),
    (false, 2, 5, 2, ('e', 0, 9, 6)),
    // the first and the last call fail by which the next turn begins
    (false, 2, 6, 3, ('e', 0, 9, 7)),
    (false, 2, 14, 3, ('e', 0, 9, 15)),
    // five
    (true, 5, NEVER, 0, (' ', 4193, 7, 1)),
    (true, 5, NEVER, 1, ('f', 0, 9, 5)),
    (true, 5, 1, 1, ('e', 4193, 7, 2)),
    (true, 5, 2, 1, ('e', 4193, 7, 3)),
    (true, 5, 3, 1, ('e', 4193, 7, 4)),
    (true, 5, 4, 1, ('e', 4193, 7, 5)),
    (true, 5, 5, 1, ('f', 0, 9, 5)),
];

/// Whether this comes of it. The store is stopped exactly where a flush failed.
fn forces(
    alloc: Global,
    is_tree: bool,
    count: usize,
    failing: u64,
    times: u8,
    want: Outcome,
) -> Option<bool> {
    let mut store = behind(alloc, is_tree, count, failing)?;
    let last = flushed(&mut store, times);
    let (pending, settled) = (store.pending(), store.settled(9));
    let stopped = store.stopped() == (last == 'e');
    let calls = store.into_disk().inner.calls();
    Some(stopped && (last, pending, settled, calls) == want)
}

#[test]
fn groups_are_forced(rt: HostRuntime) {
    for (place, &(is_tree, count, failing, times, want)) in FORCES.iter().enumerate() {
        let right = forces(rt.alloc(), is_tree, count, failing, times, want);
        expect(&rt, place, right == Some(true));
    }
}

/// Whether the operations are those of the tree, how many of them were done, and behind which numbers of them a force came; the bytes
/// that wait then, the mark of the first group that does or else 9, and how many calls were made: one, and four a force.
const TURNS: [(bool, usize, &[usize], (u32, u32, u64)); 9] = [
    (true, 5, &[], (4193, 7, 1)),
    (true, 5, &[5], (0, 9, 5)),
    (true, 5, &[2], (51, 7, 5)),
    (true, 5, &[4], (14, 7, 5)),
    (true, 5, &[2, 4], (14, 7, 9)),
    (true, 5, &[1, 2, 3, 4, 5], (0, 9, 21)),
    // the third of these operations makes no group, and a force of none takes no call
    (false, 4, &[1, 2, 3, 4], (0, 9, 13)),
    (false, 4, &[2, 3], (14, 7, 5)),
    (false, 4, &[3], (14, 7, 5)),
];

/// What comes of it.
fn waits(alloc: Global, is_tree: bool, count: usize, forces: &[usize]) -> Option<(u32, u32, u64)> {
    let store = turned(alloc, is_tree, count, forces, NEVER)?;
    let (pending, settled) = (store.pending(), store.settled(9));
    Some((pending, settled, store.into_disk().inner.calls()))
}

#[test]
fn groups_wait_behind_a_force(rt: HostRuntime) {
    for (place, &(is_tree, count, forces, want)) in TURNS.iter().enumerate() {
        let found = waits(rt.alloc(), is_tree, count, forces);
        expect(&rt, place, found == Some(want));
    }
}
