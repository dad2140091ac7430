//! The file of two levels of `openings`, where the log has its four groups in one frame, as a force of four groups writes it. It opens
//! to the same file; where one group is bad the whole frame is. Offsets and bytes are worked out from `docs/FORMAT.md`.

use crate::openings::{Answer, GOOD, LEFT, SIZE, file, has_stopped, open, opens, put};
use crate::rows::expect;
use hb_disk::MemDisk;
use hb_restart::OpenFault;
use std::alloc::Global;

/// The bytes of the four groups: 4,126, 16, 10 and 27.
const LENGTH: [u8; 4] = [0, 0, 0x10, 0x53];

/// Behind the page image: the split of page 1 at 5. Then the put of the point 7 into page 2, the growth by page 3, and the posting
/// of page 2 there. Zeros stand in place of the three frames' heads.
const GROUPS: [u8; 93] = [
    3, 0, 0, 0, 1, 0, 0, 0, 2, 0, 0, 0, 0, 0, 1, 0, 0, 0, 0, 0, 0, 0, 0, 5, 1, //
    0, 1, 0, 0, 0, 2, 0, 0, 0, 0, 0, 0, 0, 7, 1, 0x61, //
    0, 6, 0, 0, 0, 3, 0, 0, 0, 0, //
    0, 4, 0, 0, 0, 3, 0, 0, 0, 0, 2, 0, 0, 0, 0, 0, 0, 0, 5, 255, 255, 255, 255, 255, 255, 255,
    255, //
    0, 0, 0, 0, 0, 0, 0, 0, 0, 0, 0, 0, 0, 0, 0,
];

/// A disk with the file, with these bytes at an offset, that fails at the call of this number.
fn disk(alloc: Global, at: usize, piece: &[u8], failing: u64) -> Option<MemDisk> {
    let mut bytes = file(alloc, SIZE, 8193, &LENGTH)?;
    put(&mut bytes, 12_298, &GROUPS);
    put(&mut bytes, at, piece);
    let calls = [failing].to_vec(alloc).ok()?;
    Some(MemDisk::failing(alloc, bytes, calls))
}

/// What an opening of it answers, and what it leaves.
fn opened(alloc: Global, at: usize, piece: &[u8], failing: u64) -> Option<(Answer, MemDisk)> {
    Some(open(alloc, disk(alloc, at, piece, failing)?))
}

/// Whether it opens to the file, leaves its pages and opens so again; and with how many device calls.
fn opens_by(alloc: Global) -> Option<(bool, u64)> {
    let (_, left) = opened(alloc, 0, &[], u64::MAX)?;
    let again = disk(alloc, 0, &[], u64::MAX)?;
    Some((opens(alloc, again, GOOD, &LEFT), left.calls()))
}

#[test]
fn a_frame_of_four_groups_opens(rt: HostRuntime) {
    expect(&rt, 0, opens_by(rt.alloc()) == Some((true, CALLS)));
}

/// The device calls of an opening: two superblocks, two pieces of the frame and the closed gate behind it; then come a sync, a write
/// for each of the three pages, a read, a sync, a zero, a sync, and the six calls of the superblock.
const CALLS: u64 = 19;

#[test]
fn a_failing_call_stops_that_opening(rt: HostRuntime) {
    for call in 0..CALLS {
        let stops = match opened(rt.alloc(), 0, &[], call) {
            Some(opened) => has_stopped(rt.alloc(), &opened, call),
            None => false,
        };
        expect(&rt, call as usize, stops);
    }
}

/// Other bytes at an offset, and what an opening answers.
const CHANGES: [(usize, &[u8], Answer); 8] = [
    // the frame ends one byte before its last group does, one byte behind it, and passes the area
    (8196, &[0x52], Err(OpenFault::BadGroup { frame: 0 })),
    (8196, &[0x54], Err(OpenFault::BadGroup { frame: 0 })),
    (8193, &[0, 1], Err(OpenFault::BadGroup { frame: 0 })),
    // the put reads a page that no group touched, the growth takes a page again, and the posting reads a page that no group touched
    (12_328, &[4], Err(OpenFault::BadGroup { frame: 0 })),
    (12_344, &[2], Err(OpenFault::BadGroup { frame: 0 })),
    (12_354, &[4], Err(OpenFault::BadGroup { frame: 0 })),
    // it ends behind the growth, and what follows is no open gate: the page above names page 1 alone
    (8196, &[0x38], GOOD),
    // behind a closed gate nothing of it is there, and page 1 is none
    (8192, &[0], Err(OpenFault::Unsound { page: 1, rule: 0 })),
];

/// What an opening answers then.
fn answer(alloc: Global, at: usize, piece: &[u8]) -> Option<Answer> {
    Some(opened(alloc, at, piece, u64::MAX)?.0)
}

#[test]
fn a_frame_is_good_as_a_whole(rt: HostRuntime) {
    for (place, &(at, piece, want)) in CHANGES.iter().enumerate() {
        expect(&rt, place, answer(rt.alloc(), at, piece) == Some(want));
    }
}
