//! A file of two levels, by hand: its log makes three pages of one, which doesn't stand in its place. It is opened, and
//! opened again after a stop before each device call, also where that opening is stopped in its turn, and after each failing
//! one. Then the same file with a byte or two that are other ones. Offsets and bytes are worked out from `docs/FORMAT.md`.

use crate::drives::PICKS;
use crate::rows::expect;
use hb_disk::{Disk, MemDisk, Pick};
use hb_ops::Meta;
use hb_restart::{Layout, OpenFault, create, recover};
use std::alloc::Global;

/// A number that no call has.
const NEVER: u64 = u64::MAX;

/// Bytes of a file of four pages.
pub(crate) const SIZE: usize = 155_648;

/// What a file of one attribute and four pages says, of which one is taken, behind the gate.
pub(crate) const SUPER: [u8; 41] = [
    0xA5, 0x48, 0x42, 0x50, 0x49, 0x54, 0x52, 0x45, 0x45, 0x01, 0x00, 0x01, 0x01, 0x00, 0x00, 0x00,
    0x04, 0x00, 0x01, 0x00, 0x00, 0x00, 0x06, 0x00, 0x20, 0x00, 0x00, 0x00, 0x01, 0x00, 0x00, 0x00,
    0x01, 0x00, 0x00, 0x00, 0x01, 0x00, 0x00, 0x00, 0x00,
];

/// The front of the frame of a split, up to its image's page: that has the points 1 and 5.
const SPLIT: [u8; 51] = [
    0xA5, 0, 0, 0x10, 0x1E, 1, 0, 0, 0, 1, 1, 0, 1, 0, 0, 0, 0, 0, 0, 0, 0, 0, 255, 255, 255, 255,
    255, 255, 255, 255, 1, 0, 2, 0, 0, 0, 0, 0, 0, 0, 1, 0, 0, 0, 0, 0, 0, 0, 0, 5, 0,
];

/// Behind the page image: the split of page 1 at 5, from where on page 2 has its points. Then the frames of three more groups:
/// the put of the point 7 with the body `a` into page 2, the growth by page 3, and the posting of page 2 there.
const BEHIND: [u8; 93] = [
    3, 0, 0, 0, 1, 0, 0, 0, 2, 0, 0, 0, 0, 0, 1, 0, 0, 0, 0, 0, 0, 0, 0, 5, 1, //
    0xA5, 0, 0, 0, 16, 0, 1, 0, 0, 0, 2, 0, 0, 0, 0, 0, 0, 0, 7, 1, 0x61, //
    0xA5, 0, 0, 0, 10, 0, 6, 0, 0, 0, 3, 0, 0, 0, 0, //
    0xA5, 0, 0, 0, 27, 0, 4, 0, 0, 0, 3, 0, 0, 0, 0, 2, 0, 0, 0, 0, 0, 0, 0, 5, 255, 255, 255, 255,
    255, 255, 255, 255,
];

/// The superblock of the next turn behind its gate.
const NEXT: [u8; 41] = [
    0xA5, 0x48, 0x42, 0x50, 0x49, 0x54, 0x52, 0x45, 0x45, 0x01, 0x01, 0x01, 0x02, 0x00, 0x00, 0x00,
    0x04, 0x00, 0x01, 0x00, 0x00, 0x00, 0x06, 0x00, 0x20, 0x00, 0x00, 0x00, 0x03, 0x00, 0x00, 0x00,
    0x03, 0x00, 0x00, 0x00, 0x03, 0x00, 0x00, 0x00, 0x00,
];

/// Where the three pages that the log makes stand, and their fields: below 5 the point 1, else page 2; the points 5 and 7; and
/// the page above. Then the superblock of the next turn.
pub(crate) const LEFT: [(usize, &[u8]); 4] = [
    (
        139_264,
        &[
            1, 0, 1, 0, 0, 0, 0, 0, 0, 0, 0, 0, 255, 255, 255, 255, 255, 255, 255, 255, 0, 0, 0, 0,
            0, 0, 0, 0, 0, 5, 1, 0, 1, 0, 0, 0, 0, 0, 0, 0, 1, 0, 3, 0, 0, 0, 2, 0,
        ],
    ),
    (
        143_360,
        &[
            1, 0, 1, 0, 0, 0, 0, 0, 0, 0, 0, 5, 255, 255, 255, 255, 255, 255, 255, 255, 1, 0, 2, 0,
            0, 0, 0, 0, 0, 0, 5, 0, 0, 0, 0, 0, 0, 0, 0, 7, 1, 0x61, 0,
        ],
    ),
    (
        147_456,
        &[
            1, 1, 1, 0, 0, 0, 0, 0, 0, 0, 0, 0, 255, 255, 255, 255, 255, 255, 255, 255, 0, 0, 0, 0,
            0, 0, 0, 0, 0, 5, 2, 0, 0, 0, 1, 2, 0, 0, 0, 2, 0,
        ],
    ),
    (4096, &NEXT),
];

/// The frame of a merge behind the others: page 2 into page 1 under page 3.
const MERGE: [u8; 19] = [0xA5, 0, 0, 0, 14, 0, 5, 0, 0, 0, 3, 0, 0, 0, 1, 0, 0, 0, 2];

/// What an opening leaves then: the three points in one page, the free page, the page above, and the next superblock's root,
/// highest page, pages in use and free head.
pub(crate) const MERGED: [(usize, &[u8]); 4] = [
    (
        139_264,
        &[
            1, 0, 1, 0, 0, 0, 0, 0, 0, 0, 0, 0, 255, 255, 255, 255, 255, 255, 255, 255, 1, 0, 3, 0,
            0, 0, 0, 0, 0, 0, 1, 0, 0, 0, 0, 0, 0, 0, 0, 5, 0, 0, 0, 0, 0, 0, 0, 0, 7, 1, 0x61, 0,
        ],
    ),
    (143_360, &[2, 0, 0, 0, 0, 0, 0]),
    (
        147_456,
        &[
            1, 1, 1, 0, 0, 0, 0, 0, 0, 0, 0, 0, 255, 255, 255, 255, 255, 255, 255, 255, 2, 0, 0, 0,
            1, 0,
        ],
    ),
    (4121, &[0, 0, 0, 3, 0, 0, 0, 3, 0, 0, 0, 2, 0, 0, 0, 2]),
];

/// What an opening answers: the root, the height, the highest page and the pages in use, with the number of records; or why not.
pub(crate) type Answer = Result<([u32; 4], u64), OpenFault>;

/// What the file of two levels answers.
pub(crate) const GOOD: Answer = Ok(([3, 2, 3, 3], 3));

fn meta_numbers(meta: &Meta) -> [u32; 4] {
    [meta.root, u32::from(meta.height), meta.high, meta.live]
}

/// Puts bytes at an offset.
pub(crate) fn put(bytes: &mut Vec<u8>, at: usize, piece: &[u8]) {
    for (place, byte) in bytes.iter_mut().skip(at).zip(piece) {
        *place = *byte;
    }
}

/// The file, of so many bytes at most, with these bytes at an offset.
pub(crate) fn file(alloc: Global, size: usize, at: usize, piece: &[u8]) -> Option<Vec<u8>> {
    let mut bytes = vec![in alloc; 0; SIZE].ok()?;
    put(&mut bytes, 0, &SUPER);
    put(&mut bytes, 8192, &SPLIT);
    put(&mut bytes, 12_298, &BEHIND);
    put(&mut bytes, at, piece);
    bytes.truncate(size);
    Some(bytes)
}

/// What an opening of a disk answers, and what it leaves.
pub(crate) fn open(alloc: Global, disk: MemDisk) -> (Answer, MemDisk) {
    match recover(alloc, disk) {
        Ok((store, count)) => {
            let said = meta_numbers(store.meta());
            (Ok((said, count)), store.into_disk())
        }
        Err((fault, disk)) => (Err(fault), disk),
    }
}

/// The same of bytes.
fn answer_of(alloc: Global, bytes: Vec<u8>) -> Answer {
    open(alloc, MemDisk::new(alloc, bytes)).0
}

/// The same of the file, over a disk that fails at the call of this number.
fn opened(alloc: Global, failing: u64) -> Option<(Answer, MemDisk)> {
    let calls = [failing].to_vec(alloc).ok()?;
    let bytes = file(alloc, SIZE, 0, &[])?;
    Some(open(alloc, MemDisk::failing(alloc, bytes, calls)))
}

/// Whether these bytes stand at an offset.
fn stands(bytes: &[u8], at: usize, want: &[u8]) -> bool {
    match bytes.get(at..) {
        Some(rest) => rest.starts_with(want),
        None => false,
    }
}

/// Whether these pieces stand at their offsets.
pub(crate) fn all_stand(bytes: &[u8], pieces: &[(usize, &[u8])]) -> bool {
    for (at, want) in pieces {
        if !stands(bytes, *at, want) {
            return false;
        }
    }
    true
}

/// Whether bytes open to the file.
fn opens_again(alloc: Global, bytes: &[u8]) -> bool {
    match bytes.to_vec(alloc) {
        Ok(bytes) => answer_of(alloc, bytes) == GOOD,
        Err(_) => false,
    }
}

/// Other bytes of the file at an offset, what an opening answers then, and what it leaves.
type Opening = (
    usize,
    &'static [u8],
    Answer,
    &'static [(usize, &'static [u8])],
);

const OPENINGS: [Opening; 2] = [
    (0, &[], GOOD, &LEFT),
    (12_391, &MERGE, Ok(([3, 2, 3, 2], 3)), &MERGED),
];

/// Whether an opening answers and leaves that, and answers it again.
pub(crate) fn opens(alloc: Global, disk: MemDisk, want: Answer, left: &[(usize, &[u8])]) -> bool {
    let (said, disk) = open(alloc, disk);
    let is_left = said == want && all_stand(disk.bytes(), left);
    is_left && open(alloc, disk).0 == want
}

/// Whether that comes of the file.
fn opens_so(alloc: Global, row: &Opening) -> Option<bool> {
    let (at, piece, want, left) = *row;
    let disk = MemDisk::new(alloc, file(alloc, SIZE, at, piece)?);
    Some(opens(alloc, disk, want, left))
}

#[test]
fn files_of_two_levels_open(rt: HostRuntime) {
    for (place, row) in OPENINGS.iter().enumerate() {
        expect(&rt, place, opens_so(rt.alloc(), row) == Some(true));
    }
}

/// What a crash before this call might have left.
fn image_of(disk: &MemDisk, before: u64, pick: Pick) -> Option<Vec<u8>> {
    disk.image(before, pick).ok()?
}

/// The first call before which a crash leaves bytes that don't open to the file. `None` where there is none. What a stop one call
/// earlier left too was tried with that one.
fn first_lost(alloc: Global, disk: &MemDisk, pick: Pick) -> Option<u64> {
    let mut tried = Vec::new(alloc);
    for before in 0..disk.calls().saturating_add(1) {
        let Some(image) = image_of(disk, before, pick) else {
            return Some(before);
        };
        if image != tried {
            if !opens_again(alloc, &image) {
                return Some(before);
            }
            tried = image;
        }
    }
    None
}

/// Whether an opening of these bytes, stopped in its turn, keeps the file.
fn is_kept_twice(alloc: Global, image: &[u8], pick: Pick) -> bool {
    match image.to_vec(alloc) {
        Ok(bytes) => {
            let (_, again) = open(alloc, MemDisk::new(alloc, bytes));
            first_lost(alloc, &again, pick).is_none()
        }
        Err(_) => false,
    }
}

/// The first call before which a crash leaves bytes of which this isn't so.
fn first_lost_again(alloc: Global, disk: &MemDisk, pick: Pick) -> Option<u64> {
    let mut tried = Vec::new(alloc);
    for before in 0..disk.calls().saturating_add(1) {
        let Some(image) = image_of(disk, before, pick) else {
            return Some(before);
        };
        if image != tried {
            if !is_kept_twice(alloc, &image, pick) {
                return Some(before);
            }
            tried = image;
        }
    }
    None
}

/// Whether no stop of an opening loses the file, nor one of the opening behind it.
fn stops_twice(alloc: Global, pick: Pick) -> Option<bool> {
    let (_, disk) = opened(alloc, NEVER)?;
    Some(first_lost(alloc, &disk, pick).is_none() && first_lost_again(alloc, &disk, pick).is_none())
}

#[test]
fn an_opening_stops_twice(rt: HostRuntime) {
    for (place, pick) in PICKS.iter().enumerate() {
        expect(&rt, place, stops_twice(rt.alloc(), *pick) == Some(true));
    }
}

/// The device calls of an opening: two superblocks, two pieces of each of the four frames and the closed gate behind them;
/// then come a sync, a write for each of the three pages, a read, a sync, a zero, a sync, and the six calls of the superblock.
const CALLS: u64 = 25;

/// Whether an opening of such a disk stopped at the call of this number, and what is left opens to the file.
pub(crate) fn has_stopped(alloc: Global, opened: &(Answer, MemDisk), call: u64) -> bool {
    let (said, disk) = opened;
    *said == Err(OpenFault::DiskFault)
        && disk.calls() == call.saturating_add(1)
        && opens_again(alloc, disk.bytes())
}

#[test]
fn a_failing_call_stops_an_opening(rt: HostRuntime) {
    for call in 0..CALLS {
        let stops = match opened(rt.alloc(), call) {
            Some(opened) => has_stopped(rt.alloc(), &opened, call),
            None => false,
        };
        expect(&rt, call as usize, stops);
    }
}

/// How many bytes of the file there are, other bytes of it at an offset, and why it isn't opened.
const DAMAGES: [(usize, usize, &[u8], OpenFault); 12] = [
    // the only superblock behind a closed gate, of another version, and with too many attributes
    (SIZE, 0, &[0xA4], OpenFault::NoSuper),
    (SIZE, 9, &[2], OpenFault::NoSuper),
    (SIZE, 11, &[5], OpenFault::NoSuper),
    // more pages than the disk has room for, and disks that are too short
    (
        SIZE,
        16,
        &[5],
        OpenFault::Small {
            needed: 159_744,
            found: 155_648,
        },
    ),
    (
        0,
        0,
        &[],
        OpenFault::Small {
            needed: 8192,
            found: 0,
        },
    ),
    (
        8191,
        0,
        &[],
        OpenFault::Small {
            needed: 8192,
            found: 8191,
        },
    ),
    (
        155_647,
        0,
        &[],
        OpenFault::Small {
            needed: 155_648,
            found: 155_647,
        },
    ),
    // a frame without a payload, one whose operation reads a page that no group touched, and one that takes a page again
    (SIZE, 8193, &[0, 0, 0, 0], OpenFault::BadGroup { frame: 0 }),
    (SIZE, 12_333, &[4], OpenFault::BadGroup { frame: 1 }),
    (SIZE, 12_354, &[2], OpenFault::BadGroup { frame: 2 }),
    // more pages in use than the highest page, and no page in its place where the log has no frame
    (SIZE, 36, &[2], OpenFault::Unsound { page: 0, rule: 1 }),
    (SIZE, 8192, &[0], OpenFault::Unsound { page: 1, rule: 0 }),
];

/// What an opening of the file answers then.
fn damaged(alloc: Global, size: usize, at: usize, piece: &[u8]) -> Option<Answer> {
    Some(answer_of(alloc, file(alloc, size, at, piece)?))
}

#[test]
fn damaged_files_are_refused(rt: HostRuntime) {
    for (place, &(size, at, piece, fault)) in DAMAGES.iter().enumerate() {
        let said = damaged(rt.alloc(), size, at, piece);
        expect(&rt, place, said == Some(Err(fault)));
    }
}

/// The layout of the file.
const LAYOUT: Layout = Layout {
    k: 1,
    pages: 4,
    log: 65_536,
    dcap: 6,
    icap: 32,
};

/// What an opening of a new file answers that was made over bytes of one kind.
fn made(alloc: Global, byte: u8) -> Option<Answer> {
    let disk = MemDisk::new(alloc, vec![in alloc; byte; SIZE].ok()?);
    let Ok(store) = create(alloc, disk, LAYOUT) else {
        return None;
    };
    let bytes = store.into_disk().bytes().to_vec(alloc).ok()?;
    Some(answer_of(alloc, bytes))
}

#[test]
fn a_new_file_opens(rt: HostRuntime) {
    // of zeros, and of noise that is an open gate everywhere
    for byte in [0, 165] {
        let want = Ok(([1, 1, 1, 1], 0));
        expect(&rt, usize::from(byte), made(rt.alloc(), byte) == Some(want));
    }
}
