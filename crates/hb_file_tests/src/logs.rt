//! Logs of files of one page and of two, by hand: what is read of them, and the first bad frame.
ghost use Rattle.std.specs.Prelude.{◌≤◌};
ghost use Rattle.hb_layout.specs.Offsets.{file_size};
ghost use Rattle.hb_super.specs.Superblocks.{IsLegal};

use crate::rows::expect;
use crate::stores::{EMPTY, FOUR, NEVER, POINTS, SPLIT, disk};
use hb_ops::Meta;
use hb_store::{LogStop, read_log};
use std::alloc::Global;

/// What a file of one page says, and one of two pages, of which one is taken.
const ONE: Meta = Meta { pages: 1, ..FOUR };

const TWO: Meta = Meta { pages: 2, ..FOUR };

/// What a log begins with.
#[derive(Clone, Copy)]
enum Front {
    /// Nothing.
    None,
    /// A frame with the put of the point 5 and a page image of an empty page under this number.
    Put(u8),
    /// A frame with the split of page 1 at this value and its page image.
    Split(u8),
}

/// Puts bytes at an offset, as far as there are bytes.
fn put_at(bytes: &mut Vec<u8>, at: usize, piece: &[u8]) {
    for (place, byte) in bytes.iter_mut().skip(at).zip(piece) {
        *place = *byte;
    }
}

/// A log with these bytes behind its front.
fn log_of(alloc: Global, front: Front, behind: &[u8]) -> Option<Vec<u8>> {
    let mut bytes = vec![in alloc; 0; 4200].ok()?;
    match front {
        Front::None => put_at(&mut bytes, 0, behind),
        Front::Put(number) => {
            put_at(&mut bytes, 0, &[0xA5, 0, 0, 0x10, 0x14, 1, 0, 0, 0, number]);
            put_at(&mut bytes, 10, &EMPTY);
            put_at(
                &mut bytes,
                4106,
                &[1, 0, 0, 0, 1, 0, 0, 0, 0, 0, 0, 0, 5, 1, 0x61],
            );
            put_at(&mut bytes, 4121, behind);
        }
        Front::Split(value) => {
            put_at(&mut bytes, 0, &[0xA5, 0, 0, 0x10, 0x1E, 1, 0, 0, 0, 1]);
            put_at(&mut bytes, 10, &POINTS);
            put_at(&mut bytes, 4106, &SPLIT[1..]);
            put_at(&mut bytes, 4129, &[value]);
        }
    }
    Some(bytes)
}

/// How many pages the log touches of a file that says this, and `t`; or its first bad frame, and `b`.
fn read(alloc: Global, meta: &Meta, log: &[u8]) -> Option<(usize, char)>
    requires legal { IsLegal 0 meta.now }
    requires room { file_size meta.now ≤ 155648 }
{
    let mut disk = disk(alloc, log, &EMPTY, NEVER)?;
    match read_log(alloc, &mut disk, 0, meta) {
        Ok(touched) => Some((touched.pages.len(), 't')),
        Err(LogStop::BadGroup { frame }) => Some((frame as usize, 'b')),
        Err(_) => None,
    }
}

/// The same of a file of two pages, or else of one.
fn told(alloc: Global, is_two: bool, front: Front, behind: &[u8]) -> Option<(usize, char)> {
    let log = log_of(alloc, front, behind)?;
    if is_two {
        read(alloc, &TWO, &log)
    } else {
        read(alloc, &ONE, &log)
    }
}

/// Whether the file has two pages, its log, and what is read of it.
const ROWS: [(bool, Front, &[u8], (usize, char)); 25] = [
    (false, Front::None, &[], (0, 't')),
    // a frame with a bad length
    (false, Front::None, b"\xA5\0\0\0\0", (0, 'b')),
    // a payload that is no list of groups, before a frame with a bad length
    (
        false,
        Front::None,
        b"\xA5\0\0\0\x01\xFF\xA5\xFF\xFF\xFF\xFF",
        (0, 'b'),
    ),
    // a put into a page that wasn't touched
    (
        false,
        Front::None,
        b"\xA5\0\0\0\x10\x00\x01\0\0\0\x01\0\0\0\0\0\0\0\x05\x01a",
        (0, 'b'),
    ),
    // a closed gate
    (false, Front::None, b"\xA4\0\0\0\x01\xFF", (0, 't')),
    // a bad frame behind a good one, and a page that the file doesn't have
    (false, Front::Put(1), &[], (1, 't')),
    (false, Front::Put(1), b"\xA5\0\0\0\0", (1, 'b')),
    (false, Front::Put(1), b"\xA5\0\0\0\x01\xFF", (1, 'b')),
    (false, Front::Put(2), &[], (0, 'b')),
    // growths: page 1 isn't the next one, no page is free afterwards, and none is left for a second level
    (
        true,
        Front::None,
        b"\xA5\0\0\0\x0A\0\x06\0\0\0\x02\0\0\0\0",
        (1, 't'),
    ),
    (
        true,
        Front::None,
        b"\xA5\0\0\0\x0A\0\x06\0\0\0\x01\0\0\0\0",
        (0, 'b'),
    ),
    (
        true,
        Front::None,
        b"\xA5\0\0\0\x0A\0\x06\0\0\0\x02\0\0\0\x01",
        (0, 'b'),
    ),
    (
        true,
        Front::None,
        b"\xA5\0\0\0\x0A\0\x06\0\0\0\x02\0\0\0\0\xA5\0\0\0\x0A\0\x06\0\0\0\x03\0\0\0\0",
        (1, 'b'),
    ),
    // two groups in one frame: the second growth is bad, and so the frame is; then the same behind a good frame
    (
        true,
        Front::None,
        b"\xA5\0\0\0\x14\0\x06\0\0\0\x02\0\0\0\0\0\x06\0\0\0\x03\0\0\0\0",
        (0, 'b'),
    ),
    (
        true,
        Front::None,
        b"\xA5\0\0\0\x0A\0\x06\0\0\0\x02\0\0\0\0\xA5\0\0\0\x14\0\x06\0\0\0\x03\0\0\0\0\0\x06\0\0\0\x04\0\0\0\0",
        (1, 'b'),
    ),
    // a put and its delete; two puts of one point; a put into a page that wasn't touched, in front of a good one and behind one
    (
        false,
        Front::Put(1),
        b"\xA5\0\0\0\x1D\0\x01\0\0\0\x01\0\0\0\0\0\0\0\x01\0\0\x02\0\0\0\x01\0\0\0\0\0\0\0\x01",
        (1, 't'),
    ),
    (
        false,
        Front::Put(1),
        b"\xA5\0\0\0\x1E\0\x01\0\0\0\x01\0\0\0\0\0\0\0\x01\0\0\x01\0\0\0\x01\0\0\0\0\0\0\0\x01\0",
        (1, 'b'),
    ),
    (
        true,
        Front::Put(1),
        b"\xA5\0\0\0\x1E\0\x01\0\0\0\x02\0\0\0\0\0\0\0\x01\0\0\x01\0\0\0\x01\0\0\0\0\0\0\0\x01\0",
        (1, 'b'),
    ),
    (
        true,
        Front::Put(1),
        b"\xA5\0\0\0\x1E\0\x01\0\0\0\x01\0\0\0\0\0\0\0\x01\0\0\x01\0\0\0\x02\0\0\0\0\0\0\0\x01\0",
        (1, 'b'),
    ),
    // a byte too many behind a group, and a group that is cut short
    (
        false,
        Front::Put(1),
        b"\xA5\0\0\0\x10\0\x01\0\0\0\x01\0\0\0\0\0\0\0\x01\0\0",
        (1, 'b'),
    ),
    (
        false,
        Front::Put(1),
        b"\xA5\0\0\0\x1C\0\x01\0\0\0\x01\0\0\0\0\0\0\0\x01\0\0\x02\0\0\0\x01\0\0\0\0\0\0\0\x01",
        (1, 'b'),
    ),
    // splits: a cut at 1 or at 6 leaves a side without a record
    (true, Front::Split(5), &[], (2, 't')),
    (true, Front::Split(2), &[], (2, 't')),
    (true, Front::Split(1), &[], (0, 'b')),
    (true, Front::Split(6), &[], (0, 'b')),
];

#[test]
fn logs_are_read(rt: HostRuntime) {
    for (place, &(is_two, front, behind, want)) in ROWS.iter().enumerate() {
        let read = told(rt.alloc(), is_two, front, behind);
        expect(&rt, place, read == Some(want));
    }
}
