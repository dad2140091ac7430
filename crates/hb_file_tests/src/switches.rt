//! The next turn begins while a store runs: its nine calls, a crash before each of them, and a fault of each; and several turns, one
//! behind the other, with changes in each. The disk tells nothing.
ghost use Rattle.std.specs.Prelude.{IfSome};
ghost use Rattle.hb_store.specs.Seen.{seen_as, uses_of};
ghost use Rattle.hb_file_tests.specs.Driven.{IsDrivenOnFirst};

use crate::driven_trees::{PARENTS_TOGETHER, SPLIT_AGAIN, SPLIT_TOGETHER, TWO_PARENTS};
use crate::drives::{Tree, file, image_opened, put_all, stand};
use crate::groups::{DELETE_1, PUT_1, PUT_5};
use crate::homes::{fails_behind, flush, home};
use crate::openings::{Answer, SUPER, open};
use crate::rows::expect;
use crate::stores::{EMPTY, NEVER, changed, disk, opened};
use hb_disk::{MemDisk, Pick, RotDisk};
use hb_store::Store;
use std::alloc::Global;

/// A tree that is driven, the pages that go home then, and the superblock of the turn that begins then. An opening has begun turn 1,
/// whose log is the second area. So this is turn 2: its superblock stands in the first place, and its log is the first area.
type Switching = (Tree, &'static str, &'static [u8]);

const SWITCHING: [Switching; 4] = [
    (SPLIT_AGAIN, "243", SPLIT_TURN),
    (SPLIT_TOGETHER, "243", SPLIT_TURN),
    (TWO_PARENTS, "251634", PARENTS_TURN),
    (PARENTS_TOGETHER, "251634", PARENTS_TURN),
];

/// Of five pages four are taken, the root is page 3, and there are two levels.
const SPLIT_TURN: &[u8] =
    b"\xa5HBPITREE\x01\x02\x01\x02\0\0\0\x05\0\x01\0\0\0\x06\0\x20\0\0\0\x03\0\0\0\x04\0\0\0\x04\0\0\0\0";

/// All of six are, the root is page 5, and there are three levels.
const PARENTS_TURN: &[u8] =
    b"\xa5HBPITREE\x01\x02\x01\x03\0\0\0\x06\0\x01\0\0\0\x06\0\x20\0\0\0\x05\0\0\0\x06\0\0\0\x06\0\0\0\0";

/// How many calls begin a turn.
const CALLS: u64 = 9;

/// The disk once the pages went home and the turn began.
fn switched(alloc: Global, row: &Switching) -> Option<MemDisk> {
    let (tree, pages, _) = row;
    let mut want = String::from_str(alloc, pages).ok()?;
    want.push_str("s").ok()?;
    home(alloc, tree, NEVER, want.as_str())
}

/// Whether the disk then has the superblock, all pages in their places, and otherwise what the driving wrote.
fn is_switched(alloc: Global, row: &Switching) -> Option<bool> {
    let (tree, _, superblock) = row;
    let mut want = file(alloc, tree)?;
    put_all(&mut want, tree.written);
    put_all(&mut want, &[(0, *superblock)]);
    let disk = switched(alloc, row)?;
    let front = disk.bytes().get(..139_264)? == want.get(..139_264)?;
    Some(front && stand(disk.bytes(), tree, tree.steps.len()))
}

#[test]
fn a_turn_begins(rt: HostRuntime) {
    for (place, row) in SWITCHING.iter().enumerate() {
        expect(&rt, place, is_switched(rt.alloc(), row) == Some(true));
    }
}

/// Which bytes a crash may change behind so many of the nine calls: from which offset on, and how many. The calls are a sync; the
/// zero of the log area; a sync; the gate, closed; a sync; the body; a sync; the gate, open; and a sync.
const OPEN: [(u64, usize, usize); 9] = [
    (1, 0, 0),
    (2, 8192, 65_536),
    (3, 0, 0),
    (4, 0, 1),
    (5, 0, 0),
    (6, 1, 40),
    (7, 0, 0),
    (8, 0, 1),
    (9, 0, 0),
];

/// Whether noise stands exactly there in what a crash leaves.
fn is_open(alloc: Global, disk: &MemDisk, call: u64, at: usize, count: usize) -> Option<bool> {
    let before = disk.calls().saturating_sub(CALLS).saturating_add(call);
    let noise = disk.image(before, Pick::Noise(7)).ok()??;
    let mut want = disk.image(before, Pick::New).ok()??;
    for byte in want.iter_mut().skip(at).take(count) {
        *byte = 7;
    }
    Some(noise == want)
}

/// Whether it is so behind each of the calls.
fn are_open(alloc: Global, row: &Switching) -> Option<bool> {
    let disk = switched(alloc, row)?;
    for &(call, at, count) in &OPEN {
        if !is_open(alloc, &disk, call, at, count)? {
            return Some(false);
        }
    }
    Some(true)
}

#[test]
fn nine_calls_begin_a_turn(rt: HostRuntime) {
    for (place, row) in SWITCHING.iter().enumerate() {
        expect(&rt, place, are_open(rt.alloc(), row) == Some(true));
    }
}

/// The kinds of images.
const TEARS: [Pick; 5] = [
    Pick::Old,
    Pick::New,
    Pick::Noise(165),
    Pick::Noise(0),
    Pick::Noise(7),
];

/// Whether each image before this call opens to the file after all steps.
fn is_kept(alloc: Global, tree: &Tree, disk: &MemDisk, before: u64) -> bool {
    for pick in TEARS {
        if image_opened(alloc, tree, tree.steps.len(), disk, before, pick).is_none() {
            return false;
        }
    }
    true
}

/// The first of the nine calls, or 9 for the moment behind them, before which a crash loses the file. `None` where there is none, and
/// else 9,999 where no turn begins.
fn first_lost(alloc: Global, row: &Switching) -> Option<u64> {
    let Some(disk) = switched(alloc, row) else {
        return Some(9999);
    };
    let first = disk.calls().saturating_sub(CALLS);
    for call in 0..CALLS.saturating_add(1) {
        if !is_kept(alloc, &row.0, &disk, first.saturating_add(call)) {
            return Some(call);
        }
    }
    None
}

#[test]
fn a_crash_while_a_turn_begins_loses_nothing(rt: HostRuntime) {
    for (place, row) in SWITCHING.iter().enumerate() {
        expect(&rt, place, first_lost(rt.alloc(), row).is_none());
    }
}

/// The first of the nine calls whose fault doesn't stop the store, or behind which an image doesn't open to the file.
fn first_fault_lost(alloc: Global, row: &Switching) -> Option<u64> {
    let (tree, pages, _) = row;
    for call in 0..CALLS {
        if fails_behind(alloc, tree, pages, call) != Some(true) {
            return Some(call);
        }
    }
    None
}

#[test]
fn a_fault_while_a_turn_begins_loses_nothing(rt: HostRuntime) {
    for (place, row) in SWITCHING.iter().enumerate() {
        expect(&rt, place, first_fault_lost(rt.alloc(), row).is_none());
    }
}

/// The changes of a turn on page 1, how many bytes wait behind them, and how many records the page has then. The first change of each
/// turn has the page's image, 4,100 bytes, and the others don't.
type Turn = (&'static [&'static [u8]], u32, u64);

const TURNS: [Turn; 5] = [
    (&[&PUT_1, &PUT_5], 4131, 2),
    (&[&DELETE_1], 4114, 1),
    (&[&PUT_1, &DELETE_1], 4129, 1),
    (&[&PUT_1], 4115, 2),
    (&[&DELETE_1], 4114, 1),
];

/// Forces what waits, writes page 1 to its place, and begins the next turn.
fn flush_all(store: &mut Store<RotDisk>) -> Option<()>
    requires { IsDrivenOnFirst (seen_as store.old) (uses_of store.old) }
    ensures { IfSome result (λ _. IsDrivenOnFirst (seen_as store.new) (uses_of store.new)) }
{
    for letter in "f1s".chars() {
        if flush(store)? != letter {
            return None;
        }
    }
    Some(())
}

/// Does the changes of a turn, and begins the next one.
fn turn(alloc: Global, store: &mut Store<RotDisk>, groups: &[&[u8]], pending: u32) -> Option<()>
    requires { IsDrivenOnFirst (seen_as store.old) (uses_of store.old) }
    ensures { IfSome result (λ _. IsDrivenOnFirst (seen_as store.new) (uses_of store.new)) }
{
    for group in groups {
        changed(alloc, store, group)?;
    }
    if store.pending() != pending {
        return None;
    }
    flush_all(store)
}

/// The store of a file whose page 1 is pinned, and has no record.
#[tactic(auto, using(crate::proofs::FirstPage::first_may_pin, crate::proofs::FirstPage::first_held))]
fn begun(alloc: Global) -> Option<Store<RotDisk>>
    ensures { IfSome result (λ store. IsDrivenOnFirst (seen_as store) (uses_of store)) }
{
    let mut store = opened(alloc, (4, 1, 1, 0), disk(alloc, &[], &EMPTY, NEVER)?)?;
    match store.fetch(1) {
        Ok(()) => {
            store.pin(1);
            Some(store)
        }
        Err(_) => None,
    }
}

/// The disk behind so many turns.
fn turned(alloc: Global, count: usize) -> Option<MemDisk> {
    let mut store = begun(alloc)?;
    for (groups, pending, _) in TURNS.get(..count)? {
        turn(alloc, &mut store, groups, *pending)?;
    }
    Some(store.into_disk().inner)
}

/// What is on the disk behind so many turns: where the log area of the last one begins, and the length of its first frame; where that
/// of the next one begins; and where the next one's superblock stands, with its turn.
type Turned = (usize, usize, u8, usize, usize, u8);

const AREAS: [Turned; 5] = [
    (1, 8192, 0x23, 73_728, 4096, 1),
    (2, 73_728, 0x12, 8192, 0, 2),
    (3, 8192, 0x21, 73_728, 4096, 3),
    (4, 73_728, 0x13, 8192, 0, 0),
    (5, 8192, 0x12, 73_728, 4096, 1),
];

/// Whether a frame of this length begins there, with the image of page 1.
fn has_frame(bytes: &[u8], at: usize, length: u8) -> bool {
    match bytes.get(at..) {
        Some(rest) => rest.starts_with(&[0xA5, 0, 0, 0x10, length, 1, 0, 0, 0, 1]),
        None => false,
    }
}

/// Whether a log area that begins there has zeros alone.
fn is_empty(bytes: &[u8], at: usize) -> bool {
    match bytes.get(at..at.saturating_add(65_536)) {
        Some(area) => area.iter().all(|byte| *byte == 0),
        None => false,
    }
}

/// Whether the superblock of a turn stands there.
fn has_super(bytes: &[u8], at: usize, turn: u8) -> bool {
    let mut want = SUPER;
    want[10] = turn;
    match bytes.get(at..) {
        Some(rest) => rest.starts_with(&want),
        None => false,
    }
}

/// Whether all that is there.
fn has_turned(alloc: Global, row: Turned) -> Option<bool> {
    let (count, last, length, next, place, turn) = row;
    let disk = turned(alloc, count)?;
    let bytes = disk.bytes();
    Some(has_frame(bytes, last, length) && is_empty(bytes, next) && has_super(bytes, place, turn))
}

#[test]
fn turns_follow_turns(rt: HostRuntime) {
    for row in &AREAS {
        expect(&rt, row.0, has_turned(rt.alloc(), *row) == Some(true));
    }
}

/// Whether the file opens behind so many turns, with its records. Each turn had four calls of a force, one for the page, and nine.
fn opens(alloc: Global, count: usize, records: u64) -> Option<bool> {
    let disk = turned(alloc, count)?;
    let calls = (count as u64).saturating_mul(14).saturating_add(1);
    let right = disk.calls() == calls;
    let bytes = disk.bytes().to_vec(alloc).ok()?;
    let want: Answer = Ok(([1, 1, 1, 1], records));
    Some(right && open(alloc, MemDisk::new(alloc, bytes)).0 == want)
}

#[test]
fn files_open_behind_turns(rt: HostRuntime) {
    for (place, &(_, _, records)) in TURNS.iter().enumerate() {
        let count = place.saturating_add(1);
        expect(&rt, count, opens(rt.alloc(), count, records) == Some(true));
    }
}
