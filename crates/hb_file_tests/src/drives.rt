//! Stores that are driven over files of several pages, as `driven_trees` lists: each allocation's number, each group, and the
//! bytes on the disk. A driving is stopped before each of its device calls, and each call fails once. What is left is opened, and what some
//! of the stops leave is opened again after a stop inside that opening: the file has the pages after so many of the groups.
ghost use Rattle.std.specs.Prelude.{◌≡◌, Some, true, IfSome};
ghost use Rattle.hb_store.specs.Seen.{seen_as, uses_of};
ghost use Rattle.hb_file_tests.specs.Driven.{IsDrivenHere};

use crate::driven_trees::{PARENTS_TOGETHER, SPLIT_AGAIN, SPLIT_TOGETHER, TWO_PARENTS};
use crate::rows::expect;
use crate::stores::{NEVER, all_held, done, forced};
use hb_disk::{MemDisk, Pick, RotDisk};
use hb_ops::Meta;
use hb_restart::recover;
use hb_store::Store;
use std::alloc::Global;

/// A driving. The file has so many bytes: these pieces at their offsets, and zeros. It is opened and these pages are pinned.
#[derive(Clone, Copy)]
pub(crate) struct Tree {
    pub(crate) size: usize,
    pub(crate) file: &'static [(usize, &'static [u8])],
    pub(crate) fetched: &'static [u32],
    /// For each step the number that an allocation takes, 0 for none; the operation, as a group without page images has it; and
    /// how many bytes its group has.
    pub(crate) steps: &'static [(u32, &'static [u8], u32)],
    /// Behind which numbers of steps all groups that wait are forced. The last one is the number of all steps.
    pub(crate) ends: &'static [usize],
    /// What the opening and the driving write: pieces at their offsets.
    pub(crate) written: &'static [(usize, &'static [u8])],
    /// After each number of steps: the root, the height, the highest page and the pages in use.
    pub(crate) said: &'static [[u32; 4]],
    /// How many records there are, always.
    pub(crate) records: u64,
    /// From which number of steps on, and up to which, a page of this number has these fields.
    pub(crate) pages: &'static [(usize, usize, usize, &'static [u8])],
}

/// The trees.
const TREES: [Tree; 4] = [SPLIT_AGAIN, SPLIT_TOGETHER, TWO_PARENTS, PARENTS_TOGETHER];

/// The three kinds of images.
pub(crate) const PICKS: [Pick; 3] = [Pick::Old, Pick::New, Pick::Noise(165)];

/// Puts pieces at their offsets.
pub(crate) fn put_all(bytes: &mut Vec<u8>, pieces: &[(usize, &[u8])]) {
    for (at, piece) in pieces {
        for (place, byte) in bytes.iter_mut().skip(*at).zip(*piece) {
            *place = *byte;
        }
    }
}

/// The file of a tree.
pub(crate) fn file(alloc: Global, tree: &Tree) -> Option<Vec<u8>> {
    let Ok(mut bytes) = vec![in alloc; 0; tree.size] else {
        return None;
    };
    put_all(&mut bytes, tree.file);
    Some(bytes)
}

/// The store of a file, over a disk that tells nothing and fails at the call of this number.
fn opened(alloc: Global, bytes: Vec<u8>, failing: u64) -> Option<Store<RotDisk>>
    ensures { IfSome result (λ store. IsDrivenHere (seen_as store) (uses_of store)) }
{
    let calls = [failing].to_vec(alloc).ok()?;
    let disk = RotDisk {
        inner: MemDisk::failing(alloc, bytes, calls),
        before: 0,
        at: u64::MAX,
        byte: 0,
    };
    match recover(alloc, disk) {
        Ok((store, _)) => {
            store.stands_well();
            Some(store)
        }
        Err(_) => None,
    }
}

/// The store of a tree's file, with its pages pinned.
pub(crate) fn begun(alloc: Global, tree: &Tree, failing: u64) -> Option<Store<RotDisk>>
    ensures { IfSome result (λ store. IsDrivenHere (seen_as store) (uses_of store)) }
{
    let mut store = opened(alloc, file(alloc, tree)?, failing)?;
    all_held(&mut store, tree.fetched)?;
    Some(store)
}

/// The number that an allocation takes, 0 for none, where the free chain has no page.
#[tactic(auto, using(crate::proofs::Untold::numbered))]
fn number(store: &mut Store<RotDisk>) -> Option<u32>
    requires { IsDrivenHere (seen_as store.old) (uses_of store.old) }
    ensures { IfSome result (λ _. IsDrivenHere (seen_as store.new) (uses_of store.new)) }
{
    if store.meta().free != 0 {
        return None;
    }
    match store.next_page().ok()? {
        Some((id, _)) => Some(id),
        None => Some(0),
    }
}

/// Takes a step, and where that is asked for forces all groups that wait. `Some(false)` where the force failed; `None` where something
/// else isn't as it is to be.
fn stepped(
    alloc: Global,
    store: &mut Store<RotDisk>,
    step: (u32, &[u8], u32),
    is_forced: bool,
) -> Option<bool>
    requires { IsDrivenHere (seen_as store.old) (uses_of store.old) }
    ensures { result ≡ Some true → IsDrivenHere (seen_as store.new) (uses_of store.new) }
{
    let (fresh, group, more) = step;
    let pending = store.pending().saturating_add(more);
    if number(store)? != fresh || !done(alloc, store, group)? || store.pending() != pending {
        return None;
    }
    if is_forced {
        Some(forced(store))
    } else {
        Some(true)
    }
}

/// The store behind the steps of a driving and their forces, and whether all were done: else a force failed, the last one.
pub(crate) fn walked(alloc: Global, tree: &Tree, failing: u64) -> Option<(Store<RotDisk>, bool)>
    ensures { IfSome result (λ x. x.1 ≡ true → IsDrivenHere (seen_as x.0) (uses_of x.0)) }
{
    let mut store = begun(alloc, tree, failing)?;
    let mut count = 0;
    for step in tree.steps {
        count = usize::saturating_add(count, 1);
        if !stepped(alloc, &mut store, *step, tree.ends.contains(&count))? {
            return Some((store, false));
        }
    }
    Some((store, true))
}

/// The disk behind a driving, up to the force that failed.
fn driven(alloc: Global, tree: &Tree, failing: u64) -> Option<MemDisk> {
    let (store, _all) = walked(alloc, tree, failing)?;
    Some(store.into_disk().inner)
}

/// How many device calls there are before the first force.
fn calls_before(alloc: Global, tree: &Tree) -> Option<u64> {
    Some(begun(alloc, tree, NEVER)?.into_disk().inner.calls())
}

/// Whether a driving leaves these bytes on the disk, and no others.
fn writes(alloc: Global, tree: &Tree) -> Option<bool> {
    let mut want = file(alloc, tree)?;
    put_all(&mut want, tree.written);
    let disk = driven(alloc, tree, NEVER)?;
    Some(disk.bytes() == want.as_slice())
}

#[test]
fn a_driving_writes_these_bytes(rt: HostRuntime) {
    for (place, tree) in TREES.iter().enumerate() {
        expect(&rt, place, writes(rt.alloc(), tree) == Some(true));
    }
}

/// As many zeros as a page has bytes.
const ZEROS: [u8; 4096] = [0; 4096];

/// Whether a page stands in its place: these fields, and zeros behind them.
pub(crate) fn stands(bytes: &[u8], page: usize, fields: &[u8]) -> bool {
    let from = page.saturating_mul(4096).saturating_add(135_168);
    let Some(place) = bytes.get(from..from.saturating_add(4096)) else {
        return false;
    };
    match place.strip_prefix(fields) {
        Some(rest) => ZEROS.starts_with(rest),
        None => false,
    }
}

/// Whether the pages after so many steps stand in their places.
pub(crate) fn stand(bytes: &[u8], tree: &Tree, count: usize) -> bool {
    for (from, until, page, fields) in tree.pages {
        if *from <= count && count < *until && !stands(bytes, *page, fields) {
            return false;
        }
    }
    true
}

/// The disk behind an opening, where that gives the file after so many steps.
fn reopened(alloc: Global, tree: &Tree, count: usize, bytes: Vec<u8>) -> Option<MemDisk> {
    let Ok((store, records)) = recover(alloc, MemDisk::new(alloc, bytes)) else {
        return None;
    };
    let said = meta_numbers(store.meta());
    let disk = store.into_disk();
    let right = records == tree.records && tree.said.get(count) == Some(&said);
    if right && stand(disk.bytes(), tree, count) {
        Some(disk)
    } else {
        None
    }
}

/// What changes of what a file says: the root, the height, the highest page and the pages in use.
fn meta_numbers(meta: &Meta) -> [u32; 4] {
    [meta.root, u32::from(meta.height), meta.high, meta.live]
}

/// Whether what a crash before this call leaves opens to the file after so many steps. The disk behind that opening.
pub(crate) fn image_opened(
    alloc: Global,
    tree: &Tree,
    count: usize,
    disk: &MemDisk,
    before: u64,
    pick: Pick,
) -> Option<MemDisk> {
    reopened(alloc, tree, count, disk.image(before, pick).ok()??)
}

/// How many steps so many forces make last.
fn lasting(tree: &Tree, forces: u64) -> usize {
    match (forces as usize).checked_sub(1) {
        Some(place) => tree.ends.get(place).copied().unwrap_or(usize::MAX),
        None => 0,
    }
}

/// How many steps a crash leaves that comes before this call of the forces: each is a write, a sync, the write of the gate, and a
/// sync. A gate that is written and not synced is closed in an old image, and open in the others.
fn steps_left(tree: &Tree, call: u64, pick: Pick) -> usize {
    match pick {
        Pick::Old => lasting(tree, call / 4),
        Pick::New | Pick::Noise(_) => lasting(tree, call.saturating_add(1) / 4),
    }
}

/// The first call of the forces before which a crash leaves anything else. `None` where there is none, and else 9,999 where
/// there is no driving.
fn first_lost(alloc: Global, tree: &Tree, pick: Pick) -> Option<u64> {
    let (Some(first), Some(disk)) = (calls_before(alloc, tree), driven(alloc, tree, NEVER)) else {
        return Some(9999);
    };
    for call in 0..disk.calls().saturating_sub(first).saturating_add(1) {
        let count = steps_left(tree, call, pick);
        if image_opened(alloc, tree, count, &disk, first.saturating_add(call), pick).is_none() {
            return Some(call);
        }
    }
    None
}

#[test]
fn a_driving_stops_before_each_call(rt: HostRuntime) {
    for (place, tree) in TREES.iter().enumerate() {
        for pick in PICKS {
            let lost = first_lost(rt.alloc(), tree, pick);
            expect(&rt, place, lost.is_none());
        }
    }
}

/// An opening ends with this many device calls at most: a sync, a write for each of six pages, a read, two that clear what is
/// hidden, a sync, a zero, a sync, and six of the superblock. In front of them it only reads.
const LAST_CALLS: u64 = 19;

/// Whether these bytes open so, and again where that opening is stopped before each of its last calls in its turn. A stop before a
/// read leaves what was opened, and what a stop one call earlier left too was tried with that one.
fn opens_twice(alloc: Global, tree: &Tree, count: usize, bytes: Vec<u8>, pick: Pick) -> Option<()> {
    let again = reopened(alloc, tree, count, bytes)?;
    let mut tried = Vec::new(alloc);
    for call in again.calls().saturating_sub(LAST_CALLS)..again.calls().saturating_add(1) {
        let image = again.image(call, pick).ok()??;
        if image != tried {
            reopened(alloc, tree, count, image.to_vec(alloc).ok()?)?;
            tried = image;
        }
    }
    Some(())
}

/// Whether it is so of what a crash leaves before each of so many last calls of a driving, and behind it. What a stop one call earlier
/// left too was tried with that one.
fn ends_twice(alloc: Global, tree: &Tree, pick: Pick, last: u64) -> Option<()> {
    let first = calls_before(alloc, tree)?;
    let disk = driven(alloc, tree, NEVER)?;
    let calls = disk.calls().saturating_sub(first);
    let mut tried = Vec::new(alloc);
    for call in calls.saturating_sub(last)..calls.saturating_add(1) {
        let image = disk.image(first.saturating_add(call), pick).ok()??;
        if image != tried {
            let bytes = image.to_vec(alloc).ok()?;
            opens_twice(alloc, tree, steps_left(tree, call, pick), bytes, pick)?;
            tried = image;
        }
    }
    Some(())
}

/// How many last calls of a driving. Of old images all, each of which leaves a number of groups. Of the others those of the last force,
/// which leave a frame that is torn, or a gate that is open and not synced.
const STOPS: [(Pick, u64); 3] = [(Pick::Old, NEVER), (Pick::New, 3), (Pick::Noise(165), 3)];

#[test]
fn an_opening_behind_a_driving_stops(rt: HostRuntime) {
    for (place, tree) in TREES.iter().enumerate() {
        for (pick, last) in STOPS {
            let opened = ends_twice(rt.alloc(), tree, pick, last);
            expect(&rt, place, opened.is_some());
        }
    }
}

/// How many forces more than were done a fault leaves: at the frame's body, its sync, its gate, and the gate's sync; as an
/// old image has them, as the disk reads, and in noise.
const FAULTS: [[u64; 3]; 4] = [[0, 0, 0], [0, 0, 0], [0, 0, 1], [0, 1, 1]];

/// Whether each image behind a fault at this call of the forces opens so.
fn survives(alloc: Global, tree: &Tree, first: u64, call: u64) -> Option<()> {
    let disk = driven(alloc, tree, first.saturating_add(call))?;
    if disk.calls() != first.saturating_add(call).saturating_add(1) {
        return None;
    }
    let more = FAULTS.get((call % 4) as usize)?;
    for (pick, more) in PICKS.iter().zip(more) {
        let count = lasting(tree, more.saturating_add(call / 4));
        image_opened(alloc, tree, count, &disk, disk.calls(), *pick)?;
    }
    Some(())
}

/// The first call of the forces behind whose fault this isn't so.
fn first_fault_lost(alloc: Global, tree: &Tree) -> Option<u64> {
    let Some(first) = calls_before(alloc, tree) else {
        return Some(9999);
    };
    for call in 0..(tree.ends.len() as u64).saturating_mul(4) {
        if survives(alloc, tree, first, call).is_none() {
            return Some(call);
        }
    }
    None
}

#[test]
fn each_call_of_a_driving_fails(rt: HostRuntime) {
    for (place, tree) in TREES.iter().enumerate() {
        let lost = first_fault_lost(rt.alloc(), tree);
        expect(&rt, place, lost.is_none());
    }
}
