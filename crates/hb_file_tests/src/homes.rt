//! Pages that go home: which one a flush writes next, when, and what stands in its place then; and what is left of a file where a
//! crash or a fault comes on the way. The disk tells nothing.
ghost use Rattle.std.specs.Prelude.{◌≡◌, false, IfSome};
ghost use Rattle.hb_store.specs.Seen.{seen_as, uses_of};
ghost use Rattle.hb_file_tests.specs.Driven.{IsDrivenOnFirst};

use crate::driven_trees::{PARENTS_TOGETHER, SPLIT_AGAIN, SPLIT_TOGETHER, TWO_PARENTS};
use crate::drives::{PICKS, Tree, file, image_opened, put_all, stand, stands, walked};
use crate::groups::behind;
use crate::openings::{LEFT, MERGED, all_stand};
use crate::rows::expect;
use crate::stores::{NEVER, POINTS};
use hb_disk::{MemDisk, RotDisk};
use hb_store::{Flushed, Store};
use std::alloc::Global;

/// What a flush did: `f` for groups that were forced, the number of a page that was written home, or `w` above 9, `s` for a turn
/// that began, and `n` for none of these. `None` where it failed.
#[tactic(auto, using(crate::proofs::Untold::flushed_runs, crate::proofs::FirstPage::first_flushed))]
pub(crate) fn flush(store: &mut Store<RotDisk>) -> Option<char>
    requires { (seen_as store.old).stopped ≡ false }
    ensures runs { IfSome result (λ _. (seen_as store.new).stopped ≡ false) }
    ensures first { IsDrivenOnFirst (seen_as store.old) (uses_of store.old) → IfSome result (λ _. IsDrivenOnFirst (seen_as store.new) (uses_of store.new)) }
{
    match store.flush_step() {
        Ok(Flushed::Forced) => Some('f'),
        Ok(Flushed::Written(id)) => Some(char::from_digit(id, 10).unwrap_or('w')),
        Ok(Flushed::Switched) => Some('s'),
        Ok(Flushed::Nothing) => Some('n'),
        Err(_fault) => None,
    }
}

/// Whether flushes do this, one after the other. `e` is a flush that failed, and stopped the store; none comes behind it.
fn flushes(store: &mut Store<RotDisk>, want: &str) -> bool
    requires { (seen_as store.old).stopped ≡ false }
{
    for letter in want.chars() {
        match flush(store) {
            Some(did) if did == letter => {}
            Some(_) => return false,
            None => return letter == 'e' && store.stopped(),
        }
    }
    true
}

/// Whether the operations are those of the tree, how many of them were done, what flushes do then, and how many calls the disk has
/// had: one read, four for the groups, however many they are, one a page, and nine for the turn. The order is that in which the pages
/// were last changed.
const FLUSHES: [(bool, usize, &str, u64); 9] = [
    // a page that is fetched alone stays as it is
    (false, 0, "n", 1),
    (false, 1, "f1sn", 15),
    (false, 2, "f1sn", 15),
    (false, 3, "f1snn", 15),
    (true, 1, "f12sn", 16),
    (true, 2, "f12sn", 16),
    (true, 3, "f123sn", 17),
    (true, 4, "f123sn", 17),
    // the merge changes the page above, the page that stays and the one that goes
    (true, 5, "f312sn", 17),
];

/// The disk behind these flushes.
fn flushed(alloc: Global, is_tree: bool, count: usize, want: &str) -> Option<MemDisk> {
    let mut store = behind(alloc, is_tree, count, NEVER)?;
    if flushes(&mut store, want) {
        Some(store.into_disk().inner)
    } else {
        None
    }
}

/// How many calls it has had.
fn calls_behind(alloc: Global, is_tree: bool, count: usize, want: &str) -> Option<u64> {
    Some(flushed(alloc, is_tree, count, want)?.calls())
}

#[test]
fn groups_come_before_pages(rt: HostRuntime) {
    for (place, &(is_tree, count, want, calls)) in FLUSHES.iter().enumerate() {
        let made = calls_behind(rt.alloc(), is_tree, count, want);
        expect(&rt, place, made == Some(calls));
    }
}

/// What flushes do behind the operations of the tree, and which of the pages 1, 2 and 3 are home then.
const STEPS: [(&str, [bool; 3]); 7] = [
    ("", [false, false, false]),
    ("f", [false, false, false]),
    ("f3", [false, false, true]),
    ("f31", [true, false, true]),
    ("f312", [true, true, true]),
    ("f312s", [true, true, true]),
    ("f312sn", [true, true, true]),
];

/// What stands in the places of these pages before.
const BEFORE: [&[u8]; 3] = [&POINTS, &[], &[]];

/// Whether this stands in the place of each page.
fn are_there(bytes: &[u8], home: [bool; 3]) -> bool {
    for (place, is_home) in home.iter().enumerate() {
        let (Some(before), Some((_, after))) = (BEFORE.get(place), MERGED.get(place)) else {
            return false;
        };
        let fields = if *is_home { *after } else { *before };
        if !stands(bytes, place.saturating_add(1), fields) {
            return false;
        }
    }
    true
}

/// Whether that is so behind these flushes.
fn is_home(alloc: Global, want: &str, home: [bool; 3]) -> Option<bool> {
    Some(are_there(flushed(alloc, true, 5, want)?.bytes(), home))
}

#[test]
fn pages_go_home_one_by_one(rt: HostRuntime) {
    for (place, &(want, home)) in STEPS.iter().enumerate() {
        expect(&rt, place, is_home(rt.alloc(), want, home) == Some(true));
    }
}

/// Whether the three pages of the tree stand in their places once it grew and all went home.
fn is_tree_home(alloc: Global) -> Option<bool> {
    let disk = flushed(alloc, true, 4, "f123sn")?;
    Some(all_stand(disk.bytes(), LEFT.get(..3)?))
}

#[test]
fn a_tree_goes_home(rt: HostRuntime) {
    expect(&rt, 0, is_tree_home(rt.alloc()) == Some(true));
}

/// A tree that is driven, and the pages that go home then, in their order.
const HOMEWARD: [(Tree, &str); 4] = [
    (SPLIT_AGAIN, "243"),
    (SPLIT_TOGETHER, "243"),
    (TWO_PARENTS, "251634"),
    (PARENTS_TOGETHER, "251634"),
];

/// The store behind all steps of a driving, and their forces.
fn all_stepped(alloc: Global, tree: &Tree, failing: u64) -> Option<Store<RotDisk>>
    ensures { IfSome result (λ store. (seen_as store).stopped ≡ false) }
{
    match walked(alloc, tree, failing)? {
        (store, true) => Some(store),
        (_, false) => None,
    }
}

/// The disk then, once flushes did this.
pub(crate) fn home(alloc: Global, tree: &Tree, failing: u64, want: &str) -> Option<MemDisk> {
    let mut store = all_stepped(alloc, tree, failing)?;
    if flushes(&mut store, want) {
        Some(store.into_disk().inner)
    } else {
        None
    }
}

/// Whether the pages stand in their places then, and nothing else changed.
fn stands_home(alloc: Global, tree: &Tree, pages: &str) -> Option<bool> {
    let mut want = file(alloc, tree)?;
    put_all(&mut want, tree.written);
    let disk = home(alloc, tree, NEVER, pages)?;
    let front = disk.bytes().get(..139_264)? == want.get(..139_264)?;
    Some(front && stand(disk.bytes(), tree, tree.steps.len()))
}

#[test]
fn a_driving_goes_home(rt: HostRuntime) {
    for (place, (tree, pages)) in HOMEWARD.iter().enumerate() {
        let right = stands_home(rt.alloc(), tree, pages);
        expect(&rt, place, right == Some(true));
    }
}

/// Whether each image before this call opens to the file after all steps.
fn is_kept(alloc: Global, tree: &Tree, disk: &MemDisk, before: u64) -> bool {
    for pick in PICKS {
        if image_opened(alloc, tree, tree.steps.len(), disk, before, pick).is_none() {
            return false;
        }
    }
    true
}

/// The first call on the way home before which a crash loses the file. `None` where there is none, and else 9,999 where the pages
/// don't go home.
fn first_lost(alloc: Global, tree: &Tree, pages: &str) -> Option<u64> {
    let Some(disk) = home(alloc, tree, NEVER, pages) else {
        return Some(9999);
    };
    let last = disk.calls();
    for back in 0..(pages.len() as u64).saturating_add(1) {
        if !is_kept(alloc, tree, &disk, last.saturating_sub(back)) {
            return Some(back);
        }
    }
    None
}

#[test]
fn a_crash_on_the_way_home_loses_nothing(rt: HostRuntime) {
    for (place, (tree, pages)) in HOMEWARD.iter().enumerate() {
        let lost = first_lost(rt.alloc(), tree, pages);
        expect(&rt, place, lost.is_none());
    }
}

/// Whether the flush behind those of these pages stops the store where its call of this number fails, and each image behind that opens
/// to the file after all steps.
pub(crate) fn fails_behind(alloc: Global, tree: &Tree, pages: &str, call: u64) -> Option<bool> {
    let failing = all_stepped(alloc, tree, NEVER)?
        .into_disk()
        .inner
        .calls()
        .saturating_add(pages.len() as u64)
        .saturating_add(call);
    let mut store = all_stepped(alloc, tree, failing)?;
    if !flushes(&mut store, pages) || store.stopped() || flush(&mut store).is_some() {
        return Some(false);
    }
    let stopped = store.stopped();
    let disk = store.into_disk().inner;
    Some(
        stopped
            && disk.calls() == failing.saturating_add(1)
            && is_kept(alloc, tree, &disk, disk.calls()),
    )
}

/// The place of the first page whose write loses the file where it fails.
fn first_fault_lost(alloc: Global, tree: &Tree, pages: &str) -> Option<usize> {
    for place in 0..pages.len() {
        let before = pages.get(..place).unwrap_or("");
        if fails_behind(alloc, tree, before, 0) != Some(true) {
            return Some(place);
        }
    }
    None
}

#[test]
fn a_failing_write_home_loses_nothing(rt: HostRuntime) {
    for (place, (tree, pages)) in HOMEWARD.iter().enumerate() {
        let lost = first_fault_lost(rt.alloc(), tree, pages);
        expect(&rt, place, lost.is_none());
    }
}
