//! A file of more pages than there are frames: which page makes room for another, how often the disk is read, and that a page that
//! is dirty or pinned stays. The counts were worked out by hand from the order of use. The disk tells nothing.
ghost use Rattle.std.specs.Prelude.{◌≡◌, ℕ, None, IfSome};
ghost use Rattle.hb_store.specs.Seen.{seen_as, uses_of};
ghost use Rattle.hb_store.specs.States.{in_memory};
ghost use Rattle.hb_file_tests.specs.Driven.{FewPins, IsDrivenHere, IsPinned};

use crate::fetches::{Told, shown, told};
use crate::groups::is_of;
use crate::rows::expect;
use crate::stores::{FOUR, NEVER, held};
use hb_disk::{Device, MemDisk, RotDisk};
use hb_frag::{Leaf, Node, Page};
use hb_ops::Meta;
use hb_store::Store;
use std::alloc::Global;

/// What a file of 134 pages says, of which 130 are taken.
const WIDE: Meta = Meta {
    pages: 134,
    high: 130,
    live: 130,
    ..FOUR
};

/// Its bytes.
const SIZE: usize = 688_128;

/// The fields of a page of records for the whole space, which has one point. That stands at place 30.
const POINT: [u8; 32] = [
    1, 0, 1, 0, 0, 0, 0, 0, 0, 0, 0, 0, 255, 255, 255, 255, 255, 255, 255, 255, 1, 0, 1, 0, 0, 0,
    0, 0, 0, 0, 0, 0,
];

/// The place of page 1. Its pages are 4,096 bytes each.
const FIRST: u64 = 139_264;

/// A byte that goes bad: before which call, where, and what it is then.
pub(crate) type Rot = (u64, u64, u8);

/// No byte does.
pub(crate) const SOUND: Rot = (NEVER, u64::MAX, 0);

/// Puts a piece at an offset, as far as there are bytes.
fn put(bytes: &mut [u8], at: usize, piece: &[u8]) {
    let Some(rest) = bytes.get_mut(at..) else {
        return;
    };
    for (place, byte) in rest.iter_mut().zip(piece) {
        *place = *byte;
    }
}

/// The bytes of the file: each page that is taken has the point of its number.
fn file(alloc: Global) -> Option<Vec<u8>> {
    let Ok(mut bytes) = vec![in alloc; 0; SIZE] else {
        return None;
    };
    for id in 1..131 {
        let mut page = POINT;
        page[30] = id;
        put(&mut bytes, (id as usize) * 4096 + 135_168, &page);
    }
    Some(bytes)
}

/// The store of the file, without a page in memory.
#[tactic(auto, using(crate::proofs::Untold::new_driven, crate::proofs::Untold::new_few))]
pub(crate) fn wide(alloc: Global, rot: Rot) -> Option<Store<RotDisk>>
    ensures driven { IfSome result (λ store. IsDrivenHere (seen_as store) (uses_of store)) }
    ensures few { IfSome result (λ store. FewPins (uses_of store)) }
    ensures none { IfSome result (λ store. (id : ℕ) → in_memory (seen_as store) id ≡ None) }
{
    let (before, at, byte) = rot;
    let disk = RotDisk {
        inner: MemDisk::new(alloc, file(alloc)?),
        before,
        at,
        byte,
    };
    if disk.size() < SIZE as u64 {
        return None;
    }
    match Store::opened(alloc, disk, 0, WIDE) {
        Ok(store) => {
            store.stands_well();
            Some(store)
        }
        Err(_no_memory) => None,
    }
}

/// Whether a page is one leaf of records, with the point of this value alone.
fn has_point(page: &Page, value: u64) -> bool {
    match page {
        Page::Live(page) => match &page.frag.node {
            Node::Tip(Leaf::Records(records)) => match records.as_slice() {
                [one] => is_of(one, value),
                _ => false,
            },
            _ => false,
        },
        Page::Free { .. } => false,
    }
}

/// Whether the page of this number is in memory, with the point of its number.
fn is_there(alloc: Global, store: &Store<RotDisk>, id: u32) -> Option<bool> {
    let page = store.get(id)?.page(alloc).ok()?;
    Some(has_point(&page, u64::from(id)))
}

/// Fetches a page. `None` where it isn't in memory then.
#[tactic(auto, using(crate::proofs::Untold::fetched_few, crate::proofs::Untold::fetched_pinned))]
fn fetched(alloc: Global, store: &mut Store<RotDisk>, id: u32) -> Option<()>
    ensures few { FewPins (uses_of store.old) → IfSome result (λ _. FewPins (uses_of store.new)) }
    ensures pinned { (other : ℕ) → IsPinned (uses_of store.old) other → IfSome result (λ _. IsPinned (uses_of store.new) other) }
{
    store.fetch(id).ok()?;
    if is_there(alloc, store, id)? {
        Some(())
    } else {
        None
    }
}

/// The number at a place of those from the one on up or down to the other.
fn nth(first: u32, last: u32, place: u32) -> u32 {
    if first <= last {
        first.saturating_add(place)
    } else {
        first.saturating_sub(place)
    }
}

/// Fetches the pages from the one number on up or down to the other. `None` where one isn't in memory then.
fn all_fetched(alloc: Global, store: &mut Store<RotDisk>, first: u32, last: u32) -> Option<()>
    ensures few { FewPins (uses_of store.old) → IfSome result (λ _. FewPins (uses_of store.new)) }
    ensures pinned { (other : ℕ) → IsPinned (uses_of store.old) other → IfSome result (λ _. IsPinned (uses_of store.new) other) }
{
    for place in 0..first.abs_diff(last).saturating_add(1) {
        fetched(alloc, store, nth(first, last, place))?;
    }
    Some(())
}

/// The store of the file, whose page 1 is pinned where that is asked for.
fn begun(alloc: Global, is_held: bool, rot: Rot) -> Option<Store<RotDisk>> {
    let mut store = wide(alloc, rot)?;
    if is_held {
        held(&mut store, 1).ok()?;
    }
    Some(store)
}

/// How many calls the disk has had once the pages between these numbers were fetched, row by row.
fn calls_behind(alloc: Global, is_held: bool, rows: &[(u32, u32, u64)]) -> Option<u64> {
    let mut store = begun(alloc, is_held, SOUND)?;
    for (first, last, _) in rows {
        all_fetched(alloc, &mut store, *first, *last)?;
    }
    Some(store.into_disk().inner.calls())
}

/// Whether the disk has had as many calls behind each row as that one says.
fn are_read(alloc: Global, is_held: bool, rows: &[(u32, u32, u64)]) -> Option<bool> {
    for (place, (_, _, calls)) in rows.iter().enumerate() {
        if calls_behind(alloc, is_held, rows.get(..=place)?)? != *calls {
            return Some(false);
        }
    }
    Some(true)
}

/// The pages from the one number on up or down to the other are fetched; and how many calls the disk has had then.
const ORDER: [(u32, u32, u64); 12] = [
    (1, 128, 128),
    // each frame has a page. One that is there isn't read, and its place in the order stays
    (128, 1, 128),
    // 1 and 2 go
    (129, 130, 130),
    (3, 130, 130),
    // 3 goes, and then 4
    (1, 1, 131),
    (4, 130, 131),
    (3, 3, 132),
    // the one that goes is the next that is asked for; the last one that goes is 1
    (4, 130, 259),
    (130, 3, 259),
    // 3 and 4 go
    (1, 2, 261),
    (130, 5, 261),
    // 5 and 6 go
    (4, 3, 263),
];

/// The same where page 1 was fetched and pinned before: the others come and go.
const HELD: [(u32, u32, u64); 6] = [
    // 2 and 3 go
    (2, 130, 130),
    (1, 1, 130),
    // 4 and 5 go
    (2, 3, 132),
    (1, 1, 132),
    // the page two numbers on goes, at the end 2 and 3
    (4, 130, 259),
    (1, 1, 259),
];

#[test]
fn the_least_recently_used_page_goes(rt: HostRuntime) {
    expect(&rt, 0, are_read(rt.alloc(), false, &ORDER) == Some(true));
}

#[test]
fn a_pinned_page_never_goes(rt: HostRuntime) {
    expect(&rt, 0, are_read(rt.alloc(), true, &HELD) == Some(true));
}

/// Pins and unpins a page in memory. `None` where it isn't there.
#[tactic(auto, using(crate::proofs::Untold::few_may_pin, crate::proofs::Untold::pinned_may_go))]
fn touched(store: &mut Store<RotDisk>, id: u32) -> Option<()>
    requires { FewPins (uses_of store.old) }
{
    if store.get(id).is_none() {
        return None;
    }
    store.pin(id);
    store.unpin(id);
    Some(())
}

/// Which of the pages 1 and 2 are in memory once all frames had a page, 1 was pinned and unpinned, and one more page came; and how many
/// calls the disk has had once both were fetched again. So 1 is used, and 2 goes, and for it 3.
fn used(alloc: Global) -> Option<(bool, bool, u64)> {
    let mut store = wide(alloc, SOUND)?;
    all_fetched(alloc, &mut store, 1, 128)?;
    touched(&mut store, 1)?;
    all_fetched(alloc, &mut store, 129, 129)?;
    let (first, second) = (store.get(1).is_some(), store.get(2).is_some());
    all_fetched(alloc, &mut store, 1, 2)?;
    Some((first, second, store.into_disk().inner.calls()))
}

#[test]
fn a_page_that_was_used_goes_later(rt: HostRuntime) {
    expect(&rt, 0, used(rt.alloc()) == Some((true, false, 130)));
}

/// Whether page 1 is in memory once it was pinned, the others came, it was unpinned, and one more page came; and how many calls the
/// disk has had once it was fetched again.
fn released(alloc: Global) -> Option<(bool, u64)> {
    let mut store = wide(alloc, SOUND)?;
    held(&mut store, 1).ok()?;
    all_fetched(alloc, &mut store, 2, 130)?;
    store.unpin(1);
    all_fetched(alloc, &mut store, 2, 2)?;
    let is_there = store.get(1).is_some();
    all_fetched(alloc, &mut store, 1, 1)?;
    Some((is_there, store.into_disk().inner.calls()))
}

#[test]
fn an_unpinned_page_goes_in_its_turn(rt: HostRuntime) {
    expect(&rt, 0, released(rt.alloc()) == Some((false, 132)));
}

/// Whether page 1 is pinned, a byte of it that goes bad while the last of its disk's 130 calls is made or before, and what the fetch of
/// page 1 gives then.
const SPOILED: [(bool, u64, u8, Told); 5] = [
    // where it left it is read again, and is no page, or one of a level that the file doesn't have, or one that has another point
    (false, 0, 9, (1, 0, 'r')),
    (false, 1, 1, (1, 3, 'r')),
    (false, 30, 200, (1, 0, 'l')),
    // where it stayed nothing is read
    (true, 0, 9, (1, 0, 'l')),
    (true, 1, 1, (1, 0, 'l')),
];

/// What the fetch of page 1 gives, once so many others came. The disk has had 129 calls before it, or 130 where the page is pinned.
fn met_again(alloc: Global, is_held: bool, at: u64, byte: u8) -> Option<Told> {
    let mut store = begun(alloc, is_held, (129, FIRST.saturating_add(at), byte))?;
    if is_held {
        all_fetched(alloc, &mut store, 2, 130)?;
    } else {
        all_fetched(alloc, &mut store, 1, 129)?;
    }
    match store.fetch(1) {
        Ok(()) => Some((1, 0, shown(&store, 1))),
        Err(stop) => Some(told(&stop)),
    }
}

#[test]
fn a_page_that_left_is_tested_again(rt: HostRuntime) {
    for (place, &(is_held, at, byte, want)) in SPOILED.iter().enumerate() {
        let met = met_again(rt.alloc(), is_held, at, byte);
        expect(&rt, place, met == Some(want));
    }
}
