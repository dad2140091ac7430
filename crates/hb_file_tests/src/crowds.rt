//! A file of more pages than there are frames, whose frames have pages that are dirty or pinned: a fetch is refused until a page went
//! home. The counts were worked out by hand from the order of use. The disk tells nothing.
ghost use Rattle.std.specs.Prelude.{◌≡◌, false, IfSome, IsTrue};
ghost use Rattle.hb_store.specs.Seen.{seen_as, uses_of};
ghost use Rattle.hb_file_tests.specs.Driven.{IsDrivenHere};

use crate::fetches::told;
use crate::homes::flush;
use crate::orders::{SOUND, wide};
use crate::rows::expect;
use crate::stores::{all_held, all_taken};
use hb_disk::RotDisk;
use hb_store::Store;
use std::alloc::Global;

/// Three growths, by the pages 131, 132 and 133. They read no page, and each makes one that is dirty and not pinned.
const GROWTHS: [&[u8]; 3] = [
    &[0, 6, 0, 0, 0, 131, 0, 0, 0, 0],
    &[0, 6, 0, 0, 0, 132, 0, 0, 0, 0],
    &[0, 6, 0, 0, 0, 133, 0, 0, 0, 0],
];

/// The store once so many of them were done.
fn grown(alloc: Global, count: usize) -> Option<Store<RotDisk>>
    ensures { IfSome result (λ store. IsDrivenHere (seen_as store) (uses_of store)) }
{
    let mut store = wide(alloc, SOUND)?;
    if all_taken(alloc, &mut store, GROWTHS.get(..count)?, &[])? != count {
        return None;
    }
    Some(store)
}

/// The store once so many pages were pinned behind them.
fn filled(alloc: Global, growths: usize, pins: u32) -> Option<Store<RotDisk>>
    ensures { IfSome result (λ store. (seen_as store).stopped ≡ false) }
{
    let mut ids = Vec::new(alloc);
    for id in 1..pins.saturating_add(1) {
        ids.push(id).ok()?;
    }
    let mut store = grown(alloc, growths)?;
    all_held(&mut store, &ids)?;
    Some(store)
}

/// What the fetch of a page gives: `o`, `c` where there is no place for it, `r` where it is damaged, `d` where the disk failed.
fn fetch(store: &mut Store<RotDisk>, id: u32) -> char
    requires { (seen_as store.old).stopped ≡ false }
    ensures { (seen_as store.new).stopped ≡ false }
{
    match store.fetch(id) {
        Ok(()) => 'o',
        Err(stop) => told(&stop).2,
    }
}

/// Whether a fetch of page 130 and a flush behind it do this.
fn takes_turn(store: &mut Store<RotDisk>, turn: (char, char)) -> bool
    requires { (seen_as store.old).stopped ≡ false }
    ensures { IsTrue result → (seen_as store.new).stopped ≡ false }
{
    let (fetched, flushed) = turn;
    if fetch(store, 130) != fetched {
        return false;
    }
    match flush(store) {
        Some(did) => did == flushed,
        None => false,
    }
}

/// Whether fetches of page 130 and flushes by turns do this.
fn takes_turns(store: &mut Store<RotDisk>, turns: &[(char, char)]) -> bool
    requires { (seen_as store.old).stopped ≡ false }
    ensures { IsTrue result → (seen_as store.new).stopped ≡ false }
{
    for turn in turns {
        if !takes_turn(store, *turn) {
            return false;
        }
    }
    true
}

/// How many growths were done and pages pinned; what fetches of page 130 and flushes do by turns; what the fetch of page 131 gives
/// then; and how many calls the disk has had.
type Crowd = (usize, u32, &'static [(char, char)], char, u64);

const CROWDS: [Crowd; 6] = [
    // each frame has a page that is dirty or pinned, until one went home; it left, and is read again. One force takes all groups, and
    // once no page is dirty the next turn begins, by nine calls
    (1, 127, &[('c', 'f'), ('c', 'w'), ('o', 's')], 'o', 143),
    (
        3,
        125,
        &[('c', 'f'), ('c', 'w'), ('o', 'w'), ('o', 'w'), ('o', 's')],
        'o',
        143,
    ),
    (
        2,
        126,
        &[('c', 'f'), ('c', 'w'), ('o', 'w'), ('o', 's'), ('o', 'n')],
        'o',
        143,
    ),
    // a frame is left
    (1, 126, &[('o', 'f'), ('o', 'w'), ('o', 's')], 'o', 141),
    // pinned pages alone, of all frames, and of all but one
    (0, 128, &[('c', 'n'), ('c', 'n')], 'r', 128),
    (0, 127, &[('o', 'n'), ('o', 'n')], 'r', 128),
];

/// Whether this comes of it.
fn crowds(alloc: Global, row: Crowd) -> Option<bool> {
    let (growths, pins, turns, last, calls) = row;
    let mut store = filled(alloc, growths, pins)?;
    if !takes_turns(&mut store, turns) {
        return Some(false);
    }
    let right = fetch(&mut store, 131) == last;
    Some(right && store.into_disk().inner.calls() == calls)
}

#[test]
fn a_place_is_wanted_until_a_page_went_home(rt: HostRuntime) {
    for (place, row) in CROWDS.iter().enumerate() {
        expect(&rt, place, crowds(rt.alloc(), *row) == Some(true));
    }
}
