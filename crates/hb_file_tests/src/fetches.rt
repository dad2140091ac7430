//! The page of a small file, by hand: when it is fetched, how often it is read, and which number an allocation takes.

use crate::rows::expect;
use crate::stores::{EMPTY, MetaNumbers, NEVER, disk, opened};
use hb_disk::RotDisk;
use hb_store::{FetchStop, Store, Why};
use std::alloc::Global;

/// The fields of a page that is a sibling leaf alone, and of one of a level that the file doesn't have.
const SIBLING: [u8; 25] = [
    1, 0, 1, 0, 0, 0, 0, 0, 0, 0, 0, 0, 255, 255, 255, 255, 255, 255, 255, 255, 3, 0, 0, 0, 1,
];

const RAISED: [u8; 23] = [
    1, 1, 1, 0, 0, 0, 0, 0, 0, 0, 0, 0, 255, 255, 255, 255, 255, 255, 255, 255, 1, 0, 0,
];

/// Two numbers and a letter: the number of a page and the free head after it, and `p`, or `n` for none; a page in memory and
/// `l` where it is in use, `f` where it is free; a page that is damaged and the rule that it breaks, and `r`; or `d` for a
/// disk that failed.
pub(crate) type Told = (u32, u32, char);

/// What a stop says.
pub(crate) fn told(stop: &FetchStop) -> Told {
    match stop {
        FetchStop::Damaged {
            page,
            why: Why::Rule(rule),
        } => (*page, u32::from(*rule), 'r'),
        FetchStop::Damaged { page, .. } => (*page, 0, 'o'),
        FetchStop::ReadFault => (0, 0, 'd'),
        FetchStop::Crowded => (0, 0, 'c'),
    }
}

/// Whether the page of a number is in memory, and in use.
pub(crate) fn shown(store: &Store<RotDisk>, id: u32) -> char {
    match store.get(id) {
        Some(view) if view.is_live() => 'l',
        Some(_) => 'f',
        None => 'n',
    }
}

/// What a fetch of this number gives of a file of two pages, of which one is taken.
fn fetched(alloc: Global, id: u32, page: &[u8], failing: u64) -> Option<Told> {
    let mut store = opened(alloc, (2, 1, 1, 0), disk(alloc, &[], page, failing)?)?;
    match store.fetch(id) {
        Ok(()) => Some((id, 0, shown(&store, id))),
        Err(stop) => Some(told(&stop)),
    }
}

/// The number, the first bytes in the place of page 1, the call that fails, and what the fetch gives.
const FETCHES: [(u32, &[u8], u64, Told); 9] = [
    (1, &EMPTY, NEVER, (1, 0, 'l')),
    (1, &[2, 0, 0, 0, 0], NEVER, (1, 0, 'f')),
    // no page of the file has the number, and nothing is read
    (0, &EMPTY, 0, (0, 1, 'r')),
    (2, &EMPTY, 0, (2, 1, 'r')),
    // no page, twice; a level that the file doesn't have, and a lone sibling leaf
    (1, &[], NEVER, (1, 0, 'r')),
    (1, &[1, 1, 1, 0], NEVER, (1, 0, 'r')),
    (1, &RAISED, NEVER, (1, 3, 'r')),
    (1, &SIBLING, NEVER, (1, 5, 'r')),
    // the disk fails to read
    (1, &EMPTY, 0, (0, 0, 'd')),
];

#[test]
fn pages_are_fetched(rt: HostRuntime) {
    for (place, &(id, page, failing, want)) in FETCHES.iter().enumerate() {
        let told = fetched(rt.alloc(), id, page, failing);
        expect(&rt, place, told == Some(want));
    }
}

/// How many calls of the disk the fetches of these numbers make.
fn calls(alloc: Global, ids: &[u32], failing: u64) -> Option<u64> {
    let mut store = opened(alloc, (2, 1, 1, 0), disk(alloc, &[], &EMPTY, failing)?)?;
    for id in ids {
        let _fetched = store.fetch(*id);
    }
    Some(store.into_disk().inner.calls())
}

/// The numbers, the call that fails, and how many there are.
const CALLS: [(&[u32], u64, u64); 5] = [
    (&[0, 2], NEVER, 0),
    (&[0, 2, 1], NEVER, 1),
    (&[0, 2, 1, 1], NEVER, 1),
    (&[1], 0, 1),
    (&[1, 1, 1], 0, 2),
];

#[test]
fn a_fetch_reads_at_most_once(rt: HostRuntime) {
    for (place, &(ids, failing, want)) in CALLS.iter().enumerate() {
        let made = calls(rt.alloc(), ids, failing);
        expect(&rt, place, made == Some(want));
    }
}

/// What `next_page` gives where the file says this of its pages and the first one's place has these bytes.
fn next(alloc: Global, numbers: MetaNumbers, page: &[u8], failing: u64) -> Option<Told> {
    let mut store = opened(alloc, numbers, disk(alloc, &[], page, failing)?)?;
    match store.next_page() {
        Ok(Some((page, after))) => Some((page, after, 'p')),
        Ok(None) => Some((0, 0, 'n')),
        Err(stop) => Some(told(&stop)),
    }
}

/// The numbers of a file of two pages, the first bytes in the place of page 1, the call that fails, and what is given.
const NUMBERS: [(MetaNumbers, &[u8], u64, Told); 11] = [
    // every page is in use, whatever the free head is, and nothing is read
    ((2, 2, 2, 0), &EMPTY, 0, (0, 0, 'n')),
    ((2, 2, 2, 1), &[2, 0, 0, 0, 0], 0, (0, 0, 'n')),
    // the number behind the highest page
    ((2, 1, 1, 0), &EMPTY, 0, (2, 0, 'p')),
    // the head of the chain and what it names, also where a number is left behind the highest page
    ((2, 2, 1, 1), &[2, 0, 0, 0, 0], NEVER, (1, 0, 'p')),
    ((2, 1, 1, 1), &[2, 0, 0, 0, 2], NEVER, (1, 2, 'p')),
    // a head that is in use
    ((2, 2, 1, 1), &EMPTY, NEVER, (1, 2, 'r')),
    // a head that isn't fetched: no page, a page that breaks a rule, and no page of the file, where nothing is read
    ((2, 2, 1, 1), &[], NEVER, (1, 0, 'r')),
    ((2, 2, 1, 1), &SIBLING, NEVER, (1, 5, 'r')),
    ((2, 1, 1, 2), &EMPTY, 0, (2, 1, 'r')),
    // no chain, and no number behind the highest page
    ((2, 2, 1, 0), &EMPTY, 0, (0, 2, 'r')),
    // the disk fails to read
    ((2, 2, 1, 1), &[2, 0, 0, 0, 0], 0, (0, 0, 'd')),
];

#[test]
fn numbers_are_taken(rt: HostRuntime) {
    for (place, &(numbers, page, failing, want)) in NUMBERS.iter().enumerate() {
        let told = next(rt.alloc(), numbers, page, failing);
        expect(&rt, place, told == Some(want));
    }
}
