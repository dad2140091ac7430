//! What a crash may leave of the disk of a run, before each of some calls, and what a run says over that.

use crate::rows::{Row, number_at, parts, word_at};
use crate::runs::{Asked, Left, NO_TROUBLE, left_of};
use crate::spelling::spelled;
use hb_disk::{MemDisk, Pick};
use std::alloc::Global;
use std::sync::Wait;
use std::thread::Threads;

/// The calls of a disk before which it stops, by `FIRST LAST`: `end` is the moment behind its last call.
pub(crate) fn calls_by(words: &str, disk: &MemDisk) -> Option<(u64, u64)> {
    let end = disk.calls();
    Some((call_at(words, 0, end)?, call_at(words, 1, end)?))
}

fn call_at(words: &str, place: usize, end: u64) -> Option<u64> {
    if word_at(words, place)? == "end" {
        Some(end)
    } else {
        number_at(words, place)
    }
}

/// The bytes that a crash before a call may have left.
pub(crate) fn image_of(disk: &MemDisk, before: u64, pick: Pick) -> Option<Vec<u8>> {
    disk.image(before, pick).ok()?
}

/// Which bytes stand in an image, by its name. Noise is an open gate.
pub(crate) fn pick_of(name: &str) -> Pick {
    if name == "old" {
        Pick::Old
    } else if name == "new" {
        Pick::New
    } else {
        Pick::Noise(165)
    }
}

/// What `drive` of a text leaves over what a crash may have left.
pub(crate) fn driven_over<R: Threads + Wait + Sync>(
    rt: &R,
    alloc: Global,
    disk: &MemDisk,
    before: u64,
    pick: Pick,
    text: &str,
) -> Option<Left> {
    let image = image_of(disk, before, pick)?;
    let asked = Asked {
        words: "drive",
        text,
        trouble: NO_TROUBLE,
    };
    left_of(rt, alloc, &asked, image.as_slice())
}

/// What is said over one of the images before a call, where that is neither of two outputs.
fn otherwise<R: Threads + Wait + Sync>(
    rt: &R,
    alloc: Global,
    disk: &MemDisk,
    before: u64,
    text: &str,
    wants: (&str, &str),
) -> Option<Option<String>> {
    for &pick in &[Pick::Old, Pick::New, Pick::Noise(165)] {
        let said = driven_over(rt, alloc, disk, before, pick, text)?.said;
        if said.as_str() != wants.0 && said.as_str() != wants.1 {
            return Some(Some(said));
        }
    }
    Some(None)
}

/// The first that is said otherwise before any of these calls.
fn first_otherwise<R: Threads + Wait + Sync>(
    rt: &R,
    alloc: Global,
    left: &Left,
    words: &str,
    text: &str,
    wants: (&str, &str),
) -> Option<Option<String>> {
    let (first, last) = calls_by(words, &left.disk)?;
    for before in first..last.saturating_add(1) {
        let other = otherwise(rt, alloc, &left.disk, before, text, wants)?;
        if other.is_some() {
            return Some(other);
        }
    }
    Some(None)
}

/// What `drive` of a text says over all that crashes may have left of these runs: what is wanted, `ONE` or `ONE || OTHER`, or the
/// first that is neither.
pub(crate) fn said_behind<R: Threads + Wait + Sync>(
    rt: &R,
    alloc: Global,
    lefts: &[Left],
    row: &Row,
) -> Option<String> {
    let text = spelled(alloc, row.text)?;
    let wanted = spelled(alloc, row.want)?;
    let wants = parts(wanted.as_str(), " || ", wanted.as_str());
    for left in lefts {
        let other = first_otherwise(rt, alloc, left, row.words, text.as_str(), wants)?;
        if other.is_some() {
            return other;
        }
    }
    Some(wanted)
}
