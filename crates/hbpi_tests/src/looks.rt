//! What runs left.

use crate::runs::Left;
use hb_disk::Disk;
use std::alloc::Global;

/// The answer to a question that has two.
pub(crate) fn yes(alloc: Global, is_so: bool) -> Option<String> {
    String::from_str(alloc, if is_so { "yes" } else { "no" }).ok()
}

/// What all these runs said, or that they differ.
pub(crate) fn said_by_all(alloc: Global, lefts: &[Left]) -> Option<String> {
    let first = lefts.first()?.said.as_str();
    if lefts.iter().all(|left| left.said.as_str() == first) {
        String::from_str(alloc, first).ok()
    } else {
        differing(alloc, lefts, first)
    }
}

/// What is said first, and what then.
fn differing(alloc: Global, lefts: &[Left], first: &str) -> Option<String> {
    let other = lefts.iter().find(|left| left.said.as_str() != first)?;
    format!(in alloc; "{first} and {}", other.said.as_str()).ok()
}

/// How many calls of the disk the first of these runs made.
pub(crate) fn calls_of(alloc: Global, lefts: &[Left]) -> Option<String> {
    format!(in alloc; "{}", lefts.first()?.disk.calls()).ok()
}

/// Whether each of these runs ended at its failing call, which was this one in the first run and the next one in each further one.
pub(crate) fn have_stopped(lefts: &[Left], first: u64) -> bool {
    let mut call = first;
    for left in lefts {
        call = call.wrapping_add(1);
        if left.disk.calls() != call {
            return false;
        }
    }
    true
}

/// Whether each made so many calls or more.
pub(crate) fn have_called(lefts: &[Left], count: u64) -> bool {
    lefts.iter().all(|left| left.disk.calls() >= count)
}

/// Whether each wrote nothing, and left these bytes.
pub(crate) fn are_untouched(lefts: &[Left], bytes: &[u8]) -> bool {
    lefts.iter().all(|left| left.disk.clock() == 0 && left.disk.bytes() == bytes)
}

/// How many lines were answered when the disk had been called so often. Each call but the reads is a tick of the clock, and all
/// reads come before the first answer.
fn answered_before(left: &Left, calls: u64) -> usize {
    let reads = left.disk.calls().saturating_sub(left.disk.clock());
    let clock = calls.saturating_sub(reads);
    left.answered.iter().filter(|one| one.at <= clock).count()
}

/// How many lines each of these runs had answered then, or that they differ.
pub(crate) fn answered_by(alloc: Global, lefts: &[Left], calls: u64) -> Option<String> {
    let count = answered_before(lefts.first()?, calls);
    if lefts
        .iter()
        .all(|left| answered_before(left, calls) == count)
    {
        format!(in alloc; "{count}").ok()
    } else {
        String::from_str(alloc, "they differ").ok()
    }
}

/// The turns in the two places of a superblock, each behind its open gate.
pub(crate) fn turns_of(alloc: Global, file: &[u8]) -> Option<String> {
    if file.get(0) != Some(&0xA5) || file.get(4096) != Some(&0xA5) {
        return None;
    }
    format!(in alloc; "{} {}", file.get(10)?, file.get(4106)?).ok()
}

/// The height by the superblock of the second place, or by the first one, whichever is greater: heights never fall.
pub(crate) fn height_of(alloc: Global, file: &[u8]) -> Option<String> {
    let one = *file.get(12)?;
    let other = *file.get(4096 + 12)?;
    format!(in alloc; "{}", one.max(other)).ok()
}
