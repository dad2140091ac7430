//! The bytes that the next run finds, and those that were kept under a name.

use crate::hex::bytes_behind;
use crate::rows::{byte_at, number_at, word_at};
use std::alloc::Global;

/// Bytes under a name.
#[derive(Drop)]
pub(crate) struct Kept {
    name: String,
    bytes: Vec<u8>,
}

/// So many bytes of one kind, a page at a time.
pub(crate) fn filled(alloc: Global, byte: u8, size: usize) -> Option<Vec<u8>> {
    let page = [byte; 4096];
    let mut all = Vec::new(alloc);
    for _ in 0..size / 4096 {
        all.extend_from_slice(&page).ok()?;
    }
    all.extend_from_slice(page.get(..size % 4096)?).ok()?;
    Some(all)
}

/// A disk of so many bytes of one kind, by `SIZE BYTE`.
pub(crate) fn disk_by(alloc: Global, words: &str) -> Option<Vec<u8>> {
    let size = number_at(words, 0)?;
    let byte = byte_at(words, 1).unwrap_or(0);
    filled(alloc, byte, size as usize)
}

/// Keeps a copy of the bytes under a name.
pub(crate) fn keep(alloc: Global, kept: &mut Vec<Kept>, name: &str, bytes: &[u8]) -> Option<()> {
    let name = name.to_string(alloc).ok()?;
    let bytes = Vec::from_slice(alloc, bytes).ok()?;
    kept.push(Kept { name, bytes }).ok()
}

/// The bytes that were last kept under a name.
fn find<'a>(kept: &'a [Kept], name: &str) -> Option<&'a [u8]> {
    let mut found = None;
    for one in kept {
        if one.name.as_str() == name {
            found = Some(one.bytes.as_slice());
        }
    }
    found
}

/// A copy of them.
pub(crate) fn kept_as(alloc: Global, kept: &[Kept], name: &str) -> Option<Vec<u8>> {
    Vec::from_slice(alloc, find(kept, name)?).ok()
}

/// Whether these are they.
pub(crate) fn is_same(kept: &[Kept], bytes: &[u8], name: &str) -> Option<bool> {
    Some(find(kept, name)? == bytes)
}

/// Puts bytes at a place, by `AT HEX`, as far as there are bytes.
pub(crate) fn put_by(alloc: Global, bytes: &mut Vec<u8>, words: &str) -> Option<()> {
    let at = number_at(words, 0)?;
    let piece = bytes_behind(alloc, words, 1)?;
    for (place, byte) in bytes.iter_mut().skip(at as usize).zip(piece.as_slice()) {
        *place = *byte;
    }
    Some(())
}

/// The front of so many bytes.
pub(crate) fn front_by(alloc: Global, bytes: &[u8], words: &str) -> Option<Vec<u8>> {
    let size = number_at(words, 0)?;
    Vec::from_slice(alloc, bytes.get(..size as usize)?).ok()
}

/// Whether bytes stand at a place and behind them zeros up to so many, by `AT COUNT HEX`.
fn stands(bytes: &[u8], at: usize, count: usize, front: &[u8]) -> Option<bool> {
    let rest = bytes.get(at..)?.get(..count)?;
    let mut behind = rest.iter().skip(front.len());
    Some(rest.starts_with(front) && behind.all(|byte| *byte == 0))
}

/// The answer to that.
pub(crate) fn stands_by(alloc: Global, bytes: &[u8], words: &str) -> Option<bool> {
    let at = number_at(words, 0)?;
    let count = number_at(words, 1)?;
    let front = bytes_behind(alloc, words, 2)?;
    stands(bytes, at as usize, count as usize, front.as_slice())
}

/// Whether all bytes from a place on are of one kind, by `AT COUNT BYTE`.
pub(crate) fn filled_by(bytes: &[u8], words: &str) -> Option<bool> {
    let at = number_at(words, 0)?;
    let count = number_at(words, 1)?;
    let byte = byte_at(words, 2)?;
    let rest = bytes.get(at as usize..)?.get(..count as usize)?;
    Some(rest.iter().all(|one| *one == byte))
}

/// How many frames stand in a log area: a gate that is a5, a length in four bytes, and so many bytes.
fn frames_in(area: &[u8]) -> usize {
    let mut left = area;
    for count in 0..area.len() {
        let [0xa5, a, b, c, d, rest @ ..] = left else {
            return count;
        };
        let length = u32::from_be_bytes([*a, *b, *c, *d]) as usize;
        left = &rest[length.min(rest.len())..];
    }
    area.len()
}

/// The answer to that, by `AT COUNT`.
pub(crate) fn frames_by(alloc: Global, bytes: &[u8], words: &str) -> Option<String> {
    let at = number_at(words, 0)?;
    let count = number_at(words, 1)?;
    let area = bytes.get(at as usize..)?.get(..count as usize)?;
    format!(in alloc; "{}", frames_in(area)).ok()
}

/// The first name of the words.
pub(crate) fn name_of(words: &str) -> &str {
    word_at(words, 0).unwrap_or("")
}
