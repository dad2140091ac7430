//! Bytes by their hexadecimal digits, in words.

use std::alloc::Global;

/// Adds the bytes that a word spells.
fn put_word(word: &str, bytes: &mut Vec<u8>) -> Option<()> {
    let mut half = None;
    for digit in word.chars() {
        let value = digit.to_digit(16)?;
        match half {
            None => half = Some(value),
            Some(high) => {
                bytes.push((high % 16 * 16 + value % 16) as u8).ok()?;
                half = None;
            }
        }
    }
    Some(())
}

/// The bytes that the words behind the first so many spell.
pub(crate) fn bytes_behind(alloc: Global, words: &str, count: usize) -> Option<Vec<u8>> {
    let mut bytes = Vec::new(alloc);
    for word in words.split_whitespace().skip(count) {
        put_word(word, &mut bytes)?;
    }
    Some(bytes)
}
