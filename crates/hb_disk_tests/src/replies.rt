//! What is said of a row. A reply keeps whether something of it couldn't be read or said, so that nothing that reads a
//! question or answers it has to give an error: of a function with many `?` the proof is dear.
//!
//! Bytes are spelled as text, a letter for each: `_` is 0, `1` to `9` are these numbers, `%` is 16, `!` is 0xA4,
//! `#` is 0xA5, which opens a gate, and `$` is 255. Every other letter is its own byte. `!` and `$` are
//! read only.

use hb_disk::{MemDisk, Pick};
use std::alloc::Global;

/// The three images that are told of a moment: with the old bytes, with the new ones, and with 0xA5 at each
/// place that wasn't synced.
pub(crate) const PICKS: [Pick; 3] = [Pick::Old, Pick::New, Pick::Noise(0xA5)];

/// An answer as it grows, and whether it lacks something.
#[derive(Drop)]
pub(crate) struct Reply {
    pub(crate) alloc: Global,
    text: String,
    is_broken: bool,
}

impl Reply {
    pub(crate) fn new(alloc: Global) -> Reply {
        Reply {
            alloc,
            text: String::new(alloc),
            is_broken: false,
        }
    }

    /// Whether this is what was said, and nothing is lacking.
    pub(crate) fn is(&self, wanted: &str) -> bool {
        !self.is_broken && self.text.as_str() == wanted
    }

    pub(crate) fn text(&self) -> &str {
        self.text.as_str()
    }

    /// Breaks the reply where something couldn't be done.
    pub(crate) fn need(&mut self, is_done: bool) {
        if !is_done {
            self.is_broken = true;
        }
    }

    pub(crate) fn say(&mut self, word: &str) {
        let is_done = self.text.push_str(word).is_ok();
        self.need(is_done);
    }

    pub(crate) fn number(&mut self, number: u64) {
        let is_done = write!(self.text, "{number}").is_ok();
        self.need(is_done);
    }

    pub(crate) fn truth(&mut self, is_so: bool) {
        self.say(if is_so { "true" } else { "false" });
    }

    /// Bytes, a letter for each.
    pub(crate) fn bytes(&mut self, bytes: &[u8]) {
        for byte in bytes {
            let is_done = self.text.push(letter_of(*byte)).is_ok();
            self.need(is_done);
        }
    }

    /// The text before a mark and that behind it.
    pub(crate) fn parts<'a>(&mut self, text: &'a str, mark: &str) -> (&'a str, &'a str) {
        let parts = text.split_once(mark);
        self.need(parts.is_some());
        parts.unwrap_or((text, ""))
    }

    pub(crate) fn read(&mut self, word: &str) -> u64 {
        let number = word.parse();
        self.need(number.is_ok());
        number.unwrap_or(0)
    }

    /// Numbers from words.
    pub(crate) fn read_all(&mut self, words: &str) -> Vec<u64> {
        let mut numbers = Vec::new(self.alloc);
        for word in words.split_whitespace() {
            let number = self.read(word);
            let is_done = numbers.push(number).is_ok();
            self.need(is_done);
        }
        numbers
    }

    pub(crate) fn read_byte(&mut self, word: &str) -> u8 {
        let byte = word.parse();
        self.need(byte.is_ok());
        byte.unwrap_or(0)
    }

    /// Bytes from letters.
    pub(crate) fn read_bytes(&mut self, text: &str) -> Vec<u8> {
        let mut bytes = Vec::new(self.alloc);
        for letter in text.bytes() {
            let is_done = bytes.push(byte_of(letter)).is_ok();
            self.need(is_done);
        }
        bytes
    }

    /// A disk of these bytes that fails at the calls of these numbers.
    pub(crate) fn disk(&mut self, bytes: &str, failing: &str) -> MemDisk {
        let failing = self.read_all(failing);
        let bytes = self.read_bytes(bytes);
        MemDisk::failing(self.alloc, bytes, failing)
    }
}

fn byte_of(letter: u8) -> u8 {
    match letter {
        b'_' => 0,
        b'1'..=b'9' => letter - b'0',
        b'%' => 16,
        b'!' => 0xA4,
        b'#' => 0xA5,
        b'$' => 0xFF,
        _ => letter,
    }
}

fn letter_of(byte: u8) -> char {
    match byte {
        0 => '_',
        1..=9 => char::from(byte + b'0'),
        16 => '%',
        0xA5 => '#',
        _ => char::from(byte),
    }
}
