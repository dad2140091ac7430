//! Texts and bytes as the tests say them. Each keeps whether something of it couldn't be said, so that what adds to it has no
//! error to give: of a function with many `?` the proof is dear.

use std::alloc::Global;

/// A text as it grows, and whether it lacks something.
#[derive(Drop)]
pub(crate) struct Text {
    text: String,
    is_broken: bool,
}

impl Text {
    pub(crate) fn new(alloc: Global) -> Text {
        Text {
            text: String::new(alloc),
            is_broken: false,
        }
    }

    /// Whether this is what was said, and nothing is lacking.
    pub(crate) fn is(&self, wanted: &str) -> bool {
        !self.is_broken && self.text.as_str() == wanted
    }

    /// What was said, where nothing is lacking.
    pub(crate) fn said(&self) -> Option<&str> {
        if self.is_broken {
            None
        } else {
            Some(self.text.as_str())
        }
    }

    /// Breaks the text where something couldn't be done.
    pub(crate) fn need(&mut self, is_done: bool) {
        if !is_done {
            self.is_broken = true;
        }
    }

    pub(crate) fn say(&mut self, word: &str) {
        let is_done = self.text.push_str(word).is_ok();
        self.need(is_done);
    }

    pub(crate) fn letter(&mut self, letter: char) {
        let is_done = self.text.push(letter).is_ok();
        self.need(is_done);
    }

    pub(crate) fn number(&mut self, number: u64) {
        let is_done = write!(self.text, "{number}").is_ok();
        self.need(is_done);
    }

    /// A number behind a mark.
    pub(crate) fn marked(&mut self, mark: &str, number: u64) {
        self.say(mark);
        self.number(number);
    }
}

/// Bytes as they grow, and whether some are lacking.
#[derive(Drop)]
pub(crate) struct Bytes {
    bytes: Vec<u8>,
    is_broken: bool,
}

impl Bytes {
    pub(crate) fn new(alloc: Global) -> Bytes {
        Bytes {
            bytes: Vec::new(alloc),
            is_broken: false,
        }
    }

    pub(crate) fn add(&mut self, more: &[u8]) {
        if self.bytes.extend_from_slice(more).is_err() {
            self.is_broken = true;
        }
    }

    /// A number of one byte.
    pub(crate) fn short(&mut self, number: usize) {
        match u8::try_from(number) {
            Ok(byte) => self.add(&[byte]),
            Err(_) => self.is_broken = true,
        }
    }

    /// A number of two bytes.
    pub(crate) fn count(&mut self, number: usize) {
        match u16::try_from(number) {
            Ok(count) => self.add(&count.to_be_bytes()),
            Err(_) => self.is_broken = true,
        }
    }

    /// The bytes, with zeros behind them up to this length, where none are lacking.
    pub(crate) fn filled(self, length: usize) -> Option<Vec<u8>> {
        let Bytes {
            mut bytes,
            is_broken,
        } = self;
        if is_broken || bytes.resize(length, 0).is_err() {
            return None;
        }
        Some(bytes)
    }
}
