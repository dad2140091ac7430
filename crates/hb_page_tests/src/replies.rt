//! What is said of a row. A reply keeps whether something of it couldn't be read or said, so that nothing that reads a
//! question or answers it has to give an error: of a function with many `?` the proof is dear. What can't be read is
//! 0, or something else that is simple.

use std::alloc::Global;

/// An answer as it grows, and whether it lacks something.
#[derive(Drop)]
pub(crate) struct Reply {
    pub(crate) alloc: Global,
    text: String,
    is_broken: bool,
}

impl Reply {
    pub(crate) fn new(alloc: Global) -> Reply {
        Reply {
            alloc,
            text: String::new(alloc),
            is_broken: false,
        }
    }

    /// Whether this is what was said, and nothing is lacking.
    pub(crate) fn is(&self, wanted: &str) -> bool {
        !self.is_broken && self.text.as_str() == wanted
    }

    pub(crate) fn text(&self) -> &str {
        self.text.as_str()
    }

    /// Breaks the reply where something couldn't be done.
    pub(crate) fn need(&mut self, is_done: bool) {
        if !is_done {
            self.is_broken = true;
        }
    }

    /// Needs that another reply says the same.
    pub(crate) fn need_same(&mut self, other: &Reply) {
        let is_same = other.is(self.text());
        self.need(is_same);
    }

    /// Needs that another reply lacks nothing.
    pub(crate) fn need_whole(&mut self, other: &Reply) {
        self.need(!other.is_broken);
    }

    pub(crate) fn say(&mut self, word: &str) {
        let is_done = self.text.push_str(word).is_ok();
        self.need(is_done);
    }

    pub(crate) fn letter(&mut self, letter: char) {
        let is_done = self.text.push(letter).is_ok();
        self.need(is_done);
    }

    /// Bytes, each as the letter that it is.
    pub(crate) fn letters(&mut self, bytes: &[u8]) {
        for byte in bytes {
            self.letter(char::from(*byte));
        }
    }

    pub(crate) fn number(&mut self, number: u64) {
        let is_done = write!(self.text, "{number}").is_ok();
        self.need(is_done);
    }

    /// A number behind a mark.
    pub(crate) fn marked(&mut self, mark: &str, number: u64) {
        self.say(mark);
        self.number(number);
    }

    pub(crate) fn truth(&mut self, is_so: bool) {
        self.say(if is_so { "true" } else { "false" });
    }

    /// The text before a mark and that behind it.
    pub(crate) fn parts<'a>(&mut self, text: &'a str, mark: &str) -> (&'a str, &'a str) {
        let parts = text.split_once(mark);
        self.need(parts.is_some());
        parts.unwrap_or((text, ""))
    }

    pub(crate) fn read(&mut self, word: &str) -> u64 {
        let number = word.parse();
        self.need(number.is_ok());
        number.unwrap_or(0)
    }

    pub(crate) fn read_u32(&mut self, word: &str) -> u32 {
        let number = word.parse();
        self.need(number.is_ok());
        number.unwrap_or(0)
    }

    pub(crate) fn read_u16(&mut self, word: &str) -> u16 {
        let number = word.parse();
        self.need(number.is_ok());
        number.unwrap_or(0)
    }

    pub(crate) fn read_u8(&mut self, word: &str) -> u8 {
        let number = word.parse();
        self.need(number.is_ok());
        number.unwrap_or(0)
    }
}
