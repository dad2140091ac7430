//! Takes from sources and puts into sinks, over memory and over a reader and a writer, some of which fail.

use crate::replies::Reply;
use hb_outside::{Failed, MemSink, MemSource, ReadSource, Sink, Source, WriteSink};
use std::io;
use std::io::{Error, ErrorKind, Read, Write};

// What four takes of two bytes gave, a stroke behind each. A failed one is `!`.
fn takes<S: Source>(reply: &mut Reply, source: &mut S) {
    for _ in 0..4 {
        let mut into = [0; 2];
        match source.take(&mut into) {
            Ok(n) => reply.bytes(&into[..n]),
            Err(Failed) => reply.say("!"),
        }
        reply.say("|");
    }
}

// Puts four pieces, one of them empty: a stroke for each, or `!` where it failed.
fn puts<S: Sink>(reply: &mut Reply, sink: &mut S) {
    for &piece in &["ab", "", "cde", "f"] {
        let is_done = sink.put(piece.as_bytes()).is_ok();
        reply.say(if is_done { "|" } else { "!" });
    }
}

/// Four takes from memory, what is left and the calls that were made: from `BYTES | FAILING`.
pub(crate) fn source(reply: &mut Reply, question: &str) {
    let (bytes, failing) = reply.parts(question, " | ");
    let mut source = MemSource::new(reply.read_bytes(bytes), reply.read_all(failing));
    takes(reply, &mut source);
    reply.bytes(source.bytes());
    reply.say(" ");
    reply.number(source.calls_made());
}

/// Four puts into memory, what was written, the calls that were made and those that were starved: from `FAILING`.
pub(crate) fn sink(reply: &mut Reply, question: &str) {
    let mut sink = MemSink::new(reply.alloc, reply.read_all(question));
    puts(reply, &mut sink);
    reply.bytes(sink.bytes());
    reply.say(" ");
    reply.number(sink.calls_made());
    reply.say(" ");
    reply.number(sink.starved());
}

// The kind of an error. None for a write that takes nothing.
fn trouble_of(reply: &mut Reply, word: &str) -> Option<ErrorKind> {
    match word {
        "denied" => Some(ErrorKind::PermissionDenied),
        "blocked" => Some(ErrorKind::WouldBlock),
        "interrupted" => Some(ErrorKind::Interrupted),
        _ => {
            reply.need(word == "nothing");
            None
        }
    }
}

// Reads from memory, with trouble at the read of one number.
#[derive(Drop)]
struct FaultyReader {
    bytes: &'static [u8],
    call: u64,
    at: u64,
    trouble: Option<ErrorKind>,
}

impl Read for FaultyReader {
    fn read(&mut self, into: &mut [u8]) -> io::Result<usize> {
        let call = self.call;
        self.call = self.call.saturating_add(1);
        if call != self.at {
            return self.bytes.read(into);
        }
        match self.trouble {
            Some(kind) => Err(Error::from(kind)),
            None => Ok(0),
        }
    }
}

/// Four takes from a reader of `abc`, and how many bytes are left in it: from `AT TROUBLE`.
pub(crate) fn reader(reply: &mut Reply, question: &str) {
    let (at, trouble) = reply.parts(question, " ");
    let mut source = ReadSource::new(FaultyReader {
        bytes: b"abc",
        call: 0,
        at: reply.read(at),
        trouble: trouble_of(reply, trouble),
    });
    takes(reply, &mut source);
    reply.say(" ");
    reply.number(source.into_inner().bytes.len() as u64);
}

/// Four takes from a reader that tells its bytes, and what is left in it: from `BYTES`.
pub(crate) fn slice(reply: &mut Reply, question: &str) {
    let mut source = ReadSource::telling(question.as_bytes());
    takes(reply, &mut source);
    reply.bytes(source.into_inner());
}

// Writes to memory at most so many bytes at once, with trouble at the write of one number alone, and an error at
// the first flushes.
#[derive(Drop)]
struct FaultyWriter {
    bytes: Vec<u8>,
    most: usize,
    call: u64,
    at: u64,
    trouble: Option<ErrorKind>,
    failing_flushes: u64,
}

impl Write for FaultyWriter {
    fn write(&mut self, piece: &[u8]) -> io::Result<usize> {
        let call = self.call;
        self.call = self.call.saturating_add(1);
        if call != self.at {
            let count = piece.len().min(self.most);
            return self.bytes.write(&piece[..count]);
        }
        match self.trouble {
            Some(kind) => Err(Error::from(kind)),
            None => Ok(0),
        }
    }

    fn flush(&mut self) -> io::Result<()> {
        if self.failing_flushes > 0 {
            self.failing_flushes -= 1;
            return Err(Error::from(ErrorKind::StorageFull));
        }
        Ok(())
    }
}

// Puts four pieces and flushes three times: a stroke for each, or `!` where it failed.
fn writes<W: Write>(reply: &mut Reply, sink: &mut WriteSink<W>) {
    puts(reply, sink);
    reply.say(" ");
    for _ in 0..3 {
        let is_done = sink.flush().is_ok();
        reply.say(if is_done { "|" } else { "!" });
    }
}

fn writer_of(reply: &mut Reply, text: &str) -> FaultyWriter {
    let (most, rest) = reply.parts(text, " ");
    let (at, trouble) = reply.parts(rest, " ");
    FaultyWriter {
        bytes: Vec::new(reply.alloc),
        most: reply.read(most) as usize,
        call: 0,
        at: reply.read(at),
        trouble: trouble_of(reply, trouble),
        failing_flushes: 2,
    }
}

/// Four puts into a writer, three flushes, and what was written: from `MOST AT TROUBLE`.
pub(crate) fn writer(reply: &mut Reply, question: &str) {
    let mut sink = WriteSink::new(writer_of(reply, question));
    writes(reply, &mut sink);
    reply.bytes(&sink.into_inner().bytes);
}

/// The same with a writer that tells its bytes: from nothing.
pub(crate) fn vector(reply: &mut Reply) {
    let mut sink = WriteSink::telling(Vec::new(reply.alloc));
    writes(reply, &mut sink);
    reply.bytes(&sink.into_inner());
}

pub(crate) const ROWS: &str = "
source: abcdefghi |  => ab|cd|ef|gh|i 4
source: abcde | 0 => !|ab|cd|e| 4
source: abcde | 1 => ab|!|cd|e| 4
source: abcde | 3 2 7 => ab|cd|!|!|e 4
source: abc | 3 => ab|c||!| 4
source:  | 1 => |!||| 4
sink:  => ||||abcdef 4 0
sink: 0 => !|||cdef 4 0
sink: 1 => |!||abcdef 4 0
sink: 2 => ||!|abf 4 0
sink: 3 9 0 => !||!cde 4 0
sink: 0 1 2 3 => !!!! 4 0
// readers
reader: 9 denied => ab|c||| 0
reader: 0 denied => !|ab|c|| 0
reader: 0 blocked => !|ab|c|| 0
reader: 2 denied => ab|c|!|| 0
reader: 0 interrupted => ab|c||| 0
reader: 1 interrupted => ab|c||| 0
slice: abcdefghi => ab|cd|ef|gh|i
// writers
writer: 9 9 denied => |||| !!|abcdef
writer: 1 9 denied => |||| !!|abcdef
writer: 9 0 denied => !||| !!|cdef
writer: 9 0 blocked => !||| !!|cdef
writer: 9 0 nothing => !||| !!|cdef
writer: 1 1 denied => !||| !!|acdef
writer: 2 2 denied => ||!| !!|abcdf
writer: 1 1 interrupted => |||| !!|abcdef
writer: 0 9 denied => !|!! !!|
vector:  => |||| |||abcdef
";
