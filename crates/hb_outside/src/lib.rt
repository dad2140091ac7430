//! The outside as sources and sinks of bytes, and numbers as bytes.
//!
//! The one contract: a source moves the first bytes of what it has left, a sink appends what it is
//! given, and each answers `Failed` only where its count of faults rose in that call.
//!
//! In memory, `MemSource` and `MemSink` tell all: a source fails at the listed calls and at no
//! other, a sink at those and for want of memory. `ReadSource` and `WriteSink` go over a reader and
//! a writer of std. A take gives a number exactly where the bytes are those that the give of its
//! width writes.
//!
//! Each source or sink may tell its bytes or not. What is proved of a caller over every source or sink holds over
//! one that tells nothing too, as a file or a terminal.
#![tactic(auto)]

mod memory_sink;
mod memory_source;
mod numbers;
mod read_source;
mod threads;
mod traits;
mod write_sink;

pub use memory_sink::MemSink;
pub use memory_source::MemSource;
pub use numbers::{
    big_endian_law, give_law, give_u16, give_u32, give_u64, take_u8, take_u16, take_u32, take_u64,
};
pub use read_source::ReadSource;
pub use traits::{Failed, Sink, Source};
pub use write_sink::WriteSink;
