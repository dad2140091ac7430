//! The types of this crate may go to another thread, and be read by several.
use crate::{Failed, MemSink, MemSource, ReadSource, WriteSink};
use hb_lemmas::crosses;
use std::io::{Read, Write};

/// Each type does, a source over a reader and a sink over a writer where these do.
fn types_cross_threads<R: Read + Send + Sync, W: Write + Send + Sync>() {
    crosses::<Failed>();
    crosses::<MemSource>();
    crosses::<MemSink>();
    crosses::<ReadSource<R>>();
    crosses::<WriteSink<W>>();
}
