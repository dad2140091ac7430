//! The types of this crate may go to another thread, and be read by several.

ghost use Rattle.std.specs.Thread.{IsSend};

use crate::{FetchStop, Flushed, LogStop, StopWhy, Store, Touched, Why, WriteFault};
use hb_disk::Device;
use hb_lemmas::crosses;

/// A store may go to another thread where its disk may.
fn a_store_goes_where_its_disk_goes<D: Device + Send>() {
    goes::<Store<D>>();
}

/// Each other type of the crate does, and a store may be read by several where its disk may.
fn types_cross_threads<D: Device + Send + Sync>() {
    crosses::<Store<D>>();
    crosses::<Touched>();
    crosses::<LogStop>();
    crosses::<FetchStop>();
    crosses::<StopWhy>();
    crosses::<Why>();
    crosses::<WriteFault>();
    crosses::<Flushed>();
}

/// Values of the type may go to another thread.
fn goes<T: Send>()
    ensures { IsSend T.row }
{}
