//! The types of this crate may go to another thread, and be read by several.

use crate::{Activity, Ahead, DropWhy, Fate, Job, JobKind, Jobs, Latch, Next, Wanted};
use hb_lemmas::crosses;

/// Each type of the crate does.
fn types_cross_threads() {
    crosses::<JobKind>();
    crosses::<Job>();
    crosses::<Jobs>();
    crosses::<Activity>();
    crosses::<Latch>();
    crosses::<Wanted>();
    crosses::<Ahead>();
    crosses::<DropWhy>();
    crosses::<Fate>();
    crosses::<Next>();
}
