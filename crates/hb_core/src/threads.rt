//! The types of this crate may go to another thread, and be read by several.

use crate::{CopyStop, TidyCounts};
use hb_lemmas::crosses;

/// Each type of the crate does.
fn types_cross_threads() {
    crosses::<CopyStop>();
    crosses::<TidyCounts>();
}
