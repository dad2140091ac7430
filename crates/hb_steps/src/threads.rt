//! The types of this crate may go to another thread, and be read by several.

use crate::Outcome;
use hb_lemmas::crosses;

/// The type of this crate that others keep does.
fn types_cross_threads() {
    crosses::<Outcome>();
}
