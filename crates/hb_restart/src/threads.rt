//! The types of this crate may go to another thread, and be read by several.

use crate::{BadField, CreateFault, Field, Layout, OpenFault};
use hb_lemmas::crosses;

/// Each type of the crate does.
fn types_cross_threads() {
    crosses::<BadField>();
    crosses::<CreateFault>();
    crosses::<Field>();
    crosses::<Layout>();
    crosses::<OpenFault>();
}
