//! The types of this crate may go to another thread, and be read by several.

use crate::{Area, Areas, Body, Point, Record, Records};
use hb_lemmas::crosses;

/// Each type of the crate does.
fn types_cross_threads() {
    crosses::<Point>();
    crosses::<Body>();
    crosses::<Record>();
    crosses::<Records>();
    crosses::<Area>();
    crosses::<Areas>();
}
