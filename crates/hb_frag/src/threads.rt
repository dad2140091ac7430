//! The types of this crate may go to another thread, and be read by several.

use crate::{Frag, Leaf, LivePage, Node, Page, Pages, Path, Side};
use hb_lemmas::crosses;

/// Each type of the crate does.
fn types_cross_threads() {
    crosses::<Leaf>();
    crosses::<Node>();
    crosses::<Frag>();
    crosses::<Side>();
    crosses::<Path>();
    crosses::<Pages>();
    crosses::<LivePage>();
    crosses::<Page>();
}
