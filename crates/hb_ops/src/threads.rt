//! The types of this crate may go to another thread, and be read by several.

use crate::{ChangeError, Changed, Cuts, LeafCut, Meta, Op};
use hb_lemmas::crosses;

/// Each type of the crate does.
fn types_cross_threads() {
    crosses::<Meta>();
    crosses::<Op>();
    crosses::<LeafCut>();
    crosses::<Cuts>();
    crosses::<Changed>();
    crosses::<ChangeError>();
}
