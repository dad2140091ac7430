//! The types of this crate may go to another thread, and be read by several. So may pages.

use crate::PageError;
use hb_frag::Page;
use hb_lemmas::crosses;

/// Each type of the crate does, and what it reads and writes.
fn types_cross_threads() {
    crosses::<PageError>();
    crosses::<Page>();
}
