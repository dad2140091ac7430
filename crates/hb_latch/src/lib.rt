//! Latches on pages: which actor holds which page, and how.
//!
//! The one contract: a latch is refused exactly where another actor's mode on the page conflicts,
//! and the answer names the least such actor. Contracts see the table as a finite map from an
//! actor and a page to a mode (`specs/Tables.antt`). It doesn't show in which order the latches
//! were taken, nor where they stand.
//!
//! Invariants: each that holds a latch is an actor, none holds more than three, and
//! none holds two on one page. So the table has a fixed size, and no call takes memory.
#![tactic(auto)]

mod entries;
mod latches;
pub mod laws;
mod modes;
mod threads;

pub use latches::{HeldBy, LATCHES, Latches};
pub use modes::Mode;
