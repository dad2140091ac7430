//! The two superblocks: what a file says of itself, and how it is exchanged as a whole.
//!
//! The one contract: `read_super` gives the newest legal superblock, and whatever a crash leaves of
//! `write_super`, the old one is the newest or one of the new turn is. That is the new one,
//! where `clear_hidden` first takes away what a write that was cut short left of the turn.
//!
//! A superblock is a gate byte and a body of 40 bytes, and there are two places for it. A turn goes
//! 0, 1, 2, 3 and round again, and its parity is its place. So the next one is written over the one
//! before the newest, which stays whole meanwhile. The gate is closed before the body is touched and
//! opened after it, with a sync between each two writes.
//!
//! Invariants: a place has one superblock or none. Of two the turns differ by an odd number, so
//! exactly one comes after the other, and that is the newest.
#![tactic(auto)]

mod body;
mod hidden;
pub mod laws;
mod reading;
mod threads;
mod writing;

pub use hidden::clear_hidden;
pub use reading::{SuperStop, read_super};
pub use writing::{write_first_super, write_super};
