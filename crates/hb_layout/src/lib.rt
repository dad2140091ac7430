//! What a file says of itself, its limits, and where its parts stand.
//!
//! The one contract: each offset is the one that `specs/Offsets.antt` states, and `Meta::is_layout`
//! tells whether a file keeps the limits of `specs/Limits.antt`. `laws` says what follows: within
//! the limits no two parts of a file overlap, and all of them lie in it.
//!
//! A file has two slots of superblocks in front, then two log areas, then its pages by their
//! numbers. The parity of a turn is the number of its slot and of its log area. No type keeps an
//! invariant.
#![tactic(auto)]

pub mod laws;
mod layouts;
pub mod limits;
mod meta;
mod offsets;
mod threads;

pub use meta::Meta;
pub use offsets::{file_size, log_start, page_offset, slot_offset};
