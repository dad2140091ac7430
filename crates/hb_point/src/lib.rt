//! The rows of the step table for inserts, deletes and lookups: what a session does that has its next
//! line, that has latched a page on its way to its point, that splits a full page, and that puts its
//! record into one of the halves.
//!
//! The one contract: a session's step does one of these rows. They are records over what a row reads
//! (`Sight` of hb_activity), each with its condition and the deed that it is:
//! `specs/SessionRows.antt`. hb_core joins them with the rows of the other actors.
//!
//! `descend` tells which row a walk's step does, from the bytes of the page that it latched, and takes no memory. `put_in_half`
//! does so of a put. `next` tells which one a split or a put does, from the pages that the step holds. They touch nothing
//! themselves. What they may be asked is in `specs/Asks.antt`.
#![tactic(auto)]

mod deciding;
mod descending;
pub mod examples;
mod halving;
pub mod laws;
mod putting;

pub use deciding::{next, put_in_half};
pub use descending::descend;
