//! The row of the step table for searches: what a session does that has latched a page where its search
//! goes through records.
//!
//! The one contract: a search takes the records of the last box that remains, puts what of the box lies
//! outside the leaf in its place, and takes effect once no box is left, with its records in the order of
//! their points (`specs/SearchRows.antt`).
//!
//! `next` tells the row's outcome from the page that the step latched, and touches nothing itself. `descend` answers as it does,
//! and reads the page from its bytes: it copies no record but those that are found. What they may be asked is in
//! `specs/Searching.antt`.
#![tactic(auto)]

mod deciding;
mod descending;
pub mod examples;
mod gathering;
pub mod laws;
mod walking;

pub use deciding::next;
pub use descending::descend;
