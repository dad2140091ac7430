//! Files made and opened, of any number of pages and any height.
//!
//! The one contract: `recover` is Ok exactly where what the disk tells opens to a sound file. Then the store has that file,
//! and the number is that of its records. Else it says why, in the order of its refusals, and nothing was written before
//! any of them. It syncs, writes the pages that the log touches to their places, each once, and begins the next turn.
//! Over an even disk every image since the call opens to the same file, also after a fault. `create` makes a file without
//! a record.
//!
//! The log is read once, and the audit takes the pages that the log touches before those that stand in their places. It
//! asks for each page at most twice. Nothing is kept of a page but what the audit keeps, and no type keeps an invariant
//! but the source of the audit's pages: the disk has room for its file, and no touched page is heavier than its bytes may
//! be.
#![tactic(auto)]

mod creation;
mod faults;
pub mod laws;
mod layout;
mod looking;
mod reading;
mod recovery;
mod renewal;
mod source;
mod threads;

pub use creation::create;
pub use faults::{BadField, CreateFault, Field, OpenFault};
pub use layout::{Layout, a_new_file_is_sound};
pub use recovery::recover;
