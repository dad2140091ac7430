//! Locks on boxes: which actor has which box for its command, and whether it shares it.
//!
//! The one contract: a lock is refused exactly where another actor's box meets this one and one of the
//! two isn't shared, and the answer names the least such actor. Contracts see the table as a finite map
//! from actors to locks (`specs/Locking.antt`). It doesn't show in which order the locks were taken.
//!
//! Invariant: there is a place for each actor. So the table has a fixed size, and no call
//! takes memory.
#![tactic(auto)]

pub mod laws;
mod locks;
mod tables;
mod threads;

pub use locks::BoxLock;
pub use tables::{BoxLocks, HeldBy};
