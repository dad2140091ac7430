//! Where each actor stands between two steps, as data, and what follows from it: the latches that
//! it holds, the one that its next step wants, the box that its command has locked, and whether
//! its next step may change the file. And the jobs that wait for the workers.
//!
//! The one contract: each of these is as the table of `specs/Holding.antt`, `specs/Wanting.antt` and
//! `specs/BoxLocks.antt` says for the activity, and the jobs are a list in the order in which they
//! came, each once.
//!
//! Invariants: of `Jobs`, that no job stands twice, that there are at most `JOBS`, and that there
//! is room for so many. An `Activity` is plain data.
#![tactic(auto)]

mod activities;
mod ahead;
mod box_locks;
mod changing;
mod corners;
mod deciding;
mod dropping;
pub mod examples;
mod holding;
mod jobs;
mod latched;
pub mod laws;
mod passing;
mod threads;
mod waiting_jobs;
mod walks;
mod wanting;

pub use activities::Activity;
pub use ahead::Ahead;
pub use box_locks::box_lock_for;
pub use corners::corner_of;
pub use deciding::{Fate, Next};
pub use dropping::DropWhy;
pub use holding::Latch;
pub use jobs::{Job, JobKind};
pub use latched::Latched;
pub use waiting_jobs::{JOBS, Jobs};
pub use wanting::Wanted;
