//! The core: it takes one step of any actor over a store. What a step is says hb_steps; this crate's code takes it, and its
//! definitions say what a core shows of the machine of which that speaks.
//!
//! The one contract: each call of `Core::step` is a step of the table (`StepsTo` of hb_steps), of each machine that the core
//! shows (`ShowsMachine`). Between two steps a caller may let a job wait, look at a page, and flush (`specs/Between.antt`).
//!
//! Invariants: none is kept by a type. `MayStep` (`specs/Working.antt`) says what a caller has, and each call leaves.
//!
//! Source of the idea: Lomet and Salzberg 1992, and Evangelidis, Lomet and Salzberg 1997.
#![tactic(auto)]

mod aiming;
mod asking;
mod between;
pub mod between_laws;
mod bringing;
mod copies;
mod counts;
mod deciding;
mod endings;
mod halts;
mod leaf_boxes;
mod locking;
mod performing;
mod reading;
pub mod run_laws;
mod state;
mod stepping;
mod threads;
mod worker_rows;
mod working;

pub use copies::CopyStop;
pub use counts::TidyCounts;
pub use endings::{End, Ran};
pub use hb_activity::DropWhy;
pub use hb_steps::Outcome;
pub use state::Core;
