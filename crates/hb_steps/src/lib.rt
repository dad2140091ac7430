//! The relation of a step, and its laws: what one step of an actor does, over states that are data, and what each step
//! keeps. Sessions, the worker that posts, the one that merges and the one that flushes take their steps in any order.
//!
//! The one contract: what `StepsTo` of `specs/Steps.antt` says keeps what `specs/KeptMachine.antt` says. There is no code here but the
//! types that the relation speaks of: hb_core takes the steps. Each row of the table is a record in the files of
//! `specs/` of the deciders whose names end in `Rows`. What follows of the table is in `laws`, what it does to the
//! file, its contents and the order in `file_laws`, and what it keeps over any disk in `machine_laws`. `docs/STEPS.md`
//! tells every row in words.
//!
//! No type keeps an invariant. What every machine keeps is in `specs/KeptMachine.antt`, of parts in the
//! files beside it, a record for each.
//!
//! Source of the idea: Lomet and Salzberg 1992, whose structure changes are atomic actions that are
//! completed late, and Evangelidis, Lomet and Salzberg 1997.
#![tactic(auto)]

mod asked_boxes;
pub mod asked_laws;
pub mod cause_laws;
pub mod examples;
pub mod file_laws;
pub mod frame_laws;
pub mod keeping_laws;
pub mod laws;
pub mod machine_laws;
pub mod outcome_laws;
mod outcomes;
pub mod progress_laws;
mod threads;
pub mod waiting_laws;
pub mod written_chains;

pub use asked_boxes::{AskedBox, BoxTest};
pub use outcomes::Outcome;
