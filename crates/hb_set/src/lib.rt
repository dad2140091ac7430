//! The plain record set: commands, replies, scripts, and a set of records that answers.
//!
//! The one contract: `Set::answer` is the record set machine. For each command it gives the
//! machine's reply and leaves the machine's next set; for want of memory alone it answers
//! `Reply::NoMemory`, and then leaves the set as it was. The machine is a function of a finite map
//! from points to bodies (`specs/Machine.antt`), and legal orders of answered lines are its runs
//! (`specs/Order.antt`). The functions of `laws` say what follows for whole orders: one machine, one
//! answer; a legal order may be cut; lines that are answered in the order of the text are one.
//!
//! Invariants: the records of a `Set` stand in the order of their points, each point once.
#![tactic(auto)]

mod commands;
pub mod laws;
mod scripts;
mod search;
mod set;
mod threads;

pub use commands::{Command, Reply};
pub use scripts::{Answered, Line, Lines, Script, Steps};
pub use set::Set;
