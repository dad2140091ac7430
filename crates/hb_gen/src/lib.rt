//! Command texts for trials, from a number.
//!
//! The one contract: `generate` gives the text of so many command lines, drawn from a first state
//! as `specs/Lines.antt` has it and spelled as `specs/Spelling.antt` has it. So the same numbers
//! give the same text everywhere. The functions of `laws` say what follows from the definitions:
//! the first draws, and that whoever reads the text gets just the lines that were drawn.
//!
//! Invariants: no line is empty, so the number of a command is that of its line; sessions are from
//! 1 to 8.
#![tactic(auto)]

mod drawing;
mod draws;
mod generating;
pub mod laws;
mod spelling;

pub use generating::generate;
