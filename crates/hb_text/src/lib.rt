//! Command text and output text.
//!
//! The one contract: `read_commands` gives the script that the text says, or the first line that
//! breaks a rule with the first rule that it breaks, as the grammar in `specs/Grammar.antt` has it;
//! want of memory is its answer only where a command stands before that line. `read_number` gives
//! the number that a word says, and tells a word that is none from a number that is too large.
//! `put_reply`, `put_left` and `put_order` write the lines of an answer, of a line that has none,
//! and of the order, as `specs/Output.antt` has them: all of them, or the front that a failing sink
//! took. The functions of `laws` say what follows from the definitions alone: numbers are decimal
//! spellings, lines and words make the text that they were cut from, and no body that is printed
//! can be taken for other output.
//!
//! Invariants: a line that is read has a number from 1 to 1,000,000 and a session from 1 to `SESSIONS`, its
//! command has as many attributes as were asked for, and lines stand in the order of their numbers.
#![tactic(auto)]

mod commands;
pub mod laws;
mod lines;
mod long_texts;
mod numbers;
mod operands;
mod output;
mod output_line;
mod reading;
mod rules;
mod steps;
mod verbs;
mod words;

pub use long_texts::a_long_text_is_refused_by_its_front;
pub use numbers::{NumberFault, read_number};
pub use output::{put_left, put_order, put_reply};
pub use output_line::LineBuffer;
pub use reading::read_commands;
pub use rules::{BadLine, TextError, TextRule};
