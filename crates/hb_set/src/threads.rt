//! The types of this crate may go to another thread, and be read by several.

use crate::{Answered, Command, Line, Lines, Reply, Script, Set, Steps};
use hb_lemmas::crosses;

/// Each type of the crate does.
fn types_cross_threads() {
    crosses::<Command>();
    crosses::<Reply>();
    crosses::<Line>();
    crosses::<Lines>();
    crosses::<Steps>();
    crosses::<Script>();
    crosses::<Answered>();
    crosses::<Set>();
}
