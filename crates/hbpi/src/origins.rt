//! Where the script of a run comes from.

/// Where the script of a run comes from.
#[derive(Clone, Copy)]
pub(crate) enum Origin {
    /// The text of the source, with step lines or without.
    Text { step_lines: bool },
    /// So many lines that the generator draws from this state. The source isn't read.
    Drawn { state: u64, lines: u32 },
}
