//! Why a page isn't copied.

use hb_store::Why;

/// Why a page wasn't copied.
#[derive(Debug, Drop)]
pub enum CopyStop {
    /// The page of this number isn't one that the file may have there. The core is stopped.
    Damaged { page: u32, why: Why },
    /// The disk failed to read.
    ReadFault,
    /// The page isn't in memory, and there is no place for it: each place has a page that is dirty or pinned.
    Crowded,
    /// Memory was refused for the copy. The page may have come into memory.
    NoMemory,
}
