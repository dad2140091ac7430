//! Why a call of the store stops.
use hb_space::Area;

/// Why a page isn't the one that was asked for.
#[derive(Debug, Drop)]
pub enum Why {
    /// It breaks the rule of this number. 0: its bytes are no page. 1: no page of the file has its number. 2: a wanted
    /// page is free, or the head of the free chain isn't.
    Rule(u8),
    /// Its level isn't the one that was asked for.
    Level { asked: u8, found: u8 },
    /// Its box isn't the one that was asked for.
    Extent { asked: Area, found: Area },
}

/// Why a page wasn't fetched.
#[derive(Debug, Drop)]
pub enum FetchStop {
    /// The page of this number isn't one that the file may have there.
    Damaged { page: u32, why: Why },
    /// The disk failed to read.
    ReadFault,
    /// The page isn't in memory, and there is no place for it: each place has a page that is dirty or pinned.
    Crowded,
}

/// Why nothing more is done with a file.
#[derive(Debug, Drop)]
pub enum StopWhy {
    /// A write, zero or sync failed.
    WriteFault,
    /// The page of this number isn't the one that was asked for.
    Damaged { page: u32, why: Why },
}

/// A write, zero or sync of the disk failed. The store is stopped then.
#[derive(Clone, Copy, Debug, PartialEq, Eq)]
pub struct WriteFault;

/// What a flush did.
#[derive(Clone, Copy, Debug, PartialEq, Eq)]
pub enum Flushed {
    /// All groups that waited were forced, as one frame.
    Forced,
    /// The page of this number was written to its place.
    Written(u32),
    /// The next turn began: the log has no frame.
    Switched,
    /// Nothing waited, no page was to be written, and the log had no frame.
    Nothing,
}
