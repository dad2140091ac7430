use std::alloc::{AllocError, AllocFailed};

/// Why a limit wasn't reached.
#[derive(Debug, Drop)]
pub(crate) enum Missed {
    /// This program had no memory for what it compares with.
    NoMemory,
    /// The words want threads, and this program has none.
    Threaded {
        call: &'static str,
    },
    /// A call ended with another status or output than it should. `from` is the first byte of the output that differs.
    Call {
        call: &'static str,
        status: u8,
        from: usize,
    },
    /// A call ended otherwise than it should over the file of so many levels, which is tidied.
    Tidied {
        call: &'static str,
        height: u8,
    },
    /// A page was read that isn't the one of the bytes.
    AnotherPage,
    /// The file has another number of levels.
    Height {
        height: u8,
    },
    /// A file whose pages were all taken says otherwise.
    NotUsedUp,
    /// A sound file was refused.
    NotSound,
    /// A page was asked for more or less often.
    Asked {
        page: u32,
        count: u8,
    },
    /// A page doesn't stand in its place as it was changed.
    NotHome {
        page: u32,
    },
    /// A call answered otherwise than it should, for a page of so many leaves or steps.
    Otherwise {
        call: &'static str,
        attributes: u8,
        level: u8,
        count: u32,
    },
}

impl From<AllocError> for Missed {
    fn from(_refused: AllocError) -> Missed {
        Missed::NoMemory
    }
}

impl<T: Drop> From<AllocFailed<T>> for Missed {
    fn from(_refused: AllocFailed<T>) -> Missed {
        Missed::NoMemory
    }
}
