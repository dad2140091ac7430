//! Why a file wasn't made or opened.

use hb_sound::AuditStop;
use hb_store::LogStop;
use hb_super::SuperStop;

/// A field of a file's layout.
#[derive(Clone, Copy, Debug, PartialEq, Eq)]
pub enum Field {
    K,
    Pages,
    Log,
    Dcap,
    Icap,
}

/// A field of a file's layout that is out of its limits, and the value that it was to have.
#[derive(Clone, Copy, Debug, PartialEq, Eq)]
pub struct BadField {
    pub field: Field,
    pub value: u64,
}

/// Why a file wasn't made.
#[derive(Clone, Copy, Debug, PartialEq, Eq)]
pub enum CreateFault {
    /// This field of the layout, the first one, is out of its limits.
    BadLayout(BadField),
    /// The disk has fewer bytes than the layout needs.
    Small { needed: u64, found: u64 },
    /// The disk failed.
    DiskFault,
    /// Memory was refused, once the file was made.
    NoMemory,
}

/// Why a file wasn't opened.
#[derive(Clone, Copy, Debug, PartialEq, Eq)]
pub enum OpenFault {
    /// The disk has fewer bytes than are needed.
    Small { needed: u64, found: u64 },
    /// Neither superblock place is open over a legal body.
    NoSuper,
    /// The frame of this number, counted from 0, is the first bad one of the log.
    BadGroup { frame: u32 },
    /// The file breaks this rule, the first one; and the page that the audit names, 0 for none.
    Unsound { page: u32, rule: u8 },
    /// The disk failed.
    DiskFault,
    /// Memory was refused.
    NoMemory,
}

impl From<AuditStop> for OpenFault {
    ghost use Rattle.std.specs.Prelude.{◌≡◌};
    ghost use Rattle.hb_restart.specs.Found.{audit_fault};

    ghost from_gives = { λ stop fault. fault ≡ audit_fault stop };

    fn from(stop: AuditStop) -> OpenFault {
        match stop {
            AuditStop::Broken { page, rule } => OpenFault::Unsound { page, rule },
            AuditStop::Failed => OpenFault::DiskFault,
            AuditStop::NoMemory => OpenFault::NoMemory,
        }
    }
}

impl From<SuperStop> for OpenFault {
    ghost use Rattle.std.specs.Prelude.{◌≡◌};
    ghost use Rattle.hb_restart.specs.Found.{super_fault};

    ghost from_gives = { λ stop fault. fault ≡ super_fault stop };

    fn from(stop: SuperStop) -> OpenFault {
        match stop {
            SuperStop::NoSuper => OpenFault::NoSuper,
            SuperStop::DiskFault => OpenFault::DiskFault,
        }
    }
}

impl From<LogStop> for OpenFault {
    ghost use Rattle.std.specs.Prelude.{◌≡◌};
    ghost use Rattle.hb_restart.specs.Found.{log_fault};

    ghost from_gives = { λ stop fault. fault ≡ log_fault stop };

    fn from(stop: LogStop) -> OpenFault {
        match stop {
            LogStop::BadGroup { frame } => OpenFault::BadGroup { frame },
            LogStop::NoMemory => OpenFault::NoMemory,
            LogStop::DiskFault => OpenFault::DiskFault,
        }
    }
}
