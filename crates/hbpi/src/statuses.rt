ghost use Rattle.std.specs.Prelude.{◌≡◌, ◌≢◌};
ghost use Rattle.hbpi.specs.Codes.{code_of, damage_of, made_status, status_of};

use hb_restart::{CreateFault, Field, OpenFault};
use hb_space::NoMemory;
use hb_store::Why;
use hb_text::BadLine;
use hb_tidy::TidyStop;

/// What is wrong with a file.
#[derive(Clone, Copy, Debug, PartialEq, Eq)]
pub enum Damage {
    /// Neither superblock place is open over a legal body.
    NoSuper,
    /// The frame of this number is the first bad one of the log.
    BadGroup { frame: u32 },
    /// The file breaks the rule of this number at this page.
    Rule { page: u32, rule: u8 },
    /// The level of this page isn't the one that was asked for.
    Level { page: u32 },
    /// The box of this page isn't the one that was asked for.
    Extent { page: u32 },
}

impl Damage {
    /// What is wrong with a page that a run met.
    pub(crate) fn of_page(page: u32, why: &Why) -> Damage
        ensures { result ≡ damage_of page why.now }
    {
        match why {
            Why::Rule(rule) => Damage::Rule { page, rule: *rule },
            Why::Level { .. } => Damage::Level { page },
            Why::Extent { .. } => Damage::Extent { page },
        }
    }
}

/// How a run of the program ends.
#[derive(Clone, Copy, Debug, PartialEq, Eq)]
pub enum Status {
    /// The whole output was written.
    Done,
    /// The words are no form.
    Usage,
    /// The text breaks a rule. No command was done.
    BadText(BadLine),
    /// The source failed. No command was done.
    SourceFault,
    /// The sink failed.
    SinkFault,
    /// The disk failed.
    DiskFault,
    /// The file is damaged.
    Damaged(Damage),
    /// Memory was refused before the first command. A file that was to be made may stand.
    NoMemory,
    /// A field of the layout is out of its limits.
    BadLayout { field: Field, value: u64 },
    /// The disk has fewer bytes than are needed.
    Small { needed: u64, found: u64 },
    /// What is to be tidied needs a page, and none is free.
    Full,
    /// The core has taken as many steps as it counts.
    Spent,
}

impl Status {
    /// The exit status of the program.
    pub fn code(self) -> u8
        ensures { result ≡ code_of self }
    {
        match self {
            Status::Done => 0,
            Status::Usage => 2,
            Status::BadText(_) => 3,
            Status::SourceFault => 4,
            Status::SinkFault => 5,
            Status::DiskFault => 6,
            Status::Damaged(_) => 7,
            Status::NoMemory => 8,
            Status::BadLayout { .. } | Status::Small { .. } => 9,
            Status::Full => 10,
            Status::Spent => 14,
        }
    }

    /// The status where the sink fails behind the last call: a whole output becomes one that isn't,
    /// and a refusal stays.
    pub fn after_sink_fault(self) -> Status
        ensures done { self ≡ Status.Done → result ≡ Status.SinkFault }
        ensures others { self ≢ Status.Done → result ≡ self }
    {
        match self {
            Status::Done => Status::SinkFault,
            other => other,
        }
    }
}

impl From<NoMemory> for Status {
    ghost use Rattle.std.specs.Prelude.{◌≡◌};
    ghost use Rattle.hbpi.specs.declared.statuses.Status.TheVariants.{NoMemory as Refused};

    ghost from_gives = { λ _ status. status ≡ Refused };

    /// The status of a run to which memory was refused.
    fn from(_refused: NoMemory) -> Status {
        Status::NoMemory
    }
}

impl From<CreateFault> for Status {
    ghost use Rattle.std.specs.Prelude.{◌≡◌};
    ghost use Rattle.hbpi.specs.Codes.{made_status};

    ghost from_gives = { λ fault status. status ≡ made_status fault };

    /// The status of a run whose file wasn't made.
    fn from(fault: CreateFault) -> Status {
        match fault {
            CreateFault::BadLayout(bad) => Status::BadLayout {
                field: bad.field,
                value: bad.value,
            },
            CreateFault::Small { needed, found } => Status::Small { needed, found },
            CreateFault::DiskFault => Status::DiskFault,
            CreateFault::NoMemory => Status::NoMemory,
        }
    }
}

impl From<TidyStop> for Status {
    ghost use Rattle.std.specs.Prelude.{◌≡◌};
    ghost use Rattle.hbpi.specs.Codes.{tidy_status};

    ghost from_gives = { λ stop status. status ≡ tidy_status stop };

    /// The status of a run whose file wasn't tidied.
    fn from(stop: TidyStop) -> Status {
        match stop {
            TidyStop::Full => Status::Full,
            TidyStop::ReadFault | TidyStop::WriteFault => Status::DiskFault,
            TidyStop::Damaged { page, why } => Status::Damaged(Damage::of_page(page, &why)),
            TidyStop::Spent => Status::Spent,
            TidyStop::NoMemory => Status::NoMemory,
        }
    }
}

impl From<OpenFault> for Status {
    ghost use Rattle.std.specs.Prelude.{◌≡◌};
    ghost use Rattle.hbpi.specs.Codes.{status_of};

    ghost from_gives = { λ fault status. status ≡ status_of fault };

    /// The status of a run whose file wasn't opened.
    fn from(fault: OpenFault) -> Status {
        match fault {
            OpenFault::Small { needed, found } => Status::Small { needed, found },
            OpenFault::NoSuper => Status::Damaged(Damage::NoSuper),
            OpenFault::BadGroup { frame } => Status::Damaged(Damage::BadGroup { frame }),
            OpenFault::Unsound { page, rule } => Status::Damaged(Damage::Rule { page, rule }),
            OpenFault::DiskFault => Status::DiskFault,
            OpenFault::NoMemory => Status::NoMemory,
        }
    }
}
