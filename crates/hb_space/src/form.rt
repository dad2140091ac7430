//! The lengths and limits of this version of the file and of the command text.
ghost use Rattle.std.specs.Prelude.{◌≡◌};
ghost use Rattle.hb_space.specs.declared.form.TheConstants.{PAGE, KMAX, BMAX, VERSION, GROUP, PENDING, ICAP_MIN, LINE};

/// Bytes of a page.
pub const PAGE: usize = 4096;

/// The greatest number of attributes.
pub const KMAX: usize = 4;

/// The greatest number of bytes of a body.
pub const BMAX: usize = 32;

/// The version of the file.
pub const VERSION: u8 = 1;

/// The greatest number of bytes of a group in the log.
pub const GROUP: usize = 16384;

/// The bytes that are reserved for groups that wait for a force.
pub const PENDING: usize = 65536;

/// The least capacity of an index page, by weight.
pub const ICAP_MIN: u16 = 32;

/// The greatest number of bytes of a line of command text, without its line feed.
pub const LINE: usize = 256;

/// The numbers of this version. A file or a text of another version has others, so who changes one has to say so here.
pub fn numbers_of_this_version()
    ensures page { PAGE ≡ 4096 }
    ensures attributes { KMAX ≡ 4 }
    ensures body { BMAX ≡ 32 }
    ensures version { VERSION ≡ 1 }
    ensures group { GROUP ≡ 16384 }
    ensures pending { PENDING ≡ 65536 }
    ensures index_capacity { ICAP_MIN ≡ 32 }
    ensures line { LINE ≡ 256 }
{}
