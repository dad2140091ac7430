//! The limits of what a file may be. Those of attributes and of the least capacity of an index page
//! stand in hb_space.
ghost use Rattle.std.specs.Prelude.{◌≡◌};
ghost use Rattle.hb_layout.specs.declared.limits.TheConstants.{PAGES_MAX, LOG_MIN, LOG_MAX, DCAP_MIN, DCAP_MAX, ICAP_MAX, HEIGHT_MAX};

/// The greatest number of pages of a file.
pub const PAGES_MAX: u32 = 65_536;

/// The least number of bytes of a log area.
pub const LOG_MIN: u32 = 65_536;

/// The greatest number of bytes of a log area.
pub const LOG_MAX: u32 = 67_108_864;

/// The least capacity of a data page, by weight.
pub const DCAP_MIN: u16 = 6;

/// The greatest capacity of a data page, by weight.
pub const DCAP_MAX: u16 = 48;

/// The greatest capacity of an index page, by weight.
pub const ICAP_MAX: u16 = 256;

/// The greatest number of levels.
pub const HEIGHT_MAX: u8 = 12;

/// The limits of this version. A file of another version has others, so who changes one has to say
/// so here.
pub fn limits_of_this_version()
    ensures pages { PAGES_MAX ≡ 65536 }
    ensures log_least { LOG_MIN ≡ 65536 }
    ensures log_most { LOG_MAX ≡ 67108864 }
    ensures data_least { DCAP_MIN ≡ 6 }
    ensures data_most { DCAP_MAX ≡ 48 }
    ensures index_most { ICAP_MAX ≡ 256 }
    ensures height { HEIGHT_MAX ≡ 12 }
{}
