//! What a page may weigh, and where it weighs so little that it is to be merged.

ghost use Rattle.std.specs.Prelude.{◌≡◌};
ghost use Rattle.hb_frag.specs.Rules.{capacity_of, is_thin, most_merged};

/// What a page of the level may weigh: `dcap` where it has records, `icap` above.
pub fn capacity_of(level: u8, dcap: u16, icap: u16) -> u16
    ensures { result ≡ capacity_of level dcap icap }
{
    if level == 0 { dcap } else { icap }
}

/// Whether a page is thin that weighs so much.
pub fn is_thin(weight: u32, capacity: u16) -> bool
    ensures { result ≡ is_thin weight capacity }
{
    4 * u64::from(weight) <= u64::from(capacity)
}

/// What two pages may weigh that become one.
pub fn most_merged(capacity: u16) -> u64
    ensures { result ≡ most_merged capacity }
{
    3 * u64::from(capacity) / 4
}
