//! Fields of a page that are numbers, from the front of bytes.
ghost use Rattle.std.specs.Prelude.{◌≡◌};
ghost use Rattle.hb_page_codec.specs.Reading.{ReadsAs, number_at};

use hb_outside::{take_u16, take_u32, take_u64};

/// A number of two bytes, and the bytes behind it.
pub fn u16_of(bytes: &[u8]) -> Option<(u16, &[u8])>
    ensures { ReadsAs (λ x. (x.0, x.1.now)) result (number_at 2 bytes.now) }
{
    let number = take_u16(bytes, 0)?;
    Some((number, &bytes[2..]))
}

/// A number of four bytes, and the bytes behind it.
pub fn u32_of(bytes: &[u8]) -> Option<(u32, &[u8])>
    ensures { ReadsAs (λ x. (x.0, x.1.now)) result (number_at 4 bytes.now) }
{
    let number = take_u32(bytes, 0)?;
    Some((number, &bytes[4..]))
}

/// A number of eight bytes, and the bytes behind it.
pub fn u64_of(bytes: &[u8]) -> Option<(u64, &[u8])>
    ensures { ReadsAs (λ x. (x.0, x.1.now)) result (number_at 8 bytes.now) }
{
    let number = take_u64(bytes, 0)?;
    Some((number, &bytes[8..]))
}
