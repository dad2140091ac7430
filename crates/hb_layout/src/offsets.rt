//! Where the parts of a file stand.
ghost use Rattle.std.specs.Prelude.{◌≡◌, ◌≤◌};
ghost use Rattle.hb_layout.specs.Offsets as places;

use crate::Meta;
use hb_space::form::PAGE;

/// Bytes of the two slots of superblocks, which stand in front.
const SLOTS: u64 = 2 * PAGE as u64;

/// The offset of the slot of a turn's superblock, in bytes.
pub fn slot_offset(turn: u8) -> u64
    ensures { result ≡ places.slot_offset turn }
{
    PAGE as u64 * u64::from(turn % 2)
}

/// Where the log area of a turn begins, in bytes.
pub fn log_start(turn: u8, meta: &Meta) -> u64
    ensures { result ≡ places.log_start turn meta.now }
{
    SLOTS + u64::from(turn % 2) * u64::from(meta.log)
}

/// The offset of the place of a page, in bytes.
pub fn page_offset(meta: &Meta, id: u32) -> u64
    requires { 1 ≤ id }
    ensures { result ≡ places.page_offset meta.now id }
{
    SLOTS + 2 * u64::from(meta.log) + PAGE as u64 * u64::from(id - 1)
}

/// How many bytes a file has.
pub fn file_size(meta: &Meta) -> u64
    ensures { result ≡ places.file_size meta.now }
{
    SLOTS + 2 * u64::from(meta.log) + PAGE as u64 * u64::from(meta.pages)
}
