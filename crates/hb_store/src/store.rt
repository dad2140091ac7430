ghost use Rattle.std.specs.Prelude.{◌≤◌};
ghost use Rattle.hb_layout.specs.Offsets.{file_size};

use crate::memory::Memory;
use hb_disk::Device;
use std::alloc::Global;

/// A file on a disk: the disk, and what is in memory of the file.
#[derive(Drop)]
pub struct Store<D: Device> {
    pub(crate) alloc: Global,
    pub(crate) disk: D,
    pub(crate) memory: Memory,
    ghost room: { file_size memory.state.meta ≤ (D.model disk).size },
}
