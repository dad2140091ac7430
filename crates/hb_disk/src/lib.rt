//! A disk as calls with places, and what a crash may leave of it.
//!
//! The one contract: at each moment a crash leaves an image of the disk. An image is what a read
//! gives but for the ranges that were written, zeroed or tried since the last sync that succeeded,
//! in which it has any bytes. Each call of `Device` says what it makes of the bytes that are read, of
//! the images, and of the clock, and its count of faults rises exactly where it answers `Failed`.
//!
//! The clock counts writes, zeroes and syncs, so that a caller can speak of every moment inside its
//! own run. `write_behind_gate` and `write_in_order` are such callers, proved over every disk.
//!
//! Invariants: a disk as it reads is one of its own images, each image is as long as the disk, and
//! its size never changes. `MemDisk` tells its bytes and keeps a record of its calls, from which it
//! shows the images of each moment of its life. `RotDisk` tells nothing, and a byte of it goes bad.
#![tactic(auto)]

mod callers;
mod event;
mod faults;
mod history;
mod images;
pub mod laws;
mod mem_disk;
mod rot_disk;
mod threads;
mod traits;

pub use callers::{OPEN, write_behind_gate, write_in_order};
pub use event::Pick;
pub use faults::DiskFault;
pub use mem_disk::MemDisk;
pub use rot_disk::RotDisk;
pub use traits::{Device, Disk};
