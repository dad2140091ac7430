//! The log as frames of opaque bytes, one after the other in an area of the disk.
//!
//! The one contract: whatever a crash leaves of the log, its frames are whole. `Wal::force` writes
//! all groups that wait as one frame. Inside it an image of the disk has the frames that were, or
//! those and this one; after Ok they are on the disk. So of groups that are forced together a crash
//! leaves all or none. `read_area` gives the payloads of exactly the frames that stand in the area,
//! up to the first place without an open gate.
//!
//! A frame is a gate byte, the length of its payload in 4 bytes, and the payload. The gate is
//! written last, after a sync, where a closed gate stood on the disk: the area was zeroed before.
//!
//! Invariants of `Wal`: its written frames and a frame for each group that waits fit the area, no
//! group is empty, marks don't fall, the memory for all that may wait is reserved, and in front of
//! the groups' bytes stands their length, so that the next frame needs no copy. `HasLog` says that
//! a disk has the log: its area is synced, and reads as the written frames and zeros behind.
#![tactic(auto)]

mod areas;
mod force;
mod groups;
mod heads;
pub mod laws;
mod log;
mod payloads;
mod reading;
mod threads;

pub use areas::zero_area;
pub use log::Wal;
pub use payloads::Payloads;
pub use reading::{ReadStop, read_area};
