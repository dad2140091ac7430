//! Pages in memory: 128 frames in the order of use.
//!
//! The one contract: each call says which list of frames it leaves, in the order of use, the least
//! recently used first (`specs/Pools.antt`). A page that is dirty or pinned stays; where all frames
//! have pages, the first one in the order that may go makes room for a new one.
//!
//! Invariants: no two frames have one page, there are at most 128, and each is pinned at most 255
//! times. All memory is taken when the pool is made, so no other call takes any.
#![tactic(auto)]

pub mod laws;
mod order;
mod pools;
mod slots;
mod threads;

pub use pools::{FRAMES, Pool};
