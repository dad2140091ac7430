//! How a run of a core ends.

use crate::state::Core;
use hb_disk::Device;
use hb_set::Answered;
use hb_store::StopWhy;

/// How a run ended.
#[derive(Debug, Drop)]
pub enum End {
    /// The whole output was written.
    Finished,
    /// Memory was refused before the first step. No step was taken and nothing was written.
    NoMemory,
    /// The sink failed. The steps went on.
    SinkFault,
    /// A reply is `read fault`.
    ReadFault,
    /// The core is stopped.
    Stopped(StopWhy),
}

/// What a run leaves.
#[derive(Drop)]
pub struct Ran<D: Device, K> {
    pub core: Core<D>,
    pub sink: K,
    /// The answered lines, in the order of answering.
    pub answered: Vec<Answered>,
    pub end: End,
}
