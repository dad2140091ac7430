use crate::statuses::Status;
use hb_set::Answered;

/// What a run of the program leaves.
#[derive(Drop)]
pub struct Finished<K, D> {
    pub status: Status,
    /// The sink that it was given.
    pub sink: K,
    /// The disk that it was given.
    pub disk: D,
    /// The answered lines, in the order of answering; none where no command was done.
    pub answered: Vec<Answered>,
    /// The numbers of the lines by their effect.
    pub order: Vec<u32>,
}
