//! What a step came to.

use hb_activity::DropWhy;
use hb_set::Reply;
use hb_space::Actor;
use hb_store::StopWhy;

/// What a step came to.
#[derive(Debug, Drop)]
pub enum Outcome {
    /// Nothing more is done: a write, zero or sync failed, or a page was damaged.
    Stopped(StopWhy),
    /// The actor has no line and no job left.
    Idle,
    /// The latch that the step wants conflicts with one of this actor, the least one of which that is so.
    Blocked { by: Actor },
    /// The file wasn't ready for a change, and the groups that waited were forced instead.
    Helped,
    /// The line of this number was answered.
    Answered { line: u32, reply: Reply },
    /// A worker's job was dropped.
    Dropped(DropWhy),
    /// Anything else.
    Moved,
}
