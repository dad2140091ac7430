//! What a turn came to, what its actor does then, and for whom it is news.
ghost use Rattle.std.specs.Prelude.{◌≡◌};
ghost use Rattle.hb_run.specs.Turning.{turn_of};

use hb_activity::JobKind;
use hb_core::Outcome;
use hb_space::Actor;

/// What a turn came to.
#[derive(Drop)]
pub(crate) enum Turn {
    /// The core is stopped.
    Stopped,
    /// The actor has no line and no job left.
    Idle,
    /// This actor is in the way.
    Blocked { by: Actor },
    /// Anything else.
    More,
}

/// What the turn of this outcome came to.
pub(crate) fn turn_of(outcome: &Outcome) -> Turn
    ensures { result ≡ turn_of outcome.now }
{
    match outcome {
        Outcome::Stopped(_) => Turn::Stopped,
        Outcome::Idle => Turn::Idle,
        Outcome::Blocked { by } => Turn::Blocked { by: *by },
        _ => Turn::More,
    }
}

/// What an actor waits for.
#[derive(Clone, Copy, Debug)]
pub(crate) enum Pause {
    /// Till the actor of this place, which has changed something so often, does so again. Actor 1 has place 0.
    Behind { place: usize, moves: u64 },
    /// Till a job of the kind is left, or all is done.
    NoJob { kind: JobKind },
    /// Till it is time to flush, or each line has an answer.
    NotDue,
    /// Till this place of the order is settled, the round of turns has ended, or no session comes first.
    Unsettled { place: usize, round: u64 },
}

/// What an actor does next.
#[derive(Clone, Copy, Debug)]
pub(crate) enum Next {
    /// It takes a further turn.
    Goes,
    /// It waits before that.
    Waits(Pause),
    /// It has ended.
    Ends,
}

/// What a turn brought. It is no `Drop`, so that whoever has it rings for it.
pub(crate) struct News {
    /// The place of who took the turn, and whether it changed something.
    pub(crate) place: usize,
    pub(crate) moved: bool,
    /// The core is stopped.
    pub(crate) stopped: bool,
    /// A job to post is left, or all is done; and so of merging.
    pub(crate) posts: bool,
    pub(crate) merges: bool,
    /// It is time to flush, or each line has an answer.
    pub(crate) flushes: bool,
    /// Places of the order were settled, a round has ended, or no session comes.
    pub(crate) settles: bool,
}
