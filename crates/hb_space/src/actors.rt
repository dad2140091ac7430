//! Who takes steps: the sessions, and three workers.
ghost use Rattle.std.specs.Prelude.{◌≡◌};
ghost use Rattle.hb_space.specs.declared.actors.TheConstants.{SESSIONS, POSTER, CONSOLIDATOR, FLUSHER, ACTORS};

/// Who takes a step: a session from 1 to `SESSIONS`, or one of the workers behind them.
pub type Actor = u8;

/// How many sessions there are: the first actors.
pub const SESSIONS: Actor = 16;

/// The actor that posts.
pub const POSTER: Actor = 17;

/// The actor that consolidates.
pub const CONSOLIDATOR: Actor = 18;

/// The actor that flushes, which is the last one.
pub const FLUSHER: Actor = 19;

/// How many actors there are.
pub const ACTORS: usize = 19;

/// The numbers of this version, which command texts name. The workers stand behind the sessions, the flusher as the last.
pub fn actors_of_this_version()
    ensures sessions { SESSIONS ≡ 16 }
    ensures poster { POSTER ≡ 17 }
    ensures consolidator { CONSOLIDATOR ≡ 18 }
    ensures flusher { FLUSHER ≡ 19 }
    ensures all { ACTORS ≡ FLUSHER }
{}
