//! Which bells a turn rings.
ghost use Rattle.std.specs.Prelude.{◌≡◌, true, Some};
ghost use Rattle.hb_run.specs.declared.turns.Pause.{Pause};
ghost use Rattle.hb_run.specs.Ringing.{bell_of, rings};
ghost use Rattle.hb_run.specs.declared.ringing.TheConstants.{ANY};

use crate::turns::{News, Pause};
use hb_activity::JobKind;
use hb_space::actors::ACTORS;

/// The places of the bells: first one for those who wait behind an actor, actor 1 at place 0. Behind these one for who waits for a job
/// to post.
pub(crate) const POSTS: usize = 19;

/// For who waits for a job to merge.
pub(crate) const MERGES: usize = 20;

/// For who waits till it is time to flush.
pub(crate) const FLUSHES: usize = 21;

/// For those who let others come first.
pub(crate) const SETTLES: usize = 22;

/// For a thread that does several actors' turns. It is rung for each turn.
pub(crate) const ANY: usize = 23;

/// How many bells there are.
pub(crate) const BELLS: usize = 24;

/// The place of the bell of what is waited for. Behind nobody there is none.
pub(crate) fn bell_of(pause: &Pause) -> Option<usize>
    ensures { result ≡ bell_of pause.now }
{
    match pause {
        Pause::Behind { place, .. } => { if *place < ACTORS { Some(*place) } else { None } }
        Pause::NoJob {
            kind: JobKind::Post,
        } => Some(POSTS),
        Pause::NoJob {
            kind: JobKind::Merge,
        } => Some(MERGES),
        Pause::NotDue => Some(FLUSHES),
        Pause::Unsettled { .. } => Some(SETTLES),
    }
}

/// Whether the bell of the place rings for the news: just where it does for who waits by it.
pub(crate) fn is_rung(news: &News, place: usize) -> bool
    ensures pauses { (pause : Pause) → bell_of pause ≡ Some place → result ≡ rings news.now pause }
    ensures any { place ≡ ANY → result ≡ true }
{
    match place {
        POSTS => news.stopped || news.posts,
        MERGES => news.stopped || news.merges,
        FLUSHES => news.stopped || news.flushes,
        SETTLES => news.stopped || news.settles,
        ANY => true,
        _ => news.stopped || (news.moved && news.place == place),
    }
}
