//! What a step of a session that searches comes to.

ghost use Rattle.std.specs.Prelude.{ℕ, Option, None, IfOk, OnErr};
ghost use Rattle.hb_activity.specs.Deciding.{deed_of, given_pages, given_sight};
ghost use Rattle.hb_search.specs.Searching.{GathersNow, MaySearch, SearchRow, StaysGathering};

use crate::walking::search;
use hb_activity::{Activity, Latched, Next};
use hb_space::NoMemory;
use std::alloc::Global;

/// What the step of a session comes to that has a search in hand.
///
/// What the search has found and what remains of its box move from `state` to the answer: at a leaf of
/// records what is found there joins them, and nothing that was there before is copied.
///
/// # Errors
///
/// Memory was refused. It is wanted only at a leaf of records.
pub fn next(alloc: Global, state: Activity, latched: Latched<'_>) -> Result<Next, NoMemory>
    requires asked { MaySearch state latched.page.now }
    ensures row { IfOk result (λ next. (free : Option (ℕ × ℕ)) → SearchRow state
        (given_sight latched.entry.meta.now (given_pages state latched.entry.id latched.entry.page.now None) free)
        latched.entry.id latched.entry.page.now (deed_of state next)) }
    ensures kept { IfOk result (λ next. StaysGathering next.then) }
    ensures memory { OnErr result (GathersNow state latched.entry.page.now) }
{
    match state {
        Activity::SessionWalk {
            line,
            rest,
            found,
            ..
        } => search(alloc, line, rest, found, latched),
        _ => unreachable!(),
    }
}
