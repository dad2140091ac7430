ghost use Rattle.std.specs.Prelude.{ℕ, Option, Some, IfOk, OnErr};
ghost use Rattle.std.specs.Option.{option_copied};
ghost use Rattle.hb_activity.specs.Deciding.{deed_of, given_sight};
ghost use Rattle.hb_activity.specs.Sights.{Sight};
ghost use Rattle.hb_consol.specs.Asks.{AsksMemoryToMerge, IsAskedToMerge, MayAskToMerge, OnlyMovesToMerge, pages_given};
ghost use Rattle.hb_consol.specs.Doing.{HasPair};
ghost use Rattle.hb_consol.specs.MergeRows.{ConsolidatorRow};
ghost use Rattle.hb_view.specs.Views.{IsLiveAnd};

use crate::merging::{decide, take_keep, take_keep_by_view, try_pair};
use crate::pairs::Pair;
use crate::scanning::tries;
use crate::walking::{walk, walk_by_view};
use hb_activity::{Activity, Latched, Next};
use hb_frag::LivePage;
use hb_space::NoMemory;
use hb_view::PageView;
use std::alloc::Global;

/// What a step of the consolidator comes to. The page that the step latched is the page of the walk, the
/// child that is scanned, the parent that is promoted, the page to keep, or the page to go. `first` is the
/// parent where the step has one beside it, and `second` the page to keep where a pair is tried or decided.
/// No page is made, so no free number is read.
///
/// # Errors
///
/// Memory was refused. It is wanted only where two pages become one.
pub fn next(
    alloc: Global,
    state: Activity,
    latched: Latched<'_>,
    first: Option<&LivePage>,
    second: Option<&LivePage>,
) -> Result<Next, NoMemory>
    requires asked { MayAskToMerge state latched.meta.now latched.page.now (option_copied first) (option_copied second) }
    ensures row { IfOk result (λ next. (free : Option (ℕ × ℕ)) → ConsolidatorRow state
        (given_sight latched.entry.meta.now (pages_given state latched.entry.id latched.entry.page.now (option_copied first.entry) (option_copied second.entry)) free) latched.entry.id latched.entry.page.now
        (deed_of state next)) }
    ensures memory { OnErr result (AsksMemoryToMerge state latched.entry.meta.now latched.entry.page.now (option_copied first.entry) (option_copied second.entry)) }
{
    match state {
        Activity::ConsolidatorWalk { job, .. } => Ok(walk(job, latched.id, latched.page)),
        Activity::ConsolidatorScan { job, parent, child } => match first {
            Some(above) => Ok(tries(job, parent, child, above, latched.page, 0)),
            None => unreachable!(),
        },
        Activity::ConsolidatorPromote {
            job,
            parent,
            keep,
            gone,
        } => Ok(Next::moves(Activity::ConsolidatorKeep {
            job,
            parent,
            keep,
            gone,
        })),
        Activity::ConsolidatorKeep {
            job,
            parent,
            keep,
            gone,
        } => Ok(take_keep(job, parent, keep, gone, latched.page)),
        Activity::ConsolidatorTry { .. } | Activity::ConsolidatorDecide { .. } => {
            match (first, second) {
                (Some(above), Some(kept)) => next_of_pair(alloc, state, latched, above, kept),
                _ => unreachable!(),
            }
        }
        _ => unreachable!(),
    }
}

/// What the step of a consolidator comes to that walks to a parent, promotes it, or takes the page to keep, and latched the page
/// of the number `id`. The page is read from its bytes, so no memory is wanted. It is the row that `next` gives, whatever else
/// that reads.
pub fn descend(state: Activity, id: u32, view: &PageView<'_>) -> Next
    requires moves { OnlyMovesToMerge state }
    requires asked { IsAskedToMerge state view.now }
    ensures row { IsLiveAnd view.now (λ page. (s : Sight) → ConsolidatorRow state s id page (deed_of state result)) }
{
    match state {
        Activity::ConsolidatorWalk { job, .. } => walk_by_view(job, id, view),
        Activity::ConsolidatorPromote {
            job,
            parent,
            keep,
            gone,
        } => Next::moves(Activity::ConsolidatorKeep {
            job,
            parent,
            keep,
            gone,
        }),
        Activity::ConsolidatorKeep {
            job,
            parent,
            keep,
            gone,
        } => take_keep_by_view(job, parent, keep, gone, view),
        _ => unreachable!(),
    }
}

// What a try or a decision comes to, with the parent and the page to keep at hand.
fn next_of_pair(
    alloc: Global,
    state: Activity,
    latched: Latched<'_>,
    above: &LivePage,
    kept: &LivePage,
) -> Result<Next, NoMemory>
    requires pair { HasPair state }
    requires asked { MayAskToMerge state latched.meta.now latched.page.now (Some above.now) (Some kept.now) }
    ensures row { IfOk result (λ next. (free : Option (ℕ × ℕ)) → ConsolidatorRow state
        (given_sight latched.entry.meta.now (pages_given state latched.entry.id latched.entry.page.now (Some above.now) (Some kept.now)) free) latched.entry.id latched.entry.page.now
        (deed_of state next)) }
    ensures memory { OnErr result (AsksMemoryToMerge state latched.entry.meta.now latched.entry.page.now (Some above.now) (Some kept.now)) }
{
    match state {
        Activity::ConsolidatorTry {
            job,
            parent,
            keep,
            gone,
            leaf,
        } => {
            let pair = Pair {
                parent,
                keep,
                gone,
                above,
                kept,
                page: latched.page,
                meta: latched.meta,
            };
            Ok(try_pair(job, &pair, leaf))
        }
        Activity::ConsolidatorDecide {
            job,
            parent,
            keep,
            gone,
        } => {
            let pair = Pair {
                parent,
                keep,
                gone,
                above,
                kept,
                page: latched.page,
                meta: latched.meta,
            };
            decide(alloc, job, &pair)
        }
        _ => unreachable!(),
    }
}
