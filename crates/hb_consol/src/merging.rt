//! A pair is tried, and merged.

ghost use Rattle.std.specs.Prelude.{◌≡◌, ◌⊎◌, ◌<◌, ◌+◌, ◌≤◌, ◌^◌, length, IfOk, OnErr, Option, ℕ, List};
ghost use Rattle.hb_frag.specs.Leaves.{WellCut, leaves};
ghost use Rattle.hb_activity.specs.Deciding.{deed_of, given_sight};
ghost use Rattle.hb_activity.specs.declared.activities.Activity.{Activity as OneActivity};
ghost use Rattle.hb_consol.specs.Asks.{MergesTwo};
ghost use Rattle.hb_consol.specs.ConsolidatorRows.{after_try};
ghost use Rattle.hb_consol.specs.Doing.{PlansMerge};
ghost use Rattle.hb_consol.specs.MergeRows.{Merges, DoesMerge, after_keep, takes_keep};
ghost use Rattle.hb_frag.specs.declared.pages.LivePage.{LivePage as OnePage};
ghost use Rattle.hb_terms.specs.declared.merging.MergePlan.{MergePlan as OnePlan};
ghost use Rattle.hb_view.specs.Views.{IsLiveAnd};

use crate::pairs::Pair;
use crate::scanning::tries;
use hb_activity::{Activity, Job, JobKind, Next};
use hb_frag::{LivePage, capacity_of};
use hb_layout::Meta;
use hb_ops::{Op, parent_after};
use hb_space::{Area, NoMemory};
use hb_terms::{MergePlan, merge_plan};
use hb_view::PageView;
use std::alloc::Global;

/// What a try comes to: where the two may become one, the parent is to be promoted. Else the sibling
/// leaves behind this one are looked at.
pub(crate) fn try_pair(job: Job, pair: &Pair<'_>, leaf: u32) -> Next
    ensures { (plan : OnePlan) × PlansMerge pair.now.meta.now pair.now.gone pair.now.above.now pair.now.kept.now pair.now.page.now plan
        × ((state : OneActivity) → deed_of state result ≡ after_try job pair.now.parent pair.now.keep pair.now.gone leaf pair.now.above.now pair.now.kept.now plan) }
{
    match plan_for(pair) {
        MergePlan::Merge => Next::moves(Activity::ConsolidatorPromote {
            job,
            parent: pair.parent,
            keep: pair.keep,
            gone: pair.gone,
        }),
        MergePlan::NotContained | MergePlan::ManyParents | MergePlan::TooHeavy => tries(
            job,
            pair.parent,
            pair.keep,
            pair.above,
            pair.kept,
            u64::from(leaf) + 1,
        ),
    }
}

/// The page to keep is taken. Where it gave nothing to the page to go any more, the job is dropped.
pub(crate) fn take_keep(job: Job, parent: u32, keep: u32, gone: u32, page: &LivePage) -> Next
    requires { WellCut page.now }
    ensures { (state : OneActivity) → deed_of state result ≡ takes_keep job parent keep gone page.now }
{
    after_keep(job, parent, keep, gone, page.sibling_area(gone))
}

/// The same of a page to keep that is read from its bytes.
pub(crate) fn take_keep_by_view(
    job: Job,
    parent: u32,
    keep: u32,
    gone: u32,
    view: &PageView<'_>,
) -> Next
    requires { IsLiveAnd view.now WellCut }
    ensures { IsLiveAnd view.now (λ page. (state : OneActivity) → deed_of state result ≡ takes_keep job parent keep gone page) }
{
    after_keep(job, parent, keep, gone, view.sibling_area(gone))
}

// The page to keep gave this box to the page to go, or nothing.
fn after_keep(job: Job, parent: u32, keep: u32, gone: u32, gave: Option<Area>) -> Next
    ensures { (state : OneActivity) → deed_of state result ≡ after_keep job parent keep gone gave }
{
    match gave {
        None => Next::moves(Activity::ConsolidatorIdle),
        Some(_) => Next::moves(Activity::ConsolidatorDecide {
            job,
            parent,
            keep,
            gone,
        }),
    }
}

/// What the decision comes to, with all three pages alone: where the two may still become one they do,
/// and the job waits again. Else it is dropped.
pub(crate) fn decide(alloc: Global, job: Job, pair: &Pair<'_>) -> Result<Next, NoMemory>
    requires { job.level < 255 }
    ensures row { IfOk result (λ next. (plan : OnePlan) × PlansMerge pair.now.meta.now pair.now.gone pair.now.above.now pair.now.kept.now pair.now.page.now plan
        × ((state : OneActivity) (pages : List (ℕ × OnePage)) (free : Option (ℕ × ℕ)) → DoesMerge (given_sight pair.now.meta.now pages free) job pair.now.parent pair.now.keep pair.now.gone pair.now.above.now plan (deed_of state next))) }
    ensures memory { OnErr result (MergesTwo pair.now.meta.now pair.now.gone pair.now.above.now pair.now.kept.now pair.now.page.now) }
{
    match plan_for(pair) {
        MergePlan::Merge => {
            if pair.meta.live == 0 {
                return Ok(Next::moves(Activity::ConsolidatorIdle));
            }
            merge(alloc, job, pair)
        }
        MergePlan::NotContained | MergePlan::ManyParents | MergePlan::TooHeavy => {
            Ok(Next::moves(Activity::ConsolidatorIdle))
        }
    }
}

// The two become one, and the job waits again. A parent that is thin then is to be merged itself.
fn merge(alloc: Global, job: Job, pair: &Pair<'_>) -> Result<Next, NoMemory>
    requires live { 0 < pair.now.meta.now.live }
    requires low { job.level < 255 }
    ensures { IfOk result (λ next. (state : OneActivity) (pages : List (ℕ × OnePage)) (free : Option (ℕ × ℕ)) → Merges (given_sight pair.now.meta.now pages free) job pair.now.parent pair.now.keep pair.now.gone pair.now.above.now (deed_of state next)) }
{
    let after = parent_after(alloc, pair.above, pair.keep, pair.gone)?;
    let thin = after.is_thin(pair.meta.icap);
    let owed = Job {
        kind: JobKind::Merge,
        level: job.level + 1,
        point: job.point.copy(),
    };
    let op = Op::Merge {
        parent: pair.parent,
        keep: pair.keep,
        gone: pair.gone,
    };
    let mut next = Next::does(Activity::ConsolidatorIdle, op, job);
    if thin {
        next.jobs.push(owed);
    }
    Ok(next)
}

// The plan for the pair.
fn plan_for(pair: &Pair<'_>) -> MergePlan
    ensures { PlansMerge pair.now.meta.now pair.now.gone pair.now.above.now pair.now.kept.now pair.now.page.now result }
{
    let most = capacity_of(pair.page.level, pair.meta.dcap, pair.meta.icap);
    merge_plan(pair.above, pair.kept, pair.gone, pair.page, most)
}
