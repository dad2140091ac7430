//! What is found at a child leaf of a page: postings that are owed to the page, and pages that may become one.
ghost use Rattle.std.specs.Prelude.{◌≡◌, ◌+◌, ◌<◌, ◌↔◌, ◌++◌, ◌∷◌, [], ℕ, All, IsTrue, OnErr, OnOk, length};
ghost use Rattle.hb_activity.specs.declared.jobs.JobKind.TheVariants.{Merge};
ghost use Rattle.hb_space.specs.Boxes.{Area, Meets, Within};
ghost use Rattle.hb_frag.specs.Leaves.{siblings_of};
ghost use Rattle.hb_frag.specs.Rules.{capacity_of};
ghost use Rattle.hb_ops.specs.Merging.{FitsMerge, MayMerge};
ghost use Rattle.hb_terms.specs.declared.plans.PostPlan.TheVariants.{SplitFirst};
ghost use Rattle.hb_tidy.specs.Owed.{AddsPostings, HasAdded, IsAtCorner};
ghost use Rattle.hb_tidy.specs.Placing.{HasGiven, HasPlacedChild, IsChildPair, MayPlanMerge, OwesAt, StandsBelow};

use crate::TidyStop;
use hb_activity::{Job, JobKind};
use hb_frag::LivePage;
use hb_layout::Meta;
use hb_space::{Area, NoMemory, Point};
use hb_terms::{MergePlan, PostPlan, merge_plan, post_plan};
use std::alloc::Global;

/// A page in use, with its number.
#[derive(Drop)]
pub(crate) struct Numbered {
    pub(crate) id: u32,
    pub(crate) page: LivePage,
}

/// A child leaf of a page in use: the page that it names, its box, and what the file says of itself.
#[derive(Clone, Copy)]
pub(crate) struct ChildLeaf<'a> {
    pub(crate) meta: &'a Meta,
    pub(crate) parent: &'a LivePage,
    pub(crate) child: &'a LivePage,
    pub(crate) area: &'a Area,
}

/// Whether a page is one level below another one, and has the box within its own.
pub(crate) fn stands_below(parent: &LivePage, area: &Area, child: &LivePage) -> bool
    requires { length area.now.lo ≡ length child.now.area.lo }
    ensures { IsTrue result ↔ ((child.now.level + 1 ≡ parent.now.level) × Within area.now child.now.area) }
{
    u16::from(child.level) + 1 == u16::from(parent.level) && area.within(&child.area)
}

/// Adds a job for each posting that the child owes to its parent at the leaf: for each of these pages, to which it gave a part of
/// its box.
///
/// # Errors
///
/// `Full` where no page is free and the parent has no room for one of them.
pub(crate) fn owe_postings(
    alloc: Global,
    leaf: &ChildLeaf<'_>,
    given: &[(u32, Area)],
    jobs: &mut Vec<Job>,
) -> Result<(), TidyStop>
    requires stands { (name : ℕ) × StandsBelow leaf.now.meta.now leaf.now.parent.now name leaf.now.area.now leaf.now.child.now }
    requires given { given.now ≡ siblings_of leaf.now.child.now }
    ensures { AddsPostings result leaf.now.meta.now leaf.now.parent.now leaf.now.child.now leaf.now.area.now (All (λ sibling. ¬ (Meets leaf.now.area.now sibling.1)) given.now) jobs.old.items jobs.new.items }
{
    for part in given {
        owe_given(alloc, leaf, &part.1, jobs)?;
    }
    Ok(())
}

/// Adds a job for the posting of a page to which the child gave this box, where it is owed at the leaf.
fn owe_given(
    alloc: Global,
    leaf: &ChildLeaf<'_>,
    given: &Area,
    jobs: &mut Vec<Job>,
) -> Result<(), TidyStop>
    requires { HasGiven leaf.now.meta.now leaf.now.parent.now leaf.now.area.now leaf.now.child.now given.now }
    ensures { AddsPostings result leaf.now.meta.now leaf.now.parent.now leaf.now.child.now leaf.now.area.now (¬ (Meets leaf.now.area.now given.now)) jobs.old.items jobs.new.items }
{
    match leaf.area.common(given) {
        Some(common) => owe_posting(alloc, leaf, common.lo(), jobs),
        None => Ok(()),
    }
}

/// Adds a job for the posting that is owed at the point.
fn owe_posting(
    alloc: Global,
    leaf: &ChildLeaf<'_>,
    point: &Point,
    jobs: &mut Vec<Job>,
) -> Result<(), TidyStop>
    requires { OwesAt leaf.now.meta.now leaf.now.parent.now leaf.now.area.now leaf.now.child.now point.now }
    ensures { AddsPostings result leaf.now.meta.now leaf.now.parent.now leaf.now.child.now leaf.now.area.now ⊥ jobs.old.items jobs.new.items }
{
    let ChildLeaf {
        meta,
        parent,
        child,
        ..
    } = *leaf;
    if meta.live == meta.pages && is_split(&post_plan(alloc, parent, child, point, meta.icap)?) {
        return Err(TidyStop::Full);
    }
    let job = Job {
        kind: JobKind::Post,
        level: parent.level,
        point: point.copy(),
    };
    add_job(jobs, job)?;
    Ok(())
}

/// Whether the plan is that the parent is split first.
fn is_split(plan: &PostPlan) -> bool
    ensures { IsTrue result ↔ (plan.now ≡ SplitFirst) }
{
    match plan {
        PostPlan::SplitFirst => true,
        PostPlan::Nothing | PostPlan::Post { .. } => false,
    }
}

/// Adds the job of this kind at the lower corner of a child leaf of this box. Below it something is to be done.
pub(crate) fn owe_job(
    meta: &Meta,
    kind: JobKind,
    parent: &LivePage,
    area: &Area,
    jobs: &mut Vec<Job>,
) -> Result<(), NoMemory>
    requires { (name : ℕ) × HasPlacedChild meta.now parent.now name area.now }
    ensures added { OnOk result (HasAdded meta.now.k (IsAtCorner kind parent.now area.now) jobs.old.items jobs.new.items) }
    ensures none { OnOk result (jobs.new.items ≡ [] → ⊥) }
{
    let job = Job {
        kind,
        level: parent.level,
        point: area.lo().copy(),
    };
    add_job(jobs, job)
}

/// Adds a job to the list.
fn add_job(jobs: &mut Vec<Job>, job: Job) -> Result<(), NoMemory>
    ensures added { OnOk result (jobs.new.items ≡ jobs.old.items ++ job ∷ []) }
    ensures same { OnErr result (jobs.new.items ≡ jobs.old.items) }
{
    Ok(jobs.push(job)?)
}

/// Adds a job where two children of a parent, the second of which has a box of the first, may become one page.
pub(crate) fn owe_merge(
    meta: &Meta,
    parent: &Numbered,
    keep: &Numbered,
    area: &Area,
    going: &Numbered,
    jobs: &mut Vec<Job>,
) -> Result<(), NoMemory>
    requires { IsChildPair meta.now parent.now.page keep.now.id area.now keep.now.page going.now.id going.now.page }
    ensures added { OnOk result (HasAdded meta.now.k
        (λ job. IsAtCorner Merge parent.now.page area.now job × FitsMerge meta.now parent.now.id keep.now.id going.now.id parent.now.page keep.now.page going.now.page) jobs.old.items jobs.new.items) }
    ensures none { OnOk result (jobs.new.items ≡ [] → (jobs.old.items ≡ [])
        × (¬ (FitsMerge meta.now parent.now.id keep.now.id going.now.id parent.now.page keep.now.page going.now.page))) }
{
    if may_merge(meta, parent, keep, going) {
        owe_job(meta, JobKind::Merge, &parent.page, area, jobs)
    } else {
        Ok(())
    }
}

/// Whether two children of a parent may become one page.
fn may_merge(meta: &Meta, parent: &Numbered, keep: &Numbered, going: &Numbered) -> bool
    requires { (area : Area) × IsChildPair meta.now parent.now.page keep.now.id area keep.now.page going.now.id going.now.page }
    ensures { IsTrue result ↔ FitsMerge meta.now parent.now.id keep.now.id going.now.id parent.now.page keep.now.page going.now.page }
{
    may_be_three(meta, parent, keep, going) && plans_merge(meta, parent, keep, going)
}

/// Whether these are three pages of a file that has some in use, the last two of them of one level.
fn may_be_three(meta: &Meta, parent: &Numbered, keep: &Numbered, going: &Numbered) -> bool
    ensures { IsTrue result ↔ ((0 < meta.now.live) × ((parent.now.id ≡ keep.now.id) → ⊥) × ((parent.now.id ≡ going.now.id) → ⊥) × ((keep.now.id ≡ going.now.id) → ⊥) × (going.now.page.level ≡ keep.now.page.level)) }
{
    meta.live > 0 && are_three(parent.id, keep.id, going.id) && going.page.level == keep.page.level
}

/// Whether no two of the numbers are the same.
fn are_three(parent: u32, keep: u32, gone: u32) -> bool
    ensures { IsTrue result ↔ (((parent ≡ keep) → ⊥) × ((parent ≡ gone) → ⊥) × ((keep ≡ gone) → ⊥)) }
{
    parent != keep && parent != gone && keep != gone
}

/// Whether the plan for the two is that they become one.
fn plans_merge(meta: &Meta, parent: &Numbered, keep: &Numbered, going: &Numbered) -> bool
    requires { MayPlanMerge meta.now parent.now.page keep.now.page going.now.page }
    ensures { IsTrue result ↔ MayMerge parent.now.page keep.now.page going.now.id going.now.page (capacity_of keep.now.page.level meta.now.dcap meta.now.icap) }
{
    let cap = if keep.page.level == 0 {
        meta.dcap
    } else {
        meta.icap
    };
    let plan = merge_plan(&parent.page, &keep.page, going.id, &going.page, cap);
    plan == MergePlan::Merge
}
