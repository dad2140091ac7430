//! A pass over the whole file: what is found waits as a job for the workers.
ghost use Rattle.std.specs.Prelude.{◌≡◌, ◌≢◌, ◌<◌, ◌≤◌, ◌↔◌, [], All, IfSome, IsTrue, Ok, Some};
ghost use Rattle.hb_activity.specs.declared.jobs.JobKind.TheVariants.{Post};
ghost use Rattle.hb_layout.specs.declared.limits.TheConstants.{HEIGHT_MAX};
ghost use Rattle.hb_ops.specs.Files.{live_page};
ghost use Rattle.hb_ops.specs.Settled.{HasLoneRoot};
ghost use Rattle.hb_ops.specs.Sound.{FitsFile};
ghost use Rattle.hb_core.specs.CoreSeen.{core_seen, core_disk};
ghost use Rattle.hb_steps.specs.KeptFits.{JobFits};
ghost use Rattle.hb_tidy.specs.Finding.{HasGrown, HasPage, IsTidy, IsTidyAt};
ghost use Rattle.hb_tidy.specs.Going.{MayTidy, MayTidyWhere};
ghost use Rattle.hb_tidy.specs.Looking.{LooksOver, NothingOf};
ghost use Rattle.hb_tidy.specs.Owed.{IsJobOwed};

use crate::TidyStop;
use crate::below::look_at_all;
use crate::finding::Numbered;
use crate::listing::{Names, leaves_naming};
use crate::looking::named_page;
use hb_activity::{Job, JobKind};
use hb_core::Core;
use hb_disk::Device;
use hb_frag::LivePage;
use hb_layout::Meta;
use hb_layout::limits::HEIGHT_MAX;
use hb_space::Area;
use std::alloc::Global;

/// Looks at the root and at each page of the file, and lets a job wait for each thing that is found.
pub(crate) fn pass<D: Device>(alloc: Global, core: &mut Core<D>) -> Result<(), TidyStop>
    requires { MayTidy (D.model (core_disk core.old)) (core_seen core.old) }
    ensures { LooksOver NothingOf result (λ v s. (core_seen core.new).jobs ≡ [] → IsTidy s)
        (D.model (core_disk core.old)) (core_seen core.old) (D.model (core_disk core.new)) (core_seen core.new) }
{
    visit_root(alloc, core)?;
    let high = core.meta().high;
    for place in 0..high {
        let seen = named_page(core, place + 1)?;
        visit(alloc, core, place + 1, seen)?;
    }
    Ok(())
}

/// Looks at the root, and lets the job for a growth wait, where one is owed.
fn visit_root<D: Device>(alloc: Global, core: &mut Core<D>) -> Result<(), TidyStop>
    requires { MayTidy (D.model (core_disk core.old)) (core_seen core.old) }
    ensures { LooksOver NothingOf result (λ v s. (core_seen core.new).jobs ≡ [] → HasGrown s)
        (D.model (core_disk core.old)) (core_seen core.old) (D.model (core_disk core.new)) (core_seen core.new) }
{
    if is_highest(core.meta()) {
        return Ok(());
    }
    let root = core.meta().root;
    match named_page(core, root)? {
        Some(page) => visit_top(alloc, core, &page),
        None => {
            let job = growth_job(core);
            wait_for(core, job);
            Ok(())
        }
    }
}

/// Whether the file has its greatest height.
fn is_highest(meta: &Meta) -> bool
    ensures { IsTrue result ↔ (HEIGHT_MAX ≤ meta.now.height) }
{
    HEIGHT_MAX <= meta.height
}

/// Looks into the root of a file that may grow, and lets the job for a growth wait, where it has a sibling leaf.
fn visit_top<D: Device>(alloc: Global, core: &mut Core<D>, page: &LivePage) -> Result<(), TidyStop>
    requires { MayTidyWhere (λ meta. FitsFile meta page.now × (meta.height < HEIGHT_MAX))
        (D.model (core_disk core.old)) (core_seen core.old) }
    ensures { LooksOver (λ s. live_page s s.meta.root ≡ Some page.now) result (λ v s. (core_seen core.new).jobs ≡ [] → HasLoneRoot s)
        (D.model (core_disk core.old)) (core_seen core.old) (D.model (core_disk core.new)) (core_seen core.new) }
{
    let given = leaves_naming(alloc, page, Names::Siblings)?;
    if given.is_empty() {
        return Ok(());
    }
    if core.meta().live == core.meta().pages {
        return Err(TidyStop::Full);
    }
    let job = growth_job(core);
    wait_for(core, job);
    Ok(())
}

/// The job for a growth.
fn growth_job<D: Device>(core: &Core<D>) -> Job
    requires { MayTidy (D.model (core_disk core.now)) (core_seen core.now) }
    ensures kind { result.kind ≡ Post }
    ensures level { result.level ≡ (core_seen core.now).store.meta.height }
    ensures fits { JobFits (core_seen core.now).store.meta.k result }
{
    let whole = Area::whole(core.meta().k);
    Job {
        kind: JobKind::Post,
        level: core.meta().height,
        point: whole.lo().copy(),
    }
}

/// Looks below what was seen of the page of a number, and lets a job wait for each thing that is found.
fn visit<D: Device>(
    alloc: Global,
    core: &mut Core<D>,
    id: u32,
    seen: Option<LivePage>,
) -> Result<(), TidyStop>
    requires { MayTidyWhere (λ meta. IfSome seen (FitsFile meta))
        (D.model (core_disk core.old)) (core_seen core.old) }
    ensures { LooksOver (λ s. live_page s id ≡ seen) result (λ v s. (core_seen core.new).jobs ≡ [] → IsTidyAt s id)
        (D.model (core_disk core.old)) (core_seen core.old) (D.model (core_disk core.new)) (core_seen core.new) }
{
    match seen {
        Some(page) => visit_page(alloc, core, &Numbered { id, page }),
        None => Ok(()),
    }
}

/// Looks at the pages below a page, and lets a job wait for each thing that is found there.
fn visit_page<D: Device>(
    alloc: Global,
    core: &mut Core<D>,
    parent: &Numbered,
) -> Result<(), TidyStop>
    requires { MayTidyWhere (λ meta. FitsFile meta parent.now.page)
        (D.model (core_disk core.old)) (core_seen core.old) }
    ensures { LooksOver (HasPage parent.now.id parent.now.page) result (λ v s. (core_seen core.new).jobs ≡ [] → IsTidyAt s parent.now.id)
        (D.model (core_disk core.old)) (core_seen core.old) (D.model (core_disk core.new)) (core_seen core.new) }
{
    let mut jobs = Vec::new(alloc);
    let children = leaves_naming(alloc, &parent.page, Names::Children)?;
    look_at_all(alloc, core, parent, children.as_slice(), &mut jobs)?;
    wait_for_all(core, jobs.as_slice());
    Ok(())
}

/// Lets each of these jobs wait, as far as there is room: what finds none is found again by the next pass.
fn wait_for_all<D: Device>(core: &mut Core<D>, jobs: &[Job])
    requires { MayTidyWhere (λ meta. All (JobFits meta.k) jobs.now)
        (D.model (core_disk core.old)) (core_seen core.old) }
    ensures looks { LooksOver (λ s. All (IsJobOwed s) jobs.now) (Ok result) (λ v. NothingOf)
        (D.model (core_disk core.old)) (core_seen core.old) (D.model (core_disk core.new)) (core_seen core.new) }
    ensures some { (core_seen core.new).jobs ≡ [] → jobs.now ≡ [] }
{
    for job in jobs {
        wait_for(core, job.copy());
    }
}

/// Lets the job wait, where there is room.
fn wait_for<D: Device>(core: &mut Core<D>, job: Job)
    requires { MayTidyWhere (λ meta. JobFits meta.k job)
        (D.model (core_disk core.old)) (core_seen core.old) }
    ensures looks { LooksOver (λ s. IsJobOwed s job) (Ok result) (λ v. NothingOf)
        (D.model (core_disk core.old)) (core_seen core.old) (D.model (core_disk core.new)) (core_seen core.new) }
    ensures some { (core_seen core.new).jobs ≢ [] }
{
    let _waits = core.add_job(job);
}
