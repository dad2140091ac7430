//! What is found below a page: at each of its child leaves.
ghost use Rattle.std.specs.Prelude.{◌≡◌, ◌+◌, ℕ, All, IfSome, None, Some, length};
ghost use Rattle.hb_space.specs.Boxes.{IsArea, Within};
ghost use Rattle.hb_frag.specs.Leaves.{siblings_of};
ghost use Rattle.hb_ops.specs.Settled.{IsMergeable};
ghost use Rattle.hb_ops.specs.Sound.{FitsFile};
ghost use Rattle.hb_core.specs.CoreSeen.{core_seen, core_disk};
ghost use Rattle.hb_tidy.specs.Finding.{BothLive, HasPage, IsTidyBelow};
ghost use Rattle.hb_tidy.specs.Going.{MayTidyWhere};
ghost use Rattle.hb_tidy.specs.Looking.{LooksForJobs};
ghost use Rattle.hb_tidy.specs.Placing.{HasPlacedChild, StandsBelow};

use crate::TidyStop;
use crate::finding::{ChildLeaf, Numbered, owe_job, owe_merge, owe_postings, stands_below};
use crate::listing::{Names, leaves_naming};
use crate::looking::named_page;
use hb_activity::{Job, JobKind};
use hb_core::Core;
use hb_disk::Device;
use hb_frag::LivePage;
use hb_space::Area;
use std::alloc::Global;

/// Looks at the page that each of these child leaves of a parent names, and adds the jobs for what is found there.
pub(crate) fn look_at_all<D: Device>(
    alloc: Global,
    core: &mut Core<D>,
    parent: &Numbered,
    children: &[(u32, Area)],
    jobs: &mut Vec<Job>,
) -> Result<(), TidyStop>
    requires { MayTidyWhere (λ meta. All (λ leaf. HasPlacedChild meta parent.now.page leaf.0 leaf.1) children.now)
        (D.model (core_disk core.old)) (core_seen core.old) }
    ensures { LooksForJobs (HasPage parent.now.id parent.now.page) result
        (λ s. All (IsTidyBelow s parent.now.id) children.now) jobs.old.items jobs.new.items
        (D.model (core_disk core.old)) (core_seen core.old) (D.model (core_disk core.new)) (core_seen core.new) }
{
    for leaf in children {
        look_below(alloc, core, parent, leaf.0, &leaf.1, jobs)?;
    }
    Ok(())
}

/// Looks at the page that a child leaf of this box names. One that doesn't stand there, as may be over a disk that tells nothing, is a
/// job for the poster, who comes upon it.
fn look_below<D: Device>(
    alloc: Global,
    core: &mut Core<D>,
    parent: &Numbered,
    name: u32,
    area: &Area,
    jobs: &mut Vec<Job>,
) -> Result<(), TidyStop>
    requires { MayTidyWhere (λ meta. HasPlacedChild meta parent.now.page name area.now)
        (D.model (core_disk core.old)) (core_seen core.old) }
    ensures { LooksForJobs (HasPage parent.now.id parent.now.page) result
        (λ s. IsTidyBelow s parent.now.id (name, area.now)) jobs.old.items jobs.new.items
        (D.model (core_disk core.old)) (core_seen core.old) (D.model (core_disk core.new)) (core_seen core.new) }
{
    let seen = named_page(core, name)?;
    match standing(&parent.page, area, seen) {
        Some(page) => look_into(
            alloc,
            core,
            parent,
            &Numbered { id: name, page },
            area,
            jobs,
        ),
        None => {
            owe_job(core.meta(), JobKind::Post, &parent.page, area, jobs)?;
            Ok(())
        }
    }
}

/// The page, where it stands below the parent's leaf of this box.
fn standing(parent: &LivePage, area: &Area, seen: Option<LivePage>) -> Option<LivePage>
    requires { IfSome seen (λ page. length area.now.lo ≡ length page.area.lo) }
    ensures some { IfSome result (λ page. (seen ≡ Some page) × (page.level + 1 ≡ parent.now.level) × Within area.now page.area) }
    ensures none { result ≡ None → IfSome seen (λ page. (page.level + 1 ≡ parent.now.level) × Within area.now page.area → ⊥) }
{
    match seen {
        Some(page) => {
            if stands_below(parent, area, &page) {
                Some(page)
            } else {
                None
            }
        }
        None => None,
    }
}

/// Looks into a child of a parent, for what it owes to the parent, and for pages that it may take over.
fn look_into<D: Device>(
    alloc: Global,
    core: &mut Core<D>,
    parent: &Numbered,
    child: &Numbered,
    area: &Area,
    jobs: &mut Vec<Job>,
) -> Result<(), TidyStop>
    requires { MayTidyWhere (λ meta. FitsFile meta child.now.page × (IsArea child.now.page.area → StandsBelow meta parent.now.page child.now.id area.now child.now.page))
        (D.model (core_disk core.old)) (core_seen core.old) }
    ensures { LooksForJobs (BothLive parent.now.id parent.now.page child.now.id child.now.page) result
        (λ s. IsTidyBelow s parent.now.id (child.now.id, area.now)) jobs.old.items jobs.new.items
        (D.model (core_disk core.old)) (core_seen core.old) (D.model (core_disk core.new)) (core_seen core.new) }
{
    let given = leaves_naming(alloc, &child.page, Names::Siblings)?;
    let leaf = ChildLeaf {
        meta: core.meta(),
        parent: &parent.page,
        child: &child.page,
        area,
    };
    owe_postings(alloc, &leaf, given.as_slice(), jobs)?;
    find_merges(core, parent, child, area, given.as_slice(), jobs)
}

/// Adds a job where the page to keep may take over one of these pages, to which it gave parts of its box.
fn find_merges<D: Device>(
    core: &mut Core<D>,
    parent: &Numbered,
    keep: &Numbered,
    area: &Area,
    given: &[(u32, Area)],
    jobs: &mut Vec<Job>,
) -> Result<(), TidyStop>
    requires { MayTidyWhere (λ meta. StandsBelow meta parent.now.page keep.now.id area.now keep.now.page × (given.now ≡ siblings_of keep.now.page))
        (D.model (core_disk core.old)) (core_seen core.old) }
    ensures { LooksForJobs (BothLive parent.now.id parent.now.page keep.now.id keep.now.page) result
        (λ s. (gone : ℕ) → ¬ (IsMergeable s parent.now.id keep.now.id gone)) jobs.old.items jobs.new.items
        (D.model (core_disk core.old)) (core_seen core.old) (D.model (core_disk core.new)) (core_seen core.new) }
{
    for leaf in given {
        try_pair(core, parent, keep, area, leaf.0, jobs)?;
    }
    Ok(())
}

/// Adds a job where the page to keep may take over this one.
fn try_pair<D: Device>(
    core: &mut Core<D>,
    parent: &Numbered,
    keep: &Numbered,
    area: &Area,
    gone: u32,
    jobs: &mut Vec<Job>,
) -> Result<(), TidyStop>
    requires { MayTidyWhere (λ meta. StandsBelow meta parent.now.page keep.now.id area.now keep.now.page)
        (D.model (core_disk core.old)) (core_seen core.old) }
    ensures { LooksForJobs (BothLive parent.now.id parent.now.page keep.now.id keep.now.page) result
        (λ s. ¬ (IsMergeable s parent.now.id keep.now.id gone)) jobs.old.items jobs.new.items
        (D.model (core_disk core.old)) (core_seen core.old) (D.model (core_disk core.new)) (core_seen core.new) }
{
    if parent.page.names(gone) {
        match named_page(core, gone)? {
            Some(page) => {
                let going = Numbered { id: gone, page };
                owe_merge(core.meta(), parent, keep, area, &going, jobs)?;
                Ok(())
            }
            None => Ok(()),
        }
    } else {
        Ok(())
    }
}
