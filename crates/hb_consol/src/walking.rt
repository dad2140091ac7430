//! The walk to the parent. The page on its way is read as a page, or as its bytes.

ghost use Rattle.std.specs.Prelude.{◌≡◌, ◌+◌, ◌<◌, ◌≤◌, [], ◌∷◌, ℕ, All, None, Option, Some};
ghost use Rattle.hb_space.specs.Boxes.{Holds};
ghost use Rattle.hb_frag.specs.Leaves.{WellCut, leaves};
ghost use Rattle.hb_frag.specs.Rules.{BelongsAt};
ghost use Rattle.hb_activity.specs.Deciding.{NextIs, deed_of};
ghost use Rattle.hb_activity.specs.Sights.{Sight};
ghost use Rattle.hb_activity.specs.declared.deciding.Fate.TheVariants.{GoesOn};
ghost use Rattle.hb_consol.specs.Asks.{IsAskedToMerge};
ghost use Rattle.hb_consol.specs.ConsolidatorRows.{children_of, first_one, scans};
ghost use Rattle.hb_consol.specs.MergeRows.{ConsolidatorRow};
ghost use Rattle.hb_view.specs.Views.{IsLiveAnd};

use crate::children::{first_child, first_child_by_view};
use crate::scanning::scans;
use hb_activity::{Activity, Job, JobKind, Next};
use hb_frag::{Leaf, LivePage};
use hb_view::{LeafView, PageView};

/// What a walk comes to at a page: it is over at a page of the job's level whose leaf at the point is a
/// child leaf, and the first of its children is scanned. Else it passes on to the page that the leaf
/// names, and a sibling leaf shows that the parent owes a posting.
#[tactic(auto, using(hb_activity::proofs::Facts::OneLeaf::no_records))]
pub(crate) fn walk(job: Job, id: u32, page: &LivePage) -> Next
    requires well_cut { WellCut page.now }
    requires kinds { All (BelongsAt page.now.level) (leaves page.now.frag) }
    requires held { Holds page.now.area job.point }
    requires above { 1 ≤ page.now.level }
    requires low { page.now.level < 255 }
    ensures { (held : Option ℕ) (s : Sight) → ConsolidatorRow (Activity.ConsolidatorWalk job held) s id page.now
        (deed_of (Activity.ConsolidatorWalk job held) result) }
{
    match page.leaf_at(&job.point) {
        (Leaf::Child(_), _) => {
            if page.level == job.level {
                scan_first(job, id, page)
            } else {
                Next::moves(onward(job, id))
            }
        }
        (Leaf::Sibling(_), _) => at_sibling(job, id, page.level),
        (Leaf::Records(_), _) => unreachable!(),
    }
}

/// The same at a page that is read from its bytes.
pub(crate) fn walk_by_view(job: Job, id: u32, view: &PageView<'_>) -> Next
    requires { IsAskedToMerge (Activity.ConsolidatorWalk job None) view.now }
    ensures { IsLiveAnd view.now (λ page. (held : Option ℕ) (s : Sight) → ConsolidatorRow (Activity.ConsolidatorWalk job held) s id page
        (deed_of (Activity.ConsolidatorWalk job held) result)) }
{
    let level = view.level();
    match view.leaf_at(&job.point) {
        (LeafView::Child(_), _) => {
            if level == job.level {
                scans(job, id, first_child_by_view(view))
            } else {
                Next::moves(onward(job, id))
            }
        }
        (LeafView::Sibling(_), _) => at_sibling(job, id, level),
        (LeafView::Records, _) => unreachable!(),
    }
}

// At a page of the level whose leaf at the point is a sibling leaf, the walk goes on, and the parent owes a posting.
fn at_sibling(job: Job, id: u32, level: u8) -> Next
    requires { level < 255 }
    ensures { NextIs result (Activity.ConsolidatorWalk job (Some id)) None
        (record { kind = JobKind.Post; level = level + 1; point = job.point } ∷ []) GoesOn }
{
    let owed = Job::owed(level, job.point.copy());
    Next::adds(onward(job, id), owed)
}

// The first child of the parent is scanned.
fn scan_first(job: Job, id: u32, page: &LivePage) -> Next
    ensures { (held : Option ℕ) → deed_of (Activity.ConsolidatorWalk job held) result ≡ scans job id (first_one (children_of page.now)) }
{
    scans(job, id, first_child(page))
}

// The walk goes on, and holds this page.
fn onward(job: Job, id: u32) -> Activity
    ensures { result ≡ Activity.ConsolidatorWalk job (Some id) }
{
    Activity::ConsolidatorWalk {
        job,
        held: Some(id),
    }
}
