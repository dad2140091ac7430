//! The walk to the parent. The page on its way is read as a page, or as its bytes.

ghost use Rattle.std.specs.Prelude.{◌≡◌, ◌<◌, ◌+◌, [], ◌∷◌, ℕ, None, Option, Some};
ghost use Rattle.hb_activity.specs.Deciding.{NextIs, deed_of};
ghost use Rattle.hb_activity.specs.Passing.{WalksAbove};
ghost use Rattle.hb_activity.specs.Sights.{Sight};
ghost use Rattle.hb_activity.specs.declared.deciding.Fate.TheVariants.{GoesOn};
ghost use Rattle.hb_poster.specs.Asks.{IsAskedOf};
ghost use Rattle.hb_poster.specs.PosterRows.{PosterRow};
ghost use Rattle.hb_view.specs.Views.{IsLiveAnd};

use hb_activity::{Activity, Job, JobKind, Latched, Next};
use hb_frag::Leaf;
use hb_view::{LeafView, PageView};

/// What a walk comes to at a page: it is over at a page of the job's level whose leaf at the point is a
/// child leaf. Else it passes on to the page that the leaf names, and a sibling leaf shows that the
/// parent owes a posting.
#[tactic(auto, using(hb_activity::proofs::Facts::OneLeaf::no_records))]
pub(crate) fn walk(job: Job, latched: Latched<'_>) -> Next
    requires { WalksAbove job latched.page.now }
    ensures { (held : Option ℕ) (s : Sight) → PosterRow (Activity.PosterWalk job held) s latched.entry.id latched.entry.page.now
        (deed_of (Activity.PosterWalk job held) result) }
{
    let Latched { id, page, .. } = latched;
    match page.leaf_at(&job.point) {
        (Leaf::Child(_), _) => at_child(job, id, page.level),
        (Leaf::Sibling(_), _) => at_sibling(job, id, page.level),
        (Leaf::Records(_), _) => unreachable!(),
    }
}

/// The same at a page that is read from its bytes.
pub(crate) fn walk_by_view(job: Job, id: u32, view: &PageView<'_>) -> Next
    requires { IsAskedOf (Activity.PosterWalk job None) view.now }
    ensures { IsLiveAnd view.now (λ page. (held : Option ℕ) (s : Sight) → PosterRow (Activity.PosterWalk job held) s id page
        (deed_of (Activity.PosterWalk job held) result)) }
{
    let level = view.level();
    match view.leaf_at(&job.point) {
        (LeafView::Child(_), _) => at_child(job, id, level),
        (LeafView::Sibling(_), _) => at_sibling(job, id, level),
        (LeafView::Records, _) => unreachable!(),
    }
}

// At a page of the level whose leaf at the point is a child leaf, the walk is over where that is the job's level.
fn at_child(job: Job, id: u32, level: u8) -> Next
    ensures over { level ≡ job.level → NextIs result (Activity.PosterChild job id) None [] GoesOn }
    ensures onward { ¬ (level ≡ job.level) → NextIs result (Activity.PosterWalk job (Some id)) None [] GoesOn }
{
    if level == job.level {
        Next::moves(Activity::PosterChild { job, parent: id })
    } else {
        Next::moves(onward(job, id))
    }
}

// At one whose leaf there is a sibling leaf, the walk goes on, and the parent owes a posting.
fn at_sibling(job: Job, id: u32, level: u8) -> Next
    requires { level < 255 }
    ensures { NextIs result (Activity.PosterWalk job (Some id)) None
        (record { kind = JobKind.Post; level = level + 1; point = job.point } ∷ []) GoesOn }
{
    let owed = Job::owed(level, job.point.copy());
    Next::adds(onward(job, id), owed)
}

// The walk goes on, and holds this page.
fn onward(job: Job, id: u32) -> Activity
    ensures { result ≡ Activity.PosterWalk job (Some id) }
{
    Activity::PosterWalk {
        job,
        held: Some(id),
    }
}
