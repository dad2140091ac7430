//! A session's walk goes on from a page that it latched, read from the page's bytes.

ghost use Rattle.std.specs.Prelude.{◌≡◌, ◌+◌, ◌<◌, List, IfErr, IfOk, IsSome, MatchOption, Some};
ghost use Rattle.hb_activity.specs.Deciding.{deed_of};
ghost use Rattle.hb_activity.specs.Passing.{PassesOn};
ghost use Rattle.hb_activity.specs.Seen.{IsAhead};
ghost use Rattle.hb_activity.specs.Wanting.{HasLeafAt};
ghost use Rattle.hb_frag.specs.Leaves.{leaf_at};
ghost use Rattle.hb_frag.specs.declared.leaves.Leaf.TheVariants as leaves;
ghost use Rattle.hb_space.specs.Boxes.{Area as Extent};
ghost use Rattle.hb_space.specs.declared.records.Record.{Record as Entry};
ghost use Rattle.hb_view.specs.Views.{IsLiveAnd};

use crate::{Activity, Job, JobKind, Next};
use hb_view::{LeafView, PageView};

impl Activity {
    ghost use Rattle.hb_activity.specs.Walks.{IsSessionWalk, walk_holding, walk_point};

    /// What the step of a session's walk comes to that latched this page, of the number `id`, where the page's leaf at the
    /// walk's point names a page: the walk holds this page from then on, and a sibling leaf shows that the parent owes a
    /// posting.
    ///
    /// # Errors
    ///
    /// The leaf has records: there the walk is over. The activity comes back as it was.
    pub fn pass_on(self, id: u32, page: &PageView<'_>) -> Result<Next, Activity>
        requires walk { IsSessionWalk self }
        requires inside { IsLiveAnd page.now (λ live. MatchOption (walk_point self) ⊥ (HasLeafAt live)) }
        requires level { IsLiveAnd page.now (λ live. live.level < 255) }
        ensures passes { IfOk result (λ next. IsLiveAnd page.now (λ live. MatchOption (walk_point self) ⊥
            (λ p. PassesOn live p (walk_holding id self) (deed_of self next)))) }
        ensures same { IfErr result (λ state. state ≡ self) }
        ensures records { IfErr result (λ state. IsLiveAnd page.now (λ live. MatchOption (walk_point self) ⊥
            (λ p. (records : List Entry) × (area : Extent) × (leaf_at live p ≡ Some (record { leaf = leaves.Records records; area = area }))))) }
    {
        match self.leaf_ahead(page) {
            LeafView::Records => Err(self),
            LeafView::Child(_) => Ok(Next::moves(self.holding(id))),
            LeafView::Sibling(_) => {
                let job = self.owed(page.level());
                Ok(Next::adds(self.holding(id), job))
            }
        }
    }

    // The page's leaf at the point of the walk.
    fn leaf_ahead(&self, page: &PageView<'_>) -> LeafView
        requires { IsLiveAnd page.now (λ live. MatchOption (walk_point self.now) ⊥ (HasLeafAt live)) }
        ensures { IsAhead page.now (walk_point self.now) result }
    {
        match self.walk_point() {
            Some(point) => page.leaf_at(point).0,
            None => unreachable!(),
        }
    }

    // What the parent of a page of the level owes for a sibling leaf at the point of the walk.
    fn owed(&self, level: u8) -> Job
        requires walks { IsSome (walk_point self.now) }
        requires low { level < 255 }
        ensures { MatchOption (walk_point self.now) ⊥ (λ p. result ≡ record { kind = JobKind.Post; level = level + 1; point = p }) }
    {
        match self.walk_point() {
            Some(point) => Job::owed(level, point.copy()),
            None => unreachable!(),
        }
    }

    // The walk holds this page from now on.
    fn holding(self, id: u32) -> Activity
        ensures { result ≡ walk_holding id self }
    {
        match self {
            Activity::SessionWalk {
                line,
                rest,
                found,
                ..
            } => Activity::SessionWalk {
                line,
                held: Some(id),
                rest,
                found,
            },
            other => other,
        }
    }
}
