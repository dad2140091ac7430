//! What follows of plans from their definition alone. Each law is the contract of a function that
//! does nothing: a caller learns it by the call.

ghost use Rattle.std.specs.Prelude.{◌≡◌, ℕ, List};
ghost use Rattle.hb_space.specs.Boxes.{Area, IsArea};
ghost use Rattle.hb_frag.specs.declared.pages.LivePage.{LivePage};
ghost use Rattle.hb_frag.specs.declared.paths.Side.{Side};
ghost use Rattle.hb_frag.specs.Leaves.{WellCut};
ghost use Rattle.hb_terms.specs.declared.plans.PostPlan.{PostPlan as OnePlan};
ghost use Rattle.hb_terms.specs.declared.merging.MergePlan.{MergePlan as OneMerge};
ghost use Rattle.hb_terms.specs.Merging.{IsMergePlan};
ghost use Rattle.hb_terms.specs.Plans.{IsPlan};
ghost use Rattle.hb_ops.specs.Owing.{MayPost};

use crate::PostPlan;

/// A parent, its child and a point have one plan at most.
pub fn plans_exclude_each_other()
    ensures { (parent child : LivePage) (p : List ℕ) (icap : ℕ) (plan other : OnePlan) →
        IsPlan parent child p icap plan → IsPlan parent child p icap other → plan ≡ other }
{}

/// What a plan posts may be posted: it carves a child leaf that names another page, over a box that
/// meets the one that the child gave to the page to be named, and the parent has room for it.
pub fn a_planned_posting_may_be_made()
    ensures { (parent child : LivePage) (p : List ℕ) (icap : ℕ) (at : List Side) (inner : ℕ) (area : Area) →
        IsArea parent.area → WellCut parent → IsArea child.area → WellCut child →
        IsPlan parent child p icap (PostPlan.Post at inner area) → MayPost parent child icap at inner area }
{}

/// A parent, two of its children and a capacity have one plan of a merge at most.
#[tactic(auto, using(crate::proofs::Facts::OneMerge::one_merge))]
pub fn plans_of_a_merge_exclude_each_other()
    ensures { (parent keep : LivePage) (gone_id : ℕ) (gone : LivePage) (cap : ℕ) (plan other : OneMerge) →
        IsMergePlan parent keep gone_id gone cap plan → IsMergePlan parent keep gone_id gone cap other → plan ≡ other }
{}
