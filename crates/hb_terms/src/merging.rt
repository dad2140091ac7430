ghost use Rattle.std.specs.Prelude.{◌≡◌, ◌<◌, ◌^◌, ℕ, length};
ghost use Rattle.hb_frag.specs.Leaves.{weight_of, WellCut};
ghost use Rattle.hb_terms.specs.Merging.{IsMergePlan};

use hb_frag::{LivePage, most_merged};

/// What a merge does to two sibling pages of a parent.
#[derive(Clone, Copy, Debug, PartialEq, Eq)]
pub enum MergePlan {
    /// The page to keep gave no part of its box to the page to go.
    NotContained,
    /// Part of the box of the page to go lies with another parent.
    ManyParents,
    /// Together they weigh more than `most_merged` of the capacity, three quarters of it.
    TooHeavy,
    /// The page to keep takes over what the other one has.
    Merge,
}

/// The plan for a parent, the page to keep, and the page to go with its number, where a page of
/// their level may weigh at most `cap`. That the parent names both pages isn't tested.
#[tactic(auto, using(hb_frag::proofs::Facts::CarvedKinds::some_weight))]
pub fn merge_plan(
    parent: &LivePage,
    keep: &LivePage,
    gone_id: u32,
    gone: &LivePage,
    cap: u16,
) -> MergePlan
    requires parent_cut { WellCut parent.now }
    requires keep_cut { WellCut keep.now }
    requires attributes { length gone.now.area.lo ≡ length parent.now.area.lo }
    requires keep_light { weight_of keep.now.frag < 2 ^ 32 }
    requires gone_light { weight_of gone.now.frag < 2 ^ 32 }
    ensures { IsMergePlan parent.now keep.now gone_id gone.now cap result }
{
    if keep.sibling_area(gone_id).is_none() {
        return MergePlan::NotContained;
    }
    if !parent.directly(&gone.area) {
        return MergePlan::ManyParents;
    }
    let merged = u64::from(keep.weight()) - 1 + u64::from(gone.weight());
    if merged > most_merged(cap) {
        return MergePlan::TooHeavy;
    }
    MergePlan::Merge
}
