//! What a step aims at. The page that it looks into is gone down once.
ghost use Rattle.std.specs.Prelude.{◌≡◌, IfSome};
ghost use Rattle.std.specs.Option.{option_and_then};
ghost use Rattle.hb_activity.specs.Seen.{seen_at};
ghost use Rattle.hb_activity.specs.Wanting.{looked_at};
ghost use Rattle.hb_layout.specs.Limits.{IsLayout};
ghost use Rattle.hb_ops.specs.Files.{if_live};
ghost use Rattle.hb_view.specs.Views.{IsLive};
ghost use Rattle.hb_steps.specs.Asking.{asked_box, box_by_view, looked_live, looked_page, whole_box};
ghost use Rattle.hb_steps.specs.Looking.{MayLook};
ghost use Rattle.hb_core.specs.Aiming.{Aims, AimsAt};
ghost use Rattle.hb_core.specs.CoreSeen.{core_seen};
ghost use Rattle.hb_core.specs.Going.{IsWorking};
ghost use Rattle.hb_core.specs.Relied.{MayAim};

use crate::leaf_boxes::box_by_leaf;
use crate::state::Core;
use hb_activity::{Activity, Ahead, Wanted};
use hb_disk::Device;
use hb_layout::Meta;
use hb_space::{Actor, Area};
use hb_steps::{AskedBox, BoxTest};
use hb_view::{LeafView, PageView};

/// What a step aims at.
#[derive(Drop)]
pub(crate) struct Aim {
    /// The latch that it wants.
    pub(crate) wanted: Option<Wanted>,
    /// The box that the wanted page is to have: of the root the whole space.
    pub(crate) asked: Option<AskedBox>,
    /// Whether it may change the file.
    pub(crate) may_commit: bool,
}

impl<D: Device> Core<D> {
    /// What the actor's next step aims at.
    pub(crate) fn aim(&self, actor: Actor) -> Aim
        requires { MayAim (core_seen self.now) actor }
        ensures { Aims (core_seen self.now) actor result }
    {
        self.aim_of(self.activity(actor))
    }

    /// What the next step of the activity aims at.
    fn aim_of(&self, activity: &Activity) -> Aim
        requires working { IsWorking activity.now }
        requires look { MayLook (core_seen self.now).store activity.now }
        ensures { AimsAt (core_seen self.now).store activity.now result }
    {
        let Ahead {
            wanted,
            may_commit,
            leaf,
        } = activity.ahead(self.store.meta(), self.looked(activity));
        Aim {
            wanted,
            asked: self.asked_box(activity, leaf),
            may_commit,
        }
    }

    /// The page into which the next step of the activity looks.
    fn looked(&self, activity: &Activity) -> Option<PageView<'_>>
        ensures live { IfSome result IsLive }
        ensures page { if_live result ≡ looked_live (core_seen self.now).store activity.now }
    {
        self.live(looked_page(activity)?)
    }

    /// The box that the wanted page is to have, where the activity looks at this leaf.
    fn asked_box(&self, activity: &Activity, leaf: Option<(LeafView, Area)>) -> Option<AskedBox>
        requires working { IsWorking activity.now }
        requires leaf { leaf ≡ seen_at (looked_live (core_seen self.now).store activity.now) (looked_at activity.now) }
        ensures { result ≡ asked_box activity.now (core_seen self.now).store }
    {
        match activity {
            Activity::PosterChild { .. } | Activity::PosterAgain { .. } => box_of(leaf),
            Activity::PosterPromote { .. } | Activity::ConsolidatorPromote { .. } => None,
            Activity::ConsolidatorScan { parent, child, .. } => self.child_box(*parent, *child),
            Activity::ConsolidatorTry { keep, leaf, .. } => self.place_box(*keep, *leaf),
            Activity::ConsolidatorKeep { parent, keep, .. } => self.child_box(*parent, *keep),
            Activity::ConsolidatorDecide { keep, gone, .. } => self.sibling_box(*keep, *gone),
            _ => match activity.walk_held() {
                Some(_) => box_of(leaf),
                None => Some(whole_box(self.store.meta())),
            },
        }
    }
}

/// The page into which the next step of the activity looks, to tell which latch it wants.
fn looked_page(activity: &Activity) -> Option<u32>
    ensures { result ≡ looked_page activity.now }
{
    match activity {
        Activity::PosterChild { parent, .. }
        | Activity::PosterPromote { parent, .. }
        | Activity::PosterAgain { parent, .. }
        | Activity::ConsolidatorScan { parent, .. }
        | Activity::ConsolidatorPromote { parent, .. }
        | Activity::ConsolidatorKeep { parent, .. }
        | Activity::ConsolidatorDecide { parent, .. } => Some(*parent),
        Activity::ConsolidatorTry { keep, .. } => Some(*keep),
        _ => activity.walk_held(),
    }
}

/// The box of the root: the whole space.
fn whole_box(meta: &Meta) -> AskedBox
    requires { IsLayout meta.now }
    ensures { result ≡ whole_box meta.now.k }
{
    AskedBox {
        area: Area::whole(meta.k),
        test: BoxTest::Exactly,
    }
}

/// The box of the page that the leaf names, where there is a leaf.
fn box_of(leaf: Option<(LeafView, Area)>) -> Option<AskedBox>
    ensures { result ≡ option_and_then (λ leaf. box_by_view leaf.0 leaf.1) leaf }
{
    let (leaf, area) = leaf?;
    box_by_leaf(leaf, area)
}
