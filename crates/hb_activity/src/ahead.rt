//! What a step finds ahead of it, by one look into the page that it looks into.
ghost use Rattle.std.specs.Prelude.{◌≡◌, IfSome, IsSome, Some};
ghost use Rattle.std.specs.Option.{option_map};
ghost use Rattle.hb_activity.specs.Ahead.{FindsAhead};
ghost use Rattle.hb_activity.specs.Seen.{seen_at, view_at};
ghost use Rattle.hb_activity.specs.Wanting.{CanLook, HasLeafAt, LooksIntoPage, looked_at, may_commit, wanted_of};
ghost use Rattle.hb_layout.specs.declared.meta.Meta.{Meta as Says};
ghost use Rattle.hb_ops.specs.Files.{if_live};
ghost use Rattle.hb_view.specs.Views.{IsLive, IsLiveAnd};

use crate::Activity;
use crate::walks::may_change;
use crate::wanting::Wanted;
use hb_layout::Meta;
use hb_space::{Area, Point};
use hb_view::{LeafView, PageView};

/// What a step finds ahead of it.
#[derive(Debug, Drop)]
pub struct Ahead {
    /// The latch that it wants, if it wants one. Where the actor holds the page already, it is to be promoted.
    pub wanted: Option<Wanted>,
    /// Whether it may apply an operation to the file.
    pub may_commit: bool,
    /// What stands in the page at the point at whose leaf it looks, and the leaf's box. `None` where it looks at no leaf.
    pub leaf: Option<(LeafView, Area)>,
}

impl Activity {
    /// What the next step finds ahead. It goes down the page once.
    ///
    /// The page is the one that the step looks into: the one that a walk holds; for
    /// `ConsolidatorTry` the page `keep`; for all others that name a parent, the parent.
    pub fn ahead(&self, meta: &Meta, page: Option<PageView<'_>>) -> Ahead
        requires live { IfSome page IsLive }
        requires given { LooksIntoPage self.now → IsSome page }
        requires readable { CanLook self.now (if_live page) }
        ensures { FindsAhead self.now meta.now (if_live page.entry) result }
    {
        let leaf = self.leaf_seen(&page);
        let wanted = self.wanted_at(meta, page, view_of(&leaf));
        Ahead {
            wanted,
            may_commit: self.may_commit_at(wanted),
            leaf,
        }
    }

    // The leaf at which the step looks.
    fn leaf_seen(&self, page: &Option<PageView<'_>>) -> Option<(LeafView, Area)>
        requires live { IfSome page.now IsLive }
        requires readable { CanLook self.now (if_live page.now) }
        ensures { result ≡ seen_at (if_live page.now) (looked_at self.now) }
    {
        match (page, self.looked_at()) {
            (Some(page), Some(point)) => Some(leaf_at(page, point)),
            _ => None,
        }
    }

    // Whether the step may apply an operation to the file, where it wants this latch.
    fn may_commit_at(&self, wanted: Option<Wanted>) -> bool
        ensures { (meta : Says) (page : _) → wanted ≡ wanted_of self.now meta page → result ≡ may_commit self.now meta page }
    {
        match self {
            Activity::SessionWalk { line, .. } => {
                may_change(&line.command) && wanted.is_some_and(|wanted| wanted.level == 0)
            }
            Activity::SessionSplit { .. }
            | Activity::SessionPut { .. }
            | Activity::PosterGrow { .. }
            | Activity::PosterAgain { .. }
            | Activity::ConsolidatorDecide { .. } => true,
            _ => false,
        }
    }
}

// The page's leaf at the point, and its box.
fn leaf_at(page: &PageView<'_>, point: &Point) -> (LeafView, Area)
    requires { IsLiveAnd page.now (λ live. HasLeafAt live point.now) }
    ensures { Some result ≡ seen_at (if_live (Some page.now)) (Some point.now) }
{
    page.leaf_at(point)
}

// The leaf without its box.
fn view_of(leaf: &Option<(LeafView, Area)>) -> Option<LeafView>
    ensures { result ≡ option_map (λ leaf. leaf.0) leaf.now }
{
    match leaf {
        Some((view, _)) => Some(*view),
        None => None,
    }
}
