ghost use Rattle.std.specs.Prelude.{◌≡◌, ◌-◌, ℕ, List, IfSome, IsSome, Some};
ghost use Rattle.std.specs.Option.{option_and_then, option_copied, option_map};
ghost use Rattle.hb_activity.specs.Seen.{child_by, named_by, view_at};
ghost use Rattle.hb_activity.specs.Wanting.{wanted_page, onward_at, child_of};
ghost use Rattle.hb_ops.specs.Files.{if_live};
ghost use Rattle.hb_view.specs.Views.{IsLive};

use crate::Activity;
use crate::walks::session_mode;
use hb_latch::Mode;
use hb_layout::Meta;
use hb_space::Point;
use hb_view::{LeafView, PageView};

/// The latch that a step wants.
#[derive(Clone, Copy, Debug, PartialEq, Eq)]
pub struct Wanted {
    pub page: u32,
    /// The level of the page.
    pub level: u8,
    pub mode: Mode,
}

impl Activity {
    ghost use Rattle.hb_activity.specs.Wanting.{wanted_of, LooksIntoPage, CanLook, looked_at, walk_next};
    ghost use Rattle.hb_activity.specs.Walks.{walk_point, walk_held};

    /// The latch that the next step wants, if it wants one. Where the actor holds the page
    /// already, it is to be promoted.
    ///
    /// The page is the one that the step looks into: the one that a walk holds; for
    /// `ConsolidatorTry` the page `keep`; for all others that name a parent, the parent.
    pub fn wanted(&self, meta: &Meta, page: Option<PageView<'_>>) -> Option<Wanted>
        requires live { IfSome page IsLive }
        requires given { LooksIntoPage self.now → IsSome page }
        requires readable { CanLook self.now (if_live page) }
        ensures { result ≡ wanted_of self.now meta.now (if_live page.entry) }
    {
        self.ahead(meta, page).wanted
    }

    /// The point at whose leaf the next step looks, in the page that it looks into. `None` where
    /// it looks at no leaf.
    pub fn looked_at(&self) -> Option<&Point>
        ensures { option_copied result ≡ looked_at self.now }
    {
        match self {
            Activity::PosterChild { job, .. } | Activity::PosterAgain { job, .. } => {
                Some(&job.point)
            }
            _ => match self.walk_held() {
                Some(_) => self.walk_point(),
                None => None,
            },
        }
    }

    // The latch that the step wants, where it looks at a leaf of which this stands there.
    pub(crate) fn wanted_at(
        &self,
        meta: &Meta,
        page: Option<PageView<'_>>,
        leaf: Option<LeafView>,
    ) -> Option<Wanted>
        requires live { IfSome page IsLive }
        requires seen { leaf ≡ view_at (if_live page) (looked_at self.now) }
        ensures { result ≡ wanted_of self.now meta.now (if_live page.entry) }
    {
        match self {
            Activity::SessionWalk { line, .. } => {
                let (page, level) = self.next_page(meta, page, leaf)?;
                Some(latch_wanted(page, level, session_mode(&line.command, level)))
            }
            Activity::PosterWalk { job, .. } | Activity::ConsolidatorWalk { job, .. } => {
                let (page, level) = self.next_page(meta, page, leaf)?;
                Some(latch_wanted(page, level, job.mode_at(level)))
            }
            Activity::PosterGrow { .. } => {
                let level = meta.height.saturating_sub(1);
                Some(latch_wanted(meta.root, level, Mode::Exclusive))
            }
            Activity::PosterChild { .. } | Activity::PosterAgain { .. } => {
                let (child, level) = child_at(page, leaf)?;
                Some(latch_wanted(child, level, Mode::Shared))
            }
            Activity::PosterPromote { parent, .. } | Activity::ConsolidatorPromote { parent, .. } =>
                { on_level(page, *parent, Mode::Exclusive) }
            Activity::ConsolidatorScan { child, .. } => below_level(page, *child, Mode::Shared),
            Activity::ConsolidatorTry { gone, .. } => on_level(page, *gone, Mode::Shared),
            Activity::ConsolidatorKeep { keep, .. } => below_level(page, *keep, Mode::Exclusive),
            Activity::ConsolidatorDecide { gone, .. } => below_level(page, *gone, Mode::Exclusive),
            Activity::SessionIdle
            | Activity::SessionSplit { .. }
            | Activity::SessionPut { .. }
            | Activity::SessionAwait { .. }
            | Activity::PosterIdle
            | Activity::ConsolidatorIdle
            | Activity::Flusher => None,
        }
    }

    // The next page of a walk, and its level.
    fn next_page(
        &self,
        meta: &Meta,
        page: Option<PageView<'_>>,
        leaf: Option<LeafView>,
    ) -> Option<(u32, u8)>
        requires live { IfSome page IsLive }
        requires seen { IsSome (walk_held self.now) → leaf ≡ view_at (if_live page) (walk_point self.now) }
        ensures { result ≡ walk_next (walk_point self.now) (walk_held self.now) meta.now (if_live page.entry) }
    {
        let _ = self.walk_point()?;
        match self.walk_held() {
            Some(_) => next_at(page, leaf),
            None => Some((meta.root, meta.height.saturating_sub(1))),
        }
    }
}

// The latch in that mode.
fn latch_wanted(page: u32, level: u8, mode: Mode) -> Wanted
    ensures { result ≡ wanted_page page level mode }
{
    Wanted { page, level, mode }
}

// The latch on a page of the level of the one that is looked into, where there is one.
fn on_level(page: Option<PageView<'_>>, id: u32, mode: Mode) -> Option<Wanted>
    requires { IfSome page IsLive }
    ensures { result ≡ option_map (λ page. wanted_page id page.level mode) (if_live page.entry) }
{
    let level = page?.level();
    Some(latch_wanted(id, level, mode))
}

// And on one a level below it.
fn below_level(page: Option<PageView<'_>>, id: u32, mode: Mode) -> Option<Wanted>
    requires { IfSome page IsLive }
    ensures { result ≡ option_map (λ page. wanted_page id (page.level - 1) mode) (if_live page.entry) }
{
    let level = page?.level().saturating_sub(1);
    Some(latch_wanted(id, level, mode))
}

// The page that the leaf names, and its level: a child is one level down, a sibling on the same one.
fn next_at(page: Option<PageView<'_>>, leaf: Option<LeafView>) -> Option<(u32, u8)>
    requires { IfSome page IsLive }
    ensures { (p : List ℕ) → leaf ≡ view_at (if_live page.entry) (Some p) →
        result ≡ option_and_then (λ page. onward_at page p) (if_live page.entry) }
{
    named_by(leaf?, page?.level())
}

// The child that the leaf names, and its level.
fn child_at(page: Option<PageView<'_>>, leaf: Option<LeafView>) -> Option<(u32, u8)>
    requires { IfSome page IsLive }
    ensures { (p : List ℕ) → leaf ≡ view_at (if_live page.entry) (Some p) →
        result ≡ option_and_then (λ page. child_of page p) (if_live page.entry) }
{
    child_by(leaf?, page?.level())
}

// What the leaf names in a page of the level.
fn named_by(leaf: LeafView, level: u8) -> Option<(u32, u8)>
    ensures { result ≡ named_by level leaf }
{
    match leaf {
        LeafView::Records => None,
        LeafView::Child(child) => Some((child, level.saturating_sub(1))),
        LeafView::Sibling(sibling) => Some((sibling, level)),
    }
}

// The child that it names there.
fn child_by(leaf: LeafView, level: u8) -> Option<(u32, u8)>
    ensures { result ≡ child_by level leaf }
{
    match leaf {
        LeafView::Child(child) => Some((child, level.saturating_sub(1))),
        LeafView::Records | LeafView::Sibling(_) => None,
    }
}
