ghost use Rattle.std.specs.Prelude.{◌≡◌, ℕ, [], ◌∷◌, IfSome, IsSome, MatchOption};
ghost use Rattle.hb_activity.specs.Holding.{latch_on, walk_latch};
ghost use Rattle.hb_latch.specs.declared.modes.Mode.{Mode as HeldMode};
ghost use Rattle.hb_ops.specs.Files.{if_live};
ghost use Rattle.hb_view.specs.Views.{IsLive};

use crate::Activity;
use crate::walks::session_mode;
use arrayvec::ArrayVec;
use hb_latch::Mode;
use hb_view::PageView;

/// A latch on a page.
#[derive(Clone, Copy, Debug, Default, PartialEq, Eq)]
pub struct Latch {
    pub page: u32,
    pub mode: Mode,
}

impl Activity {
    ghost use Rattle.hb_activity.specs.Walks.{walk_held};
    ghost use Rattle.hb_activity.specs.Holding.{held_of};

    /// The latches that the activity holds between two steps, two at most. A walk that holds a
    /// page is given that page; its level says in which mode it is held.
    pub fn held(&self, page: Option<PageView<'_>>) -> ArrayVec<Latch, 2>
        requires live { IfSome page IsLive }
        requires given { IsSome (walk_held self.now) → IsSome page }
        ensures { result.items ≡ held_of self.now (if_live page.entry) }
    {
        match self {
            Activity::SessionWalk { line, held, .. } => match at_level(*held, page) {
                Some((held, level)) => one(held, session_mode(&line.command, level)),
                None => ArrayVec::new(),
            },
            Activity::PosterWalk { job, held } | Activity::ConsolidatorWalk { job, held } => {
                match at_level(*held, page) {
                    Some((held, level)) => one(held, job.mode_at(level)),
                    None => ArrayVec::new(),
                }
            }
            Activity::SessionSplit { held, .. } => one(*held, Mode::Exclusive),
            Activity::SessionPut { source, fresh, .. } => {
                two(*source, Mode::Exclusive, *fresh, Mode::Exclusive)
            }
            Activity::PosterChild { parent, .. }
            | Activity::PosterPromote { parent, .. }
            | Activity::ConsolidatorScan { parent, .. }
            | Activity::ConsolidatorPromote { parent, .. } => one(*parent, Mode::Update),
            Activity::PosterAgain { parent, .. } | Activity::ConsolidatorKeep { parent, .. } => {
                one(*parent, Mode::Exclusive)
            }
            Activity::ConsolidatorTry { parent, keep, .. } => {
                two(*parent, Mode::Update, *keep, Mode::Shared)
            }
            Activity::ConsolidatorDecide { parent, keep, .. } => {
                two(*parent, Mode::Exclusive, *keep, Mode::Exclusive)
            }
            Activity::SessionIdle
            | Activity::SessionAwait { .. }
            | Activity::PosterIdle
            | Activity::PosterGrow { .. }
            | Activity::ConsolidatorIdle
            | Activity::Flusher => ArrayVec::new(),
        }
    }
}

// The page that a walk holds, and its level.
fn at_level(held: Option<u32>, page: Option<PageView<'_>>) -> Option<(u32, u8)>
    requires { IfSome page IsLive }
    ensures { MatchOption result
        ((mode : ℕ → HeldMode) → walk_latch held (if_live page.entry) mode ≡ [])
        (λ r. (mode : ℕ → HeldMode) → walk_latch held (if_live page.entry) mode ≡ latch_on r.0 (mode r.1) ∷ []) }
{
    let held = held?;
    let level = page?.level();
    Some((held, level))
}

// One latch.
fn one(page: u32, mode: Mode) -> ArrayVec<Latch, 2>
    ensures { result.items ≡ record { page = page; mode = mode } ∷ [] }
{
    let mut latches = ArrayVec::new();
    latches.push(Latch { page, mode });
    latches
}

// Two latches.
fn two(page: u32, mode: Mode, other: u32, other_mode: Mode) -> ArrayVec<Latch, 2>
    ensures { result.items ≡ record { page = page; mode = mode } ∷ record { page = other; mode = other_mode } ∷ [] }
{
    let mut latches = one(page, mode);
    latches.push(Latch {
        page: other,
        mode: other_mode,
    });
    latches
}
