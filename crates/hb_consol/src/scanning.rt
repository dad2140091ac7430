//! The search for a pair among the leaves of a page.

ghost use Rattle.std.specs.Prelude.{◌≡◌, ◌<◌, ◌^◌, [], ◌∷◌, length};
ghost use Rattle.hb_frag.specs.Leaves.{leaves};
ghost use Rattle.hb_activity.specs.Deciding.{deed_of};
ghost use Rattle.hb_activity.specs.declared.activities.Activity.{Activity as OneActivity};
ghost use Rattle.hb_consol.specs.ConsolidatorRows.{names_child, pair_from, scans, tries};
ghost use Rattle.hb_consol.specs.Doing.{IsScanned, counts_behind, found_behind};

use crate::children::child_behind;
use hb_activity::{Activity, Job, Next};
use hb_frag::{Frag, Leaf, LivePage, Node};

/// What a scan of leaves found.
#[derive(Clone, Copy, Debug, PartialEq, Eq)]
pub enum Scanned {
    /// A sibling leaf to a page that the parent names, and its place among the leaves.
    Pair { gone: u32, place: u32 },
    /// No such leaf, among so many.
    Passed(u32),
}

/// The first pair of a page, `from` places on or later, is tried. Where there is none, the child behind the
/// page is scanned, and after the last one the job ends.
pub(crate) fn tries(
    job: Job,
    parent: u32,
    keep: u32,
    above: &LivePage,
    kept: &LivePage,
    from: u64,
) -> Next
    requires { length (leaves kept.now.frag) < 2 ^ 32 }
    ensures { (state : OneActivity) → deed_of state result ≡ tries job parent above.now keep (pair_from above.now kept.now from) }
{
    match pair_in(above, &kept.frag, from) {
        Scanned::Pair { gone, place } => Next::moves(Activity::ConsolidatorTry {
            job,
            parent,
            keep,
            gone,
            leaf: place,
        }),
        Scanned::Passed(_) => scans(job, parent, child_behind(above, keep)),
    }
}

/// The child is scanned. Where there is none, the job ends.
pub(crate) fn scans(job: Job, parent: u32, child: Option<u32>) -> Next
    ensures { (state : OneActivity) → deed_of state result ≡ scans job parent child }
{
    match child {
        None => Next::moves(Activity::ConsolidatorIdle),
        Some(child) => Next::moves(Activity::ConsolidatorScan { job, parent, child }),
    }
}

// The first pair among the leaves of a part, `from` places on or later.
fn pair_in(above: &LivePage, part: &Frag, from: u64) -> Scanned
    requires { length (leaves part.now) < 2 ^ 32 }
    ensures { IsScanned above.now from (leaves part.now) result }
{
    match &part.node {
        Node::Tip(leaf) => pair_at(above, leaf, from),
        Node::Cut { left, right, .. } => match pair_in(above, left, from) {
            Scanned::Pair { gone, place } => Scanned::Pair { gone, place },
            Scanned::Passed(count) => {
                let rest = pair_in(above, right, from.saturating_sub(u64::from(count)));
                behind(count, rest)
            }
        },
    }
}

// What was found behind so many leaves.
fn behind(count: u32, scanned: Scanned) -> Scanned
    requires { counts_behind count scanned < 2 ^ 32 }
    ensures { result ≡ found_behind count scanned }
{
    match scanned {
        Scanned::Pair { gone, place } => Scanned::Pair {
            gone,
            place: count + place,
        },
        Scanned::Passed(more) => Scanned::Passed(count + more),
    }
}

// Whether the leaf makes a pair.
fn pair_at(above: &LivePage, leaf: &Leaf, from: u64) -> Scanned
    ensures { IsScanned above.now from (leaf.now ∷ []) result }
{
    match leaf {
        Leaf::Sibling(page) if from == 0 && is_child(above, *page) => Scanned::Pair {
            gone: *page,
            place: 0,
        },
        Leaf::Sibling(_) | Leaf::Records(_) | Leaf::Child(_) => Scanned::Passed(1),
    }
}

// Whether a child leaf of the parent names the page.
fn is_child(above: &LivePage, page: u32) -> bool
    ensures { result ≡ names_child above.now page }
{
    above.names(page)
}
