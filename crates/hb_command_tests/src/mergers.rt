//! What steps of the consolidator come to, with ample memory, at a parent that names four children.

ghost use Rattle.std.specs.Prelude.{◌≡◌, ◌≤◌};
ghost use Rattle.hb_layout.specs.Limits.{IsLayout};
ghost use Rattle.hb_ops.specs.Sound.{FitsFile};

use crate::deciders::{cut_at, fits, is_inside, meta, records, say_op};
use crate::jobs::{job, say_jobs};
use crate::rows::expect;
use crate::texts::Text;
use hb_activity::{Activity, Job, JobKind, Latched, Next};
use hb_frag::{Frag, Leaf, LivePage};
use hb_layout::Meta;
use hb_space::Area;
use std::alloc::Global;

/// A step, what a page of records may weigh and a page above them, and what the step comes to: where the consolidator stands
/// then, the operation, and the jobs.
///
/// Page 3 names 1, 2, 1 again and 4. Page 1 gave boxes to 9, 2 and 4, and weighs 5. Page 2 has no sibling leaf, and weighs 1.
const ROWS: [(&str, u16, u16, &str); 8] = [
    ("walk", 32, 32, "scan 1;"),
    ("scan 1", 32, 32, "try 2 2;"),
    ("scan 2", 32, 32, "scan 4;"),
    ("try", 32, 32, "promote;"),
    ("try", 6, 32, "try 4 4;"),
    ("keep", 32, 32, "decide;"),
    ("decide", 6, 32, "idle;"),
    ("decide", 32, 32, "idle merge 3 1 2; M1.50 M2.50"),
];

fn tip(leaf: Leaf) -> Frag {
    Frag::tip(leaf)
}

fn parent(alloc: Global) -> Option<LivePage> {
    let last = cut_at(alloc, 80, tip(Leaf::Child(1)), tip(Leaf::Child(4)))?;
    let rest = cut_at(alloc, 70, tip(Leaf::Child(2)), last)?;
    Some(LivePage {
        level: 1,
        area: Area::whole(1),
        frag: cut_at(alloc, 40, tip(Leaf::Child(1)), rest)?,
    })
}

fn page_one(alloc: Global) -> Option<LivePage> {
    let last = cut_at(alloc, 80, records(alloc, 7, 7)?, tip(Leaf::Sibling(4)))?;
    let third = cut_at(alloc, 70, tip(Leaf::Sibling(2)), last)?;
    let second = cut_at(alloc, 40, tip(Leaf::Sibling(9)), third)?;
    Some(LivePage {
        level: 0,
        area: Area::whole(1),
        frag: cut_at(alloc, 20, records(alloc, 1, 2)?, second)?,
    })
}

fn page_two(alloc: Global) -> Option<LivePage> {
    let (_, from) = Area::whole(1).cut(0, 40);
    let (below, _) = from.cut(0, 70);
    Some(LivePage {
        level: 0,
        area: below,
        frag: records(alloc, 5, 6)?,
    })
}

// Where the consolidator stands.
fn say_then(text: &mut Text, then: &Activity) {
    match then {
        Activity::ConsolidatorScan { child, .. } => text.marked("scan ", u64::from(*child)),
        Activity::ConsolidatorTry { gone, leaf, .. } => {
            text.marked("try ", u64::from(*gone));
            text.marked(" ", u64::from(*leaf));
        }
        Activity::ConsolidatorPromote { .. } => text.say("promote"),
        Activity::ConsolidatorDecide { .. } => text.say("decide"),
        Activity::ConsolidatorIdle => text.say("idle"),
        _ => text.need(false),
    }
}

fn say_next(text: &mut Text, next: &Next) {
    say_then(text, &next.then);
    if let Some(op) = &next.op {
        text.say(" ");
        say_op(text, op);
    }
    text.say(";");
    say_jobs(text, next.jobs.as_slice());
}

fn says(alloc: Global, next: &Next, want: &str) -> bool {
    let mut text = Text::new(alloc);
    say_next(&mut text, next);
    text.is(want)
}

fn walk(alloc: Global, above: Latched<'_>) -> Option<Next> {
    let job = job(JobKind::Merge, 1, 50);
    if above.page.level < 1 || !is_inside(above.page, &job.point) {
        return None;
    }
    let state = Activity::ConsolidatorWalk { job, held: None };
    hb_consol::next(alloc, state, above, None, None).ok()
}

fn scan(alloc: Global, child: Latched<'_>, above: &LivePage) -> Option<Next> {
    let state = Activity::ConsolidatorScan {
        job: job(JobKind::Merge, 1, 50),
        parent: 3,
        child: child.id,
    };
    hb_consol::next(alloc, state, child, Some(above), None).ok()
}

fn keep(alloc: Global, kept: Latched<'_>) -> Option<Next> {
    let state = Activity::ConsolidatorKeep {
        job: job(JobKind::Merge, 1, 50),
        parent: 3,
        keep: 1,
        gone: 2,
    };
    hb_consol::next(alloc, state, kept, None, None).ok()
}

fn try_pair(alloc: Global, page: Latched<'_>, above: &LivePage, kept: &LivePage) -> Option<Next>
    requires above { FitsFile page.meta.now above.now }
    requires kept { FitsFile page.meta.now kept.now }
{
    let state = Activity::ConsolidatorTry {
        job: job(JobKind::Merge, 1, 50),
        parent: 3,
        keep: 1,
        gone: 2,
        leaf: 2,
    };
    hb_consol::next(alloc, state, page, Some(above), Some(kept)).ok()
}

fn decide(alloc: Global, page: Latched<'_>, above: &LivePage, kept: &LivePage) -> Option<Next>
    requires above { FitsFile page.meta.now above.now }
    requires kept { FitsFile page.meta.now kept.now }
{
    let job = job(JobKind::Merge, 1, 50);
    if above.level != job.level {
        return None;
    }
    let state = Activity::ConsolidatorDecide {
        job,
        parent: 3,
        keep: 1,
        gone: 2,
    };
    hb_consol::next(alloc, state, page, Some(above), Some(kept)).ok()
}

// The page as a step latches it.
fn latched<'a>(id: u32, page: &'a LivePage, meta: &'a Meta) -> Latched<'a>
    requires layout { IsLayout meta.now }
    requires fits { FitsFile meta.now page.now }
    ensures { result.meta.now ≡ meta.now }
{
    Latched { id, page, meta }
}

fn next_of(alloc: Global, step: &str, meta: &Meta) -> Option<Next> {
    let above = parent(alloc)?;
    let kept = page_one(alloc)?;
    let page = page_two(alloc)?;
    if !meta.is_layout() || !fits(&above, meta) || !fits(&kept, meta) || !fits(&page, meta) {
        return None;
    }
    let gone = latched(2, &page, meta);
    match step {
        "walk" => walk(alloc, latched(3, &above, meta)),
        "scan 1" => scan(alloc, latched(1, &kept, meta), &above),
        "scan 2" => scan(alloc, gone, &above),
        "keep" => keep(alloc, latched(1, &kept, meta)),
        "try" => try_pair(alloc, gone, &above, &kept),
        _ => decide(alloc, gone, &above, &kept),
    }
}

// Whether the step comes to this.
fn comes_to(alloc: Global, step: &str, meta: &Meta, want: &str) -> bool {
    match &next_of(alloc, step, meta) {
        Some(next) => says(alloc, next, want),
        None => false,
    }
}

#[test]
fn rows_of_the_consolidator(rt: HostRuntime) {
    for (place, &(step, dcap, icap, want)) in ROWS.iter().enumerate() {
        let meta = Meta {
            dcap,
            icap,
            ..meta(40)
        };
        expect(&rt, place, comes_to(rt.alloc(), step, &meta, want));
    }
}
