//! Plans of postings and merges for pages that were drawn by hand, each read off the drawing.

ghost use Rattle.std.specs.Prelude.{◌≡◌, ◌<◌, ◌^◌, IfSome, IsTrue};
ghost use Rattle.hb_space.specs.Boxes.{Holds};
ghost use Rattle.hb_frag.specs.Leaves.{weight_of, WellCut};
ghost use Rattle.hb_frag.specs.Rules.{IsNormal};
ghost use Rattle.hb_ops.specs.Owing.{NamesChildAt};

use crate::operations::say_posted;
use crate::replies::Reply;
use crate::spelled::{page_of, point_from};
use hb_frag::laws::normal_says_the_same;
use hb_frag::{Leaf, LivePage, normal};
use hb_space::Point;
use hb_terms::{MergePlan, PostPlan, merge_plan, post_plan};

// The page that a name stands for, or that of the text.
fn named(name: &str) -> &str {
    match name {
        // a parent that names page 1 alone, which gave what lies below 40 to page 2
        "lone" => "1 ^1",
        "below" => "0 ( >2 |0:40| 40=,50=,60=,70= )",
        // the box 0..99 of two attributes. Below 60 in the first: child 1 below 50 in the second, child 4
        // from there on. From 60 on: child 1
        "drawn" => "1 0..99 0..99 : ( ( ^1 |1:50| ^4 ) |0:60| ^1 )",
        // a child of the same box with three holes: to 7 below 20 in the first attribute, to 2 behind
        // that, below 30 in the second, and to 4 from 80 on in the first, above that
        "holed" => "0 0..99 0..99 : ( >7 |0:20| ( >2 |1:30| ( - |0:80| >4 ) ) )",
        // children with one hole below 60 in the first attribute
        "to5" => "0 0..99 0..99 : ( >5 |0:60| - )",
        "to4" => "0 0..99 0..99 : ( >4 |0:60| - )",
        "to1" => "0 0..99 0..99 : ( >1 |0:60| - )",
        // a parent that gave away what lies from 50 on, and one that directly holds all of page 2
        "part" => "1 0..99 : ( ^1 |0:40| ( ^2 |0:50| >9 ) )",
        "all" => "1 ( ^1 |0:40| ( ^2 |0:60| ^1 ) )",
        // page 1 of the whole space: below 40 the record 10, up to 60 a hole to 2, then the record 70
        "kept" => "0 ( 10= |0:40| ( >2 |0:60| 70= ) )",
        _ => name,
    }
}

// A page without a cut that parts nothing.
fn parent_of(reply: &mut Reply, name: &str) -> Option<LivePage>
    ensures normal { IfSome result (λ page. IsNormal page.frag) }
    ensures light { IfSome result (λ page. weight_of page.frag < 2 ^ 32) }
{
    let LivePage { level, area, frag } = page_of(reply, named(name));
    let frag = normal(reply.alloc, frag).ok()?;
    normal_says_the_same();
    Some(LivePage { level, area, frag })
}

// Whether the point lies in the page's box, and the page is well cut.
fn reaches(page: &LivePage, point: &Point) -> bool
    ensures cut { IsTrue result → WellCut page.now }
    ensures held { IsTrue result → Holds page.now.area point.now }
{
    page.area.lo().attributes() == point.attributes()
        && page.area.holds(point)
        && page.is_well_cut()
}

// Whether the page's leaf at the point names a child.
fn names_child(page: &LivePage, point: &Point) -> bool
    requires cut { WellCut page.now }
    requires held { Holds page.now.area point.now }
    ensures { IsTrue result → NamesChildAt page.now point.now }
{
    match page.leaf_at(point) {
        (Leaf::Child(_), _) => true,
        _ => false,
    }
}

// `post LR 2 0..39`: the way, the page to be named, the area.
fn say_plan(reply: &mut Reply, plan: &PostPlan) {
    match plan {
        PostPlan::Nothing => reply.say("nothing"),
        PostPlan::SplitFirst => reply.say("split first"),
        PostPlan::Post { at, inner, area } => {
            reply.say("post ");
            say_posted(reply, at, *inner, area);
        }
    }
}

fn say_planned(reply: &mut Reply, parent: &LivePage, child: &LivePage, point: &Point, icap: u16)
    requires normal { IsNormal parent.now.frag }
    requires light { weight_of parent.now.frag < 2 ^ 32 }
{
    if !reaches(parent, point) || !reaches(child, point) {
        return reply.need(false);
    }
    if !names_child(parent, point) || parent.weight() > u32::from(icap) {
        return reply.need(false);
    }
    match post_plan(reply.alloc, parent, child, point, icap) {
        Ok(plan) => say_plan(reply, &plan),
        Err(_) => reply.need(false),
    }
}

/// The plan of a posting: from `PARENT CHILD CAPACITY POINT`.
pub(crate) fn post(reply: &mut Reply, question: &str) {
    let (parent, rest) = reply.parts(question, " ");
    let (child, rest) = reply.parts(rest, " ");
    let (icap, point) = reply.parts(rest, " ");
    let icap = reply.read_u16(icap);
    let point = point_from(reply, point);
    let child = page_of(reply, named(child));
    match &parent_of(reply, parent) {
        Some(parent) => say_planned(reply, parent, &child, &point, icap),
        None => reply.need(false),
    }
}

fn told(plan: MergePlan) -> &'static str {
    match plan {
        MergePlan::NotContained => "not contained",
        MergePlan::ManyParents => "many parents",
        MergePlan::TooHeavy => "too heavy",
        MergePlan::Merge => "merge",
    }
}

// The plan for pages of which each may weigh 6.
fn say_merge(reply: &mut Reply, parent: &LivePage, keep: &LivePage, gone_id: u32, gone: &LivePage)
    requires keep { weight_of keep.now.frag < 2 ^ 32 }
    requires gone { weight_of gone.now.frag < 2 ^ 32 }
{
    if !parent.is_well_cut() || !keep.is_well_cut() {
        return reply.need(false);
    }
    if gone.area.lo().attributes() != parent.area.lo().attributes() {
        return reply.need(false);
    }
    reply.say(told(merge_plan(parent, keep, gone_id, gone, 6)));
}

/// The plan of a merge that keeps the page `kept`: from `PARENT | GONE | PAGE`.
pub(crate) fn merge(reply: &mut Reply, question: &str) {
    let (parent, rest) = reply.parts(question, " | ");
    let (gone_id, gone) = reply.parts(rest, " | ");
    let gone_id = reply.read_u32(gone_id);
    let parent = page_of(reply, named(parent));
    let keep = page_of(reply, named("kept"));
    let gone = page_of(reply, gone);
    say_merge(reply, &parent, &keep, gone_id, &gone);
}

pub(crate) const ROWS: &str = "
post: lone below 32 10 => post . 2 0..39
post: lone below 32 39 => post . 2 0..39
post: lone below 32 40 => nothing
post: lone below 32 50 => nothing
// at the hole to 7: one cut, so 3 - 1 + 2 are needed
post: drawn holed 4 10 10 => post LL 7 0..19 0..99
post: drawn holed 3 10 10 => split first
// at the hole to 2, which isn't the first: two cuts
post: drawn holed 5 30 10 => post LL 2 20..99 0..29
post: drawn holed 4 30 10 => split first
// in the other leaf of child 1, whose part of the hole to 2 is its whole width
post: drawn holed 4 90 29 => post R 2 20..99 0..29
// at the hole to 4
post: drawn holed 32 90 50 => post R 4 80..99 30..99
post: drawn holed 4 90 50 => split first
// where the parent names 4 already, a hole to 7
post: drawn holed 32 10 60 => post LR 7 0..19 0..99
// no hole
post: drawn holed 3 30 40 => nothing
// one hole around the parent's leaf
post: drawn to5 3 30 10 => post LL 5 0..59 0..99
// both leaves of the parent's cut name 4 then, and become one
post: drawn to4 3 30 10 => post LL 4 0..59 0..99
// the page that the leaf names already
post: drawn to1 3 30 10 => nothing
// merges
merge: part | 2 | 0 40..59 : 45= => many parents
merge: all | 2 | 0 40..59 : 45= => merge
// 4 * (3 - 1 + 2) isn't more than 3 * 6
merge: all | 2 | 0 40..59 : 45=,46= => merge
// 4 * (3 - 1 + 3) is
merge: all | 2 | 0 40..59 : 45=,46=,47= => too heavy
// what isn't contained is said first, and many parents before the weight
merge: part | 3 | 0 40..59 : 45=,46=,47= => not contained
merge: part | 2 | 0 40..59 : 45=,46=,47= => many parents
";
