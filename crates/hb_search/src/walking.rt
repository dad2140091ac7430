//! A walk to the corner of the last box that remains: it passes on to the page that a leaf names, or
//! gathers there.

ghost use Rattle.std.specs.Prelude.{◌≡◌, ◌-◌, List, ℕ, Some, IfOk, OnErr, length, slice_get, MatchOption};
ghost use Rattle.hb_activity.specs.Walks.{MeetsRecords, goal_of};
ghost use Rattle.hb_search.specs.Gathering.{SearchesBy};
ghost use Rattle.hb_search.specs.Searching.{IsGathering, SearchesInside, StaysGathering};
ghost use Rattle.hb_set.specs.declared.commands.Command.{Command as OneCommand};
ghost use Rattle.hb_space.specs.Boxes.{Area as Extent, Holds, IsArea};

use crate::gathering::{go_behind, take_held};
use hb_activity::{Activity, Job, Latched, Next};
use hb_frag::{Leaf, LivePage};
use hb_set::Line;
use hb_space::{Area, Areas, NoMemory, Records};
use std::alloc::Global;

/// A step of a search that latched this page. A leaf that names a page leads on, and a sibling leaf
/// shows that the parent owes a posting. At a leaf of records the search gathers.
pub(crate) fn search(
    alloc: Global,
    line: Line,
    rest: Areas,
    found: Records,
    latched: Latched<'_>,
) -> Result<Next, NoMemory>
    requires inside { SearchesInside latched.page.now line.command rest }
    requires gathering { IsGathering rest found }
    ensures row { IfOk result (SearchesBy latched.entry.meta.now line rest found latched.entry.id latched.entry.page.now) }
    ensures kept { IfOk result (λ next. StaysGathering next.then) }
    ensures memory { OnErr result (MatchOption (goal_of line.command rest) ⊥ (MeetsRecords latched.entry.page.now)) }
{
    let Latched { id, page, .. } = latched;
    let at_hand = last_of(page, &line, &rest);
    let corner = at_hand.lo().copy();
    match page.leaf_at(&corner) {
        (Leaf::Records(records), area) => {
            let mut found = found.into_vec();
            take_held(&mut found, records.as_slice(), at_hand)?;
            go_behind(alloc, line, rest, found, &area)
        }
        (Leaf::Child(_), _) => Ok(Next::moves(onward(line, id, rest, found))),
        (Leaf::Sibling(_), _) => {
            let owed = Job::owed(page.level, corner);
            Ok(Next::adds(onward(line, id, rest, found), owed))
        }
    }
}

/// The walk holds this page from now on.
fn onward(line: Line, id: u32, rest: Areas, found: Records) -> Activity
    ensures { result ≡ Activity.SessionWalk line (Some id) rest found }
{
    Activity::SessionWalk {
        line,
        held: Some(id),
        rest,
        found,
    }
}

/// The last box that remains. Its lower corner lies in the page's box.
fn last_of<'a>(page: &LivePage, line: &Line, rest: &'a Areas) -> &'a Area
    requires { SearchesInside page.now line.now.command rest.now }
    ensures last { slice_get rest.now (length rest.now - 1) ≡ Some result.now }
    ensures goal { goal_of line.now.command rest.now ≡ Some result.now.lo }
    ensures inside { Holds page.now.area result.now.lo }
{
    match rest.as_slice().last() {
        Some(area) => area,
        None => unreachable!(),
    }
}
