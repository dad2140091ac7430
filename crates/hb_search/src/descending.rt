//! What a step of a session that searches comes to, at a page that is read from its bytes.

ghost use Rattle.std.specs.Prelude.{◌≡◌, ◌-◌, ℕ, Some, IsSome, IfOk, OnErr, length, slice_get};
ghost use Rattle.hb_search.specs.Gathering.{MayGather, SearchesAnyhow, StandsAtLeaf};
ghost use Rattle.hb_search.specs.Searching.{GathersNow, MaySearchIn, SearchRowIn, StaysGathering};
ghost use Rattle.hb_view.specs.Views.{IsLiveAnd};

use crate::gathering::go_behind;
use hb_activity::{Activity, Next};
use hb_set::Line;
use hb_space::{Area, Areas, NoMemory, Records};
use hb_view::PageView;
use std::alloc::Global;

/// What the step of a session comes to that has a search in hand, and latched the page of the number `id`. It answers as `next`
/// does. At a leaf of records those alone are copied that are found.
///
/// # Errors
///
/// Memory was refused. It is wanted only at a leaf of records.
pub fn descend(
    alloc: Global,
    state: Activity,
    id: u32,
    view: PageView<'_>,
) -> Result<Next, NoMemory>
    requires { IsLiveAnd view (MaySearchIn state) }
    ensures row { IfOk result (λ next. IsLiveAnd view.entry (λ page. SearchRowIn state id page next)) }
    ensures kept { IfOk result (λ next. StaysGathering next.then) }
    ensures memory { OnErr result (IsLiveAnd view.entry (GathersNow state)) }
{
    match state.pass_on(id, &view) {
        Ok(next) => Ok(next),
        Err(state) => gather(alloc, state, &view),
    }
}

/// The walk is over: the page's leaf at the corner of the last box that remains has records.
fn gather(alloc: Global, state: Activity, view: &PageView<'_>) -> Result<Next, NoMemory>
    requires { IsLiveAnd view.now (MayGather state) }
    ensures row { IfOk result (λ next. (id : ℕ) → IsLiveAnd view.now (λ page. SearchRowIn state id page next)) }
    ensures kept { IfOk result (λ next. StaysGathering next.then) }
{
    match state {
        Activity::SessionWalk {
            line,
            rest,
            found,
            ..
        } => gather_there(alloc, line, rest, found, view),
        _ => unreachable!(),
    }
}

/// What the search finds there joins what it found, and it goes on behind the leaf.
fn gather_there(
    alloc: Global,
    line: Line,
    rest: Areas,
    found: Records,
    view: &PageView<'_>,
) -> Result<Next, NoMemory>
    requires { IsLiveAnd view.now (StandsAtLeaf line.command rest found) }
    ensures row { IfOk result (λ next. IsLiveAnd view.now (SearchesAnyhow line rest found next)) }
    ensures kept { IfOk result (λ next. StaysGathering next.then) }
{
    let at_hand = last_box(&rest);
    let mut found = found.into_vec();
    match view.records_in(at_hand.lo(), at_hand, &mut found)? {
        Some(area) => go_behind(alloc, line, rest, found, &area),
        None => unreachable!(),
    }
}

/// The last box that remains.
fn last_box(rest: &Areas) -> &Area
    requires { IsSome (slice_get rest.now (length rest.now - 1)) }
    ensures { slice_get rest.now (length rest.now - 1) ≡ Some result.now }
{
    match rest.as_slice().last() {
        Some(area) => area,
        None => unreachable!(),
    }
}
