//! The record that had no room is put into one of the halves of the page that was split: into the one that directly holds its
//! point. Of the halves the one that stayed in its place is read, as a page or as its bytes.

ghost use Rattle.std.specs.Prelude.{◌≡◌, ◌↔◌, [], length, Some, IsTrue};
ghost use Rattle.hb_activity.specs.Deciding.{NextIs};
ghost use Rattle.hb_activity.specs.declared.deciding.Fate.TheVariants.{TakesEffect};
ghost use Rattle.hb_frag.specs.Leaves.{DirectlyHolds};
ghost use Rattle.hb_point.specs.Asks.{CanHold, InsertsInto};
ghost use Rattle.hb_point.specs.Doing.{InsertsSome, IsNoSibling, PutsBy};
ghost use Rattle.hb_set.specs.declared.commands.Command.TheVariants as commands;
ghost use Rattle.hb_space.specs.Boxes.{Holds, IsArea};
ghost use Rattle.hb_space.specs.declared.records.Record.{Record as Entry};
ghost use Rattle.hb_view.specs.Views.{IsLiveAnd};

use hb_activity::{Activity, Next};
use hb_frag::LivePage;
use hb_ops::Op;
use hb_set::{Command, Line, Reply};
use hb_space::{Area, Point};
use hb_view::{LeafView, PageView};

/// A put into the half that directly holds the record's point.
#[tactic(auto, using(crate::proofs::AskedRows::puts_half))]
pub(crate) fn put(line: Line, source: u32, fresh: u32, page: &LivePage) -> Next
    requires { InsertsInto line page.now }
    ensures { PutsBy line source fresh page.now result }
{
    let here = directly_holds(page, inserted(&line));
    put_into(line, half_of(here, source, fresh))
}

/// The same, where the half that stayed is read from its bytes.
#[tactic(auto, using(crate::proofs::AskedRows::puts_half))]
pub(crate) fn put_by_view(line: Line, source: u32, fresh: u32, view: &PageView<'_>) -> Next
    requires { IsLiveAnd view.now (λ page. InsertsInto line page) }
    ensures { IsLiveAnd view.now (λ page. PutsBy line source fresh page result) }
{
    let here = holds_itself(view, inserted(&line));
    put_into(line, half_of(here, source, fresh))
}

/// The point of the record that the line inserts.
fn inserted(line: &Line) -> &Point
    requires { InsertsSome line.now }
    ensures { (rec : Entry) → line.now.command ≡ commands.Insert rec → result.now ≡ rec.key }
{
    match &line.command {
        Command::Insert(rec) => &rec.key,
        _ => unreachable!(),
    }
}

/// The record of the line is put into this page.
fn put_into(line: Line, half: u32) -> Next
    requires { InsertsSome line }
    ensures { (rec : Entry) → line.command ≡ commands.Insert rec →
        NextIs result (Activity.SessionAwait line.number Reply.Done 0) (Some (Op.Put half rec)) [] TakesEffect }
{
    let Line {
        number,
        command,
        ..
    } = line;
    match command {
        Command::Insert(rec) => Next::takes_effect(
            number,
            Reply::Done,
            Some(Op::Put { page: half, rec }),
        ),
        _ => unreachable!(),
    }
}

/// The half that stayed in its place, where that holds the point, or else the one that left.
fn half_of(here: bool, source: u32, fresh: u32) -> u32
    ensures here { IsTrue here → result ≡ source }
    ensures away { ¬ (IsTrue here) → result ≡ fresh }
{
    if here { source } else { fresh }
}

/// Whether the page directly holds the point.
#[tactic(auto, using(crate::proofs::HeldPoints::held_by_point))]
fn directly_holds(page: &LivePage, point: &Point) -> bool
    requires { CanHold page.now point.now }
    ensures { IsTrue result ↔ DirectlyHolds page.now point.now }
{
    page.directly(&Area::of_point(point))
}

/// The same of a page that is read from its bytes: the point lies in its box, and the leaf there isn't a sibling leaf.
fn holds_itself(view: &PageView<'_>, point: &Point) -> bool
    requires { IsLiveAnd view.now (λ page. CanHold page point.now) }
    ensures { IsLiveAnd view.now (λ page. IsTrue result ↔ DirectlyHolds page point.now) }
{
    if is_in(&view.area(), point) {
        let (leaf, _area) = view.leaf_at(point);
        is_no_sibling(leaf)
    } else {
        false
    }
}

/// Whether the box has the point.
fn is_in(area: &Area, point: &Point) -> bool
    requires { length point.now ≡ length area.now.lo }
    ensures area { IsArea area.now }
    ensures held { IsTrue result ↔ Holds area.now point.now }
{
    let _least = area.lo();
    area.holds(point)
}

/// Whether it isn't a sibling leaf.
fn is_no_sibling(leaf: LeafView) -> bool
    ensures { IsTrue result ↔ IsNoSibling leaf }
{
    match leaf {
        LeafView::Records => true,
        LeafView::Child(_) => true,
        LeafView::Sibling(_) => false,
    }
}
