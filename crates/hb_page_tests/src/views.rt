//! Pages seen from their bytes, beside the pages that decoding gives.

ghost use Rattle.std.specs.Prelude.{◌≡◌, IsTrue};
ghost use Rattle.hb_space.specs.Boxes.{Holds};
ghost use Rattle.hb_frag.specs.Leaves.{WellCut};
ghost use Rattle.hb_frag.specs.declared.pages.Page.TheVariants.{Live};
ghost use Rattle.hb_view.specs.Views.{IsLive, IsLiveAnd};

use crate::bytes::page_bytes_of;
use crate::drawn::say_area;
use crate::replies::Reply;
use crate::spelled::point_from;
use hb_frag::{LivePage, Page};
use hb_space::Point;
use hb_view::{LeafView, PageView};

pub(crate) fn say_leaf(reply: &mut Reply, leaf: LeafView) {
    match leaf {
        LeafView::Records => reply.say("records"),
        LeafView::Child(page) => reply.marked("^", u64::from(page)),
        LeafView::Sibling(page) => reply.marked(">", u64::from(page)),
    }
}

fn say_body(reply: &mut Reply, body: Option<&[u8]>) {
    match body {
        None => reply.say(" none"),
        Some(bytes) => {
            reply.say(" ");
            reply.letters(bytes);
        }
    }
}

pub(crate) fn say_rule(reply: &mut Reply, rule: Option<u8>) {
    match rule {
        None => reply.say(" ok"),
        Some(rule) => reply.marked(" ", u64::from(rule)),
    }
}

// The level and the weight, and the first rule that the page breaks in a file of one attribute, one level and the
// capacities 48 and 256.
fn say_head(reply: &mut Reply, view: &PageView<'_>)
    requires { IsLive view.now }
{
    reply.number(u64::from(view.level()));
    reply.marked(" ", u64::from(view.weight()));
    say_rule(reply, view.broken(1, 1, 48, 256));
}

// The leaf at the point, its box, and the body of the point's record.
pub(crate) fn say_found(reply: &mut Reply, view: &PageView<'_>, point: &Point)
    requires cut { IsLiveAnd view.now WellCut }
    requires held { IsLiveAnd view.now (λ page. Holds page.area point.now) }
{
    let (leaf, area) = view.leaf_at(point);
    reply.say(": ");
    say_leaf(reply, leaf);
    say_area(reply, &area);
    say_body(reply, view.find(point));
}

// Whether the page is well cut and the point lies in its box.
pub(crate) fn reaches(page: &LivePage, point: &Point) -> bool
    ensures cut { IsTrue result → WellCut page.now }
    ensures held { IsTrue result → Holds page.now.area point.now }
{
    page.is_well_cut()
        && page.area.lo().attributes() == point.attributes()
        && page.area.holds(point)
}

fn say_live(reply: &mut Reply, view: &PageView<'_>, page: &LivePage, point: &Point)
    requires { view.now ≡ Live page.now }
{
    say_head(reply, view);
    if reaches(page, point) {
        say_found(reply, view, point);
    }
}

fn say_seen(reply: &mut Reply, view: &PageView<'_>, point: &Point) {
    match view.page(reply.alloc) {
        Ok(Page::Free { .. }) => reply.marked("free ", u64::from(view.next())),
        Ok(Page::Live(page)) => say_live(reply, view, &page, point),
        Err(_) => reply.need(false),
    }
}

/// What a view of some bytes tells, with zeros behind them up to the length of a page. A page in use is asked for its leaf at
/// a point, where that lies in its box and the page is well cut.
pub(crate) fn view(reply: &mut Reply, question: &str) {
    let (bytes, point) = reply.parts(question, " ? ");
    let point = point_from(reply, point);
    let bytes = page_bytes_of(reply, bytes);
    match PageView::checked(&bytes) {
        Some(view) => say_seen(reply, &view, &point),
        None => reply.say("no page"),
    }
}

pub(crate) const ROWS: &str = "
view: 2 0 0 0 7 ? 0 => free 7
view: first ? 5 => 0 1 ok: records 0.. none
view: first @4095 1 ? 5 => no page
// point 258 has the body abc
view: first @20 1 0 1 6*0 1 2 3 97 98 99 ? 258 => 0 1 ok: records 0.. abc
view: first @20 1 0 1 6*0 1 2 3 97 98 99 ? 257 => 0 1 ok: records 0.. none
// the point 5 with the body a below 256, and sibling 9 from there on
view: first @20 0 0 6*0 1 0 1 0 1 7*0 5 1 97 3 0 0 0 9 ? 5 => 0 2 ok: records 0..255 a
view: first @20 0 0 6*0 1 0 1 0 1 7*0 5 1 97 3 0 0 0 9 ? 256 => 0 2 ok: >9 256.. none
// two attributes: the point 3 8 with the body a where the second is below 9, and child 4 from there on
view: 1 0 2 0 16*0 16*255 0 1 7*0 9 1 0 1 7*0 3 7*0 8 1 97 2 0 0 0 4 ? 3 8 => 0 2 3: records 0.. 0..8 a
view: 1 0 2 0 16*0 16*255 0 1 7*0 9 1 0 1 7*0 3 7*0 8 1 97 2 0 0 0 4 ? 3 9 => 0 2 3: ^4 0.. 9.. none
// each rule: a level that isn't there, a plane below all points, a child at level 0, a point twice, leaves that should be one
view: first 1:1 ? 5 => 1 1 3: records 0.. none
view: first @20 0 0 8*0 1 0 0 3 0 0 0 9 ? 0 => 0 2 4
view: first @20 2 255 255 255 255 ? 0 => 0 1 5: ^4294967295 0.. none
view: first @20 1 0 2 7*0 5 1 97 7*0 5 1 98 ? 5 => 0 2 6: records 0.. a
view: first @20 0 0 6*0 1 0 1 0 0 1 0 0 ? 0 => 0 2 10: records 0..255 none
";
