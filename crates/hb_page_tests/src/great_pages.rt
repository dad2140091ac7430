//! Views of pages that have as many cuts one below the other, or as many children, as a page may have.
//!
//! A question is the bytes of a page in use, ` ? `, and what is asked: `rule DCAP ICAP` for its level, its weight and the first
//! rule that it breaks in a file of two levels with these capacities; `at POINT` for the leaf there, its box, the body of the
//! point's record and how many records the leaf has; `named PAGE` for the boxes of the first sibling leaf and of the first child
//! leaf that name the page; `place PLACE` for the leaf at a place from the left and its box.

ghost use Rattle.std.specs.Prelude.{◌≡◌};
ghost use Rattle.hb_frag.specs.Leaves.{WellCut};
ghost use Rattle.hb_frag.specs.declared.pages.Page.TheVariants.{Live};
ghost use Rattle.hb_view.specs.Views.{IsLiveAnd};

use crate::bytes::page_bytes_of;
use crate::drawn::say_area;
use crate::replies::Reply;
use crate::spelled::point_from;
use crate::views::{reaches, say_found, say_leaf, say_rule};
use hb_frag::{LivePage, Page};
use hb_space::{Area, Point};
use hb_view::PageView;

fn say_first(reply: &mut Reply, area: Option<Area>) {
    match area {
        Some(area) => say_area(reply, &area),
        None => reply.say(" none"),
    }
}

fn say_named(reply: &mut Reply, view: &PageView<'_>, id: u32)
    requires { IsLiveAnd view.now WellCut }
{
    reply.say("sibling");
    say_first(reply, view.sibling_area(id));
    reply.say(", child");
    say_first(reply, view.child_area(id));
}

fn say_place(reply: &mut Reply, view: &PageView<'_>, place: u32)
    requires { IsLiveAnd view.now WellCut }
{
    match view.leaf(place) {
        Some((leaf, area)) => {
            say_leaf(reply, leaf);
            say_area(reply, &area);
        }
        None => reply.say("none"),
    }
}

fn say_leaves(reply: &mut Reply, view: &PageView<'_>, page: &LivePage, word: &str, number: u32)
    requires { view.now ≡ Live page.now }
{
    if !page.is_well_cut() {
        return reply.need(false);
    }
    if word == "named" {
        say_named(reply, view, number);
    } else {
        say_place(reply, view, number);
    }
}

// The level and the weight, and the first rule that is broken where pages may weigh so much.
fn say_broken(reply: &mut Reply, view: &PageView<'_>, page: &LivePage, capacities: (u16, u16))
    requires { view.now ≡ Live page.now }
{
    reply.number(u64::from(view.level()));
    reply.marked(" ", u64::from(view.weight()));
    let (dcap, icap) = capacities;
    say_rule(
        reply,
        view.broken(page.area.lo().attributes(), 2, dcap, icap),
    );
}

fn say_point(reply: &mut Reply, view: &PageView<'_>, page: &LivePage, point: &Point)
    requires { view.now ≡ Live page.now }
{
    if !reaches(page, point) {
        return reply.need(false);
    }
    say_found(reply, view, point);
    reply.marked(" ", u64::from(view.count_at(point)));
}

fn capacities_of(reply: &mut Reply, text: &str) -> (u16, u16) {
    let (dcap, icap) = reply.parts(text, " ");
    (reply.read_u16(dcap), reply.read_u16(icap))
}

fn say_asked(reply: &mut Reply, view: &PageView<'_>, page: &LivePage, asked: &str)
    requires { view.now ≡ Live page.now }
{
    let (word, rest) = reply.parts(asked, " ");
    match word {
        "at" => {
            let point = point_from(reply, rest);
            say_point(reply, view, page, &point);
        }
        "rule" => {
            let capacities = capacities_of(reply, rest);
            say_broken(reply, view, page, capacities);
        }
        _ => {
            let number = reply.read_u32(rest);
            say_leaves(reply, view, page, word, number);
        }
    }
}

fn say_live(reply: &mut Reply, view: &PageView<'_>, asked: &str) {
    match view.page(reply.alloc) {
        Ok(Page::Live(page)) => say_asked(reply, view, &page, asked),
        _ => reply.need(false),
    }
}

/// What a view tells of some bytes, with zeros behind them up to the length of a page.
pub(crate) fn asked(reply: &mut Reply, question: &str) {
    let (bytes, asked) = reply.parts(question, " ? ");
    let bytes = page_bytes_of(reply, bytes);
    match PageView::checked(&bytes) {
        Some(view) => say_live(reply, &view, asked),
        None => reply.need(false),
    }
}

pub(crate) const ROWS: &str = "
// leaf 0 from the left is below all cuts and has 0 alone, leaf 1 has 1 alone, and the last one all from 313 on
asked: deep ? rule 314 32 => 0 314 ok
asked: deep ? rule 313 32 => 0 314 5
asked: deep ? at 0 => : >7 0..0 none 0
asked: deep ? at 1 => : records 1..1 none 0
asked: deep ? at 312 => : records 312..312 none 0
asked: deep ? at 313 => : >9 313.. none 0
asked: deep ? named 7 => sibling 0..0, child none
asked: deep ? named 9 => sibling 313.., child none
asked: deep ? named 8 => sibling none, child none
asked: deep ? place 0 => >7 0..0
asked: deep ? place 1 => records 1..1
asked: deep ? place 312 => records 312..312
asked: deep ? place 313 => >9 313..
asked: deep ? place 314 => none
// its last byte is the last one of sibling 9
asked: deep 4095:1 ? at 313 => : >1 313.. none 0
// the deepest leaf has the point 0 with the body a; it and the leaf beside it should be one
asked: pit ? rule 313 32 => 0 313 10
asked: pit ? rule 312 32 => 0 313 5
asked: pit ? at 0 => : records 0..0 a 1
asked: pit ? at 1 => : records 1..1 none 0
asked: pit ? at 312 => : records 312.. none 0
asked: pit ? place 312 => records 312..
asked: pit ? place 313 => none
// the deepest leaf is the last one
asked: slope ? rule 314 32 => 0 314 ok
asked: slope ? rule 313 32 => 0 314 5
asked: slope ? at 0 => : records 0..0 none 0
asked: slope ? at 312 => : records 312..312 none 0
asked: slope ? at 313 => : >9 313.. none 0
asked: slope ? named 9 => sibling 313.., child none
asked: slope ? place 312 => records 312..312
asked: slope ? place 313 => >9 313..
asked: slope ? place 314 => none
// The cuts take one attribute after the other, the first one outermost. The deepest leaf is below all of them and the last one
// has all from the outermost cut on; they are siblings 7 and 9
asked: deep2 ? rule 312 32 => 0 312 ok
asked: deep2 ? rule 311 32 => 0 312 5
asked: deep2 ? at 0 0 => : >7 0..0 0..0 none 0
asked: deep2 ? at 5 1000 => : records 5..5 0.. none 0
asked: deep2 ? at 1000 1000 => : >9 156.. 0.. none 0
asked: deep2 ? named 7 => sibling 0..0 0..0, child none
asked: deep2 ? named 9 => sibling 156.. 0.., child none
asked: deep2 ? place 0 => >7 0..0 0..0
asked: deep2 ? place 156 => records 1..1 0..
asked: deep2 ? place 311 => >9 156.. 0..
asked: deep2 ? place 312 => none
asked: deep3 ? rule 311 32 => 0 311 ok
asked: deep3 ? rule 310 32 => 0 311 5
asked: deep3 ? at 0 0 0 => : >7 0..0 0..0 0..0 none 0
asked: deep3 ? at 5 1000 1000 => : records 5..5 0.. 0.. none 0
asked: deep3 ? at 1000 1000 1000 => : >9 104.. 0.. 0.. none 0
asked: deep3 ? named 7 => sibling 0..0 0..0 0..0, child none
asked: deep3 ? named 9 => sibling 104.. 0.. 0.., child none
asked: deep3 ? place 0 => >7 0..0 0..0 0..0
asked: deep3 ? place 155 => records 0..0 52..52 0..
asked: deep3 ? place 310 => >9 104.. 0.. 0..
asked: deep3 ? place 311 => none
asked: deep4 ? rule 310 32 => 0 310 ok
asked: deep4 ? rule 309 32 => 0 310 5
asked: deep4 ? at 0 0 0 0 => : >7 0..0 0..0 0..0 0..0 none 0
asked: deep4 ? at 5 1000 1000 1000 => : records 5..5 0.. 0.. 0.. none 0
asked: deep4 ? at 1000 1000 1000 1000 => : >9 78.. 0.. 0.. 0.. none 0
asked: deep4 ? named 7 => sibling 0..0 0..0 0..0 0..0, child none
asked: deep4 ? named 9 => sibling 78.. 0.. 0.. 0.., child none
asked: deep4 ? place 0 => >7 0..0 0..0 0..0 0..0
asked: deep4 ? place 155 => records 0..0 1..1 0.. 0..
asked: deep4 ? place 309 => >9 78.. 0.. 0.. 0..
asked: deep4 ? place 310 => none
// the deepest leaf is the last one, from the last cut of each attribute on
asked: slope2 ? rule 312 32 => 0 312 ok
asked: slope2 ? rule 311 32 => 0 312 5
asked: slope2 ? at 0 0 => : records 0..0 0.. none 0
asked: slope2 ? at 5 1000 => : records 5..5 0.. none 0
asked: slope2 ? at 1000 1000 => : >9 156.. 155.. none 0
asked: slope2 ? named 7 => sibling none, child none
asked: slope2 ? named 9 => sibling 156.. 155.., child none
asked: slope2 ? place 0 => records 0..0 0..
asked: slope2 ? place 156 => records 156.. 0..0
asked: slope2 ? place 311 => >9 156.. 155..
asked: slope2 ? place 312 => none
asked: slope3 ? rule 311 32 => 0 311 ok
asked: slope3 ? rule 310 32 => 0 311 5
asked: slope3 ? at 0 0 0 => : records 0..0 0.. 0.. none 0
asked: slope3 ? at 5 1000 1000 => : records 5..5 0.. 0.. none 0
asked: slope3 ? at 1000 1000 1000 => : >9 104.. 103.. 103.. none 0
asked: slope3 ? named 7 => sibling none, child none
asked: slope3 ? named 9 => sibling 104.. 103.. 103.., child none
asked: slope3 ? place 0 => records 0..0 0.. 0..
asked: slope3 ? place 155 => records 104.. 51..51 0..
asked: slope3 ? place 310 => >9 104.. 103.. 103..
asked: slope3 ? place 311 => none
asked: slope4 ? rule 310 32 => 0 310 ok
asked: slope4 ? rule 309 32 => 0 310 5
asked: slope4 ? at 0 0 0 0 => : records 0..0 0.. 0.. 0.. none 0
asked: slope4 ? at 5 1000 1000 1000 => : records 5..5 0.. 0.. 0.. none 0
asked: slope4 ? at 1000 1000 1000 1000 => : >9 78.. 77.. 77.. 77.. none 0
asked: slope4 ? named 7 => sibling none, child none
asked: slope4 ? named 9 => sibling 78.. 77.. 77.. 77.., child none
asked: slope4 ? place 0 => records 0..0 0.. 0.. 0..
asked: slope4 ? place 155 => records 78.. 77.. 0..0 0..
asked: slope4 ? place 309 => >9 78.. 77.. 77.. 77..
asked: slope4 ? place 310 => none
// child 16 A + B + 1 has the points whose attributes are A and B; those from 15 on are one
asked: grid ? rule 48 256 => 1 256 ok
asked: grid ? rule 48 255 => 1 256 5
asked: grid ? at 0 0 => : ^1 0..0 0..0 none 0
asked: grid ? at 3 7 => : ^56 3..3 7..7 none 0
asked: grid ? at 14 15 => : ^240 14..14 15.. none 0
asked: grid ? at 15 0 => : ^241 15.. 0..0 none 0
asked: grid ? at 1000 2 => : ^243 15.. 2..2 none 0
asked: grid ? at 15 15 => : ^256 15.. 15.. none 0
asked: grid ? named 1 => sibling none, child 0..0 0..0
asked: grid ? named 56 => sibling none, child 3..3 7..7
asked: grid ? named 256 => sibling none, child 15.. 15..
asked: grid ? named 257 => sibling none, child none
asked: grid ? place 0 => ^1 0..0 0..0
asked: grid ? place 55 => ^56 3..3 7..7
asked: grid ? place 255 => ^256 15.. 15..
asked: grid ? place 256 => none
";
