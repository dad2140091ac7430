//! Leaves, boxes, names and parts of a page that was drawn by hand, and weights of trees.

ghost use Rattle.std.specs.Prelude.{IfSome, IsTrue};
ghost use Rattle.hb_space.specs.Boxes.{Holds};
ghost use Rattle.hb_frag.specs.Leaves.{WellCut};
ghost use Rattle.hb_frag.specs.Paths.{StaysInside};

use crate::drawn::{say_area, say_frag, say_leaf};
use crate::replies::Reply;
use crate::spelled::{area_of, page_of, path_of, point_from};
use hb_frag::{Frag, Leaf, LivePage, Path, replace};
use hb_space::{Area, NoMemory, Point};
use std::alloc::Global;

// The box 0..99 of two attributes. Below 50 in the first: child 7 below 30 in the second, and
// sibling 9 above. From 50 on: child 8 below 60 in the second; above it child 7 below 80 in the
// first, and sibling 9 from there on.
const DRAWN: &str = "1 0..99 0..99 : ( ( ^7 |1:30| >9 ) |0:50| ( ^8 |1:60| ( ^7 |0:80| >9 ) ) )";

fn drawn(reply: &mut Reply) -> Option<LivePage>
    ensures { IfSome result (λ page. WellCut page) }
{
    let page = page_of(reply, DRAWN);
    if page.is_well_cut() {
        Some(page)
    } else {
        reply.need(false);
        None
    }
}

fn say_part(reply: &mut Reply, part: Option<(&Frag, Area)>) {
    match part {
        Some((frag, area)) => {
            say_frag(reply, frag);
            say_area(reply, &area);
        }
        None => reply.say("none"),
    }
}

// Whether the point lies in the page's box.
fn reaches(page: &LivePage, point: &Point) -> bool
    ensures { IsTrue result → Holds page.now.area point.now }
{
    page.area.lo().attributes() == point.attributes() && page.area.holds(point)
}

fn say_leaf_at(reply: &mut Reply, page: &LivePage, point: &Point)
    requires well_cut { WellCut page.now }
    requires held { Holds page.now.area point.now }
{
    let (leaf, area) = page.leaf_at(point);
    say_leaf(reply, leaf);
    say_area(reply, &area);
}

fn say_path_to(reply: &mut Reply, page: &LivePage, point: &Point)
    requires well_cut { WellCut page.now }
    requires held { Holds page.now.area point.now }
{
    match page.path_to(reply.alloc, point) {
        Ok(path) => say_part(reply, page.subtree(&path)),
        Err(_) => reply.need(false),
    }
}

fn say_at(reply: &mut Reply, page: &LivePage, point: &Point)
    requires { WellCut page.now }
{
    if !reaches(page, point) {
        return reply.need(false);
    }
    let mut other = Reply::new(reply.alloc);
    say_leaf_at(reply, page, point);
    say_path_to(&mut other, page, point);
    reply.need_same(&other);
}

/// The leaf at a point and its box. The path to the point has to lead to the same.
pub(crate) fn leaf(reply: &mut Reply, question: &str) {
    let point = point_from(reply, question);
    if let Some(page) = &drawn(reply) {
        say_at(reply, page, &point);
    }
}

fn say_direct(reply: &mut Reply, page: &LivePage, area: &Area)
    requires { WellCut page.now }
{
    if page.area.lo().attributes() != area.lo().attributes() {
        return reply.need(false);
    }
    reply.truth(page.directly(area));
}

/// Whether the page holds a box directly.
pub(crate) fn directly(reply: &mut Reply, question: &str) {
    let area = area_of(reply, question);
    if let Some(page) = &drawn(reply) {
        say_direct(reply, page, &area);
    }
}

fn say_named(reply: &mut Reply, page: &LivePage, id: u32)
    requires { WellCut page.now }
{
    reply.truth(page.names(id));
    if let Some(area) = &page.sibling_area(id) {
        say_area(reply, area);
    }
}

/// Whether a child leaf names the page of a number, and the box of the first sibling leaf that does.
pub(crate) fn named(reply: &mut Reply, question: &str) {
    let id = reply.read_u32(question);
    if let Some(page) = &drawn(reply) {
        say_named(reply, page, id);
    }
}

/// The part to which a path leads.
pub(crate) fn part(reply: &mut Reply, question: &str) {
    let path = path_of(reply, question);
    if let Some(page) = &drawn(reply) {
        say_part(reply, page.subtree(&path));
    }
}

fn four() -> Frag {
    Frag::tip(Leaf::Sibling(4))
}

fn copied(alloc: Global, frag: &Frag, path: &Path) -> Result<Frag, NoMemory>
    requires { StaysInside path.now frag.now }
{
    frag.copy_with(alloc, path, four())
}

fn replaced(alloc: Global, frag: &Frag, path: &Path) -> Result<Frag, NoMemory>
    requires { StaysInside path.now frag.now }
{
    replace(frag.copy(alloc)?, path, four())
}

fn say_made(reply: &mut Reply, made: &Result<Frag, NoMemory>) {
    match made {
        Ok(frag) => say_frag(reply, frag),
        Err(_) => reply.need(false),
    }
}

fn say_holed(reply: &mut Reply, page: &LivePage, path: &Path)
    requires { WellCut page.now }
{
    if page.subtree(path).is_none() {
        return reply.need(false);
    }
    let mut other = Reply::new(reply.alloc);
    say_made(reply, &copied(reply.alloc, &page.frag, path));
    say_made(&mut other, &replaced(reply.alloc, &page.frag, path));
    reply.need_same(&other);
}

/// The tree with sibling 4 where a path leads, as a copy. In place it has to be the same.
pub(crate) fn holed(reply: &mut Reply, question: &str) {
    let path = path_of(reply, question);
    if let Some(page) = &drawn(reply) {
        say_holed(reply, page, &path);
    }
}

/// What the page of a tree weighs.
pub(crate) fn weight(reply: &mut Reply, question: &str) {
    let page = page_of(reply, question);
    reply.number(u64::from(page.weight()));
}

fn say_children(reply: &mut Reply, page: &LivePage) {
    let children = page.children(reply.alloc);
    reply.need(children.is_ok());
    reply.say("named");
    if let Ok(children) = &children {
        for child in children.as_slice() {
            reply.marked(" ", u64::from(*child));
        }
    }
}

/// The children that the page names, each once.
pub(crate) fn children(reply: &mut Reply) {
    if let Some(page) = &drawn(reply) {
        say_children(reply, page);
    }
}

pub(crate) const ROWS: &str = "
leaf: 0 0 => ^7 0..49 0..29
leaf: 49 29 => ^7 0..49 0..29
leaf: 49 30 => >9 0..49 30..99
leaf: 50 29 => ^8 50..99 0..59
leaf: 79 60 => ^7 50..79 60..99
leaf: 80 60 => >9 80..99 60..99
leaf: 99 99 => >9 80..99 60..99
// boxes and names
directly: 0..49 0..29 => true
directly: 0..49 0..30 => false
directly: 0..99 0..29 => true
directly: 50..79 0..99 => true
directly: 50..80 0..99 => false
directly: 60..100 10..20 => false
named: 7 => true
named: 8 => true
named: 9 => false 0..49 30..99
named: 5 => false
children:  => named 7 8
// parts and weights
part: L => ( ^7 |1:30| >9 ) 0..49 0..99
part: RR => ( ^7 |0:80| >9 ) 50..99 60..99
part: RRL => ^7 50..79 60..99
part: RRLL => none
part: LRR => none
holed: . => >4
holed: L => ( >4 |0:50| ( ^8 |1:60| ( ^7 |0:80| >9 ) ) )
holed: LR => ( ( ^7 |1:30| >4 ) |0:50| ( ^8 |1:60| ( ^7 |0:80| >9 ) ) )
holed: RRL => ( ( ^7 |1:30| >9 ) |0:50| ( ^8 |1:60| ( >4 |0:80| >9 ) ) )
weight: 0 - => 1
weight: 0 1=a => 1
weight: 0 1=a,3=b,5=c => 3
weight: 1 ( ( ^7 |1:30| >9 ) |0:50| ( ^8 |1:60| ( ^7 |0:80| >9 ) ) ) => 5
";
