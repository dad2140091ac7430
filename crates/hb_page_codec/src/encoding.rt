//! Pages to bytes.
ghost use Rattle.std.specs.Prelude.{◌≡◌, ◌+◌, ◌-◌, ◌<◌, ◌≤◌, ◌^◌, ◌++◌, ◌∷◌, [], length, take, replicate, flat_map};
ghost use Rattle.hb_lemmas.specs.Numbers.{big_endian};
ghost use Rattle.hb_frag.specs.Grammar.{point_bytes, record_bytes, leaf_bytes, tree_bytes, page_fields, FitsPage, HasSpelling, SpellsPage};
ghost use Rattle.hb_frag.specs.Nodes.{tree_of};
ghost use Rattle.hb_page_codec.specs.Writing.{Wrote, IsCountable, AreCountable};

use hb_frag::{Frag, Leaf, Node, Page};
use hb_outside::{give_u16, give_u32, give_u64};
use hb_space::form::PAGE;
use hb_space::{Body, Point, Record};

/// Writes a byte at a place, and gives the place behind it.
fn put_u8(into: &mut [u8], at: usize, byte: u8) -> usize
    requires { at + 1 ≤ length into.old }
    ensures { Wrote into.old at (byte ∷ []) into.new result }
{
    into[at] = byte;
    at + 1
}

/// Writes a number of two bytes at a place, and gives the place behind it.
fn put_u16(into: &mut [u8], at: usize, n: u16) -> usize
    requires { at + 2 ≤ length into.old }
    ensures { Wrote into.old at (big_endian 2 n) into.new result }
{
    give_u16(into, at, n);
    at + 2
}

/// Writes a number of four bytes at a place, and gives the place behind it.
fn put_u32(into: &mut [u8], at: usize, n: u32) -> usize
    requires { at + 4 ≤ length into.old }
    ensures { Wrote into.old at (big_endian 4 n) into.new result }
{
    give_u32(into, at, n);
    at + 4
}

/// Writes a number of eight bytes at a place, and gives the place behind it.
fn put_u64(into: &mut [u8], at: usize, n: u64) -> usize
    requires { at + 8 ≤ length into.old }
    ensures { Wrote into.old at (big_endian 8 n) into.new result }
{
    give_u64(into, at, n);
    at + 8
}

/// Writes bytes at a place, and gives the place behind them.
fn put_bytes(into: &mut [u8], at: usize, bytes: &[u8]) -> usize
    requires { at + length bytes.now ≤ length into.old }
    ensures { Wrote into.old at bytes.now into.new result }
{
    let end = at + bytes.len();
    into[at..end].copy_from_slice(bytes);
    end
}

/// Writes a point at a place, and gives the place behind it.
fn put_point(into: &mut [u8], at: usize, point: &Point) -> usize
    requires { at + length (point_bytes point.now) ≤ length into.old }
    ensures { Wrote into.old at (point_bytes point.now) into.new result }
{
    let mut end = at;
    for value in point.values() {
        end = put_u64(into, end, *value);
    }
    end
}

/// Writes a record at a place, and gives the place behind it.
#[tactic(auto, using(crate::proofs::Writes::length_big_endian))]
pub fn put_record(into: &mut [u8], at: usize, key: &Point, body: &Body) -> usize
    requires { at + length (record_bytes (record { key = key.now; body = body.now })) ≤ length into.old }
    ensures { Wrote into.old at (record_bytes (record { key = key.now; body = body.now })) into.new result }
{
    let body = body.bytes();
    let end = put_point(into, at, key);
    let end = put_u8(into, end, body.len() as u8);
    put_bytes(into, end, body)
}

/// Writes records at a place, and gives the place behind them.
fn put_records(into: &mut [u8], at: usize, records: &[Record]) -> usize
    requires { at + length (flat_map record_bytes records.now) ≤ length into.old }
    ensures { Wrote into.old at (flat_map record_bytes records.now) into.new result }
{
    let mut end = at;
    for entry in records {
        end = put_record(into, end, &entry.key, &entry.body);
    }
    end
}

/// Writes a leaf at a place, and gives the place behind it.
#[tactic(auto, using(crate::proofs::Writes::length_big_endian))]
fn put_leaf(into: &mut [u8], at: usize, leaf: &Leaf) -> usize
    requires count { IsCountable leaf.now }
    requires room { at + length (leaf_bytes leaf.now) ≤ length into.old }
    ensures { Wrote into.old at (leaf_bytes leaf.now) into.new result }
{
    match leaf {
        Leaf::Records(records) => {
            let records = records.as_slice();
            let end = put_u8(into, at, 1);
            let end = put_u16(into, end, records.len() as u16);
            put_records(into, end, records)
        }
        Leaf::Child(page) => {
            let end = put_u8(into, at, 2);
            put_u32(into, end, *page)
        }
        Leaf::Sibling(page) => {
            let end = put_u8(into, at, 3);
            put_u32(into, end, *page)
        }
    }
}

/// Writes a root, with what lies below it, at a place, and gives the place behind it.
#[cycle(put)]
#[tactic(auto, using(crate::proofs::Writes::length_big_endian))]
fn put_node(into: &mut [u8], at: usize, node: &Node) -> usize
    requires count { AreCountable (tree_of node.now) }
    requires room { at + length (tree_bytes (tree_of node.now)) ≤ length into.old }
    ensures { Wrote into.old at (tree_bytes (tree_of node.now)) into.new result }
{
    match node {
        Node::Tip(leaf) => put_leaf(into, at, leaf),
        Node::Cut {
            axis,
            value,
            left,
            right,
        } => {
            let end = put_u8(into, at, 0);
            let end = put_u8(into, end, *axis);
            let end = put_u64(into, end, *value);
            let end = put_fragment(into, end, left);
            put_fragment(into, end, right)
        }
    }
}

/// Writes a fragment at a place, and gives the place behind it.
#[cycle(put)]
fn put_fragment(into: &mut [u8], at: usize, frag: &Frag) -> usize
    requires count { AreCountable frag.now }
    requires room { at + length (tree_bytes frag.now) ≤ length into.old }
    ensures { Wrote into.old at (tree_bytes frag.now) into.new result }
{
    put_node(into, at, &frag.node)
}

/// Writes the fields of a page from the first byte on, and gives the place behind them.
#[tactic(auto, using(crate::proofs::Writes::length_big_endian))]
fn put_fields(into: &mut [u8], page: &Page) -> usize
    requires fits { FitsPage page.now }
    requires room { length (page_fields page.now) ≤ length into.old }
    ensures { Wrote into.old 0 (page_fields page.now) into.new result }
{
    match page {
        Page::Free { next } => {
            let end = put_u8(into, 0, 2);
            put_u32(into, end, *next)
        }
        Page::Live(page) => {
            let end = put_u8(into, 0, 1);
            let end = put_u8(into, end, page.level);
            let end = put_u8(into, end, page.area.lo().attributes());
            let end = put_u8(into, end, 0);
            let end = put_point(into, end, page.area.lo());
            let end = put_point(into, end, page.area.hi());
            put_fragment(into, end, &page.frag)
        }
    }
}

/// Clears all from a place on.
fn clear(into: &mut [u8], at: usize)
    requires { at ≤ length into.old }
    ensures { into.new ≡ take at into.old ++ replicate (length into.old - at) 0 }
{
    into[at..].fill(0);
}

/// Writes the one spelling of a page, all `PAGE` bytes of it. It takes no memory.
pub fn encode(page: &Page, into: &mut [u8; PAGE])
    // The page has a spelling.
    requires { HasSpelling page.now }
    // The bytes are that spelling.
    ensures { SpellsPage into.new page.now }
{
    let end = put_fields(into, page);
    clear(into, end);
}
