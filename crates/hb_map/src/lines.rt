//! The lines of a map, each put to a sink from a buffer on the stack.
ghost use Rattle.std.specs.Prelude.{◌≡◌, ◌+◌, ◌*◌, ◌<◌, ◌≤◌, ◌^◌, ◌++◌, length, decimal, flat_map};
ghost use Rattle.hb_frag.specs.Leaves.{IsWellCut, leaves_of, weight_of};
ghost use Rattle.hb_outside.specs.Calls.{Puts};
ghost use Rattle.hb_map.specs.Map.{corners_text, head_text, leaf_text, page_head, page_text, placed_text};
ghost use Rattle.hb_map.specs.Mapping.{MayBePrinted};

use hb_frag::{Frag, Leaf, LivePage, Node, Page};
use hb_ops::Meta;
use hb_outside::{Failed, Sink};
use hb_space::Area;
use hb_text::LineBuffer;

// What a line has room for.
const ROOM: usize = 200;

/// Adds words and a number to a line.
fn add_count(line: &mut LineBuffer, words: &[u8], count: u64)
    requires { length line.old.bytes.items + length words.now + 20 ≤ ROOM }
    ensures added { line.new.bytes.items ≡ line.old.bytes.items ++ words.now ++ decimal count }
    ensures short { length line.new.bytes.items ≤ length line.old.bytes.items + length words.now + 20 }
{
    line.add(words);
    line.add_number(count);
}

/// Puts the line of the file.
pub(crate) fn put_head<K: Sink>(sink: &mut K, meta: &Meta) -> Result<(), Failed>
    requires { meta.now.live ≤ meta.now.pages }
    ensures { Puts (head_text meta.now) result (K.model sink.old) (K.model sink.new) }
{
    let mut line = LineBuffer::new();
    add_count(&mut line, b"height ", u64::from(meta.height));
    add_count(&mut line, b" root ", u64::from(meta.root));
    add_count(&mut line, b" pages ", u64::from(meta.live));
    add_count(&mut line, b" free ", u64::from(meta.pages - meta.live));
    line.add(b"\n");
    sink.put(line.as_slice())
}

/// Puts the line of a page of this number that so many pages name, and those of its leaves. A free page has none.
pub(crate) fn put_page<K: Sink>(
    sink: &mut K,
    id: u32,
    parents: u32,
    page: &Page,
) -> Result<(), Failed>
    requires { MayBePrinted page.now }
    ensures { Puts (page_text id parents page.now) result (K.model sink.old) (K.model sink.new) }
{
    match page {
        Page::Live(page) => put_live(sink, id, parents, page),
        Page::Free { .. } => Ok(()),
    }
}

/// Puts the lines of a page in use.
fn put_live<K: Sink>(sink: &mut K, id: u32, parents: u32, page: &LivePage) -> Result<(), Failed>
    requires { MayBePrinted (Page.Live page.now) }
    ensures { Puts (page_text id parents (Page.Live page.now)) result (K.model sink.old) (K.model sink.new) }
{
    put_page_head(sink, id, parents, page)?;
    put_leaves(sink, &page.frag, page.area.copy())
}

/// Puts the line of a page in use.
fn put_page_head<K: Sink>(
    sink: &mut K,
    id: u32,
    parents: u32,
    page: &LivePage,
) -> Result<(), Failed>
    requires { weight_of page.now.frag < 2 ^ 32 }
    ensures { Puts (page_head id parents page.now) result (K.model sink.old) (K.model sink.new) }
{
    let mut line = LineBuffer::new();
    add_count(&mut line, b"page ", u64::from(id));
    add_count(&mut line, b" level ", u64::from(page.level));
    add_count(&mut line, b" weight ", u64::from(page.weight()));
    add_count(&mut line, b" parents ", u64::from(parents));
    line.add(b"\n");
    sink.put(line.as_slice())
}

/// Puts the lines of the leaves of a page's inside that has this box, from the left.
fn put_leaves<K: Sink>(sink: &mut K, frag: &Frag, area: Area) -> Result<(), Failed>
    requires { IsWellCut frag.now area }
    ensures { Puts (flat_map placed_text (leaves_of frag.now area)) result (K.model sink.old) (K.model sink.new) }
{
    match &frag.node {
        Node::Tip(leaf) => put_leaf(sink, leaf, &area),
        Node::Cut {
            axis,
            value,
            left,
            right,
        } => {
            let (below, from) = area.cut(*axis, *value);
            put_leaves(sink, left, below)?;
            put_leaves(sink, right, from)
        }
    }
}

/// Puts the line of a leaf that has this box.
fn put_leaf<K: Sink>(sink: &mut K, leaf: &Leaf, area: &Area) -> Result<(), Failed>
    ensures { Puts (placed_text (record { leaf = leaf.now; area = area.now })) result (K.model sink.old) (K.model sink.new) }
{
    let mut line = LineBuffer::new();
    add_leaf(&mut line, leaf);
    add_corners(&mut line, area.lo().values(), area.hi().values());
    line.add(b"\n");
    sink.put(line.as_slice())
}

/// Adds what a leaf has.
fn add_leaf(line: &mut LineBuffer, leaf: &Leaf)
    requires { length line.old.bytes.items + 28 ≤ ROOM }
    ensures added { line.new.bytes.items ≡ line.old.bytes.items ++ leaf_text leaf.now }
    ensures short { length line.new.bytes.items ≤ length line.old.bytes.items + 28 }
{
    match leaf {
        Leaf::Records(records) => add_count(line, b"records ", records.as_slice().len() as u64),
        Leaf::Child(page) => add_count(line, b"child ", u64::from(*page)),
        Leaf::Sibling(page) => add_count(line, b"hole ", u64::from(*page)),
    }
}

/// Adds for each attribute the lower value of a box and the upper one.
fn add_corners(line: &mut LineBuffer, lo: &[u64], hi: &[u64])
    requires same { length lo.now ≡ length hi.now }
    requires room { length line.old.bytes.items + 42 * length lo.now ≤ ROOM }
    ensures added { line.new.bytes.items ≡ line.old.bytes.items ++ corners_text lo.now hi.now }
    ensures short { length line.new.bytes.items ≤ length line.old.bytes.items + 42 * length lo.now }
{
    for (low, high) in lo.iter().zip(hi) {
        line.add_word(*low);
        line.add_word(*high);
    }
}
