//! Boxes carved in one to four attributes, and leaves joined.

ghost use Rattle.std.specs.Prelude.{◌≡◌};

use crate::drawn::say_frag;
use crate::replies::Reply;
use crate::spelled::{area_of, frag_of};
use hb_frag::{Frag, Leaf, Node, carve, carved_weight, normal};
use hb_space::Area;

fn say_carved(reply: &mut Reply, leaf: &Area, inner: &Area) {
    if leaf.lo().attributes() != inner.lo().attributes() || !leaf.meets(inner) {
        return reply.need(false);
    }
    reply.number(u64::from(carved_weight(leaf, inner)));
    reply.say(" ");
    match carve(reply.alloc, leaf, inner, 1, 2) {
        Ok(frag) => say_frag(reply, &frag),
        Err(_) => reply.need(false),
    }
}

/// What a leaf of child 1 weighs, and then is, once child 2 is named over what the leaf's box has in
/// common with another one, from `BOX by BOX`.
pub(crate) fn carved(reply: &mut Reply, question: &str) {
    let (leaf, inner) = reply.parts(question, " by ");
    let leaf = area_of(reply, leaf);
    let inner = area_of(reply, inner);
    say_carved(reply, &leaf, &inner);
}

/// A tree without cuts that part nothing.
pub(crate) fn joined(reply: &mut Reply, question: &str) {
    let frag = frag_of(reply, question);
    match normal(reply.alloc, frag) {
        Ok(frag) => say_frag(reply, &frag),
        Err(_) => reply.need(false),
    }
}

pub(crate) const ROWS: &str = "
// one attribute: inside, over the upper end, over the lower one
carve: 0..99 by 40..59 => 3 ( ^1 |0:40| ( ^2 |0:60| ^1 ) )
carve: 0..99 by 40..200 => 2 ( ^1 |0:40| ^2 )
carve: 10..99 by 0..39 => 2 ( ^2 |0:40| ^1 )
// the same, around it, all but the greatest value
carve: 10..99 by 10..99 => 1 ^2
carve: 10..20 by 0..99 => 1 ^2
carve: 0.. by 0..18446744073709551614 => 2 ( ^2 |0:18446744073709551615| ^1 )
// two attributes: inside, over a corner
carve: 0..99 0..99 by 40..59 30..69 => 5 ( ^1 |0:40| ( ( ^1 |1:30| ( ^2 |1:70| ^1 ) ) |0:60| ^1 ) )
carve: 0..99 0..99 by 50..150 60..160 => 3 ( ^1 |0:50| ( ^1 |1:60| ^2 ) )
// over one edge, along another one, around it
carve: 10..20 10..20 by 0..30 15..30 => 2 ( ^1 |1:15| ^2 )
carve: 10..20 10..20 by 10..20 0..12 => 2 ( ^2 |1:13| ^1 )
carve: 10..20 10..20 by 0..30 0..30 => 1 ^2
// three: inside, along an edge of the box, and beside a side of it
carve: 0..9 0..9 0..9 by 4..5 4..5 4..5 => 7 ( ^1 |0:4| ( ( ^1 |1:4| ( ( ^1 |2:4| ( ^2 |2:6| ^1 ) ) |1:6| ^1 ) ) |0:6| ^1 ) )
carve: 0..9 0..9 0..9 by 0..1 0..9 8..9 => 3 ( ( ^1 |2:8| ^2 ) |0:2| ^1 )
carve: 0..9 0..9 0..9 by 0..9 0..3 0..9 => 2 ( ^2 |1:4| ^1 )
// four: inside, at a corner, the same
carve: 0..9 0..9 0..9 0..9 by 4..5 4..5 4..5 4..5 => 9 ( ^1 |0:4| ( ( ^1 |1:4| ( ( ^1 |2:4| ( ( ^1 |3:4| ( ^2 |3:6| ^1 ) ) |2:6| ^1 ) ) |1:6| ^1 ) ) |0:6| ^1 ) )
carve: 0..9 0..9 0..9 0..9 by 9..9 9..9 9..9 9..9 => 5 ( ^1 |0:9| ( ^1 |1:9| ( ^1 |2:9| ( ^1 |3:9| ^2 ) ) ) )
carve: 0..9 0..9 0..9 0..9 by 0..9 0..9 0..9 0..9 => 1 ^2
// leaves joined
normal: ( 3=a,5=b |0:1| 1=c,4=d ) => 1=c,3=a,4=d,5=b
normal: ( - |0:1| - ) => -
normal: ( ( 5=a |0:1| 3=b ) |0:1| 1=c ) => 1=c,3=b,5=a
normal: ( ^7 |0:1| ^7 ) => ^7
normal: ( ( ^7 |0:1| ^7 ) |0:1| ^7 ) => ^7
normal: ( ^7 |0:1| ^8 ) => ( ^7 |0:1| ^8 )
normal: ( ( ^7 |0:1| ^7 ) |0:1| ^8 ) => ( ^7 |0:1| ^8 )
normal: ( ( ^8 |0:1| ^7 ) |0:1| ^7 ) => ( ( ^8 |0:1| ^7 ) |0:1| ^7 )
normal: ( >9 |0:1| >9 ) => ( >9 |0:1| >9 )
normal: ( ^9 |0:1| >9 ) => ( ^9 |0:1| >9 )
normal: ( ( 5=a |0:1| >9 ) |0:1| 3=b ) => ( ( 5=a |0:1| >9 ) |0:1| 3=b )
chain: 100 => true
";

// Says a tree of so many cuts, each with a record on its left side whose point is greater than all behind it.
fn say_chain(reply: &mut Reply, last: u64) {
    for value in (1..=last).rev() {
        reply.marked("( ", value);
        reply.say("=body |0:1| ");
    }
    reply.say("0=body");
    for _ in 0..last {
        reply.say(" )");
    }
}

// Whether the tree is one leaf of records, of the points from 0 to the last one in their order.
fn is_in_order(frag: &Frag, last: u64) -> bool {
    let Node::Tip(Leaf::Records(records)) = &frag.node else {
        return false;
    };
    let records = records.as_slice();
    for (at, record) in records.iter().enumerate() {
        if record.key.values() != [at as u64].as_slice() {
            return false;
        }
    }
    records.len() as u64 == last.saturating_add(1)
}

/// Whether such a chain becomes one leaf: from `LAST`.
pub(crate) fn chained(reply: &mut Reply, question: &str) {
    let last = reply.read(question);
    let mut tree = Reply::new(reply.alloc);
    say_chain(&mut tree, last);
    reply.need_whole(&tree);
    let frag = frag_of(reply, tree.text());
    match &normal(reply.alloc, frag) {
        Ok(frag) => reply.truth(is_in_order(frag, last)),
        Err(_) => reply.need(false),
    }
}
