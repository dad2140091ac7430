//! A program of the gate that reaches the limits of pages, of their parts and of payloads, with ample memory.
//!
//! Where memory is refused, a call may give up, and no contract tells that apart from a call that gives up by its data. What a
//! call answers where it doesn't give up is in its contract. So this program has all the memory that it wants, goes as far as the
//! limits allow, and asks only whether each call answered: each limit is a line of its output, with `reached` behind the colon,
//! or else `missed`. A `None` in it is a call that gave up, or something that isn't what a call may be given.
#![tactic(auto)]

mod holes;
mod indexes;
mod leaves;
mod pages;
mod paths;
mod payloads;
mod shapes;

use std::alloc::Global;
use std::io;

/// The limits.
const LIMITS: [&str; 12] = [
    "a page of 256 children",
    "a leaf of 48 records",
    "a page of 313 cuts, each on a side of the one before",
    "pages of 6 to 256 children, split, posted in and joined",
    "files of 2 to 12 levels",
    "boxes with a hole, carved by 0 to 8 cuts",
    "leaves of 0 to 48 records that become one",
    "records that come and go behind 0 to 47 cuts",
    "parts that leave by 0 to 47 cuts",
    "parts of stars, cut on each attribute",
    "payloads of 1 to 100 groups of each length",
    "log areas of 67108864 bytes, full of frames",
];

/// Goes to the limit at a place of these.
fn go_to(alloc: Global, place: usize) -> Option<()> {
    match place {
        0 => pages::many_children(alloc),
        1 => leaves::many_records(alloc),
        2 => paths::all_lengths(alloc),
        3 => indexes::all_counts(alloc),
        4 => indexes::all_levels(alloc),
        5 => holes::all_holes(alloc),
        6 => leaves::all_joined(alloc),
        7 => leaves::all_places(alloc),
        8 => leaves::all_parts(alloc),
        9 => leaves::all_stars(alloc),
        10 => payloads::all_groups(alloc),
        _ => payloads::all_frames(alloc),
    }
}

fn main(rt: HostRuntime) -> io::Result<()> {
    for (place, limit) in LIMITS.iter().enumerate() {
        let word = match go_to(rt.alloc(), place) {
            Some(()) => "reached",
            None => "missed",
        };
        println!(rt; "{limit}: {word}")?;
    }
    Ok(())
}
