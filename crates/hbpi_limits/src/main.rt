//! A program of the gate that reaches the limits, with ample memory.
//!
//! Where memory is refused, a call may give up, and no contract tells that apart from a call that gives up by its data: at
//! a page's 41st record, at the thousandth line. This program has all the memory that it wants, and goes as far as the
//! limits allow. Each limit is a line of its output, and behind the colon stands `reached`, or else what came otherwise. What
//! has to come is worked out here, by the rules of the command language and of the bytes of a page.
#![tactic(auto)]

mod asks;
mod audits;
mod calls;
mod fields;
mod found;
mod free_pages;
mod generated;
mod great;
mod heights;
mod missed;
mod searches;
mod sizes;
mod spaces;
mod trees;

use crate::missed::Missed;
use std::alloc::Global;
use std::io;

/// What has limits.
#[derive(Clone, Copy)]
enum Limit {
    Spaces,
    Lines,
    Generated,
    Found,
    Heights,
    TidiedHeights,
    Pages,
    FreePages,
    Great,
    Rules,
    Asks,
}

/// Each limit, and what its line says.
const LIMITS: [(&str, Limit); 11] = [
    (
        "files of three levels that are posted, and sets, of one to four attributes",
        Limit::Spaces,
    ),
    (
        "1000000 lines, and 500000 records in one reply",
        Limit::Lines,
    ),
    (
        "1000000 lines of the generator, of one to four attributes",
        Limit::Generated,
    ),
    (
        "13000 records in a file of 3000 pages and more, and in one reply",
        Limit::Found,
    ),
    (
        "one to twelve levels, and one more where there may be",
        Limit::Heights,
    ),
    ("one to twelve levels that are tidied", Limit::TidiedHeights),
    (
        "65, 1000 and 65536 pages, changed, replayed and found in their places",
        Limit::Pages,
    ),
    (
        "300 splits, with 100 pages of a free chain and 200 new ones",
        Limit::FreePages,
    ),
    (
        "4865 pages, checked, tidied, mapped and searched whole",
        Limit::Great,
    ),
    (
        "each rule that the last of 1000 pages may break",
        Limit::Rules,
    ),
    ("the pages of a sound file, once or twice", Limit::Asks),
];

/// Goes to a limit.
fn reach(alloc: Global, limit: Limit) -> Result<(), Missed> {
    match limit {
        Limit::Spaces => spaces::all_spaces(alloc),
        Limit::Lines => searches::many_lines(alloc),
        Limit::Generated => generated::longest_texts(alloc),
        Limit::Found => found::many_found(alloc),
        Limit::Heights => heights::each_height(alloc),
        Limit::TidiedHeights => heights::each_height_tidied(alloc),
        Limit::Pages => sizes::many_pages(alloc),
        Limit::FreePages => free_pages::all_are_taken(alloc),
        Limit::Great => great::all_are_seen(alloc),
        Limit::Rules => audits::each_rule(alloc),
        Limit::Asks => asks::pages_are_asked(alloc),
    }
}

/// Says whether a limit was reached.
fn tell(rt: &impl Print, name: &str, reached: Result<(), Missed>) -> io::Result<()> {
    match reached {
        Ok(()) => println!(rt; "{name}: reached"),
        Err(missed) => println!(rt; "{name}: {missed:?}"),
    }
}

fn main(rt: HostRuntime) -> io::Result<()> {
    for &(name, limit) in &LIMITS {
        tell(&rt, name, reach(rt.alloc(), limit))?;
    }
    Ok(())
}
