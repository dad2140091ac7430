//! The tests of hbpi: rows of text, which the program reads from its standard input.
//!
//! A row asks a question, and behind ` => ` it has the answer that was worked out by hand. Each question runs the program over a
//! disk in memory, or looks at what such a run left. For each section the output says how many rows were right, and for each row
//! that was wrong what came in the place of its answer. The README says how rows are written.
#![tactic(auto)]

mod bench;
mod crashes;
mod files;
mod gates;
mod hex;
mod looks;
mod rows;
mod runs;
mod spelling;
mod tallies;

use crate::bench::{Bench, answer};
use crate::rows::{Row, row_of};
use crate::spelling::spelled;
use std::alloc::Global;
use std::io::{self, BufRead, BufReader};
use std::sync::Wait;
use std::thread::Threads;

/// How many rows a section had so far, and how many of them were right.
#[derive(Drop)]
struct Counts {
    rows: u32,
    right: u32,
}

/// What came of a row, where that isn't its answer.
fn otherwise(alloc: Global, row: &Row, came: Option<String>) -> Option<String> {
    let wanted = spelled(alloc, row.want);
    match (wanted, came) {
        (Some(wanted), Some(came)) => {
            if rows::is_answer(wanted.as_str(), came.as_str()) {
                None
            } else {
                Some(came)
            }
        }
        _ => String::from_str(alloc, "not done").ok(),
    }
}

/// Says what came of a row, where that isn't its answer.
fn judge(rt: &impl Print, counts: &mut Counts, row: &Row, other: Option<String>) -> io::Result<()> {
    counts.rows = counts.rows.wrapping_add(1);
    match other {
        Some(came) => println!(rt; "WRONG {} {} | {}: {came}", row.verb, row.words, row.text),
        None => {
            counts.right = counts.right.wrapping_add(1);
            Ok(())
        }
    }
}

/// Ends a section.
fn end(rt: &impl Print, counts: &mut Counts) -> io::Result<()> {
    if counts.rows > 0 {
        println!(rt; "{} of {} right", counts.right, counts.rows)?;
    }
    counts.rows = 0;
    counts.right = 0;
    Ok(())
}

/// Takes a line: a section's name, a comment, or a row.
fn take<R: Threads + Wait + Sync + Print>(
    rt: &R,
    bench: &mut Bench,
    counts: &mut Counts,
    line: &str,
) -> io::Result<()> {
    if line.is_empty() || line.starts_with('#') {
        return Ok(());
    }
    if line.starts_with("== ") {
        end(rt, counts)?;
        return println!(rt; "{line}");
    }
    let row = row_of(line);
    let came = answer(rt, bench, &row);
    let other = otherwise(bench.alloc, &row, came);
    judge(rt, counts, &row, other)
}

fn main(rt: HostRuntime) -> io::Result<()> {
    let alloc = rt.alloc();
    let mut bench = Bench::new(alloc);
    let mut counts = Counts { rows: 0, right: 0 };
    for line in BufReader::new(alloc, rt.reader())?.lines(alloc) {
        take(&rt, &mut bench, &mut counts, line?.as_str())?;
    }
    end(&rt, &mut counts)
}
