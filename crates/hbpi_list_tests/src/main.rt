//! The tests of hbpi whose output a plain list of records says: drawn schedules, all interleavings of two sessions, files of more pages
//! than memory has places, and logs that run full.
//!
//! Behind each case stands `right`, `wrong`, or `no answer` where memory was refused or an output is none that such a run may have.
#![tactic(auto)]

mod drawn;
mod full_logs;
mod grown_stops;
mod many_pages;
mod ordered;
mod races;
mod runs;

use std::alloc::Global;
use std::io;

/// A case.
#[derive(Clone, Copy)]
enum Case {
    Dry,
    Schedules,
    Comings,
    RacesForAPoint,
    RacesForAPage,
    GrowthIsStopped,
    GrowthFails,
    LargeFiles,
    SchedulesOfOne,
    SchedulesOfTwo,
    PagesAreWritten,
    PagesAreReadAgain,
    LogsRunFull,
    WritingIsStopped,
    WritingFails,
}

/// What each is called.
const CASES: [(&str, Case); 15] = [
    ("drawn texts for dry", Case::Dry),
    ("a hundred drawn schedules", Case::Schedules),
    ("a hundred in which points come and go", Case::Comings),
    ("all races for one point", Case::RacesForAPoint),
    ("all races for a full page", Case::RacesForAPage),
    ("a stop of a growing file", Case::GrowthIsStopped),
    ("a failing call of a growing file", Case::GrowthFails),
    ("files of more pages than frames", Case::LargeFiles),
    (
        "schedules over many pages of one attribute",
        Case::SchedulesOfOne,
    ),
    (
        "schedules over many pages of two attributes",
        Case::SchedulesOfTwo,
    ),
    ("pages that are written for frames", Case::PagesAreWritten),
    ("pages that are read again", Case::PagesAreReadAgain),
    ("a small log that runs full", Case::LogsRunFull),
    ("a stop as pages are written for it", Case::WritingIsStopped),
    (
        "a failing call as pages are written for it",
        Case::WritingFails,
    ),
];

/// Whether a case is right.
fn outcome(alloc: Global, case: Case) -> Option<bool> {
    match case {
        Case::Dry => drawn::dry_texts(alloc),
        Case::Schedules => drawn::schedules(alloc),
        Case::Comings => drawn::comings(alloc),
        Case::RacesForAPoint => races::for_a_point(alloc),
        Case::RacesForAPage => races::for_a_page(alloc),
        Case::GrowthIsStopped => grown_stops::growth_is_stopped(alloc),
        Case::GrowthFails => grown_stops::growth_fails(alloc),
        Case::LargeFiles => many_pages::large_files(alloc),
        Case::SchedulesOfOne => many_pages::schedules_of_one(alloc),
        Case::SchedulesOfTwo => many_pages::schedules_of_two(alloc),
        Case::PagesAreWritten => many_pages::pages_are_written(alloc),
        Case::PagesAreReadAgain => many_pages::pages_are_read_again(alloc),
        Case::LogsRunFull => full_logs::logs_run_full(alloc),
        Case::WritingIsStopped => full_logs::writing_is_stopped(alloc),
        Case::WritingFails => full_logs::writing_fails(alloc),
    }
}

/// What is said of it.
fn word_of(outcome: Option<bool>) -> &'static str {
    match outcome {
        Some(true) => "right",
        Some(false) => "wrong",
        None => "no answer",
    }
}

fn main(rt: HostRuntime) -> io::Result<()> {
    for &(name, case) in &CASES {
        println!(rt; "{name}: {}", word_of(outcome(rt.alloc(), case)))?;
    }
    Ok(())
}
