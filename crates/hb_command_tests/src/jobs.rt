//! In which order jobs wait, and how many.

use crate::rows::expect;
use crate::texts::Text;
use hb_activity::{Job, JobKind, Jobs};
use hb_space::Point;
use std::alloc::Global;

pub(crate) fn job(kind: JobKind, level: u32, value: u32) -> Job {
    Job {
        kind,
        level: level.min(255) as u8,
        point: Point::new(&[u64::from(value)]),
    }
}

// Adds jobs, as ` P1.50 M0.7`.
pub(crate) fn say_jobs(text: &mut Text, jobs: &[Job]) {
    for job in jobs {
        text.say(match job.kind {
            JobKind::Post => " P",
            JobKind::Merge => " M",
        });
        text.number(u64::from(job.level));
        text.marked(".", job.point.values()[0]);
    }
}

// Whether the jobs that wait are these.
fn are(alloc: Global, jobs: &Jobs, want: &str) -> bool {
    let mut text = Text::new(alloc);
    say_jobs(&mut text, jobs.as_slice());
    text.is(want)
}

// Whether a job is added, or else taken; its kind, its level and its value, where level 9 stands for no job that is taken; and
// then the jobs that wait.
type Row = (bool, JobKind, u32, u32, &'static str);

const ROWS: [Row; 14] = [
    (true, JobKind::Post, 1, 50, " P1.50"),
    (true, JobKind::Merge, 1, 50, " P1.50 M1.50"),
    (true, JobKind::Post, 1, 50, " P1.50 M1.50"),
    (true, JobKind::Post, 2, 50, " P1.50 M1.50 P2.50"),
    (true, JobKind::Merge, 0, 7, " P1.50 M1.50 P2.50 M0.7"),
    (true, JobKind::Post, 1, 51, " P1.50 M1.50 P2.50 M0.7 P1.51"),
    (true, JobKind::Merge, 1, 50, " P1.50 M1.50 P2.50 M0.7 P1.51"),
    (false, JobKind::Merge, 1, 50, " P1.50 P2.50 M0.7 P1.51"),
    (false, JobKind::Post, 1, 50, " P2.50 M0.7 P1.51"),
    (false, JobKind::Post, 2, 50, " M0.7 P1.51"),
    (false, JobKind::Post, 1, 51, " M0.7"),
    (false, JobKind::Post, 9, 0, " M0.7"),
    (false, JobKind::Merge, 0, 7, ""),
    (false, JobKind::Merge, 9, 0, ""),
];

// Whether the job of a kind that is taken is of this level and value.
fn takes(jobs: &mut Jobs, kind: JobKind, level: u32, value: u32) -> bool {
    match jobs.take(kind) {
        Some(taken) => taken == job(kind, level, value),
        None => level == 9,
    }
}

// Whether the step can be taken, and these jobs wait then.
fn goes(alloc: Global, jobs: &mut Jobs, row: Row) -> bool {
    let (adds, kind, level, value, want) = row;
    let done = if adds {
        jobs.add(job(kind, level, value))
    } else {
        takes(jobs, kind, level, value)
    };
    done && are(alloc, jobs, want)
}

// Whether it is so of each row. `None` where memory was refused.
fn are_in_order(alloc: Global) -> Option<bool> {
    let mut jobs = Jobs::new(alloc).ok()?;
    for row in &ROWS {
        if !goes(alloc, &mut jobs, *row) {
            return Some(false);
        }
    }
    Some(true)
}

#[test]
fn jobs_in_order(rt: HostRuntime) {
    expect(&rt, 0, are_in_order(rt.alloc()) == Some(true));
}

// As many jobs as may wait.
fn most(alloc: Global) -> Option<Jobs> {
    let mut jobs = Jobs::new(alloc).ok()?;
    for value in 0..256 {
        jobs.add(job(JobKind::Post, 0, value));
    }
    Some(jobs)
}

// A kind and a value, and whether the job is added then, or else whether it is the next one that is taken; behind as many jobs as
// may wait.
const MORE: [(bool, JobKind, u32, bool); 5] = [
    (true, JobKind::Merge, 0, false),
    (true, JobKind::Post, 255, true),
    (false, JobKind::Post, 0, true),
    (true, JobKind::Post, 256, true),
    (true, JobKind::Post, 0, false),
];

// Whether it is so of each row, and how many jobs of each kind wait.
fn is_full(alloc: Global) -> Option<(bool, [usize; 2])> {
    let mut jobs = most(alloc)?;
    let mut is_so = true;
    for &(adds, kind, value, want) in &MORE {
        let done = if adds {
            jobs.add(job(kind, 0, value))
        } else {
            takes(&mut jobs, kind, 0, value)
        };
        is_so = is_so && done == want;
    }
    Some((
        is_so,
        [jobs.count(JobKind::Post), jobs.count(JobKind::Merge)],
    ))
}

#[test]
fn one_job_too_many(rt: HostRuntime) {
    expect(&rt, 0, is_full(rt.alloc()) == Some((true, [256, 0])));
}
