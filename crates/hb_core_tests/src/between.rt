//! Jobs that wait, a page that is copied, and a flush that has nothing to do. Bytes and counts were worked out by hand.
ghost use Rattle.std.specs.Prelude.{◌≡◌, length};
ghost use Rattle.hb_core.specs.CoreSeen.{core_seen, core_disk};
ghost use Rattle.hb_core_tests.specs.Begun.{IsBegunCore};

use crate::cores::{begun, zeros};
use hb_activity::{Job, JobKind};
use hb_core::{Core, TidyCounts};
use hb_disk::Device;
use hb_page_codec::encode;
use hb_space::Point;
use hb_space::form::PAGE;
use hb_store::Flushed;
use std::alloc::Global;

/// The fields of the page of a new file of one attribute: level 0, the whole space, and no record.
const EMPTY: [u8; 23] = [
    1, 0, 1, 0, 0, 0, 0, 0, 0, 0, 0, 0, 255, 255, 255, 255, 255, 255, 255, 255, 1, 0, 0,
];

/// A job to post at a point.
fn posting(point: u64) -> Job
    ensures level { result.level ≡ 1 }
    ensures point { length result.point ≡ 1 }
{
    Job {
        kind: JobKind::Post,
        level: 1,
        point: Point::new(&[point]),
    }
}

/// The bytes of a copy of page 1.
fn first_bytes<D: Device>(core: &mut Core<D>) -> Option<[u8; PAGE]>
    requires { IsBegunCore (D.model (core_disk core.old)) (core_seen core.old) }
{
    match core.page_copy(1) {
        Ok(page) => {
            let mut bytes = [0; PAGE];
            encode(&page, &mut bytes);
            Some(bytes)
        }
        Err(_) => None,
    }
}

/// Lets jobs wait at the points from 0 on, as many, and says how many it took.
fn adds<D: Device>(core: &mut Core<D>, count: u64) -> u64
    requires { (core_seen core.old).store.meta.k ≡ 1 }
    ensures { (core_seen core.new).store.meta.k ≡ 1 }
{
    let mut added: u64 = 0;
    for point in 0..count {
        if core.add_job(posting(point)) {
            added = added.saturating_add(1);
        }
    }
    added
}

/// What the fields and the bytes behind them are of a copy of page 1 of a new file, and whether the core counts a step for it.
fn copies<D: Device + Drop>(alloc: Global, disk: D) -> Option<(bool, bool, u64)> {
    let mut core = begun(alloc, disk, "")?;
    let bytes = first_bytes(&mut core)?;
    let (fields, rest) = bytes.split_at(EMPTY.len());
    Some((
        fields == EMPTY.as_slice(),
        rest.iter().all(|byte| *byte == 0),
        core.taken(),
    ))
}

#[test]
fn a_copy_is_the_page_of_the_file(rt: HostRuntime) {
    assert!(rt;
        copies(rt.alloc(), zeros(rt.alloc()).expect(&rt, "memory")) == Some((true, true, 0)),
        "page 1"
    );
}

/// How many jobs were taken where one is added twice, and how many wait of each kind then.
fn twice<D: Device + Drop>(alloc: Global, disk: D) -> Option<(bool, bool, u32, u32)> {
    let mut core = begun(alloc, disk, "")?;
    let first = core.add_job(posting(5));
    let second = core.add_job(posting(5));
    Some((
        first,
        second,
        core.jobs(JobKind::Post),
        core.jobs(JobKind::Merge),
    ))
}

#[test]
fn a_job_waits_once(rt: HostRuntime) {
    assert!(rt;
        twice(rt.alloc(), zeros(rt.alloc()).expect(&rt, "memory")) == Some((true, true, 1, 0)),
        "twice"
    );
}

/// How many of so many jobs are taken, and how many wait then. One that waits already is taken again.
fn many<D: Device + Drop>(alloc: Global, disk: D, count: u64) -> Option<(u64, u32, bool)> {
    let mut core = begun(alloc, disk, "")?;
    let added = adds(&mut core, count);
    Some((added, core.jobs(JobKind::Post), core.add_job(posting(0))))
}

/// The same over a disk of zeros.
fn tried(alloc: Global, count: u64) -> Option<(u64, u32, bool)> {
    many(alloc, zeros(alloc)?, count)
}

#[test]
fn at_most_256_jobs_wait(rt: HostRuntime) {
    assert!(rt; tried(rt.alloc(), 255) == Some((255, 255, true)), "255");
    assert!(rt; tried(rt.alloc(), 256) == Some((256, 256, true)), "256");
    assert!(rt; tried(rt.alloc(), 300) == Some((256, 256, true)), "300");
}

/// Whether a flush of a core that has nothing to flush says so, how many steps that is, and how many operations.
fn flushes<D: Device + Drop>(alloc: Global, disk: D) -> Option<(bool, u64, TidyCounts)> {
    let mut core = begun(alloc, disk, "")?;
    let nothing = matches!(core.help(), Ok(Flushed::Nothing));
    Some((nothing, core.taken(), core.done()))
}

/// No operation.
const NONE: TidyCounts = TidyCounts {
    grown: 0,
    posted: 0,
    split: 0,
    merged: 0,
};

#[test]
fn a_flush_is_a_step_that_may_do_nothing(rt: HostRuntime) {
    assert!(rt;
        flushes(rt.alloc(), zeros(rt.alloc()).expect(&rt, "memory")) == Some((true, 1, NONE)),
        "a flush"
    );
}
