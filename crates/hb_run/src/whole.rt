//! A whole run, from its first turn to its end.
ghost use Rattle.std.specs.Prelude.{◌≡◌, ◌≢◌, ◌≤◌, [], length, vec_capacity};
ghost use Rattle.hb_core.specs.declared.endings.End.TheVariants as ends;
ghost use Rattle.hb_core.specs.CoreSeen.{core_seen, core_disk};
ghost use Rattle.hb_steps.specs.Machines.{Machine};
ghost use Rattle.hb_core.specs.Working.{MayStep};
ghost use Rattle.hb_run.specs.CourseSeen.{course_seen};
ghost use Rattle.hb_run.specs.Courses.{KeepsRun};
ghost use Rattle.hb_run.specs.Running.{RunsTo};

use crate::begun::Begun;
use crate::bells::Bells;
use crate::courses::Course;
use crate::gates::Gate;
use crate::holds::Hand;
use crate::shared::Shared;
use crate::threads::{take_turns, work_off};
use hb_core::Ran;
use hb_disk::Disk;
use hb_drive::end_run;
use hb_outside::Sink;
use std::marker::PhantomData;
use std::sync::Wait;
use std::thread::Threads;

/// Takes all turns of a run, puts what follows the replies, and says how the run ended. The name `N` is of its beginning. There has to be
/// room for the number of each line.
pub(crate) fn run_whole<
    R: Threads + Wait + Sync,
    N: Begun + Send + Sync,
    D: Disk + Send,
    K: Sink + Send,
    G: Gate + Sync,
>(
    rt: &R,
    course: Course<D, K>,
    gate: &G,
    bells: &Bells,
    sessions: Vec<Hand>,
    numbers: Vec<u32>,
) -> Ran<D, K>
    requires keeps { KeepsRun N.beginning (course_seen D.model K.model course) }
    requires none { numbers.items ≡ [] }
    requires room { length N.beginning.core.lines ≤ vec_capacity numbers }
    ensures begun { result.end ≢ ends.NoMemory }
    ensures runs { (m : Machine) → MayStep N.beginning.disk N.beginning.core m →
        RunsTo m result.answered.items N.beginning.disk (D.model (core_disk result.core)) (core_seen result.core) result.end N.beginning.sink (K.model result.sink) }
    ensures later { N.beginning.sink.faults ≤ (K.model result.sink).faults }
{
    let shared: Shared<N, D, K> = Shared {
        course,
        name: PhantomData,
    };
    let (shared, all) = take_turns(rt, shared, gate, bells, sessions);
    let over = work_off(rt, shared, all);
    let Course {
        core,
        sink,
        put,
        answered,
        left: _,
        roster: _,
    } = over;
    end_run(core, sink, put, answered, numbers)
}
