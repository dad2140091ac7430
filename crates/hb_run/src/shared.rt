//! What the threads share.
ghost use Rattle.std.specs.Prelude.{◌≡◌};
ghost use Rattle.hb_run.specs.Waiting.{still_waits};

use crate::begun::Begun;
use crate::courses::Course;
use crate::turns::Pause;
use hb_disk::Disk;
use hb_outside::Sink;
use std::marker::{Model, PhantomData};

/// What the threads share behind one lock: a run that began as the name `N` says. Whenever the lock is free, steps of the core lead from
/// that beginning to what it shows, and the text of their answers was put.
///
/// Clauses see what those who wait look at, and what each session does next. All that a turn does to it `Course::take_turn` says.
#[derive(Drop)]
pub(crate) struct Shared<N: Begun, D: Disk, K: Sink> {
    pub(crate) course: Course<D, K>,
    pub(crate) name: PhantomData<N>,
}

impl<N: Begun, D: Disk, K: Sink> Model for Shared<N, D, K> {
    ghost use Rattle.hb_run.specs.CourseSeen.{course_seen};
    ghost use Rattle.hb_run.specs.Courses.{KeepsRun};
    ghost use Rattle.hb_run.specs.UnderLock.{Board, board_of};

    ghost Value = { Board };

    ghost view = { λ s. board_of s.course.roster.moves s.course.roster.coming s.course.roster.nexts (course_seen D.model K.model s.course) };

    ghost invariant = { λ s. KeepsRun N.beginning (course_seen D.model K.model s.course) };
}

impl<N: Begun, D: Disk, K: Sink> Shared<N, D, K> {
    /// Whether what is waited for hasn't come.
    pub(crate) fn still_waits(&self, pause: &Pause) -> bool
        ensures { result ≡ still_waits pause.now self.now.signs }
    {
        self.course.still_waits(pause)
    }
}
