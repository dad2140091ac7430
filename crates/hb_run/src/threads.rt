//! The threads of a run: each session with a line has one, and so have who posts, who merges and who flushes.
ghost use Rattle.std.specs.Prelude.{◌≡◌, ◌&&◌, true, IfSome};
ghost use Rattle.hb_outside.specs.Memory.{next_count};
ghost use Rattle.hb_space.specs.Actors.{IsActor};
ghost use Rattle.hb_run.specs.CourseSeen.{course_seen};
ghost use Rattle.hb_run.specs.Courses.{KeepsRun};
ghost use Rattle.hb_run.specs.Ending.{AllHaveEnded, EachHasEnded, HasEnded, IsOverFor, IsSameCrew, actor_here, takes_none_here};
ghost use Rattle.hb_run.specs.Running.{TurnsAreOver};
ghost use Rattle.hb_run.specs.Waiting.{has_ended, takes_none};

use crate::begun::Begun;
use crate::bells::Bells;
use crate::courses::Course;
use crate::crews::{Crew, Ending, Thread, Workers, ended};
use crate::gates::{Gate, Place};
use crate::holds::{Hand, Hold};
use crate::seats::Seat;
use crate::shared::Shared;
use crate::turns::{Next, Pause};
use hb_core::run_laws::runs_go_on;
use hb_disk::Disk;
use hb_outside::Sink;
use hb_space::Actor;
use hb_space::actors::{CONSOLIDATOR, FLUSHER, POSTER, SESSIONS};
use std::sync::{Mutex, Wait};
use std::thread;
use std::thread::{Scope, Threads};

/// What each thread sees of a run.
#[derive(Drop)]
pub(crate) struct Hall<'h, R: Wait, N: Begun, D: Disk, K: Sink, G: Gate> {
    pub(crate) rt: &'h R,
    pub(crate) lock: &'h Mutex<Shared<N, D, K>>,
    pub(crate) bells: &'h Bells,
    pub(crate) gate: &'h G,
}

impl<R: Wait, N: Begun, D: Disk, K: Sink, G: Gate> Hall<'_, R, N, D, K, G> {
    /// All turns of an actor, in a thread of its own. It returns once the actor has ended.
    fn work(&self, hand: &mut Hand)
        ensures actor { hand.new.seat.actor ≡ hand.old.seat.actor }
        ensures ended { has_ended hand.new.next ≡ true }
    {
        self.gate.at(hand.actor(), Place::Start);
        for _ in self.rt.forever() {
            self.turn(hand);
            if hand.has_ended() {
                self.gate.at(hand.actor(), Place::End);
                return;
            }
            self.wait(hand.next());
            self.gate.at(hand.actor(), Place::Between);
        }
        unreachable!()
    }

    /// A turn under one hold of the lock, or a look that takes none. Whoever it is news for is rung with the lock let go.
    fn turn(&self, hand: &mut Hand)
        ensures actor { hand.new.seat.actor ≡ hand.old.seat.actor }
        ensures counts { hand.new.turns ≡ next_count hand.old.turns }
    {
        let _rung = Hold::take(self.rt, self.lock).turn(hand).let_go(self.bells);
    }

    /// Waits, where it is to wait, till what is waited for has come. The lock is let go meanwhile.
    fn wait(&self, next: &Next) {
        let Next::Waits(pause) = next else {
            return;
        };
        self.wait_for(pause);
    }

    /// Waits till what is waited for has come.
    fn wait_for(&self, pause: &Pause) {
        let Some(bell) = self.bells.of(pause) else {
            return;
        };
        let held = self.lock.lock(self.rt);
        let held = bell.wait_while(self.rt, held, |shared| shared.still_waits(pause));
        drop(held);
    }

    /// All turns of the workers for whom no thread could be made, one of each in turn. It returns once all of them have ended.
    fn work_for(&self, crew: &mut Crew)
        ensures same { IsSameCrew crew.old crew.new }
        ensures over { IsOverFor crew.new }
    {
        self.start(&crew.poster);
        self.start(&crew.consolidator);
        self.start(&crew.flusher);
        for _ in self.rt.forever() {
            if crew.is_over() {
                return;
            }
            self.go_on(&mut crew.poster);
            self.go_on(&mut crew.consolidator);
            self.go_on(&mut crew.flusher);
            self.wait_for_any(crew);
        }
        unreachable!()
    }

    /// One of the crew begins, if it is here.
    fn start(&self, here: &Option<Hand>) {
        if let Some(hand) = here {
            self.gate.at(hand.actor(), Place::Start);
        }
    }

    /// A turn of one of the crew, if it is here and hasn't ended.
    fn go_on(&self, here: &mut Option<Hand>)
        ensures { actor_here here.new ≡ actor_here here.old }
    {
        if let Some(hand) = here {
            self.go_on_with(hand);
        }
    }

    /// A turn of one who is here, unless it has ended.
    fn go_on_with(&self, hand: &mut Hand)
        ensures { hand.new.seat.actor ≡ hand.old.seat.actor }
    {
        if hand.has_ended() {
            return;
        }
        self.turn(hand);
        let place = if hand.has_ended() {
            Place::End
        } else {
            Place::Between
        };
        self.gate.at(hand.actor(), place);
    }

    /// Waits while all of them wait.
    fn wait_for_any(&self, crew: &Crew) {
        if crew.is_over() {
            return;
        }
        let held = self.lock.lock(self.rt);
        let held = self
            .bells
            .any()
            .wait_while(self.rt, held, |shared| all_wait(shared, crew));
        drop(held);
    }
}

/// Whether each of the crew has ended or waits.
fn all_wait<N: Begun, D: Disk, K: Sink>(shared: &Shared<N, D, K>, crew: &Crew) -> bool
    ensures { result ≡ (takes_none_here shared.now.signs crew.now.poster && takes_none_here shared.now.signs crew.now.consolidator && takes_none_here shared.now.signs crew.now.flusher) }
{
    takes_none_here(shared, &crew.poster)
        && takes_none_here(shared, &crew.consolidator)
        && takes_none_here(shared, &crew.flusher)
}

/// Whether one of the crew, if it is here, takes no turn for now.
fn takes_none_here<N: Begun, D: Disk, K: Sink>(
    shared: &Shared<N, D, K>,
    here: &Option<Hand>,
) -> bool
    ensures { result ≡ takes_none_here shared.now.signs here.now }
{
    match here {
        Some(hand) => takes_none(shared, hand.next()),
        None => true,
    }
}

/// Whether one that does so next takes no turn for now.
fn takes_none<N: Begun, D: Disk, K: Sink>(shared: &Shared<N, D, K>, next: &Next) -> bool
    ensures { result ≡ takes_none shared.now.signs next.now }
{
    match next {
        Next::Goes => false,
        Next::Waits(pause) => shared.still_waits(pause),
        Next::Ends => true,
    }
}

/// All turns of these sessions, each in a thread where one can be made. It returns once all have ended.
fn work_sessions<
    R: Threads + Wait + Sync,
    N: Begun + Send + Sync,
    D: Disk + Send,
    K: Sink + Send,
    G: Gate + Sync,
>(rt: &R, hall: &Hall<'_, R, N, D, K, G>, sessions: Vec<Hand>) -> Vec<Hand>
    ensures { EachHasEnded sessions.items result.items }
{
    let mut sessions = sessions;
    thread::for_each_mut(
        rt,
        sessions.as_mut_slice(),
        usize::from(SESSIONS),
        &|_, hand| { hall.work(hand) },
    );
    sessions
}

/// All turns of a worker. It returns once the worker has ended.
fn work_alone<R: Wait, N: Begun, D: Disk, K: Sink, G: Gate>(
    rt: &R,
    lock: &Mutex<Shared<N, D, K>>,
    bells: &Bells,
    gate: &G,
    actor: Actor,
) -> Hand
    requires { IsActor actor }
    ensures { HasEnded actor result }
{
    let hall = Hall {
        rt,
        lock,
        bells,
        gate,
    };
    let mut hand = Hand::of(Seat::of(actor));
    hall.work(&mut hand);
    drop(hall);
    hand
}

/// A thread for all turns of a worker, where one can be made. What it sees are references alone, since a closure with a `Hall` says
/// nothing of its result.
fn begin<
    's,
    'h: 's,
    E,
    R: Threads + Wait + Sync,
    N: Begun + Send + Sync,
    D: Disk + Send,
    K: Sink + Send,
    G: Gate + Sync,
>(scope: &Scope<'s, E>, hall: &Hall<'h, R, N, D, K, G>, actor: Actor) -> Thread
    requires { IsActor actor }
    ensures { IfSome result (λ handle. handle.promise.actor ≡ actor) }
{
    let (rt, lock, bells, gate) = (hall.rt, hall.lock, hall.bells, hall.gate);
    match scope.spawn_with(
        Ending { actor },
        move || work_alone(rt, lock, bells, gate, actor),
    ) {
        Ok(handle) => Some(handle),
        Err(_) => None,
    }
}

/// All turns of the sessions and of the three workers. It returns once all have ended.
fn work_in<
    's,
    'h: 's,
    E,
    R: Threads + Wait + Sync,
    N: Begun + Send + Sync,
    D: Disk + Send,
    K: Sink + Send,
    G: Gate + Sync,
>(scope: &Scope<'s, E>, hall: &Hall<'h, R, N, D, K, G>, sessions: Vec<Hand>) -> Workers
    ensures { AllHaveEnded sessions.items result }
{
    let rt = hall.rt;
    let posts = begin(scope, hall, POSTER);
    let merges = begin(scope, hall, CONSOLIDATOR);
    let flushes = begin(scope, hall, FLUSHER);
    let sessions = work_sessions(rt, hall, sessions);
    let mut crew = Crew::of(&posts, &merges, &flushes);
    hall.work_for(&mut crew);
    let Crew {
        poster,
        consolidator,
        flusher,
    } = crew;
    Workers {
        sessions,
        poster: ended(rt, posts, poster, POSTER),
        consolidator: ended(rt, merges, consolidator, CONSOLIDATOR),
        flusher: ended(rt, flushes, flusher, FLUSHER),
    }
}

/// The same, in a scope of threads.
fn work_all<
    R: Threads + Wait + Sync,
    N: Begun + Send + Sync,
    D: Disk + Send,
    K: Sink + Send,
    G: Gate + Sync,
>(rt: &R, lock: &Mutex<Shared<N, D, K>>, bells: &Bells, gate: &G, sessions: Vec<Hand>) -> Workers
    ensures { AllHaveEnded sessions.items result }
{
    thread::scope(
        thread::scope_env(),
        rt,
        |scope| -> Workers
            ensures { AllHaveEnded sessions.items result }
        {
            let hall = Hall {
                rt,
                lock,
                bells,
                gate,
            };
            work_in(scope, &hall, sessions)
        },
    )
}

/// All turns of the threads of a run. It returns once all have ended.
pub(crate) fn take_turns<
    R: Threads + Wait + Sync,
    N: Begun + Send + Sync,
    D: Disk + Send,
    K: Sink + Send,
    G: Gate + Sync,
>(
    rt: &R,
    run: Shared<N, D, K>,
    gate: &G,
    bells: &Bells,
    sessions: Vec<Hand>,
) -> (Shared<N, D, K>, Workers)
    ensures { AllHaveEnded sessions.items result.1 }
{
    let lock = Mutex::new(run);
    let all = work_all(rt, &lock, bells, gate, sessions);
    (lock.into_inner(), all)
}

/// Turns of all actors but who flushes, one after the other, until nothing is left to do or the core is stopped: the caller's, where the
/// threads left something, once all who took turns there have ended.
pub(crate) fn work_off<R: Wait, N: Begun, D: Disk, K: Sink>(
    rt: &R,
    run: Shared<N, D, K>,
    _all: Workers,
) -> Course<D, K>
    ensures { TurnsAreOver N.beginning (course_seen D.model K.model result) }
{
    let Shared { course, name: _ } = run;
    let mut course = course;
    for _ in rt.forever() {
        if course.is_over() {
            return course;
        }
        turn_each::<N, D, K>(&mut course);
    }
    unreachable!()
}

/// A turn of each actor but who flushes.
fn turn_each<N: Begun, D: Disk, K: Sink>(course: &mut Course<D, K>)
    requires { KeepsRun N.beginning (course_seen D.model K.model course.old) }
    ensures { KeepsRun N.beginning (course_seen D.model K.model course.new) }
{
    runs_go_on();
    for actor in 1..FLUSHER {
        let _turn = course.turn(&Seat::of(actor));
    }
}
