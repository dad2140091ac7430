//! One hold of the lock, the one turn that is taken under it, and who takes it.
ghost use Rattle.std.specs.Prelude.{◌≡◌};
ghost use Rattle.std.specs.Sync.Mutex.{mutex_guard_value};
ghost use Rattle.hb_outside.specs.Memory.{next_count};
ghost use Rattle.hb_run.specs.Ringing.{RingsFor, WakesAll};
ghost use Rattle.hb_run.specs.UnderLock.{TakesOneTurn};
ghost use Rattle.hb_run.specs.Waiting.{has_ended};
ghost use Rattle.hb_run.specs.declared.turns.Next.TheVariants as nexts;

use crate::begun::Begun;
use crate::bells::{Bells, Rung};
use crate::seats::Seat;
use crate::shared::Shared;
use crate::turns::{News, Next};
use hb_core::run_laws::runs_go_on;
use hb_disk::Disk;
use hb_outside::Sink;
use hb_space::Actor;
use std::sync::{Mutex, MutexGuard, Wait};

/// One who takes turns: its seat, how many turns it took, and what it does next. Only a turn under the lock changes it, and there is no
/// other way to a turn.
#[derive(Drop)]
pub(crate) struct Hand {
    seat: Seat,
    turns: u64,
    next: Next,
}

impl Hand {
    /// One who has taken no turn.
    pub(crate) fn of(seat: Seat) -> Hand
        ensures actor { result.seat.actor ≡ seat.actor }
        ensures next { result.next ≡ nexts.Goes }
    {
        Hand {
            seat,
            turns: 0,
            next: Next::Goes,
        }
    }

    /// The actor.
    pub(crate) fn actor(&self) -> Actor
        ensures { result ≡ self.now.seat.actor }
    {
        self.seat.actor
    }

    /// What it does next.
    pub(crate) fn next(&self) -> &Next
        ensures { result.now ≡ self.now.next }
    {
        &self.next
    }

    /// Whether it has ended.
    pub(crate) fn has_ended(&self) -> bool
        ensures { result ≡ has_ended self.now.next }
    {
        matches!(self.next, Next::Ends)
    }
}

impl<N: Begun, D: Disk, K: Sink> Shared<N, D, K> {
    /// A turn of the actor: one step of the core, or none where who flushes has nothing to do. What the actor does then, and what others
    /// have to know.
    fn turn(&mut self, seat: &Seat) -> (Next, News)
        ensures one { TakesOneTurn seat.now.actor result.0 self.old self.new }
        ensures wakes { WakesAll result.1 self.old.signs self.new.signs }
    {
        runs_go_on();
        self.course.take_turn(seat)
    }
}

/// The lock, held by one who has taken no turn yet.
pub(crate) struct Hold<'h, N: Begun, D: Disk, K: Sink> {
    held: MutexGuard<'h, Shared<N, D, K>>,
}

/// The lock, held by one who has taken its turn, and what that told. There is no other way to be told, and none to a second turn; and none
/// to let the lock go than to ring.
pub(crate) struct Turned<'h, N: Begun, D: Disk, K: Sink> {
    held: MutexGuard<'h, Shared<N, D, K>>,
    news: News,
}

impl<'h, N: Begun, D: Disk, K: Sink> Hold<'h, N, D, K> {
    /// Takes the lock.
    pub(crate) fn take<R: Wait>(rt: &R, lock: &'h Mutex<Shared<N, D, K>>) -> Hold<'h, N, D, K> {
        Hold {
            held: lock.lock(rt),
        }
    }

    /// The turn of the actor.
    pub(crate) fn turn(self, hand: &mut Hand) -> Turned<'h, N, D, K>
        ensures one { TakesOneTurn hand.old.seat.actor hand.new.next (mutex_guard_value self.entry.held) (mutex_guard_value result.held) }
        ensures wakes { WakesAll result.news (mutex_guard_value self.entry.held).signs (mutex_guard_value result.held).signs }
        ensures seat { hand.new.seat ≡ hand.old.seat }
        ensures counts { hand.new.turns ≡ next_count hand.old.turns }
    {
        let Hold { mut held } = self;
        let (next, news) = held.turn(&hand.seat);
        hand.next = next;
        hand.turns = hand.turns.saturating_add(1);
        Turned { held, news }
    }
}

impl<N: Begun, D: Disk, K: Sink> Turned<'_, N, D, K> {
    /// Lets the lock go, and rings for what the turn told.
    pub(crate) fn let_go(self, bells: &Bells) -> Rung
        ensures { RingsFor self.entry.news result.places }
    {
        let Turned { held, news } = self;
        drop(held);
        bells.ring(news)
    }
}
