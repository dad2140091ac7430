//! What is called between an actor's turns, with the lock let go.

use hb_space::Actor;
use std::sync::atomic::{AtomicBool, Ordering};
use std::thread::yield_now;

/// Where an actor is in its run.
#[derive(Clone, Copy, Debug, PartialEq, Eq)]
pub enum Place {
    /// Before its first turn.
    Start,
    /// Before each further one.
    Between,
    /// After its last.
    End,
}

/// What each actor calls between its turns, with the lock let go. Nothing is claimed of it.
pub trait Gate {
    /// The actor is there.
    fn at(&self, actor: Actor, place: Place);

    /// Whether an actor may be held there for what others do. Where it may, nobody lets others come first, since they may not come.
    fn may_hold(&self) -> bool {
        true
    }
}

/// A gate that does nothing.
#[derive(Clone, Copy, Debug, Drop)]
pub struct FreeGate;

impl Gate for FreeGate {
    fn at(&self, _actor: Actor, _place: Place) {}

    fn may_hold(&self) -> bool {
        false
    }
}

/// Who is held, and for whom.
const HELD: Actor = 1;

const AWAITED: Actor = 2;

/// After so many tries to go on it gives up.
const TRIES: u32 = 50_000_000;

/// A gate that holds actor 1, the first time between two turns, until actor 2 has ended; but not for ever.
#[derive(Debug, Drop)]
pub struct HoldGate {
    held: AtomicBool,
    ended: AtomicBool,
    met: AtomicBool,
}

impl HoldGate {
    /// A gate at which nobody was.
    pub fn new() -> HoldGate {
        HoldGate {
            held: AtomicBool::new(false),
            ended: AtomicBool::new(false),
            met: AtomicBool::new(false),
        }
    }

    /// Whether actor 2 ended while actor 1 was held.
    pub fn met(&self) -> bool {
        self.met.load(Ordering::SeqCst)
    }

    /// Holds whoever calls until actor 2 has ended.
    fn hold(&self) {
        for _ in 0..TRIES {
            if self.ended.load(Ordering::SeqCst) {
                self.met.store(true, Ordering::SeqCst);
                return;
            }
            yield_now();
        }
    }
}

impl Gate for HoldGate {
    fn at(&self, actor: Actor, place: Place) {
        if actor == HELD && place == Place::Between && !self.held.swap(true, Ordering::SeqCst) {
            self.hold();
        }
        if actor == AWAITED && place == Place::End {
            self.ended.store(true, Ordering::SeqCst);
        }
    }
}
