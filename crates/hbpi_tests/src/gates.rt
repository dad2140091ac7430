//! Gates at which sessions meet.

use hb_run::{Gate, HoldGate, Place};
use std::sync::atomic::{AtomicBool, AtomicU64, Ordering};
use std::thread::yield_now;

/// A gate at which actor 2 begins once actor 1 is between two turns. There that one is held, until actor 2 has ended.
#[derive(Drop)]
pub(crate) struct CrossGate {
    begun: AtomicBool,
    hold: HoldGate,
}

impl CrossGate {
    /// A gate at which nobody was.
    pub(crate) fn new() -> CrossGate {
        CrossGate {
            begun: AtomicBool::new(false),
            hold: HoldGate::new(),
        }
    }

    /// Whether actor 2 ended while actor 1 was held.
    pub(crate) fn met(&self) -> bool {
        self.hold.met()
    }

    /// Waits till actor 1 is between two turns, but not for ever.
    fn wait(&self) {
        for _ in 0..10_000_000 {
            if self.begun.load(Ordering::SeqCst) {
                return;
            }
            yield_now();
        }
    }
}

impl Gate for CrossGate {
    fn at(&self, actor: u8, place: Place) {
        match (actor, place) {
            (2, Place::Start) => self.wait(),
            (1, Place::Between) => self.begun.store(true, Ordering::SeqCst),
            _ => {}
        }
        self.hold.at(actor, place);
    }
}

/// A gate at which so many sessions are held at once: each between its first two turns, until all of them are there, but not for ever.
#[derive(Drop)]
pub(crate) struct GatherGate {
    count: u64,
    came: AtomicU64,
    missed: AtomicBool,
}

impl GatherGate {
    /// A gate at which nobody was.
    pub(crate) fn new(count: u64) -> GatherGate {
        GatherGate {
            count,
            came: AtomicU64::new(0),
            missed: AtomicBool::new(false),
        }
    }

    /// Whether so many were there at once.
    pub(crate) fn met(&self) -> bool {
        self.are_there() && !self.missed.load(Ordering::SeqCst)
    }

    fn are_there(&self) -> bool {
        self.came.load(Ordering::SeqCst) >= self.count
    }

    /// Waits till they are there.
    fn wait(&self) {
        for _ in 0..10_000_000 {
            if self.are_there() || self.missed.load(Ordering::SeqCst) {
                return;
            }
            yield_now();
        }
        self.missed.store(true, Ordering::SeqCst);
    }
}

impl Gate for GatherGate {
    fn at(&self, actor: u8, place: Place) {
        if let (1..=16, Place::Between) = (actor, place) {
            let _before = self.came.fetch_add(1, Ordering::SeqCst);
            self.wait();
        }
    }
}
