//! The workers: in threads of their own, or the caller's where none could be made.
ghost use Rattle.std.specs.Prelude.{◌≡◌, ◌&&◌, if◌then◌else◌, is_some, true, IfSome, None, Some};
ghost use Rattle.hb_space.specs.Actors.{IsActor};
ghost use Rattle.hb_space.specs.declared.actors.TheConstants.{CONSOLIDATOR, FLUSHER, POSTER};
ghost use Rattle.hb_run.specs.Ending.{HasEnded, actor_here, is_over};

use crate::holds::Hand;
use crate::seats::Seat;
use hb_space::Actor;
use hb_space::actors::{CONSOLIDATOR, FLUSHER, POSTER};
use std::thread::{Promise, PromisedHandle, Threads};

/// What is promised of a worker's thread: it gives the worker back, who has ended.
#[derive(Clone, Copy)]
pub(crate) struct Ending {
    pub(crate) actor: Actor,
}

impl Promise<Hand> for Ending {
    ghost use Rattle.hb_run.specs.Ending.{HasEnded};

    ghost kept_by = { λ ending hand. HasEnded ending.actor hand };
}

/// The thread of a worker, if one could be made.
pub(crate) type Thread = Option<PromisedHandle<Hand, Ending>>;

/// The workers for whom no thread could be made.
#[derive(Drop)]
pub(crate) struct Crew {
    pub(crate) poster: Option<Hand>,
    pub(crate) consolidator: Option<Hand>,
    pub(crate) flusher: Option<Hand>,
}

impl Crew {
    /// Who posts, who merges and who flushes, without those who have a thread.
    pub(crate) fn of(poster: &Thread, consolidator: &Thread, flusher: &Thread) -> Crew
        ensures posts { actor_here result.poster ≡ (if is_some poster.now then None else Some POSTER) }
        ensures merges { actor_here result.consolidator ≡ (if is_some consolidator.now then None else Some CONSOLIDATOR) }
        ensures flushes { actor_here result.flusher ≡ (if is_some flusher.now then None else Some FLUSHER) }
    {
        Crew {
            poster: hand_without(poster, POSTER),
            consolidator: hand_without(consolidator, CONSOLIDATOR),
            flusher: hand_without(flusher, FLUSHER),
        }
    }

    /// Whether all have ended.
    pub(crate) fn is_over(&self) -> bool
        ensures { result ≡ (is_over self.now.poster && is_over self.now.consolidator && is_over self.now.flusher) }
    {
        is_over(&self.poster) && is_over(&self.consolidator) && is_over(&self.flusher)
    }
}

/// The worker, where it has no thread.
fn hand_without(thread: &Thread, actor: Actor) -> Option<Hand>
    requires { IsActor actor }
    ensures { actor_here result ≡ (if is_some thread.now then None else Some actor) }
{
    match thread {
        Some(_) => None,
        None => Some(Hand::of(Seat::of(actor))),
    }
}

/// Whether it has ended, if it is here.
fn is_over(hand: &Option<Hand>) -> bool
    ensures { result ≡ is_over hand.now }
{
    match hand {
        Some(hand) => hand.has_ended(),
        None => true,
    }
}

/// All who took turns, once they have ended.
#[derive(Drop)]
pub(crate) struct Workers {
    pub(crate) sessions: Vec<Hand>,
    pub(crate) poster: Hand,
    pub(crate) consolidator: Hand,
    pub(crate) flusher: Hand,
}

/// The worker, who has ended: in its thread, for whose end is waited, or here.
pub(crate) fn ended<R: Threads>(rt: &R, thread: Thread, here: Option<Hand>, actor: Actor) -> Hand
    requires there { IfSome thread (λ handle. handle.promise.actor ≡ actor) }
    requires here { actor_here here ≡ (if is_some thread then None else Some actor) }
    requires over { is_over here ≡ true }
    ensures { HasEnded actor result }
{
    match (thread, here) {
        (Some(handle), _) => handle.join(rt),
        (None, Some(hand)) => hand,
        (None, None) => unreachable!(),
    }
}
