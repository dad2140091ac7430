//! Who takes turns.
ghost use Rattle.std.specs.Prelude.{◌≡◌, ◌++◌, [], ◌∷◌, if◌then◌else◌, IfOk, OnOk, map};
ghost use Rattle.hb_space.specs.Actors.{IsActor};
ghost use Rattle.hb_space.specs.declared.actors.TheConstants.{SESSIONS};
ghost use Rattle.hb_run.specs.Seats.{AreSessionsTo, has_line};

use crate::holds::Hand;
use hb_set::Line;
use hb_space::actors::SESSIONS;
use hb_space::{Actor, NoMemory};
use std::alloc::Global;

/// One who takes turns.
#[derive(Drop)]
pub(crate) struct Seat {
    pub(crate) actor: Actor,
    ghost may: { IsActor actor },
}

impl Seat {
    /// The seat of the actor.
    pub(crate) fn of(actor: Actor) -> Seat
        requires { IsActor actor }
        ensures { result.actor ≡ actor }
    {
        Seat { actor }
    }
}

/// The sessions that have a line, each once. None has taken a turn.
#[tactic(auto, using(crate::proofs::Sitting::sits, crate::proofs::Sitting::none_yet))]
pub(crate) fn sessions_of(alloc: Global, lines: &[Line]) -> Result<Vec<Hand>, NoMemory>
    ensures { IfOk result (λ hands. AreSessionsTo SESSIONS lines.now (map (λ h. h.seat.actor) hands.items)) }
{
    let mut hands = Vec::new(alloc);
    for before in 0..SESSIONS {
        sit_down(&mut hands, before + 1, lines)?;
    }
    Ok(hands)
}

/// Gives the session a seat behind the others, where it has a line.
fn sit_down(hands: &mut Vec<Hand>, session: Actor, lines: &[Line]) -> Result<(), NoMemory>
    requires { IsActor session }
    ensures { OnOk result (map (λ h. h.seat.actor) hands.new.items ≡ (if has_line lines.now session then map (λ h. h.seat.actor) hands.old.items ++ session ∷ [] else map (λ h. h.seat.actor) hands.old.items)) }
{
    if !has_line(lines, session) {
        return Ok(());
    }
    hands.push(Hand::of(Seat::of(session)))?;
    Ok(())
}

/// Whether the session has a line.
fn has_line(lines: &[Line], session: Actor) -> bool
    ensures { result ≡ has_line lines.now session }
{
    lines.iter().any(|line| line.session == session)
}
