//! The steps of a schedule, and the answers that come of them.
ghost use Rattle.std.specs.Prelude.{◌≡◌, ◌+◌, ◌≤◌, [], ◌++◌, All, length, vec_len, vec_capacity};
ghost use Rattle.std.specs.List.{flat_map};
ghost use Rattle.hb_space.specs.Actors.{IsActor};
ghost use Rattle.hb_outside.specs.Calls.{Puts, PutsOn};
ghost use Rattle.hb_text.specs.Output.{answer_text};
ghost use Rattle.hb_core.specs.CoreSeen.{core_seen, core_disk};
ghost use Rattle.hb_steps.specs.Machines.{Machine};
ghost use Rattle.hb_steps.specs.Performing.{given_by};
ghost use Rattle.hb_core.specs.Runs.{HasRun};
ghost use Rattle.hb_core.specs.Relied.{MayTakeSteps};
ghost use Rattle.hb_core.specs.Working.{MayStep};

use crate::writing::put_answer;
use hb_core::run_laws::runs_go_on;
use hb_core::{Core, Outcome};
use hb_disk::Disk;
use hb_outside::{Failed, Sink};
use hb_set::Answered;
use hb_space::Actor;

/// Takes the steps of these actors, and keeps each answer with the disk's clock after its step. There has to be room for an
/// answer to each line.
pub(crate) fn take_steps<D: Disk, K: Sink>(
    core: &mut Core<D>,
    steps: &[Actor],
    sink: &mut K,
    answered: &mut Vec<Answered>,
) -> Result<(), Failed>
    requires may { MayTakeSteps (D.model (core_disk core.old)) (core_seen core.old) }
    requires actors { All IsActor steps.now }
    requires none { answered.old.items ≡ [] }
    requires room { length (core_seen core.old).lines ≤ vec_capacity answered.old }
    ensures runs { (m : Machine) → MayStep (D.model (core_disk core.old)) (core_seen core.old) m →
        HasRun (D.model (core_disk core.old)) m steps.now answered.new.items (D.model (core_disk core.new)) (core_seen core.new) }
    ensures put { Puts (flat_map answer_text answered.new.items) result (K.model sink.old) (K.model sink.new) }
{
    runs_go_on();
    let mut put = Ok(());
    for actor in steps {
        let outcome = core.step(*actor);
        let at = core.clock();
        put = take_answer(sink, put, outcome, at, answered);
    }
    put
}

/// Puts and keeps the answer that a step gave, where it gave one. There has to be room.
#[tactic(auto, using(crate::proofs::PutTexts::puts_none, crate::proofs::PutTexts::puts_answer))]
pub fn take_answer<K: Sink>(
    sink: &mut K,
    so_far: Result<(), Failed>,
    outcome: Outcome,
    at: u64,
    answered: &mut Vec<Answered>,
) -> Result<(), Failed>
    requires { vec_len answered.old + length (given_by outcome at) ≤ vec_capacity answered.old }
    ensures kept { answered.new.items ≡ answered.old.items ++ given_by outcome at }
    ensures room { vec_capacity answered.old ≤ vec_capacity answered.new }
    ensures puts { PutsOn so_far (flat_map answer_text (given_by outcome at)) result (K.model sink.old) (K.model sink.new) }
{
    match outcome {
        Outcome::Answered { line, reply } => {
            let put = put_answer(sink, so_far, line, &reply);
            answered.push(Answered { line, reply, at }).unwrap();
            put
        }
        _ => so_far,
    }
}
