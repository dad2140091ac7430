//! Chains of steps from a machine that is written down to another one. Each is the contract of a
//! function that does nothing.

ghost use Rattle.hb_steps.specs.ChainOfReadFault.{RootIsNotRead};
ghost use Rattle.hb_steps.specs.OneInsert.{OneInsert};
ghost use Rattle.hb_steps.specs.Scenes.{SayingIsStepping};

/// One session inserts a record, forces, and is answered.
#[tactic(auto, using(crate::proofs::Chains::ChainOfInsert::one_insert))]
pub fn one_session_inserts()
    ensures { OneInsert }
{}

/// A chain with what each step comes to is a list of steps in sequence, so that the laws over such lists hold
/// of it.
#[tactic(auto, using(crate::proofs::Chains::SaidSteps::saying_is_stepping))]
pub fn a_chain_is_steps_in_sequence()
    ensures { SayingIsStepping }
{}

/// Over a disk that doesn't tell its bytes the root can't be read: a lookup is answered `read fault`, and
/// the poster's job is dropped.
#[tactic(auto, using(crate::proofs::Chains::ChainOfReadFault::root_is_not_read))]
pub fn a_page_is_not_read()
    ensures { RootIsNotRead }
{}
