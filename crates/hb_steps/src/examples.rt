//! Rows of the table that are worked out by hand. Each is the contract of a function that does nothing.

ghost use Rattle.hb_store.specs.States.{StoreState};
ghost use Rattle.hb_steps.specs.Examples.{CountsCalls, HoldsLatches};

/// Which pages are held between two steps, and in which mode.
pub fn halves_and_parents_are_held()
    ensures { (st : StoreState) → HoldsLatches st }
{}

/// A force takes four device calls where a group waits, and none where none does.
pub fn a_force_takes_four_calls()
    ensures { CountsCalls }
{}
