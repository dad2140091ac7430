//! What stays known of a machine, and of a core's counts, while a caller takes steps, lets jobs wait and looks at pages. Each law
//! is the contract of a function that does nothing: a caller learns it by the call.

ghost use Rattle.hb_core.specs.BetweenLaws.{CountsStayWithin, HeightIsCounted, LookingGoesOn, LookingKeepsAll, WaitingGoesOn, WaitingKeepsAll};

/// After a caller let a job wait, or looked at a page, steps may be taken of the machine as before, over any disk.
pub fn machines_go_on_between_steps()
    ensures waiting { WaitingGoesOn }
    ensures looking { LookingGoesOn }
{}

/// Over a disk that tells, the machine keeps all that it should there, with the files that it had.
pub fn all_is_kept_between_steps()
    ensures waiting { WaitingKeepsAll }
    ensures looking { LookingKeepsAll }
{}

/// No more operations of a kind are counted than steps, and the file's height rises by the growths that are counted.
pub fn operations_are_counted()
    ensures within { CountsStayWithin }
    ensures height { HeightIsCounted }
{}
