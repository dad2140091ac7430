//! Why a line is refused and why a job ends, and what a step says of lines and jobs. Each law is the
//! contract of a function that does nothing: a caller learns it by the call.

ghost use Rattle.hb_steps.specs.CauseLaws.{AnswersFirstLine, FullByCause, NoMemoryByCause, OnlySearchesAndSplitsTakeMemory, ReadFaultByCause};
ghost use Rattle.hb_steps.specs.JobLaws.{DropsByCause, JobsEndByCause, JobsLeaveToWorkers, MoversLackNoMemory};

/// A line is answered by a step of its own session, and is that session's first line without an answer.
#[tactic(auto, using(crate::proofs::Table::Causes::answers_first_line))]
pub fn sessions_answer_their_first_line()
    ensures { AnswersFirstLine }
{}

/// A line is `read fault` only where a page of the file that the step needs isn't in memory; and `no memory`
/// only for a page that the step decodes, for an operation of the step's row that isn't one on records, or
/// for the boxes of a search that begins. It is `full` only where the page that is to be split has no room and no page is free.
pub fn lines_are_refused_by_cause()
    ensures fault { ReadFaultByCause }
    ensures memory { NoMemoryByCause }
    ensures full { FullByCause }
{}

/// A lookup or a delete is never answered `no memory`, since its walk takes none, and no more does what it
/// does to the file. An insert is so only in a step that splits a page.
pub fn only_searches_and_splits_take_memory()
    ensures { OnlySearchesAndSplitsTakeMemory }
{}

/// A job is dropped only where a page of the file that the step needs isn't in memory, or for want of memory
/// for what the step's row takes.
pub fn jobs_are_dropped_by_cause()
    ensures { DropsByCause }
{}

/// A worker never drops its job for want of memory in a step that only moves it on: a walk to a parent, its promotion, or the
/// look at the page to keep.
#[tactic(auto, using(crate::proofs::Table::MovesOn::movers_lack_no_memory))]
pub fn workers_move_without_memory()
    ensures { MoversLackNoMemory }
{}

/// A job leaves those that wait only by a step of an idle worker, which has it in work then, or has dropped
/// it for its level.
pub fn jobs_leave_to_workers()
    ensures { JobsLeaveToWorkers }
{}

/// A job in work stays in work of its worker, or waits again, or is dropped, or ends: by a row of the table
/// and for a cause that this names.
#[tactic(auto, using(crate::proofs::Table::Causes::jobs_end_by_cause))]
pub fn jobs_end_by_cause()
    ensures { JobsEndByCause }
{}
