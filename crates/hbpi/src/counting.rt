//! How many answers have each reply, and how many records are left behind them.
ghost use Rattle.std.specs.Prelude.{◌≡◌};
ghost use Rattle.hb_set.specs.Sizes.{adds_record, takes_record};
ghost use Rattle.hbpi.specs.Counted.{count_kind, has_kind, records_left, says_at};

use hb_set::{Answered, Command, Line, Reply};

/// A reply of the record set, without what it has found.
#[derive(Clone, Copy)]
pub(crate) enum Kind {
    Done,
    Duplicate,
    Absent,
    Found,
    Missing,
    Within,
}

/// Whether a reply is of the kind.
fn has_kind(kind: Kind, reply: &Reply) -> bool
    ensures { result ≡ has_kind kind reply.now }
{
    match kind {
        Kind::Done => matches!(reply, Reply::Done),
        Kind::Duplicate => matches!(reply, Reply::Duplicate),
        Kind::Absent => matches!(reply, Reply::Absent),
        Kind::Found => matches!(reply, Reply::Found(_)),
        Kind::Missing => matches!(reply, Reply::Missing),
        Kind::Within => matches!(reply, Reply::Within(_)),
    }
}

/// How many answers have a reply of the kind.
pub(crate) fn count_kind(kind: Kind, answers: &[Answered]) -> u128
    ensures { result ≡ count_kind kind answers.now }
{
    answers.iter().filter(|a| has_kind(kind, &a.reply)).count() as u128
}

/// Whether a command that was answered so has added a record.
fn adds_record(reply: &Reply, command: &Command) -> bool
    ensures { result ≡ adds_record reply.now command.now }
{
    matches!(reply, Reply::Done) && matches!(command, Command::Insert(_))
}

/// Or has taken one away.
fn takes_record(reply: &Reply, command: &Command) -> bool
    ensures { result ≡ takes_record reply.now command.now }
{
    matches!(reply, Reply::Done) && matches!(command, Command::Delete(_))
}

/// Whether an answer to one of these lines says that a record was added.
fn says_added(lines: &[Line], answer: &Answered) -> bool
    ensures { result ≡ says_at adds_record lines.now answer.now }
{
    match lines.get(answer.line.saturating_sub(1) as usize) {
        Some(line) => adds_record(&answer.reply, &line.command),
        None => false,
    }
}

/// Or that one was taken away.
fn says_taken(lines: &[Line], answer: &Answered) -> bool
    ensures { result ≡ says_at takes_record lines.now answer.now }
{
    match lines.get(answer.line.saturating_sub(1) as usize) {
        Some(line) => takes_record(&answer.reply, &line.command),
        None => false,
    }
}

/// How many records are left of so many behind these answers to lines of which each one's number is its place, from 1.
pub(crate) fn records_left(lines: &[Line], answers: &[Answered], records: u64) -> u128
    ensures { result ≡ records_left lines.now answers.now records }
{
    let added = answers.iter().filter(|a| says_added(lines, *a)).count();
    let taken = answers.iter().filter(|a| says_taken(lines, *a)).count();
    (u128::from(records) + added as u128).saturating_sub(taken as u128)
}
