//! Lines that are said where all went well.
ghost use Rattle.std.specs.Prelude.{◌≡◌, ◌+◌, ◌≤◌, ◌++◌, length, decimal};
ghost use Rattle.hbpi.specs.Checked.{sound_text};
ghost use Rattle.hbpi.specs.Counted.{counts_text};
ghost use Rattle.hbpi.specs.Saying.{IsSaid};
ghost use Rattle.hbpi.specs.Tidied.{tidied_text};

use crate::counting::{Kind, count_kind};
use crate::statuses::Status;
use arrayvec::ArrayVec;
use hb_core::TidyCounts;
use hb_layout::Meta;
use hb_outside::Sink;
use hb_set::Answered;
use itoa::Buffer;

/// Says a line, and gives the status then.
pub(crate) fn say<K: Sink>(sink: &mut K, line: &[u8]) -> Status
    ensures { IsSaid line.now (K.model sink.old) (K.model sink.new) result }
{
    match sink.put(line) {
        Ok(()) => Status::Done,
        Err(_) => Status::SinkFault,
    }
}

/// No line is longer.
const LONGEST: usize = 384;

/// Adds words and a number to a line.
fn add_count(line: &mut ArrayVec<u8, LONGEST>, words: &[u8], count: u128)
    requires { length line.old.items + length words.now + 40 ≤ LONGEST }
    ensures added { line.new.items ≡ line.old.items ++ (words.now ++ decimal count) }
    ensures short { length line.new.items ≤ length line.old.items + length words.now + 40 }
{
    let mut number = Buffer::new();
    let _fits = line.try_extend_from_slice(words);
    let _fits = line.try_extend_from_slice(number.format(count).as_bytes());
}

/// The line of a sound file.
pub(crate) fn sound_line(meta: &Meta, records: u64) -> ArrayVec<u8, LONGEST>
    ensures { result.items ≡ sound_text meta.now records }
{
    let mut line = ArrayVec::new();
    add_count(&mut line, b"sound height ", u128::from(meta.height));
    add_count(&mut line, b" pages ", u128::from(meta.live));
    add_count(&mut line, b" records ", u128::from(records));
    let _fits = line.try_extend_from_slice(b"\n");
    line
}

/// The line of a tidying.
pub(crate) fn tidied_line(counts: &TidyCounts) -> ArrayVec<u8, LONGEST>
    ensures { result.items ≡ tidied_text counts.now }
{
    let mut line = ArrayVec::new();
    add_count(&mut line, b"tidy grown ", u128::from(counts.grown));
    add_count(&mut line, b" posted ", u128::from(counts.posted));
    add_count(&mut line, b" split ", u128::from(counts.split));
    add_count(&mut line, b" merged ", u128::from(counts.merged));
    let _fits = line.try_extend_from_slice(b"\n");
    line
}

/// The line of these answers, and of so many records.
pub(crate) fn counts_line(answers: &[Answered], records: u128) -> ArrayVec<u8, LONGEST>
    ensures { result.items ≡ counts_text answers.now records }
{
    let mut line = ArrayVec::new();
    add_count(&mut line, b"ok ", count_kind(Kind::Done, answers));
    add_count(
        &mut line,
        b" duplicate ",
        count_kind(Kind::Duplicate, answers),
    );
    add_count(&mut line, b" absent ", count_kind(Kind::Absent, answers));
    add_count(&mut line, b" found ", count_kind(Kind::Found, answers));
    add_count(&mut line, b" none ", count_kind(Kind::Missing, answers));
    add_count(&mut line, b" box ", count_kind(Kind::Within, answers));
    add_count(&mut line, b" records ", records);
    let _fits = line.try_extend_from_slice(b"\n");
    line
}
