// The lines of the output text, each put to a sink from a buffer on the stack.
ghost use Rattle.std.specs.Prelude.{◌≡◌, ◌+◌, ◌≤◌, max, [], ◌++◌, length, take, drop, codes, decimal, if◌then◌else◌, OnOk};
ghost use Rattle.hb_outside.specs.Calls.{Puts};
ghost use Rattle.hb_text.specs.Output.{numbers_text, record_text, reply_text, left_text, order_text};
ghost use Rattle.hb_text.specs.Waiting.{Buffers};
ghost use Rattle.std.specs.List.{flat_map};

use crate::output_line::LineBuffer;
use hb_outside::{Failed, Sink};
use hb_set::Reply;
use hb_space::{Body, Record};

// A piece with more bytes is put before another number is added.
const FULL: usize = 160;

/// Puts the lines of a reply to the line of this number: one put for each line. A body that no
/// command can say is spelled in digits, so that it can't be taken for other lines
/// (`bodies_forge_no_output`). After `Failed` a front of them was put.
pub fn put_reply<K: Sink>(sink: &mut K, line: u32, reply: &Reply) -> Result<(), Failed>
    ensures { Puts (reply_text line reply.now) result (K.model sink.old) (K.model sink.new) }
{
    match reply {
        Reply::Done => put_said(sink, line, b" ok\n"),
        Reply::Duplicate => put_said(sink, line, b" duplicate\n"),
        Reply::Absent => put_said(sink, line, b" absent\n"),
        Reply::Found(body) => put_found(sink, line, body),
        Reply::Missing => put_said(sink, line, b" none\n"),
        Reply::Within(records) => put_box(sink, line, records.as_slice()),
        Reply::Full => put_said(sink, line, b" full\n"),
        Reply::NoMemory => put_said(sink, line, b" no memory\n"),
        Reply::ReadFault => put_said(sink, line, b" read fault\n"),
    }
}

/// Puts a line that has no answer, because the run was stopped or the schedule ended before it.
/// After `Failed` a front of it was put.
pub fn put_left<K: Sink>(sink: &mut K, line: u32, stopped: bool) -> Result<(), Failed>
    ensures { Puts (left_text stopped line) result (K.model sink.old) (K.model sink.new) }
{
    put_said(sink, line, left_word(stopped))
}

// What is said of a line that has no answer.
fn left_word(stopped: bool) -> &'static [u8]
    ensures word { result.now ≡ (if stopped then codes " unanswered\n" else codes " unfinished\n") }
    ensures short { length result.now ≤ 12 }
{
    if stopped {
        b" unanswered\n"
    } else {
        b" unfinished\n"
    }
}

/// Puts the order, with a bar before the first line that isn't settled: `settled` of them are, or
/// all where it exceeds their count. A put takes as many numbers as the buffer has room for. After
/// `Failed` a front of the order was put.
pub fn put_order<K: Sink>(sink: &mut K, order: &[u32], settled: u32) -> Result<(), Failed>
    ensures { Puts (order_text order.now settled) result (K.model sink.old) (K.model sink.new) }
{
    let settled = settled as usize;
    let (front, rest) = cut_at(order, settled);
    let mut piece = LineBuffer::new();
    piece.add(b"order");
    put_numbers(sink, &mut piece, front)?;
    piece.add(bar(settled < order.len()));
    put_numbers(sink, &mut piece, rest)?;
    piece.add(b"\n");
    sink.put(piece.as_slice())
}

// The first so many numbers, or all where there are fewer, and the rest.
fn cut_at(numbers: &[u32], count: usize) -> (&[u32], &[u32])
    ensures front { result.0.now ≡ take count numbers.now }
    ensures rest { result.1.now ≡ drop count numbers.now }
{
    if count < numbers.len() {
        numbers.split_at(count)
    } else {
        (numbers, &[])
    }
}

// What stands before the first line that isn't settled, if there is one.
fn bar(is_left: bool) -> &'static [u8]
    ensures word { result.now ≡ (if is_left then codes " |" else []) }
    ensures short { length result.now ≤ 2 }
{
    if is_left { b" |" } else { b"" }
}

// Adds numbers to a piece, each after a space, and puts the piece whenever it is full. What is in
// the piece at the end still has to be put.
fn put_numbers<K: Sink>(sink: &mut K, piece: &mut LineBuffer, numbers: &[u32]) -> Result<(), Failed>
    ensures buffers { Buffers (piece.old.bytes.items ++ numbers_text numbers.now)
        piece.new.bytes.items result (K.model sink.old) (K.model sink.new) }
    ensures room { OnOk result
        (length piece.new.bytes.items ≤ max (FULL + 21) (length piece.old.bytes.items)) }
{
    for number in numbers {
        make_room(sink, piece)?;
        piece.add_word(u64::from(*number));
    }
    Ok(())
}

// Puts a piece that is full.
fn make_room<K: Sink>(sink: &mut K, piece: &mut LineBuffer) -> Result<(), Failed>
    ensures buffers { Buffers piece.old.bytes.items piece.new.bytes.items result
        (K.model sink.old) (K.model sink.new) }
    ensures room { OnOk result (length piece.new.bytes.items ≤ FULL) }
{
    if piece.len() <= FULL {
        return Ok(());
    }
    sink.put(piece.as_slice())?;
    piece.clear();
    Ok(())
}

// Puts a line's number and what is said of that line, which is short.
fn put_said<K: Sink>(sink: &mut K, line: u32, said: &[u8]) -> Result<(), Failed>
    requires { length said.now ≤ 80 }
    ensures { Puts (decimal line ++ said.now) result (K.model sink.old) (K.model sink.new) }
{
    let mut text = LineBuffer::new();
    text.add_number(u64::from(line));
    text.add(said);
    sink.put(text.as_slice())
}

// Puts the reply to a lookup that found a body.
fn put_found<K: Sink>(sink: &mut K, line: u32, body: &Body) -> Result<(), Failed>
    ensures { Puts (reply_text line (Reply.Found body.now)) result (K.model sink.old) (K.model sink.new) }
{
    let mut said = LineBuffer::new();
    said.add(b" found ");
    said.add_body(body);
    said.add(b"\n");
    put_said(sink, line, said.as_slice())
}

// Puts the reply to a search: how many records the box holds, and a line for each.
fn put_box<K: Sink>(sink: &mut K, line: u32, records: &[Record]) -> Result<(), Failed>
    ensures { Puts (reply_text line (Reply.Within records.now)) result (K.model sink.old) (K.model sink.new) }
{
    let count = count_word(records.len());
    put_said(sink, line, count.as_slice())?;
    put_records(sink, records)
}

// What is said of a search that found so many records.
fn count_word(count: usize) -> LineBuffer
    ensures word { result.bytes.items ≡ codes " box " ++ decimal count ++ codes "\n" }
    ensures short { length result.bytes.items ≤ 26 }
{
    let mut word = LineBuffer::new();
    word.add(b" box ");
    word.add_number(count as u64);
    word.add(b"\n");
    word
}

// Puts a line for each record.
fn put_records<K: Sink>(sink: &mut K, records: &[Record]) -> Result<(), Failed>
    ensures { Puts (flat_map record_text records.now) result (K.model sink.old) (K.model sink.new) }
{
    for record in records {
        put_record(sink, record)?;
    }
    Ok(())
}

// Puts the line of a record.
fn put_record<K: Sink>(sink: &mut K, record: &Record) -> Result<(), Failed>
    ensures { Puts (record_text «record».now) result (K.model sink.old) (K.model sink.new) }
{
    let line = record_line(record);
    sink.put(line.as_slice())
}

// The line of a record.
fn record_line(record: &Record) -> LineBuffer
    ensures { result.bytes.items ≡ record_text «record».now }
{
    let mut line = LineBuffer::new();
    line.add(b"+");
    line.add_numbers(record.key.values());
    line.add(b" ");
    line.add_body(&record.body);
    line.add(b"\n");
    line
}
