ghost use Rattle.std.specs.Prelude.{◌≡◌, ◌≤◌, ◌++◌, length, codes, decimal};
ghost use Rattle.hbpi.specs.Outcome.{rule_name, field_name, fault_line, GetsLine};

use crate::statuses::{Damage, Status};
use arrayvec::ArrayVec;
use hb_outside::Sink;
use hb_restart::Field;
use hb_text::{BadLine, TextRule};
use itoa::Buffer;

/// The name of a rule in the output.
fn name_of(rule: TextRule) -> &'static [u8]
    ensures name { result.now ≡ rule_name rule }
    ensures short { length result.now ≤ 10 }
{
    match rule {
        TextRule::TooMany => b"TooMany",
        TextRule::LongLine => b"LongLine",
        TextRule::BadByte => b"BadByte",
        TextRule::BadSpacing => b"BadSpacing",
        TextRule::BadStep => b"BadStep",
        TextRule::BadSession => b"BadSession",
        TextRule::BadVerb => b"BadVerb",
        TextRule::BadCount => b"BadCount",
        TextRule::BadNumber => b"BadNumber",
        TextRule::TooLarge => b"TooLarge",
        TextRule::EmptyBox => b"EmptyBox",
        TextRule::BadBody => b"BadBody",
    }
}

/// The line that says what is wrong with a text.
fn bad_text_line(bad: &BadLine) -> ArrayVec<u8, 64>
    ensures { result.items ≡ codes "bad text " ++ decimal bad.now.line ++ codes " " ++ rule_name bad.now.rule ++ codes "\n" }
{
    let mut number = Buffer::new();
    let mut line = ArrayVec::new();
    let _fits = line.try_extend_from_slice(b"bad text ");
    let _fits = line.try_extend_from_slice(number.format(bad.line).as_bytes());
    let _fits = line.try_extend_from_slice(b" ");
    let _fits = line.try_extend_from_slice(name_of(bad.rule));
    let _fits = line.try_extend_from_slice(b"\n");
    line
}

/// The name of a field in the output.
fn field_of(field: Field) -> &'static [u8]
    ensures name { result.now ≡ field_name field }
    ensures short { length result.now ≤ 5 }
{
    match field {
        Field::K => b"K",
        Field::Pages => b"PAGES",
        Field::Log => b"LOG",
        Field::Dcap => b"DCAP",
        Field::Icap => b"ICAP",
    }
}

/// The line that says which field of a layout is out of its limits.
fn bad_layout_line(field: Field, value: u64) -> ArrayVec<u8, 64>
    ensures { result.items ≡ fault_line (Status.BadLayout field value) }
{
    let mut number = Buffer::new();
    let mut line = ArrayVec::new();
    let _fits = line.try_extend_from_slice(b"bad layout ");
    let _fits = line.try_extend_from_slice(field_of(field));
    let _fits = line.try_extend_from_slice(b" ");
    let _fits = line.try_extend_from_slice(number.format(value).as_bytes());
    let _fits = line.try_extend_from_slice(b"\n");
    line
}

/// The line that says that a disk is too small.
fn small_line(needed: u64, found: u64) -> ArrayVec<u8, 64>
    ensures { result.items ≡ fault_line (Status.Small needed found) }
{
    let mut number = Buffer::new();
    let mut line = ArrayVec::new();
    let _fits = line.try_extend_from_slice(b"small ");
    let _fits = line.try_extend_from_slice(number.format(needed).as_bytes());
    let _fits = line.try_extend_from_slice(b" ");
    let _fits = line.try_extend_from_slice(number.format(found).as_bytes());
    let _fits = line.try_extend_from_slice(b"\n");
    line
}

/// The line that names the first bad frame of a log.
fn bad_group_line(frame: u32) -> ArrayVec<u8, 64>
    ensures { result.items ≡ fault_line (Status.Damaged (Damage.BadGroup frame)) }
{
    let mut number = Buffer::new();
    let mut line = ArrayVec::new();
    let _fits = line.try_extend_from_slice(b"bad group ");
    let _fits = line.try_extend_from_slice(number.format(frame).as_bytes());
    let _fits = line.try_extend_from_slice(b"\n");
    line
}

/// The line that names the rule that a file breaks, and the page.
fn rule_line(page: u32, rule: u8) -> ArrayVec<u8, 64>
    ensures { result.items ≡ fault_line (Status.Damaged (Damage.Rule page rule)) }
{
    let mut number = Buffer::new();
    let mut line = ArrayVec::new();
    let _fits = line.try_extend_from_slice(b"damaged ");
    let _fits = line.try_extend_from_slice(number.format(page).as_bytes());
    let _fits = line.try_extend_from_slice(b" S");
    let _fits = line.try_extend_from_slice(number.format(rule).as_bytes());
    let _fits = line.try_extend_from_slice(b"\n");
    line
}

/// The line that says in what a page isn't the one that was asked for.
fn page_line(page: u32, what: &[u8]) -> ArrayVec<u8, 64>
    requires { length what.now ≤ 10 }
    ensures { result.items ≡ codes "damaged " ++ decimal page ++ what.now }
{
    let mut number = Buffer::new();
    let mut line = ArrayVec::new();
    let _fits = line.try_extend_from_slice(b"damaged ");
    let _fits = line.try_extend_from_slice(number.format(page).as_bytes());
    let _fits = line.try_extend_from_slice(what);
    line
}

/// Puts the line of what is wrong with a file.
fn put_damage<K: Sink>(sink: &mut K, damage: Damage)
    ensures { GetsLine (K.model sink.old) (K.model sink.new) (fault_line (Status.Damaged damage)) }
{
    match damage {
        Damage::NoSuper => put_line(sink, b"no super\n"),
        Damage::BadGroup { frame } => put_line(sink, bad_group_line(frame).as_slice()),
        Damage::Rule { page, rule } => put_line(sink, rule_line(page, rule).as_slice()),
        Damage::Level { page } => put_line(sink, page_line(page, b" level\n").as_slice()),
        Damage::Extent { page } => put_line(sink, page_line(page, b" extent\n").as_slice()),
    }
}

/// Puts the line of a fault. Where the sink fails in it, nobody can be told.
fn put_line<K: Sink>(sink: &mut K, line: &[u8])
    ensures { GetsLine (K.model sink.old) (K.model sink.new) line.now }
{
    let _failed = sink.put(line);
}

/// Puts the fault line of a status that has one.
#[tactic(auto, using(crate::proofs::PutTexts::gets_nothing))]
pub(crate) fn put_fault<K: Sink>(sink: &mut K, status: Status)
    ensures line { GetsLine (K.model sink.old) (K.model sink.new) (fault_line status) }
    ensures silent { status ≡ Status.SinkFault → sink.new ≡ sink.old }
    ensures silent_done { status ≡ Status.Done → sink.new ≡ sink.old }
{
    match status {
        Status::Done | Status::SinkFault => {}
        Status::Usage => put_line(sink, b"usage\n"),
        Status::BadText(bad) => put_line(sink, bad_text_line(&bad).as_slice()),
        Status::SourceFault => put_line(sink, b"source fault\n"),
        Status::DiskFault => put_line(sink, b"disk fault\n"),
        Status::Damaged(damage) => put_damage(sink, damage),
        Status::NoMemory => put_line(sink, b"no memory\n"),
        Status::BadLayout { field, value } => {
            put_line(sink, bad_layout_line(field, value).as_slice());
        }
        Status::Small { needed, found } => put_line(sink, small_line(needed, found).as_slice()),
        Status::Full => put_line(sink, b"full\n"),
        Status::Spent => put_line(sink, b"spent\n"),
    }
}
