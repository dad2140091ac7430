// A command line by draws: its session, its kind, and the values of its command.
ghost use Rattle.std.specs.Prelude.{◌≡◌, ◌≤◌, ◌*◌, decimal};
ghost use Rattle.hb_gen.specs.Draws.{state_behind};
ghost use Rattle.hb_gen.specs.Lines.{drawn_point, drawn_lows, drawn_highs, drawn_command, behind_command, drawn_line, behind_line};

use crate::draws::Draws;
use arrayvec::ArrayVec;
use hb_set::{Command, Line};
use hb_space::form::KMAX;
use hb_space::{Area, Attributes, Body, Point, Record};
use itoa::Buffer;

// How many sessions the lines are parted among.
const SESSIONS: u32 = 8;

// One of these sessions.
#[derive(Clone, Copy)]
struct Session {
    number: u8,
    ghost allowed: { (1 ≤ number) × (number ≤ 8) },
}

// Draws the line of this number.
pub(crate) fn draw_line(draws: &mut Draws, attributes: Attributes, number: u32) -> Line
    ensures line { result ≡ drawn_line attributes.number number draws.old.state }
    ensures state { draws.new.state ≡ behind_line attributes.number draws.old.state }
{
    let session = Session {
        number: draws.below(SESSIONS) as u8 + 1,
    };
    let command = draw_command(draws, attributes, number, session);
    Line {
        number,
        session: session.number,
        command,
    }
}

// Draws a command: its kind, and then its values. Of ten, six are inserts, one is a delete, two are
// lookups and one is a search.
#[tactic(auto, unfolding(crate::specs::Lines::drawn_command))]
fn draw_command(draws: &mut Draws, attributes: Attributes, number: u32, session: Session) -> Command
    ensures command { result ≡ drawn_command attributes.number number session.number draws.old.state }
    ensures state { draws.new.state ≡ behind_command attributes.number draws.old.state }
{
    match draws.below(10) {
        0..=5 => {
            let key = draw_point(draws, attributes, session);
            let body = number_body(number);
            Command::Insert(Record { key, body })
        }
        6 => Command::Delete(draw_point(draws, attributes, session)),
        7 | 8 => Command::Lookup(draw_point(draws, attributes, session)),
        _ => Command::Search(draw_box(draws, attributes)),
    }
}

// The body of an insert: its line's number.
fn number_body(number: u32) -> Body
    ensures { result ≡ decimal number }
{
    let mut digits = Buffer::new();
    Body::new(digits.format(number).as_bytes())
}

// Draws a point. Its first value tells the session, so that no two sessions have a point in common.
fn draw_point(draws: &mut Draws, attributes: Attributes, session: Session) -> Point
    ensures point { result ≡ drawn_point attributes.number session.number draws.old.state }
    ensures state { draws.new.state ≡ state_behind attributes.number draws.old.state }
{
    let first = draws.below(125) * SESSIONS + u32::from(session.number - 1);
    let mut values: ArrayVec<u64, KMAX> = ArrayVec::new();
    values.push(u64::from(first));
    for _ in 1..attributes.number {
        values.push(u64::from(draws.below(1000)));
    }
    Point::new(values.as_slice())
}

// Draws a box: for each attribute a lower value, and an upper one less than 50 above it.
fn draw_box(draws: &mut Draws, attributes: Attributes) -> Area
    ensures lower { result.lo ≡ drawn_lows attributes.number draws.old.state }
    ensures upper { result.hi ≡ drawn_highs attributes.number draws.old.state }
    ensures state { draws.new.state ≡ state_behind (2 * attributes.number) draws.old.state }
{
    let mut lower: ArrayVec<u64, KMAX> = ArrayVec::new();
    let mut upper: ArrayVec<u64, KMAX> = ArrayVec::new();
    for _ in 0..attributes.number {
        let least = draws.below(1000);
        lower.push(u64::from(least));
        upper.push(u64::from(least + draws.below(50)));
    }
    let lo = Point::new(lower.as_slice());
    let hi = Point::new(upper.as_slice());
    Area::between(lo, hi).unwrap()
}
