ghost use Rattle.std.specs.Prelude.{◌≡◌, ◌*◌, ◌≤◌, length, take, drop, Ok, Err, MatchResult, IfOk, OnOk};
ghost use Rattle.hb_text.specs.Numbers.{number_read};
ghost use Rattle.hb_text.specs.Operands.{or_fault, values_read, body_read, lows, highs, box_read, box_words_read};

use crate::numbers::{NumberFault, read_number};
use crate::rules::TextRule;
use crate::words::Words;
use arrayvec::ArrayVec;
use hb_space::form::{BMAX, KMAX};
use hb_space::{Area, Attributes, Body, Point};

/// The greatest number of values of a command: two for each attribute.
pub(crate) const VALUES: usize = 8;

/// The value that a word says, or the rule that it breaks.
fn read_value(word: &[u8]) -> Result<u64, TextRule>
    ensures { result ≡ or_fault (number_read word.now) }
{
    match read_number(word) {
        Ok(value) => Ok(value),
        Err(NumberFault::NotANumber) => Err(TextRule::BadNumber),
        Err(NumberFault::AboveLimit) => Err(TextRule::TooLarge),
    }
}

/// The values of the next words, or the rule that the first breaks which says none.
pub(crate) fn read_values(
    words: &mut Words<'_>,
    count: usize,
) -> Result<ArrayVec<u64, VALUES>, TextRule>
    requires room { count ≤ VALUES }
    requires enough { count ≤ length words.old }
    ensures values { MatchResult result (λ values. values_read (take count words.old) ≡ Ok values.items) (λ rule. values_read (take count words.old) ≡ Err rule) }
    ensures number { IfOk result (λ values. length values.items ≡ count) }
    ensures rest { OnOk result (words.new ≡ drop count words.old) }
{
    let mut values = ArrayVec::new();
    for _ in 0..count {
        let word = words.next_word().unwrap();
        values.push(read_value(word)?);
    }
    Ok(values)
}

/// The point that the next words say, one for each attribute.
pub(crate) fn read_point(attributes: Attributes, words: &mut Words<'_>) -> Result<Point, TextRule>
    requires { attributes.number ≤ length words.old }
    ensures point { result ≡ values_read (take attributes.number words.old) }
    ensures rest { OnOk result (words.new ≡ drop attributes.number words.old) }
{
    let values = read_values(words, usize::from(attributes.number))?;
    Ok(Point::new(values.as_slice()))
}

/// The body that the next word says behind an equals sign.
pub(crate) fn read_body(words: &mut Words<'_>) -> Result<Body, TextRule>
    ensures { result ≡ body_read words.old }
{
    match words.next_word() {
        Some([b'=', body @ ..]) if body.len() <= BMAX => Ok(Body::new(body)),
        _ => Err(TextRule::BadBody),
    }
}

/// The lower and the upper values of a search, one pair after the other.
fn corners(values: &[u64]) -> (ArrayVec<u64, KMAX>, ArrayVec<u64, KMAX>)
    requires { length values.now ≤ 2 * KMAX }
    ensures lower { result.0.items ≡ lows values.now }
    ensures upper { result.1.items ≡ highs values.now }
{
    let mut lower = ArrayVec::new();
    let mut upper = ArrayVec::new();
    let mut rest = values;
    while let [lo, hi, behind @ ..] = rest {
        lower.push(*lo);
        upper.push(*hi);
        rest = behind;
    }
    (lower, upper)
}

/// The box of these values, or the rule that they break.
fn box_of(values: &[u64]) -> Result<Area, TextRule>
    requires some { 2 ≤ length values.now }
    requires few { length values.now ≤ 2 * KMAX }
    ensures { result ≡ box_read values.now }
{
    let (lower, upper) = corners(values);
    let lo = Point::new(lower.as_slice());
    let hi = Point::new(upper.as_slice());
    Area::between(lo, hi).ok_or(TextRule::EmptyBox)
}

/// The box that the next words say, two for each attribute.
pub(crate) fn read_box(attributes: Attributes, words: &mut Words<'_>) -> Result<Area, TextRule>
    requires { 2 * attributes.number ≤ length words.old }
    ensures { result ≡ box_words_read (take (2 * attributes.number) words.old) }
{
    let values = read_values(words, 2 * usize::from(attributes.number))?;
    box_of(values.as_slice())
}
