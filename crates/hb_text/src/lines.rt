ghost use Rattle.std.specs.Prelude.{◌≡◌, ◌==◌, ◌<◌, ◌≤◌, ◌∷◌, if◌then◌else◌, length, position, Err};
ghost use Rattle.std.specs.List.{list_all, list_any};
ghost use Rattle.hb_text.specs.Grammar.{words_read, line_read, says_steps, SaysLine, SaysSteps};
ghost use Rattle.hb_text.specs.Words.{lines_of, words_of, is_printable, is_empty};
ghost use Rattle.hb_text.specs.StepWords.{steps_read};

use crate::commands::{read_command, read_session};
use crate::rules::TextRule;
use crate::steps::{STEPS, left_behind};
use crate::words::Words;
use hb_set::Line;
use hb_space::Attributes;
use hb_space::form::LINE;

/// The greatest number of lines.
const LINES: u32 = 1_000_000;

fn first_line_feed(text: &[u8]) -> Option<usize>
    ensures { result ≡ position (λ c. c == 10) text.now }
{
    text.iter().position(|c| *c == b'\n')
}

/// The first line of a text, and the text behind its line feed.
#[tactic(auto, using(crate::proofs::LineCuts::lines_at_feed, crate::proofs::LineCuts::lines_at_end))]
pub(crate) fn first_line(text: &[u8]) -> (&[u8], &[u8])
    requires { 0 < length text.now }
    ensures cut { lines_of text.now ≡ result.0.now ∷ lines_of result.1.now }
    ensures shorter { length result.1.now < length text.now }
{
    match first_line_feed(text) {
        Some(at) => (&text[..at], &text[at + 1..]),
        None => (text, &text[text.len()..]),
    }
}

fn is_printable_line(line: &[u8]) -> bool
    ensures { result ≡ list_all is_printable line.now }
{
    line.iter().all(|c| 32 <= *c && *c <= 126)
}

/// Whether a space stands at either end of the line, or two stand together.
fn has_empty_word(line: &[u8]) -> bool
    ensures { result ≡ list_any is_empty (words_of line.now) }
{
    let mut words = Words::of_line(line);
    while let Some(word) = words.next_word() {
        if word.is_empty() {
            return true;
        }
    }
    false
}

/// A line's place in the text, and what it may say there.
#[derive(Clone, Copy)]
pub(crate) struct Place {
    /// The number of the line.
    pub(crate) number: u32,
    /// How many steps were taken before it.
    pub(crate) taken: usize,
    pub(crate) attributes: Attributes,
    pub(crate) step_lines: bool,
    ghost few: { taken ≤ 10000000 },
}

/// What a line says.
#[derive(Drop)]
pub(crate) enum Meaning {
    /// The line is empty.
    Nothing,
    /// A command of a session.
    Command(Line),
    /// The steps of the words behind its first one.
    Steps,
}

/// What the words behind `step` say: steps, where step lines are allowed and no more are said than
/// the schedule may still take.
fn read_step_line(place: Place, words: &mut Words<'_>) -> Result<Meaning, TextRule>
    ensures { SaysSteps words.old result (if place.step_lines then says_steps (steps_read place.taken words.old) else Err TextRule.BadStep) }
{
    if !place.step_lines || words.is_done() {
        return Err(TextRule::BadStep);
    }
    match left_behind(words, STEPS - place.taken) {
        Some(_) => Ok(Meaning::Steps),
        None => Err(TextRule::BadStep),
    }
}

/// What the words of a line say, or the first rule that they break.
#[tactic(auto, unfolding(crate::specs::Grammar::words_read))]
fn read_words(place: Place, line: &[u8]) -> Result<Meaning, TextRule>
    ensures { SaysLine (words_of line.now) result (words_read place.step_lines place.attributes.number place.taken place.number (words_of line.now)) }
{
    let mut words = Words::of_line(line);
    let Some(first) = words.next_word() else {
        return Err(TextRule::BadSession);
    };
    if first == b"step".as_slice() {
        return read_step_line(place, &mut words);
    }
    let Some(session) = read_session(first) else {
        return Err(TextRule::BadSession);
    };
    let command = read_command(place.attributes, &mut words)?;
    Ok(Meaning::Command(Line {
        number: place.number,
        session,
        command,
    }))
}

/// What the line of this place says, or the first rule that it breaks.
#[tactic(auto, unfolding(crate::specs::Grammar::line_read))]
pub(crate) fn read_line(place: Place, line: &[u8]) -> Result<Meaning, TextRule>
    ensures { SaysLine (words_of line.now) result (line_read place.step_lines place.attributes.number place.taken place.number line.now) }
{
    if place.number > LINES {
        return Err(TextRule::TooMany);
    }
    if line.is_empty() {
        return Ok(Meaning::Nothing);
    }
    if line.len() > LINE {
        return Err(TextRule::LongLine);
    }
    if !is_printable_line(line) {
        return Err(TextRule::BadByte);
    }
    if has_empty_word(line) {
        return Err(TextRule::BadSpacing);
    }
    read_words(place, line)
}
