//! The steps of a step line.
ghost use Rattle.std.specs.Prelude.{◌≡◌, ◌+◌, ◌≤◌, ◌==◌, ℕ, List, ◌++◌, ◌∷◌, length, position, replicate, Some, None, option_map, MatchOption, OnOk};
ghost use Rattle.hb_text.specs.Numbers.{number_read};
ghost use Rattle.hb_text.specs.StepWords.{actor_of, count_number, repeated, word_steps, steps_of};
ghost use Rattle.hb_text.specs.Steps.{steps_left};

use crate::commands::read_session;
use crate::numbers::read_number;
use crate::words::Words;
use hb_space::actors::{CONSOLIDATOR, FLUSHER, POSTER};
use hb_space::{Actor, NoMemory};

/// The greatest number of steps of a schedule.
pub(crate) const STEPS: usize = 10_000_000;

/// Steps of one actor, one after the other.
#[derive(Clone, Copy)]
struct Repeats {
    actor: Actor,
    count: usize,
}

/// The actor that a word names.
fn read_actor(word: &[u8]) -> Option<Actor>
    ensures { result ≡ actor_of word.now }
{
    if word == b"p".as_slice() {
        Some(POSTER)
    } else if word == b"c".as_slice() {
        Some(CONSOLIDATOR)
    } else if word == b"f".as_slice() {
        Some(FLUSHER)
    } else {
        read_session(word)
    }
}

/// The count of steps that a word says: a number from 1 to 1,000,000.
fn read_count(word: &[u8]) -> Option<usize>
    ensures { result ≡ count_number (number_read word.now) }
{
    match read_number(word) {
        Ok(number) if 1 <= number && number <= 1_000_000 => Some(number as usize),
        _ => None,
    }
}

/// Where the first `x` of the word stands.
fn first_x(word: &[u8]) -> Option<usize>
    ensures { result ≡ position (λ c. c == 120) word.now }
{
    word.iter().position(|c| *c == b'x')
}

/// What stands before the first `x` of a word, and behind it. `None` where the word has none.
fn cut_at_x(word: &[u8]) -> Option<(&[u8], &[u8])>
    ensures { MatchOption result
        (word_steps word.now ≡ repeated (actor_of word.now) (Some 1))
        (λ cut. word_steps word.now ≡ repeated (actor_of cut.0.now) (count_number (number_read cut.1.now))) }
{
    match first_x(word) {
        Some(at) => Some((&word[..at], &word[at + 1..])),
        None => None,
    }
}

/// So many steps of an actor, where both were read.
fn repeats_of(actor: Option<Actor>, count: Option<usize>) -> Option<Repeats>
    ensures { option_map (λ t. replicate t.count t.actor) result ≡ repeated actor count }
{
    match (actor, count) {
        (Some(actor), Some(count)) => Some(Repeats { actor, count }),
        _ => None,
    }
}

/// The steps that a word says: an actor, alone or with `x` and a count behind it.
fn read_repeats(word: &[u8]) -> Option<Repeats>
    ensures { option_map (λ t. replicate t.count t.actor) result ≡ word_steps word.now }
{
    match cut_at_x(word) {
        None => repeats_of(read_actor(word), Some(1)),
        Some((actor, count)) => repeats_of(read_actor(actor), read_count(count)),
    }
}

/// How many of so many steps are left behind those that the words say. `None` where a word says no steps, or too many
/// are said.
pub(crate) fn left_behind(words: &mut Words<'_>, left: usize) -> Option<usize>
    ensures { result ≡ steps_left left words.old }
{
    let mut left = left;
    while let Some(word) = words.next_word() {
        let repeats = read_repeats(word)?;
        left = left.checked_sub(repeats.count)?;
    }
    Some(left)
}

/// Adds steps of one actor.
fn push_repeats(steps: &mut Vec<Actor>, repeats: Repeats) -> Result<(), NoMemory>
    requires { length steps.old.items + repeats.count ≤ 10000000 }
    ensures { OnOk result (steps.new.items ≡ steps.old.items ++ replicate repeats.count repeats.actor) }
{
    steps.resize(steps.len() + repeats.count, repeats.actor)
}

/// Adds the steps that the words say.
pub(crate) fn push_steps(words: &mut Words<'_>, steps: &mut Vec<Actor>) -> Result<(), NoMemory>
    requires { (said : List ℕ) × (steps_of words.old ≡ Some said) × (length steps.old.items + length said ≤ 10000000) }
    ensures { OnOk result ((said : List ℕ) → steps_of words.old ≡ Some said → steps.new.items ≡ steps.old.items ++ said) }
{
    while let Some(word) = words.next_word() {
        let Some(repeats) = read_repeats(word) else {
            return Ok(());
        };
        push_repeats(steps, repeats)?;
    }
    Ok(())
}
