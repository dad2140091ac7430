//! Spelled texts: `\n` and `\r` are line ends, and `<3-9/2:PART>` is the part for each of the numbers 3, 5, 7 and 9, which stand
//! in the place of each `#` of it. Where a step isn't given it is 1.

use std::alloc::Global;

/// Adds a text that has no repeated part. A `#` is the number, where there is one.
fn put_plain(text: &mut String, plain: &str, number: Option<u64>) -> Option<()> {
    let mut escaped = false;
    for letter in plain.chars() {
        let was_escaped = escaped;
        escaped = letter == '\\' && !was_escaped;
        put_letter(text, letter, was_escaped, number)?;
    }
    Some(())
}

/// Adds a letter, which a `\` may stand in front of.
fn put_letter(text: &mut String, letter: char, escaped: bool, number: Option<u64>) -> Option<()> {
    match (letter, escaped, number) {
        ('n', true, _) => text.push('\n').ok(),
        ('r', true, _) => text.push('\r').ok(),
        ('\\', false, _) => Some(()),
        ('#', false, Some(number)) => write!(text, "{number}").ok(),
        _ => text.push(letter).ok(),
    }
}

/// The first and last number and the step of `3-9/2`.
fn range_of(words: &str) -> Option<(u64, u64, u64)> {
    let (range, step) = match words.split_once('/') {
        Some((range, step)) => (range, step.parse::<u64>().ok()?),
        None => (words, 1),
    };
    let (first, last) = range.split_once('-')?;
    Some((first.parse::<u64>().ok()?, last.parse::<u64>().ok()?, step))
}

/// Adds a part for each number.
fn put_repeated(text: &mut String, repeated: &str) -> Option<()> {
    let (words, part) = repeated.split_once(':')?;
    let (first, last, step) = range_of(words)?;
    for number in first..last.saturating_add(1) {
        if number.wrapping_sub(first) % step.max(1) == 0 {
            put_plain(text, part, Some(number))?;
        }
    }
    Some(())
}

/// Adds a spelled text, up to its next repeated part and with that. What is behind it is left.
fn put_front<'a>(text: &mut String, spelled: &'a str) -> Option<&'a str> {
    match spelled.split_once('<') {
        Some((front, more)) => {
            put_plain(text, front, None)?;
            let (repeated, rest) = more.split_once('>')?;
            put_repeated(text, repeated)?;
            Some(rest)
        }
        None => {
            put_plain(text, spelled, None)?;
            Some("")
        }
    }
}

/// The text that is spelled so.
pub(crate) fn spelled(alloc: Global, spelling: &str) -> Option<String> {
    let mut text = String::new(alloc);
    let mut rest = spelling;
    for _ in 0..spelling.len() {
        rest = put_front(&mut text, rest)?;
    }
    Some(text)
}
