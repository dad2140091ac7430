//! Rows: `VERB WORDS | TEXT => ANSWER`.

/// A row. Its text and its answer are spelled as `spelling` says.
#[derive(Drop)]
pub(crate) struct Row<'a> {
    pub(crate) verb: &'a str,
    pub(crate) words: &'a str,
    pub(crate) text: &'a str,
    /// `done` where the row has no answer.
    pub(crate) want: &'a str,
}

/// What stands in front of a mark and behind it. All is in front where there is no mark.
pub(crate) fn parts<'a>(text: &'a str, mark: &str, missing: &'a str) -> (&'a str, &'a str) {
    match text.split_once(mark) {
        Some(parts) => parts,
        None => (text, missing),
    }
}

/// The row of a line.
pub(crate) fn row_of(line: &str) -> Row<'_> {
    let (question, want) = parts(line, " => ", "done");
    let (front, text) = parts(question, " | ", "");
    let (verb, words) = parts(front, " ", "");
    Row {
        verb,
        words,
        text,
        want,
    }
}

/// A word of a row, by its place.
pub(crate) fn word_at(words: &str, place: usize) -> Option<&str> {
    words.split_whitespace().nth(place)
}

/// A number of a row, by its place.
pub(crate) fn number_at(words: &str, place: usize) -> Option<u64> {
    word_at(words, place)?.parse::<u64>().ok()
}

/// A byte of a row, by its place.
pub(crate) fn byte_at(words: &str, place: usize) -> Option<u8> {
    word_at(words, place)?.parse::<u8>().ok()
}

/// Whether this is the answer that a row wants, in which `*` stands for any text.
pub(crate) fn is_answer(want: &str, came: &str) -> bool {
    match want.split_once('*') {
        Some((front, back)) => came.starts_with(front) && came.ends_with(back),
        None => came == want,
    }
}
