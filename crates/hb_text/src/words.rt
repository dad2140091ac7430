ghost use Rattle.std.specs.Prelude.{◌≡◌, ◌==◌, [], ◌∷◌, length, count_by, position, MatchOption, IsTrue, ◌↔◌};
ghost use Rattle.hb_text.specs.Words.{words_of};

use std::marker::Model;

/// Where the first space of the line stands.
fn first_space(line: &[u8]) -> Option<usize>
    ensures { result ≡ position (λ c. c == 32) line.now }
{
    line.iter().position(|c| *c == b' ')
}

/// The first word of the line and what stands behind its space. `None` where the line is one word.
#[tactic(auto, using(crate::proofs::WordCuts::words_at_space, crate::proofs::WordCuts::words_at_end))]
fn cut_word(line: &[u8]) -> Option<(&[u8], &[u8])>
    ensures { MatchOption result (words_of line.now ≡ line.now ∷ []) (λ cut. words_of line.now ≡ cut.0.now ∷ words_of cut.1.now) }
{
    match first_space(line) {
        Some(at) => Some((&line[..at], &line[at + 1..])),
        None => None,
    }
}

fn spaces(line: &[u8]) -> usize
    ensures { result ≡ count_by (λ c. c == 32) line.now }
{
    line.iter().filter(|c| **c == b' ').count()
}

/// The words of a line that are left: it is cut at each space.
#[derive(Drop)]
pub(crate) struct Words<'a> {
    rest: &'a [u8],
    done: bool,
}

impl<'a> Model for Words<'a> {
    ghost use Rattle.std.specs.Prelude.{List, ℕ, if◌then◌else◌, []};
    ghost use Rattle.hb_text.specs.Words.{words_of};

    ghost Value = { List (List ℕ) };

    ghost view = { λ w. if w.done then [] else words_of w.rest.now };
}

impl<'a> Words<'a> {
    /// The words of the line.
    pub(crate) fn of_line(line: &'a [u8]) -> Words<'a>
        ensures { result ≡ words_of line.now }
    {
        Words {
            rest: line,
            done: false,
        }
    }

    /// The first word that is left.
    pub(crate) fn next_word(&mut self) -> Option<&'a [u8]>
        ensures { MatchOption result ((self.old ≡ []) × (self.new ≡ [])) (λ word. self.old ≡ word.now ∷ self.new) }
    {
        if self.done {
            return None;
        }
        match cut_word(self.rest) {
            Some((word, behind)) => {
                self.rest = behind;
                Some(word)
            }
            None => {
                self.done = true;
                Some(self.rest)
            }
        }
    }

    /// Whether no word is left.
    #[tactic(auto, using(crate::proofs::WordCuts::some_word))]
    pub(crate) fn is_done(&self) -> bool
        ensures { IsTrue result ↔ (self.now ≡ []) }
    {
        self.done
    }

    /// How many words are left.
    #[tactic(auto, using(crate::proofs::WordCuts::words_counted))]
    pub(crate) fn count(&self) -> usize
        ensures { result ≡ length self.now }
    {
        if self.done {
            return 0;
        }
        spaces(self.rest) + 1
    }
}
