//! What follows of the command text and of the output from the definitions alone. Each law is the
//! contract of a function that does nothing: a caller learns it by the call.

ghost use Rattle.std.specs.Prelude.{◌≡◌, ◌≢◌, ◌<◌, ◌^◌, ◌↔◌, ℕ, List, [], ◌∷◌, ◌++◌, length, codes, Ok};
ghost use Rattle.std.specs.List.{AllByRecursion, join_with_byte};
ghost use Rattle.std.specs.Fmt.{decimal};
ghost use Rattle.hb_space.specs.Points.{IsPoint, IsBody};
ghost use Rattle.hb_space.specs.declared.records.Record.{Record};
ghost use Rattle.hb_set.specs.declared.commands.Reply.TheVariants.{Found};
ghost use Rattle.hb_text.specs.BodyText.{body_text, IsVisible};
ghost use Rattle.hb_text.specs.Numbers.{number_read};
ghost use Rattle.hb_text.specs.Output.{numbers_text, record_text, reply_text};
ghost use Rattle.hb_text.specs.Words.{lines_of, words_of};
ghost use Rattle.hb_text.specs.TextLaws.{HasNo, with_line_feeds};

/// A word says a number exactly where it is that number's decimal spelling.
#[tactic(auto, using(crate::proofs::Facts::NumberLaws::numbers_are_decimal))]
pub fn numbers_are_decimal()
    ensures { (word : List ℕ) (n : ℕ) → n < 2 ^ 64 → ((number_read word ≡ Ok n) ↔ (word ≡ decimal n)) }
{}

/// A text that ends in a line feed is its lines, each with a line feed behind it, and any lines
/// without a line feed in them come back from such a text. Without its last line feed a text has
/// the same lines.
#[tactic(auto, using(crate::proofs::Facts::TextLaws::lines_give_the_text, crate::proofs::Facts::TextLaws::lines_come_back, crate::proofs::Facts::TextLaws::last_feed_is_free, crate::proofs::Facts::TextLaws::lines_have_no_feed))]
pub fn lines_make_the_text()
    ensures whole { (text : List ℕ) → with_line_feeds (lines_of (text ++ 10 ∷ [])) ≡ text ++ 10 ∷ [] }
    ensures back { (lines : List (List ℕ)) → AllByRecursion (HasNo 10) lines → lines_of (with_line_feeds lines) ≡ lines }
    ensures last { (text : List ℕ) (c : ℕ) → c ≢ 10 → lines_of (text ++ c ∷ []) ≡ lines_of (text ++ c ∷ 10 ∷ []) }
    ensures cut { (text : List ℕ) → AllByRecursion (HasNo 10) (lines_of text) }
{}

/// A line is its words with a space between any two, and any words without a space in them come
/// back from such a line.
#[tactic(auto, using(crate::proofs::Facts::WordLaws::words_give_the_line, crate::proofs::Facts::WordLaws::words_come_back, crate::proofs::Facts::WordLaws::words_have_no_space))]
pub fn words_make_the_line()
    ensures whole { (line : List ℕ) → join_with_byte 32 (words_of line) ≡ line }
    ensures back { (words : List (List ℕ)) → 0 < length words → AllByRecursion (HasNo 32) words → words_of (join_with_byte 32 words) ≡ words }
    ensures cut { (line : List ℕ) → AllByRecursion (HasNo 32) (words_of line) }
{}

/// No body can be taken for other output. Bodies that are printed the same are the same; what is
/// printed of one has no space and no control byte; and the line that it stands in is one line.
#[tactic(auto, using(crate::proofs::Facts::BodyLaws::one_body, crate::proofs::Facts::BodyLaws::printed_is_visible, crate::proofs::Facts::BodyLaws::found_is_a_line, crate::proofs::Facts::BodyLaws::record_is_a_line))]
pub fn bodies_forge_no_output()
    ensures same { (a b : List ℕ) → body_text a ≡ body_text b → a ≡ b }
    ensures visible { (body : List ℕ) → IsBody body → AllByRecursion IsVisible (body_text body) }
    ensures found { (line : ℕ) (body : List ℕ) → line < 2 ^ 64 → IsBody body →
        lines_of (reply_text line (Found body)) ≡ (decimal line ++ (codes " found " ++ body_text body)) ∷ [] }
    ensures held { (r : Record) → IsPoint r.key → IsBody r.body →
        lines_of (record_text r) ≡ ((43 ∷ numbers_text r.key) ++ codes " " ++ body_text r.body) ∷ [] }
{}
