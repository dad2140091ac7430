//! What follows of bytes that are overwritten or torn. Each law is the contract of a function that
//! does nothing; the proofs stand in `specs/`.
ghost use Rattle.std.specs.Prelude.{◌≡◌, ℕ, ◌+◌, ◌^◌, ◌<◌, ◌≤◌, List, ◌++◌, length, take, drop, All};
ghost use Rattle.hb_disk.specs.Model.{overwritten, Torn};
ghost use Rattle.hb_disk.specs.Calls.{Apart};

/// A range that is torn twice is torn, a torn range lies in each wider one, and where no place is
/// torn nothing has changed. A range elsewhere stays.
pub fn tearing_adds_up()
    ensures twice { (at n : ℕ) (a b c : List ℕ) → Torn at n a b → Torn at n b c → Torn at n a c }
    ensures wider { (at n from m : ℕ) (before after : List ℕ) → from ≤ at → at + n ≤ from + m →
        Torn at n before after → Torn from m before after }
    ensures nowhere { (at : ℕ) (before after : List ℕ) → Torn at 0 before after → after ≡ before }
    ensures elsewhere { (at n from m : ℕ) (before after : List ℕ) → Apart from m at n →
        Torn at n before after → take m (drop from after) ≡ take m (drop from before) }
{}

/// A write is one way to tear a range, and a read of it then gives the piece.
pub fn overwriting_tears()
    ensures torn { (bytes : List ℕ) (at : ℕ) (piece : List ℕ) → at + length piece ≤ length bytes →
        All (λ x. x < 2 ^ 8) bytes → All (λ x. x < 2 ^ 8) piece →
        Torn at (length piece) bytes (overwritten bytes at piece) }
    ensures read { (bytes : List ℕ) (at : ℕ) (piece : List ℕ) → at + length piece ≤ length bytes →
        take (length piece) (drop at (overwritten bytes at piece)) ≡ piece }
{}

/// Two writes in ranges that share no place may change places, and two side by side are one.
pub fn writes_go_together()
    ensures apart { (bytes : List ℕ) (at : ℕ) (p : List ℕ) (from : ℕ) (q : List ℕ) →
        at + length p ≤ length bytes → from + length q ≤ length bytes →
        Apart at (length p) from (length q) →
        overwritten (overwritten bytes at p) from q ≡ overwritten (overwritten bytes from q) at p }
    ensures joined { (bytes : List ℕ) (at : ℕ) (p q : List ℕ) →
        at + length p + length q ≤ length bytes →
        overwritten (overwritten bytes (at + length p) q) at p ≡ overwritten bytes at (p ++ q) }
{}
