//! What no crate of the project owns: lemmas on lists, options, maps, tests, sorted elements and numbers as bytes.
//!
//! The one contract: nothing here speaks of points, pages or disks. `proofs/` has a file for each kind
//! of thing, and a lemma stands there in its most general form; what the library has already, as
//! `and_parts`, `or_parts`, `cond-true`, `same_Some`, `All-append`, is cited from there. `specs/` has
//! the words that several crates use: a number's bytes, one step of reading after another, the place of a key among sorted
//! elements, and that a type crosses threads. The two functions are what crates would else have each a copy of.
#![tactic(auto)]

ghost use Rattle.std.specs.Prelude.{◌≡◌, ◌==◌};
ghost use Rattle.std.specs.List.{list_all};
ghost use Rattle.hb_lemmas.specs.Threads.{CrossesThreads};

/// Values of the type may go to another thread, and be read by several.
pub fn crosses<T: Send + Sync>()
    ensures shared { CrossesThreads T.row }
{}

/// Whether each byte is 0. It looks at each of them, so that the compiler takes many at once: most bytes of a page are zeros
/// behind its fields, and so are those of a log area.
pub fn is_zero(bytes: &[u8]) -> bool
    ensures { result ≡ list_all (λ b. b == 0) bytes.now }
{
    let mut any = 0;
    for byte in bytes {
        any |= *byte;
    }
    any == 0
}
