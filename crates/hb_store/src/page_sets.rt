//! Sets of numbers of pages.
ghost use Rattle.std.specs.Prelude.{◌≡◌, ◌≢◌, ℕ, ◌<◌, ◌≤◌, ◌==◌, ◌||◌, IfOk};
ghost use Rattle.std.specs.FinSet as set;
ghost use Rattle.std.specs.Int.{bit_at};
ghost use Rattle.hb_layout.specs.declared.limits.TheConstants.{PAGES_MAX};

use hb_layout::limits::PAGES_MAX;
use hb_space::NoMemory;
use std::alloc::Global;
use std::marker::Model;

/// How many words have a bit for each number that a page may have.
const WORDS: usize = PAGES_MAX as usize / 64 + 1;

/// A set of numbers of pages: a bit for each number that a page may have.
#[derive(Drop)]
pub(crate) struct PageSet {
    words: Vec<u64>,
}

impl Model for PageSet {
    ghost use Rattle.std.specs.Prelude.{◌≡◌, length};
    ghost use Rattle.std.specs.Coded.{coded_ℕ};
    ghost use Rattle.std.specs.FinSet as set;
    ghost use Rattle.std.specs.Ordering.{nat_cmp};
    ghost use Rattle.hb_store.specs.PageSets.{numbers_in};
    ghost use Rattle.hb_store.specs.declared.page_sets.TheConstants.{WORDS};

    ghost Value = { set.FinSet nat_cmp };

    ghost coded = { set.code coded_ℕ };

    ghost view = { λ s. numbers_in s.words.items };

    ghost invariant = { λ s. length s.words.items ≡ WORDS };
}

impl PageSet {
    /// The set without a number. All memory that it ever takes is taken here.
    pub(crate) fn new(alloc: Global) -> Result<PageSet, NoMemory>
        ensures { IfOk result (λ s. s ≡ set.empty) }
    {
        Ok(PageSet {
            words: vec![in alloc; 0; WORDS]?,
        })
    }

    /// Whether the number is in it.
    pub(crate) fn has(&self, id: u32) -> bool
        ensures { result ≡ set.contains self.now id }
    {
        match self.words.get(id as usize / 64) {
            Some(word) => is_set(*word, id % 64),
            None => false,
        }
    }

    /// Adds a number.
    pub(crate) fn add(&mut self, id: u32)
        requires { id ≤ PAGES_MAX }
        ensures { (q : ℕ) → set.contains self.new q ≡ (q == id || set.contains self.old q) }
    {
        let place = id as usize / 64;
        self.words[place] = with_bit(self.words[place], id % 64);
    }

    /// Takes all numbers out.
    pub(crate) fn clear(&mut self)
        ensures { self.new ≡ set.empty }
    {
        self.words.fill(0);
    }
}

/// Whether a bit of a word is set.
fn is_set(word: u64, bit: u32) -> bool
    requires { bit < 64 }
    ensures { result ≡ (bit_at word bit == 1) }
{
    word >> bit & 1 == 1
}

/// The word with this bit set.
fn with_bit(word: u64, bit: u32) -> u64
    requires { bit < 64 }
    ensures here { bit_at result bit ≡ 1 }
    ensures others { (i : ℕ) → i ≢ bit → bit_at result i ≡ bit_at word i }
{
    word | 1 << bit
}
