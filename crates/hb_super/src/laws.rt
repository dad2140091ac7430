//! What follows of superblocks from their definitions alone.
ghost use Rattle.std.specs.Prelude.{◌≡◌, ◌≢◌, ◌⊎◌, ℕ, ◌%◌, ◌≤◌, List};
ghost use Rattle.hb_layout.specs.declared.meta.Meta.{Meta as Said};
ghost use Rattle.hb_super.specs.Superblocks.{HasSuper, IsNewest, HasNone, next_turn, OneNewest};
ghost use Rattle.hb_super.specs.Moments.{IsUncovered, HidesNoOther};

use hb_outside::big_endian_law;

/// A place has one superblock: its bytes are the body of one turn, and say one thing.
pub fn a_place_has_one_superblock()
    ensures turn { (bytes : List ℕ) (t s : ℕ) (m n : Said) → t % 2 ≡ s % 2 →
        HasSuper bytes t m → HasSuper bytes s n → t ≡ s }
    ensures said { (bytes : List ℕ) (t s : ℕ) (m n : Said) → t % 2 ≡ s % 2 →
        HasSuper bytes t m → HasSuper bytes s n → m ≡ n }
{
    big_endian_law();
}

/// Two turns of different places are next to each other, in one way.
pub fn one_turn_is_newer()
    ensures one { (t s : ℕ) → t ≤ 3 → s ≤ 3 → t % 2 ≢ s % 2 → (t ≡ next_turn s) ⊎ (s ≡ next_turn t) }
    ensures not_both { (t s : ℕ) → t ≡ next_turn s → s ≡ next_turn t → ⊥ }
{}

/// Where a place has a superblock one is the newest, and no other.
pub fn one_superblock_is_newest()
    ensures some { (bytes : List ℕ) → HasNone bytes ⊎ OneNewest bytes }
    ensures turn { (bytes : List ℕ) (t s : ℕ) (m n : Said) → IsNewest bytes t m → IsNewest bytes s n → t ≡ s }
    ensures said { (bytes : List ℕ) (t s : ℕ) (m n : Said) → IsNewest bytes t m → IsNewest bytes s n → m ≡ n }
{
    a_place_has_one_superblock();
}

/// Where a place hides no other body of the turn behind its closed gate, what is uncovered is what is written.
pub fn a_known_body_is_uncovered()
    ensures { (before c : List ℕ) (turn : ℕ) (meta : Said) → HidesNoOther before turn meta →
        IsUncovered before turn c → IsNewest c turn meta }
{}
