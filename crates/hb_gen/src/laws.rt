//! What follows from the definitions alone. Each law is the contract of a function that does
//! nothing: a caller learns it by the call.
ghost use Rattle.std.specs.Prelude.{◌≡◌, ◌≤◌, ℕ, Bool, [], Ok};
ghost use Rattle.hb_space.specs.Points.{IsAttributeCount};
ghost use Rattle.hb_text.specs.Grammar.{text_read};
ghost use Rattle.hb_gen.specs.Draws.{draw, state_behind};
ghost use Rattle.hb_gen.specs.Lines.{generated};
ghost use Rattle.hb_gen.specs.Spelling.{generated_text};

/// The first draws from the state 1.
#[tactic(auto, unfolding(crate::specs::Draws::next_state))]
pub fn draws_from_one()
    ensures first { draw 1 ≡ 1817669548 }
    ensures second { draw (state_behind 1 1) ≡ 2187888307 }
    ensures third { draw (state_behind 2 1) ≡ 2784682393 }
{}

/// A generated text breaks no rule, and says just the lines that were drawn, whether step lines are
/// allowed or not.
#[tactic(auto, using(crate::proofs::ReadBack::generated_is_read))]
pub fn a_generated_text_says_its_lines()
    ensures { (allowed : Bool) (x n k : ℕ) → n ≤ 1000000 → IsAttributeCount k →
        text_read allowed k (generated_text x n k) ≡ Ok (record { lines = generated x n k; steps = [] }) }
{}
