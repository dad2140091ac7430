ghost use Rattle.std.specs.Prelude.{◌≡◌, ℕ, List, ◌++◌, ◌<◌, Bool, length, Err};
ghost use Rattle.hb_text.specs.declared.rules.BadLine.{BadLine};
ghost use Rattle.hb_text.specs.Grammar.{text_read};

/// Of a text that is too long, the front decides: what follows a front of more than 257,000,000
/// bytes doesn't change which line is the first that breaks a rule, nor which rule it breaks first.
#[tactic(auto, using(crate::proofs::Facts::TextFront::front_decides))]
pub fn a_long_text_is_refused_by_its_front()
    ensures { (allowed : Bool) (k : ℕ) (front rest : List ℕ) (bad : BadLine) → 257000000 < length front →
        text_read allowed k front ≡ Err bad → text_read allowed k (front ++ rest) ≡ Err bad }
{}
