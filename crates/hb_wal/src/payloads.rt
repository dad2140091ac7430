ghost use Rattle.std.specs.Prelude.{◌≡◌, [], ◌∷◌, ◌++◌, length, map, ◌==◌, OnOk, OnErr};

use hb_space::NoMemory;
use std::marker::Model;

/// The payloads of a log's frames, the oldest first.
#[derive(Debug, Drop)]
pub struct Payloads {
    payloads: Vec<Vec<u8>>,
}

impl Model for Payloads {
    ghost use Rattle.std.specs.Prelude.{List, ℕ, map};

    ghost Value = { List (List ℕ) };

    ghost view = { λ p. map (λ v. v.items) p.payloads.items };
}

impl Payloads {
    /// The payloads of the vector, as they stand in it.
    pub fn new(payloads: Vec<Vec<u8>>) -> Payloads
        ensures { result ≡ map (λ v. v.items) payloads.items }
    {
        Payloads { payloads }
    }

    /// The vector of the payloads.
    pub fn into_vec(self) -> Vec<Vec<u8>>
        ensures { map (λ v. v.items) result.items ≡ self }
    {
        self.payloads
    }

    /// The payloads.
    pub fn as_slice(&self) -> &[Vec<u8>]
        ensures { map (λ v. v.items) result.now ≡ self.now }
    {
        &self.payloads
    }

    /// How many there are.
    pub fn len(&self) -> usize
        ensures { result ≡ length self.now }
    {
        self.payloads.len()
    }

    /// Whether there is none.
    pub fn is_empty(&self) -> bool
        ensures { result ≡ (length self.now == 0) }
    {
        self.payloads.is_empty()
    }

    /// Adds a payload at the end.
    pub(crate) fn push(&mut self, payload: Vec<u8>) -> Result<(), NoMemory>
        ensures ok { OnOk result (self.new ≡ self.old ++ payload.items ∷ []) }
        ensures err { OnErr result (self.new ≡ self.old) }
    {
        Ok(self.payloads.push(payload)?)
    }
}
