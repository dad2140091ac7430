ghost use Rattle.std.specs.Prelude.{◌≡◌, OnOk, OnErr};
ghost use Rattle.hb_frag.specs.Leaves.{with_name};

use hb_space::NoMemory;
use std::marker::Model;

/// A list of pages, by their numbers.
#[derive(Debug, Drop)]
pub struct Pages {
    pages: Vec<u32>,
}

impl Model for Pages {
    ghost use Rattle.std.specs.Prelude.{ℕ, List};

    ghost Value = { List ℕ };

    ghost view = { λ p. p.pages.items };
}

impl Pages {
    /// The pages of the vector, as they stand in it.
    pub fn new(pages: Vec<u32>) -> Pages
        ensures { result ≡ pages.items }
    {
        Pages { pages }
    }

    /// The pages.
    pub fn as_slice(&self) -> &[u32]
        ensures { result.now ≡ self.now }
    {
        &self.pages
    }

    /// The vector of the pages.
    pub fn into_vec(self) -> Vec<u32>
        ensures { result.items ≡ self }
    {
        self.pages
    }

    /// Adds the page at the end, where it isn't listed yet.
    pub(crate) fn add(&mut self, page: u32) -> Result<(), NoMemory>
        ensures ok { OnOk result (self.new ≡ with_name self.old page) }
        ensures err { OnErr result (self.new ≡ self.old) }
    {
        if !self.pages.contains(&page) {
            self.pages.push(page)?;
        }
        Ok(())
    }
}
