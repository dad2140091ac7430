ghost use Rattle.std.specs.Prelude.{◌≡◌, ◌-◌, ◌<◌, ◌^◌, min, ◌↔◌, [], ◌∷◌, length, All, IfOk, IsTrue, OnOk};
ghost use Rattle.hb_space.specs.Boxes.{Meets};
ghost use Rattle.hb_frag.specs.Leaves.{leaf_weight, child_names, with_names, first_named, siblings};
ghost use Rattle.hb_frag.specs.Renaming.{renamed_leaf};

use crate::Pages;
use crate::records::copies;
use hb_space::{Area, NoMemory, Records};
use std::alloc::Global;

/// What stands at the end of a path through a page.
#[derive(Debug, Drop)]
pub enum Leaf {
    /// The records of the leaf's box.
    Records(Records),
    /// The page one level down that has the leaf's box in its own.
    Child(u32),
    /// The page of the same level to which the leaf's box was given.
    Sibling(u32),
}

impl Leaf {
    /// What the leaf weighs: its records, at least 1. A leaf that names a page weighs 1.
    pub fn weight(&self) -> u32
        requires { leaf_weight self.now < 2 ^ 32 }
        ensures { result ≡ leaf_weight self.now }
    {
        match self {
            Leaf::Records(records) => (records.as_slice().len() as u32).max(1),
            Leaf::Child(_) | Leaf::Sibling(_) => 1,
        }
    }

    /// What the leaf weighs, or the greatest number of the type where that is less.
    pub(crate) fn weight_or_most(&self) -> u32
        ensures { result ≡ min (leaf_weight self.now) (2 ^ 32 - 1) }
    {
        match self {
            Leaf::Records(records) => {
                let count = records.as_slice().len();
                if count < 4_294_967_295 {
                    (count as u32).max(1)
                } else {
                    u32::MAX
                }
            }
            Leaf::Child(_) | Leaf::Sibling(_) => 1,
        }
    }

    /// The same leaf once more.
    pub fn copy(&self, alloc: Global) -> Result<Leaf, NoMemory>
        ensures { IfOk result (λ leaf. leaf ≡ self.now) }
    {
        match self {
            Leaf::Records(records) => Ok(Leaf::Records(copies(alloc, records)?)),
            Leaf::Child(page) => Ok(Leaf::Child(*page)),
            Leaf::Sibling(page) => Ok(Leaf::Sibling(*page)),
        }
    }

    /// The same leaf once more, but with `new` in the place of `old` where it is a child leaf that names it.
    pub(crate) fn copy_renamed(&self, alloc: Global, old: u32, new: u32) -> Result<Leaf, NoMemory>
        ensures { IfOk result (λ leaf. leaf ≡ renamed_leaf old new self.now) }
    {
        match self {
            Leaf::Child(page) if *page == old => Ok(Leaf::Child(new)),
            Leaf::Child(page) => Ok(Leaf::Child(*page)),
            Leaf::Records(_) | Leaf::Sibling(_) => self.copy(alloc),
        }
    }

    /// Whether it is the sibling leaf that names the page.
    pub(crate) fn is_sibling(&self, id: u32) -> bool
        ensures { IsTrue result ↔ (self.now ≡ Leaf.Sibling id) }
    {
        match self {
            Leaf::Sibling(page) => *page == id,
            Leaf::Records(_) | Leaf::Child(_) => false,
        }
    }

    /// Whether it is the child leaf that names the page.
    pub(crate) fn is_child(&self, id: u32) -> bool
        ensures { IsTrue result ↔ (self.now ≡ Leaf.Child id) }
    {
        match self {
            Leaf::Child(page) => *page == id,
            Leaf::Records(_) | Leaf::Sibling(_) => false,
        }
    }

    /// Adds the page that it names as a child to the list, where it isn't in it yet.
    pub(crate) fn list_child(&self, pages: &mut Pages) -> Result<(), NoMemory>
        ensures { OnOk result (pages.new ≡ with_names pages.old (child_names (self.now ∷ []))) }
    {
        match self {
            Leaf::Child(page) => pages.add(*page),
            Leaf::Records(_) | Leaf::Sibling(_) => Ok(()),
        }
    }

    /// Its box, where it is a sibling leaf that names the page.
    pub(crate) fn sibling_area(&self, area: Area, id: u32) -> Option<Area>
        ensures { result ≡ first_named id (siblings (record { leaf = self.now; area = area } ∷ [])) }
    {
        match self {
            Leaf::Sibling(page) if *page == id => Some(area),
            _ => None,
        }
    }

    /// Whether it isn't a sibling leaf whose box, `area`, meets the box `a`.
    pub(crate) fn is_clear_of(&self, area: Area, a: &Area) -> bool
        requires { length a.now.lo ≡ length area.lo }
        ensures { IsTrue result ↔ All (λ s. ¬ (Meets s.1 a.now)) (siblings (record { leaf = self.now; area = area } ∷ [])) }
    {
        match self {
            Leaf::Sibling(_) => !area.meets(a),
            Leaf::Records(_) | Leaf::Child(_) => true,
        }
    }
}
