ghost use Rattle.std.specs.Prelude.{◌≡◌, ◌<◌, ◌^◌, ◌↔◌, ℕ, Some, None, length, Any, IfOk, IsSome, IsTrue, MatchOption, ◌≤◌};
ghost use Rattle.std.specs.List.{Contains};
ghost use Rattle.hb_space.specs.Boxes.{IsArea, Holds};
ghost use Rattle.hb_frag.specs.Trees.{Tip};
ghost use Rattle.hb_frag.specs.Leaves.{Placed, leaf_at, with_leaf_at, leaves, child_names, firsts, first_named, siblings_of, weight_of, DirectlyCovers, WellCut};
ghost use Rattle.hb_frag.specs.Rules.{is_thin};
ghost use Rattle.hb_frag.specs.Paths.{part_at, with_part, way_to, sibling_way, StaysInside};

use crate::{Frag, Leaf, Pages, Path, is_thin};
use hb_space::{Area, NoMemory, Point};
use smallvec::SmallVec;
use std::alloc::Global;

/// A page in use.
#[derive(Debug, Drop)]
pub struct LivePage {
    /// 0 for a page of records, one more for each level above.
    pub level: u8,
    /// The box for which the page is responsible.
    pub area: Area,
    /// Its inside.
    pub frag: Frag,
}

/// A page of the file.
#[derive(Debug, Drop)]
pub enum Page {
    /// A page in use.
    Live(LivePage),
    /// A page that is free, with the next one of the free chain. 0 ends the chain.
    Free { next: u32 },
}

impl Default for Page {
    /// A free page that ends its chain: a stand-in until a page comes.
    fn default() -> Page
        ensures { result ≡ Page.Free 0 }
    {
        Page::Free { next: 0 }
    }
}

impl LivePage {
    /// Whether every cut cuts its box: some points of the box lie below the cut's value, and
    /// others don't.
    pub fn is_well_cut(&self) -> bool
        ensures { IsTrue result ↔ WellCut self.now }
    {
        self.frag.is_well_cut(self.area.copy())
    }

    /// The leaf whose box holds the point, and that box.
    pub fn leaf_at(&self, p: &Point) -> (&Leaf, Area)
        requires well_cut { WellCut self.now }
        requires held { Holds self.now.area p.now }
        ensures value { leaf_at self.now p.now ≡ Some (record { leaf = result.0.now; area = result.1 }) }
        ensures inside { Holds result.1 p.now }
        ensures area { IsArea self.now.area }
    {
        self.frag.leaf_at(self.area.copy(), p)
    }

    /// The path to the leaf whose box holds the point.
    pub fn path_to(&self, alloc: Global, p: &Point) -> Result<Path, NoMemory>
        requires well_cut { WellCut self.now }
        requires held { Holds self.now.area p.now }
        ensures way { IfOk result (λ path. path ≡ way_to p.now self.now.frag) }
        ensures leaf { IfOk result (λ path. (placed : Placed)
            × (leaf_at self.now p.now ≡ Some placed)
            × (part_at path self.now.frag self.now.area ≡ Some (Tip placed.leaf, placed.area))) }
        ensures change { IfOk result (λ path. (leaf : Leaf) →
            with_part path self.now.frag (Tip leaf) ≡ with_leaf_at p.now (λ _. leaf) self.now.frag self.now.area) }
    {
        let mut path = Path::new(SmallVec::new(alloc));
        self.frag.trace(self.area.copy(), p, &mut path)?;
        Ok(path)
    }

    /// What the leaves weigh together.
    pub fn weight(&self) -> u32
        requires { weight_of self.now.frag < 2 ^ 32 }
        ensures { result ≡ weight_of self.now.frag }
    {
        self.frag.weight()
    }

    /// Whether the leaves weigh at most so much together.
    pub fn weighs_at_most(&self, capacity: u16) -> bool
        ensures { IsTrue result ↔ (weight_of self.now.frag ≤ capacity) }
    {
        self.frag.weight_or_most() <= u32::from(capacity)
    }

    /// Whether the page is thin.
    #[tactic(auto, using(crate::proofs::Facts::Parts::thin_by_most))]
    pub fn is_thin(&self, capacity: u16) -> bool
        ensures { result ≡ is_thin (weight_of self.now.frag) capacity }
    {
        is_thin(self.frag.weight_or_most(), capacity)
    }

    /// Whether a child leaf names the page.
    pub fn names(&self, id: u32) -> bool
        ensures { IsTrue result ↔ Contains (leaves self.now.frag) (Leaf.Child id) }
    {
        self.frag.names(id)
    }

    /// The pages that child leaves name, each once, where it stands first from the left.
    #[tactic(auto, using(crate::proofs::Facts::NamesListed::all_firsts))]
    pub fn children(&self, alloc: Global) -> Result<Pages, NoMemory>
        ensures { IfOk result (λ pages. pages ≡ firsts (child_names (leaves self.now.frag))) }
    {
        let mut pages = Pages::new(Vec::new(alloc));
        self.frag.list_children(&mut pages)?;
        Ok(pages)
    }

    /// The box of the first sibling leaf from the left that names the page. `None` where none
    /// does.
    pub fn sibling_area(&self, id: u32) -> Option<Area>
        requires { WellCut self.now }
        ensures value { result ≡ first_named id (siblings_of self.now) }
        ensures found { IsSome result ↔ Any (λ s. s.0 ≡ id) (siblings_of self.now) }
    {
        self.frag.sibling_area(self.area.copy(), id)
    }

    /// The path to the first sibling leaf from the left that names the page. `None` where none does.
    pub fn sibling_path(&self, alloc: Global, id: u32) -> Result<Option<Path>, NoMemory>
        ensures { IfOk result (λ path. path ≡ sibling_way id self.now.frag) }
    {
        let mut path = Path::new(SmallVec::new(alloc));
        if self.frag.trace_sibling(id, &mut path)? {
            Ok(Some(path))
        } else {
            Ok(None)
        }
    }

    /// Whether the page directly holds the box: it lies in the page's and meets no sibling
    /// leaf's.
    pub fn directly(&self, a: &Area) -> bool
        requires well_cut { WellCut self.now }
        requires attributes { length a.now.lo ≡ length self.now.area.lo }
        ensures { IsTrue result ↔ DirectlyCovers self.now a.now }
    {
        a.within(&self.area) && self.frag.is_clear_of(self.area.copy(), a)
    }

    /// The part to which the path leads, and its box. `None` where the path leads out of the
    /// page.
    pub fn subtree(&self, path: &Path) -> Option<(&Frag, Area)>
        requires { WellCut self.now }
        ensures value { MatchOption result
            (part_at path.now self.now.frag self.now.area ≡ None)
            (λ part. part_at path.now self.now.frag self.now.area ≡ Some (part.0.now, part.1)) }
        ensures inside { IsSome result ↔ StaysInside path.now self.now.frag }
    {
        self.frag.part(self.area.copy(), path.as_slice())
    }
}
