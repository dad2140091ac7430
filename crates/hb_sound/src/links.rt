//! Rules 7 and 8: what leaves name.
ghost use Rattle.std.specs.Prelude.{◌≡◌, ◌+◌, ◌<◌, ◌≤◌, ◌↔◌, if◌then◌else◌, List, Some, None, All, length, replicate, vec_len, IfErr, IfOk, IfSome, IsErrOf, IsTrue};
ghost use Rattle.hb_space.specs.Boxes.{Within};
ghost use Rattle.hb_frag.specs.Leaves.{IsWellCut, WellCut, leaves_of};
ghost use Rattle.hb_frag.specs.declared.pages.LivePage.{LivePage as Live};
ghost use Rattle.hb_frag.specs.declared.pages.Page.{Page as Content};
ghost use Rattle.hb_sound.specs.Asking.{Asks};
ghost use Rattle.hb_sound.specs.Facts.{FindsBelow, FindsSame, SeesBelow, SeesSame};
ghost use Rattle.hb_sound.specs.Links.{Adds, AreLinks, AreRead, ReadsLinks, or_else, IsRestOf, Knows, KnowsTold};
ghost use Rattle.hb_sound.specs.Stops.{OnBroken};
ghost use Rattle.hb_sound.specs.declared.page_facts.Fact.TheVariants.{Live as SeenLive};
ghost use Rattle.hb_sound.specs.declared.names.Times.TheVariants.{Never};
ghost use Rattle.hb_sound.specs.declared.pages.AuditStop.TheVariants.{Failed};
ghost use Rattle.hb_sound.specs.declared.rests.Rest.TheVariants.{Lone};

use crate::corners::Corners;
use crate::files::Facts;
use crate::names::{Times, count_names, count_one};
use crate::page_facts::{Fact, Seen, seen_in};
use crate::rests::Rest;
use crate::{AuditStop, Pages};
use hb_frag::{Frag, Leaf, LivePage, Node, Page};
use hb_space::{Area, NoMemory};
use std::alloc::Global;

/// What the leaves of the pages name.
#[derive(Drop)]
pub(crate) struct Links {
    /// How often sibling leaves name each page.
    pub(crate) named: Vec<Times>,
    /// The first page with a sibling leaf that names none of its level and the leaf's box.
    pub(crate) sibling: Option<u32>,
    /// The first page with a child leaf that names none one level down with the leaf's box in its own.
    pub(crate) child: Option<u32>,
}

/// Whether what was seen has this level and the box of these corners.
fn is_same(seen: &Seen, level: u8, lo: &[u64], hi: &[u64]) -> bool
    ensures { IsTrue result ↔ ((seen.now.level ≡ level) × (seen.now.area ≡ record { lo = lo.now; hi = hi.now })) }
{
    seen.level == level && seen.area.lo().values() == lo && seen.area.hi().values() == hi
}

/// Whether a page in use of this number, which may be any, has this level and the box of these corners.
fn sees_same(facts: &[Fact], level: u8, id: u32, lo: &[u64], hi: &[u64]) -> bool
    ensures { IsTrue result ↔ SeesSame facts.now level id (record { lo = lo.now; hi = hi.now }) }
{
    match seen_in(facts, id) {
        Some(seen) => is_same(seen, level, lo, hi),
        None => false,
    }
}

/// Whether what was seen is one level down and has the box of these corners in its own.
fn is_below(seen: &Seen, level: u8, corners: &Corners) -> bool
    ensures { IsTrue result ↔ ((seen.now.level + 1 ≡ level) × (length corners.now.lo ≡ length seen.now.area.lo) × Within corners.now seen.now.area) }
{
    u16::from(seen.level) + 1 == u16::from(level) && corners.are_within(&seen.area)
}

/// Whether a page in use of this number, which may be any, is one level down and has the box of these corners in its own.
pub(crate) fn sees_below(facts: &[Fact], level: u8, id: u32, corners: &Corners) -> bool
    ensures { IsTrue result ↔ SeesBelow facts.now level id corners.now }
{
    match seen_in(facts, id) {
        Some(seen) => is_below(seen, level, corners),
        None => false,
    }
}

/// Whether the leaf with the box of these corners, where it is a sibling leaf, names a page of its level and box.
fn finds_same(facts: &[Fact], level: u8, leaf: &Leaf, corners: &Corners) -> bool
    ensures { IsTrue result ↔ FindsSame facts.now level (record { leaf = leaf.now; area = corners.now }) }
{
    match leaf {
        Leaf::Sibling(id) => sees_same(facts, level, *id, corners.lo(), corners.hi()),
        Leaf::Records(_) | Leaf::Child(_) => true,
    }
}

/// Whether the leaf with the box of these corners, where it is a child leaf, names a page one level down with the box in
/// its own.
fn finds_below(facts: &[Fact], level: u8, leaf: &Leaf, corners: &Corners) -> bool
    ensures { IsTrue result ↔ FindsBelow facts.now level (record { leaf = leaf.now; area = corners.now }) }
{
    match leaf {
        Leaf::Child(id) => sees_below(facts, level, *id, corners),
        Leaf::Records(_) | Leaf::Sibling(_) => true,
    }
}

/// Whether both hold.
fn both(one: bool, other: bool) -> bool
    ensures { IsTrue result ↔ (IsTrue one × IsTrue other) }
{
    one && other
}

/// Whether each sibling leaf of the part, whose box has these corners, names a page of its level and the leaf's box, and
/// whether each child leaf names one a level down with the leaf's box in its own. The corners stay as they are.
fn leaves_match(facts: &[Fact], level: u8, frag: &Frag, corners: &mut Corners) -> (bool, bool)
    requires { IsWellCut frag.now corners.old }
    ensures siblings { IsTrue result.0 ↔ All (FindsSame facts.now level) (leaves_of frag.now corners.old) }
    ensures children { IsTrue result.1 ↔ All (FindsBelow facts.now level) (leaves_of frag.now corners.old) }
    ensures same { corners.new ≡ corners.old }
{
    match &frag.node {
        Node::Tip(leaf) => (
            finds_same(facts, level, leaf, corners),
            finds_below(facts, level, leaf, corners),
        ),
        Node::Cut {
            axis,
            value,
            left,
            right,
        } => {
            let greatest = corners.replace_hi(*axis, *value - 1);
            let below = leaves_match(facts, level, left, corners);
            corners.replace_hi(*axis, greatest);
            let least = corners.replace_lo(*axis, *value);
            let from = leaves_match(facts, level, right, corners);
            corners.replace_lo(*axis, least);
            (both(below.0, from.0), both(below.1, from.1))
        }
    }
}

/// The first page that isn't good, after one more page.
fn first_bad(first: Option<u32>, id: u32, good: bool) -> Option<u32>
    ensures { result ≡ (if good then first else or_else first id) }
{
    if good { first } else { first.or(Some(id)) }
}

impl Links {
    /// Those of no page yet.
    fn new(alloc: Global, count: usize) -> Result<Links, NoMemory>
        ensures named { IfOk result (λ links. links.named.items ≡ replicate count Never) }
        ensures none { IfOk result (λ links. (links.sibling ≡ None) × (links.child ≡ None)) }
    {
        Ok(Links {
            named: vec![in alloc; Times::Never; count]?,
            sibling: None,
            child: None,
        })
    }

    /// Adds those of a page in use.
    fn add(&mut self, facts: &[Fact], id: u32, page: &LivePage)
        requires { WellCut page.now }
        ensures { Adds facts.now id page.now self.old self.new }
    {
        let corners = &mut Corners::of(&page.area);
        let (same, below) = leaves_match(facts, page.level, &page.frag, corners);
        self.sibling = first_bad(self.sibling, id, same);
        self.child = first_bad(self.child, id, below);
        count_names(&page.frag, &mut self.named);
    }

    /// Adds those of the page of this number, which is read once more.
    fn read_again<P: Pages>(
        &mut self,
        facts: &[Fact],
        pages: &mut P,
        id: u32,
    ) -> Result<(), AuditStop>
        ensures links { ReadsLinks (P.model pages.old).told facts.now id (λ _ _. Unit {0}) result self.old self.new }
        ensures asks { Asks P.model P.asked (IsErrOf result Failed) pages.old pages.new }
    {
        match pages.page(id)? {
            Some(Page::Live(page)) => {
                // only a page that was another when it was read first has a cut that doesn't cut
                if !page.is_well_cut() {
                    return Err(AuditStop::Broken { page: id, rule: 4 });
                }
                self.add(facts, id, &page);
                Ok(())
            }
            Some(Page::Free { .. }) => Ok(()),
            None => Err(AuditStop::Broken { page: id, rule: 0 }),
        }
    }

    /// Adds those of a page of this level with one sibling leaf, which has this box, whose child leaves keep rule 8.
    fn add_lone(&mut self, facts: &[Fact], level: u8, id: u32, name: u32, area: &Area)
        ensures adds { (page : Live) → page.level ≡ level → IsRestOf facts.now level (leaves_of page.frag page.area) (Lone name area.now)
            → Adds facts.now id page self.old self.new }
        ensures same { vec_len self.new.named ≡ vec_len self.old.named }
    {
        let same = sees_same(facts, level, name, area.lo().values(), area.hi().values());
        self.sibling = first_bad(self.sibling, id, same);
        count_one(name, &mut self.named);
    }

    /// Adds those of the page in use of this number, of which this was seen. It is read once more where that doesn't say them.
    fn read_seen<P: Pages>(
        &mut self,
        facts: &[Fact],
        seen: &Seen,
        pages: &mut P,
        id: u32,
    ) -> Result<(), AuditStop>
        ensures links { ReadsLinks (P.model pages.old).told facts.now id (λ _ page. Knows facts.now (SeenLive seen.now) page) result self.old self.new }
        ensures asks { Asks P.model P.asked (IsErrOf result Failed) pages.old pages.new }
    {
        match &seen.rest {
            Rest::Nothing => Ok(()),
            Rest::Lone { name, area } => {
                self.add_lone(facts, seen.level, id, *name, area);
                Ok(())
            }
            Rest::More => self.read_again(facts, pages, id),
        }
    }

    /// Adds those of the page of this place.
    fn read<P: Pages>(
        &mut self,
        facts: &Facts<'_>,
        pages: &mut P,
        place: u32,
    ) -> Result<(), AuditStop>
        requires { place < length facts.now.list.now }
        ensures links { ReadsLinks (P.model pages.old).told facts.now.list.now (place + 1) (λ told _. KnowsTold facts.now.list.now told) result self.old self.new }
        ensures asks { Asks P.model P.asked (IsErrOf result Failed) pages.old pages.new }
    {
        let id = place + 1;
        match seen_in(facts.list, id) {
            Some(seen) => self.read_seen(facts.list, seen, pages, id),
            None => Ok(()),
        }
    }
}

/// What the leaves of all pages up to the highest page name. A page is read once more where its fact doesn't say it.
pub(crate) fn read_links<P: Pages>(
    alloc: Global,
    facts: &Facts<'_>,
    pages: &mut P,
) -> Result<Links, AuditStop>
    ensures links { IfOk result (λ links. IfSome (P.model pages.old).told (λ told. (list : List Content) → AreRead told facts.now.list.now list → AreLinks facts.now.list.now list (length facts.now.list.now) links)) }
    ensures never { IfErr result (OnBroken (λ _ _. IfSome (P.model pages.old).told (λ told. (list : List Content) → AreRead told facts.now.list.now list → ⊥))) }
    ensures same { IfOk result (λ links. vec_len links.named ≡ length facts.now.list.now) }
    ensures asks { Asks P.model P.asked (IsErrOf result Failed) pages.old pages.new }
{
    let mut links = Links::new(alloc, facts.list.len())?;
    for place in 0..facts.list.len() as u32 {
        links.read(facts, pages, place)?;
    }
    Ok(links)
}
