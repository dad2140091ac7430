//! Rule 9: one page of the whole space on each level, and one sibling leaf for each other page.
ghost use Rattle.std.specs.Prelude.{◌≡◌, ◌<◌, ◌↔◌, ℕ, List, Some, length, slice_get, IfOk, IsTrue, MatchOption};
ghost use Rattle.hb_sound.specs.Covers.{AreBelow, AreFirsts, HasBox, IsCoverBreak, IsLooseFact, IsLooseSeen, LacksLevel, SeesSome, SeesLoose};
ghost use Rattle.hb_sound.specs.declared.page_facts.Fact.{Fact as FactSeen};
ghost use Rattle.hb_sound.specs.Facts.{seen_at};
ghost use Rattle.hb_sound.specs.Told.{item_at};
ghost use Rattle.hb_sound.specs.Walks.{IsLeast};

use crate::files::Facts;
use crate::names::Times;
use crate::page_facts::{Fact, Seen};
use hb_space::{Area, NoMemory};
use std::alloc::Global;

/// Whether a page in use of this level has this box.
fn is_same(fact: &Fact, level: u8, area: &Area) -> bool
    ensures { IsTrue result ↔ HasBox level area.now fact.now }
{
    match fact {
        Fact::Live(seen) => seen.level == level && seen.area == *area,
        Fact::Free(_) => false,
    }
}

/// The first page in use of this level with this box.
fn first_same(facts: &Facts<'_>, level: u8, area: &Area) -> Option<u32>
    ensures { MatchOption result ((id : ℕ) → ¬ (SeesSome (HasBox level area.now) facts.now.list.now id))
        (IsLeast (SeesSome (HasBox level area.now) facts.now.list.now)) }
{
    for (place, fact) in facts.list.iter().enumerate() {
        if is_same(fact, level, area) {
            return Some(place as u32 + 1);
        }
    }
    None
}

/// The first page of the whole space of each level below the height, from level 0 on. None where a level has none.
fn firsts_of(alloc: Global, facts: &Facts<'_>, whole: &Area) -> Result<Option<Vec<u32>>, NoMemory>
    ensures { IfOk result (λ firsts. MatchOption firsts (LacksLevel facts.now.list.now facts.now.meta.now.height whole.now) (λ found. AreFirsts facts.now.list.now facts.now.meta.now.height whole.now found.items)) }
{
    let mut firsts = Vec::new(alloc);
    for level in 0..facts.meta.height {
        match first_same(facts, level, whole) {
            Some(id) => firsts.push(id)?,
            None => return Ok(None),
        }
    }
    Ok(Some(firsts))
}

/// Whether what was seen has this box.
fn has_area(seen: &Seen, area: &Area) -> bool
    ensures { IsTrue result ↔ (seen.now.area ≡ area.now) }
{
    seen.area == *area
}

/// The first page of the whole space of this level, where the level is listed.
fn first_of(firsts: &[u32], level: u8) -> Option<u32>
    ensures { result ≡ slice_get firsts.now level }
{
    firsts.get(usize::from(level)).copied()
}

/// Whether the page in use of this number is of the whole space beside a lesser one, or of less and not named once.
fn is_loose(seen: &Seen, id: u32, firsts: &[u32], times: Times, whole: &Area) -> bool
    ensures { (facts : List FactSeen) → AreFirsts facts (length firsts.now) whole.now firsts.now → seen.now.level < length firsts.now →
        seen_at facts id ≡ Some seen.now → (IsTrue result ↔ IsLooseSeen facts whole.now id seen.now times) }
{
    if !has_area(seen, whole) {
        return times != Times::Once;
    }
    match first_of(firsts, seen.level) {
        Some(first) => first != id,
        None => false,
    }
}

/// Whether it is a page in use that is loose.
fn is_loose_fact(fact: &Fact, id: u32, firsts: &[u32], times: Times, whole: &Area) -> bool
    ensures { (facts : List FactSeen) → AreFirsts facts (length firsts.now) whole.now firsts.now → AreBelow (length firsts.now) facts →
        item_at facts id ≡ Some fact.now → (IsTrue result ↔ IsLooseFact facts whole.now id times fact.now) }
{
    match fact {
        Fact::Live(seen) => is_loose(seen, id, firsts, times, whole),
        Fact::Free(_) => false,
    }
}

/// The first page that is loose.
fn first_loose(facts: &Facts<'_>, firsts: &[u32], named: &[Times], whole: &Area) -> Option<u32>
    requires same { length named.now ≡ length facts.now.list.now }
    requires firsts { AreFirsts facts.now.list.now (length firsts.now) whole.now firsts.now }
    ensures { AreBelow (length firsts.now) facts.now.list.now → MatchOption result
        ((id : ℕ) → ¬ (SeesLoose facts.now.list.now named.now whole.now id)) (IsLeast (SeesLoose facts.now.list.now named.now whole.now)) }
{
    for (place, fact) in facts.list.iter().enumerate() {
        let id = place as u32 + 1;
        if is_loose_fact(fact, id, firsts, named[place], whole) {
            return Some(id);
        }
    }
    None
}

/// The page that is named where rule 9 is broken.
pub(crate) fn cover_break(
    alloc: Global,
    facts: &Facts<'_>,
    named: &[Times],
) -> Result<Option<u32>, NoMemory>
    requires same { length named.now ≡ length facts.now.list.now }
    ensures { IfOk result (λ broken. AreBelow facts.now.meta.now.height facts.now.list.now → IsCoverBreak facts.now.meta.now facts.now.list.now named.now broken) }
{
    let whole = Area::whole(facts.meta.k);
    match firsts_of(alloc, facts, &whole)? {
        Some(firsts) => Ok(first_loose(facts, &firsts, named, &whole)),
        None => Ok(Some(0)),
    }
}
