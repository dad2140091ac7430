//! Rule 2: the free chain, and the count of pages in use.
ghost use Rattle.std.specs.Prelude.{◌≡◌, ◌<◌, ◌≤◌, ◌↔◌, ◌⊎◌, ℕ, List, All, length, Some, None, true, false, IfOk, IsTrue, MatchOption};
ghost use Rattle.hb_sound.specs.Covers.{IsChained, IsFreeBreak, IsFreeFact, live_fact, live_facts};
ghost use Rattle.hb_sound.specs.Facts.{next_at};
ghost use Rattle.hb_sound.specs.Told.{item_at};
ghost use Rattle.hb_sound.specs.Walks.{IsLeast, IsLeftOut, IsChainWalk};

use crate::files::Facts;
use crate::page_facts::{Fact, next_in};
use hb_space::NoMemory;
use std::alloc::Global;

/// What follows the free page of this number, where the chain hasn't met it yet.
fn step_from(facts: &[Fact], chained: &[bool], id: u32) -> Option<u32>
    requires { length chained.now ≡ length facts.now }
    ensures { MatchOption result ((next_at facts.now id ≡ None) ⊎ (item_at chained.now id ≡ Some true))
        (λ next. (next_at facts.now id ≡ Some next) × (item_at chained.now id ≡ Some false)) }
{
    let next = next_in(facts, id)?;
    if chained[id as usize - 1] {
        None
    } else {
        Some(next)
    }
}

/// Flags the pages of the free chain, and gives the number at which it ends.
fn walk(facts: &[Fact], head: u32, chained: &mut [bool]) -> u32
    requires same { length chained.old ≡ length facts.now }
    requires fresh { All (λ b. b ≡ false) chained.old }
    ensures same { length chained.new ≡ length facts.now }
    ensures walked { (chain : List ℕ) × IsChainWalk (next_at facts.now) head chain result × IsChained chain chained.new }
{
    let mut id = head;
    while let Some(next) = step_from(facts, chained, id) {
        chained[id as usize - 1] = true;
        id = next;
    }
    id
}

/// Whether the chain leaves out the page of this place.
fn is_left_out(fact: &Fact, chained: bool) -> bool
    ensures { IsTrue result ↔ (IsFreeFact fact.now × (chained ≡ false)) }
{
    match fact {
        Fact::Live(_) => false,
        Fact::Free(_) => !chained,
    }
}

/// The least free page that the chain leaves out.
fn first_left_out(facts: &Facts<'_>, chained: &[bool]) -> Option<u32>
    requires { length chained.now ≡ length facts.now.list.now }
    ensures { (chain : List ℕ) → IsChained chain chained.now → MatchOption result
        ((id : ℕ) → ¬ (IsLeftOut (next_at facts.now.list.now) chain id))
        (λ id. IsLeast (IsLeftOut (next_at facts.now.list.now) chain) id) }
{
    for (place, fact) in facts.list.iter().enumerate() {
        if is_left_out(fact, chained[place]) {
            return Some(place as u32 + 1);
        }
    }
    None
}

/// 1 for a page in use, else 0.
fn count_one(fact: &Fact) -> u32
    ensures value { result ≡ live_fact fact.now }
    ensures one { result ≤ 1 }
{
    match fact {
        Fact::Live(_) => 1,
        Fact::Free(_) => 0,
    }
}

/// How many pages are in use.
fn count_live(facts: &Facts<'_>) -> u32
    ensures { result ≡ live_facts facts.now.list.now }
{
    let mut live = 0;
    for fact in facts.list {
        live += count_one(fact);
    }
    live
}

/// The number at which the chain ends, where it is another than 0, or the count of pages in use is another.
fn end_break(facts: &Facts<'_>, end: u32) -> Option<u32>
    ensures { MatchOption result ((end ≡ 0) × (facts.now.meta.now.live ≡ live_facts facts.now.list.now))
        (λ id. (id ≡ end) × (((end ≡ 0) × (facts.now.meta.now.live ≡ live_facts facts.now.list.now)) → ⊥)) }
{
    if end == 0 && count_live(facts) == facts.meta.live {
        None
    } else {
        Some(end)
    }
}

/// The page that is named where rule 2 is broken.
pub(crate) fn free_break(alloc: Global, facts: &Facts<'_>) -> Result<Option<u32>, NoMemory>
    ensures { IfOk result (λ broken. IsFreeBreak facts.now.meta.now facts.now.list.now broken) }
{
    let mut chained = vec![in alloc; false; facts.list.len()]?;
    let end = walk(facts.list, facts.meta.free, &mut chained);
    match first_left_out(facts, &chained) {
        Some(id) => Ok(Some(id)),
        None => Ok(end_break(facts, end)),
    }
}
