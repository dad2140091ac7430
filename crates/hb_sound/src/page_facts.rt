//! The few facts that the audit keeps of each page.
ghost use Rattle.std.specs.Prelude.{◌≡◌, ◌<◌, ◌≤◌, ◌^◌, ◌⊎◌, ◌++◌, [], ◌∷◌, Some, None, All, length, flat_map, option_map, vec_len, IfErr, IfOk, IfSome, IsErrOf, OnOk};
ghost use Rattle.hb_frag.specs.Leaves.{WellCut, leaf_weight, leaves, leaves_of, records_of, weight_of};
ghost use Rattle.hb_frag.specs.declared.pages.Page.{Page as Content};
ghost use Rattle.hb_frag.specs.declared.pages.Page.TheVariants as content;
ghost use Rattle.hb_sound.specs.Asking.{Asks};
ghost use Rattle.hb_page_codec.specs.Weight.{IsLight};
ghost use Rattle.hb_ops.specs.Files.{page_records};
ghost use Rattle.hb_sound.specs.Facts.{AreFactsOf, IsFactOf, IsOwnRule, IsSeenOf, next_at, seen_at};
ghost use Rattle.hb_sound.specs.RecordCounts.{IsLightFact};
ghost use Rattle.hb_sound.specs.Links.{IsRestOf, Knows, KnowsTold};
ghost use Rattle.hb_sound.specs.Stops.{OnBroken};
ghost use Rattle.hb_sound.specs.Told.{CoversFile, IsHole, IsWholeFile, file_of, item_at};
ghost use Rattle.hb_sound.specs.Walks.{IsLeast};
ghost use Rattle.hb_sound.specs.declared.pages.AuditStop.TheVariants.{Failed};

use crate::rests::{Rest, rest_of};
use crate::{AuditStop, Pages};
use hb_frag::{Frag, Leaf, LivePage, Node, Page};
use hb_ops::{Meta, local_rule};
use hb_space::{Area, NoMemory};
use std::alloc::Global;

/// What is kept of a page in use.
#[derive(Drop)]
pub(crate) struct Seen {
    pub(crate) level: u8,
    pub(crate) area: Area,
    /// The first rule that the page breaks by itself. 0 for none.
    pub(crate) rule: u8,
    /// How many records it has.
    pub(crate) records: u64,
    /// What of its leaves is still to be looked up.
    pub(crate) rest: Rest,
}

/// What is kept of a page.
#[derive(Drop)]
pub(crate) enum Fact {
    /// It is in use.
    Live(Seen),
    /// It is free, and this is the next one of the free chain.
    Free(u32),
}

/// How many records a leaf has.
fn count_leaf(leaf: &Leaf) -> u64
    ensures count { result ≡ length (records_of leaf.now) }
    ensures few { result ≤ leaf_weight leaf.now }
{
    match leaf {
        Leaf::Records(records) => records.as_slice().len() as u64,
        Leaf::Child(_) | Leaf::Sibling(_) => 0,
    }
}

/// How many records a page's inside has.
fn count_records(frag: &Frag) -> u64
    requires { weight_of frag.now < 2 ^ 32 }
    ensures count { result ≡ length (flat_map records_of (leaves frag.now)) }
    ensures few { result ≤ weight_of frag.now }
{
    match &frag.node {
        Node::Tip(leaf) => count_leaf(leaf),
        Node::Cut { left, right, .. } => count_records(left) + count_records(right),
    }
}

/// How many records a page of level 0 has. Another has none.
fn records_in(page: &LivePage) -> u64
    requires { weight_of page.now.frag < 2 ^ 32 }
    ensures count { result ≡ length (page_records (content.Live page.now)) }
    ensures few { result < 2 ^ 32 }
{
    if page.level == 0 {
        count_records(&page.frag)
    } else {
        0
    }
}

/// The first rule that a page breaks by itself, 0 for none.
fn own_rule(page: &LivePage, meta: &Meta) -> u8
    ensures own { IsOwnRule result page.now meta.now }
    ensures cut { result ≡ 0 → WellCut page.now }
{
    match local_rule(page, meta) {
        Some(rule) => rule,
        None => 0,
    }
}

/// What is kept of a page in use, behind these facts.
fn seen_of(page: LivePage, meta: &Meta, facts: &[Fact]) -> Seen
    requires { weight_of page.frag < 2 ^ 32 }
    ensures seen { IsSeenOf meta.now result page }
    ensures rest { IsRestOf facts.now page.level (leaves_of page.frag page.area) result.rest }
    ensures light { result.records < 2 ^ 32 }
{
    let rule = own_rule(&page, meta);
    let records = records_in(&page);
    let rest = rest_of(rule, facts, &page);
    Seen {
        level: page.level,
        area: page.area,
        rule,
        records,
        rest,
    }
}

/// What is kept of a page, behind these facts.
fn fact_of(page: Page, meta: &Meta, facts: &[Fact]) -> Fact
    requires { IsLight page }
    ensures fact { IsFactOf meta.now result page }
    ensures knows { Knows facts.now result page }
    ensures light { IsLightFact result }
{
    match page {
        Page::Live(page) => Fact::Live(seen_of(page, meta, facts)),
        Page::Free { next } => Fact::Free(next),
    }
}

/// Reads the page of a number, and keeps what is kept of it behind these facts. Broken: it is beyond the pages of the
/// file, or none is there.
fn read_fact<P: Pages>(
    meta: &Meta,
    facts: &[Fact],
    pages: &mut P,
    id: u32,
) -> Result<Fact, AuditStop>
    requires some { 1 ≤ id }
    ensures knows { IfOk result (λ fact. IfSome (P.model pages.old).told (λ told. (page : Content) → item_at told id ≡ Some (Some page) → Knows facts.now fact page)) }
    ensures fact { IfOk result (λ fact. IfSome (P.model pages.old).told (λ told. (page : Content) → item_at told id ≡ Some (Some page) → IsFactOf meta.now fact page)) }
    ensures light { IfOk result IsLightFact }
    ensures there { IfOk result (λ fact. (id ≤ meta.now.pages) × IfSome (P.model pages.old).told (λ told. item_at told id ≡ Some None → ⊥)) }
    ensures hole { IfErr result (OnBroken (λ page rule. (page ≡ id) × (rule ≡ 0)
        × IfSome (P.model pages.old).told (λ told. (meta.now.pages < id) ⊎ (id ≤ length told → item_at told id ≡ Some None)))) }
    ensures asks { Asks P.model P.asked (IsErrOf result Failed) pages.old pages.new }
{
    if id > meta.pages {
        return Err(AuditStop::Broken { page: id, rule: 0 });
    }
    match pages.page(id)? {
        Some(page) => Ok(fact_of(page, meta, facts)),
        None => Err(AuditStop::Broken { page: id, rule: 0 }),
    }
}

/// A list with room for what is kept of each page up to the highest page. It doesn't grow then, so nothing is moved.
fn room_for(alloc: Global, meta: &Meta) -> Result<Vec<Fact>, NoMemory>
    ensures { IfOk result (λ facts. facts.items ≡ []) }
{
    Ok(Vec::with_capacity(alloc, meta.high.min(meta.pages) as usize)?)
}

/// Adds a fact.
fn keep(facts: &mut Vec<Fact>, fact: Fact) -> Result<(), NoMemory>
    ensures { OnOk result (facts.new.items ≡ facts.old.items ++ fact ∷ []) }
{
    facts.push(fact)?;
    Ok(())
}

/// Reads each page up to the highest page, and keeps what is kept of it. Rule 0: a page is there under each number.
pub(crate) fn read_facts<P: Pages>(
    alloc: Global,
    meta: &Meta,
    pages: &mut P,
) -> Result<Vec<Fact>, AuditStop>
    requires covered { IfSome (P.model pages.old).told (CoversFile meta.now) }
    ensures facts { IfOk result (λ facts. IfSome (P.model pages.old).told (λ told. IsWholeFile meta.now told × AreFactsOf meta.now facts.items (file_of meta.now told).pages × KnowsTold facts.items told)) }
    ensures light { IfOk result (λ facts. All IsLightFact facts.items) }
    ensures count { IfOk result (λ facts. (vec_len facts ≡ meta.now.high) × (meta.now.high ≤ meta.now.pages)) }
    ensures hole { IfErr result (OnBroken (λ page rule. IfSome (P.model pages.old).told (λ told. (rule ≡ 0) × IsLeast (IsHole meta.now told) page))) }
    ensures asks { Asks P.model P.asked (IsErrOf result Failed) pages.old pages.new }
{
    let mut facts = room_for(alloc, meta)?;
    for place in 0..meta.high {
        let fact = read_fact(meta, &facts, pages, place + 1)?;
        keep(&mut facts, fact)?;
    }
    Ok(facts)
}

/// The fact of a number, which may be any. There is none of 0.
fn fact_at(facts: &[Fact], id: u32) -> Option<&Fact>
    ensures { option_map (λ fact. fact.now) result ≡ item_at facts.now id }
{
    let place = id.checked_sub(1)?;
    facts.get(place as usize)
}

/// What was seen of the page in use of this number, which may be any.
pub(crate) fn seen_in(facts: &[Fact], id: u32) -> Option<&Seen>
    ensures { option_map (λ seen. seen.now) result ≡ seen_at facts.now id }
{
    match fact_at(facts, id)? {
        Fact::Live(seen) => Some(seen),
        Fact::Free(_) => None,
    }
}

/// What follows the free page of this number, which may be any.
pub(crate) fn next_in(facts: &[Fact], id: u32) -> Option<u32>
    ensures { result ≡ next_at facts.now id }
{
    match fact_at(facts, id)? {
        Fact::Live(_) => None,
        Fact::Free(next) => Some(*next),
    }
}
