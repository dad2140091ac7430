//! Whether a file is sound.
ghost use Rattle.std.specs.Prelude.{◌≡◌, ◌+◌, ◌<◌, ◌≤◌, ◌↔◌, ℕ, List, Some, None, All, length, vec_len, IfErr, IfOk, IfSome, IsErrOf, IsTrue, MatchOption, OnOk};
ghost use Rattle.hb_frag.specs.declared.pages.Page.{Page as Content};
ghost use Rattle.hb_sound.specs.Asking.{Asks};
ghost use Rattle.hb_layout.specs.Limits.{IsLayout};
ghost use Rattle.hb_sound.specs.Covers.{HasRule, IsLeastRule, SeesRule, SeesTop};
ghost use Rattle.hb_sound.specs.Told.{HasBoundedMeta, CoversFile, file_with};
ghost use Rattle.hb_ops.specs.Sound.{IsSound};
ghost use Rattle.hb_sound.specs.Facts.{AreFactsOf};
ghost use Rattle.hb_sound.specs.RecordCounts.{IsLightFact, all_records, records_seen};
ghost use Rattle.hb_sound.specs.Links.{AreLinks};
ghost use Rattle.hb_sound.specs.Names.{IsSoundWith, KeepsSix, Names, NamesIn, OneIsNamed, SoundBreaksNone};
ghost use Rattle.hb_sound.specs.Stops.{OnBroken};
ghost use Rattle.hb_sound.specs.Walks.{IsLeast};
ghost use Rattle.hb_sound.specs.declared.pages.AuditStop.TheVariants.{Broken, Failed};

use crate::chains::free_break;
use crate::covers::cover_break;
use crate::files::Facts;
use crate::links::{Links, read_links};
use crate::page_facts::{Fact, Seen, read_facts, seen_in};
use crate::{AuditStop, Pages};
use hb_ops::Meta;
use hb_space::Area;
use std::alloc::Global;

/// Whether what was seen is at the top of the file and has the whole space.
fn is_top_page(meta: &Meta, seen: &Seen, whole: &Area) -> bool
    ensures { IsTrue result ↔ ((seen.now.level + 1 ≡ meta.now.height) × (seen.now.area ≡ whole.now)) }
{
    u16::from(seen.level) + 1 == u16::from(meta.height) && seen.area == *whole
}

/// Whether the root is in use at the top of the file and has the whole space.
fn is_top(facts: &Facts<'_>) -> bool
    ensures { IsTrue result ↔ SeesTop facts.now.meta.now facts.now.list.now }
{
    match seen_in(facts.list, facts.meta.root) {
        Some(root) => is_top_page(facts.meta, root, &Area::whole(facts.meta.k)),
        None => false,
    }
}

/// Rule 1, where a page is there up to the highest page.
fn is_rooted(facts: &Facts<'_>) -> bool
    ensures bounded { IsTrue result → HasBoundedMeta facts.now.meta.now }
    ensures rooted { IsTrue result ↔ (HasBoundedMeta facts.now.meta.now × SeesTop facts.now.meta.now facts.now.list.now) }
{
    let meta = facts.meta;
    meta.high >= 1
        && meta.root <= meta.high
        && meta.free <= meta.high
        && meta.live <= meta.high
        && is_top(facts)
}

/// Whether this is the first rule that the page breaks by itself.
fn breaks(fact: &Fact, rule: u8) -> bool
    ensures { IsTrue result ↔ HasRule rule fact.now }
{
    match fact {
        Fact::Live(seen) => seen.rule == rule,
        Fact::Free(_) => false,
    }
}

/// The least page of which this is the first rule that it breaks by itself.
fn first_breaking(facts: &Facts<'_>, rule: u8) -> Option<u32>
    ensures { MatchOption result ((id : ℕ) → ¬ (SeesRule facts.now.list.now rule id)) (IsLeast (SeesRule facts.now.list.now rule)) }
{
    for (place, fact) in facts.list.iter().enumerate() {
        if breaks(fact, rule) {
            return Some(place as u32 + 1);
        }
    }
    None
}

/// Where this page was found, the audit stops: it is named for the rule.
fn none_for(rule: u8, page: Option<u32>) -> Result<(), AuditStop>
    ensures ok { OnOk result (page ≡ None) }
    ensures err { IfErr result (λ stop. (id : ℕ) × (page ≡ Some id) × (stop ≡ Broken id rule)) }
{
    match page {
        Some(page) => Err(AuditStop::Broken { page, rule }),
        None => Ok(()),
    }
}

/// The rules 3 to 6.
fn test_alone(facts: &Facts<'_>) -> Result<(), AuditStop>
    ensures ok { OnOk result ((id rule : ℕ) → 3 ≤ rule → rule ≤ 6 → ¬ (SeesRule facts.now.list.now rule id)) }
    ensures err { IfErr result (λ stop. (id rule : ℕ) × (stop ≡ Broken id rule) × IsLeastRule facts.now.list.now id rule) }
{
    for rule in 3..7 {
        if let Some(page) = first_breaking(facts, rule) {
            return Err(AuditStop::Broken { page, rule });
        }
    }
    Ok(())
}

/// The rules 1 to 6.
fn test_pages(alloc: Global, facts: &Facts<'_>) -> Result<(), AuditStop>
    ensures keeps { OnOk result ((list : List Content) → AreFactsOf facts.now.meta.now facts.now.list.now list → KeepsSix (file_with facts.now.meta.now list)) }
    ensures names { IfErr result (OnBroken (λ page rule. (list : List Content) → AreFactsOf facts.now.meta.now facts.now.list.now list → NamesIn (file_with facts.now.meta.now list) page rule)) }
    ensures bounded { OnOk result (HasBoundedMeta facts.now.meta.now) }
    ensures no_fault { IsErrOf result Failed → ⊥ }
{
    if !is_rooted(facts) {
        return Err(AuditStop::Broken { page: 0, rule: 1 });
    }
    none_for(2, free_break(alloc, facts)?)?;
    test_alone(facts)
}

/// The rules 7 to 10.
fn test_links(alloc: Global, facts: &Facts<'_>, links: &Links) -> Result<(), AuditStop>
    requires { vec_len links.now.named ≡ length facts.now.list.now }
    ensures sound { OnOk result ((list : List Content) → AreFactsOf facts.now.meta.now facts.now.list.now list → KeepsSix (file_with facts.now.meta.now list)
        → AreLinks facts.now.list.now list (length facts.now.list.now) links.now → IsSound (file_with facts.now.meta.now list)) }
    ensures names { IfErr result (OnBroken (λ page rule. (list : List Content) → AreFactsOf facts.now.meta.now facts.now.list.now list → KeepsSix (file_with facts.now.meta.now list)
        → AreLinks facts.now.list.now list (length facts.now.list.now) links.now → NamesIn (file_with facts.now.meta.now list) page rule)) }
    ensures no_fault { IsErrOf result Failed → ⊥ }
{
    none_for(7, links.sibling)?;
    none_for(8, links.child)?;
    none_for(9, cover_break(alloc, facts, &links.named)?)?;
    none_for(10, first_breaking(facts, 10))
}

/// How many records the page has.
fn records_of(fact: &Fact) -> u64
    ensures { result ≡ records_seen fact.now }
{
    match fact {
        Fact::Live(seen) => seen.records,
        Fact::Free(_) => 0,
    }
}

/// How many records the pages have together.
fn count_records(facts: &Facts<'_>) -> u64
    requires { All IsLightFact facts.now.list.now }
    ensures { result ≡ all_records facts.now.list.now }
{
    let mut records = 0;
    for fact in facts.list {
        records += records_of(fact);
    }
    records
}

/// Whether the file is sound: the number of its records, or the first rule that it breaks with the page that is named for
/// it, 0 for none.
///
/// The rules are tested in their order, each on all pages, and those after a broken one aren't tested. Each page is asked
/// for at most twice.
pub fn audit<P: Pages>(alloc: Global, meta: &Meta, pages: &mut P) -> Result<u64, AuditStop>
    requires layout { IsLayout meta.now }
    requires covered { IfSome (P.model pages.old).told (CoversFile meta.now) }
    // where the source tells, what the answer says of the file
    ensures sound { IfOk result (λ n. IfSome (P.model pages.old).told (λ told. IsSoundWith meta.now told n)) }
    ensures names { IfErr result (OnBroken (λ page rule. IfSome (P.model pages.old).told (λ told. Names meta.now told page rule))) }
    // what it says over every source
    ensures bounded { IfOk result (λ _. HasBoundedMeta meta.now) }
    ensures asks { Asks P.model P.asked (IsErrOf result Failed) pages.old pages.new }
{
    let list = read_facts(alloc, meta, pages)?;
    let facts = &Facts { meta, list: &list };
    test_pages(alloc, facts)?;
    let links = read_links(alloc, facts, pages)?;
    test_links(alloc, facts, &links)?;
    Ok(count_records(facts))
}

/// A sound file breaks no rule.
pub fn a_sound_file_breaks_no_rule()
    ensures { SoundBreaksNone }
{}

/// Of the rules that a file breaks one is named first, for one page.
pub fn one_rule_is_named()
    ensures { OneIsNamed }
{}
