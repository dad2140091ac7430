//! What a new file is to be.
ghost use Rattle.std.specs.Prelude.{◌≡◌, [], ◌≤◌, Some, IsNone, IfOk, IfErr};
ghost use Rattle.hb_space.specs.declared.form.TheConstants.{KMAX};
ghost use Rattle.hb_frag.specs.Grammar.{HasSpelling};
ghost use Rattle.std.specs.FinMap as finite;
ghost use Rattle.hb_ops.specs.Files.{contents_of};
ghost use Rattle.hb_ops.specs.Sound.{IsSound};
ghost use Rattle.hb_restart.specs.NewFiles.{new_file, new_meta, new_page};
ghost use Rattle.hb_restart.specs.declared.layout.Layout.{Layout as Kind};
ghost use Rattle.hb_restart.specs.Layouts.{first_fault, layout_fault, layout_size};

use crate::faults::{BadField, Field};
use hb_frag::{Frag, Leaf, LivePage, Page};
use hb_ops::Meta;
use hb_space::form::{ICAP_MIN, KMAX, PAGE};
use hb_space::{Area, Records};
use std::alloc::Global;

/// The layout of a file: how many attributes, pages, bytes of a log area, and what pages may weigh.
#[derive(Clone, Copy, Debug, PartialEq, Eq)]
pub struct Layout {
    pub k: u8,
    pub pages: u32,
    pub log: u32,
    pub dcap: u16,
    pub icap: u16,
}

/// The first of these numbers that is out of its limits.
fn fault_of(k: u64, pages: u64, log: u64, dcap: u64, icap: u64) -> Option<BadField>
    ensures { result ≡ first_fault k pages log dcap icap }
{
    if !(1 <= k && k <= KMAX as u64) {
        return Some(bad(Field::K, k));
    }
    if !(1 <= pages && pages <= 65536) {
        return Some(bad(Field::Pages, pages));
    }
    if !(65536 <= log && log <= 67_108_864) {
        return Some(bad(Field::Log, log));
    }
    if !(6 <= dcap && dcap <= 48) {
        return Some(bad(Field::Dcap, dcap));
    }
    if !(u64::from(ICAP_MIN) <= icap && icap <= 256) {
        return Some(bad(Field::Icap, icap));
    }
    None
}

/// This field, as one that is out of its limits.
fn bad(field: Field, value: u64) -> BadField
    ensures { result ≡ record { field = field; value = value } }
{
    BadField { field, value }
}

impl Layout {
    /// The layout of these numbers. An error names the first that is out of its limits.
    pub fn of_numbers(
        k: u64,
        pages: u64,
        log: u64,
        dcap: u64,
        icap: u64,
    ) -> Result<Layout, BadField>
        ensures numbers { IfOk result (λ l. (l.k ≡ k) × (l.pages ≡ pages) × (l.log ≡ log) × (l.dcap ≡ dcap) × (l.icap ≡ icap)) }
        ensures good { IfOk result (λ l. IsNone (layout_fault l)) }
        ensures first { IfErr result (λ fault. first_fault k pages log dcap icap ≡ Some fault) }
    {
        match fault_of(k, pages, log, dcap, icap) {
            Some(fault) => Err(fault),
            None => Ok(Layout {
                k: k as u8,
                pages: pages as u32,
                log: log as u32,
                dcap: dcap as u16,
                icap: icap as u16,
            }),
        }
    }

    /// The first field that is out of its limits.
    pub fn fault(&self) -> Option<BadField>
        ensures { result ≡ layout_fault self.now }
    {
        fault_of(
            u64::from(self.k),
            u64::from(self.pages),
            u64::from(self.log),
            u64::from(self.dcap),
            u64::from(self.icap),
        )
    }

    /// How many bytes a file of the layout has.
    pub fn size(&self) -> u64
        ensures { result ≡ layout_size self.now }
    {
        2 * PAGE as u64 + 2 * u64::from(self.log) + PAGE as u64 * u64::from(self.pages)
    }

    /// What a new file says of itself.
    pub(crate) fn meta(&self) -> Meta
        ensures { result ≡ new_meta self.now }
    {
        Meta {
            k: self.k,
            pages: self.pages,
            log: self.log,
            dcap: self.dcap,
            icap: self.icap,
            root: 1,
            height: 1,
            high: 1,
            live: 1,
            free: 0,
        }
    }
}

/// The page of a new file of so many attributes: the whole space, without a record.
#[tactic(auto, using(crate::proofs::NewFile::new_page_spelling))]
pub(crate) fn empty_page(alloc: Global, k: u8) -> Page
    requires some { 1 ≤ k }
    requires few { k ≤ KMAX }
    ensures page { result ≡ new_page k }
    ensures spelling { HasSpelling result }
{
    Page::Live(LivePage {
        level: 0,
        area: Area::whole(k),
        frag: Frag::tip(Leaf::Records(Records::new(Vec::new(alloc)))),
    })
}

/// A new file is sound and has no record.
pub fn a_new_file_is_sound()
    ensures sound { (l : Kind) → IsNone (layout_fault l) → IsSound (new_file l) }
    ensures empty { (l : Kind) → contents_of (new_file l) ≡ finite.from_entries [] }
{}
