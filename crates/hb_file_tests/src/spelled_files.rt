//! Files spelled as text, and sources of their pages, for the tests of audits.
//!
//! A page is spelled as its level, its box and its leaves. `free NEXT` is a free page, and `bad` none. `|` parts pages.
//! A box has the least and the greatest value of each attribute, as `LO-HI`, parted by `,`. `*` is the greatest value of
//! all, and alone it stands for all values. The leaves stand from the inside out: the first one, and then for each cut
//! ` / AXIS<VALUE: LEAF` or ` / AXIS≥VALUE: LEAF`, the leaf on that side, where all that stands before is on the other one.
//! `VALUE:` alone is `0≥VALUE:`. A leaf is its records by their points, or `^PAGE` for a child and `>PAGE` for a sibling.
ghost use Rattle.std.specs.Prelude.{◌≡◌, IfOk, IfSome, IsTrue, None};
ghost use Rattle.hb_frag.specs.Leaves.{leaf_weight, weight_of};
ghost use Rattle.hb_page_codec.specs.Weight.{IsLight};
ghost use Rattle.hb_layout.specs.Limits.{IsLayout};

use hb_frag::{Frag, Leaf, LivePage, Node, Page};
use hb_ops::Meta;
use hb_sound::{AuditStop, PageStop, Pages, audit};
use hb_space::form::{KMAX, PAGE};
use hb_space::{Area, Body, NoMemory, Point, Record, Records};
use std::alloc::Global;

fn value_of(word: &str) -> Option<u64> {
    if word == "*" {
        Some(u64::MAX)
    } else {
        word.parse().ok()
    }
}

// The least and the greatest value of an attribute.
fn interval_of(word: &str) -> Option<(u64, u64)> {
    if word == "*" {
        return Some((0, u64::MAX));
    }
    let (least, greatest) = word.split_once('-')?;
    Some((value_of(least)?, value_of(greatest)?))
}

fn point_of(values: &[u64]) -> Option<Point> {
    if values.is_empty() || values.len() > KMAX {
        return None;
    }
    Some(Point::new(values))
}

fn area_between(lo: Point, hi: Point) -> Option<Area> {
    if lo.attributes() != hi.attributes() {
        return None;
    }
    Area::between(lo, hi)
}

fn area_of(alloc: Global, text: &str) -> Option<Area> {
    let mut lo = Vec::new(alloc);
    let mut hi = Vec::new(alloc);
    for word in text.split(',') {
        let (least, greatest) = interval_of(word)?;
        lo.push(least).ok()?;
        hi.push(greatest).ok()?;
    }
    area_between(point_of(&lo)?, point_of(&hi)?)
}

fn record_of(alloc: Global, text: &str) -> Option<Record> {
    let mut values = Vec::new(alloc);
    for word in text.split(',') {
        values.push(word.parse().ok()?).ok()?;
    }
    Some(Record {
        key: point_of(&values)?,
        body: Body::new(b""),
    })
}

fn leaf_of(alloc: Global, words: &str) -> Option<Leaf> {
    if let Some(name) = words.strip_prefix('^') {
        return Some(Leaf::Child(name.parse().ok()?));
    }
    if let Some(name) = words.strip_prefix('>') {
        return Some(Leaf::Sibling(name.parse().ok()?));
    }
    let mut records = Vec::new(alloc);
    for word in words.split_whitespace() {
        records.push(record_of(alloc, word)?).ok()?;
    }
    Some(Leaf::Records(Records::new(records)))
}

// A cut's attribute and value, and whether the next leaf is on the lower side.
fn cut_of(word: &str) -> Option<(u8, u64, bool)> {
    if let Some((axis, value)) = word.split_once('<') {
        return Some((axis.parse().ok()?, value.parse().ok()?, true));
    }
    let (axis, value) = word.split_once('≥').unwrap_or(("0", word));
    Some((axis.parse().ok()?, value.parse().ok()?, false))
}

// A leaf on the one side of a cut, and what stands already on the other one.
fn with_leaf(alloc: Global, frag: Frag, text: &str) -> Option<Frag> {
    let (cut, words) = text.split_once(':')?;
    let (axis, value, is_below) = cut_of(cut.trim())?;
    let leaf = Box::new(alloc, Frag::tip(leaf_of(alloc, words.trim())?)).ok()?;
    let frag = Box::new(alloc, frag).ok()?;
    let (left, right) = if is_below { (leaf, frag) } else { (frag, leaf) };
    Some(Frag::cut(axis, value, left, right))
}

fn frag_of(alloc: Global, text: &str) -> Option<Frag> {
    let mut leaves = text.split('/');
    let first = leaves.next().unwrap_or("");
    let mut frag = Frag::tip(leaf_of(alloc, first.trim())?);
    for leaf in leaves {
        frag = with_leaf(alloc, frag, leaf)?;
    }
    Some(frag)
}

fn page_of(alloc: Global, text: &str) -> Option<Option<Page>> {
    if text == "bad" {
        return Some(None);
    }
    let (first, rest) = text.split_once(' ')?;
    if first == "free" {
        return Some(Some(Page::Free {
            next: rest.parse().ok()?,
        }));
    }
    let (area, leaves) = rest.split_once(' ').unwrap_or((rest, ""));
    Some(Some(Page::Live(LivePage {
        level: first.parse().ok()?,
        area: area_of(alloc, area)?,
        frag: frag_of(alloc, leaves)?,
    })))
}

// What the leaves weigh together, where it is below 2^32.
fn weight(frag: &Frag) -> Option<u32>
    ensures { IfSome result (λ w. w ≡ weight_of frag.now) }
{
    match &frag.node {
        Node::Tip(leaf) => leaf_weight(leaf),
        Node::Cut { left, right, .. } => weight(left)?.checked_add(weight(right)?),
    }
}

fn leaf_weight(leaf: &Leaf) -> Option<u32>
    ensures { IfSome result (λ w. w ≡ leaf_weight leaf.now) }
{
    match leaf {
        Leaf::Records(records) => u32::try_from(records.as_slice().len().max(1)).ok(),
        Leaf::Child(_) | Leaf::Sibling(_) => Some(1),
    }
}

fn is_light(page: &Page) -> bool
    ensures { IsTrue result → IsLight page.now }
{
    match page {
        Page::Live(page) => match weight(&page.frag) {
            Some(weight) => weight <= PAGE as u32,
            None => false,
        },
        Page::Free { .. } => true,
    }
}

// The same page once more.
fn copy_of(alloc: Global, page: &Page) -> Result<Page, NoMemory> {
    match page {
        Page::Live(page) => Ok(Page::Live(LivePage {
            level: page.level,
            area: page.area.copy(),
            frag: page.frag.copy(alloc)?,
        })),
        Page::Free { next } => Ok(Page::Free { next: *next }),
    }
}

/// Pages in memory, of a source that tells nothing.
#[derive(Drop)]
pub(crate) struct KeptPages {
    alloc: Global,
    pages: Vec<Option<Page>>,
    /// How often each page was asked for.
    asks: Vec<u8>,
}

impl KeptPages {
    /// The pages that are spelled so, with another text for the page of this number, where there is one.
    pub(crate) fn new(alloc: Global, text: &str, number: usize, other: &str) -> Option<KeptPages> {
        let mut pages = Vec::new(alloc);
        for (place, page) in text.split('|').enumerate() {
            let page = if place.wrapping_add(1) == number {
                other
            } else {
                page
            };
            pages.push(page_of(alloc, page.trim())?).ok()?;
        }
        let asks = vec![in alloc; 0; pages.len()].ok()?;
        Some(KeptPages { alloc, pages, asks })
    }

    /// The page of this number, which may be any.
    pub(crate) fn ask(&mut self, id: u32) -> Result<Option<Page>, NoMemory>
        ensures { IfOk result (λ page. IfSome page IsLight) }
    {
        let place = (id as usize).wrapping_sub(1);
        if place < self.asks.len() {
            self.asks[place] = self.asks[place].saturating_add(1);
        }
        match self.pages.get(place) {
            Some(Some(page)) => {
                let page = copy_of(self.alloc, page)?;
                Ok(if is_light(&page) { Some(page) } else { None })
            }
            _ => Ok(None),
        }
    }

    /// Whether some page was asked for more than twice.
    pub(crate) fn asked_too_often(&self) -> bool {
        for asks in &self.asks {
            if *asks > 2 {
                return true;
            }
        }
        false
    }
}

impl Pages for KeptPages {
    ghost model = { λ _. record { told = None; faults = 0 } };

    ghost asked = { λ _ _. Unit {0} };

    ghost asked_none = { λ _. tt };

    ghost asked_on = { λ _ _ _ _ _. tt };

    fn page(&mut self, id: u32) -> Result<Option<Page>, PageStop> {
        match self.ask(id) {
            Ok(page) => Ok(page),
            Err(NoMemory) => Err(PageStop::NoMemory),
        }
    }
}

/// A file's root, height, highest page, live pages and free head.
pub(crate) type MetaNumbers = (u32, u8, u32, u32, u32);

/// A file of so many attributes, 1 to 4, with 8 pages. Its height is 1 to 12.
pub(crate) fn meta_of(k: u8, numbers: MetaNumbers) -> Meta
    ensures { IsLayout result }
{
    let (root, height, high, live, free) = numbers;
    Meta {
        k: k.max(1).min(4),
        pages: 8,
        log: 65_536,
        dcap: 6,
        icap: 32,
        root,
        height: height.max(1).min(12),
        high,
        live,
        free,
    }
}

/// How many records an audit finds, or the page and the rule that it names.
pub(crate) type Outcome = Result<u64, (u32, u8)>;

/// Whether the audit of these pages has this outcome, and asks for none of them more than twice.
fn has_outcome(alloc: Global, meta: &Meta, mut pages: KeptPages, want: Outcome) -> bool
    requires { IsLayout meta.now }
{
    let got = match audit(alloc, meta, &mut pages) {
        Ok(records) => Ok(records),
        Err(AuditStop::Broken { page, rule }) => Err((page, rule)),
        Err(_) => return false,
    };
    got == want && !pages.asked_too_often()
}

/// The same of a file of so many attributes and its text, with another text for the page of this number, where there is one.
pub(crate) fn is_audited(
    alloc: Global,
    k: u8,
    numbers: MetaNumbers,
    text: &str,
    number: usize,
    other: &str,
    want: Outcome,
) -> bool {
    match KeptPages::new(alloc, text, number, other) {
        Some(pages) => has_outcome(alloc, &meta_of(k, numbers), pages, want),
        None => false,
    }
}
