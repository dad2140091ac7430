//! A page is split: a part of it becomes a page of its own.

ghost use Rattle.std.specs.Prelude.{◌≡◌, ◌≢◌, ◌<◌, ◌≤◌, ◌^◌, ◌↔◌, [], List, length, not, take, drop, filter, Some, IfOk, IsErrOf, IsTrue, MatchOption};
ghost use Rattle.hb_space.specs.Boxes.{Area as Extent, Cuts as Parts};
ghost use Rattle.hb_space.specs.declared.records.Record.{Record as Entry};
ghost use Rattle.hb_frag.specs.declared.leaves.Leaf.TheVariants as kinds;
ghost use Rattle.hb_frag.specs.Paths.{part_at, StaysInside};
ghost use Rattle.hb_frag.specs.Trees.{Tree, Tip};
ghost use Rattle.hb_ops.specs.Cutting as cutting;
ghost use Rattle.hb_ops.specs.Extracting.{FitsExtract, FitsPart, fresh_page, source_page};
ghost use Rattle.hb_ops.specs.Sound.{FitsFile};
ghost use Rattle.hb_ops.specs.declared.changes.ChangeError.TheVariants.{Unfit, NoMemory as Starved};

use crate::allocations::allocates;
use crate::local::{is_sibling_tip, local_rule};
use crate::{ChangeError, Cuts, LeafCut, Meta};
use hb_frag::{Frag, Leaf, LivePage, Node, Path, Side};
use hb_space::{Area, NoMemory, Record, Records};
use std::alloc::Global;

/// The part of a page that leaves it: to which the path leads, and then the cuts.
#[derive(Clone, Copy)]
pub(crate) struct Part<'a> {
    pub(crate) path: &'a Path,
    pub(crate) cuts: &'a Cuts,
}

/// The page that is split and the page that is made, where that is allowed.
pub(crate) fn extract(
    alloc: Global,
    page: &LivePage,
    meta: &Meta,
    part: Part<'_>,
    fresh: u32,
    free_after: u32,
) -> Result<(LivePage, LivePage), ChangeError>
    ensures allowed { IfOk result (λ pages. FitsExtract meta.now page.now fresh part.entry.path.now part.entry.cuts.now free_after) }
    ensures effect { IfOk result (λ pages. (leaving : Tree × Extent)
        × (part_at part.entry.path.now page.now.frag page.now.area ≡ Some leaving)
        × (pages.0 ≡ source_page fresh part.entry.path.now part.entry.cuts.now page.now leaving)
        × (pages.1 ≡ fresh_page part.entry.cuts.now page.now leaving)) }
    ensures unfit { IsErrOf result Unfit → ¬ (FitsExtract meta.now page.now fresh part.entry.path.now part.entry.cuts.now free_after) }
    ensures memory { IsErrOf result Starved → FitsExtract meta.now page.now fresh part.entry.path.now part.entry.cuts.now free_after }
{
    if !allocates(meta, fresh, free_after) {
        return Err(ChangeError::Unfit);
    }
    match subtree_for(page, meta, part) {
        None => Err(ChangeError::Unfit),
        Some((frag, area)) => match split(alloc, page, fresh, part, frag, area) {
            Ok(pages) => Ok(pages),
            Err(_) => Err(ChangeError::NoMemory),
        },
    }
}

// The part that leaves the page, with its box, before the cuts are made. `None` where none may
// leave so, whatever number is taken.
fn subtree_for<'a>(page: &'a LivePage, meta: &Meta, part: Part<'_>) -> Option<(&'a Frag, Area)>
    ensures { MatchOption result
        ((leaving : Tree × Extent) → FitsFile meta.now page.now → ¬ (FitsPart part.entry.path.now part.entry.cuts.now page.now leaving))
        (λ leaving. FitsFile meta.now page.now × FitsPart part.entry.path.now part.entry.cuts.now page.now (leaving.0.now, leaving.1)) }
{
    if local_rule(page, meta).is_some() {
        return None;
    }
    match page.subtree(part.path) {
        None => None,
        Some((frag, area)) => {
            if may_leave(page, part.path, part.cuts, frag, &area) {
                Some((frag, area))
            } else {
                None
            }
        }
    }
}

// Whether this part may leave the page, to which the path leads.
#[tactic(auto, using(crate::proofs::CutTests::leaves_so, crate::proofs::CutTests::stays_whole, crate::proofs::CutTests::stays_lone))]
fn may_leave(page: &LivePage, path: &Path, cuts: &Cuts, frag: &Frag, area: &Area) -> bool
    requires { part_at path.now page.now.frag page.now.area ≡ Some (frag.now, area.now) }
    ensures { IsTrue result ↔ FitsPart path.now cuts.now page.now (frag.now, area.now) }
{
    takes_less(path, cuts) && !is_sibling_tip(frag) && part_leaves(frag, area, cuts.as_slice())
}

// Whether less than the whole page leaves.
fn takes_less(path: &Path, cuts: &Cuts) -> bool
    ensures { IsTrue result ↔ (path.now ≡ [] → cuts.now ≢ []) }
{
    !path.as_slice().is_empty() || !cuts.as_slice().is_empty()
}

// Whether the cuts part the leaf that the part is. No cut parts any part.
fn part_leaves(frag: &Frag, area: &Area, cuts: &[LeafCut]) -> bool
    ensures { IsTrue result ↔ cutting.PartLeaves cuts.now frag.now area.now }
{
    if cuts.is_empty() {
        return true;
    }
    match records_leaf(frag) {
        None => false,
        Some(records) => part_records(records, area, cuts, 0),
    }
}

// The records of a part that is a leaf of them. `None` where it is something else.
fn records_leaf(frag: &Frag) -> Option<&[Record]>
    ensures { MatchOption result
        ((records : List Entry) → ¬ (frag.now ≡ Tip (kinds.Records records)))
        (λ records. frag.now ≡ Tip (kinds.Records records.now)) }
{
    match &frag.node {
        Node::Tip(Leaf::Records(records)) => Some(records.as_slice()),
        _ => None,
    }
}

// Whether the cuts from the place on part the records that the cuts before it let go on, in this
// box.
fn part_records(records: &[Record], area: &Area, cuts: &[LeafCut], place: usize) -> bool
    requires { place ≤ length cuts.now }
    ensures { IsTrue result ↔ cutting.PartLeaves (drop place cuts.now)
        (Tip (kinds.Records (filter (cutting.goes_on (take place cuts.now)) records.now))) area.now }
{
    if place == cuts.len() {
        return true;
    }
    let cut = cuts[place];
    if !area.cuts(cut.axis, cut.value) {
        return false;
    }
    if !has_both_sides(records, &cuts[..place], cut) {
        return false;
    }
    part_records(records, &half_area(area, cut), cuts, place + 1)
}

// Whether some of the records that go on at each of the cuts lie on the side of the last cut that
// goes on, and others don't.
fn has_both_sides(records: &[Record], before: &[LeafCut], cut: LeafCut) -> bool
    ensures { IsTrue result ↔
        ((0 < length (filter (cutting.is_on cut.side cut.axis cut.value) (filter (cutting.goes_on before.now) records.now)))
        × (0 < length (filter (cutting.is_on (cutting.other_side cut.side) cut.axis cut.value) (filter (cutting.goes_on before.now) records.now)))) }
{
    let mut on = 0_usize;
    let mut off = 0_usize;
    for each in records {
        if goes_on(each, before) {
            if is_on(each, cut) {
                on += 1;
            } else {
                off += 1;
            }
        }
    }
    0 < on && 0 < off
}

// Whether the record goes on at each of the cuts.
fn goes_on(each: &Record, cuts: &[LeafCut]) -> bool
    ensures { result ≡ cutting.goes_on cuts.now each.now }
{
    match cuts {
        [] => true,
        [cut, rest @ ..] => is_on(each, *cut) && goes_on(each, rest),
    }
}

// Whether the record lies on the side of the cut that goes on. A value that it hasn't counts as 0.
fn is_on(each: &Record, cut: LeafCut) -> bool
    ensures on { result ≡ cutting.is_on cut.side cut.axis cut.value each.now }
    ensures off { not result ≡ cutting.is_on (cutting.other_side cut.side) cut.axis cut.value each.now }
{
    let value = each.key.values().get(usize::from(cut.axis));
    let below = value.copied().unwrap_or(0) < cut.value;
    match cut.side {
        Side::Left => below,
        Side::Right => !below,
    }
}

// The box of what goes on at the cut.
fn half_area(area: &Area, cut: LeafCut) -> Area
    requires { Parts area.now cut.axis cut.value }
    ensures { result ≡ cutting.half_area cut area.now }
{
    let (below, from) = area.cut(cut.axis, cut.value);
    match cut.side {
        Side::Left => below,
        Side::Right => from,
    }
}

// The box of what goes on at all cuts.
fn reached_area(area: Area, cuts: &[LeafCut]) -> Area
    requires { cutting.PlanesCut cuts.now area }
    ensures { (tree : Tree) → result ≡ (cutting.reached cuts.now tree area).1 }
{
    match cuts {
        [] => area,
        [cut, rest @ ..] => reached_area(half_area(&area, *cut), rest),
    }
}

// The page that is split, and the page that is made.
fn split(
    alloc: Global,
    page: &LivePage,
    fresh: u32,
    part: Part<'_>,
    frag: &Frag,
    area: Area,
) -> Result<(LivePage, LivePage), NoMemory>
    requires inside { StaysInside part.path.now page.now.frag }
    requires planes { cutting.PlanesCut part.cuts.now area }
    ensures source { IfOk result (λ pages. pages.0 ≡ source_page fresh part.entry.path.now part.entry.cuts.now page.now (frag.now, area)) }
    ensures fresh { IfOk result (λ pages. pages.1 ≡ fresh_page part.entry.cuts.now page.now (frag.now, area)) }
{
    let cuts = part.cuts.as_slice();
    let parted = cut_through(alloc, frag.copy(alloc)?, cuts, fresh)?;
    let source = LivePage {
        level: page.level,
        area: page.area.copy(),
        frag: page.frag.copy_with(alloc, part.path, parted.opened)?,
    };
    let made = LivePage {
        level: page.level,
        area: reached_area(area, cuts),
        frag: parted.reached,
    };
    Ok((source, made))
}

// A part that is cut: what stays, with a sibling leaf where the cuts lead, and what they reach.
#[derive(Drop)]
struct Parted {
    opened: Frag,
    reached: Frag,
}

// The part once the cuts are made. Its records go to what stays and to what is reached.
fn cut_through(alloc: Global, part: Frag, cuts: &[LeafCut], fresh: u32) -> Result<Parted, NoMemory>
    ensures opened { IfOk result (λ parted. parted.opened ≡ cutting.cut_through cuts.now part (Tip (kinds.Sibling fresh))) }
    ensures reached { IfOk result (λ parted. (area : Extent) → parted.reached ≡ (cutting.reached cuts.now part area).0) }
{
    match cuts {
        [] => Ok(Parted {
            opened: Frag::tip(Leaf::Sibling(fresh)),
            reached: part,
        }),
        [cut, rest @ ..] => {
            let sides = sides_of(alloc, records_in(alloc, part), *cut)?;
            let parted = cut_through(alloc, sides.going, rest, fresh)?;
            let opened = cut_with(alloc, *cut, parted.opened, sides.staying)?;
            Ok(Parted {
                opened,
                reached: parted.reached,
            })
        }
    }
}

// The records of a lone leaf. Another part has none.
fn records_in(alloc: Global, part: Frag) -> Records
    ensures { result ≡ cutting.records_in part }
{
    match part.node {
        Node::Tip(Leaf::Records(records)) => records,
        _ => Records::new(Vec::new(alloc)),
    }
}

// The two sides of a cut, each as a leaf.
#[derive(Drop)]
struct Sides {
    going: Frag,
    staying: Frag,
}

// The records on both sides of the cut.
fn sides_of(alloc: Global, records: Records, cut: LeafCut) -> Result<Sides, NoMemory>
    ensures going { IfOk result (λ sides. sides.going ≡ Tip (kinds.Records (filter (cutting.is_on cut.side cut.axis cut.value) records))) }
    ensures staying { IfOk result (λ sides. sides.staying ≡ Tip (kinds.Records (filter (cutting.is_on (cutting.other_side cut.side) cut.axis cut.value) records))) }
{
    let mut on = Vec::new(alloc);
    let mut off = Vec::new(alloc);
    for each in records.into_vec() {
        if is_on(&each, cut) {
            on.push(each)?;
        } else {
            off.push(each)?;
        }
    }
    Ok(Sides {
        going: Frag::tip(Leaf::Records(Records::new(on))),
        staying: Frag::tip(Leaf::Records(Records::new(off))),
    })
}

// A cut with what goes on at its side, and what stays on the other one.
fn cut_with(alloc: Global, cut: LeafCut, on: Frag, off: Frag) -> Result<Frag, NoMemory>
    ensures { IfOk result (λ tree. tree ≡ cutting.cut_with cut.side cut.axis cut.value on off) }
{
    let on = Box::new(alloc, on)?;
    let off = Box::new(alloc, off)?;
    match cut.side {
        Side::Left => Ok(Frag::cut(cut.axis, cut.value, on, off)),
        Side::Right => Ok(Frag::cut(cut.axis, cut.value, off, on)),
    }
}
