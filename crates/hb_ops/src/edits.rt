//! A page with one record more in a leaf, or one fewer.

ghost use Rattle.std.specs.Prelude.{◌≡◌, ◌+◌, ◌<◌, ◌≤◌, ◌^◌, ◌==◌, ◌++◌, ◌∷◌, if◌then◌else◌, List, length, take, drop, AllPairs, IfOk, IfErr, IsErrOf, MatchOption, OnOk};
ghost use Rattle.hb_space.specs.Boxes.{Holds};
ghost use Rattle.hb_space.specs.Points.{point_cmp};
ghost use Rattle.hb_space.specs.declared.records.Record.{Record as Entry};
ghost use Rattle.hb_frag.specs.declared.leaves.Leaf.TheVariants as kinds;
ghost use Rattle.hb_frag.specs.Leaves.{WellCut, weight_of, with_leaf_at};
ghost use Rattle.hb_frag.specs.Rules.{Precedes, point_of};
ghost use Rattle.hb_lemmas.specs.Places.{IsGapFor, IsPlaceOf};
ghost use Rattle.hb_ops.specs.Recording.{HasGap, HasPlace, IsOpenAt, FitsDel, FitsPut, del_page, put_page};
ghost use Rattle.hb_ops.specs.declared.changes.ChangeError.TheVariants.{Unfit, NoMemory as Starved};

use crate::local::local_rule;
use crate::{ChangeError, Meta};
use hb_frag::{Frag, Leaf, LivePage};
use hb_space::{NoMemory, Point, Record, Records};
use std::alloc::Global;

/// The page with the record, where a put of it is allowed.
pub(crate) fn put(
    alloc: Global,
    page: &LivePage,
    meta: &Meta,
    rec: &Record,
) -> Result<LivePage, ChangeError>
    ensures allowed { IfOk result (λ made. FitsPut meta.now page.now rec.now) }
    ensures effect { IfOk result (λ made. made ≡ put_page rec.now page.now) }
    ensures unfit { IsErrOf result Unfit → ¬ (FitsPut meta.now page.now rec.now) }
    ensures memory { IsErrOf result Starved → FitsPut meta.now page.now rec.now }
{
    match gap_for(page, meta, rec) {
        None => Err(ChangeError::Unfit),
        Some((records, place)) => match with_record(alloc, page, meta, rec, records, place) {
            Ok(made) => Ok(made),
            Err(_) => Err(ChangeError::NoMemory),
        },
    }
}

/// The page without the record of the point, where a delete of it is allowed.
pub(crate) fn delete(
    alloc: Global,
    page: &LivePage,
    meta: &Meta,
    point: &Point,
) -> Result<LivePage, ChangeError>
    ensures allowed { IfOk result (λ made. FitsDel meta.now page.now point.now) }
    ensures effect { IfOk result (λ made. made ≡ del_page point.now page.now) }
    ensures unfit { IsErrOf result Unfit → ¬ (FitsDel meta.now page.now point.now) }
    ensures memory { IsErrOf result Starved → FitsDel meta.now page.now point.now }
{
    match place_in(page, meta, point) {
        None => Err(ChangeError::Unfit),
        Some((records, place)) => match without_record(alloc, page, meta, point, records, place) {
            Ok(made) => Ok(made),
            Err(_) => Err(ChangeError::NoMemory),
        },
    }
}

// The records of the leaf at the record's point, and the place among them to which it would go.
// `None` where a put of it isn't allowed.
pub(crate) fn gap_for<'a>(
    page: &'a LivePage,
    meta: &Meta,
    rec: &Record,
) -> Option<(&'a Records, usize)>
    ensures { MatchOption result
        (¬ (FitsPut meta.now page.now rec.now))
        (λ gap. HasGap meta.now page.now rec.now gap.0.now gap.1) }
{
    match open_at(page, meta, &rec.key) {
        None => None,
        Some(records) => match place_of(records.as_slice(), &rec.key) {
            Ok(_) => None,
            Err(place) => {
                let capacity = meta.dcap;
                if weight_with_one_more(page, records) <= u32::from(capacity) {
                    Some((records, place))
                } else {
                    None
                }
            }
        },
    }
}

// The records of the leaf at the point, and its place among them. `None` where a delete of it
// isn't allowed.
fn place_in<'a>(page: &'a LivePage, meta: &Meta, point: &Point) -> Option<(&'a Records, usize)>
    ensures { MatchOption result
        (¬ (FitsDel meta.now page.now point.now))
        (λ found. HasPlace meta.now page.now point.now found.0.now found.1) }
{
    match open_at(page, meta, point) {
        None => None,
        Some(records) => match place_of(records.as_slice(), point) {
            Ok(place) => Some((records, place)),
            Err(_) => None,
        },
    }
}

// The records of the leaf at the point. `None` where the page isn't one of level 0 that keeps its
// own rules, and where that leaf has no records.
fn open_at<'a>(page: &'a LivePage, meta: &Meta, point: &Point) -> Option<&'a Records>
    ensures { MatchOption result
        ((records : List Entry) → ¬ (IsOpenAt meta.now page.now point.now records))
        (λ records. IsOpenAt meta.now page.now point.now records.now) }
{
    if local_rule(page, meta).is_some() {
        return None;
    }
    if page.level != 0 {
        return None;
    }
    if point.attributes() != meta.k {
        return None;
    }
    if !page.area.holds(point) {
        return None;
    }
    let (leaf, _) = page.leaf_at(point);
    match leaf {
        Leaf::Records(records) => Some(records),
        Leaf::Child(_) | Leaf::Sibling(_) => None,
    }
}

// Where the point is, or where it would go.
pub(crate) fn place_of(records: &[Record], point: &Point) -> Result<usize, usize>
    requires { AllPairs Precedes records.now }
    ensures found { IfOk result (IsPlaceOf point_of records.now point.now) }
    ensures absent { IfErr result (IsGapFor point_cmp point_of records.now point.now) }
{
    records.binary_search_by(|record| record.key.cmp(point))
}

// What the page weighs once a leaf of these records has one more: a leaf without a record weighs
// 1 already.
fn weight_with_one_more(page: &LivePage, records: &Records) -> u32
    requires { weight_of page.now.frag < 2 ^ 16 }
    ensures { result ≡ weight_of page.now.frag + (if length records.now == 0 then 0 else 1) }
{
    if records.as_slice().is_empty() {
        page.weight()
    } else {
        page.weight() + 1
    }
}

// The page with the record in its place.
fn with_record(
    alloc: Global,
    page: &LivePage,
    meta: &Meta,
    rec: &Record,
    records: &Records,
    place: usize,
) -> Result<LivePage, NoMemory>
    requires { HasGap meta.now page.now rec.now records.now place }
    ensures { IfOk result (λ made. made ≡ put_page rec.now page.now) }
{
    let joined = records_with(alloc, records.as_slice(), place, rec)?;
    with_records(alloc, page, &rec.key, joined)
}

// The page without the record at the place.
fn without_record(
    alloc: Global,
    page: &LivePage,
    meta: &Meta,
    point: &Point,
    records: &Records,
    place: usize,
) -> Result<LivePage, NoMemory>
    requires { HasPlace meta.now page.now point.now records.now place }
    ensures { IfOk result (λ made. made ≡ del_page point.now page.now) }
{
    let rest = records_without(alloc, records.as_slice(), place)?;
    with_records(alloc, page, point, rest)
}

// The page with these records in its leaf at the point.
fn with_records(
    alloc: Global,
    page: &LivePage,
    point: &Point,
    records: Records,
) -> Result<LivePage, NoMemory>
    requires well_cut { WellCut page.now }
    requires held { Holds page.now.area point.now }
    ensures { IfOk result (λ made. made ≡ record {
      level = page.now.level;
      area = page.now.area;
      frag = with_leaf_at point.now (λ leaf. kinds.Records records) page.now.frag page.now.area;
    }) }
{
    let path = page.path_to(alloc, point)?;
    let leaf = Frag::tip(Leaf::Records(records));
    let frag = page.frag.copy_with(alloc, &path, leaf)?;
    let area = page.area.copy();
    Ok(LivePage {
        level: page.level,
        area,
        frag,
    })
}

// The records with one more at the place.
fn records_with(
    alloc: Global,
    records: &[Record],
    place: usize,
    rec: &Record,
) -> Result<Records, NoMemory>
    requires { place ≤ length records.now }
    ensures { IfOk result (λ made. made ≡ take place records.now ++ rec.now ∷ drop place records.now) }
{
    let (before, after) = records.split_at(place);
    let mut made = Vec::with_capacity(alloc, records.len() + 1)?;
    push_copies(&mut made, before)?;
    made.push(rec.copy())?;
    push_copies(&mut made, after)?;
    Ok(Records::new(made))
}

// The records but the one at the place.
fn records_without(alloc: Global, records: &[Record], place: usize) -> Result<Records, NoMemory>
    requires { place < length records.now }
    ensures { IfOk result (λ made. made ≡ take place records.now ++ drop (place + 1) records.now) }
{
    let mut made = Vec::with_capacity(alloc, records.len() - 1)?;
    push_copies(&mut made, &records[..place])?;
    push_copies(&mut made, &records[place + 1..])?;
    Ok(Records::new(made))
}

// Adds the same records at the end.
fn push_copies(made: &mut Vec<Record>, records: &[Record]) -> Result<(), NoMemory>
    ensures { OnOk result (made.new.items ≡ made.old.items ++ records.now) }
{
    for record in records {
        made.push(record.copy())?;
    }
    Ok(())
}
