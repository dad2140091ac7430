//! Pages of records: leaves of 0 to 48 records that become one, records that come and go behind 0 to 47 cuts, and parts that
//! leave by 0 to 47 cuts.

use crate::indexes::{changed, splits};
use crate::pages::{Beside, FRESH, OLD, Row, page_of, reaches};
use crate::shapes::{file_of, point, whole};
use hb_frag::{Frag, Leaf, LivePage, Path, Side, normal};
use hb_ops::{Cuts, LeafCut, Op};
use hb_space::{Body, Point, Record, Records};
use smallvec::SmallVec;
use std::alloc::{AllocError, Global};

/// How many records a page has at the most.
const MOST: u32 = 48;

/// A record whose values are all so much above a thousand.
fn record_at(k: u8, above: u32) -> Option<Record> {
    let key = point(k, [u64::from(above).saturating_add(1000); 4])?;
    let body = match above % 3 {
        0 => Body::new(b""),
        1 => Body::new(b"a body"),
        _ => Body::new(b"as many bytes as a body may have"),
    };
    Some(Record { key, body })
}

/// So many records, of which the first one is this much above a thousand and each other one as much above the one before it. The
/// one of a number is left out.
fn records(
    alloc: Global,
    k: u8,
    count: u32,
    steps: (u32, u32),
    left_out: u32,
) -> Option<Vec<Record>> {
    let (mut above, step) = steps;
    let mut records = Vec::new(alloc);
    for number in 0..count {
        if number != left_out {
            records.push(record_at(k, above)?).ok()?;
        }
        above = above.saturating_add(step);
    }
    Some(records)
}

/// A number that no record has.
const NONE: u32 = u32::MAX;

fn leaf_of(records: Vec<Record>) -> Frag {
    Frag::tip(Leaf::Records(Records::new(records)))
}

/// Two leaves of so many records become one leaf. The points of the two sides stand by turns.
fn joins(alloc: Global, k: u8, left: u32, right: u32) -> Option<()> {
    let odd = leaf_of(records(alloc, k, left, (1, 2), NONE)?);
    let even = leaf_of(records(alloc, k, right, (0, 2), NONE)?);
    let (odd, even) = (Box::new(alloc, odd).ok()?, Box::new(alloc, even).ok()?);
    normal(alloc, Frag::cut(0, 1, odd, even)).ok()?;
    Some(())
}

/// Leaves of 0 to 48 records on either side.
pub(crate) fn all_joined(alloc: Global) -> Option<()> {
    for left in 0..=MOST {
        for right in 0..=MOST {
            joins(alloc, ((left + right) % 4 + 1) as u8, left, right)?;
        }
    }
    Some(())
}

/// Puts a record.
fn put_record(bytes: &mut Vec<u8>, record: &Record) -> Result<(), AllocError> {
    for value in record.key.values() {
        bytes.extend_from_slice(&value.to_be_bytes())?;
    }
    let body = record.body.bytes();
    bytes.push(body.len() as u8)?;
    bytes.extend_from_slice(body)
}

/// The leaf of these records, of which there are at most 48, as bytes.
fn spelled(alloc: Global, records: &[Record]) -> Result<Vec<u8>, AllocError> {
    let mut bytes = Vec::from_slice(alloc, &[1, 0, (records.len() % 256) as u8])?;
    for record in records {
        put_record(&mut bytes, record)?;
    }
    Ok(bytes)
}

/// A page of level 0, where siblings stand beside so many cuts around the records.
#[derive(Clone, Copy)]
struct Deep {
    row: Row,
    cuts: u32,
}

impl Deep {
    fn page(self, alloc: Global, records: &[Record]) -> Option<LivePage> {
        let leaf = spelled(alloc, records).ok()?;
        page_of(alloc, self.row.around(alloc, 0, self.cuts, &leaf).ok()?)
    }

    /// Of so many records the one of a number comes, and goes again.
    fn comes_and_goes(self, alloc: Global, count: u32, number: u32) -> Option<()> {
        let (k, meta) = (self.row.k, file_of(self.row.k, 1));
        let full = self.page(alloc, &records(alloc, k, count, (0, 2), NONE)?)?;
        let others = self.page(alloc, &records(alloc, k, count, (0, 2), number)?)?;
        let rec = record_at(k, number.saturating_mul(2))?;
        let point = rec.key.copy();
        changed(alloc, &Op::Put { page: OLD, rec }, &meta, Some(&others))?;
        changed(alloc, &Op::Del { page: OLD, point }, &meta, Some(&full))
    }
}

/// A page of one leaf that has as many records as one may have, each of four attributes and 32 bytes.
pub(crate) fn many_records(alloc: Global) -> Option<()> {
    let (k, side, beside) = (4, Side::Left, Beside::Sibling);
    let row = Row { k, side, beside };
    Deep { row, cuts: 0 }.page(alloc, &records(alloc, k, MOST, (2, 3), NONE)?)?;
    Some(())
}

/// Records come and go behind 0 to 47 cuts, in a page that is full then; and in a page without cuts, in each of its places.
pub(crate) fn all_places(alloc: Global) -> Option<()> {
    for (k, side) in [
        (1, Side::Left),
        (2, Side::Right),
        (3, Side::Left),
        (4, Side::Right),
    ] {
        let beside = Beside::Sibling;
        let row = Row { k, side, beside };
        for cuts in 0..MOST {
            Deep { row, cuts }.comes_and_goes(alloc, MOST - cuts, cuts % (MOST - cuts))?;
        }
        for number in 0..MOST {
            Deep { row, cuts: 0 }.comes_and_goes(alloc, number + 1, number / 2)?;
        }
    }
    Some(())
}

/// The path to a point of the page.
fn path_to(alloc: Global, page: &LivePage, point: &Point) -> Option<Path> {
    if !reaches(page, point) {
        return None;
    }
    page.path_to(alloc, point).ok()
}

impl Deep {
    /// Of the first of these records so many stay, each by a cut of its own.
    fn cuts_of(self, alloc: Global, records: &[Record], cuts: u32) -> Option<Cuts> {
        let mut made = SmallVec::new(alloc);
        for (rec, number) in records.iter().skip(1).zip(0..cuts) {
            let axis = self.row.axis(number);
            let value = *rec.key.values().first()?;
            let side = Side::Right;
            made.push(LeafCut { axis, value, side }).ok()?;
        }
        Some(Cuts::new(made))
    }

    /// So many records stay, and the part of the others leaves.
    fn leaves_by(self, alloc: Global, cuts: u32) -> Option<()> {
        let records = records(alloc, self.row.k, MOST - self.cuts.min(MOST), (0, 2), NONE)?;
        let page = self.page(alloc, &records)?;
        let op = Op::Extract {
            source: OLD,
            fresh: FRESH,
            path: path_to(alloc, &page, &records.first()?.key)?,
            cuts: self.cuts_of(alloc, &records, cuts)?,
            free_after: 0,
        };
        changed(alloc, &op, &file_of(self.row.k, 1), Some(&page))
    }
}

/// A part leaves behind 0 to 47 cuts, and by 0 to 47 more; each attribute by turns.
pub(crate) fn all_parts(alloc: Global) -> Option<()> {
    for behind in 0..MOST {
        for cuts in 0..MOST - behind {
            if behind + cuts == 0 {
                continue;
            }
            let side = if cuts % 2 == 0 {
                Side::Left
            } else {
                Side::Right
            };
            let beside = Beside::Sibling;
            let k = ((behind + cuts) % 4 + 1) as u8;
            let row = Row { k, side, beside };
            Deep { row, cuts: behind }.leaves_by(alloc, cuts)?;
        }
    }
    Some(())
}

/// A record whose point differs from 500 in one attribute alone.
fn ray(k: u8, axis: u8, value: u64) -> Option<Record> {
    let mut values = [500; 4];
    if let Some(there) = values.get_mut(usize::from(axis)) {
        *there = value;
    }
    let (key, body) = (point(k, values)?, Body::new(b""));
    Some(Record { key, body })
}

/// Whether the mask has the attribute.
fn is_in(mask: u8, axis: u8) -> bool {
    match axis {
        0 => mask % 2 == 1,
        1 => mask / 2 % 2 == 1,
        2 => mask / 4 % 2 == 1,
        _ => mask / 8 % 2 == 1,
    }
}

/// A star: a point in the middle, and so many on either side of it in each attribute of the mask.
fn star(alloc: Global, k: u8, mask: u8, arm: u64) -> Option<Vec<Record>> {
    let mut records = Vec::new(alloc);
    records.push(ray(k, 0, 500)?).ok()?;
    for axis in 0..k {
        if is_in(mask, axis) {
            for step in 1..=arm {
                records
                    .push(ray(k, axis, 500u64.saturating_sub(step))?)
                    .ok()?;
                records
                    .push(ray(k, axis, 500u64.saturating_add(step))?)
                    .ok()?;
            }
        }
    }
    records.sort_by(|one, other| one.key.cmp(&other.key)).ok()?;
    Some(records)
}

/// The part of a star is chosen, and leaves.
fn is_parted(alloc: Global, k: u8, mask: u8, arm: u64) -> Option<()> {
    let records = star(alloc, k, mask, arm)?;
    if records.len() < 6 || 48 < records.len() {
        return Some(());
    }
    let page = LivePage {
        level: 0,
        area: whole(k)?,
        frag: leaf_of(records),
    };
    splits(alloc, &page, &file_of(k, 1))
}

/// Stars over each choice of attributes: one, two or three cuts, on each of them.
pub(crate) fn all_stars(alloc: Global) -> Option<()> {
    for (k, masks) in [(1, 2), (2, 4), (3, 8), (4, 16)] {
        for mask in 1..masks {
            for arm in 1..=23 {
                is_parted(alloc, k, mask, arm)?;
            }
        }
    }
    Some(())
}
