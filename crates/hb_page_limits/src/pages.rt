//! Pages, spelled by hand.

ghost use Rattle.std.specs.Prelude.{◌≡◌, IsTrue};
ghost use Rattle.hb_frag.specs.Leaves.{WellCut};
ghost use Rattle.hb_space.specs.Boxes.{Holds};

use crate::shapes::point;
use hb_frag::{LivePage, Page, Side};
use hb_page_codec::decode;
use hb_space::form::PAGE;
use hb_space::{Area, Point};
use std::alloc::{AllocError, Global};

/// The page that is split or posted in, and the one that joins.
pub(crate) const OLD: u32 = 1;

pub(crate) const FRESH: u32 = 301;

/// How many children a page above the records may have.
const CHILDREN: u32 = 256;

/// The bytes of a leaf without a record.
pub(crate) const NOTHING: [u8; 3] = [1, 0, 0];

/// The page in use that these fields begin and zeros end.
pub(crate) fn page_of(alloc: Global, fields: Vec<u8>) -> Option<LivePage> {
    let mut bytes = fields;
    bytes.resize(PAGE, 0).ok()?;
    match decode(alloc, &bytes) {
        Ok(Page::Live(page)) => Some(page),
        Ok(Page::Free { .. }) | Err(_) => None,
    }
}

/// Whether the point lies in the page's box, and the page is well cut.
pub(crate) fn reaches(page: &LivePage, point: &Point) -> bool
    ensures cut { IsTrue result → WellCut page.now }
    ensures held { IsTrue result → Holds page.now.area point.now }
{
    page.area.lo().attributes() == point.attributes()
        && page.area.holds(point)
        && page.is_well_cut()
}

/// The first bytes of a page of the whole space.
fn head_of(alloc: Global, level: u8, k: u8) -> Result<Vec<u8>, AllocError> {
    let mut bytes = Vec::from_slice(alloc, &[1, level, k, 0])?;
    for byte in [0, 255] {
        for _ in 0..k {
            bytes.extend_from_slice(&[byte; 8])?;
        }
    }
    Ok(bytes)
}

/// Puts a cut's tag, attribute and value.
fn put_cut(bytes: &mut Vec<u8>, axis: u8, value: u64) -> Result<(), AllocError> {
    bytes.extend_from_slice(&[0, axis])?;
    bytes.extend_from_slice(&value.to_be_bytes())
}

/// Puts a leaf's tag and the page that it names.
fn put_name(bytes: &mut Vec<u8>, tag: u8, page: u32) -> Result<(), AllocError> {
    bytes.push(tag)?;
    bytes.extend_from_slice(&page.to_be_bytes())
}

/// Puts the cuts of all parts that begin with the leaf of this number, the greatest part first. Each part of more than one
/// leaf is cut in two halves.
fn put_halving_cuts(bytes: &mut Vec<u8>, leaf: u32) -> Result<(), AllocError> {
    for leaves in [256, 128, 64, 32, 16, 8, 4, 2] {
        if leaf % leaves == 0 {
            put_cut(bytes, 3, u64::from(leaf) + u64::from(leaves / 2))?;
        }
    }
    Ok(())
}

/// A page of level 1 over four attributes with 256 children, cut eight times down to each of them.
pub(crate) fn many_children(alloc: Global) -> Option<()> {
    let mut bytes = head_of(alloc, 1, 4).ok()?;
    for leaf in 0..CHILDREN {
        put_halving_cuts(&mut bytes, leaf).ok()?;
        put_name(&mut bytes, 2, leaf + 2).ok()?;
    }
    page_of(alloc, bytes)?.children(alloc).ok()?;
    Some(())
}

/// Which leaf stands beside each cut.
#[derive(Clone, Copy)]
pub(crate) enum Beside {
    Child,
    Sibling,
    Nothing,
}

/// How a page is cut. The cuts take the attributes by turns, and each parts what lies within the one before it.
#[derive(Clone, Copy)]
pub(crate) struct Row {
    /// The number of attributes.
    pub(crate) k: u8,
    /// The side of each cut on which the next one stands.
    pub(crate) side: Side,
    pub(crate) beside: Beside,
}

impl Row {
    pub(crate) fn axis(self, cut: u32) -> u8 {
        (cut % u32::from(self.k.max(1))) as u8
    }

    fn value(self, cut: u32) -> u64 {
        let step = u64::from(cut).saturating_mul(10).saturating_add(10);
        match self.side {
            Side::Left => 1_000_000u64.saturating_sub(step),
            Side::Right => step,
        }
    }

    /// Puts the cut of a number.
    fn put_cut(self, bytes: &mut Vec<u8>, cut: u32) -> Result<(), AllocError> {
        put_cut(bytes, self.axis(cut), self.value(cut))
    }

    /// Puts the leaf beside the cut of a number.
    fn put_leaf(self, bytes: &mut Vec<u8>, cut: u32) -> Result<(), AllocError> {
        match self.beside {
            Beside::Child => put_name(bytes, 2, cut.saturating_add(2)),
            Beside::Sibling => put_name(bytes, 3, cut.saturating_add(2)),
            Beside::Nothing => bytes.extend_from_slice(&NOTHING),
        }
    }

    /// The fields of a page of the whole space with so many cuts around this leaf.
    pub(crate) fn around(
        self,
        alloc: Global,
        level: u8,
        cuts: u32,
        leaf: &[u8],
    ) -> Result<Vec<u8>, AllocError> {
        let mut bytes = head_of(alloc, level, self.k)?;
        for cut in 0..cuts {
            self.put_cut(&mut bytes, cut)?;
            if self.side == Side::Right {
                self.put_leaf(&mut bytes, cut)?;
            }
        }
        bytes.extend_from_slice(leaf)?;
        if self.side == Side::Left {
            for cut in (0..cuts).rev() {
                self.put_leaf(&mut bytes, cut)?;
            }
        }
        Ok(bytes)
    }

    /// The same around one more leaf of its kind.
    pub(crate) fn fields(self, alloc: Global, level: u8, cuts: u32) -> Result<Vec<u8>, AllocError> {
        let mut leaf = Vec::new(alloc);
        self.put_leaf(&mut leaf, cuts)?;
        self.around(alloc, level, cuts, &leaf)
    }

    /// A point within all cuts.
    pub(crate) fn within(self) -> Option<Point> {
        match self.side {
            Side::Left => point(self.k, [0; 4]),
            Side::Right => point(self.k, [u64::MAX; 4]),
        }
    }
}

/// The fields of a page of the whole space that gave this box to the fresh page: of each attribute, first what lies below the
/// box is cut off, then what lies above it.
pub(crate) fn fields_around(alloc: Global, level: u8, hole: &Area) -> Result<Vec<u8>, AllocError> {
    let outside: &[u8] = if level == 0 {
        &NOTHING
    } else {
        &[2, 0, 0, 0, 7]
    };
    let mut bytes = head_of(alloc, level, hole.lo().attributes())?;
    let mut behind = Vec::new(alloc);
    for ((axis, least), greatest) in (0..4).zip(hole.lo().values()).zip(hole.hi().values()) {
        if *least > 0 {
            put_cut(&mut bytes, axis, *least)?;
            bytes.extend_from_slice(outside)?;
        }
        if *greatest < u64::MAX {
            put_cut(&mut bytes, axis, greatest.saturating_add(1))?;
            behind.extend_from_slice(outside)?;
        }
    }
    put_name(&mut bytes, 3, FRESH)?;
    bytes.extend_from_slice(&behind)?;
    Ok(bytes)
}
