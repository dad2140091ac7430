//! Files of three levels, spelled by hand: each page of a level has a box from its own value of the first attribute on, and
//! gave what lies behind its part to the next page of the level. A page of records has one.

use crate::fields::{
    DCAP, ICAP, LOG, blank, page_at, put_cut, put_fields, put_head, put_name, put_records,
};
use crate::missed::Missed;
use hb_layout::Meta;
use std::alloc::{AllocError, Global};

/// How far the parts of two pages of records are apart.
const STEP: u64 = 1 << 48;

/// How many child leaves a page of level 1 has, beside its sibling leaf. The last one may have less.
const CHILDREN: u32 = 255;

/// A file. Its pages have places: first the root, then the pages of level 1, then those of records, each level by rising
/// parts, and then the free chain.
#[derive(Clone, Copy)]
pub(crate) struct Tree {
    pub(crate) k: u8,
    /// How many pages are in use.
    pub(crate) live: u32,
    /// How many of these are of level 1.
    pub(crate) above: u32,
    /// How many pages are free.
    pub(crate) free: u32,
    /// How many more the file may have.
    pub(crate) more: u32,
    /// How far numbers are ahead of places. Behind the highest page comes 1.
    pub(crate) ahead: u32,
}

impl Tree {
    /// The highest page.
    pub(crate) fn high(&self) -> u32 {
        self.live.saturating_add(self.free)
    }

    /// How many pages the file may have.
    pub(crate) fn pages(&self) -> u32 {
        self.high().saturating_add(self.more)
    }

    /// What the file says of itself.
    pub(crate) fn meta(&self) -> Meta {
        Meta {
            k: self.k,
            pages: self.pages(),
            log: LOG,
            dcap: DCAP,
            icap: ICAP,
            root: self.number(0),
            height: 3,
            high: self.high(),
            live: self.live,
            free: self.free_number(self.live),
        }
    }

    /// The number of the page of a place.
    pub(crate) fn number(&self, place: u32) -> u32 {
        let number = (u64::from(place) + u64::from(self.ahead)) % u64::from(self.high().max(1));
        (number as u32).wrapping_add(1)
    }

    /// How many pages of records there are.
    pub(crate) fn leaves(&self) -> u32 {
        self.live.saturating_sub(self.above).saturating_sub(1)
    }

    /// The place of a page of records.
    pub(crate) fn leaf(&self, item: u32) -> u32 {
        item.saturating_add(self.above).saturating_add(1)
    }

    /// The number of the free page of a place. 0 behind the last one.
    fn free_number(&self, place: u32) -> u32 {
        if place < self.high() {
            self.number(place)
        } else {
            0
        }
    }

    /// How many pages a level has, and the place of the first one.
    fn level(&self, level: u8) -> (u32, u32) {
        match level {
            0 => (self.leaves(), self.leaf(0)),
            1 => (self.above, 1),
            _ => (1, 0),
        }
    }
}

/// Where the part of a page of records begins.
pub(crate) fn part_of(item: u32) -> u64 {
    u64::from(item).wrapping_mul(STEP)
}

/// Where the part of a page of a level begins.
fn begin_of(level: u8, item: u32) -> u64 {
    match level {
        0 => part_of(item),
        1 => part_of(item.wrapping_mul(CHILDREN)),
        _ => 0,
    }
}

/// The fields of a page of records that has so many, one at the beginning of its part.
pub(crate) fn leaf_fields(
    alloc: Global,
    tree: &Tree,
    item: u32,
    records: u8,
) -> Result<Vec<u8>, AllocError> {
    let from = part_of(item);
    let next = item.wrapping_add(1);
    let mut bytes = Vec::new(alloc);
    put_head(&mut bytes, 0, tree.k, from)?;
    if next < tree.leaves() {
        put_cut(&mut bytes, part_of(next))?;
    }
    put_records(&mut bytes, tree.k, from, records)?;
    if next < tree.leaves() {
        put_name(&mut bytes, 3, tree.number(tree.leaf(next)))?;
    }
    Ok(bytes)
}

/// The items of the level below that a page names.
fn named_by(tree: &Tree, level: u8, item: u32) -> (u32, u32) {
    if level == 1 {
        let from = item.wrapping_mul(CHILDREN);
        (from, from.wrapping_add(CHILDREN).min(tree.leaves()))
    } else {
        (0, tree.above)
    }
}

/// The fields of a page above the records: each cut has a child leaf on its left.
fn above_fields(alloc: Global, tree: &Tree, level: u8, item: u32) -> Result<Vec<u8>, AllocError> {
    let below = level.wrapping_sub(1);
    let (count, first) = tree.level(below);
    let (from, to) = named_by(tree, level, item);
    let mut bytes = Vec::new(alloc);
    put_head(&mut bytes, level, tree.k, begin_of(level, item))?;
    for child in from..to {
        let next = child.wrapping_add(1);
        if next < count {
            put_cut(&mut bytes, begin_of(below, next))?;
        }
        put_name(&mut bytes, 2, tree.number(first.wrapping_add(child)))?;
    }
    if to < count {
        let (_, first) = tree.level(level);
        let next = first.wrapping_add(item).wrapping_add(1);
        put_name(&mut bytes, 3, tree.number(next))?;
    }
    Ok(bytes)
}

/// The fields of the page of a place.
fn fields_of(alloc: Global, tree: &Tree, place: u32) -> Result<Vec<u8>, AllocError> {
    if place == 0 {
        above_fields(alloc, tree, 2, 0)
    } else if place <= tree.above {
        above_fields(alloc, tree, 1, place - 1)
    } else if place < tree.live {
        leaf_fields(alloc, tree, place - tree.above - 1, 1)
    } else {
        let mut bytes = Vec::new(alloc);
        put_name(&mut bytes, 2, tree.free_number(place.saturating_add(1)))?;
        Ok(bytes)
    }
}

/// The bytes of the file, whose log is empty.
pub(crate) fn file_of(alloc: Global, tree: &Tree) -> Result<Vec<u8>, Missed> {
    let mut bytes = blank(alloc, &tree.meta())?;
    for place in 0..tree.high() {
        let fields = fields_of(alloc, tree, place)?;
        put_fields(&mut bytes, page_at(tree.number(place)), &fields);
    }
    Ok(bytes)
}
