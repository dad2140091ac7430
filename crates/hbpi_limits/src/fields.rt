//! The bytes of files, spelled by hand.

use hb_layout::Meta;
use std::alloc::{AllocError, Global};

/// How many bytes a log area has.
pub(crate) const LOG: u32 = 4_194_304;

/// What a page of records may weigh.
pub(crate) const DCAP: u16 = 6;

/// What a page above them may weigh.
pub(crate) const ICAP: u16 = 256;

/// Where page 1 stands: behind two superblocks and two log areas.
const PAGES_AT: usize = 8192 + 2 * LOG as usize;

/// How many bytes a page has.
const PAGE: usize = 4096;

/// Puts a page's head and its box: from this value of the first attribute on.
pub(crate) fn put_head(bytes: &mut Vec<u8>, level: u8, k: u8, from: u64) -> Result<(), AllocError> {
    bytes.extend_from_slice(&[1, level, k, 0])?;
    bytes.extend_from_slice(&from.to_be_bytes())?;
    for _ in 1..k {
        bytes.extend_from_slice(&[0; 8])?;
    }
    for _ in 0..k {
        bytes.extend_from_slice(&[255; 8])?;
    }
    Ok(())
}

/// Puts a cut of the first attribute.
pub(crate) fn put_cut(bytes: &mut Vec<u8>, value: u64) -> Result<(), AllocError> {
    bytes.extend_from_slice(&[0, 0])?;
    bytes.extend_from_slice(&value.to_be_bytes())
}

/// Puts a tag and the number of a page: 2 for a child leaf or a free page, 3 for a sibling leaf.
pub(crate) fn put_name(bytes: &mut Vec<u8>, tag: u8, number: u32) -> Result<(), AllocError> {
    bytes.push(tag)?;
    bytes.extend_from_slice(&number.to_be_bytes())
}

/// Puts a leaf of so many records, whose first values rise by one. Their other values are 7, and their bodies `x`.
pub(crate) fn put_records(
    bytes: &mut Vec<u8>,
    k: u8,
    from: u64,
    count: u8,
) -> Result<(), AllocError> {
    bytes.extend_from_slice(&[1, 0, count])?;
    for record in 0..count {
        let first = from.wrapping_add(u64::from(record));
        bytes.extend_from_slice(&first.to_be_bytes())?;
        for _ in 1..k {
            bytes.extend_from_slice(&[0, 0, 0, 0, 0, 0, 0, 7])?;
        }
        bytes.extend_from_slice(&[1, b'x'])?;
    }
    Ok(())
}

/// Where the page of a number stands.
pub(crate) fn page_at(number: u32) -> usize {
    PAGES_AT + PAGE * (number.saturating_sub(1) as usize)
}

/// Puts fields at a place of a file.
pub(crate) fn put_fields(bytes: &mut [u8], at: usize, fields: &[u8]) {
    let Some(rest) = bytes.get_mut(at..) else {
        return;
    };
    for (place, byte) in rest.iter_mut().zip(fields) {
        *place = *byte;
    }
}

/// Puts fields and zeros behind them as the page of a number.
pub(crate) fn put_page(bytes: &mut [u8], number: u32, fields: &[u8]) {
    put_fields(bytes, page_at(number), &[0; PAGE]);
    put_fields(bytes, page_at(number), fields);
}

/// The superblock of turn 0.
fn super_fields(alloc: Global, meta: &Meta) -> Result<Vec<u8>, AllocError> {
    let mut bytes = Vec::from_slice(alloc, b"\xa5HBPITREE\x01\x00")?;
    bytes.extend_from_slice(&[meta.k, meta.height])?;
    bytes.extend_from_slice(&meta.pages.to_be_bytes())?;
    bytes.extend_from_slice(&meta.log.to_be_bytes())?;
    bytes.extend_from_slice(&meta.dcap.to_be_bytes())?;
    bytes.extend_from_slice(&meta.icap.to_be_bytes())?;
    bytes.extend_from_slice(&meta.root.to_be_bytes())?;
    bytes.extend_from_slice(&meta.high.to_be_bytes())?;
    bytes.extend_from_slice(&meta.live.to_be_bytes())?;
    bytes.extend_from_slice(&meta.free.to_be_bytes())?;
    Ok(bytes)
}

/// The bytes of a file that says this of itself, with zeros behind the superblock.
pub(crate) fn blank(alloc: Global, meta: &Meta) -> Result<Vec<u8>, AllocError> {
    let size = PAGES_AT + PAGE * (meta.pages as usize);
    let mut bytes = vec![in alloc; 0; size]?;
    put_fields(&mut bytes, 0, &super_fields(alloc, meta)?);
    Ok(bytes)
}
