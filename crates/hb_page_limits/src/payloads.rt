//! Groups of the log as bytes, by the hundred and of all lengths; and log areas that are full of frames.

ghost use Rattle.std.specs.Prelude.{◌≤◌, All};
ghost use Rattle.hb_log_codec.specs.Groups.{FitsGroup};
ghost use Rattle.hb_log_codec.specs.Reading.{logged};

use crate::pages::{Beside, Row};
use hb_disk::{Device, MemDisk};
use hb_frag::Side;
use hb_log_codec::{Group, decode_all, encode};
use hb_space::Attributes;
use hb_space::form::PAGE;
use hb_wal::read_area;
use std::alloc::{AllocError, Global};

/// The greatest length of a log area.
const AREA: u32 = 67_108_864;

/// How long the path, the cuts and the body of a group are.
#[derive(Clone, Copy)]
struct Lengths {
    path: u8,
    cuts: u8,
    body: u8,
}

/// Puts a path behind its length: left and right by turns.
fn put_path(bytes: &mut Vec<u8>, steps: u8) -> Result<(), AllocError> {
    bytes.push(steps)?;
    for step in 0..steps {
        bytes.push(step % 2)?;
    }
    Ok(())
}

/// Puts cuts behind their number.
fn put_cuts(bytes: &mut Vec<u8>, cuts: u8) -> Result<(), AllocError> {
    bytes.push(cuts)?;
    for cut in 0..cuts {
        bytes.push(cut)?;
        bytes.extend_from_slice(&u64::from(cut).to_be_bytes())?;
        bytes.push(cut / 2 % 2)?;
    }
    Ok(())
}

/// Puts a point, each of whose values is this one.
fn put_point(bytes: &mut Vec<u8>, k: u8, value: u64) -> Result<(), AllocError> {
    for _ in 0..k {
        bytes.extend_from_slice(&value.to_be_bytes())?;
    }
    Ok(())
}

/// Puts numbers of pages.
fn put_pages(bytes: &mut Vec<u8>, pages: &[u32]) -> Result<(), AllocError> {
    for page in pages {
        bytes.extend_from_slice(&page.to_be_bytes())?;
    }
    Ok(())
}

/// Puts an operation of one of five kinds: a put, a delete, a split, a posting, a growth.
fn put_op(bytes: &mut Vec<u8>, k: u8, kind: u32, lengths: Lengths) -> Result<(), AllocError> {
    match kind % 5 {
        0 => {
            bytes.push(1)?;
            put_pages(bytes, &[kind])?;
            put_point(bytes, k, u64::MAX)?;
            bytes.push(lengths.body)?;
            for byte in 0..lengths.body {
                bytes.push(byte)?;
            }
            Ok(())
        }
        1 => {
            bytes.push(2)?;
            put_pages(bytes, &[kind])?;
            put_point(bytes, k, u64::from(kind))
        }
        2 => {
            bytes.push(3)?;
            put_pages(bytes, &[kind, u32::MAX, 7])?;
            put_path(bytes, lengths.path)?;
            put_cuts(bytes, lengths.cuts)
        }
        3 => {
            bytes.push(4)?;
            put_pages(bytes, &[kind])?;
            put_path(bytes, lengths.path)?;
            put_pages(bytes, &[9])?;
            put_point(bytes, k, 5)?;
            put_point(bytes, k, u64::from(kind).saturating_add(5))
        }
        _ => {
            bytes.push(6)?;
            put_pages(bytes, &[kind, 0])
        }
    }
}

/// Puts page images behind their number: full pages, of 1 to 3 numbers.
fn put_images(alloc: Global, bytes: &mut Vec<u8>, k: u8, images: u8) -> Result<(), AllocError> {
    bytes.push(images)?;
    for image in 0..images {
        put_pages(bytes, &[u32::from(image).saturating_add(1)])?;
        let (side, beside) = (Side::Right, Beside::Child);
        let mut page = Row { k, side, beside }.fields(alloc, 1, 255)?;
        page.resize(PAGE, 0)?;
        bytes.extend_from_slice(&page)?;
    }
    Ok(())
}

/// Puts a group.
fn put_group(
    alloc: Global,
    bytes: &mut Vec<u8>,
    k: u8,
    images: u8,
    kind: u32,
    lengths: Lengths,
) -> Result<(), AllocError> {
    put_images(alloc, bytes, k, images)?;
    put_op(bytes, k, kind, lengths)
}

/// Writes the groups as bytes.
fn written(alloc: Global, groups: &[Group], k: u8) -> Option<()>
    requires { All (λ g. FitsGroup k (logged g)) groups.now }
{
    let mut bytes = Vec::new(alloc);
    for group in groups {
        encode(group, k, &mut bytes).ok()?;
    }
    Some(())
}

/// Reads the groups that the bytes spell, and writes them again.
fn again(alloc: Global, bytes: &[u8], k: Attributes) -> Option<()> {
    match decode_all(alloc, bytes, k) {
        Ok(groups) => written(alloc, &groups, k.number),
        Err(_) => None,
    }
}

/// Payloads of 1 to 100 groups of all kinds.
fn many_groups(alloc: Global, k: Attributes) -> Option<()> {
    let mut bytes = Vec::new(alloc);
    for number in 0..100u32 {
        let lengths = Lengths {
            path: (number * 37 % 256) as u8,
            cuts: (number * 3 % 256) as u8,
            body: (number % 33) as u8,
        };
        put_group(alloc, &mut bytes, k.number, 0, number, lengths).ok()?;
        again(alloc, &bytes, k)?;
    }
    Some(())
}

/// A payload of one group.
fn one_group(alloc: Global, k: Attributes, images: u8, kind: u32, lengths: Lengths) -> Option<()> {
    let mut bytes = Vec::new(alloc);
    put_group(alloc, &mut bytes, k.number, images, kind, lengths).ok()?;
    again(alloc, &bytes, k)
}

/// Groups with each length of a path and of cuts.
fn long_groups(alloc: Global, k: Attributes) -> Option<()> {
    for path in 0..=255u8 {
        let lengths = Lengths {
            path,
            cuts: 255 - path,
            body: path % 33,
        };
        for kind in 0..5 {
            one_group(alloc, k, 0, kind, lengths)?;
        }
    }
    Some(())
}

/// Groups with 0 to 3 page images, and a hundred of the longest that there is, in one payload.
fn longest_groups(alloc: Global, k: Attributes) -> Option<()> {
    let lengths = Lengths {
        path: 255,
        cuts: 255,
        body: 32,
    };
    for images in 0..=3 {
        for kind in 0..5 {
            one_group(alloc, k, images, kind, lengths)?;
        }
    }
    let mut bytes = Vec::new(alloc);
    for _ in 0..100 {
        put_group(alloc, &mut bytes, k.number, 3, 2, lengths).ok()?;
    }
    again(alloc, &bytes, k)
}

/// Payloads of up to 100 groups, of one to four attributes.
pub(crate) fn all_groups(alloc: Global) -> Option<()> {
    for number in 1..=4 {
        let k = Attributes { number };
        many_groups(alloc, k)?;
        long_groups(alloc, k)?;
        longest_groups(alloc, k)?;
    }
    Some(())
}

/// How long the payloads of a log area are.
#[derive(Clone, Copy)]
enum Filling {
    /// Each has so many bytes.
    Of(u32),
    /// Each has a byte more than the one before it, beginning with 1.
    Rising,
}

impl Filling {
    fn length(self, number: u32) -> u32 {
        match self {
            Filling::Of(length) => length,
            Filling::Rising => number.saturating_add(1),
        }
    }
}

/// Fills an area of this length with as many frames as have room in it.
fn filled(alloc: Global, len: u32, lengths: Filling) -> Result<Vec<u8>, AllocError> {
    let mut bytes = Vec::with_capacity(alloc, len as usize)?;
    for number in 0..len {
        let length = lengths.length(number);
        let end = (bytes.len() as u64)
            .saturating_add(5)
            .saturating_add(u64::from(length));
        if end > u64::from(len) {
            break;
        }
        bytes.push(0xa5)?;
        bytes.extend_from_slice(&length.to_be_bytes())?;
        bytes.resize(bytes.len().saturating_add(length as usize), 0xa5)?;
    }
    bytes.resize(len as usize, 0)?;
    Ok(bytes)
}

/// Reads an area that is full of such frames.
fn is_read(alloc: Global, len: u32, lengths: Filling) -> Option<()> {
    let bytes = filled(alloc, len, lengths).ok()?;
    let mut disk = MemDisk::new(alloc, bytes);
    if disk.size() < u64::from(len) {
        return None;
    }
    match read_area(alloc, &mut disk, 0, len) {
        Ok(_) => Some(()),
        Err(_) => None,
    }
}

/// The longest area, full of the shortest changes, of payloads of rising length, and of the longest group's.
pub(crate) fn all_frames(alloc: Global) -> Option<()> {
    is_read(alloc, AREA, Filling::Of(14))?;
    is_read(alloc, AREA, Filling::Rising)?;
    is_read(alloc, AREA, Filling::Of(16_384))?;
    for length in 1..=64 {
        is_read(alloc, 65_536, Filling::Of(length))?;
    }
    Some(())
}
