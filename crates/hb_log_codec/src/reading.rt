//! Groups from bytes.
ghost use Rattle.std.specs.Prelude.{◌≡◌, ◌≢◌, ◌<◌, ◌≤◌, ◌↔◌, ◌∷◌, length, map, AllPairs, IfOk, IfErr, IsTrue};
ghost use Rattle.hb_log_codec.specs.Groups.{FitsPageImage, FitsOp, FitsGroup, SpellsGroups, page_image_bytes, op_bytes, group_bytes};
ghost use Rattle.hb_log_codec.specs.Reading.{FitPageImages, Finds, GroupsEnd, page_images_bytes, logged, stop_at};

use crate::fields::op_of;
use crate::groups::Group;
use crate::laws::fields_are_exact;
use arrayvec::ArrayVec;
use hb_frag::Page;
use hb_ops::Op;
use hb_page_codec::laws::spelling_law;
use hb_page_codec::{PageError, decode, u32_of};
use hb_space::Attributes;
use hb_space::form::PAGE;
use std::alloc::{AllocFailed, Global};

/// Why no page image, operation or group was read from the front of bytes.
#[derive(Clone, Copy, PartialEq, Eq)]
pub(crate) enum GroupStop {
    /// None stands there.
    Bad,
    /// Memory was refused.
    NoMemory,
}

impl From<PageError> for GroupStop {
    ghost use Rattle.hb_log_codec.specs.Reading.{stop_of};

    ghost from_gives = { λ e stop. stop ≡ stop_of e };

    fn from(stop: PageError) -> GroupStop {
        match stop {
            PageError::BadPage => GroupStop::Bad,
            PageError::NoMemory => GroupStop::NoMemory,
        }
    }
}

/// Why no list of groups was read.
#[derive(Clone, Copy, Debug, PartialEq, Eq)]
pub enum GroupsError {
    /// The bytes are no list of groups. The first one that is none begins at this place.
    BadBytes { at: usize },
    /// Memory was refused.
    NoMemory,
}

impl<T: Drop> From<AllocFailed<T>> for GroupsError {
    ghost use Rattle.hb_log_codec.specs.declared.reading.GroupsError.TheVariants.{NoMemory as Refused};

    ghost from_gives = { λ _ e. e ≡ Refused };

    fn from(_refused: AllocFailed<T>) -> GroupsError {
        GroupsError::NoMemory
    }
}

impl<T: Drop> From<AllocFailed<T>> for GroupStop {
    ghost use Rattle.hb_log_codec.specs.declared.reading.GroupStop.TheVariants.{NoMemory as Refused};

    ghost from_gives = { λ _ e. e ≡ Refused };

    fn from(_refused: AllocFailed<T>) -> GroupStop {
        GroupStop::NoMemory
    }
}

impl GroupStop {
    /// The stop of reading a list, at this place.
    fn at(self, at: usize) -> GroupsError
        ensures { result ≡ stop_at at self }
    {
        match self {
            GroupStop::Bad => GroupsError::BadBytes { at },
            GroupStop::NoMemory => GroupsError::NoMemory,
        }
    }
}

/// The page with the number that stands in front of it.
fn page_image_of(alloc: Global, bytes: &[u8]) -> Result<((u32, Page), &[u8]), GroupStop>
    ensures { Finds FitsPageImage page_image_bytes bytes.now (λ x. (x.0, x.1.now)) result }
{
    spelling_law();
    fields_are_exact();
    let (number, rest) = u32_of(bytes).ok_or(GroupStop::Bad)?;
    if rest.len() < PAGE {
        return Err(GroupStop::Bad);
    }
    let (page, rest) = rest.split_at(PAGE);
    let page = decode(alloc, page)?;
    Ok(((number, page), rest))
}

/// So many page images, three at most.
fn page_images_of(
    alloc: Global,
    count: u8,
    bytes: &[u8],
) -> Result<(ArrayVec<(u32, Page), 3>, &[u8]), GroupStop>
    requires { count ≤ 3 }
    ensures { Finds (FitPageImages count) page_images_bytes bytes.now (λ x. (x.0.items, x.1.now)) result }
{
    spelling_law();
    fields_are_exact();
    let mut images = ArrayVec::new();
    let mut rest = bytes;
    for _ in 0..count {
        let (page_image, after) = page_image_of(alloc, rest)?;
        images.push(page_image);
        rest = after;
    }
    Ok((images, rest))
}

/// Whether no two page images are of one page.
fn are_distinct(images: &[(u32, Page)]) -> bool
    requires { length images.now ≤ 3 }
    ensures { IsTrue result ↔ AllPairs (λ i j. i.0 ≢ j.0) images.now }
{
    match images {
        [first, second, third] => {
            first.0 != second.0 && first.0 != third.0 && second.0 != third.0
        }
        [first, second] => first.0 != second.0,
        _ => true,
    }
}

/// An operation over `k` attributes.
fn operation_of(alloc: Global, k: Attributes, bytes: &[u8]) -> Result<(Op, &[u8]), GroupStop>
    ensures { Finds (FitsOp k.number) op_bytes bytes.now (λ x. (x.0, x.1.now)) result }
{
    fields_are_exact();
    op_of(alloc, k, bytes)
}

/// A group over `k` attributes, behind the count of its page images.
fn group_behind(
    alloc: Global,
    k: Attributes,
    count: u8,
    bytes: &[u8],
) -> Result<(Group, &[u8]), GroupStop>
    requires { count ≤ 3 }
    ensures { Finds (FitsGroup k.number) group_bytes (count ∷ bytes.now) (λ x. (logged x.0, x.1.now)) result }
{
    spelling_law();
    fields_are_exact();
    let (images, rest) = page_images_of(alloc, count, bytes)?;
    if !are_distinct(images.as_slice()) {
        return Err(GroupStop::Bad);
    }
    let (op, rest) = operation_of(alloc, k, rest)?;
    Ok((Group { images, op }, rest))
}

/// A group over `k` attributes.
fn group_of(alloc: Global, k: Attributes, bytes: &[u8]) -> Result<(Group, &[u8]), GroupStop>
    ensures { Finds (FitsGroup k.number) group_bytes bytes.now (λ x. (logged x.0, x.1.now)) result }
{
    match bytes {
        [count, rest @ ..] => {
            if *count > 3 {
                return Err(GroupStop::Bad);
            }
            group_behind(alloc, k, *count, rest)
        }
        [] => Err(GroupStop::Bad),
    }
}

/// The groups over `k` attributes that the bytes spell, all of them. Any bytes may be given.
///
/// `BadBytes` exactly where they spell no list of groups.
pub fn decode_all(alloc: Global, bytes: &[u8], k: Attributes) -> Result<Vec<Group>, GroupsError>
    ensures read { IfOk result (λ groups. SpellsGroups k.number bytes.now (map logged groups.items)) }
    ensures end { IfErr result (GroupsEnd k.number bytes.now) }
{
    spelling_law();
    fields_are_exact();
    let mut groups = Vec::new(alloc);
    let mut rest = bytes;
    while !rest.is_empty() {
        match group_of(alloc, k, rest) {
            Ok((group, after)) => {
                groups.push(group)?;
                rest = after;
            }
            Err(stop) => return Err(stop.at(bytes.len() - rest.len())),
        }
    }
    Ok(groups)
}
