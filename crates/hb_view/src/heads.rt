//! The fields of a page in front of its tree.
ghost use Rattle.std.specs.Prelude.{◌≡◌, ◌+◌, ◌*◌, ◌↔◌, drop, slice_index, IfOk, IsSome, IsTrue};
ghost use Rattle.hb_frag.specs.Grammar.{HasSpelling};
ghost use Rattle.hb_frag.specs.declared.pages.Page.TheVariants.{Free};
ghost use Rattle.hb_page_codec.specs.ReadingPages.{page_of_bytes};
ghost use Rattle.hb_view.specs.Spelled.{page_spelled};
ghost use Rattle.hb_view.specs.Views.{IsLive, IsLiveAnd, HasInside};

use crate::corners::from_place;
use crate::trees::{Inside, TreeView};
use hb_frag::Page;
use hb_page_codec::{PageError, area_of, decode, u32_of};
use hb_space::{Area, Attributes, NoMemory};
use std::alloc::{AllocError, Global};

/// Whether the bytes spell a page in use.
pub(crate) fn are_live(bytes: &[u8]) -> bool
    requires { IsSome (page_of_bytes bytes.now) }
    ensures { IsTrue result ↔ IsLive (page_spelled bytes.now) }
{
    bytes[0] == 1
}

/// The level of the page in use that the bytes spell.
pub(crate) fn level_of(bytes: &[u8]) -> u8
    requires { IsLive (page_spelled bytes.now) }
    ensures { IsLiveAnd (page_spelled bytes.now) (λ page. result ≡ page.level) }
{
    bytes[1]
}

/// How many attributes the page in use has that the bytes spell.
fn attributes_of(bytes: &[u8]) -> Attributes
    requires { IsLive (page_spelled bytes.now) }
    ensures { result.number ≡ slice_index bytes.now 2 }
{
    Attributes { number: bytes[2] }
}

/// The box of the page in use that the bytes spell.
pub(crate) fn box_of(bytes: &[u8]) -> Area
    requires { IsLive (page_spelled bytes.now) }
    ensures { IsLiveAnd (page_spelled bytes.now) (λ page. result ≡ page.area) }
{
    match area_of(attributes_of(bytes), from_place(bytes, 4)) {
        Some((area, _)) => area,
        None => unreachable!(),
    }
}

/// Where the box and the tree of the page in use stand that the bytes spell.
pub(crate) fn inside_of(bytes: &[u8]) -> Inside<'_>
    requires { IsLive (page_spelled bytes.now) }
    ensures parts { IsLiveAnd (page_spelled bytes.now) (λ page. HasInside page result) }
    ensures begins { result.tree.bytes.now ≡ drop (4 + 16 * result.tree.k.number) bytes.now }
{
    let k = attributes_of(bytes);
    let corners = from_place(bytes, 4);
    let tree = TreeView {
        k,
        bytes: from_place(bytes, 4 + 16 * usize::from(k.number)),
    };
    Inside { corners, tree }
}

/// The next page of the free chain, of the free page that the bytes spell.
pub(crate) fn next_of(bytes: &[u8]) -> u32
    requires spelled { IsSome (page_of_bytes bytes.now) }
    requires free { ¬ (IsLive (page_spelled bytes.now)) }
    ensures { page_spelled bytes.now ≡ Free result }
{
    match u32_of(from_place(bytes, 1)) {
        Some((next, _)) => next,
        None => unreachable!(),
    }
}

/// The page that the bytes spell, with memory of its own.
pub(crate) fn page_of(alloc: Global, bytes: &[u8]) -> Result<Page, NoMemory>
    requires { IsSome (page_of_bytes bytes.now) }
    ensures value { IfOk result (λ page. page ≡ page_spelled bytes.now) }
    ensures writable { IfOk result (λ page. HasSpelling page) }
{
    match decode(alloc, bytes) {
        Ok(page) => Ok(page),
        Err(PageError::NoMemory) => Err(AllocError),
        Err(PageError::BadPage) => unreachable!(),
    }
}
