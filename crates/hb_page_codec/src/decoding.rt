//! Pages from bytes.
ghost use Rattle.std.specs.Prelude.{◌≡◌, ◌<◌, ◌≤◌, ◌⊎◌, ◌∷◌, IfOk, Ok, Err};
ghost use Rattle.hb_frag.specs.declared.pages.Page.{Page as Content};
ghost use Rattle.hb_frag.specs.Grammar.{HasSpelling, SpellsPage};
ghost use Rattle.hb_page_codec.specs.Memory.{WantsOnly, BeginsWithMany, PageMayWantMemory};
ghost use Rattle.hb_page_codec.specs.Weight.{IsLight};
ghost use Rattle.hb_page_codec.specs.declared.errors.PageError.TheVariants.{NoMemory};
ghost use Rattle.hb_page_codec.specs.Reading.{ReadsAs, Gives};
ghost use Rattle.hb_page_codec.specs.ReadingPages.{head_at, live_at, fields_at, page_of_bytes};

use crate::errors::PageError;
use crate::fragments::fragment_of;
use crate::numbers::u32_of;
use crate::records::area_of;
use hb_frag::{LivePage, Page};
use hb_lemmas::is_zero;
use hb_space::Attributes;
use hb_space::form::{KMAX, PAGE};
use std::alloc::Global;

/// The level and the number of attributes, and the byte that is zero.
#[tactic(auto, unfolding(crate::specs::ReadingPages::head_at))]
pub fn head_of(bytes: &[u8]) -> Option<(u8, Attributes, &[u8])>
    ensures { ReadsAs (λ x. (x.0, x.1.number, x.2.now)) result (head_at bytes.now) }
{
    match bytes {
        [level, k, 0, rest @ ..] => {
            if *k == 0 || usize::from(*k) > KMAX {
                return None;
            }
            Some((*level, Attributes { number: *k }, rest))
        }
        _ => None,
    }
}

/// A live page, behind its tag.
#[tactic(auto, unfolding(crate::specs::ReadingPages::live_at))]
fn live_of(alloc: Global, bytes: &[u8]) -> Result<(Page, &[u8]), PageError>
    ensures gives { Gives (λ x. (x.0, x.1.now)) result (live_at bytes.now) }
    ensures memory { WantsOnly result (BeginsWithMany (1 ∷ bytes.now)) }
{
    let (level, k, rest) = head_of(bytes).ok_or(PageError::BadPage)?;
    let (area, rest) = area_of(k, rest).ok_or(PageError::BadPage)?;
    let (frag, rest) = fragment_of(alloc, k, rest)?;
    Ok((Page::Live(LivePage { level, area, frag }), rest))
}

/// All fields of a page.
#[tactic(auto, unfolding(crate::specs::ReadingPages::fields_at))]
fn fields_of(alloc: Global, bytes: &[u8]) -> Result<(Page, &[u8]), PageError>
    ensures gives { Gives (λ x. (x.0, x.1.now)) result (fields_at bytes.now) }
    ensures memory { WantsOnly result (BeginsWithMany bytes.now) }
{
    match bytes {
        [1, rest @ ..] => live_of(alloc, rest),
        [2, rest @ ..] => {
            let (next, rest) = u32_of(rest).ok_or(PageError::BadPage)?;
            Ok((Page::Free { next }, rest))
        }
        _ => Err(PageError::BadPage),
    }
}

/// The page that all of the bytes spell.
#[tactic(auto, unfolding(crate::specs::ReadingPages::page_of_bytes))]
fn page_of(alloc: Global, bytes: &[u8]) -> Result<Page, PageError>
    ensures gives { Gives (λ x. x) result (page_of_bytes bytes.now) }
    ensures memory { WantsOnly result (PageMayWantMemory bytes.now) }
{
    if bytes.len() != PAGE {
        return Err(PageError::BadPage);
    }
    let (page, rest) = fields_of(alloc, bytes)?;
    if is_zero(rest) {
        Ok(page)
    } else {
        Err(PageError::BadPage)
    }
}

/// The page that the bytes spell, all of them. Any bytes may be given.
///
/// `BadPage` comes only where they spell no page, and a page is never read from such bytes.
/// `NoMemory` comes only where there are `PAGE` of them, and they begin as those of a live page
/// whose root is a cut or a leaf with records.
pub fn decode(alloc: Global, bytes: &[u8]) -> Result<Page, PageError>
    // What is read is what the bytes spell.
    ensures found { IfOk result (λ page. SpellsPage bytes.now page) }
    // What they spell is read, unless memory was refused.
    ensures only { (page : Content) → SpellsPage bytes.now page →
        ((result ≡ Ok page) ⊎ (result ≡ Err NoMemory)) }
    // Where memory may be wanted.
    ensures memory { WantsOnly result (PageMayWantMemory bytes.now) }
    // What is read can be written again.
    ensures writable { IfOk result (λ page. HasSpelling page) }
    // What is read weighs no more than a page has bytes.
    ensures light { IfOk result (λ page. IsLight page) }
{
    page_of(alloc, bytes)
}
