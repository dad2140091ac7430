//! Whether bytes spell a page.
ghost use Rattle.std.specs.Prelude.{◌↔◌, IsSome, IsTrue};
ghost use Rattle.hb_page_codec.specs.Reading.{ReadsAs};
ghost use Rattle.hb_page_codec.specs.ReadingPages.{page_of_bytes};
ghost use Rattle.hb_view.specs.Behind.{live_behind, fields_behind};

use crate::corners::behind_box;
use crate::skipping::{behind_name, behind_tree};
use hb_lemmas::is_zero;
use hb_page_codec::head_of;
use hb_space::form::PAGE;

/// The bytes behind a live page, from behind its tag.
#[tactic(auto, unfolding(crate::specs::Behind::live_behind))]
fn behind_live(bytes: &[u8]) -> Option<&[u8]>
    ensures { ReadsAs (λ x. x.now) result (live_behind bytes.now) }
{
    let (_level, k, rest) = head_of(bytes)?;
    let rest = behind_box(k, rest)?;
    behind_tree(k, rest)
}

/// The bytes behind all fields of a page.
#[tactic(auto, unfolding(crate::specs::Behind::fields_behind))]
fn behind_fields(bytes: &[u8]) -> Option<&[u8]>
    ensures { ReadsAs (λ x. x.now) result (fields_behind bytes.now) }
{
    match bytes {
        [1, rest @ ..] => behind_live(rest),
        [2, rest @ ..] => behind_name(rest),
        _ => None,
    }
}

/// Whether the bytes spell a page. It reads over them once.
pub(crate) fn spells(bytes: &[u8]) -> bool
    ensures { IsTrue result ↔ IsSome (page_of_bytes bytes.now) }
{
    if bytes.len() != PAGE {
        return false;
    }
    match behind_fields(bytes) {
        Some(rest) => is_zero(rest),
        None => false,
    }
}
