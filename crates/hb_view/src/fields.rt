//! Fields of a page's inside, from the front of bytes.
ghost use Rattle.std.specs.Prelude.{◌≤◌, length, IfSome};
ghost use Rattle.hb_page_codec.specs.Reading.{ReadsAs};
ghost use Rattle.hb_page_codec.specs.ReadingFields.{body_at};

use hb_space::form::BMAX;

/// A body, from behind its length on, and the bytes behind it.
#[tactic(auto, unfolding(hb_page_codec::specs::ReadingFields::body_at))]
pub(crate) fn body_of(bytes: &[u8]) -> Option<(&[u8], &[u8])>
    ensures reads { ReadsAs (λ x. (x.0.now, x.1.now)) result (body_at bytes.now) }
    ensures short { IfSome result (λ x. length x.0.now ≤ BMAX) }
{
    let (count, rest) = bytes.split_first()?;
    let count = usize::from(*count);
    if count > BMAX || rest.len() < count {
        return None;
    }
    Some(rest.split_at(count))
}
