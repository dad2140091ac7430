//! The records of a leaf, from the front of bytes.
ghost use Rattle.std.specs.Prelude.{◌≡◌, ◌*◌, ◌≤◌, length, IfSome, option_map};
ghost use Rattle.hb_page_codec.specs.Reading.{ReadsAs};
ghost use Rattle.hb_page_codec.specs.ReadingFields.{record_at};
ghost use Rattle.hb_view.specs.Corners.{point_there};
ghost use Rattle.hb_view.specs.Seen.{list_seen, after_seen};
ghost use Rattle.hb_view.specs.Views.{FindsAmong};

use crate::corners::{is_point, point_read};
use crate::fields::body_of;
use crate::skipping::behind_list;
use crate::trees::ListView;
use hb_page_codec::point_of;
use hb_space::form::BMAX;
use hb_space::{Attributes, Point};

/// A record as its point and the bytes of its body, and the bytes behind it.
#[tactic(auto, unfolding(hb_page_codec::specs::ReadingFields::record_at))]
pub(crate) fn entry_of(k: Attributes, bytes: &[u8]) -> Option<(Point, &[u8], &[u8])>
    ensures { ReadsAs (λ x. (record { key = x.0; body = x.1.now }, x.2.now)) result (record_at k.number bytes.now) }
{
    let (key, rest) = point_of(k, bytes)?;
    let (body, rest) = body_of(rest)?;
    Some((key, body, rest))
}

/// A record as the bytes of its point and those of its body, and the bytes behind it.
#[tactic(auto, unfolding(hb_page_codec::specs::ReadingFields::record_at))]
pub(crate) fn parts_of(k: Attributes, bytes: &[u8]) -> Option<(&[u8], &[u8], &[u8])>
    ensures reads { ReadsAs (λ x. (record { key = point_there k.number x.0.now; body = x.1.now }, x.2.now)) result (record_at k.number bytes.now) }
    ensures room { IfSome result (λ x. 8 * k.number ≤ length x.0.now) }
    ensures short { IfSome result (λ x. length x.1.now ≤ BMAX) }
{
    let (key, rest) = point_read(k, bytes)?;
    let (body, rest) = body_of(rest)?;
    Some((key, body, rest))
}

/// The body of the first of the records that has the point. None where none has it.
pub(crate) fn body_among<'a>(list: &ListView<'a>, p: &[u64]) -> Option<&'a [u8]>
    requires { length p.now ≡ list.now.k.number }
    ensures found { FindsAmong p.now (list_seen list.now) (option_map (λ b. b.now) result) }
    ensures short { IfSome result (λ b. length b.now ≤ BMAX) }
{
    let mut rest = list.first;
    for _ in 0..list.count {
        match parts_of(list.k, rest) {
            Some((key, body, after)) => {
                if is_point(list.k, key, p) {
                    return Some(body);
                }
                rest = after;
            }
            None => unreachable!(),
        }
    }
    None
}

/// The bytes behind the records.
pub(crate) fn rest_behind_list<'a>(list: &ListView<'a>) -> &'a [u8]
    ensures { result.now ≡ after_seen list.now }
{
    match behind_list(list.k, list.count, list.first) {
        Some(rest) => rest,
        None => unreachable!(),
    }
}
