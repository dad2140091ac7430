//! The place of a point among the records of a leaf, where they stand.
ghost use Rattle.std.specs.Prelude.{◌≡◌, length, AllPairs};
ghost use Rattle.hb_frag.specs.Rules.{Precedes};
ghost use Rattle.hb_page_codec.specs.Exact.{AreBytes};
ghost use Rattle.hb_view.specs.Seen.{list_seen};
ghost use Rattle.hb_view.specs.Spots.{IsPlaceAmong};

use crate::corners::compare;
use crate::lists::parts_of;
use crate::trees::ListView;
use std::cmp::Ordering;

/// A place among records: the bytes from it on, and those behind the record that the point has there.
#[derive(Clone, Copy)]
pub(crate) struct Place<'a> {
    pub from: &'a [u8],
    pub behind: &'a [u8],
    /// How many records the point has there.
    pub held: u16,
}

/// A place where the point has a record.
fn taken<'a>(from: &'a [u8], behind: &'a [u8]) -> Place<'a>
    ensures from { result.from.now ≡ from.now }
    ensures behind { result.behind.now ≡ behind.now }
    ensures one { result.held ≡ 1 }
{
    Place {
        from,
        behind,
        held: 1,
    }
}

/// A place where the point has no record.
fn gap(from: &[u8]) -> Place<'_>
    ensures from { result.from.now ≡ from.now }
    ensures behind { result.behind.now ≡ from.now }
    ensures none { result.held ≡ 0 }
{
    Place {
        from,
        behind: from,
        held: 0,
    }
}

/// The place of the point among records that rise.
pub(crate) fn place_among<'a>(list: &ListView<'a>, p: &[u64]) -> Place<'a>
    requires attributes { length p.now ≡ list.now.k.number }
    requires bytes { AreBytes list.now.first.now }
    requires rising { AllPairs Precedes (list_seen list.now) }
    ensures { IsPlaceAmong p.now (list_seen list.now) list.now.first.now result.from.now result.behind.now result.held }
{
    let mut from = list.first;
    for _ in 0..list.count {
        match parts_of(list.k, from) {
            Some((key, _, behind)) => match compare(list.k, key, p) {
                Ordering::Less => from = behind,
                Ordering::Equal => return taken(from, behind),
                Ordering::Greater => return gap(from),
            },
            None => unreachable!(),
        }
    }
    gap(from)
}
