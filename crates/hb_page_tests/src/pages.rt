//! Pages as bytes, read and written again.

ghost use Rattle.hb_frag.specs.Grammar.{HasSpelling};

use crate::bytes::{bytes_of, page_bytes_of};
use crate::drawn::say_page;
use crate::replies::Reply;
use hb_frag::Page;
use hb_page_codec::{PageError, decode, encode};
use hb_space::form::PAGE;

// Whether the spelling of a page is these bytes.
fn is_written(page: &Page, bytes: &[u8]) -> bool
    requires { HasSpelling page.now }
{
    let mut into = [255; PAGE];
    encode(page, &mut into);
    into.as_slice() == bytes
}

fn read(reply: &mut Reply, bytes: &[u8]) {
    match decode(reply.alloc, bytes) {
        Ok(page) => {
            reply.need(is_written(&page, bytes));
            say_page(reply, &page);
        }
        Err(PageError::BadPage) => reply.say("no page"),
        Err(PageError::NoMemory) => reply.need(false),
    }
}

/// The page that some bytes spell, with zeros behind them up to the length of a page. Its spelling
/// has to be these bytes.
pub(crate) fn page(reply: &mut Reply, question: &str) {
    let bytes = page_bytes_of(reply, question);
    read(reply, &bytes);
}

/// The same of the bytes alone.
pub(crate) fn bytes(reply: &mut Reply, question: &str) {
    let bytes = bytes_of(reply, question);
    read(reply, &bytes);
}

/// How many bytes the text of a page has, for pages that are too long to be shown.
pub(crate) fn long(reply: &mut Reply, question: &str) {
    let mut other = Reply::new(reply.alloc);
    page(&mut other, question);
    reply.need_whole(&other);
    reply.number(other.text().len() as u64);
}

pub(crate) const ROWS: &str = "
page: 2 0 0 0 7 => free 7
page: first => 0 0.. : -
page: first 1:255 => 255 0.. : -
page: 1 0 4 0 @68 1 => 0 0..0 0..0 0..0 0..0 : -
// records: an empty body, point 258 with the body abc, a body of 32 bytes
page: first 22:1 => 0 0.. : 0=
page: first @20 1 0 1 6*0 1 2 3 97 98 99 => 0 0.. : 258=abc
page: first @20 1 0 1 8*0 32 32*97 => 0 0.. : 0=aaaaaaaaaaaaaaaaaaaaaaaaaaaaaaaa
// a child and a sibling
page: first @20 2 255 255 255 255 => 0 0.. : ^4294967295
page: first @20 3 0 0 0 0 => 0 0.. : >0
// cuts at 72,623,859,790,382,856 and at 256
page: first @20 0 0 1 2 3 4 5 6 7 8 2 0 0 1 0 3 255 255 255 254 => 0 0.. : ( ^256 |0:72623859790382856| >4294967294 )
page: first @20 0 0 6*0 1 0 1 0 1 7*0 5 1 97 3 0 0 0 9 => 0 0.. : ( 5=a |0:256| >9 )
// 452 records, of which the last has a body of 5 letters: 0= for each, 451 commas, the body, and 8 in front
long: full @4090 5 97 98 99 100 101 => 1368
// the deepest tree that has room: 313 cuts, each the left side of the one before, and 314 empty
// leaves. Its text has 8 bytes in front, 11 for each cut, and one for each leaf
long: first @20 3130*0 314*1,0,0 => 3765
// bytes that are refused
// unknown kinds
page: 0 => no page
page: first 0:0 => no page
page: first 0:3 => no page
page: 3 0 0 0 7 => no page
// bytes behind a free page's fields
page: 2 0 0 0 7 1 => no page
page: 2 0 0 0 7 @4095 1 => no page
// no attribute, and five of them
page: 1 0 0 0 1 0 0 => no page
page: 1 0 5 0 @84 1 => no page
// the byte that is zero
page: first 3:1 => no page
page: first 3:255 => no page
// a lower value above its upper one, also in the last attribute
page: 1 0 1 0 7*0 1 8*0 1 0 0 => no page
page: 1 0 4 0 31*0 1 32*0 1 => no page
// unknown tags
page: first @20 4 => no page
page: first @20 255 => no page
// counts for which there is no room: of all, and of one too many
page: first @21 255 255 => no page
page: first @21 1 197 => no page
// a body of 33 bytes, and one that passes the end
page: first @20 1 0 1 8*0 33 => no page
page: first @20 1 0 1 8*0 255 => no page
page: full @4090 6 => no page
// a cut of an attribute that isn't there
page: first @20 0 1 8*0 1 0 0 1 0 0 => no page
page: first @20 0 255 8*0 1 0 0 1 0 0 => no page
// a cut with a bad left side, and with a bad right side
page: first @20 0 0 8*0 4 0 0 1 0 0 => no page
page: first @20 0 0 8*0 1 0 0 4 0 0 => no page
// a tree that isn't whole: cuts up to the end of the page, and such cuts where the page ends behind
// the tag of a cut, of a leaf of records and of a child
page: first @20 => no page
page: first @20 @4090 3 0 0 0 0 0 => no page
page: first @20 @4090 3 0 0 0 0 1 => no page
page: first @20 @4090 3 0 0 0 0 2 => no page
// a body that leaves too few bytes for the last record
page: full @31 32 => no page
// bytes behind the tree
page: first 1 => no page
page: first @4095 1 => no page
page: first @20 2 0 0 0 1 1 => no page
page: full @4095 1 => no page
// bytes that aren't as many as a page has
bytes: first => no page
bytes: @0 => no page
bytes: first @4095 => no page
bytes: first @4097 => no page
";
