//! Files of two, three and four attributes: a sound one of each, and the same with another page in the place of one of its
//! own. The answers were worked out by hand from the rules.

use crate::rows::expect;
use crate::spelled_files::{MetaNumbers, Outcome, is_audited};

// Page 1 is the root, and names some of the others. Page 2 has the whole space, and gave a box to another page, which gave a
// part of it to a third one, and this one to a fourth: to 3, 4 and 5, or with three attributes to 5, 4 and 3. There page 6 is
// free.
fn sound_file(k: u8) -> (MetaNumbers, &'static str) {
    match k {
        2 => (
            (1, 2, 5, 5, 0),
            "1 *,* ^5 / 1<20: ^3 / 0<30: ^3 / 0<10: ^2 | 0 *,* 3,5 9,99 / 0≥10: >3 | 0 10-*,* 10,7 12,19 / 1≥20: >4 | 0 10-*,20-* 10,20 29,20 / 0≥30: >5 | 0 30-*,20-* 30,21 31,5000",
        ),
        3 => (
            (1, 2, 6, 5, 6),
            "1 *,*,* ^2 / 2≥50: ^5 | 0 *,*,* 1,2,3 4,5,49 / 2≥50: >5 | 0 10-*,7-*,50-* 10,7,50 | 0 *,7-*,50-* 9,7,51 9,8,50 / 0≥10: >3 | 0 *,*,50-* >4 / 1<7: 0,6,50 | free 0",
        ),
        _ => (
            (1, 2, 5, 5, 0),
            "1 *,*,*,* ^3 / 3≥9: ^4 / 0<5: ^2 | 0 *,*,*,* 4,9,9,9 / 0≥5: >3 | 0 5-*,*,*,* 5,0,0,8 6,1,0,0 / 3≥9: >4 | 0 5-*,*,*,9-* >5 / 1<3: 5,2,7,9 / 2≥8: 5,3,8,9 | 0 5-*,3-*,0-7,9-* 5,3,0,10 5,3,7,9",
        ),
    }
}

// The number of attributes, a page's number, or 0 for none, what stands there, and the answer.
const ROWS: [(u8, usize, &str, Outcome); 40] = [
    (2, 0, "", Ok(8)),
    (3, 0, "", Ok(6)),
    (4, 0, "", Ok(7)),
    // 1: the root's box lacks the least value of an attribute, or the greatest one
    (2, 1, "1 *,1-* ^3", Err((0, 1))),
    (3, 1, "1 *,*,0-18446744073709551614 ^2", Err((0, 1))),
    // 2: a free page that names a page in use, itself, and a page in use in its place
    (3, 6, "free 2", Err((2, 2))),
    (3, 6, "free 6", Err((6, 2))),
    (3, 6, "0 *,*,* 1,1,1", Err((6, 2))),
    // 3: a box of more attributes, and of fewer
    (2, 5, "0 30-*,20-*,* 30,20,1", Err((5, 3))),
    (4, 4, "0 5-*,*,9-* 5,2,9", Err((4, 3))),
    // 4: a cut at the least value, above the greatest one, of an attribute that isn't there
    (2, 4, "0 10-*,20-* 10,20 / 1≥20: >5", Err((4, 4))),
    (3, 4, "0 *,7-*,50-* 9,7,50 / 1≥7: >3", Err((4, 4))),
    (4, 5, "0 5-*,3-*,0-7,9-* >4 / 2≥8: 5,3,9,9", Err((5, 4))),
    (2, 4, "0 10-*,20-* 10,20 / 2≥30: >5", Err((4, 4))),
    (4, 5, "0 5-*,3-*,0-7,9-* 5,3,0,9 / 4≥10: >4", Err((5, 4))),
    // behind another cut, above the greatest value there
    (
        3,
        3,
        "0 10-*,7-*,50-* 10,7,50 / 2≥60: >4 / 2≥60: 10,7,60",
        Err((3, 4)),
    ),
    // 6: a record outside its leaf's box, by one, in one attribute
    (2, 4, "0 10-*,20-* 10,19 29,20 / 0≥30: >5", Err((4, 6))),
    (2, 4, "0 10-*,20-* 10,20 30,20 / 0≥30: >5", Err((4, 6))),
    (3, 4, "0 *,7-*,50-* 9,7,49 / 0≥10: >3", Err((4, 6))),
    (
        4,
        4,
        "0 5-*,*,*,9-* >5 / 1<3: 5,2,8,9 / 2≥8: 5,3,8,9",
        Err((4, 6)),
    ),
    (
        4,
        4,
        "0 5-*,*,*,9-* >5 / 1<3: 5,2,7,8 / 2≥8: 5,3,8,9",
        Err((4, 6)),
    ),
    // two that fall in the second attribute, or in the last one; the same one twice
    (2, 4, "0 10-*,20-* 10,21 10,20 / 0≥30: >5", Err((4, 6))),
    (4, 5, "0 5-*,3-*,0-7,9-* 5,3,0,10 5,3,0,9", Err((5, 6))),
    (3, 3, "0 10-*,7-*,50-* 10,7,50 10,7,50", Err((3, 6))),
    // a point of fewer attributes
    (3, 3, "0 10-*,7-*,50-* 10,7", Err((3, 6))),
    // 7: a sibling's box one too large, or too small, in one attribute
    (2, 5, "0 30-*,19-* 30,20", Err((4, 7))),
    (3, 3, "0 10-*,7-*,49-* 10,7,50", Err((4, 7))),
    (4, 5, "0 5-*,3-*,0-8,9-* 5,3,0,9", Err((4, 7))),
    (4, 5, "0 5-*,3-*,0-7,8-* 5,3,0,9", Err((4, 7))),
    (4, 5, "0 5-*,3-*,0-7,10-* 5,3,0,10", Err((4, 7))),
    // for two pages, and beside a child leaf that isn't within its page's box
    (3, 4, "0 *,7-*,51-* 9,7,51 / 0≥10: >3", Err((4, 7))),
    (2, 5, "0 31-*,20-* 31,5000", Err((4, 7))),
    // 8: a child leaf's box one too large in one attribute
    (
        2,
        1,
        "1 *,* ^5 / 1<19: ^3 / 0<30: ^3 / 0<10: ^2",
        Err((1, 8)),
    ),
    (3, 1, "1 *,*,* ^2 / 2≥49: ^5", Err((1, 8))),
    (4, 1, "1 *,*,*,* ^3 / 3≥8: ^4 / 0<5: ^2", Err((1, 8))),
    // 9: a page that nobody names, and before another one such a page that two name
    (4, 4, "0 5-*,*,*,9-* 5,2,7,9 5,3,8,9", Err((5, 9))),
    (3, 2, "0 *,*,* >4 / 1<7: 0,6,50 / 2<50: 1,2,3", Err((4, 9))),
    (2, 2, "0 *,* >5 / 1<20: 30,19 / 0<30: 1,1", Err((3, 9))),
    // 10: two leaves that should be one
    (
        4,
        5,
        "0 5-*,3-*,0-7,9-* 5,3,0,9 / 3≥10: 5,3,7,10",
        Err((5, 10)),
    ),
    (3, 1, "1 *,*,* ^2 / 0≥9: ^2 / 2≥50: ^5", Err((1, 10))),
];

#[test]
fn boxes_of_several_attributes(rt: HostRuntime) {
    for (place, &(k, number, other, want)) in ROWS.iter().enumerate() {
        let (numbers, text) = sound_file(k);
        let is_so = is_audited(rt.alloc(), k, numbers, text, number, other, want);
        expect(&rt, place, is_so);
    }
}
