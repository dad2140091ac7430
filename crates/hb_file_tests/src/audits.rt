//! Files of one attribute, each with the answer that was worked out by hand from the rules.

use crate::rows::expect;
use crate::spelled_files::{MetaNumbers, Outcome, is_audited};

/// The numbers of a file, its text, and what the audit answers.
const ROWS: [(MetaNumbers, &str, Outcome); 65] = [
    (
        (1, 3, 8, 8, 0),
        "2 * ^3 / 500: >2 | 2 500-18446744073709551615 ^3 | 1 * ^5 / 100: ^6 / 300: >4 | 1 300-18446744073709551615 ^6 / 400: ^7 | 0 * 7 99 / 100: >6 / 400: >7 | 0 100-399 100 299 300 399 | 0 400-18446744073709551615 450 / 600: >8 / 800: 18446744073709551615 | 0 600-799 600 799",
        Ok(10),
    ),
    (
        (1, 2, 5, 5, 0),
        "1 * ^2 | 0 * 7 / 100: >3 | 0 100-18446744073709551615 100 / 200: >4 | 0 200-18446744073709551615 / 300: >5 | 0 300-18446744073709551615 300",
        Ok(3),
    ),
    (
        (1, 8, 8, 8, 0),
        "7 * ^2 | 6 * ^3 | 5 * ^4 | 4 * ^5 | 3 * ^6 | 2 * ^7 | 1 * ^8 | 0 * 7",
        Ok(1),
    ),
    // sound: one page; two levels with a sibling; a free chain of two
    ((1, 1, 1, 1, 0), "0 *", Ok(0)),
    ((1, 1, 1, 1, 0), "0 * 3 5", Ok(2)),
    (
        (1, 2, 3, 3, 0),
        "1 * ^2 / 10: ^3 | 0 * 1 / 10: >3 | 0 10-18446744073709551615 11 12",
        Ok(3),
    ),
    ((1, 1, 3, 1, 3), "0 * 3 | free 0 | free 2", Ok(1)),
    // and children and a sibling that stand in front of the page that names them
    (
        (3, 2, 3, 3, 0),
        "0 10-* 11 | 0 * 1 / 10: >1 | 1 * ^2 / 10: ^1",
        Ok(2),
    ),
    (
        (4, 2, 4, 4, 0),
        "0 10-19 11 | 0 20-* 21 | 0 * 1 / 10: >1 / 20: >2 | 1 * ^3 / 10: ^1 / 20: ^2",
        Ok(3),
    ),
    // 0: no page there; beyond the pages that the file may have
    ((1, 1, 2, 1, 0), "0 * | bad", Err((2, 0))),
    ((1, 1, 3, 1, 0), "0 * | bad | bad", Err((2, 0))),
    (
        (1, 1, 9, 1, 0),
        "0 *|0 *|0 *|0 *|0 *|0 *|0 *|0 *|0 *",
        Err((9, 0)),
    ),
    ((1, 1, 4294967295, 1, 0), "0 *|bad", Err((2, 0))),
    // 1: the numbers and the root
    ((1, 1, 0, 0, 0), "0 *", Err((0, 1))),
    ((2, 1, 1, 1, 0), "0 *", Err((0, 1))),
    ((0, 1, 1, 1, 0), "0 *", Err((0, 1))),
    ((1, 1, 1, 1, 2), "0 *", Err((0, 1))),
    ((1, 1, 1, 2, 0), "0 *", Err((0, 1))),
    ((1, 1, 2, 3, 0), "0 * | free 0", Err((0, 1))),
    ((1, 2, 1, 1, 0), "0 *", Err((0, 1))),
    ((1, 1, 1, 1, 0), "0 0-5", Err((0, 1))),
    ((1, 1, 1, 0, 1), "free 0", Err((0, 1))),
    // 2: left out; ends at a page in use, beyond the highest page, at one met before; a wrong count
    ((1, 1, 3, 1, 3), "0 * | free 0 | free 0", Err((2, 2))),
    ((1, 1, 2, 1, 0), "0 * | free 0", Err((2, 2))),
    (
        (1, 1, 4, 1, 3),
        "0 * | free 0 | free 0 | free 0",
        Err((2, 2)),
    ),
    ((1, 1, 3, 2, 0), "0 * | 1 * | free 2", Err((3, 2))),
    ((1, 1, 2, 1, 2), "0 * | free 1", Err((1, 2))),
    ((1, 1, 2, 1, 2), "0 * | free 7", Err((7, 2))),
    (
        (1, 1, 2, 1, 2),
        "0 * | free 4294967295",
        Err((4294967295, 2)),
    ),
    ((1, 1, 3, 1, 2), "0 * | free 3 | free 2", Err((2, 2))),
    ((1, 1, 3, 1, 2), "0 * | free 3 | free 3", Err((3, 2))),
    ((1, 1, 1, 0, 0), "0 *", Err((0, 2))),
    ((1, 1, 2, 2, 2), "0 * | free 0", Err((0, 2))),
    // 3 to 6: the least rule first, then the least page
    ((1, 1, 3, 3, 0), "0 * | 0 * 9 / 5: 3 | 1 *", Err((3, 3))),
    ((1, 1, 3, 3, 0), "0 * | 1 * | 1 *", Err((2, 3))),
    (
        (1, 1, 3, 3, 0),
        "0 * 9 / 0: 3 | 0 * 9 | 0 * 2 / 0: 1",
        Err((1, 4)),
    ),
    ((1, 1, 2, 2, 0), "0 * 5 4 | 0 * ^1", Err((2, 5))),
    ((1, 1, 3, 3, 0), "0 * | 0 * ^1 | 0 * >1", Err((2, 5))),
    ((1, 1, 1, 1, 0), "0 * 1 2 3 4 5 6 7", Err((1, 5))),
    ((1, 1, 1, 1, 0), "0 * >1", Err((1, 5))),
    ((1, 1, 1, 1, 0), "0 * 7 3", Err((1, 6))),
    ((1, 1, 3, 3, 0), "0 * | 0 * 7 3 | 0 * 9 8", Err((2, 6))),
    // 7: a sibling leaf that names no page, 0, one with another box, its own page, a free one, one of another level
    ((1, 1, 1, 1, 0), "0 * 1 / 10: >4294967295", Err((1, 7))),
    ((1, 1, 2, 2, 0), "0 * 1 / 10: >0 | 0 0-9", Err((1, 7))),
    ((1, 1, 2, 2, 0), "0 * 1 / 10: >2 | 0 10-99", Err((1, 7))),
    ((1, 1, 1, 1, 0), "0 * 1 / 10: >1", Err((1, 7))),
    ((1, 1, 2, 1, 2), "0 * 1 / 10: >2 | free 0", Err((1, 7))),
    (
        (1, 2, 3, 3, 0),
        "1 * ^2 / 10: >3 | 0 * 1 | 0 10-* 11",
        Err((1, 7)),
    ),
    // two pages with such a leaf
    (
        (1, 1, 3, 3, 0),
        "0 * 1 / 10: >2 | 0 10-* 11 / 20: >3 | 0 30-* 31 / 40: >1",
        Err((2, 7)),
    ),
    // 8: a child leaf that names its own page, a free one, one beyond the highest page, one two levels down, and one whose box
    // isn't within the page's; two pages with such a leaf
    ((1, 2, 1, 1, 0), "1 * ^1", Err((1, 8))),
    (
        (1, 2, 3, 2, 3),
        "1 * ^2 / 10: ^3 | 0 * 1 | free 0",
        Err((1, 8)),
    ),
    ((1, 2, 2, 2, 0), "1 * ^2 / 10: ^3 | 0 * 1", Err((1, 8))),
    ((1, 3, 3, 3, 0), "2 * ^2 | 0 * 1 | 1 * ^2", Err((1, 8))),
    (
        (1, 3, 4, 4, 0),
        "2 * ^2 | 1 * ^4 / 10: >3 | 1 10-* ^4 | 0 20-* 21",
        Err((2, 8)),
    ),
    (
        (1, 2, 3, 3, 0),
        "1 * ^2 / 10: ^3 | 0 * 1 / 20: >3 | 0 20-18446744073709551615",
        Err((1, 8)),
    ),
    // and one in front of the page that names it
    (
        (3, 2, 3, 3, 0),
        "0 10-* 11 | 0 * 1 / 10: >1 | 1 * ^2 / 9: ^1",
        Err((3, 8)),
    ),
    // 9: a level without a page of the whole space, two and three of one level, one that nobody names, one that two name
    (
        (1, 2, 3, 3, 0),
        "1 * ^2 / 10: ^3 | 0 0-9 1 | 0 10-18446744073709551615 11",
        Err((0, 9)),
    ),
    ((1, 1, 2, 2, 0), "0 * | 0 *", Err((2, 9))),
    ((1, 1, 3, 3, 0), "0 * | 0 * | 0 *", Err((2, 9))),
    ((1, 1, 2, 2, 0), "0 * 1 / 10: 11 | 0 *", Err((2, 9))),
    ((1, 1, 2, 2, 0), "0 * 1 / 10: 11 | 0 3-9", Err((2, 9))),
    (
        (1, 1, 3, 3, 0),
        "0 * 1 / 10: >2 | 0 10-18446744073709551615 11 | 0 5-18446744073709551615 6 / 10: >2",
        Err((2, 9)),
    ),
    // 10: two leaves that should be one, on one page and on two
    ((1, 1, 1, 1, 0), "0 * 1 / 10: 11", Err((1, 10))),
    ((1, 2, 2, 2, 0), "1 * ^2 / 10: ^2 | 0 *", Err((1, 10))),
    (
        (1, 1, 3, 3, 0),
        "0 * 1 / 10: >2 | 0 10-* 11 / 20: 21 / 30: >3 | 0 30-* 31 / 40: 41",
        Err((2, 10)),
    ),
];

#[test]
fn answers_are_those_worked_out(rt: HostRuntime) {
    for (place, &(numbers, text, want)) in ROWS.iter().enumerate() {
        let is_so = is_audited(rt.alloc(), 1, numbers, text, 0, "", want);
        expect(&rt, place, is_so);
    }
}
