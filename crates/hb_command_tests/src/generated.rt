//! Generated texts, by hand and by a plain program. Where something is `None`, memory was refused.

use crate::rows::expect;
use hb_gen::generate;
use hb_space::Attributes;
use std::alloc::Global;

/// A first state, how many lines and attributes, and the text.
const SHORT: [(u64, u32, u8, &str); 8] = [
    (1, 1, 1, "5 lookup 148\n"),
    (1, 0, 1, ""),
    (
        1,
        6,
        1,
        "5 lookup 148\n6 lookup 725\n5 insert 428 =3\n6 delete 837\n2 insert 545 =5\n2 insert 929 =6\n",
    ),
    (
        0,
        3,
        1,
        "7 search 874 897\n3 insert 946 =2\n7 search 279 285\n",
    ),
    (
        1,
        8,
        2,
        "5 lookup 148 741\n5 insert 84 805 =2\n3 insert 970 604 =3\n2 insert 545 625 =4\n5 insert 324 730 =5\n8 insert 823 821 =6\n3 lookup 74 745\n4 lookup 723 76\n",
    ),
    (
        7,
        6,
        3,
        "5 insert 52 346 90 =1\n8 lookup 231 478 373\n8 insert 127 561 899 =3\n5 insert 396 593 902 =4\n2 delete 465 196 307\n2 insert 129 786 265 =6\n",
    ),
    (
        u64::MAX,
        8,
        4,
        "2 lookup 841 205 728 974\n4 insert 51 64 766 324 =2\n2 lookup 449 760 202 624\n5 insert 268 561 602 30 =4\n3 insert 210 659 100 631 =5\n5 insert 484 982 968 594 =6\n5 insert 604 934 448 470 =7\n1 insert 536 462 317 867 =8\n",
    ),
    (
        2,
        3,
        4,
        "2 insert 297 8 591 398 =1\n2 delete 249 4 486 245\n6 search 472 481 69 96 172 212 944 990\n",
    ),
];

/// The text of these numbers.
fn text_of(alloc: Global, state: u64, lines: u32, attributes: u8) -> Option<Vec<u8>> {
    if lines > 1_000_000 || attributes == 0 || attributes > 4 {
        return None;
    }
    let attributes = Attributes { number: attributes };
    generate(alloc, state, lines, attributes).ok()
}

/// Whether that is the text of these numbers.
fn gives(alloc: Global, state: u64, lines: u32, attributes: u8, want: &str) -> Option<bool> {
    let text = text_of(alloc, state, lines, attributes)?;
    Some(text.as_slice() == want.as_bytes())
}

#[test]
fn short_texts(rt: HostRuntime) {
    for (place, &(state, lines, attributes, want)) in SHORT.iter().enumerate() {
        let right = gives(rt.alloc(), state, lines, attributes, want);
        expect(&rt, place, right == Some(true));
    }
}

/// A first state, how many lines and attributes, the length of the text, and a sum of its bytes.
const LONG: [(u64, u32, u8, usize, u64); 2] = [
    (1, 100_000, 2, 2_168_960, 9_913_557_675_299_178_265),
    (12345, 100_000, 4, 3_027_280, 15_960_279_485_540_252_779),
];

/// A sum in which each byte's place counts.
fn sum_of(text: &[u8]) -> u64 {
    let mut sum: u64 = 0;
    for byte in text {
        sum = sum.wrapping_mul(31).wrapping_add(u64::from(*byte));
    }
    sum
}

/// The length of the text of these numbers, and the sum of its bytes.
fn told(alloc: Global, state: u64, lines: u32, attributes: u8) -> Option<(usize, u64)> {
    let text = text_of(alloc, state, lines, attributes)?;
    Some((text.len(), sum_of(text.as_slice())))
}

#[test]
fn long_texts(rt: HostRuntime) {
    for (place, &(state, lines, attributes, length, sum)) in LONG.iter().enumerate() {
        let right = told(rt.alloc(), state, lines, attributes);
        expect(&rt, place, right == Some((length, sum)));
    }
}
