//! Files of 1,000 pages, each with what its last page breaks, or with what else makes the audit name it.

use crate::calls::ends;
use crate::fields::{page_at, put_fields, put_head, put_page, put_records};
use crate::missed::Missed;
use crate::trees::{Tree, file_of, part_of};
use hb_disk::MemDisk;
use std::alloc::{AllocError, Global};

/// The last page is the last one of records. The root is page 1, and those of level 1 are behind it.
const ROOT_FIRST: u32 = 0;

/// The last page is the root, behind all others.
const ROOT_LAST: u32 = 999;

/// The last page is the last one of level 1, and its children are in front. The root is page 996.
const ABOVE_LAST: u32 = 995;

/// The last page is the first one of records, which has the whole space.
const WHOLE_LAST: u32 = 994;

/// How a file is spoiled.
enum Spoil {
    /// By these bytes of the superblock, from this one on.
    Super(usize, &'static [u8]),
    /// By these bytes of the last page, from this one on.
    Bytes(usize, &'static [u8]),
    /// By a page of this number, level and inside. Its box begins with the part of this page of records.
    Page(u32, u8, u32, &'static [u8]),
    /// By so many records in the last page, which is the last one of records.
    Records(u8),
}

/// How far the numbers of a file are ahead of places, how it is spoiled, and the line that refuses it.
type Row = (u32, &'static [Spoil], &'static str);

/// A leaf without records.
const NONE: &[u8] = &[1, 0, 0];

/// In order of the rules. The part of the last page of records begins at 03 e2, with six bytes behind.
const ROWS: [Row; 30] = [
    // 0: another tag, a byte behind the fields, more pages than there may be
    (ROOT_FIRST, &[Spoil::Bytes(0, &[3])], "damaged 1000 S0\n"),
    (ROOT_LAST, &[Spoil::Bytes(4095, &[1])], "damaged 1000 S0\n"),
    (
        ROOT_FIRST,
        &[Spoil::Super(13, &[0, 0, 3, 231])],
        "damaged 1000 S0\n",
    ),
    // 1: root, pages in use, free head beyond the highest page; another height; a root with less than the whole space, and a
    // free one
    (
        ROOT_FIRST,
        &[Spoil::Super(25, &[0, 0, 3, 233])],
        "damaged 0 S1\n",
    ),
    (
        ROOT_FIRST,
        &[Spoil::Super(33, &[0, 0, 3, 233])],
        "damaged 0 S1\n",
    ),
    (
        ROOT_FIRST,
        &[Spoil::Super(37, &[0, 0, 3, 233])],
        "damaged 0 S1\n",
    ),
    (ROOT_LAST, &[Spoil::Super(12, &[4])], "damaged 0 S1\n"),
    (
        ROOT_LAST,
        &[Spoil::Page(1000, 2, 1, &[2, 0, 0, 0, 1])],
        "damaged 0 S1\n",
    ),
    (
        ROOT_LAST,
        &[Spoil::Bytes(0, &[0; 4096]), Spoil::Bytes(0, &[2])],
        "damaged 0 S1\n",
    ),
    // 2: a free page that the chain leaves out, one that names itself, a chain that ends in a page in use; a wrong count
    (
        ROOT_FIRST,
        &[Spoil::Bytes(0, &[0; 4096]), Spoil::Bytes(0, &[2])],
        "damaged 1000 S2\n",
    ),
    (
        ROOT_FIRST,
        &[
            Spoil::Bytes(0, &[0; 4096]),
            Spoil::Bytes(0, &[2, 0, 0, 3, 232]),
            Spoil::Super(37, &[0, 0, 3, 232]),
        ],
        "damaged 1000 S2\n",
    ),
    (
        ABOVE_LAST,
        &[Spoil::Super(37, &[0, 0, 3, 232])],
        "damaged 1000 S2\n",
    ),
    (
        ROOT_FIRST,
        &[Spoil::Super(33, &[0, 0, 3, 231])],
        "damaged 0 S2\n",
    ),
    // 3: a level that the file hasn't
    (ROOT_FIRST, &[Spoil::Bytes(1, &[3])], "damaged 1000 S3\n"),
    (ABOVE_LAST, &[Spoil::Bytes(1, &[255])], "damaged 1000 S3\n"),
    // 4: a cut at the least value
    (
        ROOT_FIRST,
        &[Spoil::Page(
            1000,
            0,
            994,
            &[0, 0, 3, 226, 0, 0, 0, 0, 0, 0, 1, 0, 0, 3, 0, 0, 0, 1],
        )],
        "damaged 1000 S4\n",
    ),
    // 5: one record too many, a lone sibling leaf, a child leaf among the records, records above them
    (ROOT_FIRST, &[Spoil::Records(7)], "damaged 1000 S5\n"),
    (
        ROOT_FIRST,
        &[Spoil::Page(1000, 0, 994, &[3, 0, 0, 0, 6])],
        "damaged 1000 S5\n",
    ),
    (
        ROOT_FIRST,
        &[Spoil::Page(1000, 0, 994, &[2, 0, 0, 0, 6])],
        "damaged 1000 S5\n",
    ),
    (
        ABOVE_LAST,
        &[Spoil::Page(1000, 1, 765, NONE)],
        "damaged 1000 S5\n",
    ),
    // 6: a record below the box, and the same one twice
    (
        ROOT_FIRST,
        &[Spoil::Page(
            1000,
            0,
            994,
            &[1, 0, 1, 3, 225, 255, 255, 255, 255, 255, 255, 0],
        )],
        "damaged 1000 S6\n",
    ),
    (
        ROOT_FIRST,
        &[Spoil::Page(
            1000,
            0,
            994,
            &[
                1, 0, 2, 3, 226, 0, 0, 0, 0, 0, 7, 0, 3, 226, 0, 0, 0, 0, 0, 7, 0,
            ],
        )],
        "damaged 1000 S6\n",
    ),
    // 7: a sibling leaf that names its own page, on each level
    (
        ROOT_FIRST,
        &[Spoil::Page(
            1000,
            0,
            994,
            &[0, 0, 3, 226, 0, 0, 0, 0, 0, 1, 1, 0, 0, 3, 0, 0, 3, 232],
        )],
        "damaged 1000 S7\n",
    ),
    (
        ABOVE_LAST,
        &[Spoil::Page(
            1000,
            1,
            765,
            &[
                0, 0, 3, 226, 0, 0, 0, 0, 0, 1, 2, 0, 0, 2, 254, 3, 0, 0, 3, 232,
            ],
        )],
        "damaged 1000 S7\n",
    ),
    // 8: a child leaf that names a page two levels down, and one with a greater box than its page's
    (
        ROOT_LAST,
        &[Spoil::Page(1000, 2, 0, &[2, 0, 0, 0, 5])],
        "damaged 1000 S8\n",
    ),
    (
        ABOVE_LAST,
        &[Spoil::Page(1000, 1, 765, &[2, 0, 0, 2, 255])],
        "damaged 1000 S8\n",
    ),
    // 9: a page that nobody names, one of the whole space beside another one, and a level that has none
    (
        ROOT_FIRST,
        &[Spoil::Page(999, 0, 993, NONE)],
        "damaged 1000 S9\n",
    ),
    (
        ROOT_FIRST,
        &[
            Spoil::Page(999, 0, 993, NONE),
            Spoil::Page(1000, 0, 0, NONE),
        ],
        "damaged 1000 S9\n",
    ),
    (
        WHOLE_LAST,
        &[
            Spoil::Page(1000, 0, 0, NONE),
            Spoil::Bytes(12, &[0, 0, 255, 255, 255, 255, 255, 255]),
        ],
        "damaged 0 S9\n",
    ),
    // 10: two leaves that could be one
    (
        ROOT_LAST,
        &[Spoil::Page(
            1000,
            2,
            0,
            &[0, 0, 0, 255, 0, 0, 0, 0, 0, 0, 2, 0, 0, 0, 1, 2, 0, 0, 0, 1],
        )],
        "damaged 1000 S10\n",
    ),
];

/// The file whose numbers are so far ahead.
pub(crate) fn tree_of(ahead: u32) -> Tree {
    Tree {
        k: 1,
        live: 1000,
        above: 4,
        free: 0,
        more: 0,
        ahead,
    }
}

/// Puts a page whose box begins with the part of this page of records.
fn put_inside(
    alloc: Global,
    file: &mut [u8],
    number: u32,
    level: u8,
    item: u32,
    inside: &[u8],
) -> Result<(), AllocError> {
    let mut fields = Vec::new(alloc);
    put_head(&mut fields, level, 1, part_of(item))?;
    fields.extend_from_slice(inside)?;
    put_page(file, number, &fields);
    Ok(())
}

/// Spoils a file.
fn spoil_by(alloc: Global, file: &mut [u8], how: &Spoil) -> Result<(), AllocError> {
    match how {
        Spoil::Super(at, bytes) => put_fields(file, *at, bytes),
        Spoil::Bytes(at, bytes) => put_fields(file, page_at(1000).saturating_add(*at), bytes),
        Spoil::Page(number, level, item, inside) => {
            put_inside(alloc, file, *number, *level, *item, inside)?;
        }
        Spoil::Records(count) => {
            let mut inside = Vec::new(alloc);
            put_records(&mut inside, 1, part_of(994), *count)?;
            put_inside(alloc, file, 1000, 0, 994, &inside)?;
        }
    }
    Ok(())
}

/// Opens each of the files.
pub(crate) fn each_rule(alloc: Global) -> Result<(), Missed> {
    for &(ahead, spoils, line) in &ROWS {
        let mut file = file_of(alloc, &tree_of(ahead))?;
        for spoil in spoils {
            spoil_by(alloc, &mut file, spoil)?;
        }
        let disk = MemDisk::new(alloc, file);
        ends(alloc, "drive", "", 7, line, disk)?;
    }
    Ok(())
}
