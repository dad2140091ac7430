//! Two trees that grow, as tables. In the first one a page is split that came of a split before, and both are posted. In the
//! second one a page above others is split, so that one page has two parents; that page is split, and the new one is posted in
//! both. Each stands here twice: with a force behind each step, and with forces of several groups. The operations were chosen by hand. A small assembler that isn't the program put their bytes together, after
//! `docs/FORMAT.md`.

use crate::drives::Tree;

/// In the first tree: what the file says, of five pages, of which three are taken; and what the next turn's superblock does.
const TAKEN: &[u8] =
    b"\xa5HBPITREE\x01\0\x01\x02\0\0\0\x05\0\x01\0\0\0\x06\0\x20\0\0\0\x03\0\0\0\x03\0\0\0\x03\0\0\0\0";

/// The superblock of the turn after it.
const TAKEN_NEXT: &[u8] =
    b"\xa5HBPITREE\x01\x01\x01\x02\0\0\0\x05\0\x01\0\0\0\x06\0\x20\0\0\0\x03\0\0\0\x03\0\0\0\x03\0\0\0\0";

/// Page 1: below 5 the point 1, else page 2.
const BELOW_5: &[u8] =
    b"\x01\0\x01\0\0\0\0\0\0\0\0\0\xff\xff\xff\xff\xff\xff\xff\xff\0\0\0\0\0\0\0\0\0\x05\x01\0\x01\0\0\0\0\0\0\0\x01\0\x03\0\0\0\x02";

/// Page 2, from 5 on: the points 5, 7 and 9. Once it is split at 9 page 4 has the last one.
const FROM_5: &[u8] =
    b"\x01\0\x01\0\0\0\0\0\0\0\0\x05\xff\xff\xff\xff\xff\xff\xff\xff\x01\0\x03\0\0\0\0\0\0\0\x05\0\0\0\0\0\0\0\0\x07\0\0\0\0\0\0\0\0\x09\0";

/// The same once it is split.
const FROM_5_SPLIT: &[u8] =
    b"\x01\0\x01\0\0\0\0\0\0\0\0\x05\xff\xff\xff\xff\xff\xff\xff\xff\0\0\0\0\0\0\0\0\0\x09\x01\0\x02\0\0\0\0\0\0\0\x05\0\0\0\0\0\0\0\0\x07\0\x03\0\0\0\x04";

/// Page 4, from 9 on.
const FROM_9: &[u8] =
    b"\x01\0\x01\0\0\0\0\0\0\0\0\x09\xff\xff\xff\xff\xff\xff\xff\xff\x01\0\x01\0\0\0\0\0\0\0\x09\0";

/// Page 3, above them: page 1 alone.
const ABOVE: &[u8] =
    b"\x01\x01\x01\0\0\0\0\0\0\0\0\0\xff\xff\xff\xff\xff\xff\xff\xff\x02\0\0\0\x01";

/// The same with page 2 from 5 on.
const ABOVE_TWO: &[u8] =
    b"\x01\x01\x01\0\0\0\0\0\0\0\0\0\xff\xff\xff\xff\xff\xff\xff\xff\0\0\0\0\0\0\0\0\0\x05\x02\0\0\0\x01\x02\0\0\0\x02";

/// And with page 4 from 9 on.
const ABOVE_THREE: &[u8] =
    b"\x01\x01\x01\0\0\0\0\0\0\0\0\0\xff\xff\xff\xff\xff\xff\xff\xff\0\0\0\0\0\0\0\0\0\x05\x02\0\0\0\x01\0\0\0\0\0\0\0\0\0\x09\x02\0\0\0\x02\x02\0\0\0\x04";

/// The split of page 2 at 9: what isn't below goes to page 4. As in the groups that follow, no page image.
const SPLIT_2: &[u8] = b"\0\x03\0\0\0\x02\0\0\0\x04\0\0\0\0\0\x01\0\0\0\0\0\0\0\0\x09\x01";

/// The posting of page 2 at the only leaf of page 3, over the box from 5 on.
const POST_2: &[u8] =
    b"\0\x04\0\0\0\x03\0\0\0\0\x02\0\0\0\0\0\0\0\x05\xff\xff\xff\xff\xff\xff\xff\xff";

/// The posting of page 4 at the right side of page 3's cut, over the box from 9 on.
const POST_4: &[u8] =
    b"\0\x04\0\0\0\x03\x01\x01\0\0\0\x04\0\0\0\0\0\0\0\x09\xff\xff\xff\xff\xff\xff\xff\xff";

/// The first two behind their images.
const SPLIT_2_BEHIND: &[u8] = b"\x03\0\0\0\x02\0\0\0\x04\0\0\0\0\0\x01\0\0\0\0\0\0\0\0\x09\x01";

const POST_2_BEHIND: &[u8] =
    b"\x04\0\0\0\x03\0\0\0\0\x02\0\0\0\0\0\0\0\x05\xff\xff\xff\xff\xff\xff\xff\xff";

/// A page is split that came of a split, and both are posted.
pub(crate) const SPLIT_AGAIN: Tree = Tree {
    size: 159_744,
    file: &[
        (0, TAKEN),
        (139_264, BELOW_5),
        (143_360, FROM_5),
        (147_456, ABOVE),
    ],
    fetched: &[2, 3],
    steps: &[(4, SPLIT_2, 4126), (5, POST_2, 4127), (5, POST_4, 28)],
    ends: &[1, 2, 3],
    // the turn's superblock; then the frames in the second log area. The first two have a page image of the page that they read
    written: &[
        (4096, TAKEN_NEXT),
        (73_728, b"\xa5\0\0\x10\x1e\x01\0\0\0\x02"),
        (73_738, FROM_5),
        (77_834, SPLIT_2_BEHIND),
        (77_859, b"\xa5\0\0\x10\x1f\x01\0\0\0\x03"),
        (77_869, ABOVE),
        (81_965, POST_2_BEHIND),
        (81_991, b"\xa5\0\0\0\x1c"),
        (81_996, POST_4),
    ],
    said: &[[3, 2, 3, 3], [3, 2, 4, 4], [3, 2, 4, 4], [3, 2, 4, 4]],
    records: 4,
    pages: &[
        (0, 4, 1, BELOW_5),
        (0, 1, 2, FROM_5),
        (1, 4, 2, FROM_5_SPLIT),
        (0, 2, 3, ABOVE),
        (2, 3, 3, ABOVE_TWO),
        (3, 4, 3, ABOVE_THREE),
        (1, 4, 4, FROM_9),
    ],
};

/// The same where all three groups are forced together, as one frame of 8,281 bytes.
pub(crate) const SPLIT_TOGETHER: Tree = Tree {
    ends: &[3],
    written: &[
        (4096, TAKEN_NEXT),
        (73_728, b"\xa5\0\0\x20\x59\x01\0\0\0\x02"),
        (73_738, FROM_5),
        (77_834, SPLIT_2_BEHIND),
        (77_859, b"\x01\0\0\0\x03"),
        (77_864, ABOVE),
        (81_960, POST_2_BEHIND),
        (81_986, POST_4),
    ],
    ..SPLIT_AGAIN
};

/// In the second tree: what the file says, of six pages, of which one is taken.
const ONE: &[u8] =
    b"\xa5HBPITREE\x01\0\x01\x01\0\0\0\x06\0\x01\0\0\0\x06\0\x20\0\0\0\x01\0\0\0\x01\0\0\0\x01\0\0\0\0";

/// The superblock of the turn after it.
const ONE_NEXT: &[u8] =
    b"\xa5HBPITREE\x01\x01\x01\x01\0\0\0\x06\0\x01\0\0\0\x06\0\x20\0\0\0\x01\0\0\0\x01\0\0\0\x01\0\0\0\0";

/// Page 1: the points 10, 35, 45 and 70.
const POINTS: &[u8] =
    b"\x01\0\x01\0\0\0\0\0\0\0\0\0\xff\xff\xff\xff\xff\xff\xff\xff\x01\0\x04\0\0\0\0\0\0\0\x0a\0\0\0\0\0\0\0\0#\0\0\0\0\0\0\0\0-\0\0\0\0\0\0\0\0F\0";

/// The same once page 2 has the box from 40 to 59: below 30 the point 10, else below 40 the point 35, else below 60 page 2, else the
/// point 70.
const POINTS_HOLED: &[u8] =
    b"\x01\0\x01\0\0\0\0\0\0\0\0\0\xff\xff\xff\xff\xff\xff\xff\xff\0\0\0\0\0\0\0\0\0\x1e\x01\0\x01\0\0\0\0\0\0\0\x0a\0\0\0\0\0\0\0\0\0\0(\x01\0\x01\0\0\0\0\0\0\0#\0\0\0\0\0\0\0\0\0\0<\x03\0\0\0\x02\x01\0\x01\0\0\0\0\0\0\0F\0";

/// The same once all from 30 on is page 6.
const POINTS_BELOW: &[u8] =
    b"\x01\0\x01\0\0\0\0\0\0\0\0\0\xff\xff\xff\xff\xff\xff\xff\xff\0\0\0\0\0\0\0\0\0\x1e\x01\0\x01\0\0\0\0\0\0\0\x0a\0\x03\0\0\0\x06";

/// Page 2, from 40 to 59: the point 45.
const HOLE: &[u8] = b"\x01\0\x01\0\0\0\0\0\0\0\0(\0\0\0\0\0\0\0;\x01\0\x01\0\0\0\0\0\0\0-\0";

/// Page 3, above: page 1 alone.
const PARENT: &[u8] =
    b"\x01\x01\x01\0\0\0\0\0\0\0\0\0\xff\xff\xff\xff\xff\xff\xff\xff\x02\0\0\0\x01";

/// The same with page 2 from 40 to 59. Page 1 has two leaves.
const PARENT_HOLED: &[u8] =
    b"\x01\x01\x01\0\0\0\0\0\0\0\0\0\xff\xff\xff\xff\xff\xff\xff\xff\0\0\0\0\0\0\0\0\0(\x02\0\0\0\x01\0\0\0\0\0\0\0\0\0<\x02\0\0\0\x02\x02\0\0\0\x01";

/// The same once all from 40 on is page 4. So page 1 has two parents.
const PARENT_BELOW: &[u8] =
    b"\x01\x01\x01\0\0\0\0\0\0\0\0\0\xff\xff\xff\xff\xff\xff\xff\xff\0\0\0\0\0\0\0\0\0(\x02\0\0\0\x01\x03\0\0\0\x04";

/// The same with page 6 from 30 to 39.
const PARENT_POSTED: &[u8] =
    b"\x01\x01\x01\0\0\0\0\0\0\0\0\0\xff\xff\xff\xff\xff\xff\xff\xff\0\0\0\0\0\0\0\0\0(\0\0\0\0\0\0\0\0\0\x1e\x02\0\0\0\x01\x02\0\0\0\x06\x03\0\0\0\x04";

/// Page 4, from 40 on: below 60 page 2, else page 1.
const OTHER: &[u8] =
    b"\x01\x01\x01\0\0\0\0\0\0\0\0(\xff\xff\xff\xff\xff\xff\xff\xff\0\0\0\0\0\0\0\0\0<\x02\0\0\0\x02\x02\0\0\0\x01";

/// The same with page 6 in place of page 1.
const OTHER_POSTED: &[u8] =
    b"\x01\x01\x01\0\0\0\0\0\0\0\0(\xff\xff\xff\xff\xff\xff\xff\xff\0\0\0\0\0\0\0\0\0<\x02\0\0\0\x02\x02\0\0\0\x06";

/// Page 5, above the two: page 3 alone.
const ROOT: &[u8] = b"\x01\x02\x01\0\0\0\0\0\0\0\0\0\xff\xff\xff\xff\xff\xff\xff\xff\x02\0\0\0\x03";

/// The same with page 4 from 40 on.
const ROOT_POSTED: &[u8] =
    b"\x01\x02\x01\0\0\0\0\0\0\0\0\0\xff\xff\xff\xff\xff\xff\xff\xff\0\0\0\0\0\0\0\0\0(\x02\0\0\0\x03\x02\0\0\0\x04";

/// Page 6, from 30 on: below 40 the point 35, else below 60 page 2, else the point 70.
const BOTH: &[u8] =
    b"\x01\0\x01\0\0\0\0\0\0\0\0\x1e\xff\xff\xff\xff\xff\xff\xff\xff\0\0\0\0\0\0\0\0\0(\x01\0\x01\0\0\0\0\0\0\0#\0\0\0\0\0\0\0\0\0\0<\x03\0\0\0\x02\x01\0\x01\0\0\0\0\0\0\0F\0";

/// The split of page 1 by three cuts: what lies from 40 to 59 goes to page 2.
const SPLIT_1: &[u8] =
    b"\0\x03\0\0\0\x01\0\0\0\x02\0\0\0\0\0\x03\0\0\0\0\0\0\0\0\x1e\x01\0\0\0\0\0\0\0\0(\x01\0\0\0\0\0\0\0\0<\0";

/// The same behind its image.
const SPLIT_1_BEHIND: &[u8] =
    b"\x03\0\0\0\x01\0\0\0\x02\0\0\0\0\0\x03\0\0\0\0\0\0\0\0\x1e\x01\0\0\0\0\0\0\0\0(\x01\0\0\0\0\0\0\0\0<\0";

/// The growth by page 3.
const GROW_3: &[u8] = b"\0\x06\0\0\0\x03\0\0\0\0";

/// The posting of page 2 at the only leaf of page 3.
const POST_HOLE: &[u8] = b"\0\x04\0\0\0\x03\0\0\0\0\x02\0\0\0\0\0\0\0(\0\0\0\0\0\0\0;";

/// The split of page 3: the right side of its cut goes to page 4.
const SPLIT_3: &[u8] = b"\0\x03\0\0\0\x03\0\0\0\x04\0\0\0\0\x01\x01\0";

/// The growth by page 5.
const GROW_5: &[u8] = b"\0\x06\0\0\0\x05\0\0\0\0";

/// The posting of page 4 at the only leaf of page 5.
const POST_OTHER: &[u8] =
    b"\0\x04\0\0\0\x05\0\0\0\0\x04\0\0\0\0\0\0\0(\xff\xff\xff\xff\xff\xff\xff\xff";

/// The split of page 1: the right side of its cut at 30 goes to page 6.
const SPLIT_1_AGAIN: &[u8] = b"\0\x03\0\0\0\x01\0\0\0\x06\0\0\0\0\x01\x01\0";

/// The posting of page 6 at the left side of page 3's cut, over the box from 30 on.
const POST_BELOW: &[u8] =
    b"\0\x04\0\0\0\x03\x01\0\0\0\0\x06\0\0\0\0\0\0\0\x1e\xff\xff\xff\xff\xff\xff\xff\xff";

/// The same at the right side of page 4's cut.
const POST_ABOVE: &[u8] =
    b"\0\x04\0\0\0\x04\x01\x01\0\0\0\x06\0\0\0\0\0\0\0\x1e\xff\xff\xff\xff\xff\xff\xff\xff";

/// A page of two parents is split, and the new page is posted in both.
pub(crate) const TWO_PARENTS: Tree = Tree {
    size: 163_840,
    file: &[(0, ONE), (139_264, POINTS)],
    fetched: &[1],
    steps: &[
        (2, SPLIT_1, 4146),
        (3, GROW_3, 10),
        (4, POST_HOLE, 27),
        (4, SPLIT_3, 17),
        (5, GROW_5, 10),
        (6, POST_OTHER, 27),
        (6, SPLIT_1_AGAIN, 17),
        (0, POST_BELOW, 28),
        (0, POST_ABOVE, 28),
    ],
    ends: &[1, 2, 3, 4, 5, 6, 7, 8, 9],
    // only the first group has a page image
    written: &[
        (4096, ONE_NEXT),
        (73_728, b"\xa5\0\0\x10\x32\x01\0\0\0\x01"),
        (73_738, POINTS),
        (77_834, SPLIT_1_BEHIND),
        (77_879, b"\xa5\0\0\0\x0a"),
        (77_884, GROW_3),
        (77_894, b"\xa5\0\0\0\x1b"),
        (77_899, POST_HOLE),
        (77_926, b"\xa5\0\0\0\x11"),
        (77_931, SPLIT_3),
        (77_948, b"\xa5\0\0\0\x0a"),
        (77_953, GROW_5),
        (77_963, b"\xa5\0\0\0\x1b"),
        (77_968, POST_OTHER),
        (77_995, b"\xa5\0\0\0\x11"),
        (78_000, SPLIT_1_AGAIN),
        (78_017, b"\xa5\0\0\0\x1c"),
        (78_022, POST_BELOW),
        (78_050, b"\xa5\0\0\0\x1c"),
        (78_055, POST_ABOVE),
    ],
    said: &[
        [1, 1, 1, 1],
        [1, 1, 2, 2],
        [3, 2, 3, 3],
        [3, 2, 3, 3],
        [3, 2, 4, 4],
        [5, 3, 5, 5],
        [5, 3, 5, 5],
        [5, 3, 6, 6],
        [5, 3, 6, 6],
        [5, 3, 6, 6],
    ],
    records: 4,
    pages: &[
        (0, 1, 1, POINTS),
        (1, 7, 1, POINTS_HOLED),
        (7, 10, 1, POINTS_BELOW),
        (1, 10, 2, HOLE),
        (2, 3, 3, PARENT),
        (3, 4, 3, PARENT_HOLED),
        (4, 8, 3, PARENT_BELOW),
        (8, 10, 3, PARENT_POSTED),
        (4, 9, 4, OTHER),
        (9, 10, 4, OTHER_POSTED),
        (5, 6, 5, ROOT),
        (6, 10, 5, ROOT_POSTED),
        (7, 10, 6, BOTH),
    ],
};

/// The same where the first group is forced alone, the next two together, and then the last six.
pub(crate) const PARENTS_TOGETHER: Tree = Tree {
    ends: &[1, 3, 9],
    written: &[
        (4096, ONE_NEXT),
        (73_728, b"\xa5\0\0\x10\x32\x01\0\0\0\x01"),
        (73_738, POINTS),
        (77_834, SPLIT_1_BEHIND),
        (77_879, b"\xa5\0\0\0\x25"),
        (77_884, GROW_3),
        (77_894, POST_HOLE),
        (77_921, b"\xa5\0\0\0\x7f"),
        (77_926, SPLIT_3),
        (77_943, GROW_5),
        (77_953, POST_OTHER),
        (77_980, SPLIT_1_AGAIN),
        (77_997, POST_BELOW),
        (78_025, POST_ABOVE),
    ],
    ..TWO_PARENTS
};
