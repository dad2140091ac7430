//! Log, pages in memory and superblock together: a file that changes by whole operations.
//!
//! The one contract: what a crash leaves of a store is the file before the groups that wait, and
//! while a force runs perhaps the file after all of them. `StoreKeeps` says so of a disk that
//! tells, and each call keeps it, also where it fails and the store is stopped: `opened` begins it,
//! `fetch` brings a page of the file into memory, `next_page` names the page that an operation
//! would make next, or says why there is none, `commit` does an operation there and lets its group
//! wait, `force` makes all groups that wait last. `read_log` reads what a log makes of the pages
//! that it touches, or names its first bad frame.
//!
//! What a list of bytes opens to is defined in `specs/Opening.antt`: the newest superblock, the
//! frames of its log area, the groups that they spell and the replay of these, and for every page
//! that they don't touch the one in its place. The functions of `laws` and `image_laws` say that an
//! image opens to one file at most, and that an image of a store opens.
//!
//! A `Store` is a thin shell: it owns the disk, and reads and writes it. All else stands in `Memory`, which
//! knows of no disk: its contracts say what a call does to the value that it is seen as, and its
//! invariant holds over every disk. Its turn and what the file says of itself are within their limits, the
//! log is that of its turn, every page in memory is one of the file, has a spelling, and keeps the
//! rules that speak of it alone, and only pages of the file are in the log.
//!
//! Pages are in memory as their bytes, in the 128 frames of hb_pool, and are read from them by the views of
//! hb_view. The order of use is part of what a store is seen as (`uses`). A page that an operation changed
//! is dirty until it is written to its place; every other one reads in its place as the file has it. So
//! where a page comes and no frame is empty, the least recently used page goes that is clean and not
//! pinned. A dirty or pinned page stays, and so a caller pins what it is to find again.
//!
//! A page is brought into the log as a page image before an operation of this turn first reads it. So
//! a replay needs no page from its place. A page that an operation makes needs no page image: the log of
//! the turn makes it again. Which pages the log has or made is a set of its own, and no flag on a
//! page, so that it doesn't depend on which pages are in memory. It has a bit for each number that a page
//! may have, and its memory is taken at the opening: so a put or a delete takes none.
#![tactic(auto)]

mod allocating;
mod commits;
mod fetches;
mod forces;
mod group_writing;
mod image_laws;
mod laws;
mod looks;
mod making;
mod memory;
mod opening;
mod page_sets;
mod pages;
mod reading;
mod stops;
mod store;
mod switching;
mod threads;
mod touched;

pub use image_laws::{an_image_opens_to_one_file, bytes_open_by_parts};
pub use laws::{a_store_keeps_one_file, an_image_of_a_store_opens};
pub use making::what_is_made_can_be_written;
pub use reading::read_log;
pub use stops::{FetchStop, Flushed, StopWhy, Why, WriteFault};
pub use store::Store;
pub use switching::begin_turn;
pub use touched::{LogStop, Touched};
