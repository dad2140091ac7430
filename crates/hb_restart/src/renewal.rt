//! A file that was found begins its next turn.
//!
//! Nothing that is written before the superblock matters to the opening of an image: the places of the pages that the log
//! touches, the log area of the other turn, and what a closed gate hides.
ghost use Rattle.std.specs.Prelude.{◌≡◌, ℕ, ◌+◌, ◌≤◌, List, Option, Some, IfSome, IsErr, OnOk};
ghost use Rattle.std.specs.Ordering.{nat_cmp};
ghost use Rattle.std.specs.BTreeMap.{get};
ghost use Rattle.hb_disk.specs.Model.{Torn};
ghost use Rattle.hb_disk.specs.Calls.{Becomes, Leaves, Ticks, WriteFaults};
ghost use Rattle.hb_frag.specs.declared.pages.Page.{Page as Content};
ghost use Rattle.hb_frag.specs.Grammar.{HasSpelling, SpellsPage};
ghost use Rattle.hb_super.specs.Superblocks.{next_turn};
ghost use Rattle.hb_ops.specs.Files.{FileState};
ghost use Rattle.hb_layout.specs.declared.meta.Meta.{Meta as Said};
ghost use Rattle.hb_layout.specs.Offsets as offsets;
ghost use Rattle.hb_layout.specs.Offsets.{file_size};
ghost use Rattle.hb_store.specs.Opening.{OpensTo, IsEven, place_bytes};
ghost use Rattle.hb_store.specs.Keeps.{IsFresh};
ghost use Rattle.hb_store.specs.Turning.{StillOpens, IsHere, IsPlaced, IsPlacedTo};
ghost use Rattle.hb_restart.specs.Found.{IsFoundIn, IsRenewable, LiesOn};
ghost use Rattle.hb_restart.specs.Renewing.{Runs, IsWrittenTo, WritesAll, WritesEachOnce};
ghost use Rattle.hb_restart.specs.Source.{HasPlaceFor};

use crate::looking::Found;
use hb_disk::{Device, DiskFault};
use hb_frag::Page;
use hb_layout::page_offset;
use hb_ops::Meta;
use hb_outside::Failed;
use hb_page_codec::encode;
use hb_space::form::PAGE;
use hb_store::{Touched, an_image_opens_to_one_file, begin_turn};
use hb_super::clear_hidden;

/// The turn after another.
pub(crate) fn turn_after(turn: u8) -> u8
    requires { turn ≤ 3 }
    ensures { result ≡ next_turn turn }
{
    (turn + 1) % 4
}

/// Writes a page to its place. One device call.
fn write_page<D: Device>(disk: &mut D, meta: &Meta, id: u32, page: &Page) -> Result<(), Failed>
    requires has { HasPlaceFor (D.model disk.old).size meta.now id }
    requires spelling { HasSpelling page.now }
    ensures there { OnOk result ((b : List ℕ) → (D.model disk.new).told ≡ Some b → SpellsPage (place_bytes meta.now id b) page.now) }
    ensures place { Becomes (Torn (offsets.page_offset meta.now id) PAGE) (D.model disk.old) (D.model disk.new) }
    ensures ticks { Ticks result (D.model disk.old) (D.model disk.new) }
    ensures faults { WriteFaults (IsErr result) (D.model disk.old) (D.model disk.new) }
{
    let mut bytes = [0; PAGE];
    encode(page, &mut bytes);
    disk.write(page_offset(meta, id), &bytes)
}

/// Writes the page of a number to its place, where the log touches it. At most one device call.
fn place_page<D: Device>(disk: &mut D, found: &Found, id: u32) -> Result<(), Failed>
    requires renewable { IsRenewable (D.model disk.old).size found.now }
    requires some { 1 ≤ id }
    requires most { id ≤ found.now.meta.high }
    ensures run { Runs 1 (file_size found.now.meta) (IsErr result) (D.model disk.old) (D.model disk.new) }
    ensures moments { (said : Said) (s : FileState) → IsHere (D.model disk.old) found.now.turn said found.now.meta (get nat_cmp found.now.touched) s →
        Leaves (D.model disk.old) (D.model disk.new) (StillOpens found.now.turn said found.now.meta (get nat_cmp found.now.touched) s) }
    ensures placed { OnOk result ((said : Said) (s : FileState) (before : ℕ) → before + 1 ≡ id →
        IsPlacedTo before (D.model disk.old) found.now.turn said found.now.meta (get nat_cmp found.now.touched) s →
        IsPlacedTo id (D.model disk.new) found.now.turn said found.now.meta (get nat_cmp found.now.touched) s) }
    ensures once { (from before : ℕ) (b : List ℕ) → before + 1 ≡ id → IsWrittenTo before from b found.now.meta (get nat_cmp found.now.touched) (D.model disk.old) →
        WritesEachOnce from b found.now.meta (get nat_cmp found.now.touched) (D.model disk.new) }
    ensures written { OnOk result ((from before : ℕ) (b : List ℕ) → before + 1 ≡ id → IsWrittenTo before from b found.now.meta (get nat_cmp found.now.touched) (D.model disk.old) →
        IsWrittenTo id from b found.now.meta (get nat_cmp found.now.touched) (D.model disk.new)) }
{
    match found.touched.get(&id) {
        Some(page) => write_page(disk, &found.meta, id, page),
        None => Ok(()),
    }
}

/// Writes each page that the log touches to its place, once. At most a device call for each page of the file.
fn place_pages<D: Device>(disk: &mut D, found: &Found) -> Result<(), Failed>
    requires renewable { IsRenewable (D.model disk.old).size found.now }
    ensures run { Runs found.now.meta.high (file_size found.now.meta) (IsErr result) (D.model disk.old) (D.model disk.new) }
    ensures moments { (said : Said) (s : FileState) → IsHere (D.model disk.old) found.now.turn said found.now.meta (get nat_cmp found.now.touched) s →
        Leaves (D.model disk.old) (D.model disk.new) (StillOpens found.now.turn said found.now.meta (get nat_cmp found.now.touched) s) }
    ensures placed { OnOk result ((said : Said) (s : FileState) → IsHere (D.model disk.old) found.now.turn said found.now.meta (get nat_cmp found.now.touched) s →
        IsPlaced (D.model disk.new) found.now.turn said found.now.meta (get nat_cmp found.now.touched) s) }
    // each page once, in the order of their numbers, and no other page
    ensures once { (b : List ℕ) → (D.model disk.old).told ≡ Some b →
        WritesEachOnce (D.model disk.old).clock b found.now.meta (get nat_cmp found.now.touched) (D.model disk.new) }
    ensures written { OnOk result ((b : List ℕ) → (D.model disk.old).told ≡ Some b →
        IsWrittenTo found.now.meta.high (D.model disk.old).clock b found.now.meta (get nat_cmp found.now.touched) (D.model disk.new)) }
{
    for place in 0..found.meta.high {
        place_page(disk, found, place + 1)?;
    }
    Ok(())
}

/// Begins the next turn over a disk whose pages stand in their places, also where its superblock's place hides another body. At most
/// eleven device calls.
fn switch<D: Device>(disk: &mut D, turn: u8, meta: &Meta) -> Result<(), DiskFault>
    requires { LiesOn (D.model disk.old).size turn meta.now }
    ensures run { Runs 11 (offsets.page_offset meta.now 1) (IsErr result) (D.model disk.old) (D.model disk.new) }
    ensures moments { (said : Said) (touched : ℕ → Option Content) (s : FileState) → IsPlaced (D.model disk.old) turn said meta.now touched s →
        Leaves (D.model disk.old) (D.model disk.new) (λ c. OpensTo c s) }
    ensures fresh { OnOk result ((said : Said) (touched : ℕ → Option Content) (s : FileState) → IsPlaced (D.model disk.old) turn said meta.now touched s →
        IsFresh (D.model disk.new) (next_turn turn) meta.now s) }
{
    let next = turn_after(turn);
    clear_hidden(disk, next, meta)?;
    begin_turn(disk, next, meta)
}

/// Writes the touched pages to their places and begins the next turn, on a disk that was just synced. At most eleven device
/// calls and one for each page.
fn rewrite<D: Device>(disk: &mut D, found: &Found) -> Result<(), DiskFault>
    requires renewable { IsRenewable (D.model disk.old).size found.now }
    ensures run { Runs (found.now.meta.high + 11) (file_size found.now.meta) (IsErr result) (D.model disk.old) (D.model disk.new) }
    ensures moments { (said : Said) (s : FileState) → IsHere (D.model disk.old) found.now.turn said found.now.meta (get nat_cmp found.now.touched) s →
        Leaves (D.model disk.old) (D.model disk.new) (λ c. OpensTo c s) }
    ensures fresh { OnOk result ((said : Said) (s : FileState) → IsHere (D.model disk.old) found.now.turn said found.now.meta (get nat_cmp found.now.touched) s →
        IsFresh (D.model disk.new) (next_turn found.now.turn) found.now.meta s) }
    ensures once { (said : Said) (s : FileState) (b : List ℕ) → IsHere (D.model disk.old) found.now.turn said found.now.meta (get nat_cmp found.now.touched) s →
        (D.model disk.old).told ≡ Some b → WritesEachOnce (D.model disk.old).clock b found.now.meta (get nat_cmp found.now.touched) (D.model disk.new) }
    ensures all { OnOk result ((said : Said) (s : FileState) (b : List ℕ) → IsHere (D.model disk.old) found.now.turn said found.now.meta (get nat_cmp found.now.touched) s →
        (D.model disk.old).told ≡ Some b → WritesAll (D.model disk.old).clock b found.now.meta (get nat_cmp found.now.touched) (D.model disk.new)) }
{
    place_pages(disk, found)?;
    switch(disk, found.turn, &found.meta)
}

/// Syncs, so that from then on the disk has one image; then writes the touched pages to their places and begins the next
/// turn. At most twelve device calls and one for each page.
pub(crate) fn renew<D: Device>(disk: &mut D, found: &Found) -> Result<(), DiskFault>
    requires renewable { IsRenewable (D.model disk.old).size found.now }
    ensures run { Runs (found.now.meta.high + 12) (file_size found.now.meta) (IsErr result) (D.model disk.old) (D.model disk.new) }
    ensures even { IfSome (D.model disk.old).told (λ b. IsFoundIn b found.now.turn found.now.meta (get nat_cmp found.now.touched) found.now.count →
        (s : FileState) → IsEven (D.model disk.old) s → Leaves (D.model disk.old) (D.model disk.new) (λ c. OpensTo c s)) }
    // a second tick of the clock comes only after the first sync has succeeded
    ensures late { IfSome (D.model disk.old).told (λ b. IsFoundIn b found.now.turn found.now.meta (get nat_cmp found.now.touched) found.now.count →
        (s : FileState) → OpensTo b s → (D.model disk.old).clock + 2 ≤ (D.model disk.new).clock → (c : List ℕ) →
        (D.model disk.new).ImageSince ((D.model disk.old).clock + 1) c → OpensTo c s) }
    ensures renewed { OnOk result (IfSome (D.model disk.old).told (λ b. IsFoundIn b found.now.turn found.now.meta (get nat_cmp found.now.touched) found.now.count →
        (s : FileState) → OpensTo b s → IsFresh (D.model disk.new) (next_turn found.now.turn) found.now.meta s
        × ((c : List ℕ) → (D.model disk.new).ImageSince ((D.model disk.old).clock + 1) c → OpensTo c s))) }
    // the sync is the first call, and the touched pages are the next ones
    ensures once { IfSome (D.model disk.old).told (λ b. IsFoundIn b found.now.turn found.now.meta (get nat_cmp found.now.touched) found.now.count →
        WritesEachOnce ((D.model disk.old).clock + 1) b found.now.meta (get nat_cmp found.now.touched) (D.model disk.new)) }
    ensures all { OnOk result (IfSome (D.model disk.old).told (λ b. IsFoundIn b found.now.turn found.now.meta (get nat_cmp found.now.touched) found.now.count →
        WritesAll ((D.model disk.old).clock + 1) b found.now.meta (get nat_cmp found.now.touched) (D.model disk.new))) }
{
    an_image_opens_to_one_file();
    disk.sync()?;
    rewrite(disk, found)
}
