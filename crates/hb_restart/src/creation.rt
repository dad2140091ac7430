//! Making a file.
ghost use Rattle.std.specs.Prelude.{◌≡◌, ◌≢◌, ℕ, ◌*◌, ◌+◌, ◌≤◌, ◌<◌, List, [], Some, OnOk, IfOk, IfErr, IfSome, IsSome};
ghost use Rattle.hb_space.specs.declared.form.TheConstants.{PAGE};
ghost use Rattle.hb_disk.specs.Model.{Torn};
ghost use Rattle.hb_disk.specs.Runs.{Lasts, Rewrites};
ghost use Rattle.hb_frag.specs.declared.pages.Page.{Page as Content};
ghost use Rattle.hb_frag.specs.Grammar.{SpellsPage};
ghost use Rattle.hb_layout.specs.Limits.{IsLayout};
ghost use Rattle.hb_layout.specs.Offsets.{file_size};
ghost use Rattle.hb_store.specs.Keeps.{IsFresh};
ghost use Rattle.hb_store.specs.Seen.{seen_as, disk_of};
ghost use Rattle.hb_restart.specs.Leaving.{FailedBy, disk_left};
ghost use Rattle.hb_restart.specs.Creation.{HasEmptyPlaces, IsLaidOut, LeavesMaking, MakesStore, RefusesMaking};
ghost use Rattle.hb_restart.specs.NewFiles.{lone};
ghost use Rattle.hb_restart.specs.Source.{HasPlaceFor};
ghost use Rattle.hb_restart.specs.declared.faults.CreateFault.TheVariants.{DiskFault, NoMemory};

use crate::faults::CreateFault;
use crate::layout::{Layout, empty_page};
use hb_disk::Device;
use hb_layout::{log_start, page_offset};
use hb_ops::Meta;
use hb_outside::Failed;
use hb_page_codec::encode;
use hb_space::form::PAGE;
use hb_store::Store;
use hb_super::write_first_super;
use hb_wal::zero_area;
use std::alloc::Global;

/// Zeroes both superblock places, and syncs. Two device calls.
fn zero_places<D: Device>(disk: &mut D) -> Result<(), hb_disk::DiskFault>
    requires room { 2 * PAGE ≤ (D.model disk.old).size }
    ensures closed { OnOk result (IfSome (D.model disk.old).told (λ b. (c : List ℕ) × ((D.model disk.new).told ≡ Some c) × HasEmptyPlaces c)) }
    ensures wrote { Rewrites (Torn 0 (2 * PAGE)) 2 result (D.model disk.old) (D.model disk.new) }
{
    zero_area(disk, 0, 2 * PAGE as u32)
}

/// Zeroes log area 0 and writes page 1, and syncs. Three device calls.
fn write_parts<D: Device>(disk: &mut D, meta: &Meta, page: &[u8; PAGE]) -> Result<(), Failed>
    requires { HasPlaceFor (D.model disk.old).size meta.now 1 }
    ensures laid { OnOk result (IfSome (D.model disk.old).told (λ b. HasEmptyPlaces b →
        (c : List ℕ) × ((D.model disk.new).told ≡ Some c) × IsLaidOut c meta.now page.now)) }
    ensures lasts { OnOk result (Lasts (D.model disk.new)) }
    ensures wrote { Rewrites (Torn 0 (file_size meta.now)) 3 result (D.model disk.old) (D.model disk.new) }
{
    disk.zero(log_start(0, meta), u64::from(meta.log))?;
    disk.write(page_offset(meta, 1), page)?;
    disk.sync()
}

/// Writes all of a new file but its superblock, in two steps with a sync each. Five device calls.
fn lay_out<D: Device>(
    disk: &mut D,
    meta: &Meta,
    page: &[u8; PAGE],
) -> Result<(), hb_disk::DiskFault>
    requires { HasPlaceFor (D.model disk.old).size meta.now 1 }
    ensures laid { OnOk result (IfSome (D.model disk.old).told (λ b. (c : List ℕ) × ((D.model disk.new).told ≡ Some c) × IsLaidOut c meta.now page.now)) }
    ensures lasts { OnOk result (Lasts (D.model disk.new)) }
    ensures wrote { Rewrites (Torn 0 (file_size meta.now)) 5 result (D.model disk.old) (D.model disk.new) }
{
    zero_places(disk)?;
    Ok(write_parts(disk, meta, page)?)
}

/// Writes a new file: its places, its log area and its page, and at last its superblock. Nine device calls.
fn write_file<D: Device>(
    disk: &mut D,
    meta: &Meta,
    page: &[u8; PAGE],
) -> Result<(), hb_disk::DiskFault>
    requires room { file_size meta.now ≤ (D.model disk.old).size }
    requires layout { IsLayout meta.now }
    requires one { (meta.now.root ≡ 1) × (meta.now.high ≡ 1) × (meta.now.live ≡ 1) × (meta.now.free ≡ 0) }
    ensures fresh { OnOk result (IsSome (D.model disk.old).told → (p : Content) → SpellsPage page.now p →
        IsFresh (D.model disk.new) 0 meta.now (lone meta.now p)) }
    ensures wrote { Rewrites (Torn 0 (file_size meta.now)) 9 result (D.model disk.old) (D.model disk.new) }
{
    lay_out(disk, meta, page)?;
    write_first_super(disk, meta)
}

/// Makes a new file on a disk: no record, one page. `BadLayout` names the first field that is out of its limits; then
/// `Small` comes exactly where the disk has fewer bytes than the layout. Nothing is written before these two. Memory is
/// wanted only once the file is made.
pub fn create<D: Device>(
    alloc: Global,
    disk: D,
    layout: Layout,
) -> Result<Store<D>, (CreateFault, D)>
    ensures made { IfOk result (λ st. MakesStore layout (D.model disk) (D.model (disk_of st)) (seen_as st)) }
    ensures refused { IfErr result (λ e. RefusesMaking layout (D.model disk) (D.model e.1) e.0) }
    ensures unwritten { IfErr result (λ e. e.0 ≢ DiskFault → e.0 ≢ NoMemory → e.1 ≡ disk) }
    ensures leaves { LeavesMaking layout (FailedBy DiskFault result) (D.model disk) (D.model (disk_left result disk_of)) }
{
    if let Some(fault) = layout.fault() {
        return Err((CreateFault::BadLayout(fault), disk));
    }
    let needed = layout.size();
    let found = disk.size();
    if found < needed {
        return Err((CreateFault::Small { needed, found }, disk));
    }
    let mut disk = disk;
    let meta = layout.meta();
    let mut page = [0; PAGE];
    encode(&empty_page(alloc, layout.k), &mut page);
    if write_file(&mut disk, &meta, &page).is_err() {
        return Err((CreateFault::DiskFault, disk));
    }
    match Store::opened(alloc, disk, 0, meta) {
        Ok(store) => Ok(store),
        Err((_, disk)) => Err((CreateFault::NoMemory, disk)),
    }
}
