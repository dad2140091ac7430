//! Opening a file.
ghost use Rattle.std.specs.Prelude.{IfErr, IfOk};
ghost use Rattle.hb_disk.specs.Calls.{OnlyReads};
ghost use Rattle.hb_restart.specs.Leaving.{FailedBy, LeavesOpening, OpensStore, RunsThrough, disk_left};
ghost use Rattle.hb_restart.specs.Refusals.{IsRefusal, IsUnwritten};
ghost use Rattle.hb_restart.specs.declared.faults.OpenFault.TheVariants.{DiskFault};
ghost use Rattle.hb_store.specs.Seen.{disk_of, seen_as};

use crate::faults::OpenFault;
use crate::looking::look;
use crate::renewal::{renew, turn_after};
use hb_disk::Device;
use hb_log_codec::laws::groups_are_read_in_one_way;
use hb_store::Store;
use hb_super::laws::one_superblock_is_newest;
use hb_wal::laws::an_area_is_read_in_one_way;
use std::alloc::Global;

/// Opens the file of a disk: reads the newest superblock and its log, replays it, and tests all rules. Then it syncs,
/// writes the touched pages to their places, and switches to the next turn. It gives the store, without a page in memory and
/// without a group, and the number of the file's records. The refusals come in this order: `Small` for two superblock
/// places, `NoSuper`, `Small` for the layout, `BadGroup`, `Unsound`; nothing is written before any of these.
pub fn recover<D: Device>(alloc: Global, disk: D) -> Result<(Store<D>, u64), (OpenFault, D)>
    ensures opened { IfOk result (λ r. OpensStore (D.model disk) (D.model (disk_of r.0)) (seen_as r.0) r.1) }
    ensures through { IfOk result (λ r. RunsThrough (seen_as r.0).meta.high (D.model disk) (D.model (disk_of r.0))) }
    ensures refused { IfErr result (λ e. IsRefusal (D.model disk) e.0) }
    ensures unwritten { IfErr result (λ e. IsUnwritten e.0 → OnlyReads (D.model disk) (D.model e.1)) }
    ensures leaves { LeavesOpening (FailedBy DiskFault result) (D.model disk) (D.model (disk_left result (λ r. disk_of r.0))) }
{
    groups_are_read_in_one_way();
    one_superblock_is_newest();
    an_area_is_read_in_one_way();
    let (found, mut disk) = look(alloc, disk)?;
    if renew(&mut disk, &found).is_err() {
        return Err((OpenFault::DiskFault, disk));
    }
    match Store::opened(alloc, disk, turn_after(found.turn), found.meta) {
        Ok(store) => Ok((store, found.count)),
        Err((_, disk)) => Err((OpenFault::NoMemory, disk)),
    }
}
