//! What a file is, before it is opened: a sound one, or the first rule that it breaks. Nothing is written.
ghost use Rattle.std.specs.Prelude.{IfOk, IfErr, IfSome};
ghost use Rattle.std.specs.Ordering.{nat_cmp};
ghost use Rattle.std.specs.BTreeMap.{get};
ghost use Rattle.hb_disk.specs.Calls.{ReadsOnly};
ghost use Rattle.hb_restart.specs.Refusals.{IsRefusal, IsShut, RefusesBytes};
ghost use Rattle.hb_restart.specs.Found.{IsFoundIn, IsReadIn, IsRenewable, IsWholeRead};
ghost use Rattle.hb_restart.specs.Leaving.{FailedBy, disk_left};
ghost use Rattle.hb_restart.specs.declared.faults.OpenFault.TheVariants.{DiskFault};

use crate::faults::OpenFault;
use crate::reading::{LogRead, read_file};
use crate::source::FilePages;
use hb_disk::Device;
use hb_frag::Page;
use hb_ops::Meta;
use hb_page_codec::laws::{fields_are_read_exactly, spelling_law};
use hb_sound::audit;
use hb_space::form::PAGE;
use std::alloc::Global;
use std::collections::BTreeMap;

/// A sound file: the turn of its newest superblock, what its log makes of what that says, the pages that the log touches by
/// their numbers, and how many records it has.
#[derive(Drop)]
pub(crate) struct Found {
    pub(crate) turn: u8,
    pub(crate) meta: Meta,
    pub(crate) touched: BTreeMap<u32, Page>,
    pub(crate) count: u64,
}

/// Audits the file that a log leads to. The pages that it touches are taken before those in their places.
fn audited<D: Device>(alloc: Global, disk: D, read: LogRead) -> Result<(Found, D), (OpenFault, D)>
    requires { IsWholeRead (D.model disk).size read }
    ensures found { IfOk result (λ r. IfSome (D.model disk).told (λ b. IsReadIn b read → IsFoundIn b r.0.turn r.0.meta (get nat_cmp r.0.touched) r.0.count)) }
    ensures renewable { IfOk result (λ r. IsRenewable (D.model disk).size r.0) }
    ensures refused { IfErr result (λ e. IfSome (D.model disk).told (λ b. IsReadIn b read → RefusesBytes e.0 b)) }
    ensures shut { IfErr result (λ e. IsShut (D.model disk).size e.0) }
    ensures only { ReadsOnly (FailedBy DiskFault result) (D.model disk) (D.model (disk_left result (λ r. r.1))) }
{
    spelling_law();
    fields_are_read_exactly();
    let turn = read.turn;
    let meta = read.touched.meta;
    let mut pages = FilePages {
        alloc,
        disk,
        said: read.said,
        touched: read.touched.pages,
        buffer: [0; PAGE],
    };
    let audited = audit(alloc, &meta, &mut pages);
    let FilePages { disk, touched, .. } = pages;
    match audited {
        Ok(count) => Ok((
            Found {
                turn,
                meta,
                touched,
                count,
            },
            disk,
        )),
        Err(stop) => Err((OpenFault::from(stop), disk)),
    }
}

/// The file of a disk, or why there is none. The tests come in the order in which `recover` names them.
pub(crate) fn look<D: Device>(alloc: Global, disk: D) -> Result<(Found, D), (OpenFault, D)>
    ensures found { IfOk result (λ r. IfSome (D.model disk).told (λ b. IsFoundIn b r.0.turn r.0.meta (get nat_cmp r.0.touched) r.0.count)) }
    ensures renewable { IfOk result (λ r. IsRenewable (D.model disk).size r.0) }
    ensures refused { IfErr result (λ e. IsRefusal (D.model disk) e.0) }
    ensures only { ReadsOnly (FailedBy DiskFault result) (D.model disk) (D.model (disk_left result (λ r. r.1))) }
{
    let mut disk = disk;
    match read_file(alloc, &mut disk) {
        Ok(read) => audited(alloc, disk, read),
        Err(fault) => Err((fault, disk)),
    }
}
