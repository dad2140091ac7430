//! The pages of a store's file, one at a time.
ghost use Rattle.std.specs.Prelude.{◌≡◌, Some, IfErr, IfOk, IsSome};
ghost use Rattle.hb_ops.specs.Files.{page_of};
ghost use Rattle.hb_store.specs.Replaying.{IsPageOf};
ghost use Rattle.hb_store.specs.Seen.{disk_of, held_by, seen_as, uses_of};
ghost use Rattle.hb_store.specs.States.{in_memory};
ghost use Rattle.hb_map.specs.Mapping.{MayAllGo, MayBePrinted, OfSoundFile, Reads};
ghost use Rattle.hb_map.specs.declared.stops.MapStop.TheVariants as stops;

use crate::stops::{MapStop, stop_of};
use hb_disk::Device;
use hb_frag::Page;
use hb_store::Store;
use std::alloc::Global;

/// The page of a number, with memory of its own.
pub(crate) fn read_page<D: Device>(
    alloc: Global,
    store: &mut Store<D>,
    id: u32,
) -> Result<Page, MapStop>
    requires page { IsPageOf (seen_as store.old).meta id }
    requires may_go { MayAllGo (uses_of store.old) }
    ensures reads { Reads result (D.model (disk_of store.old)) (D.model (disk_of store.new)) (held_by store.old) (held_by store.new) }
    ensures page { IfOk result (λ page. OfSoundFile (D.model (disk_of store.old)) (held_by store.old) (λ s. page_of s id ≡ Some page)) }
    ensures printed { IfOk result MayBePrinted }
{
    match store.fetch(id) {
        Ok(()) => copy_page(alloc, store, id),
        Err(stop) => Err(stop_of(stop)),
    }
}

/// The page of a number, which is in memory, with memory of its own.
fn copy_page<D: Device>(alloc: Global, store: &Store<D>, id: u32) -> Result<Page, MapStop>
    requires { IsSome (in_memory (seen_as store.now) id) }
    ensures page { IfOk result (λ page. in_memory (seen_as store.now) id ≡ Some page) }
    ensures printed { IfOk result MayBePrinted }
    ensures memory { IfErr result (λ stop. stop ≡ stops.NoMemory) }
{
    match store.get(id) {
        Some(view) => Ok(view.page(alloc)?),
        None => unreachable!(),
    }
}
