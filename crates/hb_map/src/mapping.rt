//! The whole map.
ghost use Rattle.std.specs.Prelude.{◌≡◌, ℕ, List, ◌++◌, length, IfErr, IsErrOf};
ghost use Rattle.hb_outside.specs.Calls.{Counts};
ghost use Rattle.hb_store.specs.Seen.{disk_of, held_by, seen_as, uses_of};
ghost use Rattle.hb_map.specs.Map.{head_text, map_text, pages_text};
ghost use Rattle.hb_map.specs.Mapping.{AreParents, LooksThrough, MayAllGo, OfSoundFile, PutsText, StopsRightly};
ghost use Rattle.hb_map.specs.declared.stops.MapStop.TheVariants as stops;

use crate::lines::{put_head, put_page};
use crate::pages::read_page;
use crate::parents::count_parents;
use crate::stops::MapStop;
use hb_disk::Device;
use hb_outside::Sink;
use hb_store::Store;
use std::alloc::Global;

/// Puts the map of a store's file, a put for each line. No page in memory may be dirty or pinned. It only reads. After a stop a
/// front of the map was put; nothing was, where want of memory or a fault of the disk came before the first line.
pub fn put_map<D: Device, K: Sink>(
    alloc: Global,
    store: &mut Store<D>,
    sink: &mut K,
) -> Result<(), MapStop>
    requires { MayAllGo (uses_of store.old) }
    // the map of the file, over a disk that tells and keeps a sound one
    ensures map { OfSoundFile (D.model (disk_of store.old)) (held_by store.old) (λ s. PutsText (map_text s) result (K.model sink.old).written (K.model sink.new).written) }
    // over any disk the first line is of what the file says of itself
    ensures begins { (rest : List ℕ) × PutsText (head_text (seen_as store.old).meta ++ rest) result (K.model sink.old).written (K.model sink.new).written }
    ensures sink { Counts (IsErrOf result stops.SinkFault) (K.model sink.old).faults (K.model sink.new).faults }
    ensures through { LooksThrough (IsErrOf result stops.ReadFault) (D.model (disk_of store.old)) (D.model (disk_of store.new)) (held_by store.old) (held_by store.new) }
    ensures stop { IfErr result (StopsRightly (D.model (disk_of store.old)) (held_by store.old)) }
{
    let parents = count_parents(alloc, store)?;
    put_head(sink, store.meta())?;
    put_pages(alloc, store, sink, &parents)
}

/// Puts the lines of all pages, of which so many pages name each.
fn put_pages<D: Device, K: Sink>(
    alloc: Global,
    store: &mut Store<D>,
    sink: &mut K,
    parents: &[u32],
) -> Result<(), MapStop>
    requires may_go { MayAllGo (uses_of store.old) }
    requires long { length parents.now ≡ (seen_as store.old).meta.high }
    ensures pages { OfSoundFile (D.model (disk_of store.old)) (held_by store.old) (λ s. AreParents s parents.now → PutsText (pages_text s.pages 1 s.pages) result (K.model sink.old).written (K.model sink.new).written) }
    ensures some { (text : List ℕ) × PutsText text result (K.model sink.old).written (K.model sink.new).written }
    ensures sink { Counts (IsErrOf result stops.SinkFault) (K.model sink.old).faults (K.model sink.new).faults }
    ensures through { LooksThrough (IsErrOf result stops.ReadFault) (D.model (disk_of store.old)) (D.model (disk_of store.new)) (held_by store.old) (held_by store.new) }
    ensures stop { IfErr result (StopsRightly (D.model (disk_of store.old)) (held_by store.old)) }
{
    for place in 0..store.meta().high {
        let page = read_page(alloc, store, place + 1)?;
        put_page(sink, place + 1, parents[place as usize], &page)?;
    }
    Ok(())
}
