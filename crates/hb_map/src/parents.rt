//! How many pages name each page.
ghost use Rattle.std.specs.Prelude.{◌≡◌, ◌==◌, ◌+◌, ◌-◌, ◌<◌, ◌≤◌, ◌^◌, ℕ, if◌then◌else◌, length, replicate, slice_index, IfOk, OnOk};
ghost use Rattle.hb_store.specs.Seen.{disk_of, held_by, uses_of};
ghost use Rattle.hb_map.specs.Map.{is_parent};
ghost use Rattle.hb_map.specs.Mapping.{AreParents, MayAllGo, OfSoundFile, Reads};

use crate::pages::read_page;
use crate::stops::MapStop;
use hb_disk::Device;
use hb_frag::Page;
use hb_space::NoMemory;
use hb_store::Store;
use std::alloc::Global;

/// For each page how many pages name it by a child leaf.
pub(crate) fn count_parents<D: Device>(
    alloc: Global,
    store: &mut Store<D>,
) -> Result<Vec<u32>, MapStop>
    requires { MayAllGo (uses_of store.old) }
    ensures reads { Reads result (D.model (disk_of store.old)) (D.model (disk_of store.new)) (held_by store.old) (held_by store.new) }
    ensures long { IfOk result (λ parents. length parents.items ≡ (held_by store.old).state.meta.high) }
    ensures parents { IfOk result (λ parents. OfSoundFile (D.model (disk_of store.old)) (held_by store.old) (λ s. AreParents s parents.items)) }
{
    let mut parents = zeros(alloc, store.meta().high)?;
    count_pages(alloc, store, &mut parents)?;
    Ok(parents)
}

/// Counts each page as a parent of those that it names, from zeros on.
fn count_pages<D: Device>(
    alloc: Global,
    store: &mut Store<D>,
    parents: &mut [u32],
) -> Result<(), MapStop>
    requires may_go { MayAllGo (uses_of store.old) }
    requires long { length parents.old ≡ (held_by store.old).state.meta.high }
    requires none { (place : ℕ) → slice_index parents.old place ≡ 0 }
    ensures reads { Reads result (D.model (disk_of store.old)) (D.model (disk_of store.new)) (held_by store.old) (held_by store.new) }
    ensures parents { OnOk result (OfSoundFile (D.model (disk_of store.old)) (held_by store.old) (λ s. AreParents s parents.new)) }
{
    let high = store.meta().high;
    for place in 0..high {
        let page = read_page(alloc, store, place + 1)?;
        count_page(alloc, parents, &page)?;
    }
    Ok(())
}

/// So many zeros.
fn zeros(alloc: Global, count: u32) -> Result<Vec<u32>, NoMemory>
    ensures { IfOk result (λ zeros. zeros.items ≡ replicate count 0) }
{
    let mut zeros = Vec::with_capacity(alloc, count as usize)?;
    zeros.resize(count as usize, 0)?;
    Ok(zeros)
}

/// Counts a page once more for each page that it names, once for each.
fn count_page(alloc: Global, parents: &mut [u32], page: &Page) -> Result<(), NoMemory>
    requires { (place : ℕ) → slice_index parents.old place < 2 ^ 31 }
    ensures long { length parents.new ≡ length parents.old }
    ensures counted { OnOk result ((place : ℕ) → place < length parents.old →
        slice_index parents.new place ≡ slice_index parents.old place + (if is_parent (place + 1) page.now then 1 else 0)) }
{
    let Page::Live(page) = page else {
        return Ok(());
    };
    let children = page.children(alloc)?;
    for child in children.as_slice() {
        count_one(parents, *child);
    }
    Ok(())
}

/// Counts one more for a page, where there is one of this number.
fn count_one(parents: &mut [u32], id: u32)
    requires { slice_index parents.old (id - 1) < 2 ^ 32 - 1 }
    ensures long { length parents.new ≡ length parents.old }
    ensures counted { (place : ℕ) → place < length parents.old →
        slice_index parents.new place ≡ slice_index parents.old place + (if id == place + 1 then 1 else 0) }
{
    let id = id as usize;
    if id == 0 || id > parents.len() {
        return;
    }
    parents[id - 1] += 1;
}
