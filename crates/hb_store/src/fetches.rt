//! Pages brought into memory from their places.
ghost use Rattle.std.specs.Prelude.{◌≡◌, ◌≢◌, ◌<◌, ◌⊎◌, ◌↔◌, ℕ, false, List, None, IfErr, IsErrOf, IsOk, OnOk, OnErr, IsSome, IsSomeAnd, Some, option_map};
ghost use Rattle.hb_ops.specs.Files.{FileState, last_of};
ghost use Rattle.hb_ops.specs.Sound.{IsSound};
ghost use Rattle.hb_frag.specs.Grammar.{HasSpelling, SpellsPage};
ghost use Rattle.hb_page_codec.specs.ReadingPages.{page_of_bytes};
ghost use Rattle.hb_pool.specs.Pools.{brought, places};
ghost use Rattle.hb_store.specs.States.{IsGoodPage, in_memory};
ghost use Rattle.hb_store.specs.Keeps.{StoreKeeps};
ghost use Rattle.hb_store.specs.Opening.{place_bytes};
ghost use Rattle.hb_store.specs.Replaying.{IsPageOf};
ghost use Rattle.hb_store.specs.Fetching.{LooksUp, BreaksHere, HoldsNot, FetchesNot, IsCrowdedOut, IsNoPage};
ghost use Rattle.hb_store.specs.Seen.{seen_as, uses_of};
ghost use Rattle.hb_store.specs.Calls.{Fetched, StaysHere, use_fetched};
ghost use Rattle.hb_store.specs.declared.stops.FetchStop.TheVariants.{Crowded, ReadFault};

use crate::stops::{FetchStop, Why};
use crate::store::Store;
use hb_disk::Device;
use hb_layout::page_offset;
use hb_ops::Meta;
use hb_space::form::PAGE;
use hb_view::PageView;

impl<D: Device> Store<D> {
    /// Brings the page of a number into memory, where it isn't there. At most one read. It takes no memory.
    ///
    /// `Damaged` exactly where the number isn't 1 to the highest page, which is tested first and reads nothing, or the
    /// page's bytes are no page or break one of the rules that `local_rule` tests. `Crowded` exactly where the page isn't in
    /// memory and there is no place for it; nothing is read then.
    pub fn fetch(&mut self, id: u32) -> Result<(), FetchStop>
        ensures fetched { OnOk result (Fetched id (seen_as self.old) (seen_as self.new)) }
        ensures uses { OnOk result (uses_of self.new ≡ use_fetched id (uses_of self.old)) }
        // a page that is dirty or pinned is there as it was
        ensures stays { (q : ℕ) → StaysHere (uses_of self.old) q → in_memory (seen_as self.new) q ≡ in_memory (seen_as self.old) q }
        ensures kept { OnErr result ((seen_as self.new ≡ seen_as self.old) × (uses_of self.new ≡ uses_of self.old)) }
        ensures looks { LooksUp (IsErrOf result ReadFault) (D.model self.old.disk) (D.model self.new.disk) (seen_as self.old) (seen_as self.new) }
        ensures why { IfErr result (FetchesNot (seen_as self.old).meta (D.model self.old.disk) id) }
        ensures crowded { IsErrOf result Crowded ↔ IsCrowdedOut id (seen_as self.old) (uses_of self.old) }
        ensures there { IsSome (in_memory (seen_as self.old) id) → IsOk result × (self.new.disk ≡ self.old.disk) × (seen_as self.new ≡ seen_as self.old) × (uses_of self.new ≡ uses_of self.old) }
        ensures unread { IsNoPage (seen_as self.old).meta id ⊎ IsCrowdedOut id (seen_as self.old) (uses_of self.old) → self.new.disk ≡ self.old.disk }
        // in a sound file no page is damaged
        ensures sound { (durable : FileState) (later : List FileState) → StoreKeeps (D.model self.old.disk) (seen_as self.old) durable later →
            IsSound (last_of durable later) → IfErr result (λ stop. (stop ≢ FetchStop.ReadFault) → (stop ≢ FetchStop.Crowded) → IsNoPage (seen_as self.old).meta id) }
    {
        let high = self.memory.meta().high;
        if id == 0 || id > high {
            return Err(damaged(id, 1));
        }
        if self.memory.get(id).is_some() {
            return Ok(());
        }
        if self.memory.places() == 0 {
            return Err(FetchStop::Crowded);
        }
        self.read_page(id)
    }

    /// Brings the page of a number, which isn't there, from its place into a place in memory that there is. One read.
    fn read_page(&mut self, id: u32) -> Result<(), FetchStop>
        requires page { IsPageOf (seen_as self.old).meta id }
        requires absent { in_memory (seen_as self.old) id ≡ None }
        requires place { 0 < places (uses_of self.old) }
        ensures fetched { OnOk result (Fetched id (seen_as self.old) (seen_as self.new)) }
        ensures uses { OnOk result (uses_of self.new ≡ brought id (tt {0}) false (uses_of self.old)) }
        ensures stays { (q : ℕ) → StaysHere (uses_of self.old) q → in_memory (seen_as self.new) q ≡ in_memory (seen_as self.old) q }
        ensures kept { OnErr result ((seen_as self.new ≡ seen_as self.old) × (uses_of self.new ≡ uses_of self.old)) }
        ensures why { IfErr result (HoldsNot (seen_as self.old).meta (option_map (place_bytes (seen_as self.old).meta id) (D.model self.old.disk).told) id) }
        ensures placed { IsErrOf result Crowded → ⊥ }
        ensures looks { LooksUp (IsErrOf result ReadFault) (D.model self.old.disk) (D.model self.new.disk) (seen_as self.old) (seen_as self.new) }
    {
        let mut bytes = [0; PAGE];
        let place = page_offset(self.memory.meta(), id);
        match self.disk.read(place, &mut bytes) {
            Ok(()) => match page_in(self.memory.meta(), id, &bytes) {
                Ok(()) => {
                    self.memory.hold(id, &bytes);
                    Ok(())
                }
                Err(stop) => Err(stop),
            },
            Err(_) => Err(FetchStop::ReadFault),
        }
    }
}

/// The stop for a page that breaks the rule of this number.
pub(crate) fn damaged(page: u32, rule: u8) -> FetchStop
    ensures { result ≡ FetchStop.Damaged page (Why.Rule rule) }
{
    FetchStop::Damaged {
        page,
        why: Why::Rule(rule),
    }
}

/// Whether these bytes spell a page that keeps the rules that speak of it alone. Most do, and that one walk over them tells; of
/// others the passes that follow find the first rule that is broken.
fn page_in(meta: &Meta, id: u32, bytes: &[u8]) -> Result<(), FetchStop>
    ensures good { OnOk result (IsSomeAnd (page_of_bytes bytes.now) (λ page. SpellsPage bytes.now page × IsGoodPage meta.now page)) }
    ensures why { IfErr result (HoldsNot meta.now (Some bytes.now) id) }
    ensures no_fault { IsErrOf result ReadFault → ⊥ }
    ensures placed { IsErrOf result Crowded → ⊥ }
{
    if PageView::well_made(bytes, meta.k, meta.height, meta.dcap, meta.icap) {
        return Ok(());
    }
    match PageView::checked(bytes) {
        Some(view) => good_page(meta, id, &view),
        None => Err(damaged(id, 0)),
    }
}

/// Whether a page that has a spelling keeps the rules that speak of it alone.
fn good_page(meta: &Meta, id: u32, view: &PageView<'_>) -> Result<(), FetchStop>
    requires spelled { HasSpelling view.now }
    ensures good { OnOk result (IsGoodPage meta.now view.now) }
    ensures broken { IfErr result (BreaksHere meta.now id view.now) }
{
    if !view.is_live() {
        return Ok(());
    }
    match view.broken(meta.k, meta.height, meta.dcap, meta.icap) {
        None => Ok(()),
        Some(rule) => Err(damaged(id, rule)),
    }
}
