//! The page number that an allocation takes.
ghost use Rattle.std.specs.Prelude.{◌≡◌, ◌≢◌, ◌⊎◌, ℕ, List, Some, None, IfOk, IfErr, IfSome, IsErrOf, IsOk, IsSome, OnOk};
ghost use Rattle.hb_frag.specs.declared.pages.Page.TheVariants.{Free};
ghost use Rattle.hb_ops.specs.Allocating.{Allocates, NamesNext};
ghost use Rattle.hb_ops.specs.Files.{FileState, page_of, last_of};
ghost use Rattle.hb_ops.specs.Sound.{IsSound};
ghost use Rattle.hb_store.specs.States.{IsMemory, in_memory};
ghost use Rattle.hb_store.specs.Fetching.{IsCrowdedOut, LooksUp, IsDamage, IsNext, IsNoHead, MayBring, NeedsNoRead, use_numbered};
ghost use Rattle.hb_store.specs.Calls.{use_fetched};
ghost use Rattle.hb_store.specs.Keeps.{StoreKeeps};
ghost use Rattle.hb_store.specs.Seen.{seen_as, uses_of};
ghost use Rattle.hb_store.specs.declared.stops.FetchStop.TheVariants.{Crowded, Damaged, ReadFault};
ghost use Rattle.hb_store.specs.declared.stops.Why.TheVariants.{Rule};

use crate::fetches::damaged;
use crate::stops::FetchStop;
use crate::store::Store;
use hb_disk::Device;
use hb_frag::Page;

impl<D: Device> Store<D> {
    /// The number of the page that an allocation takes now, and the free head after it. `None` where every page is in
    /// use. The first page of the free chain is fetched, where there is one.
    ///
    /// `Damaged` where the head of the chain isn't one of its free pages: for the rule by which `fetch` refuses it, or
    /// for rule 2 where it is in use. So too, of page 0, where the chain has none and no number is left.
    pub fn next_page(&mut self) -> Result<Option<(u32, u32)>, FetchStop>
        ensures full { (seen_as self.old).meta.live ≡ (seen_as self.old).meta.pages → IfOk result (λ page. page ≡ None) × IsOk result × (seen_as self.new ≡ seen_as self.old) × (uses_of self.new ≡ uses_of self.old) }
        ensures room { (seen_as self.old).meta.live ≢ (seen_as self.old).meta.pages → IfOk result (λ page. IsSome page) }
        ensures next { IfOk result (λ page. IfSome page (λ p. IsNext (seen_as self.new) p.0 p.1)) }
        ensures allocates { IfOk result (λ page. IfSome page (λ p. Allocates (seen_as self.new).meta p.0 p.1)) }
        ensures names { (durable : FileState) (later : List FileState) → StoreKeeps (D.model self.old.disk) (seen_as self.old) durable later →
            IfOk result (λ page. IfSome page (λ p. NamesNext (last_of durable later) p.0 p.1)) }
        ensures brings { MayBring (seen_as self.old).meta.free (seen_as self.old) (seen_as self.new) (uses_of self.old) (uses_of self.new) }
        ensures uses { OnOk result (uses_of self.new ≡ use_numbered (seen_as self.old).meta (uses_of self.old)) }
        ensures crowded { IsErrOf result Crowded → ((seen_as self.old).meta.free ≢ 0) × IsCrowdedOut (seen_as self.old).meta.free (seen_as self.old) (uses_of self.old) }
        // without a read nothing changes, and only damage stops it
        ensures unread { NeedsNoRead (seen_as self.old) → (self.new.disk ≡ self.old.disk) × (seen_as self.new ≡ seen_as self.old) × (uses_of self.new ≡ uses_of self.old) }
        ensures damage { NeedsNoRead (seen_as self.old) → IfErr result IsDamage }
        ensures looks { LooksUp (IsErrOf result ReadFault) (D.model self.old.disk) (D.model self.new.disk) (seen_as self.old) (seen_as self.new) }
        // the head of the chain is none that is free, or the chain has none and no number is left behind the highest page
        ensures why { IfErr result (λ stop. (((seen_as self.old).meta.free ≢ 0) × IsNoHead (seen_as self.old).meta (D.model self.old.disk) (seen_as self.new) (seen_as self.old).meta.free stop)
            ⊎ (((seen_as self.old).meta.free ≡ 0) × ((seen_as self.old).meta.high ≡ (seen_as self.old).meta.pages) × (stop ≡ Damaged 0 (Rule 2)))) }
        // in a sound file nothing is damaged
        ensures sound { (durable : FileState) (later : List FileState) → StoreKeeps (D.model self.old.disk) (seen_as self.old) durable later →
            IsSound (last_of durable later) → IfErr result (λ stop. (stop ≢ FetchStop.ReadFault) → (stop ≢ FetchStop.Crowded) → ⊥) }
    {
        let meta = *self.memory.meta();
        if meta.live == meta.pages {
            return Ok(None);
        }
        if meta.free != 0 {
            let next = self.free_head(meta.free)?;
            return Ok(Some((meta.free, next)));
        }
        if meta.high == meta.pages {
            return Err(damaged(0, 2));
        }
        Ok(Some((meta.high + 1, 0)))
    }

    /// What the first page of the free chain names. It is fetched.
    fn free_head(&mut self, head: u32) -> Result<u32, FetchStop>
        ensures named { IfOk result (λ next. in_memory (seen_as self.new) head ≡ Some (Free next)) }
        ensures memory { OnOk result (IsMemory (seen_as self.new)) }
        ensures brings { MayBring head (seen_as self.old) (seen_as self.new) (uses_of self.old) (uses_of self.new) }
        ensures uses { OnOk result (uses_of self.new ≡ use_fetched head (uses_of self.old)) }
        ensures crowded { IsErrOf result Crowded → IsCrowdedOut head (seen_as self.old) (uses_of self.old) }
        ensures unread { IsSome (in_memory (seen_as self.old) head) → (self.new.disk ≡ self.old.disk) × (seen_as self.new ≡ seen_as self.old) × (uses_of self.new ≡ uses_of self.old) }
        ensures damage { IsSome (in_memory (seen_as self.old) head) → IfErr result IsDamage }
        ensures looks { LooksUp (IsErrOf result ReadFault) (D.model self.old.disk) (D.model self.new.disk) (seen_as self.old) (seen_as self.new) }
        ensures why { IfErr result (IsNoHead (seen_as self.old).meta (D.model self.old.disk) (seen_as self.new) head) }
        // a page that is free in a sound file isn't damaged
        ensures sound { (durable : FileState) (later : List FileState) → StoreKeeps (D.model self.old.disk) (seen_as self.old) durable later →
            IsSound (last_of durable later) → (next : ℕ) → page_of (last_of durable later) head ≡ Some (Free next) →
            IfErr result (λ stop. (stop ≢ FetchStop.ReadFault) → (stop ≢ FetchStop.Crowded) → ⊥) }
    {
        self.fetch(head)?;
        match self.get(head) {
            Some(view) if !view.is_live() => Ok(view.next()),
            _ => Err(damaged(head, 2)),
        }
    }
}
