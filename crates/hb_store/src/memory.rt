//! What a store has in memory. No disk is spoken of.
ghost use Rattle.std.specs.Prelude.{◌≡◌, ◌-◌, ◌↔◌, ◌<◌, ℕ, false, [], None, Some, IsTrue, IfOk, IfSome, IsSomeAnd, MatchOption, OnOk, OnErr};
ghost use Rattle.hb_frag.specs.declared.pages.Page.{Page};
ghost use Rattle.hb_frag.specs.Grammar.{SpellsPage};
ghost use Rattle.hb_page_codec.specs.ReadingPages.{page_of_bytes};
ghost use Rattle.hb_pool.specs.Frames.{Use, pinned, unpinned};
ghost use Rattle.hb_pool.specs.Pools.{brought, frame_of, in_place, places, put_last};
ghost use Rattle.hb_wal.specs.Log.{IsLog, room_of, pending_bytes, mark_of};
ghost use Rattle.hb_store.specs.States.{IsGoodPage, IsMemory, IsStanding, in_memory, is_dirty, is_in_log, new_state};
ghost use Rattle.hb_store.specs.Held.{IsTied, cleaned_held, oldest_dirty};
ghost use Rattle.hb_store.specs.Replaying.{IsPageOf};
ghost use Rattle.hb_store.specs.Switching.{switched_state};
ghost use Rattle.hb_super.specs.Superblocks.{next_turn};
ghost use Rattle.hb_store.specs.Calls.{Fetched, HasPlaces, IsReady, StaysHere};

use crate::page_sets::PageSet;
use hb_layout::log_start;
use hb_ops::Meta;
use hb_pool::Pool;
use hb_space::NoMemory;
use hb_space::form::{GROUP, PAGE, PENDING};
use hb_view::PageView;
use hb_wal::Wal;
use std::alloc::Global;
use std::marker::Model;

/// How many places a store has to have that takes an operation.
const PLACES: u32 = 3;

/// What a store has in memory.
#[derive(Drop)]
pub(crate) struct Memory {
    /// The turn of the newest superblock.
    pub(crate) turn: u8,
    /// What the file says of itself.
    pub(crate) meta: Meta,
    pub(crate) log: Wal,
    /// The pages that were brought here or made, as their bytes, in the order of use.
    pub(crate) pool: Pool,
    /// The numbers of the pages of which the log of this turn has a page image, or which it made.
    pub(crate) in_log: PageSet,
    /// Whether a write, zero or sync failed.
    pub(crate) stopped: bool,
}

impl Model for Memory {
    ghost use Rattle.std.specs.Prelude.{refl};
    ghost use Rattle.std.specs.Coded.{code_by, coded×, coded_ℕ, coded_bool, coded_list};
    ghost use Rattle.std.specs.FinMap as map;
    ghost use Rattle.std.specs.FinSet as set;
    ghost use Rattle.hb_frag.specs.contracts.pages.Page as page;
    ghost use Rattle.hb_layout.specs.contracts.meta.Meta as said;
    ghost use Rattle.hb_wal.specs.contracts.log.Wal as area;
    ghost use Rattle.hb_store.specs.Held.{StoreHeld};

    ghost Value = { StoreHeld };

    ghost coded = { code_by _ (coded× (coded× (coded× coded_ℕ said.the_row.coded) (coded× area.the_row.coded (coded× (map.code coded_ℕ page.the_row.coded) (coded× (set.code coded_ℕ) (coded× (set.code coded_ℕ) coded_bool)))))
        (coded_list (code_by _ (coded× coded_ℕ (coded× coded_bool coded_ℕ)) (λ u. (u.id, (u.dirty, u.pins))) (λ p. record { id = p.0; bytes = tt {0}; dirty = p.1.0; pins = p.1.1 }) (λ _. refl))))
        (λ h. (((h.state.turn, h.state.meta), (h.state.log, (h.state.pages, (h.state.in_log, (h.state.dirty, h.state.stopped))))), h.uses))
        (λ p. record { state = record { turn = p.0.0.0; meta = p.0.0.1; log = p.0.1.0; pages = p.0.1.1.0; in_log = p.0.1.1.1.0; dirty = p.0.1.1.1.1.0; stopped = p.0.1.1.1.1.1 }; uses = p.1 })
        (λ _. refl) };

    ghost use Rattle.hb_store.specs.Inside.{memory_seen, KeepsMemory};

    ghost view = { memory_seen };

    ghost invariant = { KeepsMemory };
}

impl Memory {
    /// No page is in memory, and no group waits.
    pub(crate) fn new(alloc: Global, turn: u8, meta: Meta) -> Result<Memory, NoMemory>
        requires stands { IsStanding turn meta }
        ensures { IfOk result (λ m. m ≡ record { state = new_state turn meta; uses = [] }) }
    {
        let log = Wal::new(alloc, log_start(turn, &meta), meta.log)?;
        let pool = Pool::new(alloc)?;
        let in_log = PageSet::new(alloc)?;
        Ok(Memory {
            turn,
            meta,
            log,
            pool,
            in_log,
            stopped: false,
        })
    }

    /// What the file says of itself.
    pub(crate) fn meta(&self) -> &Meta
        ensures meta { result.now ≡ self.now.state.meta }
        ensures memory { IsMemory self.now.state }
        ensures tied { IsTied self.now.state self.now.uses }
    {
        &self.meta
    }

    /// The page of a number, as its bytes. `None` exactly where it isn't in memory.
    pub(crate) fn get(&self, id: u32) -> Option<PageView<'_>>
        ensures { result ≡ in_memory self.now.state id }
    {
        match self.pool.get(id) {
            Some(bytes) => Some(PageView::of_spelled(bytes)),
            None => None,
        }
    }

    /// The bytes of the page of a number. `None` exactly where it isn't in memory.
    pub(crate) fn bytes(&self, id: u32) -> Option<&[u8; PAGE]>
        ensures { MatchOption result (in_memory self.now.state id ≡ None) (λ bytes. (page : Page) × (in_memory self.now.state id ≡ Some page) × SpellsPage bytes.now page) }
    {
        self.pool.get(id)
    }

    /// Holds a page that isn't in memory, as its bytes, in a place that there is. It is clean, and isn't in this turn's log.
    pub(crate) fn hold(&mut self, id: u32, bytes: &[u8; PAGE])
        requires absent { in_memory self.old.state id ≡ None }
        requires place { 0 < places self.old.uses }
        requires page { IsPageOf self.old.state.meta id }
        requires good { IsSomeAnd (page_of_bytes bytes.now) (λ page. SpellsPage bytes.now page × IsGoodPage self.old.state.meta page) }
        ensures fetched { Fetched id self.old.state self.new.state }
        ensures there { in_memory self.new.state id ≡ page_of_bytes bytes.now }
        ensures stays { (q : ℕ) → StaysHere self.old.uses q → in_memory self.new.state q ≡ in_memory self.old.state q }
        ensures uses { self.new.uses ≡ brought id (tt {0}) false self.old.uses }
    {
        self.pool.bring(id, bytes, false);
    }

    /// One pin more for a page in memory, which is last in the order of use now.
    pub(crate) fn pin(&mut self, id: u32)
        requires { IsSomeAnd (frame_of self.old.uses id) (λ (u : Use). u.pins < 255) }
        ensures uses { self.new.uses ≡ put_last id pinned self.old.uses }
        ensures state { self.new.state ≡ self.old.state }
    {
        self.pool.pin(id);
    }

    /// One pin less for a page in memory. The order of use stays.
    pub(crate) fn unpin(&mut self, id: u32)
        requires { IsSomeAnd (frame_of self.old.uses id) (λ (u : Use). 0 < u.pins) }
        ensures uses { self.new.uses ≡ in_place id unpinned self.old.uses }
        ensures state { self.new.state ≡ self.old.state }
    {
        self.pool.unpin(id);
    }

    /// How many pages may come into memory.
    pub(crate) fn places(&self) -> u32
        ensures { result ≡ places self.now.uses }
    {
        self.pool.places()
    }

    /// The least recently used page that is to be written to its place. `None` exactly where none is.
    pub(crate) fn oldest_dirty(&self) -> Option<u32>
        ensures oldest { result ≡ oldest_dirty self.now.uses }
        ensures dirty { IfSome result (λ id. IsTrue (is_dirty self.now.state id) × IsTrue (is_in_log self.now.state id)) }
    {
        self.pool.oldest_dirty()
    }

    /// The page of this number, which was to be written to its place, is no longer. The order of use stays.
    pub(crate) fn cleaned(&mut self, id: u32)
        requires { IsTrue (is_dirty self.old.state id) }
        ensures { self.new ≡ cleaned_held id self.old }
    {
        self.pool.cleaned(id);
    }

    /// The bytes of the written frames. 0 exactly where the log has none.
    pub(crate) fn written(&self) -> u32
        ensures { result ≡ self.now.state.log.written }
    {
        self.log.written()
    }

    /// The turn after this one.
    pub(crate) fn next_turn(&self) -> u8
        ensures { result ≡ next_turn self.now.state.turn }
    {
        (self.turn + 1) % 4
    }

    /// The next turn has begun: its log has no frame, and no page is in it. So no page may be to be written to its place.
    pub(crate) fn switched(&mut self)
        requires waits { self.old.state.log.groups ≡ [] }
        requires clean { oldest_dirty self.old.uses ≡ None }
        ensures { self.new ≡ record { state = switched_state self.old.state; uses = self.old.uses } }
    {
        self.turn = self.next_turn();
        self.log.move_to(log_start(self.turn, &self.meta));
        self.in_log.clear();
    }

    /// The bytes of the longest group that fits the log now.
    pub(crate) fn room(&self) -> u32
        ensures { result ≡ room_of self.now.state.log }
    {
        self.log.room()
    }

    /// The mark of the oldest group that waits, or `now` where none does. The marks of those behind it aren't less.
    pub(crate) fn settled(&self, now: u32) -> u32
        ensures mark { result ≡ mark_of self.now.state.log.groups now }
        ensures log { IsLog self.now.state.log }
    {
        self.log.settled(now)
    }

    /// The bytes of the groups that wait. 0 exactly where none does.
    pub(crate) fn pending(&self) -> u32
        ensures bytes { result ≡ pending_bytes self.now.state.log.groups }
        ensures none { (result ≡ 0) ↔ (self.now.state.log.groups ≡ []) }
    {
        self.log.pending()
    }

    /// How many pages may still be taken into use.
    pub(crate) fn free_pages(&self) -> u32
        ensures { result ≡ self.now.state.meta.pages - self.now.state.meta.live }
    {
        self.meta.pages - self.meta.live
    }

    /// Whether an operation may be committed: there is room for the longest group, few bytes wait, and there are places
    /// for the pages that it may need.
    pub(crate) fn ready(&self) -> bool
        ensures { IsTrue result ↔ (IsReady self.now.state × HasPlaces self.now.uses) }
    {
        self.room() >= GROUP as u32
            && self.pending() <= (PENDING - GROUP) as u32
            && self.places() >= PLACES
    }

    /// Whether a write, zero or sync failed.
    pub(crate) fn stopped(&self) -> bool
        ensures { result ≡ self.now.state.stopped }
    {
        self.stopped
    }
}
