ghost use Rattle.std.specs.Prelude.{◌≡◌, ◌-◌, ◌↔◌, ◌<◌, [], IsTrue, IsSome, IsSomeAnd};
ghost use Rattle.hb_pool.specs.Frames.{Use, pinned, unpinned};
ghost use Rattle.hb_pool.specs.Pools.{frame_of, in_place, places, put_last};
ghost use Rattle.hb_store.specs.Held.{IsTied};
ghost use Rattle.hb_wal.specs.Log.{IsLog, room_of, pending_bytes, mark_of};
ghost use Rattle.hb_store.specs.States.{IsStore, in_memory};
ghost use Rattle.hb_store.specs.Seen.{seen_as, uses_of};
ghost use Rattle.hb_store.specs.Calls.{HasPlaces, IsReady};

use crate::store::Store;
use hb_disk::{Device, Disk};
use hb_ops::Meta;
use hb_view::PageView;

impl<D: Device> Store<D> {
    /// What the file says of itself.
    pub fn meta(&self) -> &Meta
        ensures meta { result.now ≡ (seen_as self.now).meta }
        ensures store { IsStore (D.model self.now.disk).size (seen_as self.now) }
        ensures tied { IsTied (seen_as self.now) (uses_of self.now) }
    {
        self.memory.meta()
    }

    /// A store is well made after each call, and its frames are those of the pages in memory. Who needs to know that, and no
    /// value, calls this.
    pub fn stands_well(&self)
        ensures store { IsStore (D.model self.now.disk).size (seen_as self.now) }
        ensures tied { IsTied (seen_as self.now) (uses_of self.now) }
    {
        // Whoever looks into the memory knows it.
        let _ = self.memory.meta();
    }

    /// The page of a number, as its bytes. `None` exactly where it isn't in memory. The order of use stays.
    pub fn get(&self, id: u32) -> Option<PageView<'_>>
        ensures page { result ≡ in_memory (seen_as self.now) id }
        ensures store { IsStore (D.model self.now.disk).size (seen_as self.now) }
        ensures tied { IsTied (seen_as self.now) (uses_of self.now) }
    {
        self.stands_well();
        self.memory.get(id)
    }

    /// One pin more for a page in memory, which is last in the order of use now. A pinned page stays in memory.
    pub fn pin(&mut self, id: u32)
        requires { IsSomeAnd (frame_of (uses_of self.old) id) (λ (u : Use). u.pins < 255) }
        ensures uses { uses_of self.new ≡ put_last id pinned (uses_of self.old) }
        ensures seen { seen_as self.new ≡ seen_as self.old }
        ensures disk { self.new.disk ≡ self.old.disk }
    {
        self.memory.pin(id);
    }

    /// One pin less for a page in memory. The order of use stays.
    pub fn unpin(&mut self, id: u32)
        requires { IsSomeAnd (frame_of (uses_of self.old) id) (λ (u : Use). 0 < u.pins) }
        ensures uses { uses_of self.new ≡ in_place id unpinned (uses_of self.old) }
        ensures seen { seen_as self.new ≡ seen_as self.old }
        ensures disk { self.new.disk ≡ self.old.disk }
    {
        self.memory.unpin(id);
    }

    /// How many pages may come into memory: the frames that are empty, or have a page that is clean and not pinned.
    pub fn places(&self) -> u32
        ensures { result ≡ places (uses_of self.now) }
    {
        self.memory.places()
    }

    /// The bytes of the longest group that fits the log now.
    pub fn room(&self) -> u32
        ensures { result ≡ room_of (seen_as self.now).log }
    {
        self.memory.room()
    }

    /// The mark of the oldest group that waits, or `now` where none does. The marks of those behind it aren't less.
    pub fn settled(&self, now: u32) -> u32
        ensures mark { result ≡ mark_of (seen_as self.now).log.groups now }
        ensures log { IsLog (seen_as self.now).log }
    {
        self.memory.settled(now)
    }

    /// The bytes of the groups that wait. 0 exactly where none does.
    pub fn pending(&self) -> u32
        ensures bytes { result ≡ pending_bytes (seen_as self.now).log.groups }
        ensures none { (result ≡ 0) ↔ ((seen_as self.now).log.groups ≡ []) }
    {
        self.memory.pending()
    }

    /// How many pages may still be taken into use.
    pub fn free_pages(&self) -> u32
        ensures { result ≡ (seen_as self.now).meta.pages - (seen_as self.now).meta.live }
    {
        self.memory.free_pages()
    }

    /// Whether an operation may be committed: there is room for the longest group, few bytes wait, and there are places for the
    /// wanted page, the head of the free chain and a page that is made.
    pub fn ready(&self) -> bool
        ensures { IsTrue result ↔ (IsReady (seen_as self.now) × HasPlaces (uses_of self.now)) }
    {
        self.memory.ready()
    }

    /// Whether a write, zero or sync failed.
    pub fn stopped(&self) -> bool
        ensures { result ≡ (seen_as self.now).stopped }
    {
        self.memory.stopped()
    }

    /// The disk.
    pub fn into_disk(self) -> D
        ensures { result ≡ self.disk }
    {
        let Store { disk, .. } = self;
        disk
    }
}

impl<D: Disk> Store<D> {
    /// The disk's clock, where the disk tells, and any number where it doesn't.
    pub fn clock(&self) -> u64
        ensures { IsSome (D.model self.now.disk).told → result ≡ (D.model self.now.disk).clock }
    {
        self.disk.clock()
    }
}
