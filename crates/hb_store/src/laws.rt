ghost use Rattle.std.specs.Prelude.{◌≡◌, ℕ, false, List, length};
ghost use Rattle.hb_ops.specs.Files.{FileState};
ghost use Rattle.hb_store.specs.Opening.{OpensTo};
ghost use Rattle.hb_store.specs.Keeps.{StoreKeeps, OpensToEither};
ghost use Rattle.hb_store.specs.Seen.{seen_as};

use crate::store::Store;
use hb_disk::Device;
use hb_log_codec::laws::groups_are_read_in_one_way;
use hb_page_codec::laws::spelling_law;
use hb_super::laws::one_superblock_is_newest;
use hb_wal::laws::an_area_is_read_in_one_way;

/// What a crash now leaves of a store's disk opens to the durable file, or to the one after all groups that wait;
/// while the store runs, to the durable file alone. For each group that waits there is one file to come.
pub fn an_image_of_a_store_opens<D: Device>(store: &Store<D>)
    ensures either { (durable : FileState) (later : List FileState) → StoreKeeps (D.model store.now.disk) (seen_as store.now) durable later →
        (c : List ℕ) → (D.model store.now.disk).Image c → OpensToEither durable later c }
    ensures running { (seen_as store.now).stopped ≡ false →
        (durable : FileState) (later : List FileState) → StoreKeeps (D.model store.now.disk) (seen_as store.now) durable later →
        (c : List ℕ) → (D.model store.now.disk).Image c → OpensTo c durable }
    ensures count { (durable : FileState) (later : List FileState) → StoreKeeps (D.model store.now.disk) (seen_as store.now) durable later →
        length later ≡ length (seen_as store.now).log.groups }
{
    let _ = store;
}

/// What a store keeps, also a stopped one, is a function of what the store and its disk hold now: there is one durable
/// file, and one list of files to come.
pub fn a_store_keeps_one_file<D: Device>(store: &Store<D>)
    ensures durable { (durable other : FileState) (later others : List FileState) →
        StoreKeeps (D.model store.now.disk) (seen_as store.now) durable later → StoreKeeps (D.model store.now.disk) (seen_as store.now) other others → durable ≡ other }
    ensures later { (durable other : FileState) (later others : List FileState) →
        StoreKeeps (D.model store.now.disk) (seen_as store.now) durable later → StoreKeeps (D.model store.now.disk) (seen_as store.now) other others → later ≡ others }
{
    let _ = store;
    spelling_law();
    groups_are_read_in_one_way();
    one_superblock_is_newest();
    an_area_is_read_in_one_way();
}
