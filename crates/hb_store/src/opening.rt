ghost use Rattle.std.specs.Prelude.{◌≡◌, ◌≤◌, [], IfOk, IfErr, IsSome};
ghost use Rattle.hb_layout.specs.Offsets.{file_size};
ghost use Rattle.hb_ops.specs.Files.{FileState};
ghost use Rattle.hb_store.specs.States.{IsNew, IsStanding};
ghost use Rattle.hb_store.specs.Keeps.{IsFresh, StoreKeeps};
ghost use Rattle.hb_store.specs.Seen.{seen_as, uses_of};

use crate::memory::Memory;
use crate::store::Store;
use hb_disk::Device;
use hb_ops::Meta;
use hb_space::NoMemory;
use std::alloc::Global;

impl<D: Device> Store<D> {
    /// The store of a file that stands whole on the disk: its newest superblock has this turn and says this, the log
    /// area of the turn has no frame, and every page stands in its place. For want of memory the disk comes back.
    pub fn opened(alloc: Global, disk: D, turn: u8, meta: Meta) -> Result<Store<D>, (NoMemory, D)>
        requires stands { IsStanding turn meta }
        requires room { file_size meta ≤ (D.model disk).size }
        requires fresh { IsSome (D.model disk).told → (s : FileState) × IsFresh (D.model disk) turn meta s }
        ensures new { IfOk result (λ st. IsNew turn meta (seen_as st)) }
        ensures uses { IfOk result (λ st. uses_of st ≡ []) }
        ensures disk { IfOk result (λ st. st.disk ≡ disk) }
        ensures keeps { IfOk result (λ st. (s : FileState) → IsFresh (D.model disk) turn meta s →
            StoreKeeps (D.model st.disk) (seen_as st) s []) }
        ensures back { IfErr result (λ e. e.1 ≡ disk) }
    {
        match Memory::new(alloc, turn, meta) {
            Ok(memory) => Ok(Store {
                alloc,
                disk,
                memory,
            }),
            Err(no_memory) => Err((no_memory, disk)),
        }
    }
}
