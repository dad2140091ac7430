ghost use Rattle.std.specs.Prelude.{◌≡◌, ◌≢◌, ◌↔◌, [], IfOk, IsTrue, None, Some};
ghost use Rattle.hb_store.specs.Forced.{MayWriteGroups, WritesGroups, done};
ghost use Rattle.hb_store.specs.Held.{oldest_dirty};
ghost use Rattle.hb_store.specs.Switching.{SwitchesTurn};
ghost use Rattle.hb_store.specs.WritingHome.{FlushesHome, IsDue, WritesHome};
ghost use Rattle.hb_store.specs.Seen.{held_by, seen_as, uses_of};

use crate::stops::{Flushed, WriteFault};
use crate::store::Store;
use crate::switching::begin_turn;
use hb_disk::Device;
use hb_layout::page_offset;

impl<D: Device> Store<D> {
    /// Writes the groups that wait to the log as one frame. Four device calls, at most four where it fails, and none where no
    /// group waits. A fault stops the store.
    pub fn force(&mut self) -> Result<(), WriteFault>
        requires { MayWriteGroups (D.model self.old.disk) (seen_as self.old) }
        ensures writes { WritesGroups result (D.model self.old.disk) (D.model self.new.disk) (seen_as self.old) (seen_as self.new) }
        ensures uses { uses_of self.new ≡ uses_of self.old }
    {
        let memory = &mut self.memory;
        match memory.log.force(&mut self.disk) {
            Ok(()) => Ok(()),
            Err(_fault) => {
                memory.stopped = true;
                Err(WriteFault)
            }
        }
    }

    /// Where groups wait, they are forced: `Forced`. Else the least recently used page that is to be written to its place is
    /// written there, in one call: `Written`; its log stands already, since no group waits. Else the next turn begins where the log
    /// has a frame, in nine calls: `Switched`. Else `Nothing`. It takes no memory. A fault stops the store.
    pub fn flush_step(&mut self) -> Result<Flushed, WriteFault>
        requires { MayWriteGroups (D.model self.old.disk) (seen_as self.old) }
        ensures which { IfOk result (IsDue (held_by self.old)) }
        ensures forces { (seen_as self.old).log.groups ≢ [] → WritesGroups (done result) (D.model self.old.disk) (D.model self.new.disk) (seen_as self.old) (seen_as self.new) × (uses_of self.new ≡ uses_of self.old) }
        ensures cleans { (seen_as self.old).log.groups ≡ [] → FlushesHome (done result) (D.model self.old.disk) (D.model self.new.disk) (held_by self.old) (held_by self.new) }
    {
        if !self.is_idle() {
            self.force()?;
            return Ok(Flushed::Forced);
        }
        match self.memory.oldest_dirty() {
            Some(id) => self.write_home(id),
            None if self.memory.written() > 0 => self.switch(),
            None => Ok(Flushed::Nothing),
        }
    }

    /// Writes the page of this number to its place.
    fn write_home(&mut self, id: u32) -> Result<Flushed, WriteFault>
        requires running { MayWriteGroups (D.model self.old.disk) (seen_as self.old) }
        requires waits { (seen_as self.old).log.groups ≡ [] }
        requires oldest { oldest_dirty (uses_of self.old) ≡ Some id }
        ensures says { IfOk result (λ flushed. flushed ≡ Flushed.Written id) }
        ensures writes { WritesHome (done result) id (D.model self.old.disk) (D.model self.new.disk) (held_by self.old) (held_by self.new) }
    {
        let memory = &mut self.memory;
        let place = page_offset(memory.meta(), id);
        match memory.bytes(id) {
            Some(bytes) => match self.disk.write(place, bytes) {
                Ok(()) => {
                    memory.cleaned(id);
                    Ok(Flushed::Written(id))
                }
                Err(_fault) => {
                    memory.stopped = true;
                    Err(WriteFault)
                }
            },
            None => unreachable!(),
        }
    }

    /// Begins the next turn: syncs, so that each page stands in its place whatever a crash leaves, zeroes the other log area, and
    /// writes the superblock of the next turn. Nine device calls.
    fn switch(&mut self) -> Result<Flushed, WriteFault>
        requires running { MayWriteGroups (D.model self.old.disk) (seen_as self.old) }
        requires waits { (seen_as self.old).log.groups ≡ [] }
        requires clean { oldest_dirty (uses_of self.old) ≡ None }
        ensures says { IfOk result (λ flushed. flushed ≡ Flushed.Switched) }
        ensures switches { SwitchesTurn (done result) (D.model self.old.disk) (D.model self.new.disk) (held_by self.old) (held_by self.new) }
    {
        let memory = &mut self.memory;
        match begin_turn(&mut self.disk, memory.next_turn(), memory.meta()) {
            Ok(()) => {
                memory.switched();
                Ok(Flushed::Switched)
            }
            Err(_fault) => {
                memory.stopped = true;
                Err(WriteFault)
            }
        }
    }

    /// Whether no group waits.
    fn is_idle(&self) -> bool
        ensures { IsTrue result ↔ ((seen_as self.now).log.groups ≡ []) }
    {
        self.pending() == 0
    }
}
