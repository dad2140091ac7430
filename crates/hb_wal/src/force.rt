ghost use Rattle.std.specs.Prelude.{◌≡◌, ℕ, ◌<◌, ◌≤◌, ◌+◌, List, [], ◌++◌, IsSome, IfSome, IsOk, OnOk, OnErr};
ghost use Rattle.hb_disk.specs.Model.{overwritten, Torn, Stays};
ghost use Rattle.hb_disk.specs.Calls.{Leaves};
ghost use Rattle.hb_disk.specs.Runs.{Rewrites};
ghost use Rattle.hb_wal.specs.Frames.{frames};
ghost use Rattle.hb_wal.specs.Log.{forced, after_force};
ghost use Rattle.hb_wal.specs.Forces.{HasLog, MayForce, ForceLeaves, calls_of_force};

use crate::Wal;
use hb_disk::{Device, DiskFault, write_behind_gate};

impl Wal {
    /// Writes the groups that wait as one frame behind the others. Four device calls, and none where no group
    /// waits; at most four where it fails. After a fault the groups still wait, and the disk may have the frame or not.
    pub fn force<D: Device>(&mut self, disk: &mut D) -> Result<(), DiskFault>
        requires { MayForce (D.model disk.old) self.old }
        ensures nothing { self.old.groups ≡ [] → IsOk result × Stays (D.model disk.old) (D.model disk.new) }
        ensures forced { OnOk result (self.new ≡ after_force self.old) }
        ensures kept { OnErr result (self.new ≡ self.old) }
        ensures written { OnOk result (IfSome (D.model disk.old).told (λ b. (D.model disk.new).told
            ≡ Some (overwritten b (self.old.area + self.old.written) (frames (forced self.old.groups))))) }
        ensures log { (payloads : List (List ℕ)) → HasLog (D.model disk.old) self.old payloads →
            OnOk result (HasLog (D.model disk.new) self.new (payloads ++ forced self.old.groups)) }
        ensures moments { IsSome (D.model disk.old).told → (payloads : List (List ℕ)) → HasLog (D.model disk.old) self.old payloads →
            Leaves (D.model disk.old) (D.model disk.new) (ForceLeaves (D.model disk.old) self.old payloads) }
        ensures clock { IsSome (D.model disk.old).told → OnOk result ((D.model disk.new).clock ≡ (D.model disk.old).clock + calls_of_force self.old.groups) }
        ensures wrote { Rewrites (Torn self.old.area self.old.len) 4 result (D.model disk.old) (D.model disk.new) }
    {
        let gate = self.frame_gate();
        let Some(body) = self.body() else {
            return Ok(());
        };
        write_behind_gate(disk, gate, body)?;
        self.forget();
        Ok(())
    }
}
