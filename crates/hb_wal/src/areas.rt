ghost use Rattle.std.specs.Prelude.{◌≡◌, ℕ, ◌<◌, ◌≤◌, ◌+◌, List, [], ◌++◌, replicate, Some, IsSome, OnOk};
ghost use Rattle.hb_disk.specs.Model.{overwritten, Torn};
ghost use Rattle.hb_disk.specs.Calls.{Leaves};
ghost use Rattle.hb_disk.specs.Runs.{WritesThrough};
ghost use Rattle.hb_wal.specs.Forces.{HasLog};

use hb_disk::{Device, DiskFault};

/// Zeroes an area for a log, and syncs. Two device calls. A log that is moved there has no frame.
pub fn zero_area<D: Device>(disk: &mut D, area: u64, len: u32) -> Result<(), DiskFault>
    requires inside { area + len ≤ (D.model disk.old).size }
    ensures wrote { WritesThrough (λ b. overwritten b area (replicate len 0)) (Torn area len) 2
        result (D.model disk.old) (D.model disk.new) }
    ensures clock { IsSome (D.model disk.old).told → OnOk result ((D.model disk.new).clock ≡ (D.model disk.old).clock + 2) }
    ensures log { OnOk result (HasLog (D.model disk.new)
        (record { area = area; len = len; written = 0; groups = [] }) []) }
    ensures moments { IsSome (D.model disk.old).told → Leaves (D.model disk.old) (D.model disk.new)
        (λ c. (b : List ℕ) × (D.model disk.old).Image b × Torn area len b c) }
{
    disk.zero(area, u64::from(len))?;
    Ok(disk.sync()?)
}
