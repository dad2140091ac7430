ghost use Rattle.std.specs.Prelude.{◌≡◌, ◌≢◌, ℕ, ◌+◌, ◌<◌, ◌≤◌, List, ◌∷◌, Some, length, get_or, IsSome, OnOk};
ghost use Rattle.hb_disk.specs.Model.{overwritten, Torn};
ghost use Rattle.hb_disk.specs.Calls.{Leaves, FrameOrNot, InOrder, Then, open_gate};
ghost use Rattle.hb_disk.specs.Runs.{WritesThrough};

use crate::Device;
use hb_outside::Failed;

/// The byte of an open gate.
pub const OPEN: u8 = 0xA5;

/// Writes the body behind a closed gate, syncs, opens the gate, and syncs.
///
/// Each image of a moment inside has the frame whole, or a closed gate in its place. It takes four calls, and at most
/// four where it fails.
pub fn write_behind_gate<D: Device>(disk: &mut D, gate: u64, body: &[u8]) -> Result<(), Failed>
    requires inside { gate + 1 + length body.now ≤ (D.model disk.old).size }
    requires closed { IsSome (D.model disk.old).told →
        (c : List ℕ) → (D.model disk.old).Image c → get_or c gate 0 ≢ open_gate }
    ensures wrote { WritesThrough (λ b. overwritten b gate (open_gate ∷ body.now)) (Torn gate (1 + length body.now)) 4
        result (D.model disk.old) (D.model disk.new) }
    ensures moments { IsSome (D.model disk.old).told → Leaves (D.model disk.old) (D.model disk.new)
        (λ c. (b : List ℕ) × (D.model disk.old).Image b × FrameOrNot gate body.now b c) }
    ensures clock { IsSome (D.model disk.old).told → OnOk result ((D.model disk.new).clock ≡ (D.model disk.old).clock + 4) }
{
    disk.write(gate + 1, body)?;
    disk.sync()?;
    disk.write(gate, &[OPEN])?;
    disk.sync()
}

/// Writes the first piece, syncs, writes the second, and syncs.
///
/// In each image of a moment inside, the second is begun only where the first stands.
pub fn write_in_order<D: Device>(
    disk: &mut D,
    first: u64,
    a: &[u8],
    second: u64,
    b: &[u8],
) -> Result<(), Failed>
    requires first_inside { first + length a.now ≤ (D.model disk.old).size }
    requires second_inside { second + length b.now ≤ (D.model disk.old).size }
    ensures wrote { WritesThrough (λ t. overwritten (overwritten t first a.now) second b.now)
        (Then (Torn first (length a.now)) (Torn second (length b.now))) 4
        result (D.model disk.old) (D.model disk.new) }
    ensures moments { IsSome (D.model disk.old).told → Leaves (D.model disk.old) (D.model disk.new)
        (λ c. (t : List ℕ) × (D.model disk.old).Image t × InOrder first a.now second b.now t c) }
{
    disk.write(first, a)?;
    disk.sync()?;
    disk.write(second, b)?;
    disk.sync()
}
