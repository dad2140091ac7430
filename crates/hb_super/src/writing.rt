ghost use Rattle.std.specs.Prelude.{◌≢◌, get_or, ◌≡◌, ℕ, ◌+◌, ◌*◌, ◌≤◌, ◌∷◌, List, Some, IsSome, IfSome, OnOk, ◌⊎◌};
ghost use Rattle.hb_space.specs.declared.form.TheConstants.{PAGE};
ghost use Rattle.hb_disk.specs.Model.{overwritten, Torn};
ghost use Rattle.hb_disk.specs.Calls.{Leaves, FrameOrNot, IsSynced, open_gate};
ghost use Rattle.hb_disk.specs.Runs.{WritesThrough};
ghost use Rattle.hb_layout.specs.declared.meta.Meta.{Meta as Said};
ghost use Rattle.hb_layout.specs.Offsets.{slot_offset};
ghost use Rattle.hb_super.specs.Superblocks.{IsLegal, IsNewest, body_bytes, next_turn};
ghost use Rattle.hb_super.specs.Moments.{WriteLeaves};

use crate::body::body_of;
use hb_disk::{Device, DiskFault, write_behind_gate};
use hb_layout::{Meta, slot_offset};

/// The byte that a gate is closed with.
const CLOSED: u8 = 0;

/// Writes the superblock of a turn in its place: the gate is closed, the body written, the gate opened, each with a
/// sync. Six device calls.
///
/// Where both places were synced, and the newest turn was the one before, each image of a moment inside has the old
/// superblock as its newest or one of the new turn. It is the new one, unless the place had a body of the new turn
/// behind its closed gate, as a write that was cut short leaves it, and a crash tore that gate open.
pub fn write_super<D: Device>(disk: &mut D, turn: u8, meta: &Meta) -> Result<(), DiskFault>
    requires room { 2 * PAGE ≤ (D.model disk.old).size }
    requires legal { IsLegal turn meta.now }
    ensures wrote { WritesThrough (λ b. overwritten b (slot_offset turn) (open_gate ∷ body_bytes turn meta.now))
        (Torn (slot_offset turn) 41) 6 result (D.model disk.old) (D.model disk.new) }
    ensures clock { IsSome (D.model disk.old).told → OnOk result ((D.model disk.new).clock ≡ (D.model disk.old).clock + 6) }
    ensures newest { (old : ℕ) (said : Said) → turn ≡ next_turn old → OnOk result (IfSome (D.model disk.old).told (λ b.
        IsNewest b old said → IfSome (D.model disk.new).told (λ c. IsNewest c turn meta.now))) }
    ensures moments { (old : ℕ) (said : Said) → turn ≡ next_turn old → IsSynced (D.model disk.old) 0 (2 * PAGE) →
        IfSome (D.model disk.old).told (λ b. IsNewest b old said →
        Leaves (D.model disk.old) (D.model disk.new) (WriteLeaves (D.model disk.old) b old said turn meta.now)) }
{
    let place = slot_offset(turn);
    let body = body_of(turn, meta);
    disk.write(place, &[CLOSED])?;
    disk.sync()?;
    Ok(write_behind_gate(disk, place, &body)?)
}

/// Writes the superblock of turn 0 of a new file, in places that were zeroed and synced: the body, then the gate, each
/// with a sync. Four device calls. Each image of a moment inside has the superblock whole, or none in its place.
pub fn write_first_super<D: Device>(disk: &mut D, meta: &Meta) -> Result<(), DiskFault>
    requires room { 2 * PAGE ≤ (D.model disk.old).size }
    requires legal { IsLegal 0 meta.now }
    requires closed { IsSome (D.model disk.old).told →
        (c : List ℕ) → (D.model disk.old).Image c → get_or c 0 0 ≢ open_gate }
    ensures wrote { WritesThrough (λ b. overwritten b 0 (open_gate ∷ body_bytes 0 meta.now))
        (Torn 0 41) 4 result (D.model disk.old) (D.model disk.new) }
    ensures newest { OnOk result (IfSome (D.model disk.old).told (λ b. get_or b PAGE 0 ≢ open_gate →
        IfSome (D.model disk.new).told (λ c. IsNewest c 0 meta.now))) }
    ensures moments { IsSome (D.model disk.old).told → Leaves (D.model disk.old) (D.model disk.new)
        (λ c. (b : List ℕ) × (D.model disk.old).Image b × FrameOrNot 0 (body_bytes 0 meta.now) b c) }
{
    let body = body_of(0, meta);
    Ok(write_behind_gate(disk, slot_offset(0), &body)?)
}
