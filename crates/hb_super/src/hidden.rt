//! What stands behind a closed gate.
ghost use Rattle.std.specs.Prelude.{◌≡◌, ◌≢◌, ◌⊎◌, ℕ, ◌+◌, ◌*◌, ◌≤◌, List, length, drop, get_or, replicate, false, IsTrue, IsErr, IfSome, IfOk, OnOk};
ghost use Rattle.hb_space.specs.declared.form.TheConstants.{PAGE};
ghost use Rattle.hb_disk.specs.Model.{Torn, overwritten};
ghost use Rattle.hb_disk.specs.Calls.{Leaves, IsSynced, ReadsOnly, OnlyReads, open_gate};
ghost use Rattle.hb_disk.specs.Runs.{WritesThrough};
ghost use Rattle.hb_layout.specs.declared.meta.Meta.{Meta as Said};
ghost use Rattle.hb_layout.specs.Offsets.{slot_offset};
ghost use Rattle.hb_super.specs.Superblocks.{IsLegal, IsNewest, next_turn};
ghost use Rattle.hb_super.specs.Moments.{NoOther, HidesNoOther, SaysOf, IsOther, HidesOther, Clears, ClearLeaves};

use crate::body::{BODY, body_of, fields_of};
use hb_disk::{Device, DiskFault, OPEN};
use hb_layout::{Meta, slot_offset};
use hb_outside::Failed;

/// What a body of the turn says. None: it is no legal body of this turn.
fn said_in(body: &[u8], turn: u8) -> Option<Meta>
    requires long { length body.now ≡ 40 }
    requires turn { turn ≤ 3 }
    ensures { SaysOf turn result body.now }
{
    let (found, said) = fields_of(body);
    if found == turn && said.is_layout() && body == body_of(turn, &said).as_slice() {
        Some(said)
    } else {
        None
    }
}

/// Whether two say something else.
fn differ(one: &Meta, other: &Meta) -> bool
    ensures other { IsTrue result → one.now ≢ other.now }
    ensures same { result ≡ false → one.now ≡ other.now }
{
    *one != *other
}

/// Whether the first 41 bytes of a place are a closed gate over a body of the turn that says something else.
fn is_other(bytes: &[u8], turn: u8, meta: &Meta) -> bool
    requires long { length bytes.now ≡ 41 }
    requires turn { turn ≤ 3 }
    ensures other { IsTrue result → IsOther turn meta.now (get_or bytes.now 0 0) (drop 1 bytes.now) }
    ensures none { result ≡ false → NoOther turn meta.now (get_or bytes.now 0 0) (drop 1 bytes.now) }
{
    match said_in(&bytes[1..], turn) {
        Some(said) => bytes[0] != OPEN && differ(&said, meta),
        None => false,
    }
}

/// Whether the place of the turn is closed over a body of the turn that says something else.
fn hides_other<D: Device>(disk: &mut D, turn: u8, meta: &Meta) -> Result<bool, Failed>
    requires room { 2 * PAGE ≤ (D.model disk.old).size }
    requires turn { turn ≤ 3 }
    ensures other { IfOk result (λ hides. IsTrue hides →
        IfSome (D.model disk.old).told (λ b. HidesOther b turn meta.now)) }
    ensures none { IfOk result (λ hides. hides ≡ false →
        IfSome (D.model disk.old).told (λ b. HidesNoOther b turn meta.now)) }
    ensures only { ReadsOnly (IsErr result) (D.model disk.old) (D.model disk.new) }
{
    let mut bytes = [0; 1 + BODY];
    disk.read(slot_offset(turn), &mut bytes)?;
    Ok(is_other(&bytes, turn, meta))
}

/// Zeroes the body of the turn's place, and syncs.
fn zero_body<D: Device>(disk: &mut D, turn: u8) -> Result<(), Failed>
    requires room { 2 * PAGE ≤ (D.model disk.old).size }
    ensures hidden { OnOk result (IfSome (D.model disk.new).told (λ b. (meta : Said) → HidesNoOther b turn meta)) }
    ensures wrote { WritesThrough (λ b. overwritten b (slot_offset turn + 1) (replicate 40 0))
        (Torn (slot_offset turn + 1) 40) 2 result (D.model disk.old) (D.model disk.new) }
    ensures moments { Leaves (D.model disk.old) (D.model disk.new)
        (λ c. (a : List ℕ) × (D.model disk.old).Image a × Torn (slot_offset turn + 1) 40 a c) }
{
    disk.zero(slot_offset(turn) + 1, BODY as u64)?;
    disk.sync()
}

/// Where the place of this turn stands closed over a body of the turn that says something else than `meta`, zeroes that
/// body and syncs: a write that was cut short left it there, and a crash while the gate is next closed could uncover
/// it. Else it does nothing. One read, and at most two device calls that write.
///
/// It fails where the disk does. Then the body may hold any bytes, still behind its closed gate.
pub fn clear_hidden<D: Device>(disk: &mut D, turn: u8, meta: &Meta) -> Result<(), DiskFault>
    requires room { 2 * PAGE ≤ (D.model disk.old).size }
    requires legal { IsLegal turn meta.now }
    ensures did { Clears turn result (D.model disk.old) (D.model disk.new) }
    ensures hidden { OnOk result (IfSome (D.model disk.new).told (λ b. HidesNoOther b turn meta.now)) }
    ensures nothing { IfSome (D.model disk.old).told (λ b.
        HidesNoOther b turn meta.now → OnlyReads (D.model disk.old) (D.model disk.new)) }
    ensures closed { IfSome (D.model disk.old).told (λ b.
        (get_or b (slot_offset turn) 0 ≢ open_gate) ⊎ OnlyReads (D.model disk.old) (D.model disk.new)) }
    ensures moments { (old : ℕ) (said : Said) → turn ≡ next_turn old → IsSynced (D.model disk.old) 0 (2 * PAGE) →
        IfSome (D.model disk.old).told (λ b. IsNewest b old said →
        Leaves (D.model disk.old) (D.model disk.new) (ClearLeaves (D.model disk.old) old said turn)) }
    ensures newest { (old : ℕ) (said : Said) → turn ≡ next_turn old → IfSome (D.model disk.old).told (λ b.
        IsNewest b old said → IfSome (D.model disk.new).told (λ c. IsNewest c old said)) }
{
    if !hides_other(disk, turn, meta)? {
        return Ok(());
    }
    Ok(zero_body(disk, turn)?)
}
