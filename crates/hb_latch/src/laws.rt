//! What follows of modes and tables from their definitions alone. Each law is the contract of a
//! function that does nothing: a caller learns it by the call.

ghost use Rattle.std.specs.Prelude.{◌≡◌, ◌==◌, ◌&&◌, ◌+◌, ◌↔◌, ℕ, IsSome, false, Some, None, if◌then◌else◌};
ghost use Rattle.std.specs.FinMap as map;
ghost use Rattle.hb_latch.specs.declared.modes.Mode.{Mode as Manner};
ghost use Rattle.hb_latch.specs.declared.modes.Mode.TheVariants.{Exclusive};
ghost use Rattle.hb_latch.specs.Modes.{goes_beside};
ghost use Rattle.hb_latch.specs.Tables.{HeldModes, LatchTable, mode_at, latches_of, IsGrantable, KeepsFrom, AreCompatible};

/// Whether two modes go beside each other is the same from both sides, and nothing goes beside an
/// exclusive latch.
#[tactic(auto, using(crate::proofs::Compatible::both_ways))]
pub fn going_beside_is_mutual()
    ensures symmetric { (mode other : Manner) → goes_beside mode other ≡ goes_beside other mode }
    ensures alone { (other : Manner) → goes_beside Exclusive other ≡ false }
{}

/// What is taken or promoted changes one latch, and so does what is released.
#[tactic(auto, using(crate::proofs::Compatible::after_insert, crate::proofs::Compatible::after_remove))]
pub fn each_call_changes_one_latch()
    ensures taken { (table : LatchTable) (actor page other elsewhere : ℕ) (mode : Manner) →
        mode_at (map.insert table (actor, page) mode) other elsewhere
        ≡ (if (other == actor) && (elsewhere == page) then Some mode else mode_at table other elsewhere) }
    ensures released { (table : LatchTable) (actor page other elsewhere : ℕ) →
        mode_at (map.remove table (actor, page)) other elsewhere
        ≡ (if (other == actor) && (elsewhere == page) then None else mode_at table other elsewhere) }
{}

/// A latch that is taken counts once, for its actor; a promotion changes no count; and what is
/// released counted once.
#[tactic(auto, using(crate::proofs::Counts::count_taken, crate::proofs::Counts::count_released))]
pub fn each_latch_counts_once()
    ensures taken { (table : LatchTable) (actor page other : ℕ) (mode : Manner) →
        mode_at table actor page ≡ None → latches_of (map.insert table (actor, page) mode) other
        ≡ latches_of table other + (if actor == other then 1 else 0) }
    ensures promoted { (table : LatchTable) (actor page other : ℕ) (mode : Manner) →
        IsSome (mode_at table actor page) →
        latches_of (map.insert table (actor, page) mode) other ≡ latches_of table other }
    ensures released { (table : LatchTable) (actor page other : ℕ) →
        IsSome (mode_at table actor page) →
        latches_of (map.remove table (actor, page)) other + (if actor == other then 1 else 0)
        ≡ latches_of table other }
{}

/// Where the latches of different actors on one page go beside each other, they do so after each
/// call, too: no latch is held, one is taken or promoted where the others allow it, one is released.
#[tactic(auto, using(crate::proofs::Compatible::none_compatible, crate::proofs::Compatible::taken_compatible, crate::proofs::Compatible::released_compatible))]
pub fn compatible_latches_stay_compatible()
    ensures none { AreCompatible (mode_at map.empty) }
    ensures taken { (table : LatchTable) (actor page : ℕ) (mode : Manner) → AreCompatible (mode_at table) →
        IsGrantable (mode_at table) actor page mode → AreCompatible (mode_at (map.insert table (actor, page) mode)) }
    ensures released { (table : LatchTable) (actor page : ℕ) → AreCompatible (mode_at table) →
        AreCompatible (mode_at (map.remove table (actor, page))) }
{}

/// An actor may have a page exactly where no other actor keeps it from it.
#[tactic(auto, using(crate::proofs::Facts::InTheWay::nobody_keeps, crate::proofs::Facts::InTheWay::none_keeps))]
pub fn what_nobody_keeps_may_be_had()
    ensures { (modes : HeldModes) (actor page : ℕ) (mode : Manner) →
        IsGrantable modes actor page mode
        ↔ ((other : ℕ) → ¬ (KeepsFrom modes actor page mode other)) }
{}
