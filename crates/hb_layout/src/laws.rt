//! What follows of offsets from their definitions alone. Each law is the contract of a function that
//! does nothing: a caller learns it by the call.

ghost use Rattle.std.specs.Prelude.{◌≢◌, ℕ, ◌+◌, ◌<◌, ◌≤◌, ◌%◌};
ghost use Rattle.hb_space.specs.declared.form.TheConstants.{PAGE};
ghost use Rattle.hb_layout.specs.declared.meta.Meta.{Meta as Said};
ghost use Rattle.hb_layout.specs.Offsets.{file_size, log_start, page_offset, slot_offset};

/// The parts of a file stand one behind the other: the slot of a turn, the log areas behind both
/// slots, the pages behind both areas, and all of them in the file.
#[tactic(auto, using(crate::proofs::Facts::Parts::log_within, crate::proofs::Facts::Parts::page_within))]
pub fn parts_of_a_file_stand_apart()
    ensures slots { (turn other : ℕ) → turn % 2 < other % 2 → slot_offset turn + PAGE ≤ slot_offset other }
    ensures logs { (turn other : ℕ) (meta : Said) → turn % 2 < other % 2 → log_start turn meta + meta.log ≤ log_start other meta }
    ensures log_behind_slots { (turn other : ℕ) (meta : Said) → slot_offset turn + PAGE ≤ log_start other meta }
    ensures pages_behind_logs { (turn id : ℕ) (meta : Said) → log_start turn meta + meta.log ≤ page_offset meta id }
    ensures pages { (id other : ℕ) (meta : Said) → 1 ≤ id → id < other → page_offset meta id + PAGE ≤ page_offset meta other }
    ensures inside { (id : ℕ) (meta : Said) → 1 ≤ id → id ≤ meta.pages → page_offset meta id + PAGE ≤ file_size meta }
{}
