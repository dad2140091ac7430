//! The next turn begins.
//!
//! Every page stands in its place before its superblock is written, and its log area reads as zeros. So it doesn't matter
//! which of the two superblocks a crash leaves as the newest.
ghost use Rattle.std.specs.Prelude.{◌≡◌, ◌≤◌, ◌+◌, ℕ, IsSome, Option, OnOk};
ghost use Rattle.hb_disk.specs.Calls.{Leaves};
ghost use Rattle.hb_disk.specs.Runs.{Rewrites};
ghost use Rattle.hb_frag.specs.declared.pages.Page.{Page as Content};
ghost use Rattle.hb_layout.specs.declared.meta.Meta.{Meta as Said};
ghost use Rattle.hb_layout.specs.Offsets.{file_size};
ghost use Rattle.hb_ops.specs.Files.{FileState};
ghost use Rattle.hb_super.specs.Superblocks.{IsLegal, next_turn};
ghost use Rattle.hb_store.specs.Keeps.{IsFresh};
ghost use Rattle.hb_store.specs.Switching.{TornSwitch};
ghost use Rattle.hb_store.specs.Turning.{MayTurn, OpensByEither};

use hb_disk::{Device, DiskFault};
use hb_layout::log_start;
use hb_ops::Meta;
use hb_super::write_super;
use hb_wal::zero_area;

/// Begins a turn over a disk whose pages stand in their places: syncs, so that they stand there whatever a crash leaves, zeroes
/// the log area, and writes the superblock. Nine device calls, and at most nine where it
/// fails.
pub fn begin_turn<D: Device>(disk: &mut D, turn: u8, meta: &Meta) -> Result<(), DiskFault>
    requires legal { IsLegal turn meta.now }
    requires room { file_size meta.now ≤ (D.model disk.old).size }
    // every image of each moment opens to the same file
    ensures moments { (before : ℕ) (said : Said) (touched : ℕ → Option Content) (s : FileState) → turn ≡ next_turn before →
        MayTurn (D.model disk.old) before said meta.now touched s →
        Leaves (D.model disk.old) (D.model disk.new) (OpensByEither before said meta.now touched s) }
    ensures fresh { OnOk result ((before : ℕ) (said : Said) (touched : ℕ → Option Content) (s : FileState) → turn ≡ next_turn before →
        MayTurn (D.model disk.old) before said meta.now touched s → IsFresh (D.model disk.new) turn meta.now s) }
    // only the log area and the superblock's place change
    ensures wrote { (before : ℕ) → turn ≡ next_turn before →
        Rewrites (TornSwitch before meta.now) 9 result (D.model disk.old) (D.model disk.new) }
    ensures clock { IsSome (D.model disk.old).told → OnOk result ((D.model disk.new).clock ≡ (D.model disk.old).clock + 9) }
{
    disk.sync()?;
    zero_area(disk, log_start(turn, meta), meta.log)?;
    write_super(disk, turn, meta)
}
