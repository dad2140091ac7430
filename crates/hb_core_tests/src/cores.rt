//! Cores over new files of one attribute in memory. Where something is `None`, memory was refused.
ghost use Rattle.std.specs.Prelude.{[], All, IfSome, IsTrue};
ghost use Rattle.hb_ops.specs.Files.{FileState};
ghost use Rattle.hb_ops.specs.Sound.{IsSound};
ghost use Rattle.hb_store.specs.Keeps.{StoreKeeps};
ghost use Rattle.hb_store.specs.Seen.{disk_of, seen_as};
ghost use Rattle.hb_store.specs.States.{IsNew};
ghost use Rattle.hb_core.specs.CoreSeen.{core_seen, core_disk};
ghost use Rattle.hb_steps.specs.KeptFits.{CommandFits};
ghost use Rattle.hb_steps.specs.KeptLines.{HasBody};
ghost use Rattle.hb_core_tests.specs.Begun.{IsBegunCore, IsFitLine, IsFitScript};

use hb_core::Core;
use hb_disk::{Device, MemDisk};
use hb_restart::{Layout, a_new_file_is_sound, create};
use hb_set::{Command, Line, Script};
use hb_space::Attributes;
use hb_store::Store;
use hb_text::read_commands;
use std::alloc::Global;

/// A file of one attribute and 64 pages.
const LAYOUT: Layout = Layout {
    k: 1,
    pages: 64,
    log: 65_536,
    dcap: 6,
    icap: 32,
};

/// How many bytes its disk has.
const SIZE: usize = 401_408;

/// A disk of zeros for it.
pub(crate) fn zeros(alloc: Global) -> Option<MemDisk> {
    Some(MemDisk::new(alloc, vec![in alloc; 0; SIZE].ok()?))
}

/// Whether a command is over one attribute. Its body and its box are what their types keep.
fn has_one(command: &Command) -> bool
    ensures one { IsTrue result → CommandFits 1 command.now }
    ensures body { HasBody command.now }
{
    match command {
        Command::Insert(record) => {
            let _bytes = record.body.bytes();
            record.key.attributes() == 1
        }
        Command::Delete(point) => point.attributes() == 1,
        Command::Lookup(point) => point.attributes() == 1,
        Command::Search(area) => area.lo().attributes() == 1,
    }
}

/// Whether a core over one attribute may take a line.
fn is_fit(line: &Line) -> bool
    ensures { IsTrue result → IsFitLine line.now }
{
    1 <= line.session && line.session <= 16 && has_one(&line.command)
}

/// Whether it may take each of these.
fn are_fit(lines: &[Line]) -> bool
    ensures { IsTrue result → All IsFitLine lines.now }
{
    lines.iter().all(|line| is_fit(line))
}

/// The script of a text over one attribute.
fn script_of(alloc: Global, text: &str) -> Option<Script>
    ensures { IfSome result (λ script. IsFitScript script.lines script.steps) }
{
    match read_commands(alloc, text.as_bytes(), Attributes { number: 1 }, true) {
        Ok(script) => {
            if are_fit(script.lines.as_slice()) {
                Some(script)
            } else {
                None
            }
        }
        Err(_) => None,
    }
}

/// A core of a script over a store that has begun.
fn begun_over<D: Device + Drop>(alloc: Global, store: Store<D>, script: Script) -> Option<Core<D>>
    requires new { IsNew (seen_as store).turn (seen_as store).meta (seen_as store) }
    requires sound { IfSome (D.model (disk_of store)).told (λ b. (s : FileState) × IsSound s × StoreKeeps (D.model (disk_of store)) (seen_as store) s []) }
    requires script { IsFitScript script.lines script.steps }
    ensures begun { IfSome result (λ c. IsBegunCore (D.model (core_disk c)) (core_seen c)) }
{
    let meta = store.meta();
    if meta.k != 1 || meta.high == 0 {
        return None;
    }
    match Core::over(alloc, store, script) {
        Ok(core) => Some(core),
        Err(_) => None,
    }
}

/// A core of a text over a new file on a disk.
pub(crate) fn begun<D: Device + Drop>(alloc: Global, disk: D, text: &str) -> Option<Core<D>>
    ensures { IfSome result (λ c. IsBegunCore (D.model (core_disk c)) (core_seen c)) }
{
    a_new_file_is_sound();
    let script = script_of(alloc, text)?;
    match create(alloc, disk, LAYOUT) {
        Ok(store) => begun_over(alloc, store, script),
        Err(_) => None,
    }
}
