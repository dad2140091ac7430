//! What a file is by its superblock and its log. Nothing is written.
ghost use Rattle.std.specs.Prelude.{IfOk, IfErr, IfSome, IsErrOf};
ghost use Rattle.hb_disk.specs.Calls.{ReadsOnly};
ghost use Rattle.hb_restart.specs.Refusals.{IsRefusal};
ghost use Rattle.hb_restart.specs.Found.{IsReadIn, IsWholeRead};
ghost use Rattle.hb_restart.specs.declared.faults.OpenFault.TheVariants.{DiskFault};

use crate::faults::OpenFault;
use hb_disk::Device;
use hb_layout::file_size;
use hb_ops::Meta;
use hb_space::form::PAGE;
use hb_store::{Touched, read_log};
use hb_super::read_super;
use std::alloc::Global;

/// The turn of a file's newest superblock, what that says, and what the log makes of the file.
#[derive(Drop)]
pub(crate) struct LogRead {
    pub(crate) turn: u8,
    pub(crate) said: Meta,
    pub(crate) touched: Touched,
}

/// Reads the newest superblock and its log, or says why there is none to read. The tests come in the order in which
/// `recover` names them.
pub(crate) fn read_file<D: Device>(alloc: Global, disk: &mut D) -> Result<LogRead, OpenFault>
    ensures read { IfOk result (λ read. IfSome (D.model disk.old).told (λ b. IsReadIn b read)) }
    ensures whole { IfOk result (IsWholeRead (D.model disk.old).size) }
    ensures refused { IfErr result (IsRefusal (D.model disk.old)) }
    ensures only { ReadsOnly (IsErrOf result DiskFault) (D.model disk.old) (D.model disk.new) }
{
    let found = disk.size();
    if found < 2 * PAGE as u64 {
        return Err(OpenFault::Small {
            needed: 2 * PAGE as u64,
            found,
        });
    }
    let (turn, said) = read_super(disk)?;
    let needed = file_size(&said);
    if found < needed {
        return Err(OpenFault::Small { needed, found });
    }
    let touched = read_log(alloc, disk, turn, &said)?;
    Ok(LogRead {
        turn,
        said,
        touched,
    })
}
