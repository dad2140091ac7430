ghost use Rattle.std.specs.Prelude.{◌≡◌, ◌+◌, ◌<◌, ◌≤◌, false, length, IsTrue, OnOk, IfOk, IfErr, IsErrOf};
ghost use Rattle.hb_outside.specs.Calls.{Counts};
ghost use Rattle.hbpi.specs.Outcome.{IsTextOf};
ghost use Rattle.hbpi.specs.Taking.{TakesPiece, IsAtEnd, NotTaken};
ghost use Rattle.hbpi.specs.declared.texts.TextStop.TheVariants.{NoMemory};

use hb_outside::Source;
use std::alloc::{AllocError, Global};

/// Why the text could not be read.
#[derive(Clone, Copy)]
pub(crate) enum TextStop {
    SourceFault,
    NoMemory,
}

impl From<AllocError> for TextStop {
    ghost from_gives = { λ _ stop. stop ≡ NoMemory };

    fn from(_refused: AllocError) -> TextStop {
        TextStop::NoMemory
    }
}

/// How many bytes are read at the most: one more than a text has that breaks no rule.
const GREATEST: usize = 257_000_001;

/// How many bytes are taken at a time.
const PIECE: usize = 16384;

/// Takes a piece of at most so many bytes, and adds it to the text. False where the source has
/// ended. An `Err` leaves the text without the piece.
fn take_piece<S: Source>(source: &mut S, text: &mut Vec<u8>, most: usize) -> Result<bool, TextStop>
    requires { 0 < most }
    ensures piece { OnOk result (TakesPiece (S.model source.old).left (S.model source.new).left text.old.items text.new.items) }
    ensures bound { OnOk result (length text.new.items ≤ length text.old.items + most) }
    ensures kept { length text.old.items ≤ length text.new.items }
    ensures grows { IfOk result (λ more. IsTrue more → length text.old.items < length text.new.items) }
    ensures ended { IfOk result (λ more. more ≡ false → IsAtEnd (S.model source.new).left) }
    ensures counts { Counts (IsErrOf result TextStop.SourceFault) (S.model source.old).faults (S.model source.new).faults }
{
    let mut piece = [0; PIECE];
    let room = most.min(PIECE);
    let Ok(taken) = source.take(&mut piece[..room]) else {
        return Err(TextStop::SourceFault);
    };
    text.extend_from_slice(&piece[..taken])?;
    Ok(taken > 0)
}

/// The text that the source has left, up to `GREATEST` bytes.
pub(crate) fn read_text<S: Source>(alloc: Global, source: &mut S) -> Result<Vec<u8>, TextStop>
    ensures text { IfOk result (λ text. IsTextOf (S.model source.old).left (S.model source.new).left text.items × ((S.model source.new).faults ≡ (S.model source.old).faults)) }
    ensures refused { IfErr result (NotTaken (S.model source.old) (S.model source.new)) }
{
    let mut text = Vec::new(alloc);
    let mut more = true;
    while more && text.len() < GREATEST {
        let most = GREATEST - text.len();
        more = take_piece(source, &mut text, most)?;
    }
    Ok(text)
}
