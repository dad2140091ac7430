ghost use Rattle.std.specs.Prelude.{◌<◌, length};
ghost use Rattle.hb_outside.specs.Calls.{SourceModel, SinkModel, Took, Puts};

/// A call of a source, a sink or a disk failed.
#[derive(Clone, Copy, Debug, PartialEq, Eq)]
pub struct Failed;

/// Where bytes come from.
///
/// The count of faults rises exactly in the calls that fail.
pub trait Source {
    /// What is left to read, where the source tells, and how often it has failed.
    ghost model: { Self → SourceModel };

    /// Moves the first bytes of what is left to the front of `into`, and answers how many: 0 only
    /// at the end. After `Failed` nothing was taken, and `into` holds any bytes.
    fn take(&mut self, into: &mut [u8]) -> Result<usize, Failed>
        requires { 0 < length into.old }
        ensures took { Took result into.new (model self.old) (model self.new) };
}

/// Where bytes go.
///
/// The count of faults rises exactly in the calls that fail.
pub trait Sink {
    /// What was written, where the sink tells, and how often it has failed.
    ghost model: { Self → SinkModel };

    /// Appends the piece. After `Failed` a front of it was appended.
    fn put(&mut self, piece: &[u8]) -> Result<(), Failed>
        ensures { Puts piece.now result (model self.old) (model self.new) };
}
