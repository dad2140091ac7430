//! What kept a call from its end, in plain words. The output and the status don't tell a missing file from a locked one;
//! a line on the standard error does.

ghost use Rattle.std.specs.Prelude.{◌≡◌, ◌↔◌, IfErr, IsErr, IsErrOf};

use std::fmt::{Display, Formatter};
use std::{fmt, io};

/// What the program asked of the system.
#[derive(Clone, Copy, Debug, PartialEq, Eq)]
pub enum Attempt {
    /// To open a file that is there.
    Open,
    /// To lock it.
    Lock,
    /// To find no file under the name of a new one.
    Find,
    /// To make the new file beside its name, as `.hbpi-new-` with this number behind it.
    Make(u32),
    /// To give it its size.
    Size,
    /// To give it its name.
    Name,
    /// To sync the folder that it stands in.
    SyncFolder,
    Read,
    Write,
    Sync,
}

impl Attempt {
    /// What was attempted, in the words of a sentence that says why it failed. The last ones stand for `Make`, whose
    /// number follows.
    fn words(self) -> &'static str {
        match self {
            Attempt::Open => "can't be opened for reading and writing",
            Attempt::Lock => "can't be locked",
            Attempt::Find => "can't be made",
            Attempt::Size => "can't be given its size",
            Attempt::Name => "can't be given its name",
            Attempt::SyncFolder => "its folder can't be synced",
            Attempt::Read => "a read failed",
            Attempt::Write => "a write failed",
            Attempt::Sync => "a sync failed",
            Attempt::Make(_) => "can't be made beside it, as",
        }
    }

    /// The value, or what was attempted and why it failed.
    pub(crate) fn of<T>(self, done: io::Result<T>) -> Result<T, Trouble>
        ensures fails { IsErr result ↔ IsErr done }
        ensures attempt { IfErr result (λ trouble. trouble.attempt ≡ self) }
        ensures error { IfErr result (λ trouble. IsErrOf done trouble.error) }
    {
        match done {
            Ok(value) => Ok(value),
            Err(error) => Err(Trouble {
                attempt: self,
                error,
            }),
        }
    }
}

impl Display for Attempt {
    fn fmt<W: fmt::Write>(&self, f: &mut Formatter<W>) -> fmt::Result {
        let words = self.words();
        match self {
            Attempt::Make(number) => write!(f, "{words} .hbpi-new-{number}"),
            _ => f.pad(words),
        }
    }
}

/// A call of the system that failed. It is displayed as the words behind the file's name.
#[derive(Clone, Copy)]
pub struct Trouble {
    pub attempt: Attempt,
    /// What the system answered.
    pub error: io::Error,
}

impl Display for Trouble {
    fn fmt<W: fmt::Write>(&self, f: &mut Formatter<W>) -> fmt::Result {
        let Trouble { attempt, error } = self;
        match (attempt, error.kind()) {
            (Attempt::Lock | Attempt::Make(_), io::ErrorKind::WouldBlock) => {
                write!(f, "{attempt}: another program has it")
            }
            (Attempt::Find | Attempt::Name, io::ErrorKind::AlreadyExists) => {
                write!(f, "{attempt}: one of this name is there")
            }
            (Attempt::Make(_), io::ErrorKind::NotFound) => {
                write!(f, "{attempt}: its folder isn't there")
            }
            (_, io::ErrorKind::UnexpectedEof) => {
                write!(f, "{attempt}: the file is shorter than it was")
            }
            _ => write!(f, "{attempt}: {error}"),
        }
    }
}

impl From<Trouble> for io::Error {
    fn from(trouble: Trouble) -> io::Error {
        trouble.error
    }
}
