ghost use Rattle.std.specs.Prelude.{◌≡◌, ◌+◌, ◌<◌, ◌↔◌, IsTrue};

use hb_space::Point;
use std::hash::{Hash, Hasher};

/// What a worker is to do.
#[derive(Clone, Copy, Debug, PartialEq, Eq)]
pub enum JobKind {
    /// Post the index terms that a page owes.
    Post,
    /// Merge a page with a neighbour.
    Merge,
}

/// A job for a worker. A page isn't named, since a number may be another page's by then: the job
/// is done at the page of the level that directly holds the point.
#[derive(Debug, PartialEq, Eq, Drop)]
pub struct Job {
    pub kind: JobKind,
    pub level: u8,
    pub point: Point,
}

impl Hash for Job {
    ghost use Rattle.std.specs.Prelude.{◌++◌};
    ghost use Rattle.std.specs.Hash as fed;
    ghost use Rattle.std.specs.Cmp.Rules.{hashing};
    ghost use Rattle.std.proofs.Common.{rules};

    ghost hash_input = { λ job. fed.u8 job.level ++ fed.slice fed.u64 job.point };

    ghost respects_eq = { Prim.search (hashing, rules) };

    // Both kinds hash alike, since few jobs of both wait at one point.
    fn hash<H: Hasher>(&self, state: &mut H) {
        self.level.hash(state);
        self.point.values().hash(state);
    }
}

impl Job {
    ghost use Rattle.hb_activity.specs.Queue.{is_of};

    /// The same job once more.
    pub fn copy(&self) -> Job
        ensures { result ≡ self.now }
    {
        Job {
            kind: self.kind,
            level: self.level,
            point: self.point.copy(),
        }
    }

    /// The posting that the parent of a page owes, as a sibling leaf of the page at the point shows. The page is of the
    /// level.
    pub fn owed(level: u8, point: Point) -> Job
        requires { level < 255 }
        ensures { result ≡ record { kind = JobKind.Post; level = level + 1; point = point } }
    {
        Job {
            kind: JobKind::Post,
            level: level + 1,
            point,
        }
    }

    // Whether it is of the kind.
    pub(crate) fn is_of(&self, kind: JobKind) -> bool
        ensures value { result ≡ is_of kind self.now }
        ensures kind { IsTrue result ↔ (self.now.kind ≡ kind) }
    {
        self.kind == kind
    }

    // Whether it is the other one.
    pub(crate) fn is(&self, other: &Job) -> bool
        ensures { IsTrue result ↔ (self.now ≡ other.now) }
    {
        self == other
    }
}
