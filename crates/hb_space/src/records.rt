ghost use Rattle.std.specs.Prelude.{◌≡◌};

use crate::{Body, Point};
use std::marker::Model;

/// A record: a body under a point.
#[derive(Debug, PartialEq, Eq, PartialOrd, Ord, Drop)]
pub struct Record {
    pub key: Point,
    pub body: Body,
}

impl Record {
    /// The same record once more.
    pub fn copy(&self) -> Record
        ensures { result ≡ self.now }
    {
        Record {
            key: self.key.copy(),
            body: self.body.copy(),
        }
    }
}

/// A list of records.
#[derive(Debug, Drop)]
pub struct Records {
    records: Vec<Record>,
}

impl Model for Records {
    ghost use Rattle.std.specs.Prelude.{List};
    ghost use Rattle.hb_space.specs.declared.records.Record.{Record};

    ghost Value = { List Record };

    ghost view = { λ r. r.records.items };
}

impl Records {
    /// The records of the vector, as they stand in it.
    pub fn new(records: Vec<Record>) -> Records
        ensures { result ≡ records.items }
    {
        Records { records }
    }

    /// The records.
    pub fn as_slice(&self) -> &[Record]
        ensures { result.now ≡ self.now }
    {
        &self.records
    }

    /// The vector of the records.
    pub fn into_vec(self) -> Vec<Record>
        ensures { result.items ≡ self }
    {
        self.records
    }
}
