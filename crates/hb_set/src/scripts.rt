ghost use Rattle.std.specs.Prelude.{◌≡◌};

use crate::{Command, Reply};
use hb_space::Actor;
use std::marker::Model;

/// A command of a session, and the number of its line in the text.
#[derive(Debug, Drop)]
pub struct Line {
    /// The number of the line, from 1.
    pub number: u32,
    /// The session.
    pub session: Actor,
    pub command: Command,
}

/// The command lines of a script, in the order of the text.
#[derive(Debug, Drop)]
pub struct Lines {
    lines: Vec<Line>,
}

impl Model for Lines {
    ghost use Rattle.std.specs.Prelude.{List};
    ghost use Rattle.hb_set.specs.declared.scripts.Line.{Line};

    ghost Value = { List Line };

    ghost view = { λ l. l.lines.items };
}

impl Lines {
    /// The lines of the vector, as they stand in it.
    pub fn new(lines: Vec<Line>) -> Lines
        ensures { result ≡ lines.items }
    {
        Lines { lines }
    }

    /// The lines.
    pub fn as_slice(&self) -> &[Line]
        ensures { result.now ≡ self.now }
    {
        &self.lines
    }

    /// The vector of the lines.
    pub fn into_vec(self) -> Vec<Line>
        ensures { result.items ≡ self }
    {
        self.lines
    }
}

/// A schedule: who takes each step.
#[derive(Debug, Drop)]
pub struct Steps {
    actors: Vec<Actor>,
}

impl Model for Steps {
    ghost use Rattle.std.specs.Prelude.{List, ℕ};

    ghost Value = { List ℕ };

    ghost view = { λ s. s.actors.items };
}

impl Steps {
    /// The steps of the vector, as they stand in it.
    pub fn new(actors: Vec<Actor>) -> Steps
        ensures { result ≡ actors.items }
    {
        Steps { actors }
    }

    /// Who takes each step.
    pub fn as_slice(&self) -> &[Actor]
        ensures { result.now ≡ self.now }
    {
        &self.actors
    }

    /// The vector of the steps.
    pub fn into_vec(self) -> Vec<Actor>
        ensures { result.items ≡ self }
    {
        self.actors
    }
}

/// What a command text says: its command lines, and the steps of its step lines.
#[derive(Debug, Drop)]
pub struct Script {
    pub lines: Lines,
    pub steps: Steps,
}

/// A line that was answered.
#[derive(Debug, Drop)]
pub struct Answered {
    /// The number of the line.
    pub line: u32,
    pub reply: Reply,
    /// The disk's clock at the end of the step that answered it, and 0 where there is no disk.
    pub at: u64,
}
