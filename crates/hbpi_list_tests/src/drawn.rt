//! A hundred schedules drawn from seeds, of one to four sessions, the poster and the flusher, over one or two attributes, with a
//! reopening in the middle; and a hundred in which points come, go and come again, with the consolidator, too. What is printed and kept is
//! compared with a plain list by the printed order. And drawn texts for `dry`.

use crate::ordered::{Commands, EMPTY, Plain, Told, Verb, holds, told_by};
use crate::runs::{drive_on, left_of, run_on};
use std::alloc::Global;

/// A number of 0 to 7.
fn drawn(seed: &mut u64) -> u64 {
    *seed = seed
        .wrapping_mul(6364136223846793005)
        .wrapping_add(1442695040888963407);
    *seed >> 61
}

/// How many points commands are drawn on: 24, 64, or 1,024.
#[derive(Clone, Copy)]
pub(crate) enum Rows {
    Three,
    Eight,
    All,
}

/// What commands are drawn of, and how many.
pub(crate) struct Wave {
    pub(crate) verbs: [Verb; 8],
    pub(crate) rows: Rows,
    pub(crate) commands: usize,
    /// How often somebody steps.
    pub(crate) turns: usize,
    /// Who steps beside the sessions and the poster, after its letter.
    pub(crate) beside: &'static str,
}

/// All verbs on 64 points.
const MIXED: Wave = Wave {
    verbs: [
        Verb::Insert,
        Verb::Insert,
        Verb::Insert,
        Verb::Insert,
        Verb::Insert,
        Verb::Delete,
        Verb::Lookup,
        Verb::Search,
    ],
    rows: Rows::Eight,
    commands: 20,
    turns: 30,
    beside: "f",
};

/// Points that come, and points that go.
const FILLING: Wave = Wave {
    verbs: [
        Verb::Insert,
        Verb::Insert,
        Verb::Insert,
        Verb::Insert,
        Verb::Insert,
        Verb::Insert,
        Verb::Lookup,
        Verb::Search,
    ],
    rows: Rows::Three,
    commands: 40,
    turns: 60,
    beside: "c",
};

const DRAINING: Wave = Wave {
    verbs: [
        Verb::Delete,
        Verb::Delete,
        Verb::Delete,
        Verb::Delete,
        Verb::Delete,
        Verb::Delete,
        Verb::Delete,
        Verb::Search,
    ],
    rows: Rows::Three,
    commands: 40,
    turns: 60,
    beside: "c",
};

/// What a case is drawn from.
#[derive(Drop)]
pub(crate) struct Draw {
    pub(crate) k: u8,
    pub(crate) sessions: u64,
    pub(crate) seed: u64,
}

impl Draw {
    fn new(seed: u64) -> Draw {
        Draw {
            k: if seed % 8 < 4 { 1 } else { 2 },
            sessions: seed % 4 + 1,
            seed,
        }
    }

    /// The session behind this number, or the first one where there is none.
    fn session(&self, number: u64) -> u8 {
        if number < self.sessions {
            (number % 4) as u8 + 1
        } else {
            1
        }
    }

    /// A row of eight points.
    fn row(&mut self, rows: Rows) -> u64 {
        let one = drawn(&mut self.seed) % 8;
        match rows {
            Rows::Three => one % 3,
            Rows::Eight => one,
            Rows::All => {
                let two = drawn(&mut self.seed) % 8;
                one * 16 + two * 2 + drawn(&mut self.seed) % 2
            }
        }
    }

    /// Adds a command of some session to the commands.
    fn command(&mut self, commands: &mut Commands, wave: &Wave) -> Option<()> {
        let number = drawn(&mut self.seed) % 4;
        let session = self.session(number);
        let row = self.row(wave.rows);
        let place = row.wrapping_mul(8).wrapping_add(drawn(&mut self.seed) % 8);
        let verb = *wave.verbs.get(drawn(&mut self.seed) as usize)?;
        commands.add(session, verb, place as usize)
    }

    /// Up to eight steps of a session, of the poster, or of who is beside it.
    fn steps(&mut self, text: &mut String, beside: &str) -> Option<()> {
        let actor = drawn(&mut self.seed) % 6;
        let count = drawn(&mut self.seed) % 8 + 1;
        if actor == 5 {
            return write!(text, " {beside}x{count}").ok();
        }
        if actor == 4 {
            return write!(text, " px{count}").ok();
        }
        let session = self.session(actor);
        write!(text, " {session}x{count}").ok()
    }

    /// The commands of a wave, and its steps.
    pub(crate) fn commands(&mut self, alloc: Global, wave: &Wave, from: usize) -> Option<Commands> {
        let mut commands = Commands::new(alloc, self.k, from);
        for _ in 0..wave.commands {
            self.command(&mut commands, wave)?;
        }
        for number in 0..wave.turns {
            if number % 30 == 0 {
                commands.text.push_str("\nstep").ok()?;
            }
            self.steps(&mut commands.text, wave.beside)?;
        }
        commands.text.push('\n').ok()?;
        Some(commands)
    }
}

/// A new file of so many attributes.
fn new_file(alloc: Global, k: u8) -> Option<Vec<u8>> {
    let words = if k == 1 {
        "create 1 16 65536 6 32"
    } else {
        "create 2 16 65536 6 32"
    };
    left_of(alloc, words, &[], 204_800, 0)
}

/// Drives the commands over a file with these records. What comes of it is told, with the file that is left.
pub(crate) fn driven(
    alloc: Global,
    commands: &Commands,
    before: Plain,
    file: &[u8],
) -> Option<(Told, Vec<u8>)> {
    let left = drive_on(alloc, commands.text.as_str(), file)?;
    let told = told_by(commands, before, left.said.as_str())?;
    let bytes = Vec::from_slice(alloc, left.disk.bytes()).ok()?;
    Some((told, bytes))
}

/// Steps enough for what is left of commands, in so many rounds.
pub(crate) fn finish(text: &mut String, rounds: usize) -> Option<()> {
    for _ in 0..rounds {
        text.push_str("step 1x8 2x8 3x8 4x8 px8 cx8\n").ok()?;
    }
    Some(())
}

/// Whether a case is right. Its first run is cut off by its schedule: what isn't settled then is lost.
fn is_right(alloc: Global, seed: u64) -> Option<bool> {
    let mut draw = Draw::new(seed);
    let first = draw.commands(alloc, &MIXED, 0)?;
    let (one, file) = driven(alloc, &first, EMPTY, &new_file(alloc, draw.k)?)?;
    let mut second = draw.commands(alloc, &MIXED, 100)?;
    finish(&mut second.text, 30)?;
    let (two, file) = driven(alloc, &second, one.settled, file.as_slice())?;
    if !two.done {
        return Some(false);
    }
    holds(alloc, file.as_slice(), draw.k, 64, two.whole, two.whole)
}

/// Whether a hundred such cases are right.
pub(crate) fn schedules(alloc: Global) -> Option<bool> {
    for seed in 0..100 {
        if !is_right(alloc, seed)? {
            return Some(false);
        }
    }
    Some(true)
}

/// Drives a whole wave of commands over a file with these records.
fn wave_over(
    alloc: Global,
    draw: &mut Draw,
    wave: &Wave,
    from: usize,
    before: Plain,
    file: &[u8],
) -> Option<(Told, Vec<u8>)> {
    let mut commands = draw.commands(alloc, wave, from)?;
    finish(&mut commands.text, 30)?;
    driven(alloc, &commands, before, file)
}

/// Whether a case is right whose points come, go and come again. Its last run is cut off by its schedule.
fn comes_and_goes(alloc: Global, seed: u64) -> Option<bool> {
    let mut draw = Draw::new(seed);
    let file = new_file(alloc, draw.k)?;
    let (come, file) = wave_over(alloc, &mut draw, &FILLING, 0, EMPTY, file.as_slice())?;
    if !come.done {
        return Some(false);
    }
    let (gone, file) = wave_over(
        alloc,
        &mut draw,
        &DRAINING,
        100,
        come.whole,
        file.as_slice(),
    )?;
    if !gone.done {
        return Some(false);
    }
    let last = draw.commands(alloc, &FILLING, 200)?;
    let (told, file) = driven(alloc, &last, gone.whole, file.as_slice())?;
    let plain = told.settled;
    holds(alloc, file.as_slice(), draw.k, 24, plain, plain)
}

/// Whether a hundred such cases are right.
pub(crate) fn comings(alloc: Global) -> Option<bool> {
    for seed in 100..200 {
        if !comes_and_goes(alloc, seed)? {
            return Some(false);
        }
    }
    Some(true)
}

/// Whether `dry` answers drawn commands as the plain list does.
fn is_dry(alloc: Global, seed: u64) -> Option<bool> {
    let mut draw = Draw::new(seed);
    let mut commands = Commands::new(alloc, draw.k, 0);
    for _ in 0..62 {
        draw.command(&mut commands, &MIXED)?;
    }
    let words = if draw.k == 1 { "dry 1" } else { "dry 2" };
    let left = run_on(alloc, words, commands.text.as_str(), &[])?;
    Some(told_by(&commands, EMPTY, left.said.as_str())?.done)
}

/// Whether it does so for eight seeds over each number of attributes.
pub(crate) fn dry_texts(alloc: Global) -> Option<bool> {
    for seed in 0..16 {
        if !is_dry(alloc, seed)? {
            return Some(false);
        }
    }
    Some(true)
}
