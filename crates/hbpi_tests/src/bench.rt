//! What the rows have made so far, and the answer to each.

use crate::crashes::{calls_by, driven_over, image_of, pick_of, said_behind};
use crate::files::{
    Kept, disk_by, filled_by, frames_by, front_by, is_same, keep, kept_as, name_of, put_by,
    stands_by,
};
use crate::looks::{
    answered_by, are_untouched, calls_of, have_called, have_stopped, height_of, said_by_all,
    turns_of, yes,
};
use crate::rows::{Row, byte_at, number_at, word_at};
use crate::runs::{Asked, Left, Manner, NO_TROUBLE, Trouble, left_of};
use crate::spelling::spelled;
use crate::tallies::{replies_of, tallied};
use hb_disk::Pick;
use std::alloc::Global;
use std::sync::Wait;
use std::thread::Threads;

/// What the rows have made so far.
#[derive(Drop)]
pub(crate) struct Bench {
    pub(crate) alloc: Global,
    /// The bytes that the next run finds.
    file: Vec<u8>,
    /// Those that were kept.
    kept: Vec<Kept>,
    /// What the last run left, or the last runs.
    lefts: Vec<Left>,
    /// What goes wrong in the next run.
    trouble: Trouble,
}

impl Bench {
    pub(crate) fn new(alloc: Global) -> Bench {
        Bench {
            alloc,
            file: Vec::new(alloc),
            kept: Vec::new(alloc),
            lefts: Vec::new(alloc),
            trouble: NO_TROUBLE,
        }
    }

    /// Changes the bytes that the next run finds.
    fn change(&mut self, verb: &str, words: &str) -> Option<()> {
        let alloc = self.alloc;
        match verb {
            "disk" => self.file = disk_by(alloc, words)?,
            "load" => self.file = kept_as(alloc, self.kept.as_slice(), name_of(words))?,
            "put" => put_by(alloc, &mut self.file, words)?,
            "cut" => self.file = front_by(alloc, self.file.as_slice(), words)?,
            "go" => self.file = self.last_bytes()?,
            "image" => self.file = self.image(words)?,
            _ => keep(alloc, &mut self.kept, name_of(words), self.file.as_slice())?,
        }
        Some(())
    }

    /// The bytes that the last run left.
    fn last_bytes(&self) -> Option<Vec<u8>> {
        Vec::from_slice(self.alloc, self.lefts.first()?.disk.bytes()).ok()
    }

    /// What a crash may have left of the last run, by `BEFORE PICK`.
    fn image(&self, words: &str) -> Option<Vec<u8>> {
        let before = number_at(words, 0)?;
        image_of(
            &self.lefts.first()?.disk,
            before,
            pick_of(word_at(words, 1)?),
        )
    }

    /// Says what goes wrong in the next run.
    fn trouble(&mut self, verb: &str, words: &str) -> Option<()> {
        let number = number_at(words, 0);
        match verb {
            "source" => self.trouble.source = number?,
            "sink" => self.trouble.sink = number?,
            "call" => self.trouble.call = number?,
            "rot" => {
                let (at, byte) = (number_at(words, 1)?, byte_at(words, 2)?);
                self.trouble.rot = Some((number?, at, byte));
            }
            "held" => self.trouble.manner = Manner::Held,
            "gathered" => self.trouble.manner = Manner::Gathered(number?),
            _ => self.trouble.manner = Manner::Crossed,
        }
        Some(())
    }

    /// Runs the program once.
    fn run_once<R: Threads + Wait + Sync>(&mut self, rt: &R, row: &Row) -> Option<Vec<Left>> {
        let text = spelled(self.alloc, row.text)?;
        let asked = Asked {
            words: row.words,
            text: text.as_str(),
            trouble: self.trouble,
        };
        self.trouble = NO_TROUBLE;
        let mut lefts = Vec::new(self.alloc);
        lefts
            .push(left_of(rt, self.alloc, &asked, self.file.as_slice())?)
            .ok()?;
        Some(lefts)
    }

    /// Runs the program once for each call of the disk that fails, by `FIRST LAST WORDS`.
    fn run_failing<R: Threads + Wait + Sync>(&self, rt: &R, row: &Row) -> Option<Vec<Left>> {
        let text = spelled(self.alloc, row.text)?;
        let (first, last, words) = range_and_words(row.words)?;
        let mut lefts = Vec::new(self.alloc);
        for call in first..last.saturating_add(1) {
            let asked = failing_at(words, text.as_str(), call);
            lefts
                .push(left_of(rt, self.alloc, &asked, self.file.as_slice())?)
                .ok()?;
        }
        Some(lefts)
    }

    /// Opens what crashes with noise may have left of the last run, by `FIRST LAST`.
    fn reopen<R: Threads + Wait + Sync>(&self, rt: &R, words: &str) -> Option<Vec<Left>> {
        let disk = &self.lefts.first()?.disk;
        let (first, last) = calls_by(words, disk)?;
        let mut lefts = Vec::new(self.alloc);
        for before in first..last.saturating_add(1) {
            let left = driven_over(rt, self.alloc, disk, before, Pick::Noise(165), "")?;
            lefts.push(left).ok()?;
        }
        Some(lefts)
    }

    /// Runs the program, and says what all these runs said.
    fn run<R: Threads + Wait + Sync>(&mut self, rt: &R, row: &Row) -> Option<String> {
        let lefts = match row.verb {
            "fails" => self.run_failing(rt, row)?,
            "reopen" => self.reopen(rt, row.words)?,
            _ => self.run_once(rt, row)?,
        };
        self.lefts = lefts;
        if row.verb == "do" {
            self.file = self.last_bytes()?;
        }
        if row.want == "done" {
            return done(self.alloc, Some(()));
        }
        said_by_all(self.alloc, self.lefts.as_slice())
    }

    /// Looks at what the last runs left.
    fn look_at_runs(&self, row: &Row) -> Option<String> {
        let (alloc, lefts) = (self.alloc, self.lefts.as_slice());
        match row.verb {
            "calls" => calls_of(alloc, lefts),
            "stopped" => yes(alloc, have_stopped(lefts, number_at(row.words, 0)?)),
            "answered" => answered_by(alloc, lefts, number_at(row.words, 0).unwrap_or(u64::MAX)),
            "replies" => replies_of(alloc, lefts),
            "untouched" => yes(alloc, are_untouched(lefts, self.file.as_slice())),
            "met" => yes(alloc, lefts.iter().all(|left| left.met)),
            _ => yes(alloc, have_called(lefts, number_at(row.words, 0)?)),
        }
    }

    /// Looks at the bytes that the next run finds.
    fn look_at_file(&self, row: &Row) -> Option<String> {
        let (alloc, file) = (self.alloc, self.file.as_slice());
        match row.verb {
            "bytes" => yes(alloc, stands_by(alloc, file, row.words)?),
            "filled" => yes(alloc, filled_by(file, row.words)?),
            "frames" => frames_by(alloc, file, row.words),
            "same" => yes(alloc, is_same(self.kept.as_slice(), file, row.words)?),
            "size" => format!(in alloc; "{}", file.len()).ok(),
            "turns" => turns_of(alloc, file),
            _ => height_of(alloc, file),
        }
    }
}

/// The range of `FIRST LAST WORDS`, and the words.
fn range_and_words(words: &str) -> Option<(u64, u64, &str)> {
    let (first, rest) = words.split_once(' ')?;
    let (last, rest) = rest.split_once(' ').unwrap_or((rest, ""));
    Some((first.parse::<u64>().ok()?, last.parse::<u64>().ok()?, rest))
}

/// A run whose call of this number fails.
fn failing_at<'a>(words: &'a str, text: &'a str, call: u64) -> Asked<'a> {
    Asked {
        words,
        text,
        trouble: Trouble { call, ..NO_TROUBLE },
    }
}

/// The answer of what was done.
fn done(alloc: Global, is_done: Option<()>) -> Option<String> {
    is_done?;
    String::from_str(alloc, "done").ok()
}

/// The answer to a row. None where it is no row, or memory was refused.
pub(crate) fn answer<R: Threads + Wait + Sync>(
    rt: &R,
    bench: &mut Bench,
    row: &Row,
) -> Option<String> {
    let alloc = bench.alloc;
    match row.verb {
        "disk" | "load" | "put" | "cut" | "go" | "image" | "save" => {
            done(alloc, bench.change(row.verb, row.words))
        }
        "source" | "sink" | "call" | "rot" | "held" | "crossed" | "gathered" => {
            done(alloc, bench.trouble(row.verb, row.words))
        }
        "try" | "do" | "fails" | "reopen" => bench.run(rt, row),
        "crashes" => said_behind(rt, alloc, bench.lefts.as_slice(), row),
        "tallied" => tallied(rt, alloc, row),
        "calls" | "called" | "stopped" | "answered" | "replies" | "untouched" | "met" => {
            bench.look_at_runs(row)
        }
        "bytes" | "filled" | "frames" | "height" | "same" | "size" | "turns" => {
            bench.look_at_file(row)
        }
        _ => None,
    }
}
