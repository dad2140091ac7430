//! Commands on up to 1,024 points, and whether what `drive` printed of them is what a plain list of records says over the printed
//! order. Where something is `None`, memory was refused, or the output is none that such a run may have.

use crate::runs::drive_on;
use hb_disk::{MemDisk, Pick};
use std::alloc::Global;

/// How many points there may be.
const MOST: usize = 1024;

/// How many lines there may be in a text.
const LINES: usize = 1040;

/// The body that each point has, which is a number; 0 where it has no record.
pub(crate) type Plain = [usize; MOST];

/// Points without a record.
pub(crate) const EMPTY: Plain = [0; MOST];

#[derive(Clone, Copy)]
pub(crate) enum Verb {
    Insert,
    Delete,
    Lookup,
    /// Of the box whose lower corner the point is: eight values long, of two attributes three.
    Search,
    /// A search of the whole space.
    Whole,
}

/// A command of a session on the point of a place.
#[derive(Drop)]
struct Command {
    session: u8,
    verb: Verb,
    place: usize,
}

/// What a reply says behind the number of its line.
#[derive(Clone, Copy)]
enum Reply {
    Word(&'static str),
    Found(usize),
    Within(Digest),
}

/// Records in a sequence: how many they are, and a number that hangs on each place and body and on the sequence.
#[derive(Clone, Copy, PartialEq, Eq)]
struct Digest {
    count: usize,
    sum: usize,
}

/// No record.
const NOTHING: Digest = Digest { count: 0, sum: 0 };

impl Digest {
    /// With a record behind.
    fn with(self, place: usize, body: usize) -> Digest {
        Digest {
            count: self.count.wrapping_add(1),
            sum: self
                .sum
                .wrapping_mul(1_000_003)
                .wrapping_add(place.wrapping_mul(4099).wrapping_add(body)),
        }
    }
}

/// Whether a value is one of so many from the first one on.
fn is_from(first: usize, count: usize, value: usize) -> bool {
    value >= first && value.wrapping_sub(first) < count
}

/// Whether the place lies in the box of a search.
fn is_within(k: u8, search: &Command, place: usize) -> bool {
    let corner = search.place;
    match (search.verb, k) {
        (Verb::Whole, _) => true,
        (_, 2) => is_from(corner / 8, 3, place / 8) && is_from(corner % 8, 3, place % 8),
        _ => is_from(corner, 8, place),
    }
}

/// The records in the box of a search.
fn found_in(plain: &Plain, k: u8, search: &Command) -> Digest {
    let mut digest = NOTHING;
    for (place, &body) in plain.iter().enumerate() {
        if body != 0 && is_within(k, search, place) {
            digest = digest.with(place, body);
        }
    }
    digest
}

/// Whether these words are the reply.
fn says(words: &str, reply: Reply) -> bool {
    match reply {
        Reply::Word(word) => words == word,
        Reply::Found(body) => match words.strip_prefix("found =") {
            Some(rest) => rest.parse::<usize>() == Ok(body),
            None => false,
        },
        Reply::Within(digest) => match words.strip_prefix("box ") {
            Some(rest) => rest.parse::<usize>() == Ok(digest.count),
            None => false,
        },
    }
}

/// What a command replies over so many attributes, and what the points have then.
fn effect(plain: &mut Plain, k: u8, command: &Command, body: usize) -> Option<Reply> {
    if let Verb::Search | Verb::Whole = command.verb {
        return Some(Reply::Within(found_in(plain, k, command)));
    }
    let held = plain.get_mut(command.place)?;
    let old = *held;
    let (word, new) = match command.verb {
        Verb::Insert if old == 0 => ("ok", body),
        Verb::Insert => ("duplicate", old),
        Verb::Delete if old == 0 => ("absent", 0),
        Verb::Delete => ("ok", 0),
        Verb::Lookup if old == 0 => ("none", 0),
        Verb::Lookup | Verb::Search | Verb::Whole => return Some(Reply::Found(old)),
    };
    *held = new;
    Some(Reply::Word(word))
}

/// The commands of a text, one on each line from line 1 on.
#[derive(Drop)]
pub(crate) struct Commands {
    list: Vec<Command>,
    pub(crate) text: String,
    /// The number of attributes, 1 or 2.
    k: u8,
    /// A body is this number and that of its line.
    from: usize,
}

impl Commands {
    pub(crate) fn new(alloc: Global, k: u8, from: usize) -> Commands {
        Commands {
            list: Vec::new(alloc),
            text: String::new(alloc),
            k,
            from,
        }
    }

    /// The body that an insert on the line of this place has.
    fn body(&self, place: usize) -> usize {
        self.from.wrapping_add(place).wrapping_add(1)
    }

    /// Adds the values of a point, or those of a search's box.
    fn add_values(&mut self, verb: Verb, place: usize) -> Option<()> {
        let (row, column, most) = (place / 8, place % 8, u64::MAX);
        match (verb, self.k) {
            (Verb::Whole, 2) => write!(self.text, " 0 {most} 0 {most}").ok(),
            (Verb::Whole, _) => write!(self.text, " 0 {most}").ok(),
            (Verb::Search, 2) => {
                let (below, beside) = (row.wrapping_add(2), column.wrapping_add(2));
                write!(self.text, " {row} {below} {column} {beside}").ok()
            }
            (Verb::Search, _) => {
                let last = place.wrapping_add(7);
                write!(self.text, " {place} {last}").ok()
            }
            (_, 2) => write!(self.text, " {row} {column}").ok(),
            _ => write!(self.text, " {place}").ok(),
        }
    }

    /// Adds a command.
    pub(crate) fn add(&mut self, session: u8, verb: Verb, place: usize) -> Option<()> {
        let word = match verb {
            Verb::Insert => "insert",
            Verb::Delete => "delete",
            Verb::Lookup => "lookup",
            Verb::Search | Verb::Whole => "search",
        };
        write!(self.text, "{session} {word}").ok()?;
        self.add_values(verb, place)?;
        if let Verb::Insert = verb {
            let body = self.body(self.list.len());
            write!(self.text, " ={body}").ok()?;
        }
        self.text.push('\n').ok()?;
        self.list
            .push(Command {
                session,
                verb,
                place,
            })
            .ok()
    }

    /// What the points have behind the first of these commands, one after the other.
    pub(crate) fn behind(&self, count: usize) -> Option<Plain> {
        let mut plain = EMPTY;
        for (place, command) in self.list.iter().enumerate().take(count) {
            effect(&mut plain, self.k, command, self.body(place))?;
        }
        Some(plain)
    }
}

/// What an output says.
#[derive(Drop)]
pub(crate) struct Told {
    /// What the points have behind the settled part of the order.
    pub(crate) settled: Plain,
    /// And behind all of it.
    pub(crate) whole: Plain,
    /// Whether each line was answered, and all of the order is settled.
    pub(crate) done: bool,
    /// What each line in the order has to reply.
    replies: [Option<Reply>; LINES],
    /// The lines that were printed.
    printed: [bool; LINES],
    count: usize,
    /// The last line of each session in the order.
    last: [usize; 17],
    /// The records that the search has to print whose reply was printed last, and those that it printed so far.
    wanted: Digest,
    found: Digest,
}

impl Told {
    fn new(before: Plain) -> Told {
        Told {
            settled: before,
            whole: before,
            done: true,
            replies: [None; LINES],
            printed: [false; LINES],
            count: 0,
            last: [0; 17],
            wanted: NOTHING,
            found: NOTHING,
        }
    }

    /// Takes a line that the order names.
    fn line(&mut self, commands: &Commands, line: usize) -> Option<()> {
        let place = line.checked_sub(1)?;
        let command = commands.list.get(place)?;
        let last = self.last.get_mut(command.session as usize)?;
        if *last >= line {
            return None;
        }
        *last = line;
        let reply = effect(&mut self.whole, commands.k, command, commands.body(place))?;
        *self.replies.get_mut(place)? = Some(reply);
        Some(())
    }

    /// Takes the order. What stands behind a bar isn't settled.
    fn order(&mut self, commands: &Commands, order: &str) -> Option<()> {
        for word in order.split_whitespace() {
            if word == "|" {
                self.settled = self.whole;
                self.done = false;
            } else {
                self.line(commands, word.parse::<usize>().ok()?)?;
            }
        }
        if self.done {
            self.settled = self.whole;
        }
        Some(())
    }

    /// Whether the search whose reply was printed last has printed what it has to.
    fn has_all_found(&self) -> bool {
        let (found, wanted) = (self.found, self.wanted);
        found == wanted
    }

    /// Takes a record of the search whose reply was printed last.
    fn record(&mut self, k: u8, words: &str) -> Option<()> {
        let (point, body) = words.split_once(" =")?;
        let place = if k == 2 {
            let (row, column) = point.split_once(' ')?;
            let column = column.parse::<usize>().ok()?;
            row.parse::<usize>()
                .ok()?
                .checked_mul(8)?
                .checked_add(column)?
        } else {
            point.parse::<usize>().ok()?
        };
        self.found = self.found.with(place, body.parse::<usize>().ok()?);
        Some(())
    }

    /// Takes what was printed of a line: its reply, or that it has none. A fault is none of the order.
    fn print(&mut self, k: u8, line: &str) -> Option<()> {
        let (number, words) = line.split_once(' ')?;
        if number == "+" {
            return self.record(k, words);
        }
        if !self.has_all_found() {
            return None;
        }
        let place = number.parse::<usize>().ok()?.checked_sub(1)?;
        let printed = self.printed.get_mut(place)?;
        if *printed {
            return None;
        }
        *printed = true;
        self.count = self.count.wrapping_add(1);
        if words == "unfinished" || words == "unanswered" {
            self.done = false;
            return Some(());
        }
        self.wanted = NOTHING;
        self.found = NOTHING;
        let reply = *self.replies.get(place)?;
        if let Some(Reply::Within(digest)) = reply {
            self.wanted = digest;
        }
        match reply {
            Some(reply) if says(words, reply) => Some(()),
            None if words == "read fault" => Some(()),
            _ => None,
        }
    }

    /// Takes all that was printed of lines.
    fn prints(&mut self, k: u8, lines: &str) -> Option<()> {
        for line in lines.lines() {
            self.print(k, line)?;
        }
        if !self.has_all_found() {
            return None;
        }
        Some(())
    }
}

/// What the output of these commands says over points that had this. It is `None` where a reply isn't the plain list's over the
/// printed order, where the order turns two lines of a session round, or where a line is missing or there twice.
pub(crate) fn told_by(commands: &Commands, before: Plain, said: &str) -> Option<Told> {
    let (_, body) = said.split_once(' ')?;
    let (lines, rest) = body.split_once("order")?;
    let mut told = Told::new(before);
    told.order(commands, rest.lines().next()?)?;
    told.prints(commands.k, lines)?;
    if told.count != commands.list.len() {
        return None;
    }
    Some(told)
}

/// Lookups of the points below this place and a search of the whole space, with steps enough for them.
fn lookups(alloc: Global, k: u8, places: usize) -> Option<Commands> {
    let mut commands = Commands::new(alloc, k, 0);
    for place in 0..places {
        commands.add(1, Verb::Lookup, place)?;
    }
    commands.add(1, Verb::Whole, 0)?;
    let steps = places.wrapping_mul(16).wrapping_add(2000);
    write!(commands.text, "step 1x{steps}\n").ok()?;
    Some(commands)
}

/// Whether these commands were all answered as over points that had this.
fn is_told(commands: &Commands, plain: Plain, said: &str) -> bool {
    match told_by(commands, plain, said) {
        Some(told) => told.done,
        None => false,
    }
}

/// Whether a file opens with one of two sets of records, all of them below this place.
pub(crate) fn holds(
    alloc: Global,
    file: &[u8],
    k: u8,
    places: usize,
    one: Plain,
    other: Plain,
) -> Option<bool> {
    let commands = lookups(alloc, k, places)?;
    let left = drive_on(alloc, commands.text.as_str(), file)?;
    let said = left.said.as_str();
    Some(is_told(&commands, one, said) || is_told(&commands, other, said))
}

/// Whether what a crash before this call may have left of a file of one attribute opens so, for each of three images.
pub(crate) fn all_hold(
    alloc: Global,
    disk: &MemDisk,
    before: u64,
    places: usize,
    one: Plain,
    other: Plain,
) -> Option<bool> {
    for &pick in &[Pick::Old, Pick::New, Pick::Noise(165)] {
        let image = disk.image(before, pick).ok()??;
        if !holds(alloc, image.as_slice(), 1, places, one, other)? {
            return Some(false);
        }
    }
    Some(true)
}
