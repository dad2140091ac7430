// The spelling of a command line, added to a text.
ghost use Rattle.std.specs.Prelude.{◌≡◌, ◌∷◌, ◌++◌, codes, decimal, length, OnOk};
ghost use Rattle.hb_text.specs.Output.{numbers_text};
ghost use Rattle.hb_gen.specs.Spelling.{side_by_side, command_text, line_text};

use hb_set::{Command, Line};
use hb_space::{Area, NoMemory, Record};
use itoa::Buffer;

// Adds a line, with its line feed.
pub(crate) fn add_line(text: &mut Vec<u8>, line: &Line) -> Result<(), NoMemory>
    ensures { OnOk result (text.new.items ≡ text.old.items ++ line_text line.now) }
{
    add_number(text, u64::from(line.session))?;
    add_command(text, &line.command)?;
    text.extend_from_slice(b"\n")
}

// Adds what follows the session.
fn add_command(text: &mut Vec<u8>, command: &Command) -> Result<(), NoMemory>
    ensures { OnOk result (text.new.items ≡ text.old.items ++ command_text command.now) }
{
    match command {
        Command::Insert(added) => add_insert(text, added),
        Command::Delete(point) => add_verb(text, b" delete", point.values()),
        Command::Lookup(point) => add_verb(text, b" lookup", point.values()),
        Command::Search(area) => add_search(text, area),
    }
}

// Adds a verb and the numbers behind it.
fn add_verb(text: &mut Vec<u8>, verb: &[u8], numbers: &[u64]) -> Result<(), NoMemory>
    ensures { OnOk result (text.new.items ≡ text.old.items ++ (verb.now ++ numbers_text numbers.now)) }
{
    text.extend_from_slice(verb)?;
    for number in numbers {
        add_word(text, *number)?;
    }
    Ok(())
}

fn add_insert(text: &mut Vec<u8>, added: &Record) -> Result<(), NoMemory>
    ensures { OnOk result (text.new.items ≡ text.old.items ++ command_text (Command.Insert added.now)) }
{
    add_verb(text, b" insert", added.key.values())?;
    text.extend_from_slice(b" =")?;
    text.extend_from_slice(added.body.bytes())
}

// Adds a search: for one attribute after the other, its lower and its upper value.
fn add_search(text: &mut Vec<u8>, area: &Area) -> Result<(), NoMemory>
    ensures { OnOk result (text.new.items ≡ text.old.items ++ command_text (Command.Search area.now)) }
{
    text.extend_from_slice(b" search")?;
    let uppers = area.hi().values();
    for (axis, lower) in area.lo().values().iter().enumerate() {
        add_word(text, *lower)?;
        add_word(text, uppers[axis])?;
    }
    Ok(())
}

// Adds a space and a number.
fn add_word(text: &mut Vec<u8>, number: u64) -> Result<(), NoMemory>
    ensures { OnOk result (text.new.items ≡ text.old.items ++ 32 ∷ decimal number) }
{
    text.push(b' ')?;
    add_number(text, number)
}

// Adds a number in decimal.
fn add_number(text: &mut Vec<u8>, number: u64) -> Result<(), NoMemory>
    ensures { OnOk result (text.new.items ≡ text.old.items ++ decimal number) }
{
    let mut digits = Buffer::new();
    text.extend_from_slice(digits.format(number).as_bytes())
}
