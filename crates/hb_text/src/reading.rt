ghost use Rattle.std.specs.Prelude.{◌≡◌, ℕ, ◌+◌, ◌≤◌, false, List, [], ◌∷◌, ◌++◌, length, drop, Some, All, OnOk, IfOk};
ghost use Rattle.hb_set.specs.Scripts.{IsScriptFor};
ghost use Rattle.hb_space.specs.Actors.{IsActor};
ghost use Rattle.hb_text.specs.Grammar.{line_read, text_read};
ghost use Rattle.hb_text.specs.StepWords.{steps_of};
ghost use Rattle.hb_text.specs.Words.{words_of};
ghost use Rattle.hb_text.specs.Reading.{ReadsScript, AddsLine, WantsMemory};

use crate::lines::{Meaning, Place, first_line, read_line};
use crate::rules::{BadLine, TextError};
use crate::steps::push_steps;
use crate::words::Words;
use hb_set::{Line, Lines, Script, Steps};
use hb_space::{Actor, Attributes, NoMemory};
use std::alloc::Global;

/// Adds the steps of a step line.
fn add_steps(steps: &mut Vec<Actor>, line: &[u8]) -> Result<(), NoMemory>
    requires { (said : List ℕ) × (steps_of (drop 1 (words_of line.now)) ≡ Some said) × (length steps.old.items + length said ≤ 10000000) }
    ensures { OnOk result ((said : List ℕ) → steps_of (drop 1 (words_of line.now)) ≡ Some said → steps.new.items ≡ steps.old.items ++ said) }
{
    let mut words = Words::of_line(line);
    let _step = words.next_word();
    push_steps(&mut words, steps)
}

/// Adds what a line says to the commands and the steps so far.
fn add_line(
    lines: &mut Vec<Line>,
    steps: &mut Vec<Actor>,
    step_lines: bool,
    attributes: Attributes,
    number: u32,
    line: &[u8],
) -> Result<(), TextError>
    requires { length steps.old.items ≤ 10000000 }
    ensures adds { AddsLine number lines.old.items lines.new.items steps.old.items steps.new.items result
        (line_read step_lines attributes.number (length steps.old.items) number line.now) }
    ensures taken { OnOk result (length steps.new.items ≤ 10000000) }
{
    let place = Place {
        number,
        taken: steps.len(),
        attributes,
        step_lines,
    };
    match read_line(place, line) {
        Ok(Meaning::Nothing) => Ok(()),
        Ok(Meaning::Command(said)) => {
            lines.push(said)?;
            Ok(())
        }
        Ok(Meaning::Steps) => Ok(add_steps(steps, line)?),
        Err(rule) => Err(TextError::Bad(BadLine { line: number, rule })),
    }
}

/// The script that a text says over so many attributes, with or without step lines; or the first
/// line that breaks a rule, with the first rule that it breaks. Memory can be refused only where a
/// command or a step stands before that line.
pub fn read_commands(
    alloc: Global,
    text: &[u8],
    attributes: Attributes,
    step_lines: bool,
) -> Result<Script, TextError>
    ensures exact { ReadsScript result (text_read step_lines attributes.number text.now) }
    ensures memory { WantsMemory step_lines attributes.number text.now result }
    ensures no_steps { IfOk result (λ script. step_lines ≡ false → script.steps ≡ []) }
    ensures actors { IfOk result (λ script. All IsActor script.steps) }
    ensures few_steps { IfOk result (λ script. length script.steps ≤ 10000000) }
    ensures short { OnOk result (length text.now ≤ 257000000) }
    ensures script { IfOk result (λ script. IsScriptFor attributes.number script.lines) }
{
    let mut lines: Vec<Line> = Vec::new(alloc);
    let mut steps: Vec<Actor> = Vec::new(alloc);
    let mut rest = text;
    let mut number = 1;
    while !rest.is_empty() {
        let (line, behind) = first_line(rest);
        add_line(&mut lines, &mut steps, step_lines, attributes, number, line)?;
        rest = behind;
        number += 1;
    }
    Ok(Script {
        lines: Lines::new(lines),
        steps: Steps::new(steps),
    })
}
