ghost use Rattle.std.specs.Prelude.{◌≡◌, ◌≤◌, IfOk};
ghost use Rattle.hb_gen.specs.Spelling.{generated_text};

use crate::drawing::draw_line;
use crate::draws::Draws;
use crate::spelling::add_line;
use hb_space::{Attributes, NoMemory};
use std::alloc::Global;

/// The text of so many command lines over so many attributes, drawn from this state. `Err` comes
/// only where memory is refused.
pub fn generate(
    alloc: Global,
    state: u64,
    lines: u32,
    attributes: Attributes,
) -> Result<Vec<u8>, NoMemory>
    requires { lines ≤ 1000000 }
    ensures { IfOk result (λ text. text.items ≡ generated_text state lines attributes.number) }
{
    let mut draws = Draws::from_state(state);
    let mut text = Vec::new(alloc);
    for index in 0..lines {
        let line = draw_line(&mut draws, attributes, index + 1);
        add_line(&mut text, &line)?;
    }
    Ok(text)
}
