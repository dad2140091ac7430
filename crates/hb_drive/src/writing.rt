//! The output text, piece by piece, until the sink fails.
ghost use Rattle.std.specs.Prelude.{◌++◌};
ghost use Rattle.std.specs.List.{flat_map};
ghost use Rattle.hb_outside.specs.Calls.{PutsOn};
ghost use Rattle.hb_text.specs.Output.{left_text, order_text, reply_text};

use hb_outside::{Failed, Sink};
use hb_set::Reply;
use hb_text::{put_left, put_order, put_reply};

/// Puts a reply, unless the sink failed before.
#[tactic(auto, using(crate::proofs::PutTexts::puts_on, crate::proofs::PutTexts::puts_off))]
pub fn put_answer<K: Sink>(
    sink: &mut K,
    so_far: Result<(), Failed>,
    line: u32,
    reply: &Reply,
) -> Result<(), Failed>
    ensures { PutsOn so_far (reply_text line reply.now) result (K.model sink.old) (K.model sink.new) }
{
    match so_far {
        Ok(()) => put_reply(sink, line, reply),
        Err(failed) => Err(failed),
    }
}

/// Puts what follows the replies: the lines that have no answer, and the order, so much of it settled.
#[tactic(auto, using(crate::proofs::PutTexts::puts_then))]
pub(crate) fn put_rest<K: Sink>(
    sink: &mut K,
    so_far: Result<(), Failed>,
    left: &[u32],
    stopped: bool,
    order: &[u32],
    settled: u32,
) -> Result<(), Failed>
    ensures { PutsOn so_far (flat_map (left_text stopped) left.now ++ order_text order.now settled) result (K.model sink.old) (K.model sink.new) }
{
    let put = put_all_left(sink, so_far, left, stopped);
    put_order_on(sink, put, order, settled)
}

/// Puts lines that have no answer.
fn put_all_left<K: Sink>(
    sink: &mut K,
    so_far: Result<(), Failed>,
    lines: &[u32],
    stopped: bool,
) -> Result<(), Failed>
    ensures { PutsOn so_far (flat_map (left_text stopped) lines.now) result (K.model sink.old) (K.model sink.new) }
{
    let mut put = so_far;
    for line in lines {
        put = put_one_left(sink, put, *line, stopped);
    }
    put
}

/// Puts a line that has no answer, unless the sink failed before.
#[tactic(auto, using(crate::proofs::PutTexts::puts_on, crate::proofs::PutTexts::puts_off))]
fn put_one_left<K: Sink>(
    sink: &mut K,
    so_far: Result<(), Failed>,
    line: u32,
    stopped: bool,
) -> Result<(), Failed>
    ensures { PutsOn so_far (left_text stopped line) result (K.model sink.old) (K.model sink.new) }
{
    match so_far {
        Ok(()) => put_left(sink, line, stopped),
        Err(failed) => Err(failed),
    }
}

/// Puts the order, unless the sink failed before.
#[tactic(auto, using(crate::proofs::PutTexts::puts_on, crate::proofs::PutTexts::puts_off))]
pub fn put_order_on<K: Sink>(
    sink: &mut K,
    so_far: Result<(), Failed>,
    order: &[u32],
    settled: u32,
) -> Result<(), Failed>
    ensures { PutsOn so_far (order_text order.now settled) result (K.model sink.old) (K.model sink.new) }
{
    match so_far {
        Ok(()) => put_order(sink, order, settled),
        Err(failed) => Err(failed),
    }
}
