//! From a command to the text of its program, and to programs that have no fault.
ghost use Rattle.std.specs.Prelude.{◌≤◌, length, IfErr, IfOk, IfSome};
ghost use Rattle.qm_gen.specs.Laws.{IsReadyText};
ghost use Rattle.qm_tool.specs.Calls.{CameFrom};
ghost use Rattle.qm_tool.specs.Commands.{made_of, IsBounded};
ghost use Rattle.qm_tool.specs.Due.{ReadsReady};
ghost use Rattle.qm_tool.specs.Reading.{IsUngiven, IsUnready};

use crate::command::Command;
use crate::refusal::Refusal;
use qm_check::{Ready, check};
use qm_expand::read;
use qm_gen::make;
use qm_io::{Source, read_all};
use qm_limits::MOST_BYTES;
use std::alloc::Global;

/// The text of a command's program: it is made, or it is all that the source has left. `Memory` comes only where memory runs out.
pub(crate) fn text_for<I: Source>(
    alloc: Global,
    command: Command,
    source: &mut I,
) -> Result<Vec<u8>, Refusal>
    requires { IsBounded command }
    ensures came { IfOk result (λ text. CameFrom (made_of command) (I.seen source.old)
        (I.seen source.new) text.items) }
    ensures short { IfOk result (λ text. length text.items ≤ MOST_BYTES) }
    ensures made { IfOk result (λ text. IfSome (made_of command) (λ r. IsReadyText text.items)) }
    ensures err { IfErr result (IsUngiven (made_of command) (I.seen source.old)
        (I.seen source.new)) }
{
    match command.recipe() {
        Some(recipe) => Ok(make(alloc, recipe.kind, recipe.size, recipe.number)?),
        None => Ok(read_all(alloc, source)?),
    }
}

/// Reads the programs of a text of at most [`MOST_BYTES`] bytes, and checks them. `Memory` comes only where memory runs out.
pub(crate) fn read_ready(alloc: Global, text: &[u8]) -> Result<Ready, Refusal>
    requires { length text.now ≤ MOST_BYTES }
    ensures ok { IfOk result (ReadsReady text.now) }
    ensures err { IfErr result (IsUnready text.now) }
{
    let input = read(alloc, text)?;
    Ok(check(alloc, input)?)
}
