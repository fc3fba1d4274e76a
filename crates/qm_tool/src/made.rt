//! The summary of the run of a made program.
ghost use Rattle.std.specs.Prelude.{◌≡◌};
ghost use Rattle.qm_io.specs.Ends.{Puts};
ghost use Rattle.qm_tool.specs.Commands.{kind_word};
ghost use Rattle.qm_tool.specs.Running.{MayPutRun, work_text};

use crate::command::Recipe;
use crate::running::{Run, put_halt};
use qm_denot::Amps;
use qm_gen::GenKind;
use qm_io::{Failed, Sink};
use qm_print::put_job;

/// The word for a kind.
fn kind_word(kind: GenKind) -> &'static str
    ensures { result.now ≡ kind_word kind }
{
    match kind {
        GenKind::Ring => "ring",
        GenKind::Ghz => "ghz",
        GenKind::Parity => "parity",
    }
}

/// Writes the summary of a run of a made program, or the line of where and why it stopped.
pub(crate) fn put_work<A: Amps, O: Sink>(
    sink: &mut O,
    recipe: Recipe,
    run: &Run<A>,
) -> Result<(), Failed>
    requires { MayPutRun A.store run.now }
    ensures { Puts (O.seen sink.old) (O.seen sink.new) (work_text A.store recipe run.now) result }
{
    match run.halt() {
        Some(halt) => put_halt(sink, halt),
        None => put_job(sink, kind_word(recipe.kind), &run.numbers(recipe)),
    }
}
