//! The top call without threads.
ghost use Rattle.std.specs.Prelude.{◌≡◌, ◌≤◌, length, map, None, Err};
ghost use Rattle.std.specs.Option.{ForSome};
ghost use Rattle.std.specs.String.{string_bytes};
ghost use Rattle.qm_gen.specs.Laws.{IsReadyText};
ghost use Rattle.qm_tool.specs.Answers.{AnswersCall, AnswersReady, AnswersText, Concludes, MayPut, answer_in};
ghost use Rattle.qm_tool.specs.Calls.{call};
ghost use Rattle.qm_tool.specs.Commands.{command_of, made_of, plain_of, threads_of, IsBounded, IsOnPrograms};
ghost use Rattle.qm_tool.specs.Due.{ReadsReady};
ghost use Rattle.qm_tool.specs.Promises.{Promises};

use crate::answer::{Answer, put_answer};
use crate::circuits::{amplitudes_of, check_of, circuit_of};
use crate::command::{Command, PLAIN, plain_of};
use crate::costs::cost_of;
use crate::reading::{read_ready, text_for};
use crate::refusal::Refusal;
use crate::running::run_alone;
use crate::status::Status;
use qm_check::Ready;
use qm_denot::Amps;
use qm_io::{Sink, Source};
use qm_limits::MOST_BYTES;
use qm_print::FaultLine;
use qm_store::ScaledAmps;
use std::alloc::Global;

/// What is due for the programs of a text under a command that does more than write them.
fn answer_ready(
    alloc: Global,
    command: Command,
    text: Vec<u8>,
    ready: Ready,
) -> Result<Answer<ScaledAmps>, Refusal>
    requires ready { ReadsReady text.items ready }
    requires on_programs { IsOnPrograms command }
    requires bounded { IsBounded command }
    requires plain { threads_of command ≡ None }
    ensures { AnswersReady (⟦<ScaledAmps as Amps>⟧.store) ready command result }
{
    match command {
        Command::Run { play } => {
            let run = run_alone(alloc, play, text, ready)?;
            Ok(Answer::Played { run })
        }
        Command::Job { recipe } => {
            let run = run_alone(alloc, PLAIN, text, ready)?;
            Ok(Answer::Worked { recipe, run })
        }
        Command::Mono => circuit_of(alloc, ready),
        Command::MonoAmps => amplitudes_of(alloc, &ready),
        Command::Check => check_of(alloc, ready),
        Command::Cost { seed, delays } => cost_of(alloc, seed, delays, text, ready),
        Command::Gen { .. } => unreachable!(),
    }
}

/// What is due for the text of a command's program.
fn answer_text(
    alloc: Global,
    command: Command,
    text: Vec<u8>,
) -> Result<Answer<ScaledAmps>, Refusal>
    requires short { length text.items ≤ MOST_BYTES }
    requires made { ForSome (made_of command) (λ r. IsReadyText text.items) }
    requires bounded { IsBounded command }
    requires plain { threads_of command ≡ None }
    ensures { AnswersText (⟦<ScaledAmps as Amps>⟧.store) text.items command result }
{
    if let Command::Gen { .. } = command {
        return Ok(Answer::Text {
            status: Status::Ok,
            text,
        });
    }
    let ready = read_ready(alloc, &text)?;
    answer_ready(alloc, command, text, ready)
}

/// What is due for words and what the source gives, where they ask for it.
fn answer_to<I: Source>(
    alloc: Global,
    words: &[String],
    source: &mut I,
) -> Result<Answer<ScaledAmps>, Refusal>
    ensures due { AnswersCall (⟦<ScaledAmps as Amps>⟧.store)
        (plain_of (command_of (map string_bytes words.now))) (I.seen source.old) (I.seen source.new)
        result }
    ensures usage { plain_of (command_of (map string_bytes words.now)) ≡ None
        → result ≡ Err (Refusal.Line FaultLine.Usage) }
{
    let Some(command) = plain_of(words) else {
        return Err(Refusal::Line {
            fault: FaultLine::Usage,
        });
    };
    let text = text_for(alloc, command, source)?;
    answer_text(alloc, command, text)
}

/// The answer of a command, or the line in its place. `None` where memory ran out.
fn answer_in<A: Amps>(answer: Result<Answer<A>, Refusal>) -> Option<Answer<A>>
    ensures { result ≡ answer_in answer }
{
    match answer {
        Ok(answer) => Some(answer),
        Err(Refusal::Line { fault }) => Some(Answer::Line { fault }),
        Err(Refusal::Memory) => None,
    }
}

/// Writes the answer of a command, or the line in its place, where memory was left for it, and tells how the command ended.
pub(crate) fn conclude<A: Amps, O: Sink>(sink: &mut O, answer: Result<Answer<A>, Refusal>) -> Status
    requires { ForSome (answer_in answer) (MayPut A.store) }
    ensures { Concludes A.store (answer_in answer) (O.seen sink.old) (O.seen sink.new) result }
{
    let Some(answer) = answer_in(answer) else {
        return Status::OutOfMemory;
    };
    let status = answer.status();
    match put_answer(sink, answer) {
        Ok(()) => status,
        Err(_) => Status::WriteFault,
    }
}

/// Does a command that needs no threads: takes its words and a source, writes what is due to the sink and flushes it, and tells how the
/// command ended.
///
/// The commands are `plain`, `sched K`, `trace K`, `mono`, `mono amps`, `check`, `cost K LOCAL PAIR BITS`, `gen KIND SIZE NUMBER` and
/// `job KIND SIZE NUMBER`. K and NUMBER have 1 to 20 decimal digits and are at most 2^64 - 1. LOCAL, PAIR and BITS have 1 to 7 decimal
/// digits and are at most 1,000,000. KIND is `ring`, `ghz` or `parity`, and SIZE has 1 to 9 decimal digits and is 1 to 10,000 for a ring,
/// 2 to 10 for a GHZ state and 1 to 9,000 for a parity. All other words, `run` and `run turns` among them, are answered by `Usage`.
///
/// All but `gen` and `job` read programs. The first three give the ranks their turns until all have ended, and write the state text: under
/// `plain` each turn is the lowest rank's that is neither ended nor blocked, under the other two the one's that the seed K chooses, and
/// `trace K` writes the events of the turns too. `mono` writes the text of the programs' one circuit, `mono amps` the state text of its
/// amplitudes, and `check` the totals of the programs and whether their rendezvous run ends. `cost` plays as `sched K` does, and writes how
/// long the schedule takes with these delays, and the chain of events that makes it so. `gen` writes the text of a made program, and `job`
/// runs it as `plain` does and writes a summary of the run. All memory is taken before the first byte is written.
pub fn tool_plain<I: Source, O: Sink>(
    alloc: Global,
    words: &[String],
    source: &mut I,
    sink: &mut O,
) -> Status
    ensures { Promises (call (plain_of (command_of (map string_bytes words.now))) (I.seen source.old)
        (I.seen source.new) (O.seen sink.old) (O.seen sink.new) result) }
{
    let answer = answer_to(alloc, words, source);
    conclude(sink, answer)
}
