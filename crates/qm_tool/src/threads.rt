//! The top call, with runs in which each rank has a thread of its own.
ghost use Rattle.std.specs.Prelude.{◌≡◌, map, IfOk, Some};
ghost use Rattle.std.specs.String.{string_bytes};
ghost use Rattle.qm_tool.specs.Answers.{AnswersCall};
ghost use Rattle.qm_tool.specs.Calls.{call};
ghost use Rattle.qm_tool.specs.Commands.{command_of};
ghost use Rattle.qm_tool.specs.Due.{ReadsReady};
ghost use Rattle.qm_tool.specs.Promises.{Promises};
ghost use Rattle.qm_tool.specs.Running.{IsRun, MayPutRun};

use crate::answer::Answer;
use crate::command::{Command, Order, Play, threads_of};
use crate::reading::{read_ready, text_for};
use crate::refusal::Refusal;
use crate::running::{Run, machine_of};
use crate::status::Status;
use crate::top::{conclude, tool_plain};
use qm_check::Ready;
use qm_denot::Amps;
use qm_io::{Sink, Source};
use qm_ranks::{Turnstile, play_threads};
use qm_store::ScaledAmps;
use std::alloc::{AllocError, Global};
use std::sync::Wait;
use std::thread::Threads;

/// A run of the programs of a text, in which each rank has a thread of its own. `AllocError` comes from the allocator alone.
fn run_by_threads<R: Threads + Wait + Sync, G: Turnstile + Sync>(
    rt: &R,
    alloc: Global,
    play: Play,
    text: Vec<u8>,
    ready: Ready,
    gate: &G,
) -> Result<Run<ScaledAmps>, AllocError>
    requires any { play.order ≡ Order.Any }
    requires ready { ReadsReady text.items ready }
    ensures run { IfOk result (IsRun (⟦<ScaledAmps as Amps>⟧.store) play ready) }
    ensures may_put { IfOk result (MayPutRun (⟦<ScaledAmps as Amps>⟧.store)) }
{
    let machine = machine_of(alloc, text, ready)?;
    let machine = play_threads(rt, alloc, machine, gate)?.into_machine();
    // a machine keeps that its schedule is legal, and this call tells it
    let _schedule = machine.schedule();
    Run::of(alloc, play, machine)
}

/// What is due for what the source gives, where its programs are run so.
fn answer_by_threads<R: Threads + Wait + Sync, I: Source, G: Turnstile + Sync>(
    rt: &R,
    alloc: Global,
    play: Play,
    source: &mut I,
    gate: &G,
) -> Result<Answer<ScaledAmps>, Refusal>
    requires { play.order ≡ Order.Any }
    ensures { AnswersCall (⟦<ScaledAmps as Amps>⟧.store) (Some (Command.Run play))
        (I.seen source.old) (I.seen source.new) result }
{
    let text = text_for(alloc, Command::Run { play }, source)?;
    let ready = read_ready(alloc, &text)?;
    let run = run_by_threads(rt, alloc, play, text, ready, gate)?;
    Ok(Answer::Played { run })
}

/// Does a command: takes its words and a source, writes what is due to the sink and flushes it, and tells how the command ended.
///
/// The commands are those of [`tool_plain`], which does them, and `run` and `run turns`. Both read a program, and give each rank a thread
/// of its own, which passes the gate before each of its turns. Where all ranks come to their end, `run` writes the state text, which is
/// the same whatever order the threads took their turns in, and `run turns` the ranks of the turns after it. Where the run stops, both
/// write where and why, and the ranks of the turns so far.
///
/// Under `run` and `run turns` the call may not return: nothing says that a thread which waits for its turn is ever served. Nor does a
/// clause say that several threads took turns. A test alone shows it, by a gate at which two of them meet.
pub fn tool<R: Threads + Wait + Sync, I: Source, O: Sink, G: Turnstile + Sync>(
    rt: &R,
    alloc: Global,
    words: &[String],
    source: &mut I,
    sink: &mut O,
    gate: &G,
) -> Status
    ensures { Promises (call (command_of (map string_bytes words.now)) (I.seen source.old)
        (I.seen source.new) (O.seen sink.old) (O.seen sink.new) result) }
{
    match threads_of(words) {
        Some(play) => conclude(sink, answer_by_threads(rt, alloc, play, source, gate)),
        None => tool_plain(alloc, words, source, sink),
    }
}
