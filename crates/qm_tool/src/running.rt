//! Commands that run a program: a machine is played, and what it comes to is written.
ghost use Rattle.std.specs.Prelude.{◌≡◌, ◌≢◌, [], None, IfOk, is_none};
ghost use Rattle.qm_io.specs.Ends.{Puts};
ghost use Rattle.qm_machine.specs.Keeps.{Keeps};
ghost use Rattle.qm_print.specs.FaultText.{stopped_line};
ghost use Rattle.qm_tool.specs.Commands.{block_of, order_words};
ghost use Rattle.qm_tool.specs.Due.{ReadsReady};
ghost use Rattle.qm_tool.specs.Dues.{HasPlayed};
ghost use Rattle.qm_tool.specs.Running.{IsRun, MayPutRun, end_text, job_numbers, run_status, run_text};

use crate::command::{Listing, Order, Play, Recipe};
use crate::ends::{full_slots, head_of};
use crate::status::Status;
use qm_check::Ready;
use qm_denot::Amps;
use qm_io::{Failed, Sink};
use qm_machine::{Halt, Machine, State};
use qm_print::{
    FaultLine, Head, JobNumbers, Live, count_lines, put_fault, put_state, put_trace, put_turns,
};
use qm_ranks::{play_order, play_seed};
use qm_store::ScaledAmps;
use std::alloc::{AllocError, Global};

/// A machine that was played, and what its text says of it.
#[derive(Drop)]
pub(crate) struct Run<A: Amps> {
    play: Play,
    machine: Machine<A>,
    /// Where and why it stopped, if it did.
    halt: Option<Halt>,
    head: Head,
    live: Vec<Live>,
}

impl<A: Amps> Run<A> {
    /// What the text of a machine says that was played to its end. `AllocError` comes from the allocator alone.
    pub(crate) fn of(alloc: Global, play: Play, machine: Machine<A>) -> Result<Run<A>, AllocError>
        requires { HasPlayed play.order machine }
        ensures run { IfOk result (IsRun A.store play machine.programs) }
        ensures may_put { IfOk result (MayPutRun A.store) }
    {
        let halt = halt_of(&machine);
        let head = head_of(machine.ready(), &machine, machine.amps().exponent());
        let live = full_slots(alloc, machine.ready().input(), &machine)?;
        Ok(Run {
            play,
            machine,
            halt,
            head,
            live,
        })
    }

    /// Where and why it stopped, if it did.
    pub(crate) fn halt(&self) -> Option<Halt>
        ensures { result ≡ self.now.halt }
    {
        self.halt
    }

    /// The status of a call that wrote the run's text.
    pub(crate) fn status(&self) -> Status
        ensures { result ≡ run_status self.now }
    {
        match self.halt {
            Some(_) => Status::Stopped,
            None => Status::Ok,
        }
    }

    /// The summary of a run of a made program.
    pub(crate) fn numbers(&self, recipe: Recipe) -> JobNumbers
        requires { MayPutRun A.store self.now }
        ensures { result ≡ job_numbers A.store recipe self.now }
    {
        JobNumbers {
            size: recipe.size,
            number: recipe.number,
            events: self.machine.schedule().len() as u64,
            protocol: self.head.protocol,
            scale: self.head.scale,
            lines: count_lines(&self.live, self.machine.amps()),
        }
    }
}

/// The machine of the programs of a text before its first event, over a store in one list. `AllocError` comes from the allocator alone.
pub(crate) fn machine_of(
    alloc: Global,
    text: Vec<u8>,
    ready: Ready,
) -> Result<Machine<ScaledAmps>, AllocError>
    requires { ReadsReady text.items ready }
    ensures programs { IfOk result (λ m. m.programs ≡ ready) }
    ensures start { IfOk result (λ m. m.schedule ≡ []) }
    ensures running { IfOk result (λ m. m.halted ≡ None) }
{
    let amps = ScaledAmps::start(alloc, ready.capacity())?;
    Machine::start(alloc, text, ready, amps)
}

/// A run of the programs of a text in an order that needs no threads. `AllocError` comes from the allocator alone.
pub(crate) fn run_alone(
    alloc: Global,
    play: Play,
    text: Vec<u8>,
    ready: Ready,
) -> Result<Run<ScaledAmps>, AllocError>
    requires named { order_words play.order ≢ None }
    requires ready { ReadsReady text.items ready }
    ensures run { IfOk result (IsRun (⟦<ScaledAmps as Amps>⟧.store) play ready) }
    ensures may_put { IfOk result (MayPutRun (⟦<ScaledAmps as Amps>⟧.store)) }
{
    let mut machine = machine_of(alloc, text, ready)?;
    play_as(&mut machine, play.order);
    Run::of(alloc, play, machine)
}

/// Plays a machine from its start, until no rank has an event left or the machine is halted.
pub(crate) fn play_as<A: Amps>(machine: &mut Machine<A>, order: Order)
    requires able { A.able }
    requires named { order_words order ≢ None }
    requires start { machine.old.schedule ≡ [] }
    requires running { machine.old.halted ≡ None }
    ensures programs { machine.new.programs ≡ machine.old.programs }
    ensures played { HasPlayed order machine.new }
{
    match order {
        Order::Lowest => play_order(machine),
        Order::Seeded { seed } => play_seed(machine, seed),
        Order::Any => unreachable!(),
    }
}

/// Where and why a machine was halted, if it was.
pub(crate) fn halt_of<A: Amps>(machine: &Machine<A>) -> Option<Halt>
    ensures halt { result ≡ machine.now.halted }
    ensures kept { Keeps A.store machine.now }
{
    match machine.state() {
        State::Halted { halt } => Some(halt),
        State::AllEnded | State::Running => None,
    }
}

/// The line of where and why a run stopped.
pub(crate) fn stop_line(halt: Halt) -> FaultLine
    ensures { result ≡ FaultLine.Stopped halt.rank halt.turns halt.cause }
{
    let Halt { rank, turns, cause } = halt;
    FaultLine::Stopped { rank, turns, cause }
}

/// Writes the line of where and why a run stopped.
pub(crate) fn put_halt<O: Sink>(sink: &mut O, halt: Halt) -> Result<(), Failed>
    ensures { Puts (O.seen sink.old) (O.seen sink.new)
        (stopped_line halt.rank halt.turns halt.cause) result }
{
    put_fault(sink, &stop_line(halt))
}

/// Writes the state text of a run that ended, or the line of where and why it stopped.
fn put_end<A: Amps, O: Sink>(sink: &mut O, run: &Run<A>) -> Result<(), Failed>
    requires { MayPutRun A.store run.now }
    ensures { Puts (O.seen sink.old) (O.seen sink.new) (end_text A.store run.now) result }
{
    match run.halt {
        Some(halt) => put_halt(sink, halt),
        None => put_state(sink, &run.head, &run.live, run.machine.amps()),
    }
}

/// Writes the block of a run's schedule, where its command lists one.
fn put_block<A: Amps, O: Sink>(sink: &mut O, run: &Run<A>) -> Result<(), Failed>
    ensures { Puts (O.seen sink.old) (O.seen sink.new)
        (block_of run.now.play.listing (is_none run.now.halt) run.now.machine.programs
        run.now.machine.schedule) result }
{
    match run.play.listing {
        Listing::Nothing => Ok(()),
        Listing::Trace => put_trace(sink, run.machine.ready(), run.machine.schedule()),
        Listing::Turns => put_turns(sink, run.machine.schedule()),
        Listing::TurnsOfStop if run.halt.is_some() => put_turns(sink, run.machine.schedule()),
        Listing::TurnsOfStop => Ok(()),
    }
}

/// Writes the text of a run.
pub(crate) fn put_run<A: Amps, O: Sink>(sink: &mut O, run: &Run<A>) -> Result<(), Failed>
    requires { MayPutRun A.store run.now }
    ensures { Puts (O.seen sink.old) (O.seen sink.new) (run_text A.store run.now) result }
{
    put_end(sink, run)?;
    put_block(sink, run)
}
