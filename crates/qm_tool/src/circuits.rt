//! Commands on the one circuit of programs: its text, its amplitudes, and the check.
ghost use Rattle.std.specs.Prelude.{◌≡◌};
ghost use Rattle.qm_check.specs.Checks.{IsReady, most_capacity};
ghost use Rattle.qm_ideal.specs.OneCircuits.{IsOneCircuit};
ghost use Rattle.qm_tool.specs.Answers.{AnswersReady};

use crate::answer::Answer;
use crate::command::Command;
use crate::ends::{full_slots, head_of};
use crate::refusal::Refusal;
use qm_check::Ready;
use qm_denot::Amps;
use qm_eval::evaluate;
use qm_ideal::{OneCircuit, mono, rendezvous};
use qm_limits::{MOST_CAPACITY, MOST_CAPACITY_1};
use qm_print::{FaultLine, Head, Live};
use qm_store::ScaledAmps;
use std::alloc::Global;

/// A store that stands for the one circuit of programs, and what its text says of it.
#[derive(Drop)]
pub(crate) struct Amplitudes<A: Amps> {
    pub(crate) head: Head,
    pub(crate) live: Vec<Live>,
    pub(crate) amps: A,
}

/// The text of the one circuit of ready programs, unless ranks wait for each other.
pub(crate) fn circuit_of<A: Amps>(alloc: Global, ready: Ready) -> Result<Answer<A>, Refusal>
    ensures { AnswersReady A.store ready Command.Mono result }
{
    let circuit = mono(alloc, &ready)?;
    Ok(Answer::Circuit { ready, circuit })
}

/// How many wires a circuit of the programs may have at once: as many as their version lets slots and buffers hold.
fn most_width(ready: &Ready) -> u32
    ensures { result ≡ most_capacity ready.now.version }
{
    if ready.input().version() == 1 {
        MOST_CAPACITY_1
    } else {
        MOST_CAPACITY
    }
}

/// The amplitudes of a circuit of ready programs, unless it is too wide or leaves the range.
fn values_of(
    alloc: Global,
    ready: &Ready,
    circuit: &OneCircuit,
) -> Result<Answer<ScaledAmps>, Refusal>
    requires ready { IsReady ready.now }
    requires one { IsOneCircuit ready.now circuit.now }
    ensures { AnswersReady (⟦<ScaledAmps as Amps>⟧.store) ready.now Command.MonoAmps result }
{
    let width = circuit.width();
    if width > most_width(ready) {
        return Err(Refusal::Line {
            fault: FaultLine::Wide { width },
        });
    }
    let amps = evaluate(circuit, ready, ScaledAmps::start(alloc, width)?)?;
    let live = full_slots(alloc, ready.input(), circuit)?;
    let head = head_of(ready, circuit, amps.exponent() + ready.protocol_total());
    Ok(Answer::Valued {
        amplitudes: Amplitudes { head, live, amps },
    })
}

/// The amplitudes of the one circuit of ready programs, unless there is none, it is too wide or it leaves the range.
pub(crate) fn amplitudes_of(alloc: Global, ready: &Ready) -> Result<Answer<ScaledAmps>, Refusal>
    requires { IsReady ready.now }
    ensures { AnswersReady (⟦<ScaledAmps as Amps>⟧.store) ready.now Command.MonoAmps result }
{
    let circuit = mono(alloc, ready)?;
    values_of(alloc, ready, &circuit)
}

/// The check of ready programs.
pub(crate) fn check_of<A: Amps>(alloc: Global, ready: Ready) -> Result<Answer<A>, Refusal>
    ensures { AnswersReady A.store ready Command.Check result }
{
    let meets = rendezvous(alloc, &ready)?;
    Ok(Answer::Checked { ready, meets })
}
