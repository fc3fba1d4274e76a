//! Tests of qm_eval: the amplitudes of one circuits.
ghost use Rattle.qm_ideal.specs.OneCircuits.{IsOneCircuit};

use crate::fixtures::{contents, go_on, machine_contents, machine_of, qubits_of, ready_of};
use crate::rows::{Run, runs};
use qm_check::Ready;
use qm_denot::{Amps, PlainAmps};
use qm_eval::{LetterOverflow, evaluate};
use qm_ideal::{OneCircuit, mono};
use qm_limits::MOST_CAPACITY;
use qm_machine::State;
use std::alloc::{AllocError, Global};
use std::process::Abort;
use std::test::Fail;

/// The width of a text's one circuit, and what its letters leave on a store that has just room enough.
#[derive(Drop)]
struct Outcome {
    width: u32,
    exponent: u64,
    contents: String,
}

/// What the letters of a one circuit leave.
fn left_by(
    rt: &impl Abort,
    alloc: Global,
    circuit: &OneCircuit,
    ready: &Ready,
) -> Result<Result<Outcome, LetterOverflow>, AllocError>
    requires { IsOneCircuit ready.now circuit.now }
{
    let width = circuit.width();
    assert!(rt; width <= MOST_CAPACITY, "a narrow store");
    match evaluate(circuit, ready, PlainAmps::start(alloc, width)?) {
        Ok(amps) => Ok(Ok(Outcome {
            width,
            exponent: amps.exponent(),
            contents: circuit_contents(rt, alloc, circuit, &amps)?,
        })),
        Err(past) => Ok(Err(past)),
    }
}

/// What a store contains over the slots of a one circuit.
fn circuit_contents(
    rt: &impl Abort,
    alloc: Global,
    circuit: &OneCircuit,
    amps: &PlainAmps,
) -> Result<String, AllocError> {
    let qubits = qubits_of(alloc, |rank, slot| circuit.slot(rank, slot))?;
    contents(rt, alloc, amps, &qubits)
}

/// What `evaluate` answers for the one circuit of a text.
fn evaluated(
    rt: &impl Abort,
    alloc: Global,
    text: &str,
) -> Result<Result<Outcome, LetterOverflow>, Fail> {
    let ready = ready_of(rt, alloc, text)?;
    let circuit = mono(alloc, &ready)?;
    Ok(left_by(rt, alloc, &circuit, &ready)?)
}

/// The width, the exponent and the amplitudes of one circuits: a qubit that no letter names; one that was moved and has its new name
/// alone; two copies that came back, and one that stays beside one that came back.
fn evaluated_rows() -> [(&'static str, u32, u64, &'static str); 4] {
    [
        (
            "qmpi 1 ranks 1 qubits 2 buffer 1 rank 0 alloc 0 h 0 alloc 1 end",
            2,
            1,
            "wires 2; 0.0 0.1; |00> 1 0 0 0; |10> 1 0 0 0",
        ),
        (
            "qmpi 1 ranks 2 qubits 1 buffer 1 rank 0 alloc 0 h 0 moveto 0 1 1 end rank 1 movefrom 0 0 1 end protocol 0 b11",
            1,
            1,
            "wires 1; 1.0; |0> 1 0 0 0; |1> 1 0 0 0",
        ),
        (
            "qmpi 1 ranks 2 qubits 2 buffer 2 \
            rank 0 alloc 0 h 0 copyto 0 1 1 copyto 0 1 1 undofrom 0 1 2 undofrom 0 1 2 end \
            rank 1 copyfrom 0 0 1 copyfrom 1 0 1 undoto 0 0 2 undoto 1 0 2 end protocol 0 b10 protocol 1 b10",
            3,
            1,
            "wires 1; 0.0; |0> 1 0 0 0; |1> 1 0 0 0",
        ),
        (
            "qmpi 1 ranks 2 qubits 2 buffer 2 rank 0 alloc 0 h 0 copyto 0 1 1 copyto 0 1 1 undofrom 0 1 2 end \
            rank 1 copyfrom 0 0 1 copyfrom 1 0 1 undoto 0 0 2 end protocol 0 b10 protocol 1 b1",
            3,
            1,
            "wires 2; 0.0 1.1; |00> 1 0 0 0; |11> 1 0 0 0",
        ),
    ]
}

#[test]
fn one_circuits_have_these_amplitudes(rt: HostRuntime) -> Result<(), Fail> {
    for (text, width, exponent, contents) in evaluated_rows() {
        let found = evaluated(&rt, rt.alloc(), text)??;
        assert!(rt;
            found.width == width && found.exponent == exponent,
            "at {text}"
        );
        assert!(rt; found.contents.as_str() == contents, "at {text}");
    }
    Ok(())
}

/// The text of a qubit that is turned by `h` and `t` so often.
fn turning_text(alloc: Global, turns: u32) -> Result<String, AllocError> {
    format!(in alloc;
        "qmpi 1 ranks 1 qubits 1 buffer 1 rank 0 alloc 0 for i in 0..{turns} {{ h 0 t 0 }} end"
    )
}

/// After 507 turns by `h` and `t` a Hadamard leaves the range of the numbers.
#[test]
fn the_first_letter_that_leaves_the_range_is_told(rt: HostRuntime) -> Result<(), Fail> {
    for (turns, past) in [(507, None), (508, Some(LetterOverflow { at: 1014 }))] {
        let text = turning_text(rt.alloc(), turns)?;
        assert_eq!(rt;
            evaluated(&rt, rt.alloc(), &text)?.err(),
            past,
            "{turns} turns"
        );
    }
    Ok(())
}

/// What a run leaves where all ranks end: the exponent less the number of measurements inside messages, and the amplitudes.
fn left_by_run(rt: &impl Abort, alloc: Global, text: &str) -> Result<Option<(u64, String)>, Fail> {
    let mut machine = machine_of(rt, alloc, text)?;
    go_on(rt, &mut machine);
    if !matches!(machine.state(), State::AllEnded) {
        return Ok(None);
    }
    let contents = machine_contents(rt, alloc, &machine)?;
    let exponent = machine
        .amps()
        .exponent()
        .saturating_sub(machine.ready().protocol_total());
    Ok(Some((exponent, contents)))
}

/// What a run with this text leaves, if it ends, is what its one circuit leaves, divided by root2 once for each measurement inside a
/// message.
fn comes_to_one(rt: &impl Abort, alloc: Global, text: &str) -> Result<(), Fail> {
    if let Some((exponent, contents)) = left_by_run(rt, alloc, text)? {
        let one = evaluated(rt, alloc, text)??;
        assert!(rt;
            exponent == one.exponent && contents == one.contents,
            "at {text}"
        );
    }
    Ok(())
}

/// So does every end of a run.
fn all_come_to_one(rt: &impl Abort, alloc: Global, run: Run) -> Result<(), Fail> {
    for (end, _) in run.ends {
        let text = format!(in alloc; "{}{end}", run.text)?;
        comes_to_one(rt, alloc, &text)?;
    }
    Ok(())
}

#[test]
fn runs_leave_what_their_one_circuits_leave(rt: HostRuntime) -> Result<(), Fail> {
    for run in runs() {
        all_come_to_one(&rt, rt.alloc(), run)?;
    }
    Ok(())
}
