//! Programs and machines of texts, and what the tests ask of machines and stores, as texts.
ghost use Rattle.std.specs.Prelude.{◌≡◌, ◌<◌, ◌↔◌, length, All, IsTrue, Contains};
ghost use Rattle.qm_denot.specs.WireLists.{Distinct};

use qm_check::{Ready, check};
use qm_denot::{Amps, PlainAmps, Wire};
use qm_expand::read;
use qm_limits::{MOST_BYTES, MOST_CAPACITY};
use qm_machine::{Machine, Step};
use qm_zomega::Zw;
use std::alloc::{AllocError, Global};
use std::process::Abort;
use std::test::Fail;

/// The programs of a text, which have no fault.
pub(crate) fn ready_of(rt: &impl Abort, alloc: Global, text: &str) -> Result<Ready, Fail> {
    let text = text.as_bytes();
    assert!(rt; text.len() <= MOST_BYTES, "a short text");
    Ok(check(alloc, read(alloc, text)?)?)
}

/// The machine of a text before its first event.
pub(crate) fn machine_of(
    rt: &impl Abort,
    alloc: Global,
    text: &str,
) -> Result<Machine<PlainAmps>, Fail> {
    let text = text.as_bytes().to_vec(alloc)?;
    assert!(rt; text.len() <= MOST_BYTES, "a short text");
    let ready = check(alloc, read(alloc, &text)?)?;
    let capacity = ready.capacity();
    assert!(rt; capacity <= MOST_CAPACITY, "a narrow store");
    let amps = PlainAmps::start(alloc, capacity)?;
    Ok(Machine::start(alloc, text, ready, amps)?)
}

/// Whether there is such a rank.
fn is_rank<A: Amps>(machine: &Machine<A>, rank: u32) -> bool
    ensures { IsTrue result ↔ (rank < length machine.now.programs.ranks) }
{
    rank < u32::from(machine.ready().input().ranks())
}

/// How many halves a rank holds; none where there is no such rank.
fn halves<A: Amps>(machine: &Machine<A>, rank: u32) -> u32 {
    if is_rank(machine, rank) {
        machine.halves(rank)
    } else {
        0
    }
}

/// What a rank's step answers, and how many halves rank 0 and rank 1 hold after it.
fn push_step<A: Amps>(
    rt: &impl Abort,
    answers: &mut String,
    machine: &mut Machine<A>,
    rank: u32,
) -> Result<(), AllocError>
    requires { A.able }
{
    assert!(rt; is_rank(machine, rank), "there is a rank {rank}");
    match machine.step(rank) {
        Step::Did { event } => {
            assert!(rt; machine.schedule().last().copied() == Some(rank));
            write!(answers, "{event:?}")?;
        }
        Step::Blocked { why } => write!(answers, "{why:?}")?,
        Step::Ended => answers.push_str("Ended")?,
        Step::Halted => answers.push_str("Halted")?,
    }
    write!(answers, " {}{} ", halves(machine, 0), halves(machine, 1))
}

/// Steps the ranks in this order, a digit for each. The answers, each with how many halves rank 0 and rank 1 hold after it.
pub(crate) fn follow<A: Amps>(
    rt: &impl Abort,
    alloc: Global,
    machine: &mut Machine<A>,
    turns: &str,
) -> Result<String, AllocError>
    requires { A.able }
{
    let mut answers = String::new(alloc);
    for digit in turns.as_bytes() {
        let rank = u32::from(digit.saturating_sub(b'0'));
        push_step(rt, &mut answers, machine, rank)?;
    }
    Ok(answers)
}

/// Steps the lowest rank that is neither ended nor blocked until there is none, or the machine is halted.
pub(crate) fn go_on<A: Amps>(rt: &impl Abort, machine: &mut Machine<A>)
    requires { A.able }
{
    for _ in 0..2_000u32 {
        if !steps_lowest(rt, machine) {
            return;
        }
    }
    assert!(rt; false, "a short run");
}

/// Whether one of the ranks had an event; the lowest that is enabled has it.
fn steps_lowest<A: Amps>(rt: &impl Abort, machine: &mut Machine<A>) -> bool
    requires { A.able }
{
    for rank in 0..u32::from(machine.ready().input().ranks()) {
        assert!(rt; is_rank(machine, rank), "there is a rank {rank}");
        if let Step::Did { .. } = machine.step(rank) {
            return true;
        }
    }
    false
}

/// A full slot.
#[derive(Drop)]
pub(crate) struct Qubit {
    rank: u16,
    slot: u8,
    wire: Wire,
}

/// The full slots of ranks below 4, by rank, where `at` tells the wire of each.
pub(crate) fn qubits_of<F: Fn(u16, u8) -> Option<Wire>>(
    alloc: Global,
    at: F,
) -> Result<Vec<Qubit>, AllocError>
    requires { F.IsAlwaysCallable at }
{
    let mut qubits = Vec::new(alloc);
    for rank in 0..4u16 {
        for slot in 0..4u8 {
            if let Some(wire) = at(rank, slot) {
                qubits.push(Qubit { rank, slot, wire })?;
            }
        }
    }
    Ok(qubits)
}

/// Whether a list has this wire.
fn has_wire(wires: &[Wire], w: Wire) -> bool
    ensures { IsTrue result ↔ Contains wires.now w }
{
    wires.contains(&w)
}

/// Whether each of these wires is live, and stands there once.
fn may_be_ones(live: &[Wire], ones: &[Wire]) -> bool
    ensures live { IsTrue result → All (Contains live.now) ones.now }
    ensures once { IsTrue result → Distinct ones.now }
{
    match ones {
        [] => true,
        [first, rest @ ..] => {
            if has_wire(rest, *first) {
                return false;
            }
            if !has_wire(live, *first) {
                return false;
            }
            may_be_ones(live, rest)
        }
    }
}

/// The numerator where just these wires are one, which are live.
fn numerator<A: Amps>(rt: &impl Abort, amps: &A, ones: &[Wire]) -> Zw {
    if !may_be_ones(amps.live(), ones) {
        panic!(rt; "a wire that isn't live");
    }
    amps.value(ones)
}

/// The wires that are one in a branch, whose number has a bit for each qubit, the first one's the highest.
fn ones_of(alloc: Global, qubits: &[Qubit], branch: u32) -> Result<Vec<Wire>, AllocError> {
    let mut ones = Vec::new(alloc);
    let mut left = branch;
    for qubit in qubits.iter().rev() {
        if left % 2 == 1 {
            ones.push(qubit.wire)?;
        }
        left /= 2;
    }
    Ok(ones)
}

/// The bits of a branch over so many qubits.
fn branch_name(alloc: Global, branch: u32, count: usize) -> Result<String, AllocError> {
    if count == 0 {
        return Ok(String::new(alloc));
    }
    format!(in alloc; "{branch:0count$b}")
}

/// A branch over these qubits, if it isn't zero.
fn push_branch<A: Amps>(
    rt: &impl Abort,
    alloc: Global,
    text: &mut String,
    amps: &A,
    qubits: &[Qubit],
    branch: u32,
) -> Result<(), AllocError> {
    let ones = ones_of(alloc, qubits, branch)?;
    let Zw { a, b, c, d } = numerator(rt, amps, &ones);
    if (a, b, c, d) == (0, 0, 0, 0) {
        return Ok(());
    }
    let name = branch_name(alloc, branch, qubits.len())?;
    write!(text, "; |{name}> {a} {b} {c} {d}")
}

/// The ranks and the slots of these qubits.
fn push_qubits(text: &mut String, qubits: &[Qubit]) -> Result<(), AllocError> {
    for qubit in qubits {
        let Qubit { rank, slot, .. } = qubit;
        write!(text, " {rank}.{slot}")?;
    }
    Ok(())
}

/// What a store contains: how many wires are live, these qubits, and the branches over them that aren't zero.
pub(crate) fn contents<A: Amps>(
    rt: &impl Abort,
    alloc: Global,
    amps: &A,
    qubits: &[Qubit],
) -> Result<String, AllocError> {
    let wires = amps.live().len();
    let mut text = format!(in alloc; "wires {wires};")?;
    push_qubits(&mut text, qubits)?;
    assert!(rt; qubits.len() < 16, "few qubits");
    for branch in 0..1u32 << qubits.len() {
        push_branch(rt, alloc, &mut text, amps, qubits, branch)?;
    }
    Ok(text)
}

/// What a machine's store contains.
pub(crate) fn machine_contents<A: Amps>(
    rt: &impl Abort,
    alloc: Global,
    machine: &Machine<A>,
) -> Result<String, AllocError> {
    let qubits = qubits_of(alloc, |rank, slot| machine.slot(u32::from(rank), slot))?;
    contents(rt, alloc, machine.amps(), &qubits)
}

/// How far a machine is, its events and letters, and the bits of its ranks.
fn books_of<A: Amps>(
    rt: &impl Abort,
    alloc: Global,
    machine: &Machine<A>,
) -> Result<String, AllocError> {
    let (state, events) = (machine.state(), machine.schedule().len());
    let (letters, paulis) = (machine.letters(), machine.paulis());
    let mut text = format!(in alloc;
        "{state:?}; events {events}; letters {letters}; paulis {paulis}; bits"
    )?;
    for rank in 0..u32::from(machine.ready().input().ranks()) {
        assert!(rt; is_rank(machine, rank), "there is a rank {rank}");
        write!(text, " {:x}", machine.bits(rank))?;
    }
    Ok(text)
}

/// What a machine shows: how far it is, its events and letters, the bits of its ranks, and its store.
pub(crate) fn shown<A: Amps>(
    rt: &impl Abort,
    alloc: Global,
    machine: &Machine<A>,
) -> Result<String, AllocError> {
    let books = books_of(rt, alloc, machine)?;
    let contents = machine_contents(rt, alloc, machine)?;
    format!(in alloc;
        "{books}; exponent {}; {contents}",
        machine.amps().exponent()
    )
}
