//! How many halves of pairs a rank holds at once.
use super::programs::{FILLING, PROGRAMS, Program};
use qm_check::check;
use qm_denot::{Amps, PlainAmps};
use qm_expand::read;
use qm_limits::{MOST_BYTES, MOST_CAPACITY, MOST_RANKS};
use qm_machine::{Machine, State, Step};
use rand_core::utils::NextWord;
use rand_pcg::Lcg64Xsh32;
use std::alloc::Global;
use std::process::Abort;
use std::test::Fail;

/// More turns than a run of these programs has.
const MANY_TURNS: u32 = 1_000;

/// A machine of the programs of a text, before its first event.
pub(super) fn machine_of(
    rt: &impl Abort,
    alloc: Global,
    text: &str,
) -> Result<Machine<PlainAmps>, Fail> {
    let text = text.as_bytes().to_vec(alloc)?;
    assert!(rt; text.len() <= MOST_BYTES, "a short text");
    let ready = check(alloc, read(alloc, &text)?)?;
    let capacity = ready.capacity();
    assert!(rt; capacity <= MOST_CAPACITY, "a narrow store");
    let amps = PlainAmps::start(alloc, capacity)?;
    Ok(Machine::start(alloc, text, ready, amps)?)
}

/// The most halves that any rank holds.
fn most_held(machine: &Machine<PlainAmps>) -> u32 {
    let mut most = 0;
    for rank in 0..u32::from(machine.ready().input().ranks()) {
        most = most.max(machine.halves(rank));
    }
    most
}

/// Steps the rank that a number is modulo the number of ranks.
pub(super) fn step_at(machine: &mut Machine<PlainAmps>, number: u32) -> Step {
    let ranks = u32::from(machine.ready().input().ranks());
    machine.step(number % ranks)
}

/// Steps the first rank that is neither ended nor blocked, from the word modulo the number of ranks on, in their cyclic order.
fn turn(machine: &mut Machine<PlainAmps>, word: u32) {
    let start = word % u32::from(machine.ready().input().ranks());
    for steps in 0..u32::from(MOST_RANKS) {
        match step_at(machine, start + steps) {
            Step::Did { .. } | Step::Halted => return,
            Step::Blocked { .. } | Step::Ended => {}
        }
    }
}

/// The most halves that a rank holds after any turn, where a seed chooses the ranks and all of them end.
fn most_ever_held(machine: &mut Machine<PlainAmps>, seed: u64) -> Option<u32> {
    let mut generator = Lcg64Xsh32::new(seed, 1);
    let mut most = 0;
    for _ in 0..MANY_TURNS {
        match machine.state() {
            State::AllEnded => return Some(most),
            State::Halted { .. } => return None,
            State::Running => turn(machine, generator.next_word()),
        }
        most = most.max(most_held(machine));
    }
    None
}

/// The most halves that a rank of a program holds at once in runs of 20 seeds, with buffers of this size.
fn most_in_any_run(
    rt: &impl Abort,
    alloc: Global,
    program: &Program,
    buffer: u32,
) -> Result<u32, Fail> {
    let text = program.text(alloc, buffer, 341)?;
    let mut most = 0;
    for seed in 0..20 {
        let held = most_ever_held(&mut machine_of(rt, alloc, text.as_str())?, seed);
        assert!(rt;
            held.is_some(),
            "buffers of {buffer}, seed {seed}: {}",
            program.body
        );
        most = most.max(held.unwrap_or(0));
    }
    Ok(most)
}

// A pair is held at two ranks at once, so some rank always holds a half.
#[test]
fn no_rank_holds_more_halves_than_its_buffer(rt: HostRuntime) -> Result<(), Fail> {
    for program in &PROGRAMS {
        let (narrowest, widest) = program.buffers;
        for buffer in narrowest..=widest {
            let held = most_in_any_run(&rt, rt.alloc(), program, buffer)?;
            assert!(rt;
                held <= buffer && (held > 0) == (program.outcomes() > 0),
                "buffers of {buffer}: {}",
                program.body
            );
        }
    }
    Ok(())
}

#[test]
fn a_buffer_fills_up_and_no_more(rt: HostRuntime) -> Result<(), Fail> {
    for buffer in 1..5 {
        assert_eq!(rt; most_in_any_run(&rt, rt.alloc(), &FILLING, buffer)?, buffer);
    }
    Ok(())
}
