//! Tests of qm_ranks: orders of turns that were worked out by hand, from the generator's published algorithm.
use crate::fixtures::{follow, machine_of};
use qm_denot::PlainAmps;
use qm_machine::{Cause, Halt, Machine, State};
use qm_ranks::{play_order, play_seed};
use std::process::Abort;
use std::test::Fail;

/// In which order a machine is played.
#[derive(Clone, Copy)]
enum Order {
    Lowest,
    Seed(u64),
}

/// Plays a machine to its end.
fn play(machine: &mut Machine<PlainAmps>, order: Order) {
    match order {
        Order::Lowest => play_order(machine),
        Order::Seed(seed) => play_seed(machine, seed),
    }
}

/// Three ranks that set a bit three times, twice and four times.
const BUSY: &str = "qmpi 1 ranks 3 qubits 1 buffer 1 \
    rank 0 for i in 0..3 { set 31 1 } end rank 1 for i in 0..2 { set 31 1 } end rank 2 for i in 0..4 { set 31 1 } end";

/// Rank 0 sends a copy of a qubit to rank 1.
const COPY: &str =
    "qmpi 1 ranks 2 qubits 1 buffer 1 rank 0 alloc 0 copyto 0 1 7 end rank 1 copyfrom 0 0 7 end protocol 0 b1";

/// The ranks that are stepped first, the order in which the machine is played then, and the schedule at its end.
fn played_rows() -> [(&'static str, Order, [u32; 9]); 4] {
    [
        ("21", Order::Lowest, [2, 1, 0, 0, 0, 1, 2, 2, 2]),
        ("", Order::Seed(0), [2, 2, 2, 2, 0, 1, 0, 1, 0]),
        ("", Order::Seed(7), [2, 1, 1, 0, 0, 0, 2, 2, 2]),
        ("", Order::Seed(u64::MAX), [1, 2, 1, 0, 2, 0, 2, 2, 0]),
    ]
}

/// A machine has this schedule, and all its ranks have ended.
fn has_ended(rt: &impl Abort, machine: &Machine<PlainAmps>, schedule: &[u32]) {
    assert!(rt; machine.schedule() == schedule && matches!(machine.state(), State::AllEnded));
}

#[test]
fn the_ranks_go_on_in_this_order(rt: HostRuntime) -> Result<(), Fail> {
    for (first, order, schedule) in played_rows() {
        let mut machine = machine_of(&rt, rt.alloc(), BUSY)?;
        follow(&rt, rt.alloc(), &mut machine, first)?;
        play(&mut machine, order);
        has_ended(&rt, &machine, schedule.as_slice());
    }
    Ok(())
}

#[test]
fn a_rank_that_waits_is_passed_over(rt: HostRuntime) -> Result<(), Fail> {
    for seed in 1..21u64 {
        let mut machine = machine_of(&rt, rt.alloc(), COPY)?;
        play(&mut machine, Order::Seed(seed));
        has_ended(&rt, &machine, [0, 0, 0, 0, 1, 1].as_slice());
    }
    Ok(())
}

#[test]
fn a_halted_machine_stays(rt: HostRuntime) -> Result<(), Fail> {
    let text = "qmpi 1 ranks 1 qubits 1 buffer 1 rank 0 alloc 0 x 0 free 0 end";
    let mut machine = machine_of(&rt, rt.alloc(), text)?;
    let halt = Halt {
        rank: 0,
        turns: 2,
        cause: Cause::NotZero,
    };
    for order in [Order::Seed(3), Order::Lowest, Order::Seed(4)] {
        play(&mut machine, order);
        assert_eq!(rt; machine.state(), State::Halted { halt });
        assert!(rt; machine.schedule() == [0, 0].as_slice());
    }
    Ok(())
}
