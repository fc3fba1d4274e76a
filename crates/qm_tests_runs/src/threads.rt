//! Tests of machines that threads play: a stuck program, and how workers leave.

use crate::fixtures::machine_of;
use qm_denot::PlainAmps;
use qm_machine::{Cause, Halt, State};
use qm_ranks::{Exit, Leave, NoGate, Played, play_threads};
use std::alloc::Global;
use std::process::Abort;
use std::sync::Wait;
use std::test::Fail;
use std::thread::Threads;

/// Plays the machine of a text by threads.
fn played<R: Abort + Threads + Wait + Sync>(
    rt: &R,
    alloc: Global,
    text: &str,
) -> Result<Played<PlainAmps>, Fail> {
    let machine = machine_of(rt, alloc, text)?;
    assert!(rt; machine.schedule().is_empty(), "before its first event");
    Ok(play_threads(rt, alloc, machine, &NoGate)?)
}

/// How the worker of a rank left, where there is such a rank.
fn exit(rt: &impl Abort, played: &Played<PlainAmps>, rank: u32) -> Exit {
    assert!(rt;
        rank < u32::from(played.machine().ready().input().ranks()),
        "there is a rank {rank}"
    );
    played.exit(rank)
}

/// How many events the workers of three ranks made, and why they left.
#[test]
fn workers_leave_after_their_last_events(rt: HostRuntime) -> Result<(), Fail> {
    let text = "qmpi 1 ranks 3 qubits 1 buffer 1 rank 0 for i in 0..3 { set 31 1 } end \
        rank 1 for i in 0..2 { set 31 1 } end rank 2 for i in 0..4 { set 31 1 } end";
    let played = played(&rt, rt.alloc(), text)?;
    let first = exit(&rt, &played, 0);
    let second = exit(&rt, &played, 1);
    let third = exit(&rt, &played, 2);
    assert!(rt; (first.made, first.why) == (3, Leave::Ended));
    assert!(rt; (second.made, second.why) == (2, Leave::Ended));
    assert!(rt; (third.made, third.why) == (4, Leave::Ended) && played.threaded() == 9);
    Ok(())
}

/// A program in which every rank is blocked after two events is stuck, whoever finds it so: a worker, or at last the one thread.
#[test]
fn a_stuck_program_is_found(rt: HostRuntime) -> Result<(), Fail> {
    let text = "qmpi 1 ranks 2 qubits 2 buffer 1 rank 0 alloc 0 copyto 0 1 1 copyfrom 1 1 1 end \
        rank 1 alloc 0 copyto 0 0 1 copyfrom 1 0 1 end protocol 0 b0 protocol 1 b1";
    let halt = Halt {
        rank: 0,
        turns: 2,
        cause: Cause::Stuck,
    };
    for _ in 0..20 {
        let played = played(&rt, rt.alloc(), text)?;
        assert_eq!(rt; played.machine().state(), State::Halted { halt });
    }
    Ok(())
}
