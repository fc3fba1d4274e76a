//! Runs in which each rank has a thread of its own: what they write, whatever order the threads came in, and that two are at work at once.
ghost use Rattle.std.specs.Prelude.{◌<◌};

use super::calls::{Row, answer_by_threads, expect_answer, threaded_status_of};
use super::halves::{machine_of, step_at};
use super::programs::PROGRAMS;
use super::runs::{STATES, STOPS};
use super::texts::{
    ALL_WAIT, BOTH_WAIT, BROADCAST, BROADCAST_STATE, COPIED, COPIED_IN_TURN, COPY_ONE, PLUS,
    PLUS_STATE, TREE, TREE_UNDONE, TREE_UNDONE_STATE,
};
use super::watched::WatchedSink;
use qm_io::MemSource;
use qm_machine::{State, Step};
use qm_ranks::{NoGate, Turnstile};
use std::alloc::Global;
use std::process::Abort;
use std::sync::Wait;
use std::sync::atomic::{AtomicU64, Ordering};
use std::test::Fail;
use std::thread::Threads;

/// Tries that a command that may start threads answers so.
fn expect_by_threads<R: Abort + Threads + Wait + Sync>(
    rt: &R,
    alloc: Global,
    line: &str,
    text: &str,
    due: (u8, &str),
) -> Result<(), Fail> {
    let answer = answer_by_threads(rt, alloc, line, text.as_bytes(), &NoGate)?;
    expect_answer(rt, line, answer, due)
}

/// What the copy leaves, and the ranks of its turns, which have one order.
const COPIED_WITH_TURNS: &str =
    "state 1\nranks 2\nprotocol 1\nscale 2\nbits 0 00000000\nbits 1 00000000\n\
        live 0.0 1.0\n00 1 0 0 0\n11 1 0 0 0\nend\n\
        turns 7\n0\n0\n0\n0\n0\n1\n1\nend\n";

/// A qubit that is one is given up.
const ONE_FREED: &str = "qmpi 1 ranks 1 qubits 1 buffer 1 rank 0 alloc 0 x 0 free 0 end";

/// A copy that differs from its source is given back.
const NOT_THE_SAME: &str =
    "qmpi 1 ranks 2 qubits 1 buffer 1 rank 0 alloc 0 copyto 0 1 1 undofrom 0 1 2 end \
        rank 1 copyfrom 0 0 1 x 0 undoto 0 0 2 end protocol 0 b0 protocol 1 b0";

/// Runs whose answer is one alone, texts that are refused, words that ask for no threads, and words that are no command.
const ANSWERS: [Row; 20] = [
    ("run", COPY_ONE, 0, COPIED),
    ("run", TREE, 0, BROADCAST_STATE),
    ("run", TREE_UNDONE, 0, TREE_UNDONE_STATE),
    ("run turns", COPY_ONE, 0, COPIED_WITH_TURNS),
    (
        "run",
        ONE_FREED,
        6,
        "stopped rank 0 turns 2 not-zero\nturns 2\n0\n0\nend\n",
    ),
    (
        "run turns",
        ONE_FREED,
        6,
        "stopped rank 0 turns 2 not-zero\nturns 2\n0\n0\nend\n",
    ),
    (
        "run",
        NOT_THE_SAME,
        6,
        "stopped rank 1 turns 7 not-equal\nturns 7\n0\n0\n0\n0\n1\n1\n1\nend\n",
    ),
    (
        "run",
        BOTH_WAIT,
        6,
        "stopped rank 0 turns 0 stuck\nturns 0\nend\n",
    ),
    (
        "run turns",
        ALL_WAIT,
        6,
        "stopped rank 0 turns 0 stuck\nturns 0\nend\n",
    ),
    ("run", "qmpi 1 ranks", 5, "refused unended line 1\n"),
    ("run turns", "qmpi 3", 5, "refused unexpected line 1\n"),
    (
        "run",
        "qmpi 1 ranks 1 qubits 1 buffer 1 rank 0 h 0 end",
        5,
        "refused slot-empty rank 0 instruction 0\n",
    ),
    (
        "run",
        "qmpi 1 ranks 3 qubits 6 buffer 1 all end",
        5,
        "refused too-wide capacity 21\n",
    ),
    ("plain", COPY_ONE, 0, COPIED),
    ("trace 1", COPY_ONE, 0, COPIED_IN_TURN),
    ("mono", BOTH_WAIT, 9, "waits 0 1\n"),
    ("run more", COPY_ONE, 2, "usage\n"),
    ("run turns 1", COPY_ONE, 2, "usage\n"),
    ("turns", COPY_ONE, 2, "usage\n"),
    ("runs", COPY_ONE, 2, "usage\n"),
];

#[test]
fn threads_answer_what_is_due(rt: HostRuntime) -> Result<(), Fail> {
    for (line, text, code, due) in ANSWERS {
        expect_by_threads(&rt, rt.alloc(), line, text, (code, due))?;
    }
    Ok(())
}

/// How often each program is run.
const RUNS: u32 = 20;

#[test]
fn every_run_leaves_the_same_state(rt: HostRuntime) -> Result<(), Fail> {
    for (_, text, code, due) in STATES {
        for _ in 0..RUNS {
            expect_by_threads(&rt, rt.alloc(), "run", text, (code, due))?;
        }
    }
    Ok(())
}

#[test]
fn every_stop_is_written_with_its_turns(rt: HostRuntime) -> Result<(), Fail> {
    for (_, text, code, due) in STOPS {
        for line in ["run", "run turns"] {
            let (status, sink) = answer_by_threads(
                &rt,
                rt.alloc(),
                line,
                text.as_bytes(),
                &NoGate,
            )?;
            let turns = turns_in(&rt, rt.alloc(), sink.taken(), due)?;
            let said = format!(in rt.alloc(); " turns {} ", turns.len())?;
            assert!(rt;
                status == code && due.contains(said.as_str()) && sink.is_flushed_once(),
                "{due}"
            );
        }
    }
    Ok(())
}

/// The ranks that the turns block behind this text lists.
fn turns_in(rt: &impl Abort, alloc: Global, taken: &[u8], text: &str) -> Result<Vec<u32>, Fail> {
    let taken = str::from_utf8(taken).unwrap_or("no text");
    let block = taken.strip_prefix(text).unwrap_or("no such text");
    let mut turns = Vec::new(alloc);
    for line in block.lines() {
        if let Ok(rank) = line.parse::<u32>() {
            turns.push(rank)?;
        }
    }
    let mut whole = format!(in alloc; "turns {}\n", turns.len())?;
    for rank in &turns {
        whole.push_str(format!(in alloc; "{rank}\n")?.as_str())?;
    }
    whole.push_str("end\n")?;
    assert_eq!(rt; block, whole.as_str(), "a turns block");
    Ok(turns)
}

/// Tries that a machine of a text can be stepped in these turns, one event each, and that they are all that its ranks have.
fn try_turns(rt: &impl Abort, alloc: Global, text: &str, turns: &[u32]) -> Result<(), Fail> {
    let mut machine = machine_of(rt, alloc, text)?;
    for rank in turns {
        let step = step_at(&mut machine, *rank);
        assert!(rt; matches!(step, Step::Did { .. }), "rank {rank}: {text}");
    }
    assert!(rt;
        machine.state() == State::AllEnded && machine.schedule() == turns,
        "{text}"
    );
    Ok(())
}

/// The turns that are listed can be played, and the state before them is that of the one circuit.
#[test]
fn listed_turns_can_be_played_again(rt: HostRuntime) -> Result<(), Fail> {
    for program in &PROGRAMS {
        let text = program.text(rt.alloc(), program.buffers.0, 5)?;
        let (amps, one) = answer_by_threads(
            &rt,
            rt.alloc(),
            "mono amps",
            text.as_bytes(),
            &NoGate,
        )?;
        let (run, sink) = answer_by_threads(
            &rt,
            rt.alloc(),
            "run turns",
            text.as_bytes(),
            &NoGate,
        )?;
        assert!(rt; (amps, run) == (0, 0), "{}", program.body);
        let state = str::from_utf8(one.taken()).unwrap_or("no text");
        let turns = turns_in(&rt, rt.alloc(), sink.taken(), state)?;
        try_turns(&rt, rt.alloc(), text.as_str(), &turns)?;
    }
    Ok(())
}

/// A read that fails, a write that fails, and a flush that fails.
#[test]
fn ends_that_fail_are_told(rt: HostRuntime) -> Result<(), Fail> {
    for (failing_read, failing_call, code, due) in [
        (2, 0, 3, "read fault\n"),
        (0, 1, 7, ""),
        (0, 3, 7, "state 1\nranks 1\n"),
        (0, 0, 0, PLUS_STATE),
    ] {
        let fails = [failing_read].to_vec(rt.alloc())?;
        let text = PLUS.as_bytes().to_vec(rt.alloc())?;
        let mut source = MemSource::start(text, fails, 16);
        let mut sink = WatchedSink::start(rt.alloc(), 400, failing_call, 8)?;
        let ends = (&mut source, &mut sink);
        let status = threaded_status_of(&rt, rt.alloc(), "run", ends, &NoGate)?;
        assert!(rt;
            (status, sink.taken()) == (code, due.as_bytes()) && sink.late == 0,
            "read {failing_read}, call {failing_call}"
        );
    }
    Ok(())
}

/// Wherever a call of the sink fails, the flush among them, it has a front of what is due, and nothing more is called on it.
#[test]
fn a_sink_that_fails_has_a_front_of_what_threads_leave(rt: HostRuntime) -> Result<(), Fail> {
    let calls = BROADCAST_STATE.len().div_ceil(8) as u64 + 1;
    for failing in 1..calls + 2 {
        let text = BROADCAST.as_bytes().to_vec(rt.alloc())?;
        let mut source = MemSource::start(text, Vec::new(rt.alloc()), 7);
        let mut sink = WatchedSink::start(rt.alloc(), 400, failing, 8)?;
        let ends = (&mut source, &mut sink);
        let status = threaded_status_of(&rt, rt.alloc(), "run", ends, &NoGate)?;
        let is_front = BROADCAST_STATE.as_bytes().starts_with(sink.taken());
        assert!(rt;
            (status == 7) == (failing <= calls) && is_front && sink.late == 0,
            "call {failing}"
        );
    }
    Ok(())
}

/// How many events the ranks of the broadcast have.
const BROADCAST_EVENTS: [u64; 4] = [11, 2, 2, 2];

/// So many turns in vain, one after another, end a worker.
const MANY_TURNS: u64 = 10_000;

/// How often a rank looks for the other one.
const LOOKS: u32 = 100_000_000;

/// A gate at which ranks 0 and 1 wait before their first turns until the other one is there too. It counts the turns of each rank.
#[derive(Drop)]
struct Meeting {
    turns: [AtomicU64; 4],
    met: [AtomicU64; 4],
}

/// Four counts of nothing.
fn counts() -> [AtomicU64; 4] {
    [
        AtomicU64::new(0),
        AtomicU64::new(0),
        AtomicU64::new(0),
        AtomicU64::new(0),
    ]
}

impl Meeting {
    /// Looks for the other rank, and notes that it was seen.
    fn meet(&self, me: usize, other: usize)
        requires me { me < 4 }
        requires other { other < 4 }
    {
        for _ in 0..LOOKS {
            if self.turns[other].load(Ordering::SeqCst) > 0 {
                self.met[me].store(1, Ordering::SeqCst);
                return;
            }
        }
    }
}

impl Turnstile for Meeting {
    fn before(&self, rank: u32) {
        let me = rank as usize;
        if me < 4 && self.turns[me].fetch_add(1, Ordering::SeqCst) == 0 && me < 2 {
            self.meet(me, 1 - me);
        }
    }
}

/// Two threads are at work at once. Each passes the gate once for each of its rank's events and once more, or so often that it may leave.
#[test]
fn two_ranks_meet_at_the_gate(rt: HostRuntime) -> Result<(), Fail> {
    let gate = Meeting {
        turns: counts(),
        met: counts(),
    };
    let answer = answer_by_threads(&rt, rt.alloc(), "run", BROADCAST.as_bytes(), &gate)?;
    expect_answer(&rt, "run", answer, (0, BROADCAST_STATE))?;
    for (rank, events) in BROADCAST_EVENTS.iter().enumerate() {
        let turns = gate.turns[rank].load(Ordering::SeqCst);
        assert!(rt; turns > *events || turns >= MANY_TURNS, "rank {rank}");
        let met = gate.met[rank].load(Ordering::SeqCst);
        assert_eq!(rt; met, u64::from(rank < 2), "rank {rank}");
    }
    Ok(())
}
