//! Texts that are long, and answers that fill more than a page.
use super::calls::{expect, try_failing};
use std::alloc::{AllocError, Global};
use std::test::Fail;

/// A text of so many repetitions of a line between a front and a back.
type Long = (&'static str, u32, &'static str, &'static str);

fn long_text(alloc: Global, long: &Long) -> Result<String, AllocError> {
    let (front, times, line, back) = long;
    let mut text = String::from_str(alloc, front)?;
    for _ in 0..*times {
        text.push_str(line)?;
    }
    text.push_str(back)?;
    Ok(text)
}

/// Answers of more than a page, which has 8,192 bytes: of each command the words, the program, the exit status and what is due.
const PAGES: [(&str, &str, u8, Long); 3] = [
    (
        "trace 3",
        "qmpi 1 ranks 1 qubits 1 buffer 1 rank 0 for i in 0..3000 { set 0 1 } end",
        0,
        (
            "state 1\nranks 1\nprotocol 0\nscale 0\nbits 0 00000001\nlive\n- 1 0 0 0\nend\nturns 3000\n",
            3000,
            "0 set\n",
            "end\n",
        ),
    ),
    (
        "trace 3",
        "qmpi 1 ranks 1 qubits 1 buffer 1 rank 0 alloc 0 x 0 for i in 0..3000 { set 0 1 } free 0 end",
        6,
        (
            "stopped rank 0 turns 3002 not-zero\nturns 3002\n0 alloc\n0 gate\n",
            3000,
            "0 set\n",
            "end\n",
        ),
    ),
    (
        "mono",
        "qmpi 1 ranks 1 qubits 1 buffer 1 rank 0 alloc 0 for i in 0..3000 { x 0 } end",
        0,
        (
            "circuit 1\nranks 1\nprotocol 0\nbits 0 00000000\nletters 3000\n",
            3000,
            "flip 0.0\n",
            "slot 0 0 0.0\nend\n",
        ),
    ),
];

/// A program of twelve qubits, each of which is zero and one at once.
const TWELVE: &str = "qmpi 1 ranks 1 qubits 12 buffer 1 rank 0 for i in 0..12 { alloc i h i } end";

/// What they leave: a line for each string of twelve bits.
fn twelve_state(alloc: Global) -> Result<String, AllocError> {
    let mut text = String::from_str(
        alloc,
        "state 1\nranks 1\nprotocol 0\nscale 12\nbits 0 00000000\n\
            live 0.0 0.1 0.2 0.3 0.4 0.5 0.6 0.7 0.8 0.9 0.10 0.11\n",
    )?;
    for number in 0..4096u32 {
        for place in 0..12u32 {
            text.push(if number & (2_048u32 >> place) != 0 {
                '1'
            } else {
                '0'
            })?;
        }
        text.push_str(" 1 0 0 0\n")?;
    }
    text.push_str("end\n")?;
    Ok(text)
}

/// A program of 3,000 events of one rank.
const SETS: &str = "qmpi 1 ranks 1 qubits 1 buffer 1 rank 0 for i in 0..3000 { set 0 1 } end";

/// What it costs where each event takes 2.
fn sets_cost(alloc: Global) -> Result<String, AllocError> {
    let mut text = String::from_str(alloc, "cost 1\nevents 3000\ntime 6000\nchain 3000\n")?;
    for number in 0..3_000u32 {
        text.push_str(format!(in alloc; "{number} 0 set {}\n", 2 * number + 2)?.as_str())?;
    }
    text.push_str("end\n")?;
    Ok(text)
}

#[test]
fn an_answer_of_many_pages_is_flushed_once_and_fails_at_each(rt: HostRuntime) -> Result<(), Fail> {
    let alloc = rt.alloc();
    for (line, text, code, long) in &PAGES {
        let due = long_text(alloc, long)?;
        expect(&rt, alloc, line, text.as_bytes(), (*code, due.as_str()))?;
        try_failing(&rt, alloc, line, text.as_bytes(), 10_000)?;
    }
    let due = twelve_state(alloc)?;
    for line in ["plain", "sched 3", "mono amps"] {
        expect(&rt, alloc, line, TWELVE.as_bytes(), (0, due.as_str()))?;
        try_failing(&rt, alloc, line, TWELVE.as_bytes(), 10_000)?;
    }
    let due = sets_cost(alloc)?;
    expect(
        &rt,
        alloc,
        "cost 3 2 1 1",
        SETS.as_bytes(),
        (0, due.as_str()),
    )?;
    try_failing(&rt, alloc, "cost 3 2 1 1", SETS.as_bytes(), 10_000)?;
    try_failing(&rt, alloc, "gen ring 10000 1", b"", 10_000)
}

/// A program of 100,000 instructions, whose capacity is 20 and whose 16 slots are full at its end.
const LARGEST: Long = (
    "qmpi 1 ranks 1 qubits 16 buffer 4 rank 0 alloc 0 x 0
        for i in 0..50000 { measure 0 31 } for i in 0..49968 { set 0 1 } for i in 1..16 { alloc i x i } end own 0 b",
    50_000,
    "1",
    "",
);

const LARGEST_STATE: &str = "state 1\nranks 1\nprotocol 0\nscale 0\nbits 0 80000001\n\
        live 0.0 0.1 0.2 0.3 0.4 0.5 0.6 0.7 0.8 0.9 0.10 0.11 0.12 0.13 0.14 0.15\n\
        1111111111111111 1 0 0 0\nend\n";

/// With the qubit itself, so many copies take 100,000 instructions: one that sends each, one that takes it and one that gives it up.
/// All are sent before the first is taken, so the one circuit has all of them at once.
const COPIES: Long = (
    "qmpi 1 ranks 2 qubits 1 buffer 1 rank 0 alloc 0 for i in 0..33333 { copyto 0 1 1 } end \
        rank 1 for i in 0..33333 { copyfrom 0 0 1 free 0 } end protocol 0 b",
    33_333,
    "1",
    "",
);

/// Programs at the limits, which no command answers by want of memory where there is ample memory.
const LIMITS: [(&str, Long, u8, &str); 6] = [
    ("plain", LARGEST, 0, LARGEST_STATE),
    ("sched 7", LARGEST, 0, LARGEST_STATE),
    ("mono amps", LARGEST, 0, LARGEST_STATE),
    (
        "check",
        LARGEST,
        0,
        "check 1\nranks 1\ncapacity 20\ninstructions 100000\nevents 100000\nown 50000\nprotocol 0\nrendezvous yes\nend\n",
    ),
    ("mono amps", COPIES, 10, "wide 33334\n"),
    (
        "check",
        COPIES,
        0,
        "check 1\nranks 2\ncapacity 4\ninstructions 100000\nevents 199999\nown 0\nprotocol 33333\nrendezvous yes\nend\n",
    ),
];

/// The one circuit of the copies.
fn copies_circuit(alloc: Global) -> Result<String, AllocError> {
    let mut text = String::from_str(
        alloc,
        "circuit 1\nranks 2\nprotocol 33333\nbits 0 00000000\nbits 1 00000000\nletters 66666\n",
    )?;
    for number in 1..33_334 {
        text.push_str(format!(in alloc; "cx 0.0 0.{number}\n")?.as_str())?;
    }
    for number in 1..33_334 {
        text.push_str(format!(in alloc; "take 0.{number} 0\n")?.as_str())?;
    }
    text.push_str("slot 0 0 0.0\nend\n")?;
    Ok(text)
}

#[test]
fn the_largest_programs_are_run(rt: HostRuntime) -> Result<(), Fail> {
    let alloc = rt.alloc();
    for (line, long, code, due) in &LIMITS {
        let text = long_text(alloc, long)?;
        expect(&rt, alloc, line, text.as_bytes(), (*code, due))?;
    }
    let text = long_text(alloc, &COPIES)?;
    let due = copies_circuit(alloc)?;
    expect(&rt, alloc, "mono", text.as_bytes(), (0, due.as_str()))
}
