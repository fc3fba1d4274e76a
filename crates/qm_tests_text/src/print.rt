//! Each text once, and how it comes to a sink.
ghost use Rattle.std.specs.Prelude.{◌≡◌, ◌↔◌, true, IsTrue, IfOk, Contains};
ghost use Rattle.qm_proto.specs.WorkedPrograms.{copy_programs};
ghost use Rattle.qm_print.specs.FaultText.{NamesNoAnswers};

use qm_check::{Fault, Ready, check};
use qm_denot::{Amps, Letter, PlainAmps, Wire};
use qm_expand::read;
use qm_ideal::{mono, rendezvous};
use qm_instr::{Gate, Input, Instr, Kind, Lane, OneGate};
use qm_io::{Failed, MemSink};
use qm_print::{
    FaultLine, Head, JobNumbers, Live, count_lines, put_bytes, put_check, put_circuit, put_fault,
    put_job, put_state, put_trace, put_turns,
};
use qm_proto::Cause;
use std::alloc::{AllocError, Global};
use std::process::Abort;
use std::test::Fail;

/// Rank 0's qubit.
const Q: Wire = Wire {
    rank: 0,
    made: 0,
    near: false,
};

const ALLOC: Instr = Instr::Alloc { q: 0 };

const HAD: Instr = Instr::Do {
    g: Gate::One {
        g: OneGate::H,
        q: 0,
    },
};

const COPY: Instr = Instr::CopyTo {
    q: 0,
    to: 1,
    tag: 7,
};

const RECEIVE: Instr = Instr::CopyFrom {
    q: 0,
    from: 0,
    tag: 7,
};

/// A sink with room for every text of the tests, which takes whole pages and doesn't fail.
fn sink(alloc: Global) -> Result<MemSink, AllocError> {
    MemSink::start(alloc, 30_000, Vec::new(alloc), 30_000)
}

/// Rank 0 makes a qubit, turns it by `h` and copies it to rank 1.
fn copy_input(alloc: Global) -> Result<Input, AllocError>
    ensures { IfOk result (λ p. p ≡ copy_programs true) }
{
    let mut input = Input::start(alloc, 1, 2)?;
    input.push(0, ALLOC)?;
    input.push(0, HAD)?;
    input.push(0, COPY)?;
    input.push_protocol(0, true)?;
    input.push(1, RECEIVE)?;
    Ok(input)
}

fn copied(alloc: Global) -> Result<Ready, Fail>
    ensures { IfOk result (λ r. r ≡ copy_programs true) }
{
    Ok(check(alloc, copy_input(alloc)?)?)
}

/// Rank 0 copies a qubit to rank 1 twice, and takes both copies back.
const COPIED_TWICE: &str = "qmpi 1 ranks 2 qubits 2 buffer 1 \
        rank 0 alloc 0 h 0 copyto 0 1 3 copyto 0 1 3 undofrom 0 1 4 undofrom 0 1 4 end \
        rank 1 copyfrom 0 0 3 copyfrom 1 0 3 undoto 0 0 4 undoto 1 0 4 end protocol 0 b10 protocol 1 b11";

/// Whether the wire is live.
fn is_live<A: Amps>(amps: &A, w: Wire) -> bool
    ensures { IsTrue result ↔ Contains (A.store amps.now).live w }
{
    amps.live().contains(&w)
}

/// What is said before the full slots of so many ranks, the second of which has bits 0, 5 and 31.
fn head(ranks: u16, protocol: u64, scale: u64) -> Head
    ensures { result.ranks ≡ ranks }
{
    let mut bits = [0; 16];
    bits[1] = 0x8000_0021;
    Head {
        ranks,
        protocol,
        scale,
        bits,
    }
}

#[test]
fn a_state_is_written_over_its_slots(rt: HostRuntime) -> Result<(), Fail> {
    let mut amps = PlainAmps::start(rt.alloc(), 2)?;
    let mut sink = sink(rt.alloc())?;
    put_state(&mut sink, &head(1, 0, 0), &[], &amps)?;
    let lines = count_lines(&[], &amps);
    amps.fresh(Q);
    let may_grow = amps.exponent() < u64::MAX;
    assert!(rt; may_grow);
    amps.apply(Letter::Had { w: Q })?;
    amps.apply(Letter::Phase { k: 4, w: Q })?;
    let live = [Live {
        rank: 0,
        slot: 0,
        wire: Q,
    }];
    assert!(rt; is_live(&amps, Q));
    put_state(&mut sink, &head(2, 3, 1), &live, &amps)?;
    assert!(rt; lines == 1 && count_lines(&live, &amps) == 2);
    let expected = "state 1\nranks 1\nprotocol 0\nscale 0\nbits 0 00000000\nlive\n- 1 0 0 0\nend\n\
            state 1\nranks 2\nprotocol 3\nscale 1\nbits 0 00000000\nbits 1 80000021\nlive 0.0\n0 1 0 0 0\n1 -1 0 0 0\nend\n";
    assert_eq!(rt; sink.taken(), expected.as_bytes());
    Ok(())
}

#[test]
fn the_one_circuit_is_written(rt: HostRuntime) -> Result<(), Fail> {
    let ready = check(rt.alloc(), read(rt.alloc(), COPIED_TWICE.as_bytes())?)?;
    let mut sink = sink(rt.alloc())?;
    put_circuit(&mut sink, &mono(rt.alloc(), &ready)?, &ready)?;
    let expected = "circuit 1\nranks 2\nprotocol 4\nbits 0 00000000\nbits 1 00000000\n\
            letters 7\nhad 0.0\ncx 0.0 0.1\ncx 0.0 0.2\ncx 0.0 0.1\ntake 0.1 0\ncx 0.0 0.2\ntake 0.2 0\n\
            slot 0 0 0.0\nend\n";
    assert_eq!(rt; sink.taken(), expected.as_bytes());
    Ok(())
}

#[test]
fn the_check_and_the_events_are_written(rt: HostRuntime) -> Result<(), Fail> {
    let ready = copied(rt.alloc())?;
    let mut sink = sink(rt.alloc())?;
    put_check(&mut sink, &ready, rendezvous(rt.alloc(), &ready)?)?;
    put_trace(&mut sink, &ready, &[0, 0, 0, 0, 0, 1, 1])?;
    put_turns(&mut sink, &[0, 1])?;
    put_job(&mut sink, "ring", &RING)?;
    put_bytes(&mut sink, b"as it is")?;
    let expected =
        "check 1\nranks 2\ncapacity 4\ninstructions 4\nevents 7\nown 0\nprotocol 1\nrendezvous yes\nend\n\
            turns 7\n0 alloc\n0 gate\n0 pair\n0 cx\n0 post\n1 deliver\n1 fix-x\nend\nturns 2\n0\n1\nend\n\
            job ring 1000 7\nevents 32003\nprotocol 8000\nscale 8001\nlines 2\nend\nas it is";
    assert_eq!(rt; sink.taken(), expected.as_bytes());
    Ok(())
}

/// The numbers of a run of 1,000 rounds of a ring.
const RING: JobNumbers = JobNumbers {
    size: 1000,
    number: 7,
    events: 32003,
    protocol: 8000,
    scale: 8001,
    lines: 2,
};

/// Whether a lane that the line names carries no answers.
fn names_no_answers(line: &FaultLine) -> bool
    ensures { IsTrue result → NamesNoAnswers line.now }
{
    match line {
        FaultLine::Unready {
            fault: Fault::UnmatchedLane { lane, .. },
        } => lane.kind != Kind::Back,
        _ => true,
    }
}

/// A lane whose kind is put in where it is used.
const LANE: Lane = Lane {
    from: 3,
    to: 0,
    kind: Kind::Move,
    tag: 65535,
};

/// The kinds of lanes that a refusal names.
const KINDS: [(Kind, &str); 5] = [
    (
        Kind::Bit,
        "refused unmatched-lane from 3 to 0 bit tag 65535 sends 2 receives 1\n",
    ),
    (
        Kind::Copy,
        "refused unmatched-lane from 3 to 0 copy tag 65535 sends 2 receives 1\n",
    ),
    (
        Kind::Move,
        "refused unmatched-lane from 3 to 0 move tag 65535 sends 2 receives 1\n",
    ),
    (
        Kind::Undo,
        "refused unmatched-lane from 3 to 0 undo tag 65535 sends 2 receives 1\n",
    ),
    (
        Kind::Reach,
        "refused unmatched-lane from 3 to 0 reach tag 65535 sends 2 receives 1\n",
    ),
];

/// The other faults that the check finds.
const FAULTS: [(Fault, &str); 8] = [
    (
        Fault::TooWide { capacity: 21 },
        "refused too-wide capacity 21\n",
    ),
    (
        Fault::BadRank { rank: 3, at: 400 },
        "refused bad-rank rank 3 instruction 400\n",
    ),
    (
        Fault::SelfMessage { rank: 3, at: 400 },
        "refused self-message rank 3 instruction 400\n",
    ),
    (
        Fault::SameSlot { rank: 3, at: 400 },
        "refused same-slot rank 3 instruction 400\n",
    ),
    (
        Fault::SlotEmpty { rank: 3, at: 400 },
        "refused slot-empty rank 3 instruction 400\n",
    ),
    (
        Fault::SlotFull { rank: 3, at: 400 },
        "refused slot-full rank 3 instruction 400\n",
    ),
    (
        Fault::TapeLength {
            rank: 3,
            own: true,
            needs: 2,
            has: 0,
        },
        "refused tape-length rank 3 own needs 2 has 0\n",
    ),
    (
        Fault::TapeLength {
            rank: 3,
            own: false,
            needs: 2,
            has: 5,
        },
        "refused tape-length rank 3 protocol needs 2 has 5\n",
    ),
];

/// The causes for which a run stops.
const CAUSES: [(Cause, &str); 5] = [
    (Cause::Overflow, "stopped rank 1 turns 7 overflow\n"),
    (Cause::Impossible, "stopped rank 1 turns 7 impossible\n"),
    (Cause::NotZero, "stopped rank 1 turns 7 not-zero\n"),
    (Cause::NotEqual, "stopped rank 1 turns 7 not-equal\n"),
    (Cause::Stuck, "stopped rank 1 turns 7 stuck\n"),
];

/// The lines that stand for themselves, or for a line of a text or a number.
const LINES: [(FaultLine, &str); 16] = [
    (FaultLine::Usage, "usage\n"),
    (FaultLine::ReadFault, "read fault\n"),
    (FaultLine::TooLong, "too long\n"),
    (
        FaultLine::BadByte { line: 12 },
        "refused bad-byte line 12\n",
    ),
    (
        FaultLine::Unexpected { line: 12 },
        "refused unexpected line 12\n",
    ),
    (
        FaultLine::NumberTooLarge { line: 12 },
        "refused number-too-large line 12\n",
    ),
    (
        FaultLine::TooDeep { line: 12 },
        "refused too-deep line 12\n",
    ),
    (FaultLine::Unended { line: 12 }, "refused unended line 12\n"),
    (
        FaultLine::UnknownName { line: 12 },
        "refused unknown-name line 12\n",
    ),
    (
        FaultLine::OutOfRange { line: 12 },
        "refused out-of-range line 12\n",
    ),
    (
        FaultLine::TooMany { line: 12 },
        "refused too-many line 12\n",
    ),
    (FaultLine::Waits { ranks: 3 }, "waits 0 1\n"),
    (FaultLine::Waits { ranks: 0x8404 }, "waits 2 10 15\n"),
    (FaultLine::Wide { width: 26 }, "wide 26\n"),
    (
        FaultLine::LetterOverflow { at: 1014 },
        "overflow letter 1014\n",
    ),
    (FaultLine::LetterOverflow { at: 0 }, "overflow letter 0\n"),
];

/// Tries a line.
fn try_line(rt: &impl Abort, alloc: Global, line: FaultLine, expected: &str) -> Result<(), Fail> {
    let mut sink = sink(alloc)?;
    assert!(rt; names_no_answers(&line), "{expected}");
    put_fault(&mut sink, &line)?;
    assert_eq!(rt; sink.taken(), expected.as_bytes());
    Ok(())
}

#[test]
fn each_line_of_a_refusal_is_written(rt: HostRuntime) -> Result<(), Fail> {
    for (line, expected) in LINES {
        try_line(&rt, rt.alloc(), line, expected)?;
    }
    for (fault, expected) in FAULTS {
        try_line(&rt, rt.alloc(), FaultLine::Unready { fault }, expected)?;
    }
    for (kind, expected) in KINDS {
        let lane = Lane { kind, ..LANE };
        let fault = Fault::UnmatchedLane {
            lane,
            sends: 2,
            receives: 1,
        };
        try_line(&rt, rt.alloc(), FaultLine::Unready { fault }, expected)?;
    }
    for (cause, expected) in CAUSES {
        let line = FaultLine::Stopped {
            rank: 1,
            turns: 7,
            cause,
        };
        try_line(&rt, rt.alloc(), line, expected)?;
    }
    Ok(())
}

// A long text comes in pages: the first write has more than 8,000 bytes, and where the second fails, it is all that was taken.
#[test]
fn a_long_text_comes_in_pages(rt: HostRuntime) -> Result<(), Fail> {
    let schedule = [7; 9_000];
    let mut whole = sink(rt.alloc())?;
    put_turns(&mut whole, &schedule)?;
    assert_eq!(rt; whole.taken().len(), 18_015);
    let fails = [2].to_vec(rt.alloc())?;
    let mut broken = MemSink::start(rt.alloc(), 30_000, fails, 30_000)?;
    assert!(rt; put_turns(&mut broken, &schedule).is_err());
    let taken = broken.taken().len();
    assert!(rt; taken > 8_000 && taken <= 8_192, "{taken}");
    assert!(rt; whole.taken().starts_with(broken.taken()));
    Ok(())
}

// A piece that no page holds is written as it is, behind what was gathered before it.
#[test]
fn a_piece_may_be_longer_than_a_page(rt: HostRuntime) -> Result<(), Fail> {
    let mut kind = String::new(rt.alloc());
    for _ in 0..10_000 {
        kind.push('x')?;
    }
    let mut sink = sink(rt.alloc())?;
    put_job(&mut sink, &kind, &RING)?;
    let taken = sink.taken();
    assert_eq!(rt; taken.len(), 10_062);
    assert!(rt; taken.starts_with(b"job xxx"));
    assert!(rt;
        taken.ends_with(b"xx 1000 7\nevents 32003\nprotocol 8000\nscale 8001\nlines 2\nend\n")
    );
    Ok(())
}
