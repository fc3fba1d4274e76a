//! Each fault of the check by its smallest program, which of two faults is told, and what ready programs need.
ghost use Rattle.std.specs.Prelude.{◌≡◌, ◌<◌, IsTrue};
ghost use Rattle.std.specs.List.{All};
ghost use Rattle.qm_instr.specs.Operands.{HasOperands, gate_slots};
ghost use Rattle.qm_instr.specs.Programs.{instruction_total};

use qm_check::{CheckError, Fault, LaneCount, check};
use qm_instr::{Gate, Input, Instr, Kind, Lane};
use qm_limits::{BITS, MOST_HALVES, MOST_OUTCOMES};
use std::alloc::{AllocError, Global};
use std::process::Abort;
use std::test::Fail;

/// Instructions of the ranks, the outcomes that stand on their own tapes (true) and protocol tapes, and why they aren't ready.
type Row<'a> = (&'a [(u16, Instr)], &'a [(u16, bool)], Option<CheckError>);

/// An instruction that has no fault.
const HARMLESS: Instr = Instr::Set { b: 0, v: true };

/// A fresh qubit in slot 0, and in slot 1.
const FILL: Instr = Instr::Alloc { q: 0 };

const FILL_NEXT: Instr = Instr::Alloc { q: 1 };

/// Slot 0 is given up.
const EMPTY: Instr = Instr::Free { q: 0 };

/// A gate on slot 0 and slot 0.
const TWICE: Instr = Instr::Do {
    g: Gate::Cx { c: 0, t: 0 },
};

/// Slot 0 is measured.
const MEASURE: Instr = Instr::Measure { q: 0, b: 0 };

/// Bit 0 is sent.
fn send(to: u16, tag: u16) -> Instr {
    Instr::SendBit { b: 0, to, tag }
}

/// Bit 0 is received.
fn receive(from: u16, tag: u16) -> Instr {
    Instr::RecvBit { b: 0, from, tag }
}

/// A copy of slot 0 is sent.
fn copy(to: u16, tag: u16) -> Instr {
    Instr::CopyTo { q: 0, to, tag }
}

/// Slot 0 is sent.
fn give(to: u16, tag: u16) -> Instr {
    Instr::MoveTo { q: 0, to, tag }
}

/// The copy in slot 1 is given up.
fn undo(to: u16, tag: u16) -> Instr {
    Instr::UndoTo { q: 1, to, tag }
}

/// Slot 0 is lent.
fn lend(to: u16, tag: u16) -> Instr {
    Instr::ReachTo { q: 0, to, tag }
}

/// The programs have this fault.
fn refused(fault: Fault) -> Option<CheckError> {
    Some(CheckError::Fault { fault })
}

/// A lane has so many sends and receives.
fn unmatched(lane: Lane, sends: u32, receives: u32) -> Option<CheckError> {
    refused(Fault::UnmatchedLane {
        lane,
        sends,
        receives,
    })
}

/// A tape of which so many outcomes are needed has so many.
fn tape(rank: u16, own: bool, needs: u32, has: u32) -> Option<CheckError> {
    refused(Fault::TapeLength {
        rank,
        own,
        needs,
        has,
    })
}

/// How many instructions the ranks have together.
fn total(input: &Input) -> u32
    ensures { result ≡ instruction_total input.now }
{
    let mut total = 0;
    for rank in 0..input.ranks() {
        total += input.count(rank);
    }
    total
}

/// Whether the slots of a gate are below this number.
fn has_slots(qubits: u8, gate: Gate) -> bool
    ensures { IsTrue result → All (λ q. q < qubits) (gate_slots gate) }
{
    match gate {
        Gate::One { q, .. } => q < qubits,
        Gate::Cx { c, t } | Gate::Cz { c, t } => c < qubits && t < qubits,
    }
}

/// Whether a rank with so many slots has those of an instruction, and the bits that it names.
fn has_operands(qubits: u8, instr: Instr) -> bool
    ensures { IsTrue result → HasOperands qubits instr }
{
    match instr {
        Instr::Do { g } => has_slots(qubits, g),
        Instr::When { b, g } => b < BITS && has_slots(qubits, g),
        Instr::Measure { q, b } => q < qubits && b < BITS,
        Instr::Xor { b, c } => b < BITS && c < BITS,
        Instr::Set { b, .. } | Instr::SendBit { b, .. } | Instr::RecvBit { b, .. } => b < BITS,
        Instr::ReachFrom { t, .. } => t < qubits,
        Instr::Alloc { q }
        | Instr::Free { q }
        | Instr::CopyTo { q, .. }
        | Instr::CopyFrom { q, .. }
        | Instr::UndoTo { q, .. }
        | Instr::UndoFrom { q, .. }
        | Instr::MoveTo { q, .. }
        | Instr::MoveFrom { q, .. }
        | Instr::ReachTo { q, .. } => q < qubits,
    }
}

/// Three ranks of four slots that do nothing.
fn idle(rt: &impl Abort, alloc: Global) -> Result<Input, AllocError> {
    let mut input = Input::start(alloc, 1, 3)?;
    for rank in 0..3 {
        assert!(rt; rank < input.ranks() && input.count(rank) == 0);
        input.size(rank, 4, 1);
    }
    Ok(input)
}

/// Puts instructions at the ends of the ranks' programs.
fn push_all(
    rt: &impl Abort,
    input: &mut Input,
    instructions: &[(u16, Instr)],
) -> Result<(), AllocError> {
    for (rank, instr) in instructions {
        assert!(rt; *rank < input.ranks() && total(input) < 100);
        assert!(rt; has_operands(input.qubits(*rank), *instr));
        input.push(*rank, *instr)?;
    }
    Ok(())
}

/// Puts an outcome at the end of a tape for each of these.
fn push_outcomes(
    rt: &impl Abort,
    input: &mut Input,
    outcomes: &[(u16, bool)],
) -> Result<(), AllocError> {
    for (rank, own) in outcomes {
        assert!(rt; *rank < input.ranks());
        assert!(rt;
            input.own(*rank).len() < MOST_OUTCOMES && input.protocol(*rank).len() < MOST_OUTCOMES
        );
        if *own {
            input.push_own(*rank, true)?;
        } else {
            input.push_protocol(*rank, true)?;
        }
    }
    Ok(())
}

/// Checks the rows.
fn tell(rt: &impl Abort, alloc: Global, rows: &[Row]) -> Result<(), AllocError> {
    for (k, (instructions, outcomes, wanted)) in rows.iter().enumerate() {
        let mut input = idle(rt, alloc)?;
        push_all(rt, &mut input, instructions)?;
        push_outcomes(rt, &mut input, outcomes)?;
        assert_eq!(rt; check(alloc, input).err(), *wanted, "row {k}");
    }
    Ok(())
}

#[test]
fn each_fault_is_found(rt: HostRuntime) -> Result<(), Fail> {
    let sent = Lane::new(0, 1, Kind::Bit, 3);
    let reach = Lane::new(1, 0, Kind::Reach, 5);
    let answered = Instr::ReachFrom {
        t: 0,
        from: 1,
        tag: 5,
    };
    let rows: [Row; 10] = [
        (&[(0, HARMLESS), (2, HARMLESS)], &[], None),
        (
            &[(0, HARMLESS), (0, send(3, 0))],
            &[],
            refused(Fault::BadRank { rank: 0, at: 1 }),
        ),
        (
            &[(1, receive(1, 0))],
            &[],
            refused(Fault::SelfMessage { rank: 1, at: 0 }),
        ),
        (
            &[(0, FILL), (0, TWICE)],
            &[],
            refused(Fault::SameSlot { rank: 0, at: 1 }),
        ),
        (
            &[(0, FILL_NEXT), (0, EMPTY)],
            &[],
            refused(Fault::SlotEmpty { rank: 0, at: 1 }),
        ),
        (
            &[(0, FILL), (0, FILL)],
            &[],
            refused(Fault::SlotFull { rank: 0, at: 1 }),
        ),
        (
            &[(0, send(1, 3)), (0, send(1, 3)), (1, receive(0, 3))],
            &[],
            unmatched(sent, 2, 1),
        ),
        (&[(1, receive(0, 3))], &[], unmatched(sent, 0, 1)),
        // the answer goes on a lower lane than the reach, and is left out
        (
            &[(0, FILL), (0, answered)],
            &[(0, false)],
            unmatched(reach, 0, 1),
        ),
        (&[(0, FILL), (0, MEASURE)], &[], tape(0, true, 1, 0)),
    ];
    tell(&rt, rt.alloc(), &rows)?;
    Ok(())
}

#[test]
fn the_first_of_two_faults_is_told(rt: HostRuntime) -> Result<(), Fail> {
    let sent = Lane::new(0, 1, Kind::Bit, 3);
    let last_empty = refused(Fault::SlotEmpty { rank: 2, at: 0 });
    let rows: [Row; 12] = [
        // of one instruction: the rank that it names, one slot twice, an empty slot
        (
            &[(0, copy(3, 0))],
            &[],
            refused(Fault::BadRank { rank: 0, at: 0 }),
        ),
        (
            &[(0, copy(0, 0))],
            &[],
            refused(Fault::SelfMessage { rank: 0, at: 0 }),
        ),
        (
            &[(0, TWICE)],
            &[],
            refused(Fault::SameSlot { rank: 0, at: 0 }),
        ),
        // the lowest rank, and its first instruction
        (
            &[(0, HARMLESS), (0, EMPTY), (1, send(3, 0))],
            &[],
            refused(Fault::SlotEmpty { rank: 0, at: 1 }),
        ),
        (
            &[(0, EMPTY), (0, send(3, 0))],
            &[],
            refused(Fault::SlotEmpty { rank: 0, at: 0 }),
        ),
        // instructions go before lanes and tapes, lanes before tapes
        (&[(0, send(1, 3)), (2, EMPTY)], &[], last_empty),
        (&[(2, EMPTY)], &[(0, true)], last_empty),
        (&[(0, send(1, 3))], &[(0, true)], unmatched(sent, 1, 0)),
        (&[(0, send(1, 3))], &[(0, false)], unmatched(sent, 1, 0)),
        // the lowest rank's tapes, and its own tape before its protocol tape
        (&[], &[(1, true), (0, true)], tape(0, true, 0, 1)),
        (&[], &[(1, true), (0, false)], tape(0, false, 0, 1)),
        (&[], &[(1, false), (1, true)], tape(1, true, 0, 1)),
    ];
    tell(&rt, rt.alloc(), &rows)?;
    Ok(())
}

#[test]
fn the_lowest_unmatched_lane_is_told(rt: HostRuntime) -> Result<(), Fail> {
    // of two lanes: the sender, then the receiver, then the kind, then the tag
    let rows: [Row; 7] = [
        (
            &[(1, send(0, 0)), (0, send(2, 0))],
            &[],
            unmatched(Lane::new(0, 2, Kind::Bit, 0), 1, 0),
        ),
        (
            &[(0, send(2, 0)), (0, FILL), (0, copy(1, 0))],
            &[],
            unmatched(Lane::new(0, 1, Kind::Copy, 0), 1, 0),
        ),
        (
            &[(0, FILL), (0, copy(1, 0)), (0, send(1, 9))],
            &[],
            unmatched(Lane::new(0, 1, Kind::Bit, 9), 1, 0),
        ),
        (
            &[(0, FILL), (0, give(1, 0)), (0, FILL), (0, copy(1, 9))],
            &[],
            unmatched(Lane::new(0, 1, Kind::Copy, 9), 1, 0),
        ),
        (
            &[(0, FILL), (0, FILL_NEXT), (0, undo(1, 0)), (0, give(1, 9))],
            &[],
            unmatched(Lane::new(0, 1, Kind::Move, 9), 1, 0),
        ),
        (
            &[(0, FILL), (0, FILL_NEXT), (0, lend(1, 0)), (0, undo(1, 9))],
            &[],
            unmatched(Lane::new(0, 1, Kind::Undo, 9), 1, 0),
        ),
        (
            &[(0, send(1, 3)), (0, send(1, 2))],
            &[],
            unmatched(Lane::new(0, 1, Kind::Bit, 2), 1, 0),
        ),
    ];
    tell(&rt, rt.alloc(), &rows)?;
    Ok(())
}

#[test]
fn tapes_have_what_is_needed(rt: HostRuntime) -> Result<(), Fail> {
    let from = Instr::CopyFrom {
        q: 0,
        from: 0,
        tag: 0,
    };
    // rank 0 takes an own and a protocol outcome
    let needy = [(0, FILL), (0, MEASURE), (0, copy(1, 0)), (1, from)];
    let rows: [Row; 5] = [
        (&needy, &[(0, true), (0, false)], None),
        (&needy, &[], tape(0, true, 1, 0)),
        (
            &needy,
            &[(0, true), (0, true), (0, false), (0, false)],
            tape(0, true, 1, 2),
        ),
        (
            &needy,
            &[(0, true), (0, false), (0, false)],
            tape(0, false, 1, 2),
        ),
        (&needy, &[(0, true)], tape(0, false, 1, 0)),
    ];
    tell(&rt, rt.alloc(), &rows)?;
    Ok(())
}

#[test]
fn too_large_a_capacity_is_told_first(rt: HostRuntime) -> Result<(), Fail> {
    let empty = refused(Fault::SlotEmpty { rank: 0, at: 0 });
    // the version, the buffer beside sixteen slots, and the fault
    for (version, buffer, wanted) in [
        (1, 4, empty),
        (1, 5, refused(Fault::TooWide { capacity: 21 })),
        (2, 6, empty),
        (2, 7, refused(Fault::TooWide { capacity: 23 })),
    ] {
        assert!(rt; 1 <= version && version <= 2);
        assert!(rt; 1 <= buffer && buffer <= MOST_HALVES);
        let mut input = Input::start(rt.alloc(), version, 1)?;
        input.size(0, 16, buffer);
        input.push(0, EMPTY)?;
        assert_eq!(rt; check(rt.alloc(), input).err(), wanted);
    }
    Ok(())
}

#[test]
fn ready_programs_have_totals(rt: HostRuntime) -> Result<(), Fail> {
    let lent = Instr::ReachFrom {
        t: 0,
        from: 0,
        tag: 5,
    };
    let mut input = idle(&rt, rt.alloc())?;
    let reach = [(0, FILL), (0, lend(1, 5)), (1, FILL), (1, lent)];
    push_all(&rt, &mut input, &reach)?;
    push_outcomes(&rt, &mut input, &[(0, false), (1, false)])?;
    let ready = check(rt.alloc(), input)?;
    let lanes = [
        LaneCount {
            lane: Lane::new(0, 1, Kind::Reach, 5),
            sends: 1,
        },
        LaneCount {
            lane: Lane::new(1, 0, Kind::Back, 5),
            sends: 1,
        },
    ];
    assert!(rt; ready.capacity() == 15 && ready.input().ranks() == 3);
    assert!(rt; ready.events() == 12 && ready.protocol_total() == 2 && ready.own_total() == 0);
    assert!(rt; ready.lanes() == lanes.as_slice());
    Ok(())
}

#[test]
fn faults_are_told_in_plain_words(rt: HostRuntime) -> Result<(), Fail> {
    let lane = Lane::new(0, 1, Kind::Copy, 7);
    for (fault, words) in [
        (
            Fault::TooWide { capacity: 21 },
            "the slots and buffers of all ranks hold 21 wires, too many together",
        ),
        (
            Fault::BadRank { rank: 1, at: 4 },
            "rank 1, instruction 4: there is no such rank",
        ),
        (
            Fault::SelfMessage { rank: 1, at: 4 },
            "rank 1, instruction 4: a message to the rank itself",
        ),
        (
            Fault::SameSlot { rank: 1, at: 4 },
            "rank 1, instruction 4: one slot twice",
        ),
        (
            Fault::SlotEmpty { rank: 1, at: 4 },
            "rank 1, instruction 4: an empty slot",
        ),
        (
            Fault::SlotFull { rank: 1, at: 4 },
            "rank 1, instruction 4: a full slot",
        ),
        (
            Fault::UnmatchedLane {
                lane,
                sends: 2,
                receives: 1,
            },
            "lane Copy from rank 0 to rank 1 with tag 7: 2 sends, 1 receives",
        ),
        (
            Fault::TapeLength {
                rank: 1,
                own: false,
                needs: 2,
                has: 3,
            },
            "rank 1, protocol tape: 3 outcomes, 2 needed",
        ),
    ] {
        let told = format!(in rt.alloc(); "{}", CheckError::Fault { fault })?;
        assert_eq!(rt; told.as_str(), words);
    }
    Ok(())
}
