//! Counts and lanes of each instruction, and programs at their limits.
use qm_instr::{
    Gate, Input, Instr, Kind, Lane, OneGate, event_count, own_count, protocol_count, receive_lane,
    send_lane,
};
use qm_limits::{BITS, MOST_HALVES, MOST_OUTCOMES, MOST_RANKS, SLOTS};
use std::alloc::AllocError;
use std::process::Abort;
use std::test::Fail;

/// The lane of a kind, where there is one, with tag 5.
fn lane_of(from: u16, to: u16, kind: Option<Kind>) -> Option<Lane> {
    Some(Lane::new(from, to, kind?, 5))
}

#[test]
fn each_instruction_has_its_counts_and_lanes(rt: HostRuntime) {
    let (q, t, b) = (1, 1, 2);
    let (to, from, tag) = (9, 9, 5);
    let g = Gate::One {
        g: OneGate::Sdg,
        q: 3,
    };
    let (bit, copy, undo) = (Some(Kind::Bit), Some(Kind::Copy), Some(Kind::Undo));
    let (moved, reach) = (Some(Kind::Move), Some(Kind::Reach));
    // the instruction, its events, protocol and own outcomes, and the kinds of its send and its receive at rank 7
    for (i, counts, sent, received) in [
        (Instr::Alloc { q }, (1, 0, 0), None, None),
        (Instr::Free { q }, (1, 0, 0), None, None),
        (Instr::Do { g }, (1, 0, 0), None, None),
        (Instr::Measure { q, b }, (1, 0, 1), None, None),
        (Instr::Set { b, v: true }, (1, 0, 0), None, None),
        (Instr::Xor { b, c: 3 }, (1, 0, 0), None, None),
        (Instr::When { b, g }, (1, 0, 0), None, None),
        (Instr::SendBit { b, to, tag }, (1, 0, 0), bit, None),
        (Instr::RecvBit { b, from, tag }, (1, 0, 0), None, bit),
        (Instr::CopyTo { q, to, tag }, (3, 1, 0), copy, None),
        (Instr::CopyFrom { q, from, tag }, (2, 0, 0), None, copy),
        (Instr::UndoTo { q, to, tag }, (2, 1, 0), undo, None),
        (Instr::UndoFrom { q, from, tag }, (2, 0, 0), None, undo),
        (Instr::MoveTo { q, to, tag }, (5, 2, 0), moved, None),
        (Instr::MoveFrom { q, from, tag }, (3, 0, 0), None, moved),
        (Instr::ReachTo { q, to, tag }, (5, 1, 0), reach, None),
        (Instr::ReachFrom { t, from, tag }, (5, 1, 0), None, reach),
    ] {
        assert!(rt;
            (event_count(i), protocol_count(i), own_count(i)) == counts,
            "{i:?}"
        );
        assert!(rt; send_lane(7, i) == lane_of(7, 9, sent), "{i:?}");
        assert!(rt; receive_lane(7, i) == lane_of(9, 7, received), "{i:?}");
    }
}

#[test]
fn lanes_are_ordered_by_their_fields(rt: HostRuntime) {
    let rising = [
        Lane::new(0, 1, Kind::Bit, 9),
        Lane::new(0, 1, Kind::Copy, 0),
        Lane::new(0, 1, Kind::Move, 0),
        Lane::new(0, 1, Kind::Undo, 0),
        Lane::new(0, 1, Kind::Reach, 0),
        Lane::new(0, 1, Kind::Back, 0),
        Lane::new(0, 1, Kind::Back, 1),
        Lane::new(0, 2, Kind::Bit, 0),
        Lane::new(1, 0, Kind::Bit, 0),
    ];
    for pair in rising.windows(2) {
        assert!(rt; pair[0] < pair[1]);
    }
}

#[test]
fn an_input_is_read_as_it_was_built(rt: HostRuntime) -> Result<(), Fail> {
    let mut input = Input::start(rt.alloc(), 1, 2)?;
    input.size(1, 3, 2);
    input.push(1, Instr::Alloc { q: 2 })?;
    input.push(1, Instr::Measure { q: 2, b: 31 })?;
    input.push_own(1, true)?;
    input.push_protocol(0, false)?;
    assert_eq!(rt; (input.version(), input.ranks()), (1, 2));
    for (rank, qubits, buffer, count, own, protocol) in [
        (0, 1, 1, 0, [].as_slice(), [false].as_slice()),
        (1, 3, 2, 2, [true].as_slice(), [].as_slice()),
    ] {
        assert!(rt; rank < input.ranks());
        let sizes = (input.qubits(rank), input.buffer(rank), input.count(rank));
        assert!(rt; sizes == (qubits, buffer, count));
        assert!(rt; input.own(rank) == own && input.protocol(rank) == protocol);
    }
    let last = Some(Instr::Measure { q: 2, b: 31 });
    assert!(rt; input.instr(1, 1) == last && input.instr(1, 2).is_none());
    Ok(())
}

#[test]
fn the_last_rank_has_the_largest_sizes(rt: HostRuntime) -> Result<(), Fail> {
    let last = MOST_RANKS - 1;
    let slot = Instr::Alloc { q: SLOTS - 1 };
    let bit = Instr::Set {
        b: BITS - 1,
        v: true,
    };
    let mut input = Input::start(rt.alloc(), 2, MOST_RANKS)?;
    input.size(last, SLOTS, MOST_HALVES);
    input.push(last, slot)?;
    input.push(last, bit)?;
    let sizes = (input.qubits(last), input.buffer(last), input.count(last));
    assert_eq!(rt;
        (input.version(), input.ranks(), sizes),
        (2, 16, (16, 8, 2))
    );
    assert!(rt; input.instr(last, 0) == Some(slot) && input.instr(last, 1) == Some(bit));
    Ok(())
}

/// Fills the own tape of a rank, of which each third outcome is true.
fn fill_own(rt: &impl Abort, input: &mut Input, rank: u16) -> Result<(), AllocError> {
    for k in 0..MOST_OUTCOMES {
        assert!(rt; rank < input.ranks() && input.own(rank).len() == k);
        input.push_own(rank, k % 3 == 0)?;
    }
    Ok(())
}

#[test]
fn a_full_tape_keeps_its_last_outcome(rt: HostRuntime) -> Result<(), Fail> {
    let mut input = Input::start(rt.alloc(), 1, 1)?;
    fill_own(&rt, &mut input, 0)?;
    assert!(rt; 0 < input.ranks());
    let own = input.own(0);
    assert!(rt; own.len() == MOST_OUTCOMES);
    let last = &own[MOST_OUTCOMES - 3..];
    assert!(rt; last == [false, false, true].as_slice());
    Ok(())
}
