//! The events of each instruction.
use qm_instr::{Gate, Instr, OneGate};
use qm_proto::Event::{self, *};
use qm_proto::next_event;

const GATE: Gate = Gate::One {
    g: OneGate::H,
    q: 0,
};

#[test]
fn tells_the_events_of_each_instruction(rt: HostRuntime) {
    let (q, b, to, from, tag) = (0, 1, 2, 3, 4);
    let table: [(Instr, &[Event]); 17] = [
        (Instr::Alloc { q }, &[Alloc]),
        (Instr::Free { q }, &[Free]),
        (Instr::Do { g: GATE }, &[Event::Gate]),
        (Instr::Measure { q, b }, &[Measure]),
        (Instr::Set { b, v: true }, &[Set]),
        (Instr::Xor { b, c: 0 }, &[Xor]),
        (Instr::When { b, g: GATE }, &[When]),
        (Instr::SendBit { b, to, tag }, &[SendBit]),
        (Instr::RecvBit { b, from, tag }, &[RecvBit]),
        (Instr::CopyTo { q, to, tag }, &[Pair, Cross, Post]),
        (Instr::CopyFrom { q, from, tag }, &[Deliver, FixX]),
        (Instr::UndoTo { q, to, tag }, &[Test, Post]),
        (Instr::UndoFrom { q, from, tag }, &[Deliver, FixZ]),
        (
            Instr::MoveTo { q, to, tag },
            &[Pair, Cross, Had, Near, Post],
        ),
        (Instr::MoveFrom { q, from, tag }, &[Deliver, FixX, FixZ]),
        (
            Instr::ReachTo { q, to, tag },
            &[Pair, Cross, Post, Deliver, FixZ],
        ),
        (
            Instr::ReachFrom { t: q, from, tag },
            &[Deliver, FixX, Cross, Had, Post],
        ),
    ];
    for (i, events) in table {
        for stage in 0..7 {
            assert!(rt; next_event(i, stage) == events.get(stage as usize).copied());
        }
    }
}
