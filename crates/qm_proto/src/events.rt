//! The events of each instruction, by stage.
ghost use Rattle.std.specs.Prelude.{◌≡◌, ◌+◌, ◌^◌, ◌<◌, ◌≤◌, ◌↔◌, nat_lt, IsNone, slice_get};
ghost use Rattle.qm_instr.specs.Counts.{events_of};
ghost use Rattle.qm_proto.specs.Events.{events_in};

use crate::Event;
use qm_instr::Instr;

/// A move at its sender.
const MOVE_TO: [Event; 5] = [
    Event::Pair,
    Event::Cross,
    Event::Had,
    Event::Near,
    Event::Post,
];

/// A reach at the rank of the control.
const REACH_TO: [Event; 5] = [
    Event::Pair,
    Event::Cross,
    Event::Post,
    Event::Deliver,
    Event::FixZ,
];

/// A reach at the rank of the target.
const REACH_FROM: [Event; 5] = [
    Event::Deliver,
    Event::FixX,
    Event::Cross,
    Event::Had,
    Event::Post,
];

/// The event of an instruction at a stage, from 0. `None` exactly where the instruction has no more than `stage` events.
pub fn next_event(i: Instr, stage: u32) -> Option<Event>
    ensures value { result ≡ slice_get (events_in i) stage }
    ensures none { IsNone result ↔ (events_of i ≤ stage) }
{
    match i {
        Instr::Alloc { .. } => at(&[Event::Alloc], stage),
        Instr::Free { .. } => at(&[Event::Free], stage),
        Instr::Do { .. } => at(&[Event::Gate], stage),
        Instr::Measure { .. } => at(&[Event::Measure], stage),
        Instr::Set { .. } => at(&[Event::Set], stage),
        Instr::Xor { .. } => at(&[Event::Xor], stage),
        Instr::When { .. } => at(&[Event::When], stage),
        Instr::SendBit { .. } => at(&[Event::SendBit], stage),
        Instr::RecvBit { .. } => at(&[Event::RecvBit], stage),
        Instr::CopyTo { .. } => at(&[Event::Pair, Event::Cross, Event::Post], stage),
        Instr::CopyFrom { .. } => at(&[Event::Deliver, Event::FixX], stage),
        Instr::UndoTo { .. } => at(&[Event::Test, Event::Post], stage),
        Instr::UndoFrom { .. } => at(&[Event::Deliver, Event::FixZ], stage),
        Instr::MoveTo { .. } => at(&MOVE_TO, stage),
        Instr::MoveFrom { .. } => at(&[Event::Deliver, Event::FixX, Event::FixZ], stage),
        Instr::ReachTo { .. } => at(&REACH_TO, stage),
        Instr::ReachFrom { .. } => at(&REACH_FROM, stage),
    }
}

/// The event at a stage. `None` where the list is no longer than that.
fn at(events: &[Event], stage: u32) -> Option<Event>
    ensures { result ≡ slice_get events.now stage }
{
    events.get(stage as usize).copied()
}

/// Whether an instruction of so many events has another after that of a stage.
pub fn has_event_after(stage: u32, events: u32) -> bool
    requires { stage + 1 < 2 ^ 32 }
    ensures { result ≡ nat_lt (stage + 1) events }
{
    stage + 1 < events
}
