//! What an instruction alone tells of its events.
ghost use Rattle.std.specs.Prelude.{◌≡◌, slice_get};
ghost use Rattle.qm_proto.specs.Events.{events_in};
ghost use Rattle.qm_walk.specs.Says.{partner_at, answered_on, asked_on, posted_on, put_at, given_at, taken_at, note_from};

use crate::Note;
use qm_instr::{Instr, Kind, Lane, receive_lane, send_lane};
use qm_proto::{Event, next_event};

/// The receiver of a pair, or the rank of the source of a copy that is given up.
fn partner(rank: u16, i: Instr, event: Event) -> Option<u16>
    ensures { result ≡ partner_at rank i event }
{
    match event {
        Event::Pair | Event::Test => match send_lane(rank, i) {
            Some(lane) => Some(lane.to),
            None => None,
        },
        _ => None,
    }
}

/// The lane on which an instruction's last event gives a parcel its bits.
fn answered(rank: u16, i: Instr) -> Option<Lane>
    ensures { result ≡ answered_on rank i }
{
    match i {
        Instr::ReachFrom { from, tag, .. } => Some(Lane::new(rank, from, Kind::Back, tag)),
        _ => send_lane(rank, i),
    }
}

/// The lane from which an instruction takes a parcel.
fn asked(rank: u16, i: Instr) -> Option<Lane>
    ensures { result ≡ asked_on rank i }
{
    match i {
        Instr::ReachTo { to, tag, .. } => Some(Lane::new(to, rank, Kind::Back, tag)),
        _ => receive_lane(rank, i),
    }
}

/// The lane of a parcel that is put when it is given its bits.
fn posted(rank: u16, i: Instr) -> Option<Lane>
    ensures { result ≡ posted_on rank i }
{
    match i {
        Instr::SendBit { to, tag, .. } => Some(Lane::new(rank, to, Kind::Bit, tag)),
        Instr::UndoTo { to, tag, .. } => Some(Lane::new(rank, to, Kind::Undo, tag)),
        Instr::ReachFrom { from, tag, .. } => Some(Lane::new(rank, from, Kind::Back, tag)),
        _ => None,
    }
}

/// The lane on which an event puts a parcel.
fn put(rank: u16, i: Instr, event: Event) -> Option<Lane>
    ensures { result ≡ put_at rank i event }
{
    match event {
        Event::Pair => send_lane(rank, i),
        Event::Post | Event::SendBit => posted(rank, i),
        _ => None,
    }
}

/// The lane on which an event gives a parcel its bits.
fn given(rank: u16, i: Instr, event: Event) -> Option<Lane>
    ensures { result ≡ given_at rank i event }
{
    match event {
        Event::Post | Event::SendBit => answered(rank, i),
        _ => None,
    }
}

/// The lane from which an event takes a parcel.
fn taken(rank: u16, i: Instr, event: Event) -> Option<Lane>
    ensures { result ≡ taken_at rank i event }
{
    match event {
        Event::Deliver | Event::RecvBit => asked(rank, i),
        _ => None,
    }
}

/// What an instruction's event at a stage waits for and does. `None` exactly where the instruction has no more than `stage` events.
pub(crate) fn note(rank: u16, i: Instr, stage: u32) -> Option<Note>
    ensures { result ≡ note_from rank i (slice_get (events_in i) stage) }
{
    match next_event(i, stage) {
        Some(event) => Some(Note {
            rank,
            event,
            partner: partner(rank, i, event),
            put: put(rank, i, event),
            given: given(rank, i, event),
            taken: taken(rank, i, event),
        }),
        None => None,
    }
}
