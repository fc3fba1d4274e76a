//! What each event of an instruction waits for, and what it does to lanes.
ghost use Rattle.std.specs.Prelude.{◌≡◌, true, false, Some, [], ◌∷◌, map, take, slice_get};
ghost use Rattle.qm_instr.specs.Lanes.{lane_sent, lane_received};
ghost use Rattle.qm_confluence.specs.Stuck.Shapes.{shapes};
ghost use Rattle.qm_ideal.specs.MeetingViews.{shape_meant, maybe_shape};

use qm_instr::{Instr, Kind, Lane, receive_lane, send_lane};
use qm_proto::Rule;

/// What an event does to a lane.
#[derive(Clone, Copy)]
pub(crate) enum Move {
    /// A parcel goes to its end, with or without bits.
    Puts { lane: Lane, told: bool },
    /// Its last parcel gets bits.
    Tells { lane: Lane },
    /// Its front parcel is taken.
    Gets { lane: Lane },
}

/// What an event waits for, and what it does to a lane, where it does.
#[derive(Clone, Copy)]
pub(crate) struct EventShape {
    pub(crate) rule: Rule,
    pub(crate) act: Option<Move>,
}

impl EventShape {
    /// An event that waits for nothing and leaves the lanes as they are.
    const STILL: EventShape = EventShape {
        rule: Rule::Always,
        act: None,
    };
}

/// The events of an instruction: the first so many of these shapes.
#[derive(Clone, Copy)]
struct EventShapes {
    items: [EventShape; 5],
    count: usize,
}

impl EventShapes {
    /// The first so many of these.
    fn new(items: [EventShape; 5], count: usize) -> EventShapes
        ensures { result ≡ record { items = items; count = count } }
    {
        EventShapes { items, count }
    }
}

/// A pair is prepared, and its parcel goes out without bits.
fn pair(lane: Lane) -> EventShape
    ensures { result ≡ record { rule = Rule.PairRoom lane; act = Some (Move.Puts lane false) } }
{
    EventShape {
        rule: Rule::PairRoom { lane },
        act: Some(Move::Puts { lane, told: false }),
    }
}

/// A parcel goes out with its bits.
fn post(lane: Lane) -> EventShape
    ensures { result ≡ record { rule = Rule.Always; act = Some (Move.Puts lane true) } }
{
    EventShape {
        rule: Rule::Always,
        act: Some(Move::Puts { lane, told: true }),
    }
}

/// The last parcel gets its bits.
fn tell(lane: Lane) -> EventShape
    ensures { result ≡ record { rule = Rule.Always; act = Some (Move.Tells lane) } }
{
    EventShape {
        rule: Rule::Always,
        act: Some(Move::Tells { lane }),
    }
}

/// The front parcel is taken, once it has its bits.
fn deliver(lane: Lane) -> EventShape
    ensures { result ≡ record { rule = Rule.Filled lane; act = Some (Move.Gets lane) } }
{
    EventShape {
        rule: Rule::Filled { lane },
        act: Some(Move::Gets { lane }),
    }
}

/// A copy and its source meet.
fn meet(lane: Lane) -> EventShape
    ensures { result ≡ record { rule = Rule.Engaged lane; act = None } }
{
    EventShape {
        rule: Rule::Engaged { lane },
        act: None,
    }
}

/// A shape, and still ones after it, so many in all.
fn first(shape: EventShape, count: usize) -> EventShapes
    ensures items { result.items ≡ shape ∷ EventShape.STILL ∷ EventShape.STILL
        ∷ EventShape.STILL ∷ EventShape.STILL ∷ [] }
    ensures count { result.count ≡ count }
{
    let s = EventShape::STILL;
    EventShapes::new([shape, s, s, s, s], count)
}

/// The events of an instruction that sends on this lane.
fn sending(rank: u16, instr: Instr, lane: Lane) -> EventShapes
    requires { lane_sent rank instr ≡ Some lane }
    ensures { map shape_meant (take result.count result.items) ≡ shapes rank instr }
{
    let s = EventShape::STILL;
    match instr {
        Instr::SendBit { .. } => first(post(lane), 1),
        Instr::CopyTo { .. } => EventShapes::new([pair(lane), s, tell(lane), s, s], 3),
        Instr::UndoTo { .. } => EventShapes::new([meet(lane), post(lane), s, s, s], 2),
        Instr::MoveTo { .. } => EventShapes::new([pair(lane), s, s, s, tell(lane)], 5),
        Instr::ReachTo { to, tag, .. } => {
            let back = Lane::new(to, rank, Kind::Back, tag);
            EventShapes::new([pair(lane), s, tell(lane), deliver(back), s], 5)
        }
        _ => unreachable!(),
    }
}

/// The events of an instruction that receives on this lane.
fn receiving(rank: u16, instr: Instr, lane: Lane) -> EventShapes
    requires { lane_received rank instr ≡ Some lane }
    ensures { map shape_meant (take result.count result.items) ≡ shapes rank instr }
{
    let s = EventShape::STILL;
    match instr {
        Instr::RecvBit { .. } => first(deliver(lane), 1),
        Instr::CopyFrom { .. } | Instr::UndoFrom { .. } => first(deliver(lane), 2),
        Instr::MoveFrom { .. } => first(deliver(lane), 3),
        Instr::ReachFrom { from, tag, .. } => {
            let back = Lane::new(rank, from, Kind::Back, tag);
            EventShapes::new([deliver(lane), s, s, s, post(back)], 5)
        }
        _ => unreachable!(),
    }
}

/// The events of an instruction of a rank.
fn events_of(rank: u16, instr: Instr) -> EventShapes
    ensures { map shape_meant (take result.count result.items) ≡ shapes rank instr }
{
    match (send_lane(rank, instr), receive_lane(rank, instr)) {
        (Some(lane), _) => sending(rank, instr, lane),
        (None, Some(lane)) => receiving(rank, instr, lane),
        (None, None) => first(EventShape::STILL, 1),
    }
}

/// A shape of a list, where there is one.
fn shape_in_list(items: &[EventShape], place: usize) -> Option<EventShape>
    ensures { result ≡ slice_get items.now place }
{
    items.get(place).copied()
}

/// The event of an instruction at a stage, where it has one.
pub(crate) fn shape_at(rank: u16, instr: Instr, stage: u32) -> Option<EventShape>
    ensures { maybe_shape result ≡ slice_get (shapes rank instr) stage }
{
    let all = events_of(rank, instr);
    let place = stage as usize;
    if place < all.count {
        shape_in_list(&all.items, place)
    } else {
        None
    }
}
