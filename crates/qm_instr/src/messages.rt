//! The lanes on which instructions send and receive.
ghost use Rattle.std.specs.Prelude.{◌≡◌};
ghost use Rattle.qm_instr.specs.Lanes.{lane_sent, lane_received};

use crate::{Instr, Kind, Lane};

/// The lane on which an instruction of a rank is a send. `None` exactly where it sends nothing.
///
/// The answer of a reach isn't told: its lane has the reach's ranks exchanged, the kind `Back`, and the reach's tag.
pub fn send_lane(rank: u16, i: Instr) -> Option<Lane>
    ensures { result ≡ lane_sent rank i }
{
    let (to, kind, tag) = match i {
        Instr::SendBit { to, tag, .. } => (to, Kind::Bit, tag),
        Instr::CopyTo { to, tag, .. } => (to, Kind::Copy, tag),
        Instr::UndoTo { to, tag, .. } => (to, Kind::Undo, tag),
        Instr::MoveTo { to, tag, .. } => (to, Kind::Move, tag),
        Instr::ReachTo { to, tag, .. } => (to, Kind::Reach, tag),
        _ => return None,
    };
    Some(Lane::new(rank, to, kind, tag))
}

/// The lane on which an instruction of a rank is a receive. `None` exactly where it receives nothing.
///
/// The answer of a reach isn't told, as in `send_lane`.
pub fn receive_lane(rank: u16, i: Instr) -> Option<Lane>
    ensures { result ≡ lane_received rank i }
{
    let (from, kind, tag) = match i {
        Instr::RecvBit { from, tag, .. } => (from, Kind::Bit, tag),
        Instr::CopyFrom { from, tag, .. } => (from, Kind::Copy, tag),
        Instr::UndoFrom { from, tag, .. } => (from, Kind::Undo, tag),
        Instr::MoveFrom { from, tag, .. } => (from, Kind::Move, tag),
        Instr::ReachFrom { from, tag, .. } => (from, Kind::Reach, tag),
        _ => return None,
    };
    Some(Lane::new(from, rank, kind, tag))
}
