//! How many events, protocol measurements and own measurements an instruction has.
ghost use Rattle.std.specs.Prelude.{◌≡◌};
ghost use Rattle.qm_instr.specs.Counts.{events_of, protocol_of, own_of};

use crate::Instr;

/// How many events an instruction is done in, from 1 to 5.
pub fn event_count(i: Instr) -> u32
    ensures { result ≡ events_of i }
{
    match i {
        Instr::CopyFrom { .. } | Instr::UndoFrom { .. } | Instr::UndoTo { .. } => 2,
        Instr::CopyTo { .. } | Instr::MoveFrom { .. } => 3,
        Instr::MoveTo { .. } | Instr::ReachTo { .. } | Instr::ReachFrom { .. } => 5,
        _ => 1,
    }
}

/// How many outcomes an instruction takes from its rank's own tape, at most 1.
pub fn own_count(i: Instr) -> u32
    ensures { result ≡ own_of i }
{
    match i {
        Instr::Measure { .. } => 1,
        _ => 0,
    }
}

/// How many outcomes an instruction takes from its rank's protocol tape, at most 2.
pub fn protocol_count(i: Instr) -> u32
    ensures { result ≡ protocol_of i }
{
    match i {
        Instr::MoveTo { .. } => 2,
        Instr::CopyTo { .. }
        | Instr::UndoTo { .. }
        | Instr::ReachTo { .. }
        | Instr::ReachFrom { .. } => 1,
        _ => 0,
    }
}
