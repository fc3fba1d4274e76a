//! What the check reads of an instruction.
ghost use Rattle.std.specs.Prelude.{◌≡◌};
ghost use Rattle.qm_check.specs.Operands.{gate_uses, uses_of, partner_of};

use crate::Uses;
use qm_instr::{Gate, Instr};

/// What a gate does with its slots.
fn gate_slot_uses(g: Gate) -> Uses
    ensures { result ≡ gate_uses g }
{
    match g {
        Gate::One { q, .. } => Uses::Keeps { q },
        Gate::Cx { c, t } | Gate::Cz { c, t } => Uses::Joins { c, t },
    }
}

/// What an instruction does with its slots.
pub(crate) fn slot_uses(i: Instr) -> Uses
    ensures { result ≡ uses_of i }
{
    match i {
        Instr::Alloc { q } | Instr::CopyFrom { q, .. } | Instr::MoveFrom { q, .. } => {
            Uses::Fills { q }
        }
        Instr::Free { q } | Instr::UndoTo { q, .. } | Instr::MoveTo { q, .. } => {
            Uses::Empties { q }
        }
        Instr::Do { g } | Instr::When { g, .. } => gate_slot_uses(g),
        Instr::Measure { q, .. }
        | Instr::CopyTo { q, .. }
        | Instr::UndoFrom { q, .. }
        | Instr::ReachTo { q, .. } => Uses::Keeps { q },
        Instr::ReachFrom { t, .. } => Uses::Keeps { q: t },
        Instr::Set { .. } | Instr::Xor { .. } | Instr::SendBit { .. } | Instr::RecvBit { .. } => {
            Uses::Nothing
        }
    }
}

/// The rank that an instruction names.
pub(crate) fn partner(i: Instr) -> Option<u16>
    ensures { result ≡ partner_of i }
{
    match i {
        Instr::SendBit { to, .. }
        | Instr::CopyTo { to, .. }
        | Instr::UndoTo { to, .. }
        | Instr::MoveTo { to, .. }
        | Instr::ReachTo { to, .. } => Some(to),
        Instr::RecvBit { from, .. }
        | Instr::CopyFrom { from, .. }
        | Instr::UndoFrom { from, .. }
        | Instr::MoveFrom { from, .. }
        | Instr::ReachFrom { from, .. } => Some(from),
        _ => None,
    }
}
