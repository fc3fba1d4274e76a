//! Whether an instruction or a collective has operands in their ranges.

ghost use Rattle.std.specs.Prelude.{◌≡◌, IsTrue};
ghost use Rattle.qm_instr.specs.Operands.{HasOperands, gate_slots};
ghost use Rattle.qm_expand.specs.Drafts.{all_below, has_operands};
ghost use Rattle.qm_expand.specs.Expansion.{can_be_called};
ghost use Rattle.qm_expand.specs.declared.joint.Joint.TheVariants.{Flat};

use crate::joint::Joint;
use qm_collect::Collective;
use qm_instr::{Gate, Instr};
use qm_limits::{BITS, SLOTS};

/// Whether each slot of an instruction is below the rank's, and each bit below [`BITS`].
pub(crate) fn has_operands(qubits: u8, i: Instr) -> bool
    ensures value { result ≡ has_operands qubits i }
    ensures told { IsTrue result → HasOperands qubits i }
{
    match i {
        Instr::Alloc { q }
        | Instr::Free { q }
        | Instr::CopyTo { q, .. }
        | Instr::CopyFrom { q, .. }
        | Instr::UndoTo { q, .. }
        | Instr::UndoFrom { q, .. }
        | Instr::MoveTo { q, .. }
        | Instr::MoveFrom { q, .. }
        | Instr::ReachTo { q, .. }
        | Instr::ReachFrom { t: q, .. } => q < qubits,
        Instr::Do { g } => has_slots(qubits, g),
        Instr::When { b, g } => has_slots(qubits, g) && b < BITS,
        Instr::Measure { q, b } => q < qubits && b < BITS,
        Instr::Xor { b, c } => b < BITS && c < BITS,
        Instr::Set { b, .. } | Instr::SendBit { b, .. } | Instr::RecvBit { b, .. } => b < BITS,
    }
}

/// Whether each slot of a gate is below the rank's.
fn has_slots(qubits: u8, g: Gate) -> bool
    ensures { result ≡ all_below qubits (gate_slots g) }
{
    match g {
        Gate::One { q, .. } => q < qubits,
        Gate::Cx { c, t } | Gate::Cz { c, t } => c < qubits && t < qubits,
    }
}

/// Whether so many ranks can make a call: its root is one of them, and a collective's slots are below [`SLOTS`].
pub(crate) fn can_be_called(ranks: u16, which: Joint) -> bool
    ensures { result ≡ can_be_called ranks which }
{
    match which {
        Joint::Flat(call) => fits(ranks, call),
        Joint::Tree(call) => call.root < ranks,
    }
}

/// Whether a collective's root is one of the ranks, and its slots are below [`SLOTS`].
fn fits(ranks: u16, which: Collective) -> bool
    ensures { result ≡ can_be_called ranks (Flat which) }
{
    match which {
        Collective::Bcast { q, root, .. }
        | Collective::Unbcast { q, root, .. }
        | Collective::Scatter { q, root, .. }
        | Collective::Gather { q, root, .. }
        | Collective::Unscatter { q, root, .. }
        | Collective::Ungather { q, root, .. } => root < ranks && q < SLOTS,
        Collective::Reduce { q, t, root, .. } | Collective::Unreduce { q, t, root, .. } => {
            root < ranks && q < SLOTS && t < SLOTS
        }
    }
}
