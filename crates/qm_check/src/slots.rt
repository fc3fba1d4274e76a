//! The faults of single instructions: the ranks that they name, and their slots.
ghost use Rattle.std.specs.Prelude.{◌≡◌, ◌<◌, ℕ, false, slice_index_or};
ghost use Rattle.qm_check.specs.Operands.{uses_of};
ghost use Rattle.qm_check.specs.Slots.{HasFewSlots, is_full_after, partner_fault, slot_fault, instruction_fault};

use crate::operands::{partner, slot_uses};
use crate::{Fault, Uses};
use qm_instr::Instr;

/// How many slots a rank may have, as the length of a list.
const SLOTS: usize = qm_limits::SLOTS as usize;

/// Which slots of a rank are full.
pub(crate) type Slots = [bool; SLOTS];

/// None of them.
pub(crate) const EMPTY: Slots = [false; SLOTS];

/// The fault of an instruction by the rank that it names.
fn fault_of_partner(ranks: u16, rank: u16, at: u32, named: Option<u16>) -> Option<Fault>
    ensures { result ≡ partner_fault ranks rank at named }
{
    let other = named?;
    if other >= ranks {
        Some(Fault::BadRank { rank, at })
    } else if other == rank {
        Some(Fault::SelfMessage { rank, at })
    } else {
        None
    }
}

/// The fault of an instruction by its slots, some of which are full.
fn fault_of_slots(rank: u16, at: u32, full: &Slots, what: Uses) -> Option<Fault>
    requires { HasFewSlots what }
    ensures { result ≡ slot_fault rank at (λ q. slice_index_or full.now q false) what }
{
    match what {
        Uses::Nothing => None,
        Uses::Fills { q } if full[usize::from(q)] => Some(Fault::SlotFull { rank, at }),
        Uses::Fills { .. } => None,
        Uses::Keeps { q } | Uses::Empties { q } if full[usize::from(q)] => None,
        Uses::Joins { c, t } if c == t => Some(Fault::SameSlot { rank, at }),
        Uses::Joins { c, t } if full[usize::from(c)] && full[usize::from(t)] => None,
        _ => Some(Fault::SlotEmpty { rank, at }),
    }
}

/// The first fault of an instruction.
pub(crate) fn fault_of_instruction(
    ranks: u16,
    rank: u16,
    at: u32,
    full: &Slots,
    i: Instr,
) -> Option<Fault>
    requires { HasFewSlots (uses_of i) }
    ensures { result ≡ instruction_fault ranks rank at (λ q. slice_index_or full.now q false) i }
{
    fault_of_partner(ranks, rank, at, partner(i)).or(fault_of_slots(rank, at, full, slot_uses(i)))
}

/// Fills and empties slots as an instruction does.
pub(crate) fn note_slots(full: &mut Slots, what: Uses)
    requires { HasFewSlots what }
    ensures { (q : ℕ) → q < SLOTS
        → slice_index_or full.new q false ≡ is_full_after q (slice_index_or full.old q false) what }
{
    match what {
        Uses::Fills { q } => full[usize::from(q)] = true,
        Uses::Empties { q } => full[usize::from(q)] = false,
        Uses::Nothing | Uses::Keeps { .. } | Uses::Joins { .. } => {}
    }
}
