//! What ranks have at the end of a run: their bits, and the wires in their slots.
ghost use Rattle.std.specs.Prelude.{◌≡◌, ◌<◌, ◌≤◌, ◌++◌, ℕ, List, Bool, Option, length, IfOk, OnOk};
ghost use Rattle.qm_denot.specs.declared.Wire.{Wire};
ghost use Rattle.qm_instr.specs.Programs.{IsInRange, rank_of};
ghost use Rattle.qm_instr.specs.Bits.{number_of_bits};
ghost use Rattle.qm_ideal.specs.OneCircuits.{bits_of, slot_of};
ghost use Rattle.qm_machine.specs.Keeps.{state_of};
ghost use Rattle.qm_print.specs.Slots.{full_slots, rank_slots};
ghost use Rattle.qm_tool.specs.Ends.{HeadSays, bits_in};

use qm_check::Ready;
use qm_denot::{Amps, Wire};
use qm_ideal::OneCircuit;
use qm_instr::Input;
use qm_machine::Machine;
use qm_print::{Head, Live, RANKS};
use std::alloc::{AllocError, Global};

/// Ranks at the end of a run.
pub(crate) trait RankEnds {
    /// How many there are.
    ghost ranks: { Self → ℕ };

    /// The bits of each.
    ghost bits: { Self → ℕ → List Bool };

    /// The wires in the slots of each.
    ghost slots: { Self → ℕ → ℕ → Option Wire };

    /// A rank's bits as a number, bit 0 the lowest.
    fn rank_bits(&self, rank: u16) -> u32
        requires { rank < ranks self.now }
        ensures { result ≡ number_of_bits (bits self.now rank) };

    /// The wire in a rank's slot; `None` exactly where it is empty.
    fn rank_slot(&self, rank: u16, slot: u8) -> Option<Wire>
        ensures { result ≡ slots self.now rank slot };
}

impl<A: Amps> RankEnds for Machine<A> {
    ghost ranks = { λ m. length m.programs.ranks };

    ghost bits = { λ m. bits_in m };

    ghost slots = { λ m. (state_of m).tables.slots };

    fn rank_bits(&self, rank: u16) -> u32 {
        self.bits(u32::from(rank))
    }

    fn rank_slot(&self, rank: u16, slot: u8) -> Option<Wire> {
        self.slot(u32::from(rank), slot)
    }
}

impl RankEnds for OneCircuit {
    ghost ranks = { λ m. length m.ranks };

    ghost bits = { λ m. bits_of m };

    ghost slots = { λ m. slot_of m };

    fn rank_bits(&self, rank: u16) -> u32 {
        self.bits(rank)
    }

    fn rank_slot(&self, rank: u16, slot: u8) -> Option<Wire> {
        self.slot(rank, slot)
    }
}

/// Appends the full slots of a rank. `AllocError` comes from the allocator alone.
fn push_slots<E: RankEnds>(
    live: &mut Vec<Live>,
    input: &Input,
    ends: &E,
    rank: u16,
) -> Result<(), AllocError>
    requires { rank < length input.now.ranks }
    ensures { OnOk result (live.new.items ≡ live.old.items
        ++ rank_slots rank (rank_of input.now rank).qubits (E.slots ends.now rank)) }
{
    for slot in 0..input.qubits(rank) {
        if let Some(wire) = ends.rank_slot(rank, slot) {
            live.push(Live { rank, slot, wire })?;
        }
    }
    Ok(())
}

/// The full slots of all ranks, by rank, then slot. `AllocError` comes from the allocator alone.
pub(crate) fn full_slots<E: RankEnds>(
    alloc: Global,
    input: &Input,
    ends: &E,
) -> Result<Vec<Live>, AllocError>
    ensures slots { IfOk result (λ live. live.items ≡ full_slots input.now (E.slots ends.now)) }
    ensures in_range { IsInRange input.now }
{
    let mut live = Vec::new(alloc);
    for rank in 0..input.ranks() {
        push_slots(&mut live, input, ends, rank)?;
    }
    Ok(live)
}

/// What a state text of ready programs says before its full slots: the ranks' bits, and this scale.
pub(crate) fn head_of<E: RankEnds>(ready: &Ready, ends: &E, scale: u64) -> Head
    requires { E.ranks ends.now ≡ length ready.now.ranks }
    ensures { HeadSays ready.now (E.bits ends.now) scale result }
{
    let ranks = ready.input().ranks();
    let mut bits = [0; RANKS];
    for rank in 0..ranks {
        bits[usize::from(rank)] = ends.rank_bits(rank);
    }
    Head {
        ranks,
        protocol: ready.protocol_total(),
        scale,
        bits,
    }
}
