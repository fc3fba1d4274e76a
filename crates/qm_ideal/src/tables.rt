//! Where each rank stands, the wires in its slots, and what the lanes hold.
ghost use Rattle.std.specs.Prelude.{◌≡◌, ◌<◌, ◌+◌, ◌^◌, ℕ, length, map, unwrap_or, slice_get, slice_index_or, nat_eq, false, None, fold, IfOk, OnOk};
ghost use Rattle.qm_instr.specs.Bits.{number_of_bits};
ghost use Rattle.qm_proto.specs.Model.State.{no_wire};
ghost use Rattle.qm_proto.specs.Model.Acts.{list_of};
ghost use Rattle.qm_proto.specs.Model.Ideal.{ideal_wire_in, ideal_wire_made, ideal_current, ideal_wire_offered, ideal_after_act, ideal_past_instr, Counts, SlotSet, Puts, Takes, BitSet, load_at, wire_carried, bit_told, is_empty_lane, ideal_at_start};
ghost use Rattle.qm_confluence.specs.Told.{untaped};
ghost use Rattle.qm_ideal.specs.Meanings.{act_meant, load_meant, load_in, IsSmall, AllSmall};
ghost use Rattle.qm_ideal.specs.Lanes.{lanes_of};
ghost use Rattle.qm_ideal.specs.OneCircuits.{no_rank};
ghost use Rattle.qm_ideal.specs.Views.{tables_of, slots_at, ends_of};

use crate::lanes::Lanes;
use crate::steps::{Load, StepAct};
use qm_denot::Wire;
use qm_instr::bits::{BITS, number_of_bits};
use qm_instr::{Input, Instr, Lane};
use qm_proto::{Few, NO_WIRE};
use std::alloc::{AllocError, Global};

/// How many slots a rank may have.
const SLOTS: usize = qm_limits::SLOTS as usize;

/// A rank: the number of its next instruction, how many wires it has counted, its bits and its slots.
#[derive(Drop)]
pub(crate) struct IdealRank {
    at: u32,
    made: u32,
    bits: [bool; BITS],
    slots: [Option<Wire>; SLOTS],
}

impl IdealRank {
    /// The bits as a number, bit 0 the lowest.
    fn number(&self) -> u32
        ensures { result ≡ number_of_bits self.now.bits }
    {
        number_of_bits(&self.bits)
    }
}

/// All ranks and lanes.
#[derive(Drop)]
pub(crate) struct Tables {
    ranks: Vec<IdealRank>,
    lanes: Lanes<Load>,
}

/// The wire that a lane's front carries.
fn wire_carried(front: Option<Load>) -> Wire
    ensures { result ≡ wire_carried (load_in front) }
{
    match front {
        Some(Load::Carried { wire }) => wire,
        Some(Load::Told { .. }) | Some(Load::Token) | None => NO_WIRE,
    }
}

/// The bit that a lane's front tells.
fn bit_told(front: Option<Load>) -> bool
    ensures { result ≡ bit_told (load_in front) }
{
    match front {
        Some(Load::Told { bit }) => bit,
        Some(Load::Carried { .. }) | Some(Load::Token) | None => false,
    }
}

impl Tables {
    /// The ranks before their first instruction, and empty lanes. `AllocError` comes from the allocator alone.
    pub(crate) fn start(alloc: Global, input: &Input) -> Result<Tables, AllocError>
        ensures start { IfOk result (λ t. tables_of t
            ≡ untaped (ideal_at_start input.now).tables) }
        ensures ranks { IfOk result (λ t. length t.ranks.items ≡ length input.now.ranks) }
    {
        let mut ranks = Vec::with_capacity(alloc, usize::from(input.ranks()))?;
        for _ in 0..input.ranks() {
            ranks.push_reserved(IdealRank {
                at: 0,
                made: 0,
                bits: [false; BITS],
                slots: [None; SLOTS],
            });
        }
        Ok(Tables {
            ranks,
            lanes: Lanes::start(alloc),
        })
    }

    /// The wire in a slot, where it is full.
    pub(crate) fn slot(&self, rank: u16, q: u8) -> Option<Wire>
        ensures { result ≡ slots_at self.now.ranks.items rank q }
    {
        match self.ranks.get(usize::from(rank)) {
            Some(place) => match place.slots.get(usize::from(q)) {
                Some(slot) => *slot,
                None => None,
            },
            None => None,
        }
    }

    /// The wire in a slot of the ranks at the end.
    pub(crate) fn end_slot(&self, rank: u16, q: u8) -> Option<Wire>
        ensures { result ≡ slice_index_or (slice_index_or (ends_of self.now) rank no_rank).slots q
            None }
    {
        self.slot(rank, q)
    }

    /// The wire in a full slot.
    pub(crate) fn wire_in(&self, rank: u16, q: u8) -> Wire
        ensures { result ≡ unwrap_or (slots_at self.now.ranks.items rank q) no_wire }
    {
        self.slot(rank, q).unwrap_or(NO_WIRE)
    }

    /// A bit of a rank; false where there is none.
    pub(crate) fn bit(&self, rank: u16, b: u8) -> bool
        requires { rank < length self.now.ranks.items }
        ensures { result ≡ slice_index_or ((tables_of self.now).parts rank).bits b false }
    {
        match self.ranks[usize::from(rank)].bits.get(usize::from(b)) {
            Some(bit) => *bit,
            None => false,
        }
    }

    /// The bits of a rank as a number, bit 0 the lowest.
    pub(crate) fn bits(&self, rank: u16) -> u32
        requires { rank < length self.now.ranks.items }
        ensures { result ≡ number_of_bits (slice_index_or (ends_of self.now) rank no_rank).bits }
    {
        self.ranks[usize::from(rank)].number()
    }

    /// The wire that a rank's count names.
    pub(crate) fn made(&self, rank: u16) -> Wire
        requires { rank < length self.now.ranks.items }
        ensures { result ≡ ideal_wire_made (tables_of self.now) rank }
    {
        Wire {
            rank,
            made: self.ranks[usize::from(rank)].made,
            near: false,
        }
    }

    /// Whether a lane is empty.
    pub(crate) fn is_empty(&self, lane: Lane) -> bool
        ensures { result ≡ is_empty_lane (tables_of self.now) lane }
    {
        self.lanes.is_empty(lane)
    }

    /// The wire at a lane's front.
    pub(crate) fn front_wire(&self, lane: Lane) -> Wire
        ensures { result ≡ wire_carried (load_at (tables_of self.now) lane) }
    {
        wire_carried(self.lanes.front(lane))
    }

    /// The bit at a lane's front.
    pub(crate) fn front_bit(&self, lane: Lane) -> bool
        ensures { result ≡ bit_told (load_at (tables_of self.now) lane) }
    {
        bit_told(self.lanes.front(lane))
    }

    /// The instruction at which a rank stands; none where there is no such rank.
    pub(crate) fn current(&self, input: &Input, rank: u16) -> Option<Instr>
        requires { length self.now.ranks.items ≡ length input.now.ranks }
        ensures { result ≡ ideal_current input.now (tables_of self.now) rank }
    {
        match self.ranks.get(usize::from(rank)) {
            Some(place) => input.instr(rank, place.at),
            None => None,
        }
    }

    /// The wire that a rank offers, which stands at an `undofrom` or a `reachto`.
    pub(crate) fn offered(&self, input: &Input, rank: u16) -> Wire
        requires { length self.now.ranks.items ≡ length input.now.ranks }
        ensures { result ≡ ideal_wire_offered input.now (tables_of self.now) rank }
    {
        match self.current(input, rank) {
            Some(Instr::UndoFrom { q, .. }) | Some(Instr::ReachTo { q, .. }) => self.wire_in(
                rank, q,
            ),
            _ => NO_WIRE,
        }
    }

    /// Counts one wire more.
    fn count(&mut self, rank: u16)
        requires known { rank < length self.old.ranks.items }
        requires few { ((tables_of self.old).parts rank).made + 1 < 2 ^ 32 }
        ensures did { tables_of self.new
            ≡ ideal_after_act rank (tables_of self.old) Counts }
        ensures ranks { length self.new.ranks.items ≡ length self.old.ranks.items }
    {
        let place = &mut self.ranks[usize::from(rank)];
        place.made += 1;
    }

    /// Fills a slot with a wire, or empties it.
    fn set_slot(&mut self, rank: u16, q: u8, wire: Option<Wire>)
        requires known { rank < length self.old.ranks.items }
        requires slot { q < SLOTS }
        ensures did { tables_of self.new
            ≡ ideal_after_act rank (tables_of self.old) (SlotSet q wire) }
        ensures ranks { length self.new.ranks.items ≡ length self.old.ranks.items }
    {
        let place = &mut self.ranks[usize::from(rank)];
        place.slots[usize::from(q)] = wire;
    }

    /// Sets a bit.
    fn set_bit(&mut self, rank: u16, b: u8, v: bool)
        requires known { rank < length self.old.ranks.items }
        requires bit { b < BITS }
        ensures did { tables_of self.new
            ≡ ideal_after_act rank (tables_of self.old) (BitSet b v) }
        ensures ranks { length self.new.ranks.items ≡ length self.old.ranks.items }
    {
        let place = &mut self.ranks[usize::from(rank)];
        place.bits[usize::from(b)] = v;
    }

    /// Puts a load at a lane's end. `AllocError` comes from the allocator alone.
    fn put(&mut self, alloc: Global, rank: u16, lane: Lane, load: Load) -> Result<(), AllocError>
        ensures did { OnOk result (tables_of self.new
            ≡ ideal_after_act rank (tables_of self.old) (Puts lane (load_meant load))) }
        ensures ranks { length self.new.ranks.items ≡ length self.old.ranks.items }
    {
        self.lanes.put(alloc, lane, load)?;
        Ok(())
    }

    /// Takes a lane's front away.
    fn take(&mut self, rank: u16, lane: Lane)
        ensures did { tables_of self.new
            ≡ ideal_after_act rank (tables_of self.old) (Takes lane) }
        ensures ranks { length self.new.ranks.items ≡ length self.old.ranks.items }
    {
        self.lanes.take(lane);
    }

    /// Goes on to the next instruction.
    pub(crate) fn move_on(&mut self, rank: u16)
        requires known { rank < length self.old.ranks.items }
        requires few { ((tables_of self.old).parts rank).at + 1 < 2 ^ 32 }
        ensures did { tables_of self.new
            ≡ ideal_past_instr (tables_of self.old) rank }
        ensures ranks { length self.new.ranks.items ≡ length self.old.ranks.items }
    {
        let place = &mut self.ranks[usize::from(rank)];
        place.at += 1;
    }

    /// Does an act of a rank. `AllocError` comes from the allocator alone.
    pub(crate) fn act(&mut self, alloc: Global, rank: u16, act: StepAct) -> Result<(), AllocError>
        requires known { rank < length self.old.ranks.items }
        requires few { ((tables_of self.old).parts rank).made + 1 < 2 ^ 32 }
        requires small { IsSmall (act_meant act) }
        ensures did { OnOk result (tables_of self.new
            ≡ ideal_after_act rank (tables_of self.old) (act_meant act)) }
        ensures ranks { OnOk result (length self.new.ranks.items ≡ length self.old.ranks.items) }
    {
        match act {
            StepAct::Counts => self.count(rank),
            StepAct::SlotSet { q, wire } => self.set_slot(rank, q, wire),
            StepAct::Puts { lane, load } => self.put(alloc, rank, lane, load)?,
            StepAct::Takes { lane } => self.take(rank, lane),
            StepAct::BitSet { b, v } => self.set_bit(rank, b, v),
        }
        Ok(())
    }

    /// Does the acts of a rank's step, one after another. `AllocError` comes from the allocator alone.
    pub(crate) fn do_acts(
        &mut self,
        alloc: Global,
        rank: u16,
        acts: Few<StepAct>,
    ) -> Result<(), AllocError>
        requires known { rank < length self.old.ranks.items }
        requires few { ((tables_of self.old).parts rank).made + 3 < 2 ^ 32 }
        requires small { AllSmall (map act_meant (list_of acts)) }
        ensures did { OnOk result (tables_of self.new
            ≡ fold (ideal_after_act rank) (tables_of self.old)
            (map act_meant (list_of acts))) }
        ensures ranks { OnOk result (length self.new.ranks.items ≡ length self.old.ranks.items) }
    {
        match acts {
            Few::Empty => {}
            Few::One(a) => self.act(alloc, rank, a)?,
            Few::Two(a, b) => {
                self.act(alloc, rank, a)?;
                self.act(alloc, rank, b)?;
            }
            Few::Three(a, b, c) => {
                self.act(alloc, rank, a)?;
                self.act(alloc, rank, b)?;
                self.act(alloc, rank, c)?;
            }
        }
        Ok(())
    }
}
