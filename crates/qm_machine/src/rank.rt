//! One rank of a machine, but for its wires: how far it is in its program, its bits and its tapes.
use qm_instr::bits::{BITS, number_of_bits};
use qm_limits::MOST_OUTCOMES;
use qm_proto::{Parcel, has_event_after};
use qm_tape::Tape;
use std::alloc::{AllocError, Global};

/// A rank.
#[derive(Drop)]
pub(crate) struct Rank {
    at: u32,
    stage: u32,
    made: u32,
    bits: [bool; BITS],
    own: Tape,
    protocol: Tape,
    taken: Parcel,
    first: bool,
}

impl Rank {
    ghost use Rattle.std.specs.Prelude.{◌≡◌, ◌≤◌, ◌<◌, ◌+◌, ◌^◌, length, drop, slice_index_or, slice_set, false, IfOk};
    ghost use Rattle.qm_proto.specs.Model.Acts.{with_one_counted};
    ghost use Rattle.qm_proto.specs.Model.Runs.{part_after_event};
    ghost use Rattle.qm_instr.specs.Bits.{number_of_bits};
    ghost use Rattle.qm_machine.specs.Views.{part_of, part_with};

    /// A rank before its first event, with these tapes. `AllocError` comes from the allocator alone.
    pub(crate) fn start(alloc: Global, own: &[bool], protocol: &[bool]) -> Result<Rank, AllocError>
        requires own { length own.now ≤ MOST_OUTCOMES }
        requires protocol { length protocol.now ≤ MOST_OUTCOMES }
        ensures { IfOk result (λ x. part_of x ≡ part_with own.now protocol.now) }
    {
        Ok(Rank {
            at: 0,
            stage: 0,
            made: 0,
            bits: [false; BITS],
            own: Tape::start(alloc, own)?,
            protocol: Tape::start(alloc, protocol)?,
            taken: Parcel {
                wire: None,
                bits: None,
            },
            first: false,
        })
    }

    /// The number of its next instruction.
    pub(crate) fn at(&self) -> u32
        ensures { result ≡ (part_of self.now).at }
    {
        self.at
    }

    /// How many events of that instruction it has had.
    pub(crate) fn stage(&self) -> u32
        ensures { result ≡ (part_of self.now).stage }
    {
        self.stage
    }

    /// How many wires it has counted.
    pub(crate) fn made(&self) -> u32
        ensures { result ≡ (part_of self.now).made }
    {
        self.made
    }

    /// The parcel that it took last.
    pub(crate) fn taken(&self) -> Parcel
        ensures { result ≡ (part_of self.now).taken }
    {
        self.taken
    }

    /// The first outcome of the move that it is doing.
    pub(crate) fn first(&self) -> bool
        ensures { result ≡ (part_of self.now).first }
    {
        self.first
    }

    /// A bit; false where there is none.
    pub(crate) fn bit(&self, b: u8) -> bool
        ensures { result ≡ slice_index_or (part_of self.now).bits b false }
    {
        match self.bits.get(usize::from(b)) {
            Some(bit) => *bit,
            None => false,
        }
    }

    /// The next outcome of its own tape; false where none is left.
    pub(crate) fn own_next(&self) -> bool
        ensures { result ≡ slice_index_or (part_of self.now).own 0 false }
    {
        self.own.first().unwrap_or(false)
    }

    /// The next outcome of its protocol tape; false where none is left.
    pub(crate) fn protocol_next(&self) -> bool
        ensures { result ≡ slice_index_or (part_of self.now).protocol 0 false }
    {
        self.protocol.first().unwrap_or(false)
    }

    /// Its classical bits as a number, bit 0 the lowest.
    pub(crate) fn bits(&self) -> u32
        ensures { result ≡ number_of_bits (part_of self.now).bits }
    {
        number_of_bits(&self.bits)
    }

    /// Counts a wire, or a pair.
    pub(crate) fn count_wire(&mut self)
        requires { (part_of self.old).made + 1 < 2 ^ 32 }
        ensures { part_of self.new ≡ with_one_counted (part_of self.old) }
    {
        self.made += 1;
    }

    /// Keeps the parcel that it takes.
    pub(crate) fn receive(&mut self, parcel: Parcel)
        ensures { let x = part_of self.old in
            part_of self.new ≡ record x { taken = parcel } }
    {
        self.taken = parcel;
    }

    /// Uses an outcome of the protocol tape.
    pub(crate) fn use_protocol(&mut self)
        requires { 0 < length (part_of self.old).protocol }
        ensures { let x = part_of self.old in
            part_of self.new ≡ record x { protocol = drop 1 x.protocol } }
    {
        self.protocol.next();
    }

    /// Uses an outcome of the own tape.
    pub(crate) fn use_own(&mut self)
        requires { 0 < length (part_of self.old).own }
        ensures { let x = part_of self.old in
            part_of self.new ≡ record x { own = drop 1 x.own } }
    {
        self.own.next();
    }

    /// Keeps the first outcome of its move.
    pub(crate) fn keep_first(&mut self, m: bool)
        ensures { let x = part_of self.old in
            part_of self.new ≡ record x { first = m } }
    {
        self.first = m;
    }

    /// Sets a bit.
    pub(crate) fn set_bit(&mut self, b: u8, v: bool)
        requires { b < BITS }
        ensures { let x = part_of self.old in
            part_of self.new ≡ record x { bits = slice_set x.bits b v } }
    {
        self.bits[usize::from(b)] = v;
    }

    /// Goes on to the next event of an instruction that has so many.
    pub(crate) fn move_on(&mut self, events: u32)
        requires at { (part_of self.old).at + 1 < 2 ^ 32 }
        requires stage { (part_of self.old).stage + 1 < 2 ^ 32 }
        ensures { part_of self.new ≡ part_after_event events (part_of self.old) }
    {
        if has_event_after(self.stage, events) {
            self.stage += 1;
        } else {
            self.at += 1;
            self.stage = 0;
        }
    }
}
