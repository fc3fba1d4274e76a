//! The books of a machine: its ranks, the places of their wires, how many halves each rank holds, and the mail.
ghost use Rattle.std.specs.Prelude.{◌≡◌, ◌<◌, ◌≤◌, ◌+◌, ◌||◌, length, is_some, nat_eq, nat_lt};
ghost use Rattle.qm_proto.specs.Model.State.{far_made, near_last, bit_of, own_next, protocol_next, front, wire_in, wire_of, first_bit};
ghost use Rattle.qm_proto.specs.Model.Runs.{halves};
ghost use Rattle.qm_machine.specs.Facts.{size_at};

use crate::parcels::{first_bit, wire_of};
use crate::rank::Rank;
use qm_buffers::Halves;
use qm_denot::Wire;
use qm_instr::Lane;
use qm_mail::Mail;
use qm_owner::Places;
use qm_proto::{NO_WIRE, Parcel};

/// Ranks, the places of their wires, how many halves each holds, and the mail: all that a machine keeps of a run beside its store.
#[derive(Drop)]
pub(crate) struct Books {
    pub(crate) ranks: Vec<Rank>,
    pub(crate) places: Places,
    pub(crate) halves: Halves,
    pub(crate) mail: Mail,
}

impl Books {
    ghost use Rattle.qm_instr.specs.Bits.{number_of_bits};
    ghost use Rattle.qm_machine.specs.Views.{tables, rank_count, sizes, part_of};

    /// A rank.
    fn rank(&self, rank: u16) -> &Rank
        requires { rank < rank_count self.now }
        ensures { part_of result.now ≡ (tables self.now).parts rank }
    {
        &self.ranks[usize::from(rank)]
    }

    /// The number of a rank's next instruction.
    pub(crate) fn at(&self, rank: u16) -> u32
        requires { rank < rank_count self.now }
        ensures { result ≡ ((tables self.now).parts rank).at }
    {
        self.rank(rank).at()
    }

    /// How many events of that instruction it has had.
    pub(crate) fn stage(&self, rank: u16) -> u32
        requires { rank < rank_count self.now }
        ensures { result ≡ ((tables self.now).parts rank).stage }
    {
        self.rank(rank).stage()
    }

    /// The parcel that a rank took last.
    pub(crate) fn taken(&self, rank: u16) -> Parcel
        requires { rank < rank_count self.now }
        ensures { result ≡ ((tables self.now).parts rank).taken }
    {
        self.rank(rank).taken()
    }

    /// The first outcome of a move that a rank is doing.
    pub(crate) fn first(&self, rank: u16) -> bool
        requires { rank < rank_count self.now }
        ensures { result ≡ ((tables self.now).parts rank).first }
    {
        self.rank(rank).first()
    }

    /// A bit of a rank; false where there is none.
    pub(crate) fn bit(&self, rank: u16, b: u8) -> bool
        requires { rank < rank_count self.now }
        ensures { result ≡ bit_of (tables self.now) rank b }
    {
        self.rank(rank).bit(b)
    }

    /// The next outcome of a rank's own tape; false where none is left.
    pub(crate) fn own_next(&self, rank: u16) -> bool
        requires { rank < rank_count self.now }
        ensures { result ≡ own_next (tables self.now) rank }
    {
        self.rank(rank).own_next()
    }

    /// The next outcome of a rank's protocol tape; false where none is left.
    pub(crate) fn protocol_next(&self, rank: u16) -> bool
        requires { rank < rank_count self.now }
        ensures { result ≡ protocol_next (tables self.now) rank }
    {
        self.rank(rank).protocol_next()
    }

    /// The wire that a rank's count names: a qubit or a far half.
    pub(crate) fn far_made(&self, rank: u16) -> Wire
        requires { rank < rank_count self.now }
        ensures { result ≡ far_made (tables self.now) rank }
    {
        Wire {
            rank,
            made: self.rank(rank).made(),
            near: false,
        }
    }

    /// The near half that a rank made last.
    pub(crate) fn near_last(&self, rank: u16) -> Wire
        requires { rank < rank_count self.now }
        ensures { result ≡ near_last (tables self.now) rank }
    {
        Wire {
            rank,
            made: self.rank(rank).made().saturating_sub(1),
            near: true,
        }
    }

    /// The wire in a rank's slot, where it is full.
    #[tactic(auto, unfolding(crate::specs::Views::tables))]
    pub(crate) fn slot(&self, rank: u16, q: u8) -> Option<Wire>
        ensures { result ≡ (tables self.now).slots rank q }
    {
        self.places.slot(rank, q)
    }

    /// The wire in a rank's full slot.
    pub(crate) fn wire_in(&self, rank: u16, q: u8) -> Wire
        ensures { result ≡ wire_in (tables self.now) rank q }
    {
        match self.slot(rank, q) {
            Some(wire) => wire,
            None => NO_WIRE,
        }
    }

    /// How many halves a rank holds, at most the size of its buffer.
    pub(crate) fn halves(&self, rank: u16) -> u32
        requires { rank < length (sizes self.now) }
        ensures count { result ≡ halves (tables self.now) rank }
        ensures within { result ≤ size_at (sizes self.now) rank }
    {
        self.halves.halves(rank)
    }

    /// Whether a pair may be prepared for a receiver: where its half is wanted, or where one half more leaves the receiver's buffer
    /// another place.
    pub(crate) fn may_pair(&self, to: u16, wanted: bool) -> bool
        requires { to < length (sizes self.now) }
        ensures { let more = halves (tables self.now) to + 1 in
            result ≡ (nat_lt more (size_at (sizes self.now) to) || wanted) }
    {
        self.halves.may_pair(to, wanted)
    }

    /// A rank's classical bits as a number, bit 0 the lowest.
    pub(crate) fn bits(&self, rank: u16) -> u32
        requires { rank < rank_count self.now }
        ensures { result ≡ number_of_bits ((tables self.now).parts rank).bits }
    {
        self.rank(rank).bits()
    }

    /// Whether a lane has no parcel.
    #[tactic(auto, unfolding(crate::specs::Views::tables))]
    pub(crate) fn is_empty(&self, lane: Lane) -> bool
        ensures { result ≡ nat_eq (length ((tables self.now).lanes lane)) 0 }
    {
        self.mail.is_empty(lane)
    }

    /// Whether a lane's front parcel has its bits; not where the lane is empty.
    #[tactic(auto, unfolding(crate::specs::Views::tables))]
    pub(crate) fn is_filled(&self, lane: Lane) -> bool
        ensures { result ≡ is_some (front (tables self.now) lane).bits }
    {
        match self.mail.front(lane) {
            Some(parcel) => parcel.bits.is_some(),
            None => false,
        }
    }

    /// The first bit of a lane's front parcel; false where there is none.
    #[tactic(auto, unfolding(crate::specs::Views::tables))]
    pub(crate) fn front_bit(&self, lane: Lane) -> bool
        ensures { result ≡ first_bit (front (tables self.now) lane) }
    {
        match self.mail.front(lane) {
            Some(parcel) => first_bit(parcel),
            None => false,
        }
    }

    /// The wire that a lane's front parcel carries.
    #[tactic(auto, unfolding(crate::specs::Views::tables))]
    pub(crate) fn front_wire(&self, lane: Lane) -> Wire
        ensures { result ≡ wire_of (front (tables self.now) lane) }
    {
        match self.mail.front(lane) {
            Some(parcel) => wire_of(parcel),
            None => NO_WIRE,
        }
    }
}
