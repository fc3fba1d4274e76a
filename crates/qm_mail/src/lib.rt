//! The mail between the ranks: for each lane the parcels that stand on it, the front one first.
#![tactic(auto)]

ghost use Rattle.std.specs.Prelude.{◌≡◌, ◌<◌, ◌≤◌, ◌++◌, ◌∷◌, [], Some, length, map, drop, slice_get, nat_eq, IfOk};
ghost use Rattle.std.specs.VecDeque.{deque_capacity};
ghost use Rattle.qm_denot.specs.Parcels.{filled, IsFillable};
ghost use Rattle.qm_mail.specs.Mails.{parcels_on, sends_on, with_parcels, empty_lane, AreRising, HasBits};

pub use qm_check::LaneCount;
pub use qm_denot::Parcel;
use qm_instr::Lane;
use std::alloc::{AllocError, Global};
use std::collections::{BTreeMap, VecDeque};
use std::marker::Model;

/// The parcels of one lane, and how many are sent on it in all.
#[derive(Drop)]
struct Queue {
    parcels: VecDeque<Parcel>,
    sends: u32,
    ghost reserved: { sends ≤ deque_capacity parcels },
}

/// For each lane a list of parcels, and how many are sent on it in all. A parcel is posted at the list's end and taken from its front.
#[derive(Drop)]
pub struct Mail {
    lanes: BTreeMap<Lane, Queue>,
}

impl Model for Mail {
    ghost use Rattle.std.specs.Prelude.{List};
    ghost use Rattle.qm_mail.specs.Mails.{MailLane};

    ghost Value = { List MailLane };

    ghost use Rattle.qm_mail.specs.Queues.{lanes_shown};

    ghost view = { λ m. lanes_shown m.lanes };
}

impl Mail {
    /// Empty lanes, each with a place for every parcel that is sent on it. The lanes rise in their order. `AllocError` comes from the
    /// allocator alone.
    pub fn start(alloc: Global, lanes: &[LaneCount]) -> Result<Mail, AllocError>
        requires { AreRising lanes.now }
        ensures { IfOk result (λ m. m ≡ map empty_lane lanes.now) }
    {
        let mut all = BTreeMap::new(alloc);
        for count in lanes {
            let queue = Queue {
                parcels: VecDeque::with_capacity(alloc, count.sends as usize)?,
                sends: count.sends,
            };
            all.insert(count.lane, queue)?;
        }
        Ok(Mail { lanes: all })
    }

    /// Whether the lane has no parcel.
    pub fn is_empty(&self, lane: Lane) -> bool
        ensures { result ≡ nat_eq (length (parcels_on self.now lane)) 0 }
    {
        match self.lanes.get(&lane) {
            Some(queue) => queue.parcels.is_empty(),
            None => true,
        }
    }

    /// The lane's first parcel; None exactly where the lane is empty.
    pub fn front(&self, lane: Lane) -> Option<Parcel>
        ensures { result ≡ slice_get (parcels_on self.now lane) 0 }
    {
        match self.lanes.get(&lane) {
            Some(queue) => queue.parcels.front().copied(),
            None => None,
        }
    }

    /// Puts a parcel at the lane's end. The lane is known and has fewer parcels than are sent on it, which is so wherever fewer
    /// than its sends were posted.
    pub fn post(&mut self, lane: Lane, parcel: Parcel)
        requires { length (parcels_on self.old lane) < sends_on self.old lane }
        ensures { self.new ≡ with_parcels self.old lane (parcels_on self.old lane ++ parcel ∷ []) }
    {
        match self.lanes.get_mut(&lane) {
            Some(queue) => queue.parcels.push_back_reserved(parcel),
            None => unreachable!(),
        }
    }

    /// Gives the lane's last parcel its bits. There is one, without bits.
    pub fn fill(&mut self, lane: Lane, bits: (bool, bool))
        requires { IsFillable (parcels_on self.old lane) }
        ensures { self.new ≡ with_parcels self.old lane (filled (parcels_on self.old lane) bits) }
    {
        match self.lanes.get_mut(&lane) {
            Some(queue) => match queue.parcels.back_mut() {
                Some(parcel) => parcel.bits = Some(bits),
                None => unreachable!(),
            },
            None => unreachable!(),
        }
    }

    /// Takes the lane's first parcel, which has bits.
    pub fn take(&mut self, lane: Lane) -> Parcel
        requires { HasBits (slice_get (parcels_on self.old lane) 0) }
        ensures front { slice_get (parcels_on self.old lane) 0 ≡ Some result }
        ensures rest { self.new ≡ with_parcels self.old lane (drop 1 (parcels_on self.old lane)) }
    {
        match self.lanes.get_mut(&lane) {
            Some(queue) => match queue.parcels.pop_front() {
                Some(parcel) => parcel,
                None => unreachable!(),
            },
            None => unreachable!(),
        }
    }
}
