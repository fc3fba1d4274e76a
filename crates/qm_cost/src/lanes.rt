//! For each lane, the events that gave their bits to the parcels that stand on it.
ghost use Rattle.std.specs.Prelude.{◌≡◌, ◌++◌, ◌∷◌, [], drop, OnOk};
ghost use Rattle.qm_instr.specs.declared.Lane.{Lane};
ghost use Rattle.qm_proto.specs.Model.State.{with_lane};
ghost use Rattle.qm_cost.specs.Books.{front_of, lanes_of, last_set};

use qm_instr::Lane;
use std::alloc::{AllocError, Global};
use std::collections::{BTreeMap, VecDeque};

/// A queue for each lane, with the giver of each parcel, or `None` where it has no bits. A lane that the map doesn't have is empty.
#[derive(Drop)]
pub(crate) struct Lanes {
    queues: BTreeMap<Lane, VecDeque<Option<u32>>>,
}

impl Lanes {
    /// Empty lanes.
    pub(crate) fn start(alloc: Global) -> Lanes
        ensures { lanes_of result ≡ λ a. [] }
    {
        Lanes {
            queues: BTreeMap::new(alloc),
        }
    }

    /// The event that gave its bits to the parcel at the lane's front, where there are the parcel and the event.
    pub(crate) fn front(&self, lane: Lane) -> Option<u32>
        ensures { result ≡ front_of (lanes_of self.now lane) }
    {
        match self.queues.get(&lane) {
            Some(queue) => match queue.front() {
                Some(giver) => *giver,
                None => None,
            },
            None => None,
        }
    }

    /// Puts a giver at the lane's end. `AllocError` comes from the allocator alone.
    pub(crate) fn put(
        &mut self,
        alloc: Global,
        lane: Lane,
        giver: Option<u32>,
    ) -> Result<(), AllocError>
        ensures { OnOk result (lanes_of self.new
            ≡ with_lane (lanes_of self.old) lane (lanes_of self.old lane ++ giver ∷ [])) }
    {
        if let Some(queue) = self.queues.get_mut(&lane) {
            queue.push_back(giver)?;
            return Ok(());
        }
        let mut queue = VecDeque::new(alloc);
        queue.push_back(giver)?;
        self.queues.insert(lane, queue)?;
        Ok(())
    }

    /// Takes the lane's front away, where there is one.
    pub(crate) fn take(&mut self, lane: Lane)
        ensures { lanes_of self.new
            ≡ with_lane (lanes_of self.old) lane (drop 1 (lanes_of self.old lane)) }
    {
        if let Some(queue) = self.queues.get_mut(&lane) {
            queue.pop_front();
        }
    }

    /// Puts a giver in the place of the lane's last, where there is one.
    pub(crate) fn set_last(&mut self, lane: Lane, giver: Option<u32>)
        ensures { lanes_of self.new
            ≡ with_lane (lanes_of self.old) lane (last_set (lanes_of self.old lane) giver) }
    {
        if let Some(queue) = self.queues.get_mut(&lane) {
            if let Some(last) = queue.back_mut() {
                *last = giver;
            }
        }
    }
}
