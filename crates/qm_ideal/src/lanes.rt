//! What the lanes hold.
ghost use Rattle.std.specs.Prelude.{◌≡◌, ◌++◌, ◌∷◌, [], length, drop, slice_get, nat_eq, OnOk};
ghost use Rattle.qm_instr.specs.declared.Lane.{Lane};
ghost use Rattle.qm_proto.specs.Model.State.{with_lane};
ghost use Rattle.qm_ideal.specs.Lanes.{lanes_of};
ghost use Rattle.qm_ideal.specs.Meetings.{last_set};

use qm_instr::Lane;
use std::alloc::{AllocError, Global};
use std::collections::{BTreeMap, VecDeque};

/// A queue for each lane; a lane that the map doesn't have is empty.
#[derive(Drop)]
pub(crate) struct Lanes<T: Copy + Drop> {
    queues: BTreeMap<Lane, VecDeque<T>>,
}

impl<T: Copy + Drop> Lanes<T> {
    /// Empty lanes.
    pub(crate) fn start(alloc: Global) -> Lanes<T>
        ensures { lanes_of result ≡ λ a. [] }
    {
        Lanes {
            queues: BTreeMap::new(alloc),
        }
    }

    /// Whether the lane is empty.
    pub(crate) fn is_empty(&self, lane: Lane) -> bool
        ensures { result ≡ nat_eq (length (lanes_of self.now lane)) 0 }
    {
        match self.queues.get(&lane) {
            Some(queue) => queue.is_empty(),
            None => true,
        }
    }

    /// What stands at the lane's front.
    pub(crate) fn front(&self, lane: Lane) -> Option<T>
        ensures { result ≡ slice_get (lanes_of self.now lane) 0 }
    {
        match self.queues.get(&lane) {
            Some(queue) => queue.front().copied(),
            None => None,
        }
    }

    /// Puts something at the lane's end. `AllocError` comes from the allocator alone.
    pub(crate) fn put(&mut self, alloc: Global, lane: Lane, load: T) -> Result<(), AllocError>
        ensures { OnOk result (lanes_of self.new
            ≡ with_lane (lanes_of self.old) lane (lanes_of self.old lane ++ load ∷ [])) }
    {
        if let Some(queue) = self.queues.get_mut(&lane) {
            queue.push_back(load)?;
            return Ok(());
        }
        let mut queue = VecDeque::new(alloc);
        queue.push_back(load)?;
        self.queues.insert(lane, queue)?;
        Ok(())
    }

    /// Takes the lane's front away, where there is one.
    pub(crate) fn take(&mut self, lane: Lane)
        ensures { lanes_of self.new
            ≡ with_lane (lanes_of self.old) lane (drop 1 (lanes_of self.old lane)) }
    {
        if let Some(queue) = self.queues.get_mut(&lane) {
            queue.pop_front();
        }
    }

    /// Puts something in the place of the lane's last, where there is one.
    pub(crate) fn set_last(&mut self, lane: Lane, load: T)
        ensures { lanes_of self.new
            ≡ with_lane (lanes_of self.old) lane (last_set (lanes_of self.old lane) load) }
    {
        if let Some(queue) = self.queues.get_mut(&lane) {
            if let Some(last) = queue.back_mut() {
                *last = load;
            }
        }
    }
}
