//! The buffers of all ranks: how many halves of EPR pairs each may hold, and how many it holds.
#![tactic(auto)]

ghost use Rattle.std.specs.Prelude.{◌≡◌, ◌≢◌, ◌+◌, ◌-◌, ◌<◌, ◌≤◌, ◌⊎◌, ◌↔◌, All, IsTrue, length, map, slice_set};
ghost use Rattle.qm_buffers.specs.Halves.{buffer_at, empty_buffer, with_held};

use qm_limits::{MOST_HALVES, MOST_RANKS};
use std::marker::Model;

/// How many ranks there may be, as the length of a list.
const RANKS: usize = MOST_RANKS as usize;

/// A rank's buffer: how many halves it may hold, and how many it holds.
#[derive(Clone, Copy)]
pub struct Buffer {
    pub size: u8,
    pub held: u8,
}

/// The buffers of the ranks, in the order of their numbers. No buffer holds more halves than its size.
#[derive(Drop)]
pub struct Halves {
    buffers: [Buffer; RANKS],
    ranks: usize,
}

impl Model for Halves {
    ghost use Rattle.std.specs.Prelude.{◌≤◌, All, List, take};
    ghost use Rattle.qm_buffers.specs.declared.Buffer.{Buffer};
    ghost use Rattle.qm_limits.specs.declared.TheConstants.{MOST_RANKS};
    ghost use Rattle.qm_buffers.specs.Halves.{IsWithinSize};

    ghost Value = { List Buffer };

    ghost view = { λ h. take h.ranks h.buffers };

    ghost invariant = { λ h. (h.ranks ≤ MOST_RANKS) × All IsWithinSize h.buffers };
}

impl Halves {
    /// Empty buffers of these sizes, one for each rank: at most [`MOST_RANKS`], each 1 to [`MOST_HALVES`].
    pub fn start(sizes: &[u8]) -> Halves
        requires few { length sizes.now ≤ MOST_RANKS }
        requires sizes { All (λ s. (1 ≤ s) × (s ≤ MOST_HALVES)) sizes.now }
        ensures { result ≡ map empty_buffer sizes.now }
    {
        let mut buffers = [Buffer { size: 0, held: 0 }; RANKS];
        for (rank, size) in sizes.iter().enumerate() {
            buffers[rank] = Buffer {
                size: *size,
                held: 0,
            };
        }
        Halves {
            buffers,
            ranks: sizes.len(),
        }
    }

    /// How many halves a rank holds, which is no more than its buffer's size.
    pub fn halves(&self, rank: u16) -> u32
        requires { rank < length self.now }
        ensures count { result ≡ (buffer_at self.now rank).held }
        ensures within { result ≤ (buffer_at self.now rank).size }
    {
        u32::from(self.buffers[usize::from(rank)].held)
    }

    /// Whether a pair may be prepared for the receiver `to`: where it is wanted, or where one half more leaves the receiver's buffer
    /// another place.
    pub fn may_pair(&self, to: u16, wanted: bool) -> bool
        requires { to < length self.now }
        ensures { IsTrue result
            ↔ (IsTrue wanted ⊎ ((buffer_at self.now to).held + 1 < (buffer_at self.now to).size)) }
    {
        let buffer = self.buffers[usize::from(to)];
        wanted || buffer.held + 1 < buffer.size
    }

    /// One half more at a rank, which holds fewer than its buffer's size.
    pub fn add(&mut self, rank: u16)
        requires { (buffer_at self.old rank).held < (buffer_at self.old rank).size }
        ensures { self.new ≡ with_held self.old rank ((buffer_at self.old rank).held + 1) }
    {
        self.buffers[usize::from(rank)].held += 1;
    }

    /// One half less at a rank, which holds some.
    pub fn drop_half(&mut self, rank: u16)
        requires { (buffer_at self.old rank).held ≢ 0 }
        ensures { self.new ≡ with_held self.old rank ((buffer_at self.old rank).held - 1) }
    {
        self.buffers[usize::from(rank)].held -= 1;
    }
}
