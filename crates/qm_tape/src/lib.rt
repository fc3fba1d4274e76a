//! Tapes of measurement outcomes: a list of bits that is read from its front.
#![tactic(auto)]

ghost use Rattle.std.specs.Prelude.{◌≡◌, ◌<◌, ◌≤◌, length, drop, slice_get, slice_index_or, false, IfOk};

use qm_limits::MOST_OUTCOMES;
use std::alloc::{AllocError, Global};
use std::marker::Model;

/// The outcomes that are left on a tape, in their order.
#[derive(Drop)]
pub struct Tape {
    bits: Vec<bool>,
    used: usize,
}

impl Model for Tape {
    ghost use Rattle.std.specs.Prelude.{◌≤◌, Bool, List, drop, length};
    ghost use Rattle.qm_limits.specs.declared.TheConstants.{MOST_OUTCOMES};

    ghost Value = { List Bool };

    ghost view = { λ t. drop t.used t.bits.items };

    ghost invariant = { λ t. (t.used ≤ length t.bits.items) × (length t.bits.items ≤ MOST_OUTCOMES) };
}

impl Tape {
    /// A tape of these bits, of which there are at most [`MOST_OUTCOMES`]. `AllocError` comes from the allocator alone.
    pub fn start(alloc: Global, bits: &[bool]) -> Result<Tape, AllocError>
        requires { length bits.now ≤ MOST_OUTCOMES }
        ensures { IfOk result (λ t. t ≡ bits.now) }
    {
        let mut copy = Vec::with_capacity(alloc, bits.len())?;
        copy.extend_from_slice(bits)?;
        Ok(Tape {
            bits: copy,
            used: 0,
        })
    }

    /// The first bit that is left; None exactly where the tape is at its end.
    pub fn first(&self) -> Option<bool>
        ensures { result ≡ slice_get self.now 0 }
    {
        self.bits.get(self.used).copied()
    }

    /// Takes the first bit. The tape must not be at its end.
    pub fn next(&mut self) -> bool
        requires { 0 < length self.old }
        ensures first { result ≡ slice_index_or self.old 0 false }
        ensures rest { self.new ≡ drop 1 self.old }
    {
        let bit = self.bits[self.used];
        self.used += 1;
        bit
    }

    /// How many bits are left, at most [`MOST_OUTCOMES`].
    pub fn left(&self) -> u32
        ensures count { result ≡ length self.now }
        ensures few { result ≤ MOST_OUTCOMES }
    {
        (self.bits.len() - self.used) as u32
    }
}
