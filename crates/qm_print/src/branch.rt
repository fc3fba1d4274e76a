//! A branch in the making.
ghost use Rattle.std.specs.Prelude.{◌≡◌, ◌<◌, ◌≤◌, ◌∷◌, [], ◌++◌, length};
ghost use Rattle.qm_print.specs.Branches.{without_last};

use qm_denot::Wire;
use qm_limits::MOST_CAPACITY;
use std::marker::Model;

/// The most slots that a branch goes over.
pub(crate) const MOST: usize = MOST_CAPACITY as usize;

/// The bits of a branch over the first slots, and the wires that are one in it.
#[derive(Drop)]
pub(crate) struct Branch {
    bits: [u8; MOST],
    length: usize,
    ones: [Wire; MOST],
    count: usize,
}

impl Model for Branch {
    ghost use Rattle.std.specs.Prelude.{ℕ, ◌≤◌, List, take};
    ghost use Rattle.qm_limits.specs.declared.TheConstants.{MOST_CAPACITY};
    ghost use Rattle.qm_print.specs.Branches.{BranchView};

    ghost Value = { BranchView };

    ghost view = { λ b. record { bits = take b.length b.bits; ones = take b.count b.ones } };

    ghost invariant = { λ b. (b.length ≤ MOST_CAPACITY) × (b.count ≤ MOST_CAPACITY) };
}

impl Branch {
    /// The branch over no slots.
    pub(crate) fn start() -> Branch
        ensures { result ≡ record { bits = []; ones = [] } }
    {
        // What stands behind the last one is never read.
        let unread = Wire {
            rank: 0,
            made: 0,
            near: false,
        };
        Branch {
            bits: [b'0'; MOST],
            length: 0,
            ones: [unread; MOST],
            count: 0,
        }
    }

    /// Goes on to a slot that is zero.
    pub(crate) fn enter_zero(&mut self)
        requires { length self.old.bits < MOST_CAPACITY }
        ensures { self.new ≡ record self.old { bits = self.old.bits ++ 48 ∷ [] } }
    {
        self.bits[self.length] = b'0';
        self.length += 1;
    }

    /// Goes on to a slot that is one.
    pub(crate) fn enter_one(&mut self, wire: Wire)
        requires bits { length self.old.bits < MOST_CAPACITY }
        requires ones { length self.old.ones < MOST_CAPACITY }
        ensures { self.new ≡ record {
          bits = self.old.bits ++ 49 ∷ [];
          ones = self.old.ones ++ wire ∷ [];
        } }
    {
        self.bits[self.length] = b'1';
        self.length += 1;
        self.ones[self.count] = wire;
        self.count += 1;
    }

    /// Goes back from a slot that is zero.
    pub(crate) fn leave_zero(&mut self)
        requires { 0 < length self.old.bits }
        ensures { self.new ≡ record self.old { bits = without_last self.old.bits } }
    {
        self.length -= 1;
    }

    /// Goes back from a slot that is one.
    pub(crate) fn leave_one(&mut self)
        requires bits { 0 < length self.old.bits }
        requires ones { 0 < length self.old.ones }
        ensures { self.new ≡ record {
          bits = without_last self.old.bits;
          ones = without_last self.old.ones;
        } }
    {
        self.length -= 1;
        self.count -= 1;
    }

    /// The bits, as digits.
    pub(crate) fn bits(&self) -> &[u8]
        ensures { result.now ≡ self.now.bits }
    {
        &self.bits[..self.length]
    }

    /// The wires that are one.
    pub(crate) fn ones(&self) -> &[Wire]
        ensures { result.now ≡ self.now.ones }
    {
        &self.ones[..self.count]
    }
}
