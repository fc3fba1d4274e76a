//! A source in memory that fails where it is told to.
ghost use Rattle.std.specs.Prelude.{◌≡◌, ◌<◌, ◌≤◌, ◌↔◌, length, take, min, IfOk, OnErr, IsErr, Some};
ghost use Rattle.qm_io.specs.Ends.{Gave, Withheld, IsSpent};
ghost use Rattle.qm_io.specs.MemSource.{unread, view_of, FailsNext, next_count, HasGiven, HasFailed};

use crate::ends::{Failed, Source, fault};
use std::marker::Model;

/// A source over bytes in memory, with a list of calls that fail. The calls are numbered from 1.
#[derive(Drop)]
pub struct MemSource {
    bytes: Vec<u8>,
    at: usize,
    most: usize,
    fails: Vec<u64>,
    calls: u64,
    faults: u64,
}

impl Model for MemSource {
    ghost use Rattle.std.specs.Prelude.{◌<◌, ◌≤◌, drop, vec_len};
    ghost use Rattle.qm_io.specs.MemSource.{MemSourceState};

    ghost Value = { MemSourceState };

    ghost view = { λ s. record {
      left = drop s.at s.bytes.items;
      most = s.most;
      fails = s.fails.items;
      calls = s.calls;
      faults = s.faults;
    } };

    ghost invariant = { λ s. (s.at ≤ vec_len s.bytes) × (0 < s.most) };
}

impl MemSource {
    /// A source that has these bytes left, and gives at most `most` in a call.
    /// It fails at the calls that `fails` lists, and at no other. `most` is at least 1.
    pub fn start(bytes: Vec<u8>, fails: Vec<u64>, most: usize) -> MemSource
        requires { 0 < most }
        ensures seen { ⟦<MemSource as Source>⟧.seen result
            ≡ record { left = Some bytes.items; faults = 0 } }
        ensures state { result ≡ unread bytes.items fails.items most }
    {
        MemSource {
            bytes,
            at: 0,
            most,
            fails,
            calls: 0,
            faults: 0,
        }
    }
}

impl Source for MemSource {
    ghost seen = { view_of };

    /// Gives as many bytes as the piece, `most` and what is left allow. Fails at a listed call alone.
    fn read(&mut self, piece: &mut [u8]) -> Result<usize, Failed>
        requires { 0 < length piece.old }
        ensures ok { IfOk result
            (λ n. Gave (view_of self.old) (view_of self.new) (take n piece.new)) }
        ensures end { IfOk result (λ n. n ≡ 0 → IsSpent (view_of self.old).left) }
        ensures err { OnErr result (Withheld (view_of self.old) (view_of self.new)) }
        ensures fails { IsErr result ↔ FailsNext self.old }
        ensures count { IfOk result (λ n. n ≡ next_count self.old (length piece.old)) }
        ensures given { IfOk result (HasGiven self.old self.new) }
        ensures failed { OnErr result (HasFailed self.old self.new) }
    {
        self.calls = self.calls.saturating_add(1);
        if self.fails.contains(&self.calls) {
            return Err(fault(&mut self.faults));
        }
        let left = self.bytes.len() - self.at;
        let n = piece.len().min(self.most).min(left);
        piece[..n].copy_from_slice(&self.bytes[self.at..self.at + n]);
        self.at += n;
        Ok(n)
    }
}
