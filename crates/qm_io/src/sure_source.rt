//! A source in memory that never fails.
ghost use Rattle.std.specs.Prelude.{◌≡◌, ◌<◌, ◌≤◌, length, take, min, IfOk, OnErr, IsOk, Some};
ghost use Rattle.qm_io.specs.Ends.{Gave, IsSpent};
ghost use Rattle.qm_io.specs.SureSource.{view_of, next_count};

use crate::ends::{Failed, Source};
use std::marker::Model;

/// A source over bytes in memory, which gives at most `most` bytes in a call and never fails.
#[derive(Drop)]
pub struct SureSource {
    bytes: Vec<u8>,
    at: usize,
    most: usize,
}

impl Model for SureSource {
    ghost use Rattle.std.specs.Prelude.{◌<◌, ◌≤◌, drop, vec_len};
    ghost use Rattle.qm_io.specs.SureSource.{SureSourceState};

    ghost Value = { SureSourceState };

    ghost view = { λ s. record { left = drop s.at s.bytes.items; most = s.most } };

    ghost invariant = { λ s. (s.at ≤ vec_len s.bytes) × (0 < s.most) };
}

impl SureSource {
    /// A source that has these bytes left. `most` is at least 1.
    pub fn start(bytes: Vec<u8>, most: usize) -> SureSource
        requires { 0 < most }
        ensures seen { ⟦<SureSource as Source>⟧.seen result
            ≡ record { left = Some bytes.items; faults = 0 } }
        ensures state { result ≡ record { left = bytes.items; most = most } }
    {
        SureSource { bytes, at: 0, most }
    }
}

impl Source for SureSource {
    ghost seen = { view_of };

    /// Gives as many bytes as the piece, `most` and what is left allow.
    fn read(&mut self, piece: &mut [u8]) -> Result<usize, Failed>
        requires { 0 < length piece.old }
        ensures ok { IfOk result
            (λ n. Gave (view_of self.old) (view_of self.new) (take n piece.new)) }
        ensures end { IfOk result (λ n. n ≡ 0 → IsSpent (view_of self.old).left) }
        ensures sure { IsOk result }
        ensures count { IfOk result (λ n. n ≡ next_count self.old (length piece.old)) }
        ensures most { self.new.most ≡ self.old.most }
    {
        let left = self.bytes.len() - self.at;
        let n = piece.len().min(self.most).min(left);
        piece[..n].copy_from_slice(&self.bytes[self.at..self.at + n]);
        self.at += n;
        Ok(n)
    }
}
