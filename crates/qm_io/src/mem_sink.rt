//! A sink into memory that fails where it is told to.
ghost use Rattle.std.specs.Prelude.{◌≡◌, ◌<◌, ◌≤◌, ◌↔◌, ◌⊎◌, [], length, take, IfOk, OnOk, OnErr, IsErr, Some};
ghost use Rattle.qm_io.specs.Ends.{Broke, Puts};
ghost use Rattle.qm_io.specs.MemSink.{unused, view_of, FailsNext, IsFull, next_count, HasTaken, HasFailed};

use crate::ends::{Failed, Sink, fault};
use std::alloc::{AllocError, Global};
use std::marker::Model;

/// A sink into memory, with a room for bytes and a list of calls that fail.
/// The calls of `write` and `flush` are numbered together, from 1.
#[derive(Drop)]
pub struct MemSink {
    taken: Vec<u8>,
    room: usize,
    most: usize,
    fails: Vec<u64>,
    calls: u64,
    faults: u64,
}

impl Model for MemSink {
    ghost use Rattle.std.specs.Prelude.{◌<◌, ◌≤◌, vec_len};
    ghost use Rattle.std.specs.Vec.{vec_capacity};
    ghost use Rattle.qm_io.specs.MemSink.{MemSinkState, IsSound};

    ghost Value = { MemSinkState };

    ghost view = { λ s. record {
      taken = s.taken.items;
      room = s.room;
      most = s.most;
      fails = s.fails.items;
      calls = s.calls;
      faults = s.faults;
    } };

    ghost invariant = { λ s. IsSound (vec_len s.taken) (vec_capacity s.taken) s.room s.most };
}

impl MemSink {
    /// A sink with nothing taken, which has room for `room` bytes and takes at most `most` in a call.
    /// It fails at the calls that `fails` lists, and at each `write` where its room is used up.
    /// `most` is at least 1. `AllocError` comes from the allocator alone.
    pub fn start(
        alloc: Global,
        room: usize,
        fails: Vec<u64>,
        most: usize,
    ) -> Result<MemSink, AllocError>
        requires { 0 < most }
        ensures seen { IfOk result
            (λ s. ⟦<MemSink as Sink>⟧.seen s ≡ record { taken = Some []; faults = 0 }) }
        ensures state { IfOk result (λ s. s ≡ unused room fails.items most) }
    {
        Ok(MemSink {
            taken: Vec::with_capacity(alloc, room)?,
            room,
            most,
            fails,
            calls: 0,
            faults: 0,
        })
    }

    /// The bytes taken so far.
    pub fn taken(&self) -> &[u8]
        ensures { result.now ≡ self.now.taken }
    {
        self.taken.as_slice()
    }
}

impl Sink for MemSink {
    ghost seen = { view_of };

    /// Takes as many bytes as the piece, `most` and the room allow.
    /// Fails at a listed call, and where the room is used up.
    fn write(&mut self, piece: &[u8]) -> Result<usize, Failed>
        requires { 0 < length piece.now }
        ensures some { IfOk result (λ n. 0 < n) }
        ensures err { OnErr result (Broke (view_of self.old) (view_of self.new) []) }
        ensures fails { IsErr result ↔ (FailsNext self.old ⊎ IsFull self.old) }
        ensures count { IfOk result (λ n. n ≡ next_count self.old (length piece.now)) }
        ensures taken { IfOk result (λ n. HasTaken self.old self.new (take n piece.now)) }
        ensures failed { OnErr result (HasFailed self.old self.new) }
    {
        self.calls = self.calls.saturating_add(1);
        let room = self.room - self.taken.len();
        if room == 0 || self.fails.contains(&self.calls) {
            return Err(fault(&mut self.faults));
        }
        let n = piece.len().min(self.most).min(room);
        self.taken.extend_from_slice(&piece[..n]).unwrap();
        Ok(n)
    }

    /// Fails at a listed call alone.
    fn flush(&mut self) -> Result<(), Failed>
        ensures puts { Puts (view_of self.old) (view_of self.new) [] result }
        ensures fails { IsErr result ↔ FailsNext self.old }
        ensures taken { OnOk result (HasTaken self.old self.new []) }
        ensures failed { OnErr result (HasFailed self.old self.new) }
    {
        self.calls = self.calls.saturating_add(1);
        if self.fails.contains(&self.calls) {
            return Err(fault(&mut self.faults));
        }
        Ok(())
    }
}
