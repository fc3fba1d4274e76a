//! Ends that watch how they are called.
ghost use Rattle.std.specs.Prelude.{◌≡◌, ◌<◌, None};

use qm_io::{Failed, MemSink, Sink, Source};
use std::alloc::{AllocError, Global};

/// A sink into memory that counts its calls, its flushes, and the calls that come after a flush or after a call that failed.
#[derive(Drop)]
pub(super) struct WatchedSink {
    sink: MemSink,
    pub(super) calls: u64,
    pub(super) flushes: u64,
    pub(super) late: u64,
    is_done: bool,
}

impl WatchedSink {
    /// A sink with this room, which takes at most `most` bytes a call and fails at the call `failing`; none has the number 0.
    pub(super) fn start(
        alloc: Global,
        room: usize,
        failing: u64,
        most: usize,
    ) -> Result<WatchedSink, AllocError>
        requires { 0 < most }
    {
        Ok(WatchedSink {
            sink: MemSink::start(alloc, room, [failing].to_vec(alloc)?, most)?,
            calls: 0,
            flushes: 0,
            late: 0,
            is_done: false,
        })
    }

    /// The bytes taken so far.
    pub(super) fn taken(&self) -> &[u8] {
        self.sink.taken()
    }

    /// Whether the last call, and no other, was a flush, and none failed before it.
    pub(super) fn is_flushed_once(&self) -> bool {
        self.flushes == 1 && self.late == 0
    }

    /// Counts a call.
    fn count(&mut self)
        ensures { self.new.sink ≡ self.old.sink }
    {
        self.calls = self.calls.saturating_add(1);
        if self.is_done {
            self.late = self.late.saturating_add(1);
        }
    }
}

impl Sink for WatchedSink {
    ghost seen = { λ s. ⟦<MemSink as Sink>⟧.seen s.sink };

    fn write(&mut self, piece: &[u8]) -> Result<usize, Failed> {
        self.count();
        let taken = self.sink.write(piece);
        self.is_done = self.is_done || taken.is_err();
        taken
    }

    fn flush(&mut self) -> Result<(), Failed> {
        self.count();
        self.flushes = self.flushes.saturating_add(1);
        self.is_done = true;
        self.sink.flush()
    }
}

/// A source that gives as many blanks as it is asked for, at every call, and counts its calls.
#[derive(Drop)]
pub(super) struct Blanks {
    pub(super) reads: u64,
}

impl Source for Blanks {
    ghost seen = { λ _. record { left = None; faults = 0 } };

    fn read(&mut self, piece: &mut [u8]) -> Result<usize, Failed> {
        self.reads = self.reads.saturating_add(1);
        piece.fill(b' ');
        Ok(piece.len())
    }
}
