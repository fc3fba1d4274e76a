//! The edge to std's writers.
ghost use Rattle.std.specs.Prelude.{◌≡◌, ◌<◌, ◌≤◌, [], length, take, IfOk, OnErr, None};
ghost use Rattle.std.specs.Io.KnownBytes.{Keeps, WriteAppends};
ghost use Rattle.qm_io.specs.Ends.{Took, Broke, Puts};
ghost use Rattle.qm_io.specs.StdEnds.{writer_of, sink_view};

use crate::ends::{Failed, Sink, fault};
use std::io::Write;

/// A sink over a writer of std. It tells no bytes.
/// It counts each `Err` of the writer and each write of 0 bytes.
#[derive(Drop)]
pub struct StdSink<W> {
    writer: W,
    faults: u64,
}

impl<W: Write> StdSink<W> {
    /// A sink over this writer, with a count of 0.
    pub fn start(writer: W) -> StdSink<W>
        ensures writer { writer_of result ≡ writer }
        ensures seen { ⟦<StdSink<W> as Sink>⟧.seen result
            ≡ record { taken = None; faults = 0 } }
    {
        StdSink { writer, faults: 0 }
    }
}

impl<W: Write> Sink for StdSink<W> {
    ghost seen = { sink_view };

    /// Takes what one write of the writer takes, and fails where that write fails or takes no byte.
    fn write(&mut self, piece: &[u8]) -> Result<usize, Failed>
        requires { 0 < length piece.now }
        ensures some { IfOk result (λ n. 0 < n) }
        ensures within { IfOk result (λ n. n ≤ length piece.now) }
        ensures ok { IfOk result
            (λ n. Took (sink_view self.old) (sink_view self.new) (take n piece.now)) }
        ensures err { OnErr result (Broke (sink_view self.old) (sink_view self.new) []) }
        ensures writer { WriteAppends (W.contents (writer_of self.old))
            (W.contents (writer_of self.new)) result piece.now }
    {
        match self.writer.write(piece) {
            Ok(n) if n > 0 => Ok(n),
            _ => Err(fault(&mut self.faults)),
        }
    }

    /// Flushes the writer, and fails where that fails.
    fn flush(&mut self) -> Result<(), Failed>
        ensures puts { Puts (sink_view self.old) (sink_view self.new) [] result }
        ensures writer { Keeps (W.contents (writer_of self.old)) (W.contents (writer_of self.new)) }
    {
        match self.writer.flush() {
            Ok(()) => Ok(()),
            Err(_) => Err(fault(&mut self.faults)),
        }
    }
}
