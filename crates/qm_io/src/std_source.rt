//! The edge to std's readers.
ghost use Rattle.std.specs.Prelude.{◌≡◌, ◌<◌, ◌≤◌, length, take, IfOk, OnErr, None};
ghost use Rattle.std.specs.Io.KnownBytes.{ReadConsumes};
ghost use Rattle.qm_io.specs.Ends.{Gave, Withheld, IsSpent};
ghost use Rattle.qm_io.specs.StdEnds.{reader_of, source_view};

use crate::ends::{Failed, Source, fault};
use std::io::Read;

/// A source over a reader of std. It tells no bytes, and counts each `Err` of the reader.
#[derive(Drop)]
pub struct StdSource<R> {
    reader: R,
    faults: u64,
}

impl<R: Read> StdSource<R> {
    /// A source over this reader, with a count of 0.
    pub fn start(reader: R) -> StdSource<R>
        ensures reader { reader_of result ≡ reader }
        ensures seen { ⟦<StdSource<R> as Source>⟧.seen result
            ≡ record { left = None; faults = 0 } }
    {
        StdSource { reader, faults: 0 }
    }
}

impl<R: Read> Source for StdSource<R> {
    ghost seen = { source_view };

    /// Gives what one read of the reader gives, and fails where that read fails.
    fn read(&mut self, piece: &mut [u8]) -> Result<usize, Failed>
        requires { 0 < length piece.old }
        ensures within { IfOk result (λ n. n ≤ length piece.old) }
        ensures ok { IfOk result
            (λ n. Gave (source_view self.old) (source_view self.new) (take n piece.new)) }
        ensures end { IfOk result (λ n. n ≡ 0 → IsSpent (source_view self.old).left) }
        ensures err { OnErr result (Withheld (source_view self.old) (source_view self.new)) }
        ensures reader { ReadConsumes (R.remaining (reader_of self.old))
            (R.remaining (reader_of self.new)) result piece.new }
    {
        match self.reader.read(piece) {
            Ok(n) => Ok(n),
            Err(_) => Err(fault(&mut self.faults)),
        }
    }
}
