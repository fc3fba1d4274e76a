//! The two ends of a program: where its bytes come from, and where they go.
ghost use Rattle.std.specs.Prelude.{◌≡◌, ◌<◌, ◌≤◌, [], length, take, IfOk, OnErr};
ghost use Rattle.qm_io.specs.Ends.{one_more, Rose, SinkView, SourceView, Took, Broke, Puts, Gave, Withheld, IsSpent};

/// An end failed in this call. Its count of faults rose.
#[derive(Clone, Copy, Debug, PartialEq, Eq)]
pub struct Failed;

/// Where bytes come from. It counts its faults, and may tell the bytes that it has left.
pub trait Source {
    // The bytes left, where it tells them, and the count of its faults, which never falls.
    ghost seen: { Self → SourceView };

    /// Fills a front of the piece with the bytes that come next, and returns how many.
    /// `Ok(0)` is the end of input, and comes only where no byte is left.
    /// `Failed` takes no byte, and comes only where the count rose.
    fn read(&mut self, piece: &mut [u8]) -> Result<usize, Failed>
        requires { 0 < length piece.old }
        ensures within { IfOk result (λ n. n ≤ length piece.old) }
        ensures ok { IfOk result (λ n. Gave (seen self.old) (seen self.new) (take n piece.new)) }
        ensures end { IfOk result (λ n. n ≡ 0 → IsSpent (seen self.old).left) }
        ensures err { OnErr result (Withheld (seen self.old) (seen self.new)) };
}

/// Where bytes go to. It counts its faults, and may tell the bytes that it took.
pub trait Sink {
    // The bytes taken, where it tells them, and the count of its faults, which never falls.
    ghost seen: { Self → SinkView };

    /// Takes a front of the piece, at least one byte, and returns how many.
    /// `Failed` takes no byte, and comes only where the count rose.
    fn write(&mut self, piece: &[u8]) -> Result<usize, Failed>
        requires { 0 < length piece.now }
        ensures some { IfOk result (λ n. 0 < n) }
        ensures within { IfOk result (λ n. n ≤ length piece.now) }
        ensures ok { IfOk result (λ n. Took (seen self.old) (seen self.new) (take n piece.now)) }
        ensures err { OnErr result (Broke (seen self.old) (seen self.new) []) };

    /// Passes on what was taken, and takes nothing. `Failed` comes only where the count rose.
    fn flush(&mut self) -> Result<(), Failed>
        ensures { Puts (seen self.old) (seen self.new) [] result };
}

/// Counts a fault.
pub(crate) fn fault(count: &mut u64) -> Failed
    ensures raised { count.new ≡ one_more count.old }
    ensures grows { count.old ≤ count.new }
    ensures rose { Rose count.old count.new }
{
    *count = count.saturating_add(1);
    Failed
}
