//! A sink that keeps nothing.
ghost use Rattle.std.specs.Prelude.{◌≡◌, ◌<◌, [], length, take, IfOk, IsOk, None};
ghost use Rattle.qm_io.specs.Ends.{Took, Puts};
ghost use Rattle.qm_io.specs.Drain.{drained};

use crate::ends::{Failed, Sink};

/// A sink that takes all, keeps nothing and never fails. It tells no bytes.
#[derive(Clone, Copy, Debug)]
pub struct Drain;

impl Sink for Drain {
    ghost seen = { λ _. drained };

    /// Takes the whole piece.
    fn write(&mut self, piece: &[u8]) -> Result<usize, Failed>
        requires { 0 < length piece.now }
        ensures some { IfOk result (λ n. 0 < n) }
        ensures ok { IfOk result (λ n. Took drained drained (take n piece.now)) }
        ensures sure { IsOk result }
        ensures whole { IfOk result (λ n. n ≡ length piece.now) }
    {
        Ok(piece.len())
    }

    /// Does nothing.
    fn flush(&mut self) -> Result<(), Failed>
        ensures puts { Puts drained drained [] result }
        ensures sure { IsOk result }
    {
        Ok(())
    }
}
