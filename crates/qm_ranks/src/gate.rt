//! What a worker passes before each of its turns.

/// A place that each worker passes before each of its turns. Nothing is learnt from it: a test counts turns there, or lets one rank wait
/// for another.
pub trait Turnstile {
    /// Comes before each turn of this rank's worker.
    fn before(&self, rank: u32);
}

/// A gate that does nothing.
pub struct NoGate;

impl Turnstile for NoGate {
    fn before(&self, _rank: u32) {}
}
