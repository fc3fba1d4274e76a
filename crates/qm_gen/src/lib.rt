//! Made programs: texts of three kinds, in any size, with tapes that a seed's words give.
#![tactic(auto)]

mod bodies;
mod laws;
mod lines;
mod program;
mod tapes;

ghost use Rattle.std.specs.Prelude.{◌≡◌, IfOk};
ghost use Rattle.qm_seed.specs.Seeds.{seed_words};
ghost use Rattle.qm_gen.specs.Sizes.{IsSize};
ghost use Rattle.qm_gen.specs.Made.{made_text};
ghost use Rattle.qm_gen.specs.Laws.{IsReadyText};

pub use laws::made_law;
use qm_seed::SeedWords;
use std::alloc::{AllocError, Global};

/// The least size of a ring.
pub const LEAST_RING: u32 = 1;
/// The largest size of a ring.
pub const MOST_RING: u32 = 10_000;
/// The least size of a GHZ state: how many ranks share it.
pub const LEAST_GHZ: u32 = 2;
/// The largest size of a GHZ state.
pub const MOST_GHZ: u32 = 10;
/// The least size of a parity.
pub const LEAST_PARITY: u32 = 1;
/// The largest size of a parity.
pub const MOST_PARITY: u32 = 9_000;

/// The kinds of made programs.
#[derive(Clone, Copy, PartialEq, Eq, Debug)]
pub enum GenKind {
    /// A qubit goes round four ranks; the size is the number of rounds.
    Ring,
    /// A GHZ state of one qubit at each rank, copied down a tree; the size is the number of ranks.
    Ghz,
    /// Rank 0 measures the parity of the qubits of three ranks; the size is the number of rounds.
    Parity,
}

impl GenKind {
    ghost use Rattle.std.specs.Prelude.{◌↔◌, IsTrue};
    ghost use Rattle.qm_gen.specs.Sizes.{IsSize};

    /// Whether programs of this kind have this size: a ring [`LEAST_RING`] to [`MOST_RING`], a GHZ state [`LEAST_GHZ`] to [`MOST_GHZ`],
    /// a parity [`LEAST_PARITY`] to [`MOST_PARITY`].
    pub fn has_size(self, size: u32) -> bool
        ensures { IsTrue result ↔ IsSize self size }
    {
        match self {
            GenKind::Ring => LEAST_RING <= size && size <= MOST_RING,
            GenKind::Ghz => LEAST_GHZ <= size && size <= MOST_GHZ,
            GenKind::Parity => LEAST_PARITY <= size && size <= MOST_PARITY,
        }
    }
}

/// The text of the made program of this kind and size, whose tapes have the lowest bits of the words that the number gives as a seed,
/// drawn in the order in which they stand in the text. It is read without a fault, and its programs are ready. `AllocError` comes from
/// the allocator alone.
///
/// A ring's size is [`LEAST_RING`] to [`MOST_RING`], a GHZ state's [`LEAST_GHZ`] to [`MOST_GHZ`], a parity's [`LEAST_PARITY`] to
/// [`MOST_PARITY`].
pub fn make(alloc: Global, kind: GenKind, size: u32, number: u64) -> Result<Vec<u8>, AllocError>
    requires { IsSize kind size }
    ensures text { IfOk result (λ text. text.items ≡ made_text kind size (seed_words number)) }
    ensures ready { IfOk result (λ text. IsReadyText text.items) }
{
    let mut text = Vec::new(alloc);
    let mut words = SeedWords::start(number);
    program::push_program(&mut text, kind, size)?;
    tapes::push_tapes(&mut text, kind, size, true, &mut words)?;
    tapes::push_tapes(&mut text, kind, size, false, &mut words)?;
    Ok(text)
}
