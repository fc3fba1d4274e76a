//! Who gives the own outcomes of a run, and takes its letters.
ghost use Rattle.std.specs.Prelude.{[], ◌∷◌, IfOk, IfErr, OnOk};
ghost use Rattle.qm_ideal.specs.Drawings.{Drawing, OfLetter, OfOutcome, MayAsk, MayTake, with_letter_taken, with_outcome, with_stop};

use qm_denot::{Letter, Wire};

/// Why a run whose outcomes are drawn doesn't go on.
#[derive(Clone, Copy, PartialEq, Eq, Debug)]
pub enum Stop {
    /// A letter names more new wires than there is room for.
    Wide,
    /// A component of an amplitude leaves the range of the numbers.
    Overflow,
    /// The sizes of the amplitudes at a measurement are too large to be compared.
    Heavy,
    /// A letter leaves all amplitudes zero.
    Vanished,
}

/// Takes the letters of a run one after another, and gives its own outcomes.
pub trait Draw {
    /// The letters that a value of the type may have taken, with the outcomes that it gave and the stop that it answered.
    ghost draws: { Self → Drawing → Type 0 };

    /// Takes the next letter. A stop that is answered is kept, and nothing else changes then.
    fn letter(&mut self, letter: Letter) -> Result<(), Stop>
        requires { (d : Drawing) × draws self.old d × MayTake d letter }
        ensures ok { OnOk result
            ((d : Drawing) → draws self.old d → draws self.new (with_letter_taken d letter)) }
        ensures err { IfErr result (λ why. (d : Drawing)
            → draws self.old d → draws self.new (with_stop d why (OfLetter letter))) };

    /// Gives the outcome of a rank's measurement of a wire. A stop that is answered is kept, and nothing else changes then.
    fn outcome(&mut self, rank: u16, wire: Wire) -> Result<bool, Stop>
        requires { (d : Drawing) × draws self.old d × MayAsk d (wire ∷ []) }
        ensures ok { IfOk result (λ m. (d : Drawing)
            → draws self.old d → draws self.new (with_outcome d rank wire m)) }
        ensures err { IfErr result (λ why. (d : Drawing)
            → draws self.old d → draws self.new (with_stop d why (OfOutcome rank wire))) };
}
