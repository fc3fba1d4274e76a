//! What a run asks for its outcomes: a draw, or the programs' own tapes.
ghost use Rattle.std.specs.Prelude.{◌≡◌, ◌<◌, ◌∷◌, [], ℕ, false, drop, replicate, slice_index_or, length, IfOk, IfErr, OnOk};
ghost use Rattle.qm_limits.specs.declared.TheConstants.{MOST_RANKS};
ghost use Rattle.qm_instr.specs.Programs.{Programs};
ghost use Rattle.qm_ideal.specs.Drawings.{Drawing, OfLetter, OfOutcome, MayAsk, MayTake, with_letter_taken, with_outcome, with_stop};

use crate::draw::{Draw, Stop};
use qm_denot::{Letter, Wire};
use qm_instr::Input;
use qm_limits::MOST_RANKS;

/// Takes the letters of a run of programs, and gives its own outcomes.
pub(crate) trait Feed {
    /// The letters that a value of the type may have taken in a run of these programs, the outcomes that it gave, and its stop.
    ghost feeds: { Self → Programs → Drawing → Type 0 };

    /// Takes the next letter.
    fn take(&mut self, letter: Letter) -> Result<(), Stop>
        requires { (p : Programs) × (d : Drawing) × feeds self.old p d × MayTake d letter }
        ensures ok { OnOk result ((p : Programs) (d : Drawing)
            → feeds self.old p d → feeds self.new p (with_letter_taken d letter)) }
        ensures err { IfErr result (λ why. (p : Programs) (d : Drawing)
            → feeds self.old p d → feeds self.new p (with_stop d why (OfLetter letter))) };

    /// Gives the outcome of a rank's measurement of a wire.
    fn give(&mut self, rank: u16, wire: Wire) -> Result<bool, Stop>
        requires { (p : Programs) × (d : Drawing)
            × feeds self.old p d × (rank < length p.ranks) × MayAsk d (wire ∷ []) }
        ensures ok { IfOk result (λ m. (p : Programs) (d : Drawing)
            → feeds self.old p d → feeds self.new p (with_outcome d rank wire m)) }
        ensures err { IfErr result (λ why. (p : Programs) (d : Drawing)
            → feeds self.old p d → feeds self.new p (with_stop d why (OfOutcome rank wire))) };
}

impl<D: Draw> Feed for D {
    ghost feeds = { λ s p d. D.draws s d };

    fn take(&mut self, letter: Letter) -> Result<(), Stop> {
        self.letter(letter)
    }

    fn give(&mut self, rank: u16, wire: Wire) -> Result<bool, Stop> {
        self.outcome(rank, wire)
    }
}

/// The outcome at a place of a tape; false past its end.
fn outcome_at(own: &[bool], place: usize) -> bool
    ensures { result ≡ slice_index_or own.now place false }
{
    match own.get(place) {
        Some(outcome) => *outcome,
        None => false,
    }
}

/// How many outcomes of a tape are used after one more, where one is left.
#[tactic(auto, using(crate::proofs::TapeLemmas::used_more, crate::proofs::TapeLemmas::used_up))]
fn used_after(own: &[bool], used: usize) -> usize
    ensures { drop result own.now ≡ drop 1 (drop used own.now) }
{
    if used < own.len() { used + 1 } else { used }
}

/// The programs' own tapes, with how many outcomes of each rank's are used.
#[derive(Drop)]
pub(crate) struct Tapes<'a> {
    input: &'a Input,
    used: [usize; MOST_RANKS as usize],
}

impl<'a> Tapes<'a> {
    /// The tapes before their first outcome.
    pub(crate) fn start(input: &'a Input) -> Tapes<'a>
        ensures input { result.input.now ≡ input.now }
        ensures used { result.used ≡ replicate MOST_RANKS 0 }
    {
        Tapes {
            input,
            used: [0; MOST_RANKS as usize],
        }
    }
}

impl<'a> Feed for Tapes<'a> {
    ghost use Rattle.qm_ideal.specs.UnderWay.{IsByTapes};

    ghost feeds = { λ s p d. IsByTapes s.input.now s.used p d };

    fn take(&mut self, _: Letter) -> Result<(), Stop> {
        Ok(())
    }

    fn give(&mut self, rank: u16, _: Wire) -> Result<bool, Stop> {
        let own = self.input.own(rank);
        let used = self.used[usize::from(rank)];
        self.used[usize::from(rank)] = used_after(own, used);
        Ok(outcome_at(own, used))
    }
}
