//! The law of the letter at which a circuit leaves the range.
ghost use Rattle.qm_eval.specs.Laws.{FirstOverflowLaw};

/// The first letter at which a circuit leaves the range is one, and there is none where no letter does so.
pub fn first_overflow_law()
    ensures { FirstOverflowLaw }
{}
