//! The collectives in the ideal machine.
ghost use Rattle.qm_confluence.specs.CollectiveLetters.{LetterLaw};

/// The letters of which the laws of the collectives speak are those of the ideal machine's steps: of a message, at its two ends while
/// both ranks stand there; of the root's controlled-not, at its step.
pub fn letter_law()
    ensures { LetterLaw }
{}
