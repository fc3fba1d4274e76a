//! Own outcomes that were drawn in place of those of the programs' tapes.

ghost use Rattle.qm_confluence.specs.Outcomes.{OutcomesLaw};

/// Programs with other own tapes step the same ranks in the ideal run that always steps the lowest enabled one, and come as far: no
/// outcome changes whether the run ends early, or which ranks have instructions left.
pub fn outcomes_law()
    ensures { OutcomesLaw }
{}
