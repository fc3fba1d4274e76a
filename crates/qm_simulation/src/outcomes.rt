//! Own outcomes that the one circuit can have.

ghost use Rattle.qm_simulation.specs.Outcomes.{PossibleLaw, TapesLaw};

/// Where the ideal run that steps the lowest enabled rank leaves no instruction, and a circuit that isn't zero, no enabled event of any
/// legal schedule is refused as impossible.
pub fn possible_law()
    ensures { PossibleLaw }
{}

/// Programs with other own tapes of the same lengths have no fault either. Where their one circuit is there and isn't zero, no enabled
/// event of any of their legal schedules is refused as impossible.
pub fn tapes_law()
    ensures { TapesLaw }
{}
