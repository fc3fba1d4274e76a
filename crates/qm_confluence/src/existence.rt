//! Runs that end: those that always step the lowest rank that may go on, of which programs have one each, and all where nothing stops
//! them.

ghost use Rattle.qm_confluence.specs.Endings.Completing.{CompletingLaw};
ghost use Rattle.qm_confluence.specs.Endings.FirstRuns.{FirstLaw};
ghost use Rattle.qm_confluence.specs.Endings.IdealRuns.{OneRunLaw};

/// Programs have one schedule that always takes the lowest enabled rank. It is legal, and it ends where no rank has an event left, where
/// that rank is refused, or where the state is stuck.
pub fn first_law()
    ensures { FirstLaw }
{}

/// Programs have one ideal run that steps the lowest enabled rank until none is enabled. So they have one circuit, or this run leaves
/// some rank an instruction.
pub fn one_run_law()
    ensures { OneRunLaw }
{}

/// Where no legal schedule of programs comes to a refused event, and none to a stuck state or the rendezvous run ends, every legal
/// schedule after which no rank may step is complete.
pub fn completing_law()
    ensures { CompletingLaw }
{}
