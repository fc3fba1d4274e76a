//! Circuits whose amplitudes were worked out by hand.

ghost use Rattle.qm_denot.specs.WorkedCircuits.{WorkedCircuits};

/// The definitions give the amplitudes and the halvings that were worked out by hand.
#[tactic(auto, using(crate::proofs::Listed::worked_circuits))]
fn worked_circuits()
    ensures { WorkedCircuits }
{}
