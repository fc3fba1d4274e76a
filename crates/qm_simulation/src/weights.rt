//! The weight of the circuit of a legal schedule: the sum of N over its amplitudes.

ghost use Rattle.qm_simulation.specs.Weighing.Exponents.{ExponentLaw};
ghost use Rattle.qm_simulation.specs.Weighing.Weights.{WeightLaw};

/// The circuit of a legal schedule of programs without a fault is not zero. Its weight times 2 for each outcome taken from a protocol
/// tape is at most 2 for each `Had` and each `Pair`. Each event that takes such an outcome measures a wire away, and whichever outcome
/// it is, half of the weight stays: so no such outcome is ever impossible.
pub fn weight_law()
    ensures { WeightLaw }
{}

/// After a legal schedule whose circuit has a reduced form with an exponent of at most 252 more than the number of outcomes taken from
/// protocol tapes, no Hadamard gate leaves the range, and no event is refused for it.
pub fn exponent_law()
    ensures { ExponentLaw }
{}
