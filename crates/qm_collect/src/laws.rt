//! The laws of the collectives, for every circuit, any number of ranks, and any slots that they name.
//!
//! In each law the wires of operands, target and copies are different. The letters are those of the instructions in the table, each
//! message's on one machine that has the wires of all ranks.

ghost use Rattle.qm_collect.specs.Laws.{BcastLaw, ReduceLaw, ScatterLaw, UnbcastLaw, UnreduceLaw};

/// A broadcast onto copies that are blank gives the amplitudes in which all copies agree with the root's qubit.
pub fn bcast_law()
    ensures { BcastLaw }
{}

/// A broadcast that is undone leaves the amplitudes as they were.
pub fn unbcast_law()
    ensures { UnbcastLaw }
{}

/// A reduce toggles the target exactly where an odd number of the operand qubits is one.
pub fn reduce_law()
    ensures { ReduceLaw }
{}

/// A reduce that is undone leaves the amplitudes as they were.
pub fn unreduce_law()
    ensures { UnreduceLaw }
{}

/// A scatter and a gather, and what undoes them, are renamings.
pub fn scatter_law()
    ensures { ScatterLaw }
{}
