//! What is so in every state of every legal schedule of programs without a fault: each event finds what it needs, changes wires of its
//! own rank alone, and no rank has more halves than its buffer has room for.

ghost use Rattle.qm_safety.specs.Safety.Halves.{HalvesLaw};
ghost use Rattle.qm_safety.specs.Safety.Operands.{OperandsLaw};
ghost use Rattle.qm_safety.specs.Safety.Wires.{OwnWiresLaw, PlacesLaw};

/// Each operand slot is full or empty as its instruction needs, and each rank that an instruction names is there. Each act of an enabled
/// event finds what it takes: the outcomes on the tapes, the bits of a parcel, the halves, and a place on the lane for what it posts.
pub fn operands_law()
    ensures { OperandsLaw }
{}

/// Each letter of an enabled event names wires in slots or halves of the rank alone. Only `Pair` names others: it makes the rank's two
/// new halves, the near one for the rank itself, and the far one for the rank that its instruction names.
pub fn own_wires_law()
    ensures { OwnWiresLaw }
{}

/// A wire is in one slot or is one rank's near or far half, and a wire that is in no place is blank in the circuit.
pub fn places_law()
    ensures { PlacesLaw }
{}

/// A rank has no more halves than its buffer has room for. It has so many far halves only where it may take one now, from a lane that
/// isn't empty, or has taken one in a `reachfrom`. It has one near half at most, from the pair of a `copyto`, a `moveto` or a `reachto`
/// up to the event that measures it.
pub fn halves_law()
    ensures { HalvesLaw }
{}
