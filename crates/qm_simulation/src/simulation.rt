//! A run beside its ideal run: what every schedule comes to for one machine that does whole instructions.

ghost use Rattle.qm_simulation.specs.Following.Complete.{CompleteLaw};
ghost use Rattle.qm_simulation.specs.Following.Owing.{FollowsLaw};
ghost use Rattle.qm_simulation.specs.Following.Simulation.{SimulationLaw};

/// Every legal schedule of programs without a fault is simulated by its ideal run, of one machine that does an instruction whole
/// when its deciding event happens. That is the Post of a copy, a move, an undo or a reach's receiver, the Deliver of a reach's
/// sender, and the first event of all else. The circuit that was done is the ideal one, then the gates and measurements of messages
/// that are begun and not decided, then the corrections still due (of a move's two, the change of sign stands first). Their
/// amplitudes are equal up to a factor of the root of two for each protocol measurement of a decided message. A rank that is in the
/// middle of no instruction has the same next instruction, bits, slots and own outcomes left in both. No qubit is in letters of two
/// messages, and where a qubit is in such a letter, no event of another message that can happen acts on it or reads it in a test.
/// So the letters of a message in progress can be moved past every later letter that is not of that message.
pub fn simulation_law()
    ensures { SimulationLaw }
{}

/// Every legal schedule of programs without a fault follows an ideal run, of one machine that steps a rank at each deciding event. The
/// circuit of the letters done equals the ideal one and then the letters that messages in progress owe, up to the outcomes of protocol
/// measurements so far. A rank that is in the middle of no instruction is the same in both machines; no wire is in letters of two
/// messages; and no event of another message touches a wire of a letter owed.
pub fn follows_law()
    ensures { FollowsLaw }
{}

/// A complete schedule of programs without a fault comes to the end of an ideal run: the run that steps a rank at each deciding
/// event leaves no rank an instruction and no load on a lane. The circuit of the letters done equals the ideal one up to the
/// protocol total, neither circuit is zero, and both machines have the same bits and the same wires in slots.
pub fn complete_law()
    ensures { CompleteLaw }
{}
