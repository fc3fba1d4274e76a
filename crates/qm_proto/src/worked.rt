//! Messages and a run that were worked out by hand.

ghost use Rattle.qm_proto.specs.WorkedGates.{WorkedBits, WorkedGates};
ghost use Rattle.qm_proto.specs.WorkedMessages.{WorkedMessages};
ghost use Rattle.qm_proto.specs.WorkedRun.{EventsAgree, WorkedIdeal, WorkedRun};
ghost use Rattle.qm_proto.specs.WorkedTurns.{WorkedTurns};
ghost use Rattle.qm_proto.specs.WorkedWaits.{WorkedRefusals, WorkedWaits};

/// Both sides of each law have the amplitudes that were worked out by hand, and a move with its corrections exchanged has others.
fn worked_messages()
    ensures { WorkedMessages }
{}

/// The model gives the runs that were worked out by hand: their letters, where they wait, and what they leave.
fn worked_run()
    ensures { WorkedRun }
{}

/// The ideal machine gives the one circuits of the same programs, as they were worked out by hand.
fn worked_ideal()
    ensures { WorkedIdeal }
{}

/// Each gate does the letter that was worked out by hand, in both machines, and under `when` only where the bit is one.
fn worked_gates()
    ensures { WorkedGates }
{}

/// Bits begin, are set, sent and measured as it was worked out by hand, in both machines.
fn worked_bits()
    ensures { WorkedBits }
{}

/// Words choose the ranks that were worked out by hand.
fn worked_turns()
    ensures { WorkedTurns }
{}

/// Ranks wait, hold halves and get stuck where it was worked out by hand.
fn worked_waits()
    ensures { WorkedWaits }
{}

/// Events are refused where it was worked out by hand, each for its cause.
fn worked_refusals()
    ensures { WorkedRefusals }
{}

/// The model's table has the events that `next_event` tells.
fn events_agree()
    ensures { EventsAgree }
{}
