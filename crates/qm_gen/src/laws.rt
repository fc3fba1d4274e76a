//! The law of made programs, for every kind, size and number.

ghost use Rattle.qm_gen.specs.Laws.{MadeReady};

/// A made text is read without a fault, and its programs have none that a check finds, in their slots, messages, lanes or tapes.
pub fn made_law()
    ensures { MadeReady }
{}
