//! What a schedule has begun, has still to correct and has settled, along schedules that were worked out by hand.

ghost use Rattle.qm_simulation.specs.WorkedProgress.{WorkedProgress};

/// A copy, a move, an undo and a reach, each after every one of its events and by outcomes that differ.
pub fn worked_progress()
    ensures { WorkedProgress }
{}
