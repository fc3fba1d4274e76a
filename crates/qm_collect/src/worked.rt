//! Collectives that were worked out by hand.

ghost use Rattle.qm_collect.specs.WorkedCollectives.{WorkedCollectives};

/// The letters of each collective of three ranks are those that were worked out by hand.
fn worked_collectives()
    ensures { WorkedCollectives }
{}
