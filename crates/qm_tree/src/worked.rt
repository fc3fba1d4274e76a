//! Trees that were worked out by hand.

ghost use Rattle.qm_tree.specs.WorkedTrees.{WorkedLetters, WorkedLists, WorkedOrders};

/// The lists of five ranks and of two are those that were worked out by hand.
fn worked_lists()
    ensures { WorkedLists }
{}

/// The letters of five ranks are those that were worked out by hand.
fn worked_letters()
    ensures { WorkedLetters }
{}

/// Orders of five ranks in which copies can come down or go back, and some in which they can't, as they were worked out by hand.
fn worked_orders()
    ensures { WorkedOrders }
{}
