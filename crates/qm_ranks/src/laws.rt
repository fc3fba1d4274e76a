//! The laws of the orders of turns, for all programs and every state of a run.
ghost use Rattle.qm_ranks.specs.Laws.{LegalOrder, LowestOrder, OneOrder, SomeOrder};

/// From each state, the words of the turns determine the entries of the run that follows them to its end.
pub fn one_order_law()
    ensures { OneOrder }
{}

/// The run whose words are all 0 is the one that always takes the lowest enabled rank.
pub fn lowest_order_law()
    ensures { LowestOrder }
{}

/// What a run appends to a legal schedule makes a legal schedule, at whose end no rank is enabled, or the rank whose turn it is is
/// refused.
pub fn legal_order_law()
    ensures { LegalOrder }
{}

/// From the end of each legal schedule, and for all words of the turns, there is a run that follows them to its end. So programs have a
/// schedule that always takes the lowest enabled rank, and one for each seed.
pub fn some_order_law()
    ensures { SomeOrder }
{}
