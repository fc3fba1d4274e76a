//! The order in which the ranks of an ideal run step doesn't matter.

ghost use Rattle.qm_confluence.specs.Confluence.{ConfluenceLaw, IdealWeightLaw};
ghost use Rattle.qm_confluence.specs.WorkedOrders.{WorkedOrders};

/// In programs without a fault, two ranks that are both enabled after an ideal run may step in either order, to equal amplitudes, equal
/// halvings and otherwise equal states. Where an ideal run leaves no instruction, the run that steps the lowest enabled rank leaves
/// none either and ends alike, and each ideal run can be completed, to an end that is alike.
pub fn confluence_law()
    ensures { ConfluenceLaw }
{}

/// In an ideal run of programs without a fault no letter has an operand twice, and the weight of the circuit is at most 2 to the number
/// of its halvings.
pub fn ideal_weight_law()
    ensures { IdealWeightLaw }
{}

/// The two orders of copies that cross are what was worked out by hand, and a copy is given up in one order alone.
fn worked_orders()
    ensures { WorkedOrders }
{}
