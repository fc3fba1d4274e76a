//! The laws of the one circuit: the order in which ranks step in an ideal run, and the width.

ghost use Rattle.qm_ideal.specs.Room.{WidthLaw};
ghost use Rattle.qm_confluence.specs.Confluence.{ConfluenceLaw};

/// In programs without a fault, two ranks that are both enabled after an ideal run may step in either order, to equal amplitudes, equal
/// halvings and otherwise equal states. Where an ideal run leaves no instruction, the run that steps the lowest enabled rank leaves
/// none either and ends alike, and each ideal run can be completed, to an end that is alike.
pub fn confluence_law()
    ensures { ConfluenceLaw }
{}

/// The width of a circuit is the least capacity of a store in which every letter finds room: they find it in just those stores whose
/// capacity is at least the width.
pub fn width_law()
    ensures { WidthLaw }
{}
