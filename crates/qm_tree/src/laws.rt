//! The laws of broadcast along a tree, for every circuit, any number of ranks, and any slots that they name.
//!
//! In each law of letters the root's wire and the copies are different. The letters are those of the instructions in the table, each
//! message's on one machine that has the wires of all ranks.

ghost use Rattle.qm_tree.specs.Laws.{DepthLaw, TreecastLaw, UntreecastLaw};

/// A broadcast onto copies that are blank gives the amplitudes in which all copies agree with the root's qubit: those of one that the root
/// does alone. It is so in every order in which each rank gets its copy before its children do.
pub fn treecast_law()
    ensures { TreecastLaw }
{}

/// A broadcast that is undone leaves the amplitudes as they were. It is so in every order in which each rank gives its copy up after its
/// children did.
pub fn untreecast_law()
    ensures { UntreecastLaw }
{}

/// A place that is `d` copies from the root is `2^d - 1` or more, and less than `2^(d + 1) - 1`.
pub fn depth_law()
    ensures { DepthLaw }
{}
