//! The laws of the quantum messages, for every circuit: what a message's letters do is what one letter of a single machine does, up to
//! a division by root2 for each outcome that the message measures.
//!
//! In each law the wires are different, `e` and `f` are the near and the far half of an EPR pair and blank before it, and the outcomes
//! are whatever was measured.

ghost use Rattle.qm_proto.specs.Laws.{CopyLaw, MoveLaw, ReachLaw, UncopyLaw};

/// A copy of `q` onto `f`, which is flipped where the outcome is 1, is a controlled-not of `q` on `f`, up to one division by root2.
pub fn copy_law()
    ensures { CopyLaw }
{}

/// An uncopy of `f`, which equals `q` in each branch, changes `q`'s sign where the outcome is 1. It is a controlled-not of `q` on `f`
/// that leaves `f` zero and gives it up, up to one division by root2.
pub fn uncopy_law()
    ensures { UncopyLaw }
{}

/// A move of `q` to `f`, which is flipped where the first outcome is 1 and changes its sign where the second is, is a renaming, up to
/// two divisions by root2.
pub fn move_law()
    ensures { MoveLaw }
{}

/// A controlled-not of `q` on the wire `t` of another rank, by a copy of `q` that is uncopied afterwards, is a controlled-not of `q` on
/// `t`, up to two divisions by root2.
pub fn reach_law()
    ensures { ReachLaw }
{}
