//! A tree in the ideal machine: the letters of which its laws speak are those of the machine's steps.
#![tactic(auto)]

ghost use Rattle.qm_tree_steps.specs.Steps.{TreeLetterLaw};

/// The letters of each message of a tree are those of the ideal machine's step that makes it: of a copy, the step of the parent; of a copy
/// that goes back, the step of the rank that gives it up, while its parent stands at the other end.
pub fn tree_letter_law()
    ensures { TreeLetterLaw }
{}
