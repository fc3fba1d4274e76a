//! The laws of parsing, for any tokens, and that of the reserved words.

ghost use Rattle.qm_parse.specs.Laws.{OneFault, OneTree, SameWords, SomeTreeOrFault, TreeOrFault};

/// Tokens spell one source tree at most.
pub fn one_tree()
    ensures { OneTree }
{}

/// Tokens have one first fault at most, on one line.
pub fn one_fault()
    ensures { OneFault }
{}

/// Tokens that spell a source tree have no fault.
pub fn tree_or_fault()
    ensures { TreeOrFault }
{}

/// The tokens of a text spell a source tree, or have a first fault.
pub fn some_tree_or_fault()
    ensures { SomeTreeOrFault }
{}

/// The table by which words are looked up is that of the definitions.
pub fn words_law()
    ensures { SameWords }
{}
