//! Broadcast along a tree: the instructions of each rank, how deep a rank stands, and what the copies do to a circuit.
#![tactic(auto)]

pub mod laws;
mod table;
mod tree;
mod worked;

pub use table::{count, instr_at};
pub use tree::depth;

/// What is done along a tree.
#[derive(Clone, Copy, PartialEq, Eq, Debug)]
pub enum TreeOp {
    /// Each rank gets an entangled copy of the root's qubit: it takes it from its parent, and hands it on to its children.
    Cast,
    /// The copies go back: each rank takes those of its children, and gives its own up to its parent.
    Uncast,
}

/// A collective along a tree, as one rank writes it.
///
/// `q` is a slot of the rank, `root` is the rank at the root of the tree, and `tag` is that of the messages.
#[derive(Clone, Copy, PartialEq, Eq, Debug)]
pub struct TreeCall {
    pub op: TreeOp,
    pub q: u8,
    pub root: u16,
    pub tag: u16,
}
