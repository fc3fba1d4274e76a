//! Source trees of program texts.
#![tactic(auto)]

mod errors;
mod goals;
mod laws;
mod looks;
mod reading;
mod stack;
mod table;
mod tree;
mod words;

pub use errors::ParseError;
pub use laws::{one_fault, one_tree, tree_or_fault, words_law};
pub use reading::parse;
pub use tree::{Node, Tree, What};
pub use words::{Action, Keyword, Mark, Operand, Reserved, Verb, Version, reserved_of};
