//! The order in which the ranks step doesn't matter: theorems on how ideal runs end, which runs there are, and which get stuck. A
//! theorem is the contract of a function without argument or answer.
#![tactic(auto)]

pub mod collectives;
pub mod existence;
pub mod letters;
pub mod meeting;
pub mod orders;
pub mod outcomes;
