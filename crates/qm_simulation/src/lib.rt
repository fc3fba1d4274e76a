//! Every schedule beside its ideal run, up to the one circuit to which all complete schedules come, and the weights of their circuits.
//! A theorem is the contract of a function without argument or answer.
#![tactic(auto)]

pub mod one_circuit;
pub mod outcomes;
pub mod progress;
pub mod simulation;
pub mod weights;
