//! What is so in every state of every legal schedule: theorems on the model of a run, for every program and whatever the code does.
//! A theorem is the contract of a function without argument or answer.
#![tactic(auto)]

pub mod states;
