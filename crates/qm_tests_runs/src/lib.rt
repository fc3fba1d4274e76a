//! Tests of the crates below, in a crate of their own, so that the gate proves each of those once.
//!
//! Programs come from texts; what a machine or a store shows is a text too, which a row of a test says as it must be.
#![tactic(auto)]

#[cfg(test)]
mod cost;
#[cfg(test)]
mod eval;
#[cfg(test)]
mod fixtures;
#[cfg(test)]
mod ideal;
#[cfg(test)]
mod machine;
#[cfg(test)]
mod ranks;
#[cfg(test)]
mod rows;
#[cfg(test)]
mod sample;
#[cfg(test)]
mod threads;
