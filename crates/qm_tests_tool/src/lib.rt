//! Tests of the crates below, in a crate of their own, so that the gate proves each of those once.
#![tactic(auto)]

#[cfg(test)]
mod tool;
