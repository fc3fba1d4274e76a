//! Tests of the crates below, in a crate of their own, so that the gate proves each of those once.
#![tactic(auto)]

#[cfg(test)]
mod expand;
#[cfg(test)]
mod gen_;
#[cfg(test)]
mod lex;
#[cfg(test)]
mod parse;
#[cfg(test)]
mod print;
