//! Tests of the crates below, in a crate of their own, so that the gate proves each of those once.
#![tactic(auto)]

#[cfg(test)]
mod bits;
#[cfg(test)]
mod buffers;
#[cfg(test)]
mod check;
#[cfg(test)]
mod collect;
#[cfg(test)]
mod denot;
#[cfg(test)]
mod instr;
#[cfg(test)]
mod io;
#[cfg(test)]
mod kernels;
#[cfg(test)]
mod limits;
#[cfg(test)]
mod mail;
#[cfg(test)]
mod owner;
#[cfg(test)]
mod proto;
#[cfg(test)]
mod scale;
#[cfg(test)]
mod seed;
#[cfg(test)]
mod sizes;
#[cfg(test)]
mod store;
#[cfg(test)]
mod stores;
#[cfg(test)]
mod tables;
#[cfg(test)]
mod tape;
#[cfg(test)]
mod tree;
#[cfg(test)]
mod zomega;
