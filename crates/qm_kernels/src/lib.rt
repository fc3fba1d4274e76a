//! Letters in place, on lists of numerators with an entry for each choice of their places: place p of an index is its bit of value `2^p`.
//!
//! The loops stand in the modules `moves`, `sizes` and `numbers`, for entries of any type, or for any numbers of Z[omega]. The functions
//! of the root are these for `Zw`. Each loop goes over blocks of its highest place, whose two halves differ in that place alone.
#![tactic(auto)]

mod blocks;
pub mod bounded;
mod exact;
pub mod halving;
pub mod moves;
pub mod narrow;
mod number_steps;
pub mod numbers;
pub mod sizes;
pub mod slim;
mod small;
mod steps;
mod wide;

pub use exact::{
    cross, fits, flip, gather, had, had_fits, hadamard, keep, pair_up, phase, sign, squeeze,
};
