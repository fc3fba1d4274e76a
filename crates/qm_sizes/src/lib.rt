//! The sizes of numbers of Z[omega], which are numbers `A + B root2`, their sums, and their order as real numbers.
#![tactic(auto)]

pub mod laws;
mod order;
mod parts;
mod sizes;
mod sums;

pub use order::{is_below_share, is_positive};
pub use sizes::size;
pub use sums::Sums;

/// The number `whole + root root2`.
#[derive(Clone, Copy, PartialEq, Eq, Debug)]
pub struct SurdParts {
    /// The whole part, A.
    pub whole: i128,
    /// How often root2 is taken, B.
    pub root: i128,
}
