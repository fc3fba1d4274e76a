//! Outcomes of measurements that are drawn: what each word of a seed gives, by the share of one among the sizes of a store's numbers.
#![tactic(auto)]

mod shares;

pub use shares::outcome_of;
