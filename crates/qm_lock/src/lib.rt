//! A desk: the holders of passes take one value in turns, and each turn adds one entry to the value's list, or none.
//!
//! It is a ticket lock over a table of three words and one slot. The words count, modulo 2^64, the tickets that were drawn, the turns
//! that were ended, and the entries of the list. The slot has the value while nobody has it. Eight kinds of step change the table, each
//! in one go; `specs/Rule` says what holds between any two of them, and `specs/Steps` what each kind does.
#![tactic(auto)]

mod desk;
mod seats;
mod steps;
mod turned;
mod views;

pub use desk::{Desk, Held, Pass};
pub use turned::Turned;
pub use views::MOST_SEATS;
