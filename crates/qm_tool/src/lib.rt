//! The top calls: the words of a command and a source in, a status and the bytes of a sink out.
#![tactic(auto)]

mod answer;
mod circuits;
mod command;
mod costs;
mod ends;
pub mod laws;
mod made;
mod reading;
mod refusal;
mod running;
mod status;
mod threads;
mod top;

pub use command::{Command, Listing, Order, Play, Recipe, command_of};
pub use status::Status;
pub use threads::tool;
pub use top::tool_plain;
