//! Ends: where bytes come from and go to, each with a count of its faults.
#![tactic(auto)]

mod drain;
mod ends;
mod intake;
mod mem_sink;
mod mem_source;
mod put;
mod std_sink;
mod std_source;
mod sure_source;

pub use drain::Drain;
pub use ends::{Failed, Sink, Source};
pub use intake::{TextError, read_all};
pub use mem_sink::MemSink;
pub use mem_source::MemSource;
pub use put::put_bytes;
pub use std_sink::StdSink;
pub use std_source::StdSource;
pub use sure_source::SureSource;
