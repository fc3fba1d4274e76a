//! The collectives: the instructions of which each of them is made at each rank, and what they do to a circuit.
#![tactic(auto)]

pub mod laws;
mod table;
mod worked;

pub use table::{count, instr_at};

/// A collective, as one rank writes it.
///
/// `q` and `t` are slots of the rank; `root` is the rank that deals out or gathers in, and `tag` is that of the messages.
#[derive(Clone, Copy, PartialEq, Eq, Debug)]
pub enum Collective {
    /// Each rank gets an entangled copy of the root's qubit.
    Bcast { q: u8, root: u16, tag: u16 },
    /// The root takes its copies back.
    Unbcast { q: u8, root: u16, tag: u16 },
    /// Rank `d` gets the qubit in slot `q + d` of the root.
    Scatter { q: u8, root: u16, tag: u16 },
    /// The qubit of rank `d` goes into slot `q + d` of the root.
    Gather { q: u8, root: u16, tag: u16 },
    /// Undoes a scatter, as a gather.
    Unscatter { q: u8, root: u16, tag: u16 },
    /// Undoes a gather, as a scatter.
    Ungather { q: u8, root: u16, tag: u16 },
    /// The root's target `t` is flipped where an odd number of the ranks' qubits `q` is one.
    Reduce { q: u8, t: u8, root: u16, tag: u16 },
    /// Undoes a reduce, as a reduce.
    Unreduce { q: u8, t: u8, root: u16, tag: u16 },
}
