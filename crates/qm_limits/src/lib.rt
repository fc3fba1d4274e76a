//! The limits of a text, of its programs and of their runs, each by its one name.
#![tactic(auto)]

/// How many bytes a text may have.
pub const MOST_BYTES: usize = 1_048_576;

/// The largest number in a text, and the largest size of an expression's value.
pub const LARGEST_VALUE: u32 = 2_147_483_647;

/// How many braces and parentheses may be open at once.
pub const MOST_OPEN: u32 = 32;

/// How many turns the loops of all ranks may have together.
pub const MOST_TURNS: u32 = 1_000_000;

/// How many ranks programs may have.
pub const MOST_RANKS: u16 = 16;

/// How many slots for qubits a rank may have.
pub const SLOTS: u8 = 16;

/// How many halves of EPR pairs the buffer of a rank may hold.
pub const MOST_HALVES: u8 = 8;

/// How many wires the slots and the buffers of all ranks may hold together, and so how many live wires a store may have.
pub const MOST_CAPACITY: u32 = 22;

/// How many wires they may hold together in version 1 of a text.
pub const MOST_CAPACITY_1: u32 = 20;

/// How many classical bits a rank has.
pub const BITS: u8 = 32;

/// How many ranks an instruction can name as its partner; which of them there are, the check tells.
pub const PEERS: u32 = 65_536;

/// How many tags messages can have.
pub const TAGS: u32 = 65_536;

/// How many instructions the ranks may have together.
pub const MOST_INSTRUCTIONS: u32 = 100_000;

/// How many events the instructions may have together, each at most 5.
pub const MOST_EVENTS: u32 = 5 * MOST_INSTRUCTIONS;

/// How many outcomes the protocols may take together, each instruction at most 2.
pub const MOST_PROTOCOL: u32 = 2 * MOST_INSTRUCTIONS;

/// How many outcomes a tape may have.
pub const MOST_OUTCOMES: usize = 1_048_576;
