//! The table of reserved words.

use crate::words::{Action, Keyword, Operand, Reserved, Verb};
use qm_instr::OneGate;

/// A reserved word, filled up with spaces to ten bytes, and what it means.
#[derive(Clone, Copy)]
pub(crate) struct Entry {
    pub(crate) word: [u8; 10],
    pub(crate) means: Reserved,
}

/// The entry of a word of the frame.
macro_rules! keyword {
    ($word:literal, $keyword:ident) => {
        Entry {
            word: *$word,
            means: Reserved::Keyword(Keyword::$keyword),
        }
    };
}

/// The entry of an instruction or a collective with one to four operands of these kinds.
macro_rules! verb {
    ($word:literal, $action:expr, $a:ident) => {
        verb!(@ $word, $action, [Some(Operand::$a), None, None, None])
    };
    ($word:literal, $action:expr, $a:ident, $b:ident) => {
        verb!(@ $word, $action, [Some(Operand::$a), Some(Operand::$b), None, None])
    };
    ($word:literal, $action:expr, $a:ident, $b:ident, $c:ident) => {
        verb!(@ $word, $action, [Some(Operand::$a), Some(Operand::$b), Some(Operand::$c), None])
    };
    ($word:literal, $action:expr, $a:ident, $b:ident, $c:ident, $d:ident) => {
        verb!(@ $word, $action,
            [Some(Operand::$a), Some(Operand::$b), Some(Operand::$c), Some(Operand::$d)])
    };
    (@ $word:literal, $action:expr, $operands:expr) => {
        Entry {
            word: *$word,
            means: Reserved::Verb(Verb {
                action: $action,
                operands: $operands,
            }),
        }
    };
}

/// The reserved words of version 1. A gate under a `when` is one of `x` to `cz`.
pub(crate) const WORDS: [Entry; 45] = [
    verb!(b"alloc     ", Action::Alloc, Slot),
    verb!(b"free      ", Action::Free, Slot),
    verb!(b"x         ", Action::One(OneGate::X), Slot),
    verb!(b"z         ", Action::One(OneGate::Z), Slot),
    verb!(b"h         ", Action::One(OneGate::H), Slot),
    verb!(b"s         ", Action::One(OneGate::S), Slot),
    verb!(b"sdg       ", Action::One(OneGate::Sdg), Slot),
    verb!(b"t         ", Action::One(OneGate::T), Slot),
    verb!(b"tdg       ", Action::One(OneGate::Tdg), Slot),
    verb!(b"cx        ", Action::Cx, Slot, Slot),
    verb!(b"cz        ", Action::Cz, Slot, Slot),
    verb!(b"measure   ", Action::Measure, Slot, Bit),
    verb!(b"set       ", Action::Set, Bit, Truth),
    verb!(b"xor       ", Action::Xor, Bit, Bit),
    verb!(b"when      ", Action::When, Bit),
    verb!(b"sendbit   ", Action::SendBit, Bit, Peer, Tag),
    verb!(b"recvbit   ", Action::RecvBit, Bit, Peer, Tag),
    verb!(b"copyto    ", Action::CopyTo, Slot, Peer, Tag),
    verb!(b"copyfrom  ", Action::CopyFrom, Slot, Peer, Tag),
    verb!(b"undoto    ", Action::UndoTo, Slot, Peer, Tag),
    verb!(b"undofrom  ", Action::UndoFrom, Slot, Peer, Tag),
    verb!(b"moveto    ", Action::MoveTo, Slot, Peer, Tag),
    verb!(b"movefrom  ", Action::MoveFrom, Slot, Peer, Tag),
    verb!(b"reachto   ", Action::ReachTo, Slot, Peer, Tag),
    verb!(b"reachfrom ", Action::ReachFrom, Slot, Peer, Tag),
    verb!(b"bcast     ", Action::Bcast, Slot, Root, Tag),
    verb!(b"unbcast   ", Action::Unbcast, Slot, Root, Tag),
    verb!(b"scatter   ", Action::Scatter, Slot, Root, Tag),
    verb!(b"gather    ", Action::Gather, Slot, Root, Tag),
    verb!(b"unscatter ", Action::Unscatter, Slot, Root, Tag),
    verb!(b"ungather  ", Action::Ungather, Slot, Root, Tag),
    verb!(b"reduce    ", Action::Reduce, Slot, Slot, Root, Tag),
    verb!(b"unreduce  ", Action::Unreduce, Slot, Slot, Root, Tag),
    keyword!(b"qmpi      ", Qmpi),
    keyword!(b"ranks     ", Ranks),
    keyword!(b"qubits    ", Qubits),
    keyword!(b"buffer    ", Buffer),
    keyword!(b"rank      ", Rank),
    keyword!(b"size      ", Size),
    keyword!(b"all       ", All),
    keyword!(b"end       ", End),
    keyword!(b"own       ", Own),
    keyword!(b"protocol  ", Protocol),
    keyword!(b"for       ", For),
    keyword!(b"in        ", In),
];

/// The reserved words of version 2 that mean something else there; all others are those of version 1.
pub(crate) const NEWER: [Entry; 3] = [
    keyword!(b"unreduce  ", Unreduce),
    verb!(b"treecast  ", Action::Treecast, Slot, Root, Tag),
    verb!(b"untreecast", Action::Untreecast, Slot, Root, Tag),
];
