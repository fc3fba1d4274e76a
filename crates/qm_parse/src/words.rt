//! The reserved words, and what they mean.
ghost use Rattle.std.specs.Prelude.{◌≡◌, ◌≤◌, ◌==◌, false, not, length, IsTrue};
ghost use Rattle.std.specs.List.{prefix_len};
ghost use Rattle.std.specs.Str.{bytes_eq};
ghost use Rattle.qm_parse.specs.Words.{reserved_of};
ghost use Rattle.qm_parse.specs.Laws.{without_spaces, entry_meaning};
ghost use Rattle.qm_parse.specs.declared.table.TheConstants.{NEWER, WORDS};

use crate::table::{Entry, NEWER, WORDS};
use qm_instr::OneGate;

/// The number of the newest version of the text.
pub(crate) const NEWEST: u32 = 2;

/// A version of the text.
#[derive(Clone, Copy, Debug, PartialEq, Eq)]
pub enum Version {
    /// All ranks have as many slots, and buffers of one size.
    One,
    /// Each rank has its own number of slots, and its own buffer.
    Two,
}

impl Version {
    ghost use Rattle.qm_parse.specs.Words.{size_count, version_number};

    /// The number that a text names it by.
    pub fn number(self) -> u8
        ensures { result ≡ version_number self }
    {
        match self {
            Version::One => 1,
            Version::Two => 2,
        }
    }

    /// How many numbers give the slots of so many ranks, or their buffers: one for all, or one for each.
    pub fn size_count(self, ranks: u32) -> u32
        ensures { result ≡ size_count self ranks }
    {
        match self {
            Version::One => 1,
            Version::Two => ranks,
        }
    }
}

/// A word of the frame of a program, and of loops and expressions.
#[derive(Clone, Copy, Debug, PartialEq, Eq)]
pub enum Keyword {
    Qmpi,
    Ranks,
    Qubits,
    Buffer,
    Rank,
    Size,
    All,
    End,
    Own,
    Protocol,
    For,
    In,
    /// The word `unreduce` of version 2, with which nothing begins.
    Unreduce,
}

/// What an instruction or a collective does.
#[derive(Clone, Copy, Debug, PartialEq, Eq)]
pub enum Action {
    Alloc,
    Free,
    One(OneGate),
    Cx,
    Cz,
    Measure,
    Set,
    Xor,
    When,
    SendBit,
    RecvBit,
    CopyTo,
    CopyFrom,
    UndoTo,
    UndoFrom,
    MoveTo,
    MoveFrom,
    ReachTo,
    ReachFrom,
    Bcast,
    Unbcast,
    Scatter,
    Gather,
    Unscatter,
    Ungather,
    Reduce,
    Unreduce,
    /// The word `treecast` of version 2.
    Treecast,
    /// The word `untreecast` of version 2.
    Untreecast,
}

impl Action {
    ghost use Rattle.qm_parse.specs.Words.{is_gate, takes_gate};

    /// Whether it is a gate, which may stand under a `when`.
    pub fn is_gate(self) -> bool
        ensures { result ≡ is_gate self }
    {
        matches!(self, Action::One(_) | Action::Cx | Action::Cz)
    }

    /// Whether a gate follows its operands.
    pub fn takes_gate(self) -> bool
        ensures { result ≡ takes_gate self }
    {
        matches!(self, Action::When)
    }
}

/// The kinds of operands.
#[derive(Clone, Copy, Debug, PartialEq, Eq)]
pub enum Operand {
    /// A slot, below the rank's qubits.
    Slot,
    /// A classical bit, below [`qm_limits::BITS`].
    Bit,
    /// 0 or 1.
    Truth,
    /// The rank at the other end of a message, below [`qm_limits::PEERS`].
    Peer,
    /// The root of a collective, below the number of ranks.
    Root,
    /// A tag, below [`qm_limits::TAGS`].
    Tag,
}

/// An instruction or a collective, with the kinds of its operands from left to right; the operands come first, then `None`.
#[derive(Clone, Copy, Debug, PartialEq, Eq)]
pub struct Verb {
    pub action: Action,
    pub operands: [Option<Operand>; 4],
}

impl Verb {
    ghost use Rattle.std.specs.Prelude.{count_by, is_some};

    /// How many operands it has.
    pub fn operand_count(self) -> u32
        ensures count { result ≡ count_by is_some self.operands }
        ensures few { result ≤ 4 }
    {
        self.operands
            .iter()
            .filter(|operand| operand.is_some())
            .count() as u32
    }
}

/// What a reserved word means.
#[derive(Clone, Copy, Debug, PartialEq, Eq)]
pub enum Reserved {
    Keyword(Keyword),
    Verb(Verb),
}

/// A symbol.
#[derive(Clone, Copy, Debug, PartialEq, Eq)]
pub enum Mark {
    OpenBrace,
    CloseBrace,
    OpenParenthesis,
    CloseParenthesis,
    Plus,
    Minus,
    Times,
    Over,
    Rest,
    Dots,
}

/// What a word means in texts of a version; none where it isn't reserved.
pub fn reserved_of(version: Version, word: &[u8]) -> Option<Reserved>
    ensures { result ≡ reserved_of version word.now }
{
    match version {
        Version::One => older_meaning(word),
        Version::Two => newer_meaning(word).or(older_meaning(word)),
    }
}

/// What a word means in version 1.
fn older_meaning(word: &[u8]) -> Option<Reserved>
    ensures { result ≡ entry_meaning WORDS word.now }
{
    meaning(&WORDS, word)
}

/// What a word means in version 2, where it means something else there.
fn newer_meaning(word: &[u8]) -> Option<Reserved>
    ensures { result ≡ entry_meaning NEWER word.now }
{
    meaning(&NEWER, word)
}

/// What a word means by these entries.
fn meaning(entries: &[Entry], word: &[u8]) -> Option<Reserved>
    ensures { result ≡ entry_meaning entries.now word.now }
{
    entries
        .iter()
        .find(|entry| is_for(entry, word))
        .map(|entry| entry.means)
}

/// Whether the entry is that of the word.
fn is_for(entry: &Entry, word: &[u8]) -> bool
    ensures { result ≡ bytes_eq word.now (without_spaces entry.now.word) }
{
    !begins_otherwise(word, &entry.word) && word == &entry.word[..filled_len(&entry.word)]
}

/// Whether bytes begin with another one than a filled word.
fn begins_otherwise(bytes: &[u8], word: &[u8]) -> bool
    ensures { IsTrue result → bytes_eq bytes.now (without_spaces word.now) ≡ false }
{
    !bytes.is_empty() && !word.is_empty() && bytes[0] != word[0]
}

/// How many bytes are before the first space.
fn filled_len(word: &[u8]) -> usize
    ensures len { result ≡ prefix_len (λ b. not (b == 32)) word.now }
    ensures within { result ≤ length word.now }
{
    word.iter().take_while(|byte| **byte != b' ').count()
}
