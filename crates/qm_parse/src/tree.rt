//! Source trees, written as lists of nodes.
ghost use Rattle.std.specs.Prelude.{length, ◌<◌, ◌^◌};

use crate::looks::Look;
use crate::words::Verb;

/// What a node of a source tree stands for.
#[derive(Clone, Copy, Debug, PartialEq, Eq)]
pub enum What {
    /// A number.
    Num,
    /// The name of a loop.
    Name,
    Rank,
    Size,
    Plus,
    Minus,
    Times,
    Over,
    /// The rest of a division.
    Rest,
    /// The end of an operand or of a loop's bound.
    Arg,
    /// An instruction or a collective, or the gate under a `when`.
    Instr,
    For,
    /// The body of every rank.
    All,
    /// The body of one rank.
    Block,
    /// A line of an own tape.
    Own,
    /// A line of a protocol tape.
    Protocol,
    Bits,
}

/// A node of a source tree.
///
/// `token` is the number of the node's first token; an operator has its own token, an `Arg` the first one of its expression.
/// `value` is the value of a `Num`, and 0 elsewhere. `stop` of an `Instr`, `For`, `All`, `Block`, `Own` or `Protocol` is the number of
/// the first node behind all that belongs to it; of any other node it is the node's own number plus one.
#[derive(Clone, Copy, Debug, PartialEq, Eq)]
pub struct Node {
    pub what: What,
    pub token: u32,
    pub value: u32,
    pub stop: u32,
}

/// The source tree of a text, as the list of its nodes, of which there are at most 4,294,967,295; and what each token of the text is.
#[derive(Drop)]
pub struct Tree {
    pub(crate) items: Vec<Node>,
    pub(crate) looks: Vec<Look>,
    ghost few: { length items.items < 2 ^ 32 },
}

impl Tree {
    ghost use Rattle.std.specs.Prelude.{◌≡◌, None, get_or, slice_get};
    ghost use Rattle.qm_parse.specs.Parsing.{node_list, verb_list};

    /// All nodes, in their order.
    pub fn nodes(&self) -> &[Node]
        ensures all { result.now ≡ node_list self.now }
        ensures few { length result.now < 2 ^ 32 }
    {
        self.items.as_slice()
    }

    /// How many nodes there are.
    pub fn len(&self) -> u32
        ensures { result ≡ length (node_list self.now) }
    {
        self.items.len() as u32
    }

    /// The node with this number, from 0 on; none where there are not as many.
    pub fn node(&self, j: u32) -> Option<Node>
        ensures { result ≡ slice_get (node_list self.now) j }
    {
        self.items.get(j as usize).copied()
    }
    /// The instruction or collective that the token with this number names, from 0 on; none where it names none, or there are not as many
    /// tokens.
    pub fn verb(&self, token: u32) -> Option<Verb>
        ensures { result ≡ get_or (verb_list self.now) token None }
    {
        match self.looks.get(token as usize) {
            Some(Look::Verb(verb)) => Some(*verb),
            _ => None,
        }
    }
}
