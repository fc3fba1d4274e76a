//! What has to come next in a text, and what a token is to it.
ghost use Rattle.std.specs.Prelude.{◌≡◌};
ghost use Rattle.qm_parse.specs.Verdicts.{is_fixed, verdict_if, stay_unless, number_verdict, open_verdict, prim_verdict, braced_verdict, mul_op, add_op, is_gate_verb, is_rank, is_all, is_tape, is_bits_name, is_name, is_statement, verdict_of, number_leaf, tape_leaf, body_leaf, gate_leaf, prim_leaf, leaf_at, leaf_of};

use crate::looks::Look;
use crate::tree::What;
use crate::words::{Keyword, Mark, NEWEST, Version};
use qm_limits::{LARGEST_VALUE, MOST_OPEN, MOST_RANKS};

/// A token that stands alone.
#[derive(Clone, Copy)]
pub(crate) enum Fixed {
    Qmpi,
    Ranks,
    Qubits,
    Buffer,
    End,
    In,
    Dots,
    CloseBrace,
    CloseParenthesis,
}

/// A part of a program that has to come next, or a node that has to be written.
#[derive(Clone, Copy)]
pub(crate) enum Goal {
    Fixed(Fixed),
    /// A number from `least` up to, and without, `end`; it gets a node where it is `written`.
    Number { least: u32, end: u32, written: bool },
    /// The number of the version, and all that follows it.
    Version,
    /// The number of ranks in a text of a version, and all that follows it.
    Ranks { version: Version },
    /// So many numbers from 1 up to, and without, `end`, each with a node.
    Numbers { left: u32, end: u32 },
    /// The block of all ranks, or one for each of so many.
    Blocks { ranks: u32 },
    /// The blocks of the ranks from `next` on.
    Each { next: u32, ranks: u32 },
    /// Lines of outcomes for the tapes of so many ranks.
    Tapes { ranks: u32 },
    /// A word of outcomes.
    Outcomes,
    /// The name of a loop.
    Name,
    /// Instructions and loops, as many as there are.
    Body,
    /// A body in braces.
    Braced,
    /// So many operands.
    Operands { left: u32 },
    /// A gate under a `when`.
    Gate,
    /// A number, a name, `rank`, `size`, or an expression in parentheses.
    Prim,
    /// Operators of the level of `*`, and their right sides.
    Muls,
    /// Operators of the level of `+`, and their right sides.
    Adds,
    /// Writes a node.
    Leaf { what: What, token: u32 },
    /// All that belongs to a node was read.
    Close { node: u32 },
}

/// Why no program goes on with a token.
#[derive(Clone, Copy)]
pub(crate) enum Stop {
    Unexpected,
    NumberTooLarge,
    TooDeep,
}

/// What a token is to a goal.
#[derive(Clone, Copy)]
pub(crate) enum Verdict {
    /// The goal begins with it.
    Take,
    /// The goal is empty, or others stand for it.
    Stay,
    /// No program goes on with it.
    Stop(Stop),
}

/// Whether it is this token.
fn is_fixed(fixed: Fixed, look: Look) -> bool
    ensures { result ≡ is_fixed fixed look }
{
    match fixed {
        Fixed::Qmpi => matches!(look, Look::Keyword(Keyword::Qmpi)),
        Fixed::Ranks => matches!(look, Look::Keyword(Keyword::Ranks)),
        Fixed::Qubits => matches!(look, Look::Keyword(Keyword::Qubits)),
        Fixed::Buffer => matches!(look, Look::Keyword(Keyword::Buffer)),
        Fixed::End => matches!(look, Look::Keyword(Keyword::End)),
        Fixed::In => matches!(look, Look::Keyword(Keyword::In)),
        Fixed::Dots => matches!(look, Look::Mark(Mark::Dots)),
        Fixed::CloseBrace => matches!(look, Look::Mark(Mark::CloseBrace)),
        Fixed::CloseParenthesis => matches!(look, Look::Mark(Mark::CloseParenthesis)),
    }
}

/// A token that has to be of some kind, by whether it is.
fn verdict_if(is_first: bool) -> Verdict
    ensures { result ≡ verdict_if is_first }
{
    if is_first {
        Verdict::Take
    } else {
        Verdict::Stop(Stop::Unexpected)
    }
}

/// A token that may be of some kind, by whether it is.
fn stay_unless(is_first: bool) -> Verdict
    ensures { result ≡ stay_unless is_first }
{
    if is_first {
        Verdict::Take
    } else {
        Verdict::Stay
    }
}

/// A number from `least` up to, and without, `end`.
fn number_verdict(look: Look, least: u32, end: u32) -> Verdict
    ensures { result ≡ number_verdict look least end }
{
    match look {
        Look::Number(value) if value > LARGEST_VALUE => Verdict::Stop(Stop::NumberTooLarge),
        Look::Number(value) => verdict_if(least <= value && value < end),
        _ => Verdict::Stop(Stop::Unexpected),
    }
}

/// An opening brace or parenthesis, where so many are open.
fn open_verdict(depth: u32) -> Verdict
    ensures { result ≡ open_verdict depth }
{
    if depth < MOST_OPEN {
        Verdict::Take
    } else {
        Verdict::Stop(Stop::TooDeep)
    }
}

/// The first token of a number, a name, `rank`, `size`, or an expression in parentheses.
fn prim_verdict(look: Look, depth: u32) -> Verdict
    ensures { result ≡ prim_verdict look depth }
{
    match look {
        Look::Number(_) => number_verdict(look, 0, LARGEST_VALUE + 1),
        Look::Name(_) | Look::Keyword(Keyword::Rank | Keyword::Size) => Verdict::Take,
        Look::Mark(Mark::OpenParenthesis) => open_verdict(depth),
        _ => Verdict::Stop(Stop::Unexpected),
    }
}

/// The brace before a body.
fn braced_verdict(look: Look, depth: u32) -> Verdict
    ensures { result ≡ braced_verdict look depth }
{
    match look {
        Look::Mark(Mark::OpenBrace) => open_verdict(depth),
        _ => Verdict::Stop(Stop::Unexpected),
    }
}

/// The operator of the level of `*` that it is.
pub(crate) fn mul_op(look: Look) -> Option<What>
    ensures { result ≡ mul_op look }
{
    match look {
        Look::Mark(Mark::Times) => Some(What::Times),
        Look::Mark(Mark::Over) => Some(What::Over),
        Look::Mark(Mark::Rest) => Some(What::Rest),
        _ => None,
    }
}

/// The operator of the level of `+` that it is.
pub(crate) fn add_op(look: Look) -> Option<What>
    ensures { result ≡ add_op look }
{
    match look {
        Look::Mark(Mark::Plus) => Some(What::Plus),
        Look::Mark(Mark::Minus) => Some(What::Minus),
        _ => None,
    }
}

/// Whether it names a gate.
fn is_gate_verb(look: Look) -> bool
    ensures { result ≡ is_gate_verb look }
{
    match look {
        Look::Verb(verb) => verb.action.is_gate(),
        _ => false,
    }
}

/// Whether it is the word before the block of one rank.
fn is_rank(look: Look) -> bool
    ensures { result ≡ is_rank look }
{
    matches!(look, Look::Keyword(Keyword::Rank))
}

/// Whether it is the word before the block of all ranks.
pub(crate) fn is_all(look: Look) -> bool
    ensures { result ≡ is_all look }
{
    matches!(look, Look::Keyword(Keyword::All))
}

/// Whether a tape's line begins with it.
pub(crate) fn is_tape(look: Look) -> bool
    ensures { result ≡ is_tape look }
{
    matches!(look, Look::Keyword(Keyword::Own | Keyword::Protocol))
}

/// Whether it is a word of outcomes.
fn is_bits_name(look: Look) -> bool
    ensures { result ≡ is_bits_name look }
{
    matches!(look, Look::Name(true))
}

/// Whether it is a word that a loop may have as its name.
fn is_name(look: Look) -> bool
    ensures { result ≡ is_name look }
{
    matches!(look, Look::Name(_))
}

/// Whether an instruction or a loop begins with it.
fn is_statement(look: Look) -> bool
    ensures { result ≡ is_statement look }
{
    matches!(look, Look::Verb(_) | Look::Keyword(Keyword::For))
}

/// What a token is to a goal, where so many braces and parentheses are open.
pub(crate) fn verdict_of(goal: Goal, look: Look, depth: u32) -> Verdict
    ensures { result ≡ verdict_of goal look depth }
{
    match goal {
        Goal::Fixed(fixed) => verdict_if(is_fixed(fixed, look)),
        Goal::Number { least, end, .. } => number_verdict(look, least, end),
        Goal::Version => number_verdict(look, 1, NEWEST + 1),
        Goal::Ranks { .. } => number_verdict(look, 1, u32::from(MOST_RANKS) + 1),
        Goal::Blocks { .. } => stay_unless(is_all(look)),
        Goal::Each { next, ranks } if next < ranks => verdict_if(is_rank(look)),
        Goal::Tapes { .. } => stay_unless(is_tape(look)),
        Goal::Outcomes => verdict_if(is_bits_name(look)),
        Goal::Name => verdict_if(is_name(look)),
        Goal::Body => stay_unless(is_statement(look)),
        Goal::Braced => braced_verdict(look, depth),
        Goal::Gate => verdict_if(is_gate_verb(look)),
        Goal::Prim => prim_verdict(look, depth),
        Goal::Muls => stay_unless(mul_op(look).is_some()),
        Goal::Adds => stay_unless(add_op(look).is_some()),
        Goal::Numbers { .. }
        | Goal::Each { .. }
        | Goal::Operands { .. }
        | Goal::Leaf { .. }
        | Goal::Close { .. } => Verdict::Stay,
    }
}

/// What a number's node stands for, and its value.
fn number_leaf(look: Look) -> Option<(What, u32)>
    ensures { result ≡ number_leaf look }
{
    match look {
        Look::Number(value) => Some((What::Num, value)),
        _ => None,
    }
}

/// The same of a tape's line.
fn tape_leaf(look: Look) -> Option<(What, u32)>
    ensures { result ≡ tape_leaf look }
{
    match look {
        Look::Keyword(Keyword::Own) => Some((What::Own, 0)),
        Look::Keyword(Keyword::Protocol) => Some((What::Protocol, 0)),
        _ => None,
    }
}

/// The same of an instruction or a loop.
fn body_leaf(look: Look) -> Option<(What, u32)>
    ensures { result ≡ body_leaf look }
{
    match look {
        Look::Verb(_) => Some((What::Instr, 0)),
        Look::Keyword(Keyword::For) => Some((What::For, 0)),
        _ => None,
    }
}

/// The same of a gate under a `when`.
fn gate_leaf(look: Look) -> Option<(What, u32)>
    ensures { result ≡ gate_leaf look }
{
    match look {
        Look::Verb(_) => Some((What::Instr, 0)),
        _ => None,
    }
}

/// The same of a number, a name, `rank` or `size`.
fn prim_leaf(look: Look) -> Option<(What, u32)>
    ensures { result ≡ prim_leaf look }
{
    match look {
        Look::Number(value) => Some((What::Num, value)),
        Look::Name(_) => Some((What::Name, 0)),
        Look::Keyword(Keyword::Rank) => Some((What::Rank, 0)),
        Look::Keyword(Keyword::Size) => Some((What::Size, 0)),
        _ => None,
    }
}

/// The same with the number of its token.
fn leaf_at(at: u32, leaf: Option<(What, u32)>) -> Option<(What, u32, u32)>
    ensures { result ≡ leaf_at at leaf }
{
    match leaf {
        Some((what, value)) => Some((what, at, value)),
        None => None,
    }
}

/// The node that is written at the token with this number, or for a goal of its own: what it stands for, its token and its value.
pub(crate) fn leaf_of(goal: Goal, look: Look, at: u32) -> Option<(What, u32, u32)>
    ensures { result ≡ leaf_of goal look at }
{
    match goal {
        Goal::Leaf { what, token } => Some((what, token, 0)),
        Goal::Number { written: true, .. } | Goal::Version | Goal::Ranks { .. } => {
            leaf_at(at, number_leaf(look))
        }
        Goal::Blocks { .. } if is_all(look) => Some((What::All, at, 0)),
        Goal::Each { next, ranks } if next < ranks => Some((What::Block, at, 0)),
        Goal::Tapes { .. } => leaf_at(at, tape_leaf(look)),
        Goal::Outcomes => Some((What::Bits, at, 0)),
        Goal::Body => leaf_at(at, body_leaf(look)),
        Goal::Gate => leaf_at(at, gate_leaf(look)),
        Goal::Prim => leaf_at(at, prim_leaf(look)),
        _ => None,
    }
}
