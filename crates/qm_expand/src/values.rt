//! The values of expressions and operands.

ghost use Rattle.std.specs.Prelude.{◌≡◌, ◌≤◌, ◌<◌, [], IfOk, length, reverse};
ghost use Rattle.qm_expand.specs.Values.{bound, ranged, result_of, computed, within, limit};
ghost use Rattle.qm_expand.specs.Walk.{Answers, pushed, value_at};
ghost use Rattle.qm_expand.specs.Views.{AreWords, words_of, names_in, scope_in, scope_of, widest, value_seen, IsPushed};

use crate::ReadError;
use crate::words::{Source, bytes};
use qm_limits::{BITS, LARGEST_VALUE, PEERS, TAGS};
use qm_parse::{Node, Operand, What};

/// The rank that is expanded, the number of ranks, and the rank's slots.
#[derive(Clone, Copy)]
pub(crate) struct Scope {
    pub(crate) rank: u16,
    pub(crate) ranks: u16,
    pub(crate) qubits: u8,
}

/// What is known of all that a rank does: the text, and the rank with its sizes.
#[derive(Clone, Copy)]
pub(crate) struct Context<'a> {
    pub(crate) source: Source<'a>,
    pub(crate) scope: Scope,
}

/// The value of a loop's name in one of its turns; the name is a token of the text.
#[derive(Clone, Copy)]
pub(crate) struct Binding {
    pub(crate) token: usize,
    pub(crate) value: i64,
}

/// The names of the loops around, the innermost last.
pub(crate) type Names = Vec<Binding>;

/// What grows and shrinks on the way: the names of the loops around, and the numbers of an expression that wait for an operator, each with
/// the newest last.
#[derive(Drop)]
pub(crate) struct Stacks {
    pub(crate) names: Names,
    pub(crate) numbers: Vec<i64>,
}

/// The value of an expression, and how many nodes it has with its end.
#[derive(Clone, Copy)]
pub(crate) struct Valued {
    pub(crate) value: i64,
    pub(crate) used: usize,
}

/// The value of the expression at the front of these nodes; its faults have this line.
pub(crate) fn value(
    context: &Context<'_>,
    names: &Names,
    numbers: &mut Vec<i64>,
    line: u32,
    nodes: &[Node],
) -> Result<Valued, ReadError>
    requires { AreWords context.now.source }
    ensures answers { Answers value_seen result
        (value_at (words_of context.now.source) line (scope_in context.now names.now.items) nodes.now) }
    ensures used { IfOk result (λ v. v.used ≤ length nodes.now) }
{
    numbers.clear();
    let mut used = 0;
    while used < nodes.len() {
        let node = nodes[used];
        used += 1;
        if node.what == What::Arg {
            return match numbers.pop() {
                Some(value) => Ok(Valued { value, used }),
                None => Err(ReadError::OutOfRange { line }),
            };
        }
        let value = node_value(context, names, line, node, numbers)?;
        let Ok(()) = numbers.push(value) else {
            return Err(ReadError::Memory);
        };
    }
    Err(ReadError::OutOfRange { line })
}

/// The value of a node; an operator takes its two sides from the stack.
fn node_value(
    context: &Context<'_>,
    names: &Names,
    line: u32,
    node: Node,
    stack: &mut Vec<i64>,
) -> Result<i64, ReadError>
    requires { AreWords context.now.source }
    ensures { IsPushed (reverse stack.new.items) result
        (pushed (words_of context.now.source) line (scope_in context.now names.now.items)
        node.what node.token node.value (reverse stack.old.items)) }
{
    match node.what {
        What::Num => ranged(line, i128::from(node.value)),
        What::Rank => ranged(line, i128::from(context.scope.rank)),
        What::Size => ranged(line, i128::from(context.scope.ranks)),
        What::Name => match bound(&context.source, names, node.token as usize) {
            Some(value) => ranged(line, i128::from(value)),
            None => Err(ReadError::UnknownName { line }),
        },
        op => match stack.pop() {
            None => Err(ReadError::OutOfRange { line }),
            Some(right) => match stack.pop() {
                None => Err(ReadError::OutOfRange { line }),
                Some(left) => compute(line, op, left, right),
            },
        },
    }
}

/// The value of a name: that of the innermost loop that has it.
fn bound(source: &Source<'_>, names: &Names, token: usize) -> Option<i64>
    requires { AreWords source.now }
    ensures { result ≡ bound (names_in source.now names.now.items) ((words_of source.now).bytes token) }
{
    let name = bytes(source, token);
    let mut rest = names.as_slice();
    while let Some((newest, front)) = rest.split_last() {
        if bytes(source, newest.token) == name {
            return Some(newest.value);
        }
        rest = front;
    }
    None
}

/// What an operator makes of its two sides.
fn compute(line: u32, op: What, left: i64, right: i64) -> Result<i64, ReadError>
    ensures { Answers (λ z. z) result (computed line op left right) }
{
    match result_of(op, left, right) {
        Some(value) => ranged(line, value),
        None => Err(ReadError::OutOfRange { line }),
    }
}

/// The result of an operator; none where it divides by zero.
fn result_of(op: What, left: i64, right: i64) -> Option<i128>
    ensures { result ≡ result_of op left right }
{
    let (left, right) = (i128::from(left), i128::from(right));
    match op {
        What::Plus => Some(left + right),
        What::Minus => Some(left - right),
        What::Times => Some(left * right),
        What::Over => { if right == 0 { None } else { Some(left / right) } }
        What::Rest => { if right == 0 { None } else { Some(left % right) } }
        _ => None,
    }
}

/// An intermediate result, unless it leaves the range.
fn ranged(line: u32, value: i128) -> Result<i64, ReadError>
    ensures { Answers (λ z. z) result (ranged line value) }
{
    if value.unsigned_abs() <= u128::from(LARGEST_VALUE) {
        Ok(value as i64)
    } else {
        Err(ReadError::OutOfRange { line })
    }
}

/// A value from 0 up to the one before the limit.
pub(crate) fn within(line: u32, limit: u32, value: i64) -> Result<u32, ReadError>
    ensures answers { Answers (λ n. n) result (within line limit value) }
    ensures below { IfOk result (λ n. n < limit) }
{
    if 0 <= value && value < i64::from(limit) {
        Ok(value as u32)
    } else {
        Err(ReadError::OutOfRange { line })
    }
}

/// What each operand of a kind is below.
pub(crate) fn limit(scope: Scope, kind: Operand) -> u32
    ensures value { result ≡ limit (scope_of scope []) kind }
    ensures held { result ≤ limit widest kind }
{
    match kind {
        Operand::Slot => u32::from(scope.qubits),
        Operand::Bit => u32::from(BITS),
        Operand::Truth => 2,
        Operand::Root => u32::from(scope.ranks),
        Operand::Peer => PEERS,
        Operand::Tag => TAGS,
    }
}
