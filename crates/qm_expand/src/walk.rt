//! The walk over the nodes of a source tree.

ghost use Rattle.std.specs.Prelude.{◌≡◌, ◌+◌, ◌+ℤ◌, ◌<◌, ◌≤◌, ◌^◌, pos, ℕ, [], ◌∷◌, ◌++◌, length, take, drop, Ok, OnOk};
ghost use Rattle.qm_expand.specs.Expansion.{inside, turn_count};
ghost use Rattle.qm_expand.specs.Walk.{Answers, own_len, walk, stepped, looped, turned, called, gated};
ghost use Rattle.qm_expand.specs.Views.{AreWords, words_of, scope_in, draft_seen};

use crate::ReadError;
use crate::draft::Draft;
use crate::made::{Operation, gate_made, make, small};
use crate::operands::gather;
use crate::values::{Binding, Context, Names, Stacks, Valued, value};
use crate::words::line;
use qm_instr::Instr;
use qm_parse::{Node, What};

/// How many of the nodes behind a node belong to it; the first of them has this number.
pub(crate) fn own_len(node: Node, number: usize, rest: usize) -> usize
    ensures value { result ≡ own_len node number rest }
    ensures few { result ≤ rest }
{
    (node.stop as usize).saturating_sub(number).min(rest)
}

/// The first of some nodes.
pub(crate) fn first_of(nodes: &[Node]) -> Node
    requires { 0 < length nodes.now }
    ensures { nodes.now ≡ result ∷ drop 1 nodes.now }
{
    nodes[0]
}

/// So many nodes from the front.
pub(crate) fn upto(nodes: &[Node], count: usize) -> &[Node]
    requires { count ≤ length nodes.now }
    ensures { result.now ≡ take count nodes.now }
{
    &nodes[..count]
}

/// The nodes behind so many.
pub(crate) fn after(nodes: &[Node], count: usize) -> &[Node]
    requires { count ≤ length nodes.now }
    ensures { result.now ≡ drop count nodes.now }
{
    &nodes[count..]
}

/// Expands a body; its nodes have numbers from `number` on.
#[cycle(walk)]
pub(crate) fn body(
    context: &Context<'_>,
    number: usize,
    nodes: &[Node],
    stacks: &mut Stacks,
    draft: &mut Draft,
) -> Result<(), ReadError>
    requires words { AreWords context.now.source }
    requires rank { context.now.scope.rank < context.now.scope.ranks }
    requires ranks { context.now.scope.ranks ≡ length draft.old.input.ranks }
    requires few { number + length nodes.now < 2 ^ 40 }
    ensures answers { (n : ℕ) → length nodes.now ≤ n → Answers (λ _. draft_seen draft.new) result
        (walk (words_of context.now.source) n (scope_in context.now stacks.old.names.items)
        number nodes.now (draft_seen draft.old)) }
    ensures ranks { OnOk result (length draft.new.input.ranks ≡ length draft.old.input.ranks) }
    ensures names { OnOk result (stacks.new.names.items ≡ stacks.old.names.items) }
{
    let mut rest = nodes;
    let mut at = number;
    while !rest.is_empty() {
        let node = first_of(rest);
        let behind = after(rest, 1);
        at += 1;
        let len = own_len(node, at, behind.len());
        let own = upto(behind, len);
        step(context, at, node, own, stacks, draft)?;
        at += len;
        rest = after(behind, len);
    }
    Ok(())
}

/// Expands an instruction, a collective or a loop, which has these nodes behind its first one.
#[cycle(walk)]
fn step(
    context: &Context<'_>,
    number: usize,
    node: Node,
    own: &[Node],
    stacks: &mut Stacks,
    draft: &mut Draft,
) -> Result<(), ReadError>
    requires words { AreWords context.now.source }
    requires rank { context.now.scope.rank < context.now.scope.ranks }
    requires ranks { context.now.scope.ranks ≡ length draft.old.input.ranks }
    requires few { number + length own.now < 2 ^ 40 }
    ensures answers { (n : ℕ) → length own.now ≤ n → Answers (λ _. draft_seen draft.new) result
        (stepped (words_of context.now.source)
        (walk (words_of context.now.source) n) (scope_in context.now stacks.old.names.items)
        number node own.now (draft_seen draft.old)) }
    ensures ranks { OnOk result (length draft.new.input.ranks ≡ length draft.old.input.ranks) }
    ensures names { OnOk result (stacks.new.names.items ≡ stacks.old.names.items) }
{
    match node.what {
        What::For => turn_loop(context, number, node, own, stacks, draft),
        _ => call(
            context,
            &stacks.names,
            &mut stacks.numbers,
            node,
            own,
            draft,
        ),
    }
}

/// Expands a loop: its bounds, and then its body for each turn.
#[cycle(walk)]
fn turn_loop(
    context: &Context<'_>,
    number: usize,
    node: Node,
    own: &[Node],
    stacks: &mut Stacks,
    draft: &mut Draft,
) -> Result<(), ReadError>
    requires words { AreWords context.now.source }
    requires rank { context.now.scope.rank < context.now.scope.ranks }
    requires ranks { context.now.scope.ranks ≡ length draft.old.input.ranks }
    requires few { number + length own.now < 2 ^ 40 }
    ensures answers { (n : ℕ) → length own.now ≤ n → Answers (λ _. draft_seen draft.new) result
        (looped (words_of context.now.source)
        (walk (words_of context.now.source) n) (scope_in context.now stacks.old.names.items)
        number node own.now (draft_seen draft.old)) }
    ensures ranks { OnOk result (length draft.new.input.ranks ≡ length draft.old.input.ranks) }
    ensures names { OnOk result (stacks.new.names.items ≡ stacks.old.names.items) }
{
    let line = line(&context.source, node.token);
    let first = value(context, &stacks.names, &mut stacks.numbers, line, own)?;
    let rest = after(own, first.used);
    let end = value(context, &stacks.names, &mut stacks.numbers, line, rest)?;
    let inner = after(rest, end.used);
    let start = number + first.used + end.used;
    for k in 0..turn_count(first, end) {
        let name = turn_name(node, first, end, k);
        turn(context, line, name, start, inner, stacks, draft)?;
    }
    Ok(())
}

/// Expands the body of a loop for one turn, which is counted first.
#[cycle(walk)]
fn turn(
    context: &Context<'_>,
    line: u32,
    name: Binding,
    number: usize,
    inner: &[Node],
    stacks: &mut Stacks,
    draft: &mut Draft,
) -> Result<(), ReadError>
    requires words { AreWords context.now.source }
    requires rank { context.now.scope.rank < context.now.scope.ranks }
    requires ranks { context.now.scope.ranks ≡ length draft.old.input.ranks }
    requires few { number + length inner.now < 2 ^ 40 }
    ensures answers { (n : ℕ) → length inner.now ≤ n → Answers (λ _. draft_seen draft.new) result
        (turned (walk (words_of context.now.source) n) line
        (inside (scope_in context.now stacks.old.names.items) ((words_of context.now.source).bytes name.token) name.value)
        number inner.now (draft_seen draft.old)) }
    ensures ranks { OnOk result (length draft.new.input.ranks ≡ length draft.old.input.ranks) }
    ensures names { OnOk result (stacks.new.names.items ≡ stacks.old.names.items) }
{
    draft.turn(line)?;
    push_name(&mut stacks.names, name)?;
    let done = body(context, number, inner, stacks, draft);
    stacks.names.pop();
    done
}

/// How many turns a loop has between its bounds.
fn turn_count(first: Valued, end: Valued) -> u64
    ensures { result ≡ turn_count first.value end.value }
{
    if first.value < end.value {
        (i128::from(end.value) - i128::from(first.value)) as u64
    } else {
        0
    }
}

/// The name of a loop with its value in turn `k`, from 0.
fn turn_name(node: Node, first: Valued, end: Valued, k: u64) -> Binding
    requires { k < turn_count first.value end.value }
    ensures { result ≡ record { token = node.token + 1; value = first.value +ℤ pos k } }
{
    Binding {
        token: node.token as usize + 1,
        value: (i128::from(first.value) + i128::from(k)) as i64,
    }
}

/// Appends a name.
fn push_name(names: &mut Names, name: Binding) -> Result<(), ReadError>
    ensures { Answers (λ _. names.new.items) result (Ok (names.old.items ++ name ∷ [])) }
{
    match names.push(name) {
        Ok(()) => Ok(()),
        Err(_) => Err(ReadError::Memory),
    }
}

/// Expands an instruction or a collective.
fn call(
    context: &Context<'_>,
    names: &Names,
    numbers: &mut Vec<i64>,
    node: Node,
    own: &[Node],
    draft: &mut Draft,
) -> Result<(), ReadError>
    requires words { AreWords context.now.source }
    requires rank { context.now.scope.rank < context.now.scope.ranks }
    requires ranks { context.now.scope.ranks ≡ length draft.old.input.ranks }
    ensures answers { Answers (λ _. draft_seen draft.new) result
        (called (words_of context.now.source) (scope_in context.now names.now.items)
        node own.now (draft_seen draft.old)) }
    ensures ranks { OnOk result (length draft.new.input.ranks ≡ length draft.old.input.ranks) }
{
    let Some(verb) = context.source.tree.verb(node.token) else {
        return Ok(());
    };
    let line = line(&context.source, node.token);
    let found = gather(context, names, numbers, line, verb.operands, own)?;
    match make(verb.action, &found) {
        Operation::Core(i) => draft.add(line, context.scope.rank, i),
        Operation::Shared(which) => draft.share(line, context.scope, which),
        Operation::Nothing => {
            let bit = small(&found, 0);
            let rest = &own[found.used..];
            call_gate(context, names, numbers, line, bit, rest, draft)
        }
    }
}

/// Expands the gate under a bit, at the front of these nodes.
fn call_gate(
    context: &Context<'_>,
    names: &Names,
    numbers: &mut Vec<i64>,
    line: u32,
    bit: u8,
    nodes: &[Node],
    draft: &mut Draft,
) -> Result<(), ReadError>
    requires words { AreWords context.now.source }
    requires rank { context.now.scope.rank < context.now.scope.ranks }
    requires ranks { context.now.scope.ranks ≡ length draft.old.input.ranks }
    ensures answers { Answers (λ _. draft_seen draft.new) result
        (gated (words_of context.now.source) line (scope_in context.now names.now.items)
        bit nodes.now (draft_seen draft.old)) }
    ensures ranks { OnOk result (length draft.new.input.ranks ≡ length draft.old.input.ranks) }
{
    if nodes.is_empty() {
        return Ok(());
    }
    let Some(verb) = context.source.tree.verb(nodes[0].token) else {
        return Ok(());
    };
    let found = gather(context, names, numbers, line, verb.operands, &nodes[1..])?;
    match gate_made(verb.action, &found) {
        None => Ok(()),
        Some(g) => draft.add(line, context.scope.rank, Instr::When { b: bit, g }),
    }
}
