//! The expansion of whole programs, from the nodes of their source trees.

ghost use Rattle.std.specs.Prelude.{◌≡◌, ◌+◌, ◌<◌, ◌≤◌, ◌^◌, ℕ, IfOk, OnOk, if◌then◌else◌, length, drop};
ghost use Rattle.qm_parse.specs.Parsing.{node_list};
ghost use Rattle.qm_expand.specs.Expansion.{rank_scope};
ghost use Rattle.qm_expand.specs.Walk.{Answers, walk, is_all, is_own, blocks_walked, tape_walked, tapes_walked, are_ranks, sized_walk, ranks_walk, walked};
ghost use Rattle.qm_expand.specs.Views.{AreCounted, AreWords, words_of, draft_seen};

use crate::ReadError;
use crate::draft::Draft;
use crate::head::{Head, are_sizes, version_numbered};
use crate::values::{Context, Scope, Stacks};
use crate::walk::{after, body, first_of, own_len, upto};
use crate::words::{Source, bytes, line};
use qm_instr::Input;
use qm_limits::{MOST_HALVES, MOST_RANKS, SLOTS};
use qm_parse::{Node, Version, What};
use std::alloc::Global;

/// The programs of all ranks, from the nodes of a source tree.
pub(crate) fn expand(alloc: Global, source: &Source<'_>) -> Result<Input, ReadError>
    requires { AreWords source.now }
    ensures { Answers (λ p. p) result
        (walked (words_of source.now) (node_list source.now.tree.now)) }
{
    let nodes = source.tree.nodes();
    if nodes.len() < 2 {
        return Err(ReadError::OutOfRange { line: 1 });
    }
    let version = version_numbered(first_of(nodes).value);
    let behind = after(nodes, 1);
    let ranks = first_of(behind).value;
    expand_ranks(alloc, source, version, ranks, after(behind, 1))
}

/// The programs of so many ranks, from the nodes behind their number.
fn expand_ranks(
    alloc: Global,
    source: &Source<'_>,
    version: Version,
    ranks: u32,
    nodes: &[Node],
) -> Result<Input, ReadError>
    requires lie { AreWords source.now }
    requires few { length nodes.now < 2 ^ 32 }
    ensures { Answers (λ p. p) result
        (ranks_walk (words_of source.now) version ranks nodes.now) }
{
    let count = version.size_count(ranks) as usize;
    if !are_ranks(ranks, count, nodes.len()) {
        return Err(ReadError::OutOfRange { line: 1 });
    }
    let qubits = upto(nodes, count);
    let behind = after(nodes, count);
    let buffers = upto(behind, count);
    let head = Head {
        version,
        ranks: ranks as u16,
        qubits,
        buffers,
    };
    expand_sized(alloc, source, &head, after(behind, count))
}

/// Whether there are some ranks, but not too many, and nodes for so many slots and so many buffers.
fn are_ranks(ranks: u32, count: usize, nodes: usize) -> bool
    requires { count < 2 ^ 32 }
    ensures { result ≡ are_ranks ranks count nodes }
{
    1 <= ranks && ranks <= u32::from(MOST_RANKS) && count + count <= nodes
}

/// The programs of ranks with these sizes, from the nodes behind the head.
fn expand_sized(
    alloc: Global,
    source: &Source<'_>,
    head: &Head<'_>,
    nodes: &[Node],
) -> Result<Input, ReadError>
    requires lie { AreWords source.now }
    requires few { length nodes.now < 2 ^ 32 }
    requires head { AreCounted head.now }
    ensures { Answers (λ p. p) result
        (sized_walk (words_of source.now) head.now.version head.now.ranks
        head.now.qubits.now head.now.buffers.now
        (2 + length head.now.qubits.now + length head.now.buffers.now) nodes.now) }
{
    if !are_sizes(SLOTS, head.qubits) || !are_sizes(MOST_HALVES, head.buffers) {
        return Err(ReadError::OutOfRange { line: 1 });
    }
    let Ok(mut draft) = Draft::start(alloc, head) else {
        return Err(ReadError::Memory);
    };
    let numbers = 2 + head.qubits.len() + head.buffers.len();
    let used = expand_blocks(alloc, source, head.ranks, numbers, nodes, &mut draft)?;
    append_tapes(source, after(nodes, used), &mut draft)?;
    Ok(draft.input)
}

/// Expands the blocks of all ranks, behind so many nodes of the head, and says how many nodes they have.
fn expand_blocks(
    alloc: Global,
    source: &Source<'_>,
    ranks: u16,
    head: usize,
    nodes: &[Node],
    draft: &mut Draft,
) -> Result<usize, ReadError>
    requires lie { AreWords source.now }
    requires few { length nodes.now < 2 ^ 32 }
    requires head { head < 2 ^ 32 }
    requires ranks { ranks ≡ length draft.old.input.ranks }
    ensures answers { Answers (λ used. record { draft = draft_seen draft.new; used = used }) result
        (blocks_walked (words_of source.now) nodes.now head ranks 0 0 0
        (draft_seen draft.old)) }
    ensures used { IfOk result (λ used. used ≤ length nodes.now) }
{
    let mut at = 0;
    let mut used = 0;
    for rank in 0..ranks {
        let rest = after(nodes, at);
        if !rest.is_empty() {
            let block = first_of(rest);
            let behind = after(rest, 1);
            let len = own_len(block, head + at + 1, behind.len());
            let own = upto(behind, len);
            expand_block(alloc, source, rank, head + at + 1, own, draft)?;
            used = at + 1 + len;
            at = next_block(block, at, used);
        }
    }
    Ok(used)
}

/// Where the block of the next rank stands: a block for all ranks is that of the next one too.
fn next_block(block: Node, at: usize, behind: usize) -> usize
    ensures { result ≡ (if is_all block.what then at else behind) }
{
    match block.what {
        What::All => at,
        _ => behind,
    }
}

/// Expands the body of a rank.
fn expand_block(
    alloc: Global,
    source: &Source<'_>,
    rank: u16,
    number: usize,
    own: &[Node],
    draft: &mut Draft,
) -> Result<(), ReadError>
    requires lie { AreWords source.now }
    requires rank { rank < length draft.old.input.ranks }
    requires few { number + length own.now < 2 ^ 40 }
    ensures answers { (n : ℕ) → length own.now ≤ n → Answers (λ _. draft_seen draft.new) result
        (walk (words_of source.now) n (rank_scope draft.old.input rank)
        number own.now (draft_seen draft.old)) }
    ensures ranks { OnOk result (length draft.new.input.ranks ≡ length draft.old.input.ranks) }
{
    let scope = Scope {
        rank,
        ranks: draft.input.ranks(),
        qubits: draft.input.qubits(rank),
    };
    let context = Context {
        source: *source,
        scope,
    };
    let mut stacks = Stacks {
        names: Vec::new(alloc),
        numbers: Vec::new(alloc),
    };
    body(&context, number, own, &mut stacks, draft)
}

/// Appends the outcomes of the tape lines.
fn append_tapes(source: &Source<'_>, nodes: &[Node], draft: &mut Draft) -> Result<(), ReadError>
    requires { AreWords source.now }
    ensures { Answers (λ _. draft.new.input) result
        (tapes_walked (words_of source.now) nodes.now draft.old.input) }
{
    let mut rest = nodes;
    while rest.len() >= 3 {
        let first = first_of(rest);
        let behind = after(rest, 1);
        let rank = first_of(behind);
        let last = after(behind, 1);
        let bits = first_of(last);
        append_tape(source, first, rank, bits, draft)?;
        rest = after(last, 1);
    }
    Ok(())
}

/// Appends the outcomes of a tape line, which has three nodes.
fn append_tape(
    source: &Source<'_>,
    first: Node,
    rank: Node,
    bits: Node,
    draft: &mut Draft,
) -> Result<(), ReadError>
    requires { AreWords source.now }
    ensures { Answers (λ _. draft.new.input) result
        (tape_walked (words_of source.now) first rank bits draft.old.input) }
{
    let line = line(source, first.token);
    if rank.value >= u32::from(draft.input.ranks()) {
        return Err(ReadError::OutOfRange { line });
    }
    let word = bytes(source, bits.token as usize);
    draft.append(line, is_own(first.what), rank.value as u16, digits(word))
}

/// Whether a tape's line is that of an own tape.
fn is_own(what: What) -> bool
    ensures { result ≡ is_own what }
{
    what == What::Own
}

/// A word without its first letter.
fn digits(word: &[u8]) -> &[u8]
    ensures { result.now ≡ drop 1 word.now }
{
    if word.is_empty() { word } else { &word[1..] }
}
