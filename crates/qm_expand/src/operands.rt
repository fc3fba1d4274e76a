//! The operands of an instruction.

ghost use Rattle.std.specs.Prelude.{◌≡◌, ◌+◌, ◌<◌, ◌≤◌, IfOk, OnOk, length, Ok, []};
ghost use Rattle.qm_expand.specs.Values.{limit, with_value};
ghost use Rattle.qm_expand.specs.Walk.{Answers, with_operand, gathered_all};
ghost use Rattle.qm_expand.specs.Views.{AreWords, words_of, scope_in, widest, operands_seen, kept};

use crate::ReadError;
use crate::values::{Context, Names, limit, value, within};
use arrayvec::ArrayVec;
use qm_parse::{Node, Operand};

/// The operands of an instruction from left to right: slots, bits and truth values in one list, ranks and tags in the other; and how many
/// nodes they have.
#[derive(Drop)]
pub(crate) struct Operands {
    pub(crate) small: ArrayVec<u8, 4>,
    pub(crate) wide: ArrayVec<u16, 4>,
    pub(crate) used: usize,
}

/// The operands of these kinds at the front of these nodes.
pub(crate) fn gather(
    context: &Context<'_>,
    names: &Names,
    numbers: &mut Vec<i64>,
    line: u32,
    kinds: [Option<Operand>; 4],
    nodes: &[Node],
) -> Result<Operands, ReadError>
    requires { AreWords context.now.source }
    ensures answers { Answers operands_seen result
        (gathered_all (words_of context.now.source) line (scope_in context.now names.now.items) nodes.now kinds) }
    ensures used { IfOk result (λ o. o.used ≤ length nodes.now) }
{
    let mut found = Operands {
        small: ArrayVec::new(),
        wide: ArrayVec::new(),
        used: 0,
    };
    for k in 0..4 {
        if let Some(kind) = kinds[k] {
            take_operand(context, names, numbers, line, kind, nodes, &mut found)?;
        }
    }
    Ok(found)
}

/// One more operand, behind those that were found.
fn take_operand(
    context: &Context<'_>,
    names: &Names,
    numbers: &mut Vec<i64>,
    line: u32,
    kind: Operand,
    nodes: &[Node],
    found: &mut Operands,
) -> Result<(), ReadError>
    requires words { AreWords context.now.source }
    requires used { found.old.used ≤ length nodes.now }
    requires room { kept found.old < 4 }
    ensures answers { Answers (λ _. operands_seen found.new) result
        (with_operand (words_of context.now.source) line (scope_in context.now names.now.items) nodes.now kind
        (operands_seen found.old)) }
    ensures used { OnOk result (found.new.used ≤ length nodes.now) }
    ensures one { OnOk result (kept found.new ≡ kept found.old + 1) }
{
    let rest = &nodes[found.used..];
    let next = value(context, names, numbers, line, rest)?;
    let number = within(line, limit(context.scope, kind), next.value)?;
    keep(found, kind, number);
    found.used += next.used;
    Ok(())
}

/// Appends an operand to the list of its kind.
fn keep(found: &mut Operands, kind: Operand, number: u32)
    requires below { number < limit widest kind }
    requires room { kept found.old < 4 }
    ensures values { operands_seen found.new ≡ record {
      values = with_value kind number (operands_seen found.old).values;
      used = found.old.used;
    } }
    ensures one { kept found.new ≡ kept found.old + 1 }
{
    match kind {
        Operand::Slot | Operand::Bit | Operand::Truth => found.small.push(number as u8),
        Operand::Peer | Operand::Root | Operand::Tag => found.wide.push(number as u16),
    }
}
