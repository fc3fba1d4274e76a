//! What the words of instructions and collectives make of their operands.

ghost use Rattle.std.specs.Prelude.{◌≡◌, slice_index};
ghost use Rattle.qm_tree.specs.Trees.{call_of};
ghost use Rattle.qm_expand.specs.Table.{gate_made, made};
ghost use Rattle.qm_expand.specs.declared.joint.Joint.TheVariants.{Flat, Tree};
ghost use Rattle.qm_expand.specs.declared.made.Operation.TheVariants.{Shared};

use crate::joint::Joint;
use crate::operands::Operands;
use qm_collect::Collective;
use qm_instr::{Gate, Instr};
use qm_parse::Action;
use qm_tree::{TreeCall, TreeOp};

/// What a written instruction or collective stands for, once its operands have values: what its word makes of them.
#[derive(Clone, Copy, Debug, PartialEq, Eq)]
pub enum Operation {
    /// One instruction of the rank in whose body it stands.
    Core(Instr),
    /// A call that every rank writes: the rank does the instructions that are its own part of it.
    Shared(Joint),
    /// Nothing by itself. A `when` is so: it makes an instruction only together with the gate that follows it.
    Nothing,
}

/// The operation that a word makes of its operands.
pub(crate) fn make(action: Action, operands: &Operands) -> Operation
    ensures { result ≡ made action (slice_index operands.now.small.items)
        (slice_index operands.now.wide.items) }
{
    let q = small(operands, 0);
    let t = small(operands, 1);
    let peer = wide(operands, 0);
    let tag = wide(operands, 1);
    match action {
        Action::Alloc => Operation::Core(Instr::Alloc { q }),
        Action::Free => Operation::Core(Instr::Free { q }),
        Action::One(g) => Operation::Core(Instr::Do {
            g: Gate::One { g, q },
        }),
        Action::Cx => Operation::Core(Instr::Do {
            g: Gate::Cx { c: q, t },
        }),
        Action::Cz => Operation::Core(Instr::Do {
            g: Gate::Cz { c: q, t },
        }),
        Action::Measure => Operation::Core(Instr::Measure { q, b: t }),
        Action::Set => Operation::Core(Instr::Set { b: q, v: t == 1 }),
        Action::Xor => Operation::Core(Instr::Xor { b: q, c: t }),
        Action::When => Operation::Nothing,
        Action::SendBit => Operation::Core(Instr::SendBit {
            b: q,
            to: peer,
            tag,
        }),
        Action::RecvBit => Operation::Core(Instr::RecvBit {
            b: q,
            from: peer,
            tag,
        }),
        Action::CopyTo => Operation::Core(Instr::CopyTo { q, to: peer, tag }),
        Action::CopyFrom => Operation::Core(Instr::CopyFrom { q, from: peer, tag }),
        Action::UndoTo => Operation::Core(Instr::UndoTo { q, to: peer, tag }),
        Action::UndoFrom => Operation::Core(Instr::UndoFrom { q, from: peer, tag }),
        Action::MoveTo => Operation::Core(Instr::MoveTo { q, to: peer, tag }),
        Action::MoveFrom => Operation::Core(Instr::MoveFrom { q, from: peer, tag }),
        Action::ReachTo => Operation::Core(Instr::ReachTo { q, to: peer, tag }),
        Action::ReachFrom => Operation::Core(Instr::ReachFrom {
            t: q,
            from: peer,
            tag,
        }),
        Action::Bcast => flat(Collective::Bcast { q, root: peer, tag }),
        Action::Unbcast => flat(Collective::Unbcast { q, root: peer, tag }),
        Action::Scatter => flat(Collective::Scatter { q, root: peer, tag }),
        Action::Gather => flat(Collective::Gather { q, root: peer, tag }),
        Action::Unscatter => flat(Collective::Unscatter { q, root: peer, tag }),
        Action::Ungather => flat(Collective::Ungather { q, root: peer, tag }),
        Action::Reduce => flat(Collective::Reduce {
            q,
            t,
            root: peer,
            tag,
        }),
        Action::Unreduce => flat(Collective::Unreduce {
            q,
            t,
            root: peer,
            tag,
        }),
        Action::Treecast => tree(TreeOp::Cast, q, peer, tag),
        Action::Untreecast => tree(TreeOp::Uncast, q, peer, tag),
    }
}

/// A collective.
fn flat(which: Collective) -> Operation
    ensures { result ≡ Shared (Flat which) }
{
    Operation::Shared(Joint::Flat(which))
}

/// A collective along a tree.
fn tree(op: TreeOp, q: u8, root: u16, tag: u16) -> Operation
    ensures { result ≡ Shared (Tree (call_of op q root tag)) }
{
    Operation::Shared(Joint::Tree(TreeCall { op, q, root, tag }))
}

/// The gate of a word, if it is a gate's.
pub(crate) fn gate_made(action: Action, operands: &Operands) -> Option<Gate>
    ensures { result ≡ gate_made action (slice_index operands.now.small.items) }
{
    let q = small(operands, 0);
    let t = small(operands, 1);
    match action {
        Action::One(g) => Some(Gate::One { g, q }),
        Action::Cx => Some(Gate::Cx { c: q, t }),
        Action::Cz => Some(Gate::Cz { c: q, t }),
        _ => None,
    }
}

/// The slot, bit or truth value with this number; 0 where there are not as many.
pub(crate) fn small(operands: &Operands, k: usize) -> u8
    ensures { result ≡ slice_index operands.now.small.items k }
{
    operands.small.get(k).copied().unwrap_or(0)
}

/// The rank or tag with this number; 0 where there are not as many.
fn wide(operands: &Operands, k: usize) -> u16
    ensures { result ≡ slice_index operands.now.wide.items k }
{
    operands.wide.get(k).copied().unwrap_or(0)
}
