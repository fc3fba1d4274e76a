//! The table of the calls: which instructions each rank does.

ghost use Rattle.std.specs.Prelude.{◌≡◌, ◌<◌, ◌≤◌, length, slice_get};
ghost use Rattle.std.specs.Option.{option_map};
ghost use Rattle.qm_tree.specs.Trees.{children, instructions_at, with_child, with_parent};
ghost use Rattle.qm_tree.specs.declared.TreeOp.TheVariants.{Cast, Uncast};

use crate::tree::{child, child_count, parent};
use crate::{TreeCall, TreeOp};
use qm_instr::Instr;
use qm_limits::MOST_RANKS;

/// How many instructions a rank does in a call: one for its parent, if it has one, and one for each child.
///
/// The rank and the root are below the number of ranks, of which there are at most [`MOST_RANKS`].
pub fn count(call: TreeCall, rank: u16, ranks: u16) -> u32
    requires rank { rank < ranks }
    requires root { call.root < ranks }
    requires ranks { ranks ≤ MOST_RANKS }
    ensures { result ≡ length (instructions_at call rank ranks) }
{
    let below = child_count(rank, call.root, ranks);
    match parent(rank, call.root, ranks) {
        None => below,
        Some(_) => below + 1,
    }
}

/// A rank's instruction number `j` in a call, from 0. `None` exactly where `j` is not below the count.
///
/// The rank and the root are below the number of ranks, of which there are at most [`MOST_RANKS`].
pub fn instr_at(call: TreeCall, rank: u16, ranks: u16, j: u32) -> Option<Instr>
    requires rank { rank < ranks }
    requires root { call.root < ranks }
    requires ranks { ranks ≤ MOST_RANKS }
    ensures { result ≡ slice_get (instructions_at call rank ranks) j }
{
    match call.op {
        TreeOp::Cast => cast_at(call, rank, ranks, j),
        TreeOp::Uncast => uncast_at(call, rank, ranks, j),
    }
}

/// The same of a copy that comes down: first from the parent, then to the children.
fn cast_at(call: TreeCall, rank: u16, ranks: u16, j: u32) -> Option<Instr>
    requires op { call.op ≡ Cast }
    requires rank { rank < ranks }
    requires root { call.root < ranks }
    requires ranks { ranks ≤ MOST_RANKS }
    ensures { result ≡ slice_get (instructions_at call rank ranks) j }
{
    match parent(rank, call.root, ranks) {
        None => message_down(call, rank, ranks, j),
        Some(from) => {
            if j == 0 {
                Some(message_up(call, from))
            } else {
                message_down(call, rank, ranks, j - 1)
            }
        }
    }
}

/// The same of a copy that goes back: first those of the children, then the rank's own.
fn uncast_at(call: TreeCall, rank: u16, ranks: u16, j: u32) -> Option<Instr>
    requires op { call.op ≡ Uncast }
    requires rank { rank < ranks }
    requires root { call.root < ranks }
    requires ranks { ranks ≤ MOST_RANKS }
    ensures { result ≡ slice_get (instructions_at call rank ranks) j }
{
    if j == child_count(rank, call.root, ranks) {
        let to = parent(rank, call.root, ranks)?;
        return Some(message_up(call, to));
    }
    message_down(call, rank, ranks, j)
}

/// A rank's message with its child number `k`.
fn message_down(call: TreeCall, rank: u16, ranks: u16, k: u32) -> Option<Instr>
    requires rank { rank < ranks }
    requires root { call.root < ranks }
    requires ranks { ranks ≤ MOST_RANKS }
    ensures { result ≡ option_map (with_child call.op call.q call.tag)
        (slice_get (children rank call.root ranks) k) }
{
    let c = child(rank, call.root, ranks, k)?;
    Some(match call.op {
        TreeOp::Cast => Instr::CopyTo {
            q: call.q,
            to: c,
            tag: call.tag,
        },
        TreeOp::Uncast => Instr::UndoFrom {
            q: call.q,
            from: c,
            tag: call.tag,
        },
    })
}

/// A rank's message with its parent.
fn message_up(call: TreeCall, p: u16) -> Instr
    ensures { result ≡ with_parent call.op call.q call.tag p }
{
    match call.op {
        TreeOp::Cast => Instr::CopyFrom {
            q: call.q,
            from: p,
            tag: call.tag,
        },
        TreeOp::Uncast => Instr::UndoTo {
            q: call.q,
            to: p,
            tag: call.tag,
        },
    }
}
