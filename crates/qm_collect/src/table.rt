//! The table of the collectives: which instructions each rank does.

ghost use Rattle.std.specs.Prelude.{◌≡◌, ◌+◌, ◌<◌, ◌≤◌, All, IfSome, length, slice_get};
ghost use Rattle.std.specs.Option.{option_map, option_to_list};
ghost use Rattle.qm_collect.specs.Table.{root_of, slots_of, line_of, others, instructions_at};

use crate::Collective;
use qm_instr::{Gate, Instr};
use qm_limits::{MOST_RANKS, SLOTS};

/// How many instructions a rank does in a collective, at most [`MOST_RANKS`].
///
/// The rank and the root are below the number of ranks, of which there are at most [`MOST_RANKS`]; slots are below [`SLOTS`].
pub fn count(which: Collective, rank: u16, ranks: u16) -> u32
    requires rank { rank < ranks }
    requires root { root_of which < ranks }
    requires ranks { ranks ≤ MOST_RANKS }
    requires slots { All (λ q. q < SLOTS) (slots_of which) }
    ensures { result ≡ length (instructions_at which rank ranks) }
{
    if rank != root(which) {
        return 1;
    }
    let messages = u32::from(ranks) - 1;
    match own_gate(which) {
        None => messages,
        Some(_) => messages + 1,
    }
}

/// A rank's instruction number `j` in a collective, from 0. `None` exactly where `j` is not below the count.
///
/// The rank and the root are below the number of ranks, of which there are at most [`MOST_RANKS`]; slots are below [`SLOTS`].
pub fn instr_at(which: Collective, rank: u16, ranks: u16, j: u32) -> Option<Instr>
    requires rank { rank < ranks }
    requires root { root_of which < ranks }
    requires ranks { ranks ≤ MOST_RANKS }
    requires slots { All (λ q. q < SLOTS) (slots_of which) }
    ensures { result ≡ slice_get (instructions_at which rank ranks) j }
{
    if rank != root(which) {
        return if j == 0 { Some(elsewhere(which)) } else { None };
    }
    match own_gate(which) {
        None => message(which, ranks, j),
        Some(gate) => {
            if j == 0 {
                Some(gate)
            } else {
                message(which, ranks, j - 1)
            }
        }
    }
}

/// The rank that deals out or gathers in.
fn root(which: Collective) -> u16
    ensures { result ≡ root_of which }
{
    match which {
        Collective::Bcast { root, .. }
        | Collective::Unbcast { root, .. }
        | Collective::Scatter { root, .. }
        | Collective::Gather { root, .. }
        | Collective::Unscatter { root, .. }
        | Collective::Ungather { root, .. }
        | Collective::Reduce { root, .. }
        | Collective::Unreduce { root, .. } => root,
    }
}

/// The root's gate on its own qubits, before its messages.
fn own_gate(which: Collective) -> Option<Instr>
    ensures { option_to_list result ≡ (line_of which).own }
{
    match which {
        Collective::Reduce { q, t, .. } | Collective::Unreduce { q, t, .. } => Some(Instr::Do {
            g: Gate::Cx { c: q, t },
        }),
        _ => None,
    }
}

/// The root's message number `j`: to or from rank `j` below the root, and rank `j + 1` from the root on.
fn message(which: Collective, ranks: u16, j: u32) -> Option<Instr>
    requires root { root_of which < ranks }
    requires ranks { ranks ≤ MOST_RANKS }
    requires slots { All (λ q. q < SLOTS) (slots_of which) }
    ensures { result ≡ option_map (line_of which).message
        (slice_get (others (root_of which) ranks) j) }
{
    let d = other(root(which), ranks, j)?;
    Some(message_with(which, d))
}

/// The `j`-th of the ranks but the root, from 0.
fn other(root: u16, ranks: u16, j: u32) -> Option<u16>
    requires root { root < ranks }
    requires ranks { ranks ≤ MOST_RANKS }
    ensures value { result ≡ slice_get (others root ranks) j }
    ensures below { IfSome result (λ d. d < MOST_RANKS) }
{
    if j < u32::from(root) {
        Some(j as u16)
    } else if j < u32::from(ranks) - 1 {
        Some(j as u16 + 1)
    } else {
        None
    }
}

/// The root's message to or from rank `d`.
fn message_with(which: Collective, d: u16) -> Instr
    requires rank { d < MOST_RANKS }
    requires slots { All (λ q. q < SLOTS) (slots_of which) }
    ensures { result ≡ (line_of which).message d }
{
    match which {
        Collective::Bcast { q, tag, .. } => Instr::CopyTo { q, to: d, tag },
        Collective::Unbcast { q, tag, .. } => Instr::UndoFrom { q, from: d, tag },
        Collective::Scatter { q, tag, .. } | Collective::Ungather { q, tag, .. } => Instr::MoveTo {
            q: dealt_slot(q, d),
            to: d,
            tag,
        },
        Collective::Gather { q, tag, .. } | Collective::Unscatter { q, tag, .. } => {
            Instr::MoveFrom {
                q: dealt_slot(q, d),
                from: d,
                tag,
            }
        }
        Collective::Reduce { t, tag, .. } | Collective::Unreduce { t, tag, .. } => {
            Instr::ReachFrom { t, from: d, tag }
        }
    }
}

/// The root's slot for the qubit of rank `d`.
fn dealt_slot(q: u8, d: u16) -> u8
    requires slot { q < SLOTS }
    requires rank { d < MOST_RANKS }
    ensures { result ≡ q + d }
{
    q + d as u8
}

/// The one instruction of each rank but the root.
fn elsewhere(which: Collective) -> Instr
    ensures { result ≡ (line_of which).elsewhere }
{
    match which {
        Collective::Bcast { q, root, tag } => Instr::CopyFrom { q, from: root, tag },
        Collective::Unbcast { q, root, tag } => Instr::UndoTo { q, to: root, tag },
        Collective::Scatter { q, root, tag } | Collective::Ungather { q, root, tag } => {
            Instr::MoveFrom { q, from: root, tag }
        }
        Collective::Gather { q, root, tag } | Collective::Unscatter { q, root, tag } => {
            Instr::MoveTo { q, to: root, tag }
        }
        Collective::Reduce { q, root, tag, .. } | Collective::Unreduce { q, root, tag, .. } => {
            Instr::ReachTo { q, to: root, tag }
        }
    }
}
