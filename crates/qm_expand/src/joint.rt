//! The calls that every rank writes, and of which each rank does its own part: the collectives, and those along a tree.

ghost use Rattle.std.specs.Prelude.{◌≡◌, ◌<◌, ◌≤◌, true, length, slice_get};
ghost use Rattle.qm_expand.specs.Expansion.{can_be_called, part_of};

use qm_collect::Collective;
use qm_instr::Instr;
use qm_limits::MOST_RANKS;
use qm_tree::TreeCall;

/// A call that every rank writes.
#[derive(Clone, Copy, Debug, PartialEq, Eq)]
pub enum Joint {
    /// A collective in which the root deals with each other rank itself.
    Flat(Collective),
    /// A collective along a tree.
    Tree(TreeCall),
}

/// How many instructions a rank does in a call.
pub(crate) fn part_len(which: Joint, rank: u16, ranks: u16) -> u32
    requires rank { rank < ranks }
    requires ranks { ranks ≤ MOST_RANKS }
    requires fits { can_be_called ranks which ≡ true }
    ensures { result ≡ length (part_of which rank ranks) }
{
    match which {
        Joint::Flat(call) => qm_collect::count(call, rank, ranks),
        Joint::Tree(call) => qm_tree::count(call, rank, ranks),
    }
}

/// A rank's instruction number `j` in a call, from 0; none where there are not as many.
pub(crate) fn part_at(which: Joint, rank: u16, ranks: u16, j: u32) -> Option<Instr>
    requires rank { rank < ranks }
    requires ranks { ranks ≤ MOST_RANKS }
    requires fits { can_be_called ranks which ≡ true }
    ensures { result ≡ slice_get (part_of which rank ranks) j }
{
    match which {
        Joint::Flat(call) => qm_collect::instr_at(call, rank, ranks, j),
        Joint::Tree(call) => qm_tree::instr_at(call, rank, ranks, j),
    }
}
