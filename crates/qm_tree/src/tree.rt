//! The tree of the ranks: which rank stands above a rank, which stand below it, and how deep it is.

ghost use Rattle.std.specs.Prelude.{◌≡◌, ◌<◌, ◌≤◌, IfSome, length, slice_get};
ghost use Rattle.std.specs.Option.{option_to_list};
ghost use Rattle.qm_tree.specs.Trees.{IsDepth, children, parents, place, place_above, rank_at};

use qm_limits::MOST_RANKS;

/// How many copies lie between the root and a rank.
///
/// The rank and the root are below the number of ranks, of which there are at most [`MOST_RANKS`].
pub fn depth(rank: u16, root: u16, ranks: u16) -> u32
    requires rank { rank < ranks }
    requires root { root < ranks }
    requires ranks { ranks ≤ MOST_RANKS }
    ensures { IsDepth (place rank root ranks) result }
{
    let mut v = place(rank, root, ranks);
    let mut copies = 0;
    while v > 0 {
        v = place_above(v);
        copies += 1;
    }
    copies
}

/// How far a rank is behind the root, cyclically.
fn place(rank: u16, root: u16, ranks: u16) -> u16
    requires rank { rank < ranks }
    requires root { root < ranks }
    requires ranks { ranks ≤ MOST_RANKS }
    ensures value { result ≡ place rank root ranks }
    ensures below { result < ranks }
{
    (rank + ranks - root) % ranks
}

/// The rank at a place.
fn rank_at(v: u16, root: u16, ranks: u16) -> u16
    requires place { v < ranks }
    requires root { root < ranks }
    requires ranks { ranks ≤ MOST_RANKS }
    ensures { result ≡ rank_at v root ranks }
{
    (v + root) % ranks
}

/// The place above a place other than 0.
fn place_above(v: u16) -> u16
    requires { 0 < v }
    ensures value { result ≡ place_above v }
    ensures above { result < v }
{
    (v - 1) / 2
}

/// The rank from which a rank gets its copy; none at the root.
pub(crate) fn parent(rank: u16, root: u16, ranks: u16) -> Option<u16>
    requires rank { rank < ranks }
    requires root { root < ranks }
    requires ranks { ranks ≤ MOST_RANKS }
    ensures { option_to_list result ≡ parents rank root ranks }
{
    let v = place(rank, root, ranks);
    if v == 0 {
        None
    } else {
        Some(rank_at(place_above(v), root, ranks))
    }
}

/// How many ranks get their copies from a rank.
pub(crate) fn child_count(rank: u16, root: u16, ranks: u16) -> u32
    requires rank { rank < ranks }
    requires root { root < ranks }
    requires ranks { ranks ≤ MOST_RANKS }
    ensures value { result ≡ length (children rank root ranks) }
    ensures few { result ≤ 2 }
{
    let v = place(rank, root, ranks);
    u32::from(2 * v + 1 < ranks) + u32::from(2 * v + 2 < ranks)
}

/// The `k`-th of these ranks, from 0 and in the order of their places.
pub(crate) fn child(rank: u16, root: u16, ranks: u16, k: u32) -> Option<u16>
    requires rank { rank < ranks }
    requires root { root < ranks }
    requires ranks { ranks ≤ MOST_RANKS }
    ensures { result ≡ slice_get (children rank root ranks) k }
{
    if k >= child_count(rank, root, ranks) {
        return None;
    }
    let v = 2 * place(rank, root, ranks) + 1 + k as u16;
    Some(rank_at(v, root, ranks))
}
