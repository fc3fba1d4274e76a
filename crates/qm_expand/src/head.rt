//! The head of a text: its version, its number of ranks, and the nodes of their sizes.

ghost use Rattle.std.specs.Prelude.{◌≡◌, ◌≤◌, slice_index};
ghost use Rattle.qm_expand.specs.Walk.{are_sizes, numbers_in, size_at, version_numbered};

use qm_parse::{Node, Version};

/// The numbers of a head.
#[derive(Clone, Copy)]
pub(crate) struct Head<'a> {
    pub(crate) version: Version,
    pub(crate) ranks: u16,
    /// The nodes of the slots: one for all ranks, or one for each, by the version.
    pub(crate) qubits: &'a [Node],
    /// The nodes of the buffers, of which there are as many.
    pub(crate) buffers: &'a [Node],
}

/// The version with a number.
pub(crate) fn version_numbered(number: u32) -> Version
    ensures { result ≡ version_numbered number }
{
    if number == 2 {
        Version::Two
    } else {
        Version::One
    }
}

/// Whether each of these nodes has a number from 1 up to the largest.
pub(crate) fn are_sizes(most: u8, nodes: &[Node]) -> bool
    ensures { result ≡ are_sizes most nodes.now }
{
    nodes
        .iter()
        .all(|node| 1 <= node.value && node.value <= u32::from(most))
}

/// The size of a rank, where these are written; 0 where there is none.
pub(crate) fn size_of(version: Version, sizes: &[Node], rank: u16) -> u8
    requires { size_at version (numbers_in sizes.now) rank ≤ 255 }
    ensures { result ≡ size_at version (numbers_in sizes.now) rank }
{
    match version {
        Version::One => size_in(sizes, 0),
        Version::Two => size_in(sizes, usize::from(rank)),
    }
}

/// The number of a node; 0 where there is none.
fn size_in(sizes: &[Node], index: usize) -> u8
    requires { slice_index (numbers_in sizes.now) index ≤ 255 }
    ensures { result ≡ slice_index (numbers_in sizes.now) index }
{
    match sizes.get(index) {
        Some(node) => node.value as u8,
        None => 0,
    }
}
