//! What each rank of a made program does.

ghost use Rattle.std.specs.Prelude.{◌≡◌, ◌<◌, length, OnOk};
ghost use Rattle.qm_gen.specs.Sizes.{IsSize, ranks_of};
ghost use Rattle.qm_gen.specs.Made.{Appends, ring_body, ghz_body, parity_body, body_of, children, copy_lines};

use crate::lines::push_numbered;
use crate::{GenKind, MOST_GHZ};
use std::alloc::AllocError;

/// Appends what a rank does. `AllocError` comes from the allocator alone.
pub(crate) fn push_body(
    text: &mut Vec<u8>,
    kind: GenKind,
    size: u32,
    rank: u32,
) -> Result<(), AllocError>
    requires sized { IsSize kind size }
    requires known { rank < ranks_of kind size }
    ensures { OnOk result (Appends text.old.items text.new.items (body_of kind size rank)) }
{
    match kind {
        GenKind::Ring => push_ring(text, size, rank),
        GenKind::Ghz => push_ghz(text, size, rank),
        GenKind::Parity => push_parity(text, size, rank),
    }
}

/// Appends what a rank of a ring does.
fn push_ring(text: &mut Vec<u8>, size: u32, rank: u32) -> Result<(), AllocError>
    requires { rank < 4 }
    ensures { OnOk result (Appends text.old.items text.new.items (ring_body size rank)) }
{
    if rank == 0 {
        text.extend_from_slice(b"alloc 0\nh 0\nt 0\n")?;
        push_numbered(text, b"for i in 0..", size, b" {")?;
        text.extend_from_slice(b"moveto 0 1 1\nmovefrom 0 3 1\n}\n")?;
    } else {
        push_numbered(text, b"for i in 0..", size, b" {")?;
        push_numbered(text, b"movefrom 0 ", rank - 1, b" 1")?;
        push_numbered(text, b"moveto 0 ", (rank + 1) % 4, b" 1")?;
        text.extend_from_slice(b"}\n")?;
    }
    Ok(())
}

/// Appends what a rank of a GHZ state does.
fn push_ghz(text: &mut Vec<u8>, size: u32, rank: u32) -> Result<(), AllocError>
    requires { rank < MOST_GHZ }
    ensures { OnOk result (Appends text.old.items text.new.items (ghz_body size rank)) }
{
    if rank == 0 {
        text.extend_from_slice(b"alloc 0\nh 0\n")?;
    } else {
        push_numbered(text, b"copyfrom 0 ", (rank - 1) / 2, b" 1")?;
    }
    push_copies(text, size, rank)
}

/// Appends the copies of a rank of a GHZ state to those below it.
fn push_copies(text: &mut Vec<u8>, size: u32, rank: u32) -> Result<(), AllocError>
    requires { rank < MOST_GHZ }
    ensures { OnOk result
        (Appends text.old.items text.new.items (copy_lines (children size rank))) }
{
    if 2 * rank + 1 < size {
        push_numbered(text, b"copyto 0 ", 2 * rank + 1, b" 1")?;
    }
    if 2 * rank + 2 < size {
        push_numbered(text, b"copyto 0 ", 2 * rank + 2, b" 1")?;
    }
    Ok(())
}

/// How many copies a rank of a GHZ state makes.
pub(crate) fn child_count(size: u32, rank: u32) -> u32
    requires { rank < MOST_GHZ }
    ensures { result ≡ length (children size rank) }
{
    u32::from(2 * rank + 1 < size) + u32::from(2 * rank + 2 < size)
}

/// Appends what a rank of a parity does.
fn push_parity(text: &mut Vec<u8>, size: u32, rank: u32) -> Result<(), AllocError>
    ensures { OnOk result (Appends text.old.items text.new.items (parity_body size rank)) }
{
    text.extend_from_slice(b"alloc 0\n")?;
    push_numbered(text, b"for i in 0..", size, b" {")?;
    if rank == 0 {
        text.extend_from_slice(b"reachfrom 0 1 1\nreachfrom 0 2 1\nreachfrom 0 3 1\n")?;
        text.extend_from_slice(b"measure 0 0\nwhen 0 x 0\n}\n")?;
    } else {
        text.extend_from_slice(b"h 0\nreachto 0 0 1\n}\n")?;
    }
    Ok(())
}
