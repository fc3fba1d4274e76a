//! The programs of all ranks of a made program.

ghost use Rattle.std.specs.Prelude.{◌<◌, ◌≡◌, OnOk};
ghost use Rattle.qm_gen.specs.Sizes.{IsSize, ranks_of};
ghost use Rattle.qm_gen.specs.Made.{Appends, head_lines, rank_lines, program_lines};

use crate::GenKind;
use crate::bodies::push_body;
use crate::lines::push_numbered;
use std::alloc::AllocError;

/// How many ranks rings and parities have.
const RING_RANKS: u32 = 4;

/// How many ranks a made program has.
pub(crate) fn rank_count(kind: GenKind, size: u32) -> u32
    ensures { result ≡ ranks_of kind size }
{
    match kind {
        GenKind::Ring | GenKind::Parity => RING_RANKS,
        GenKind::Ghz => size,
    }
}

/// Appends the sizes and the programs of all ranks. `AllocError` comes from the allocator alone.
pub(crate) fn push_program(text: &mut Vec<u8>, kind: GenKind, size: u32) -> Result<(), AllocError>
    requires { IsSize kind size }
    ensures { OnOk result (Appends text.old.items text.new.items (program_lines kind size)) }
{
    let ranks = rank_count(kind, size);
    push_head(text, ranks)?;
    for rank in 0..ranks {
        push_rank(text, kind, size, rank)?;
    }
    Ok(())
}

/// Appends the sizes.
fn push_head(text: &mut Vec<u8>, ranks: u32) -> Result<(), AllocError>
    ensures { OnOk result (Appends text.old.items text.new.items (head_lines ranks)) }
{
    text.extend_from_slice(b"qmpi 1\n")?;
    push_numbered(text, b"ranks ", ranks, b"")?;
    text.extend_from_slice(b"qubits 1\nbuffer 1\n")?;
    Ok(())
}

/// Appends the program of a rank.
fn push_rank(text: &mut Vec<u8>, kind: GenKind, size: u32, rank: u32) -> Result<(), AllocError>
    requires sized { IsSize kind size }
    requires known { rank < ranks_of kind size }
    ensures { OnOk result (Appends text.old.items text.new.items (rank_lines kind size rank)) }
{
    push_numbered(text, b"rank ", rank, b"")?;
    push_body(text, kind, size, rank)?;
    text.extend_from_slice(b"end\n")?;
    Ok(())
}
