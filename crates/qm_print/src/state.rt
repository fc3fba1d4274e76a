//! The state text, branch by branch.
ghost use Rattle.std.specs.Prelude.{◌∷◌, [], ◌++◌, ◌+◌, ◌^◌, ◌<◌, ◌≤◌, ◌≡◌, length, codes, decimal, slice_index, OnOk};
ghost use Rattle.qm_io.specs.Ends.{Puts};
ghost use Rattle.qm_zomega.specs.Zw.{value_of};
ghost use Rattle.qm_denot.specs.WireLists.{wires_of};
ghost use Rattle.qm_print.specs.Bits.{bits_lines};
ghost use Rattle.qm_print.specs.Branches.{GoesOn};
ghost use Rattle.qm_print.specs.Gathering.{Gathers};
ghost use Rattle.qm_print.specs.Slots.{AreLive, slots_text, slot_text};
ghost use Rattle.qm_print.specs.StateText.{head_lines, bits_text, branch_line, branch_lines, branch_count, state_lines, line_count};

use crate::branch::Branch;
use crate::lines::add_bits_line;
use crate::page::{Page, Piece};
use crate::{Head, Live};
use qm_denot::Amps;
use qm_io::{Failed, Sink};
use qm_limits::MOST_RANKS;
use qm_zomega::Zw;

/// The bit string of a branch, as it is written.
fn bits_text<'a>(bits: &'a [u8]) -> &'a [u8]
    ensures { result.now ≡ bits_text bits.now }
{
    if bits.is_empty() { b"-" } else { bits }
}

/// Adds the line of a branch.
fn add_branch<O: Sink>(
    page: &mut Page,
    sink: &mut O,
    bits: &[u8],
    numerator: Zw,
) -> Result<(), Failed>
    ensures { Gathers (O.seen sink.old) (O.seen sink.new) page.old page.new
        (branch_line bits.now (value_of numerator)) result }
{
    page.put_all(
        sink,
        &[
            Piece::Text(bits_text(bits)),
            Piece::Text(b" "),
            Piece::Signed(numerator.a),
            Piece::Text(b" "),
            Piece::Signed(numerator.b),
            Piece::Text(b" "),
            Piece::Signed(numerator.c),
            Piece::Text(b" "),
            Piece::Signed(numerator.d),
            Piece::Text(b"\n"),
        ],
    )
}

/// Adds the line of a branch over all slots, unless its numerator is zero.
fn add_whole_branch<A: Amps, O: Sink>(
    page: &mut Page,
    sink: &mut O,
    amps: &A,
    branch: &Branch,
) -> Result<(), Failed>
    requires { GoesOn (A.store amps.now).live branch.now [] }
    ensures { Gathers (O.seen sink.old) (O.seen sink.new) page.old page.new
        (branch_lines (A.store amps.now).value branch.now.bits
        (wires_of branch.now.ones) []) result }
{
    let numerator = amps.value(branch.ones());
    if numerator.is_zero() {
        return Ok(());
    }
    add_branch(page, sink, branch.bits(), numerator)
}

/// Adds the lines of the branches that go on from this one over more slots.
fn add_branches<A: Amps, O: Sink>(
    page: &mut Page,
    sink: &mut O,
    amps: &A,
    slots: &[Live],
    branch: &mut Branch,
) -> Result<(), Failed>
    requires { GoesOn (A.store amps.now).live branch.old slots.now }
    ensures gathers { Gathers (O.seen sink.old) (O.seen sink.new) page.old page.new
        (branch_lines (A.store amps.now).value branch.old.bits (wires_of branch.old.ones) slots.now)
        result }
    ensures back { OnOk result (branch.new ≡ branch.old) }
{
    match slots {
        [] => add_whole_branch(page, sink, amps, branch),
        [slot, rest @ ..] => {
            branch.enter_zero();
            add_branches(page, sink, amps, rest, branch)?;
            branch.leave_zero();
            branch.enter_one(slot.wire);
            add_branches(page, sink, amps, rest, branch)?;
            branch.leave_one();
            Ok(())
        }
    }
}

/// How many of the branches that go on from this one over more slots aren't zero.
fn count_branches<A: Amps>(amps: &A, slots: &[Live], branch: &mut Branch) -> u64
    requires { GoesOn (A.store amps.now).live branch.old slots.now }
    ensures count { result
        ≡ branch_count (A.store amps.now).value (wires_of branch.old.ones) slots.now }
    ensures few { result ≤ 2 ^ length slots.now }
    ensures back { branch.new ≡ branch.old }
{
    match slots {
        [] => u64::from(!amps.value(branch.ones()).is_zero()),
        [slot, rest @ ..] => {
            branch.enter_zero();
            let zero = count_branches(amps, rest, branch);
            branch.leave_zero();
            branch.enter_one(slot.wire);
            let one = count_branches(amps, rest, branch);
            branch.leave_one();
            zero + one
        }
    }
}

/// Adds ` RANK.SLOT`.
fn add_slot<O: Sink>(page: &mut Page, sink: &mut O, full: Live) -> Result<(), Failed>
    ensures { Gathers (O.seen sink.old) (O.seen sink.new) page.old page.new
        (slot_text full) result }
{
    page.put_all(
        sink,
        &[
            Piece::Text(b" "),
            Piece::Number(u64::from(full.rank)),
            Piece::Text(b"."),
            Piece::Number(u64::from(full.slot)),
        ],
    )
}

/// Adds ` RANK.SLOT` for each full slot.
fn add_slots<O: Sink>(page: &mut Page, sink: &mut O, slots: &[Live]) -> Result<(), Failed>
    ensures { Gathers (O.seen sink.old) (O.seen sink.new) page.old page.new
        (slots_text slots.now) result }
{
    for full in slots {
        add_slot(page, sink, *full)?;
    }
    Ok(())
}

/// Adds the lines before the bits.
fn add_head<O: Sink>(page: &mut Page, sink: &mut O, head: &Head) -> Result<(), Failed>
    ensures { Gathers (O.seen sink.old) (O.seen sink.new) page.old page.new
        (head_lines head.now.ranks head.now.protocol head.now.scale) result }
{
    page.put_all(
        sink,
        &[
            Piece::Text(b"state 1\nranks "),
            Piece::Number(u64::from(head.ranks)),
            Piece::Text(b"\nprotocol "),
            Piece::Number(head.protocol),
            Piece::Text(b"\nscale "),
            Piece::Number(head.scale),
            Piece::Text(b"\n"),
        ],
    )
}

/// Adds the lines of the ranks' classical bits.
fn add_bits<O: Sink>(page: &mut Page, sink: &mut O, head: &Head) -> Result<(), Failed>
    requires { head.now.ranks ≤ MOST_RANKS }
    ensures { Gathers (O.seen sink.old) (O.seen sink.new) page.old page.new
        (bits_lines head.now.ranks (slice_index head.now.bits)) result }
{
    for rank in 0..head.ranks {
        add_bits_line(page, sink, rank, head.bits[usize::from(rank)])?;
    }
    Ok(())
}

/// Adds the state text.
fn add_state<A: Amps, O: Sink>(
    page: &mut Page,
    sink: &mut O,
    head: &Head,
    live: &[Live],
    amps: &A,
) -> Result<(), Failed>
    requires ranks { head.now.ranks ≤ MOST_RANKS }
    requires live { AreLive (A.store amps.now).live live.now }
    ensures { Gathers (O.seen sink.old) (O.seen sink.new) page.old page.new
        (state_lines head.now.ranks head.now.protocol head.now.scale (slice_index head.now.bits)
        live.now (A.store amps.now).value) result }
{
    add_head(page, sink, head)?;
    add_bits(page, sink, head)?;
    page.put(sink, b"live")?;
    add_slots(page, sink, live)?;
    page.put(sink, b"\n")?;
    add_branches(page, sink, amps, live, &mut Branch::start())?;
    page.put(sink, b"end\n")
}

/// Writes the state text of these full slots: a line for each bit string over them, in rising order, whose numerator isn't zero.
///
/// There are at most [`MOST_RANKS`] ranks and [`qm_limits::MOST_CAPACITY`] slots; the slots hold different live wires.
pub fn put_state<A: Amps, O: Sink>(
    sink: &mut O,
    head: &Head,
    live: &[Live],
    amps: &A,
) -> Result<(), Failed>
    requires ranks { head.now.ranks ≤ MOST_RANKS }
    requires live { AreLive (A.store amps.now).live live.now }
    ensures { Puts (O.seen sink.old) (O.seen sink.new)
        (state_lines head.now.ranks head.now.protocol head.now.scale (slice_index head.now.bits)
        live.now (A.store amps.now).value) result }
{
    let mut page = Page::blank();
    add_state(&mut page, sink, head, live, amps)?;
    page.write_out(sink)
}

/// How many amplitude lines the state text of these full slots has. The slots, at most [`qm_limits::MOST_CAPACITY`], hold different
/// live wires.
pub fn count_lines<A: Amps>(live: &[Live], amps: &A) -> u64
    requires { AreLive (A.store amps.now).live live.now }
    ensures { result ≡ line_count (A.store amps.now).value live.now }
{
    count_branches(amps, live, &mut Branch::start())
}
