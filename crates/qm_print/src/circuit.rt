//! The circuit text.
ghost use Rattle.std.specs.Prelude.{◌<◌, ◌≤◌, ◌≡◌, ◌++◌, length};
ghost use Rattle.qm_io.specs.Ends.{Puts};
ghost use Rattle.qm_instr.specs.Programs.{rank_of};
ghost use Rattle.qm_instr.specs.Bits.{number_of_bits};
ghost use Rattle.qm_ideal.specs.OneCircuits.{IsOneCircuit, bits_of, slot_of};
ghost use Rattle.qm_print.specs.Bits.{bits_lines};
ghost use Rattle.qm_print.specs.CircuitText.{circuit_head, circuit_text, letter_line, letter_lines, letters_head, one_line, outcome_text, phase_line, projection_line, two_line};
ghost use Rattle.qm_print.specs.Gathering.{Gathers};
ghost use Rattle.qm_print.specs.Slots.{full_slots, rank_slots, slot_if, slot_line, slot_lines};

use crate::Live;
use crate::lines::add_bits_line;
use crate::page::{Page, Piece};
use qm_check::Ready;
use qm_denot::{Letter, Wire};
use qm_ideal::OneCircuit;
use qm_instr::Input;
use qm_io::{Failed, Sink};

/// Adds the line of a phase.
fn add_phase<O: Sink>(page: &mut Page, sink: &mut O, k: u8, w: Wire) -> Result<(), Failed>
    ensures { Gathers (O.seen sink.old) (O.seen sink.new) page.old page.new
        (phase_line k w) result }
{
    page.put_all(
        sink,
        &[
            Piece::Text(b"phase "),
            Piece::Number(u64::from(k)),
            Piece::Text(b" "),
            Piece::Wire(w),
            Piece::Text(b"\n"),
        ],
    )
}

/// Adds the line of a letter on one wire.
fn add_one<O: Sink>(page: &mut Page, sink: &mut O, name: &[u8], w: Wire) -> Result<(), Failed>
    ensures { Gathers (O.seen sink.old) (O.seen sink.new) page.old page.new
        (one_line name.now w) result }
{
    page.put_all(
        sink,
        &[Piece::Text(name), Piece::Wire(w), Piece::Text(b"\n")],
    )
}

/// Adds the line of a letter on two wires.
fn add_two<O: Sink>(
    page: &mut Page,
    sink: &mut O,
    name: &[u8],
    a: Wire,
    b: Wire,
) -> Result<(), Failed>
    ensures { Gathers (O.seen sink.old) (O.seen sink.new) page.old page.new
        (two_line name.now a b) result }
{
    page.put_all(
        sink,
        &[
            Piece::Text(name),
            Piece::Wire(a),
            Piece::Text(b" "),
            Piece::Wire(b),
            Piece::Text(b"\n"),
        ],
    )
}

/// An outcome, as it is written.
fn outcome_text(m: bool) -> &'static [u8]
    ensures { result.now ≡ outcome_text m }
{
    if m { b"1" } else { b"0" }
}

/// Adds the line of a projection.
fn add_projection<O: Sink>(
    page: &mut Page,
    sink: &mut O,
    name: &[u8],
    w: Wire,
    m: bool,
) -> Result<(), Failed>
    ensures { Gathers (O.seen sink.old) (O.seen sink.new) page.old page.new
        (projection_line name.now w m) result }
{
    page.put_all(
        sink,
        &[
            Piece::Text(name),
            Piece::Wire(w),
            Piece::Text(b" "),
            Piece::Text(outcome_text(m)),
            Piece::Text(b"\n"),
        ],
    )
}

/// Adds the line of a letter.
fn add_letter<O: Sink>(page: &mut Page, sink: &mut O, letter: Letter) -> Result<(), Failed>
    ensures { Gathers (O.seen sink.old) (O.seen sink.new) page.old page.new
        (letter_line letter) result }
{
    match letter {
        Letter::Phase { k, w } => add_phase(page, sink, k, w),
        Letter::Flip { w } => add_one(page, sink, b"flip ", w),
        Letter::Had { w } => add_one(page, sink, b"had ", w),
        Letter::Cx { c, t } => add_two(page, sink, b"cx ", c, t),
        Letter::Cz { c, t } => add_two(page, sink, b"cz ", c, t),
        Letter::Pair { a, b } => add_two(page, sink, b"pair ", a, b),
        Letter::Keep { w, m } => add_projection(page, sink, b"keep ", w, m),
        Letter::Take { w, m } => add_projection(page, sink, b"take ", w, m),
        Letter::Rename { a, b } => add_two(page, sink, b"rename ", a, b),
    }
}

/// Adds the lines of letters.
fn add_letters<O: Sink>(page: &mut Page, sink: &mut O, letters: &[Letter]) -> Result<(), Failed>
    ensures { Gathers (O.seen sink.old) (O.seen sink.new) page.old page.new
        (letter_lines letters.now) result }
{
    for letter in letters {
        add_letter(page, sink, *letter)?;
    }
    Ok(())
}

/// Adds the line of a full slot with its wire.
fn add_slot<O: Sink>(page: &mut Page, sink: &mut O, full: Live) -> Result<(), Failed>
    ensures { Gathers (O.seen sink.old) (O.seen sink.new) page.old page.new
        (slot_line full) result }
{
    page.put_all(
        sink,
        &[
            Piece::Text(b"slot "),
            Piece::Number(u64::from(full.rank)),
            Piece::Text(b" "),
            Piece::Number(u64::from(full.slot)),
            Piece::Text(b" "),
            Piece::Wire(full.wire),
            Piece::Text(b"\n"),
        ],
    )
}

/// Adds the line of a slot, if it is full.
fn add_slot_if<O: Sink>(
    page: &mut Page,
    sink: &mut O,
    rank: u16,
    slot: u8,
    content: Option<Wire>,
) -> Result<(), Failed>
    ensures { Gathers (O.seen sink.old) (O.seen sink.new) page.old page.new
        (slot_lines (slot_if rank slot content)) result }
{
    match content {
        Some(wire) => add_slot(page, sink, Live { rank, slot, wire }),
        None => Ok(()),
    }
}

/// Adds the lines of the full ones of a rank's slots.
fn add_rank_slots<O: Sink>(
    page: &mut Page,
    sink: &mut O,
    mono: &OneCircuit,
    rank: u16,
    slots: u8,
) -> Result<(), Failed>
    ensures { Gathers (O.seen sink.old) (O.seen sink.new) page.old page.new
        (slot_lines (rank_slots rank slots (slot_of mono.now rank))) result }
{
    for slot in 0..slots {
        add_slot_if(page, sink, rank, slot, mono.slot(rank, slot))?;
    }
    Ok(())
}

/// Adds the lines of the full slots of all ranks.
fn add_slots<O: Sink>(
    page: &mut Page,
    sink: &mut O,
    mono: &OneCircuit,
    input: &Input,
) -> Result<(), Failed>
    ensures { Gathers (O.seen sink.old) (O.seen sink.new) page.old page.new
        (slot_lines (full_slots input.now (slot_of mono.now))) result }
{
    for rank in 0..input.ranks() {
        add_rank_slots(page, sink, mono, rank, input.qubits(rank))?;
    }
    Ok(())
}

/// Adds the lines of the ranks' classical bits.
fn add_bits<O: Sink>(
    page: &mut Page,
    sink: &mut O,
    mono: &OneCircuit,
    ranks: u16,
) -> Result<(), Failed>
    requires { ranks ≡ length mono.now.ranks }
    ensures { Gathers (O.seen sink.old) (O.seen sink.new) page.old page.new
        (bits_lines ranks (λ r. number_of_bits (bits_of mono.now r))) result }
{
    for rank in 0..ranks {
        add_bits_line(page, sink, rank, mono.bits(rank))?;
    }
    Ok(())
}

/// Adds the lines before the bits.
fn add_head<O: Sink>(page: &mut Page, sink: &mut O, ranks: u16, protocol: u64) -> Result<(), Failed>
    ensures { Gathers (O.seen sink.old) (O.seen sink.new) page.old page.new
        (circuit_head ranks protocol) result }
{
    page.put_all(
        sink,
        &[
            Piece::Text(b"circuit 1\nranks "),
            Piece::Number(u64::from(ranks)),
            Piece::Text(b"\nprotocol "),
            Piece::Number(protocol),
            Piece::Text(b"\n"),
        ],
    )
}

/// Adds the line that says how many letters there are.
fn add_letters_head<O: Sink>(page: &mut Page, sink: &mut O, count: usize) -> Result<(), Failed>
    ensures { Gathers (O.seen sink.old) (O.seen sink.new) page.old page.new
        (letters_head count) result }
{
    page.put_all(
        sink,
        &[
            Piece::Text(b"letters "),
            Piece::Number(count as u64),
            Piece::Text(b"\n"),
        ],
    )
}

/// Adds the circuit text.
fn add_circuit<O: Sink>(
    page: &mut Page,
    sink: &mut O,
    mono: &OneCircuit,
    ready: &Ready,
) -> Result<(), Failed>
    requires { length mono.now.ranks ≡ length ready.now.ranks }
    ensures { Gathers (O.seen sink.old) (O.seen sink.new) page.old page.new
        (circuit_text ready.now mono.now) result }
{
    let input = ready.input();
    add_head(page, sink, input.ranks(), ready.protocol_total())?;
    add_bits(page, sink, mono, input.ranks())?;
    add_letters_head(page, sink, mono.letters().len())?;
    add_letters(page, sink, mono.letters())?;
    add_slots(page, sink, mono, input)?;
    page.put(sink, b"end\n")
}

/// Writes the circuit text of ready programs, of which `mono` is the one circuit.
pub fn put_circuit<O: Sink>(sink: &mut O, mono: &OneCircuit, ready: &Ready) -> Result<(), Failed>
    requires { IsOneCircuit ready.now mono.now }
    ensures { Puts (O.seen sink.old) (O.seen sink.new) (circuit_text ready.now mono.now) result }
{
    let mut page = Page::blank();
    add_circuit(&mut page, sink, mono, ready)?;
    page.write_out(sink)
}
