//! The one circuit of programs.
ghost use Rattle.std.specs.Prelude.{◌≡◌, ◌<◌, ◌≤◌, ◌++◌, length, IfOk, IfErr, OnOk};
ghost use Rattle.qm_instr.specs.Bits.{number_of_bits};
ghost use Rattle.qm_instr.specs.Programs.{IsInRange};
ghost use Rattle.qm_check.specs.Checks.{IsReady};
ghost use Rattle.qm_ideal.specs.OneCircuits.{wires_below, wires_in, left_from, bits_of, slot_of, most_letters, IsOneCircuit, HasOneCircuit, Explains};
ghost use Rattle.qm_ideal.specs.Drawings.{nothing_drawn, IsDrawnCircuit, ExplainsDrawn};
ghost use Rattle.qm_ideal.specs.Views.{tables_of, slots_at, view_of_run, IsTapedEnd};

use crate::draw::Draw;
use crate::feed::Tapes;
use crate::run::Run;
use crate::tables::Tables;
use crate::width::width;
use crate::{DrawnError, MonoError};
use qm_check::Ready;
use qm_denot::{Letter, Wire};
use qm_instr::Input;
use qm_limits::{MOST_RANKS, SLOTS};
use std::alloc::{AllocError, Global};
use std::marker::Model;

/// The one circuit of programs, with the bits and the slots of the ranks at its end.
#[derive(Drop)]
pub struct OneCircuit {
    letters: Vec<Letter>,
    tables: Tables,
    width: u32,
}

impl Model for OneCircuit {
    ghost use Rattle.qm_ideal.specs.OneCircuits.{OneView};
    ghost use Rattle.qm_ideal.specs.Views.{ends_of};

    ghost Value = { OneView };

    ghost view = { λ m. record {
      letters = m.letters.items;
      ranks = ends_of m.tables;
      width = m.width;
    } };
}

impl OneCircuit {
    /// The letters of the circuit.
    pub fn letters(&self) -> &[Letter]
        ensures { result.now ≡ self.now.letters }
    {
        self.letters.as_slice()
    }

    /// The classical bits of a rank at the circuit's end, bit 0 the lowest.
    pub fn bits(&self, rank: u16) -> u32
        requires { rank < length self.now.ranks }
        ensures { result ≡ number_of_bits (bits_of self.now rank) }
    {
        self.tables.bits(rank)
    }

    /// The wire in a slot at the circuit's end. `None` exactly where it is empty.
    pub fn slot(&self, rank: u16, q: u8) -> Option<Wire>
        ensures { result ≡ slot_of self.now rank q }
    {
        self.tables.end_slot(rank, q)
    }

    /// The least capacity of a store in which every letter finds room.
    ///
    /// In that store a wire is made fresh just before the first letter that names it, but the second wire of a `Rename` takes the place
    /// of the first. The wires in slots that no letter names are made fresh after the last letter.
    pub fn width(&self) -> u32
        ensures { result ≡ self.now.width }
    {
        self.width
    }
}

/// The ranks that have instructions left, as a number with the bit of each.
fn ranks_left(input: &Input, ranks: u16, tables: &Tables) -> u16
    requires all { ranks ≡ length input.now.ranks }
    requires same { length tables.now.ranks.items ≡ length input.now.ranks }
    requires few { ranks ≤ MOST_RANKS }
    ensures { result ≡ left_from input.now (tables_of tables.now) 0
        (length input.now.ranks) }
{
    let mut left = 0;
    for k in 0..ranks {
        left = 2 * left + u16::from(tables.current(input, ranks - 1 - k).is_some());
    }
    left
}

/// The wires in the slots of all ranks, by rank, then by slot.
fn wires_in(alloc: Global, ranks: u16, tables: &Tables) -> Result<Vec<Wire>, AllocError>
    ensures { IfOk result (λ ws. ws.items ≡ wires_in (slots_at tables.now.ranks.items) ranks) }
{
    let mut wires = Vec::new(alloc);
    for rank in 0..ranks {
        push_wires(&mut wires, tables, rank)?;
    }
    Ok(wires)
}

/// Appends the wires in the slots of a rank.
fn push_wires(wires: &mut Vec<Wire>, tables: &Tables, rank: u16) -> Result<(), AllocError>
    ensures { OnOk result (wires.new.items
        ≡ wires.old.items ++ wires_below (slots_at tables.now.ranks.items rank) SLOTS) }
{
    for q in 0..SLOTS {
        if let Some(wire) = tables.slot(rank, q) {
            wires.push(wire)?;
        }
    }
    Ok(())
}

/// The circuit, with its width, of a run that leaves no instruction.
fn measured(alloc: Global, ranks: u16, run: Run) -> Result<OneCircuit, AllocError>
    requires few { ranks ≤ MOST_RANKS }
    requires short { length run.letters.items ≤ most_letters }
    ensures { IfOk result (λ m. m ≡ view_of_run ranks run) }
{
    let ends = wires_in(alloc, ranks, &run.tables)?;
    let width = width(alloc, run.letters.as_slice(), ends.as_slice())?;
    Ok(OneCircuit {
        letters: run.letters,
        tables: run.tables,
        width: width as u32,
    })
}

/// The run whose outcomes are those of the programs' own tapes. `AllocError` comes from the allocator alone.
fn run_by_tapes(alloc: Global, input: &Input) -> Result<Run, AllocError>
    requires ready { IsReady input.now }
    requires in_range { IsInRange input.now }
    ensures end { IfOk result (IsTapedEnd input.now) }
    ensures ranks { IfOk result (λ x. length x.tables.ranks.items ≡ length input.now.ranks) }
{
    let mut tapes = Tapes::start(input);
    match Run::of(alloc, input, &mut tapes) {
        Ok(run) => Ok(run),
        Err(DrawnError::Memory) => Err(AllocError),
        Err(DrawnError::Stopped { .. }) => unreachable!(),
    }
}

/// The one circuit of programs: the circuit of the ideal run that always steps the lowest enabled rank.
///
/// `Waits` comes exactly where that run ends with instructions left. `Memory` comes from the allocator alone.
pub fn mono(alloc: Global, ready: &Ready) -> Result<OneCircuit, MonoError>
    ensures ok { IfOk result (IsOneCircuit ready.now) }
    ensures err { IfErr result (Explains ready.now) }
{
    let input = ready.input();
    let count = input.ranks();
    let run = run_by_tapes(alloc, input)?;
    let ranks = ranks_left(input, count, &run.tables);
    if ranks != 0 {
        return Err(MonoError::Waits { ranks });
    }
    Ok(measured(alloc, count, run)?)
}

/// The one circuit of programs whose own outcomes are drawn along the ideal run that always steps the lowest enabled rank.
///
/// The outcomes stand in the place of the programs' own tapes, whose bits aren't used. The run must not end early, which [`mono`] tells
/// and no outcome changes. `Stopped` comes exactly where a call on the draw answered a stop, for the next letter of the run or for the
/// measurement whose Keep it would be. `Memory` comes from the allocator alone.
pub fn mono_with<D: Draw>(
    alloc: Global,
    ready: &Ready,
    draw: &mut D,
) -> Result<OneCircuit, DrawnError>
    requires whole { HasOneCircuit ready.now }
    requires new { D.draws draw.old nothing_drawn }
    ensures ok { IfOk result (IsDrawnCircuit ready.now (D.draws draw.new)) }
    ensures err { IfErr result (ExplainsDrawn ready.now (D.draws draw.new)) }
{
    let input = ready.input();
    let count = input.ranks();
    let run = Run::of(alloc, input, draw)?;
    Ok(measured(alloc, count, run)?)
}
