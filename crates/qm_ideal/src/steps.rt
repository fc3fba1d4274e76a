//! The table of the steps: what a step of each instruction waits for, its letters, and its acts.
ghost use Rattle.std.specs.Prelude.{◌≡◌, ◌<◌, Bool, length, map, Some, None};
ghost use Rattle.qm_instr.specs.Lanes.{lane_sent, lane_received};
ghost use Rattle.qm_instr.specs.Programs.{Programs};
ghost use Rattle.qm_proto.specs.Model.Acts.{list_of};
ghost use Rattle.qm_proto.specs.Model.Ideal.{IdealTables, ideal_row_of, ideal_wire_in, load_at, wire_carried};
ghost use Rattle.qm_proto.specs.Model.Rows.{gate_letter};
ghost use Rattle.qm_confluence.specs.Told.{told, without_own};
ghost use Rattle.qm_ideal.specs.Meanings.{rule_meant, act_meant};
ghost use Rattle.qm_ideal.specs.Views.{tables_of};

use crate::tables::Tables;
use qm_denot::{Letter, Wire};
use qm_instr::{Gate, Input, Instr, Kind, Lane, receive_lane, send_lane};
use qm_proto::{Few, gate_letter};

/// What a lane holds.
#[derive(Clone, Copy)]
pub(crate) enum Load {
    /// The wire of a copy or a move.
    Carried { wire: Wire },
    /// A bit.
    Told { bit: bool },
    /// A sign that a rank has done its part.
    Token,
}

/// What a step waits for.
#[derive(Clone, Copy)]
pub(crate) enum StepRule {
    /// Nothing.
    Always,
    /// The lane isn't empty.
    Filled { lane: Lane },
    /// The lane's receiver stands at a receive of it, and the lane is empty.
    Engaged { lane: Lane },
    /// The first lane's sender stands at a send on it, and the second lane is empty.
    Lent { lane: Lane, back: Lane },
}

/// An act of a step.
#[derive(Clone, Copy)]
pub(crate) enum StepAct {
    /// One wire more is counted.
    Counts,
    /// Slot `q` is filled with a wire, or emptied.
    SlotSet { q: u8, wire: Option<Wire> },
    /// A load goes to the end of a lane.
    Puts { lane: Lane, load: Load },
    /// The front of a lane is taken.
    Takes { lane: Lane },
    /// Bit `b` becomes `v`.
    BitSet { b: u8, v: bool },
}

/// The letters and the acts of a step, each in their order; the use of an outcome is none of them.
#[derive(Clone, Copy)]
pub(crate) struct StepWork {
    pub(crate) letters: Few<Letter>,
    pub(crate) acts: Few<StepAct>,
}

/// What the step of an instruction of a rank waits for.
pub(crate) fn rule_of(rank: u16, instr: Instr) -> StepRule
    ensures { (p : Programs) (t : IdealTables)
        → (ideal_row_of p t rank instr).rule ≡ rule_meant result }
{
    match instr {
        Instr::RecvBit { from, tag, .. } => StepRule::Filled {
            lane: Lane::new(from, rank, Kind::Bit, tag),
        },
        Instr::CopyFrom { from, tag, .. } => StepRule::Filled {
            lane: Lane::new(from, rank, Kind::Copy, tag),
        },
        Instr::UndoTo { to, tag, .. } => StepRule::Engaged {
            lane: Lane::new(rank, to, Kind::Undo, tag),
        },
        Instr::UndoFrom { from, tag, .. } => StepRule::Filled {
            lane: Lane::new(from, rank, Kind::Undo, tag),
        },
        Instr::MoveFrom { from, tag, .. } => StepRule::Filled {
            lane: Lane::new(from, rank, Kind::Move, tag),
        },
        Instr::ReachTo { to, tag, .. } => StepRule::Filled {
            lane: Lane::new(to, rank, Kind::Back, tag),
        },
        Instr::ReachFrom { from, tag, .. } => StepRule::Lent {
            lane: Lane::new(from, rank, Kind::Reach, tag),
            back: Lane::new(rank, from, Kind::Back, tag),
        },
        _ => StepRule::Always,
    }
}

/// The letter of a gate on the slots of a rank.
fn letter_of(tables: &Tables, rank: u16, gate: Gate) -> Letter
    ensures { result ≡ gate_letter (ideal_wire_in (tables_of tables.now) rank) gate }
{
    gate_letter(gate, |q| tables.wire_in(rank, q))
}

/// A step without letters.
fn silent(acts: Few<StepAct>) -> StepWork
    ensures { result ≡ record { letters = Few.Empty; acts = acts } }
{
    StepWork {
        letters: Few::Empty,
        acts,
    }
}

/// A step with one letter.
fn lettered(letter: Letter, acts: Few<StepAct>) -> StepWork
    ensures { result ≡ record { letters = Few.One letter; acts = acts } }
{
    StepWork {
        letters: Few::One(letter),
        acts,
    }
}

/// Slot `q` is emptied.
fn emptied(q: u8) -> StepAct
    ensures { result ≡ StepAct.SlotSet q None }
{
    StepAct::SlotSet { q, wire: None }
}

/// A load goes to the end of a lane.
fn put(lane: Lane, load: Load) -> StepAct
    ensures { result ≡ StepAct.Puts lane load }
{
    StepAct::Puts { lane, load }
}

/// A step that takes the front wire of a lane into a slot.
fn taking(tables: &Tables, lane: Lane, q: u8) -> StepWork
    ensures { let w = wire_carried (load_at (tables_of tables.now) lane) in
        result ≡ record {
          letters = Few.Empty;
          acts = Few.Two (StepAct.Takes lane) (StepAct.SlotSet q (Some w));
        } }
{
    let wire = Some(tables.front_wire(lane));
    silent(Few::Two(StepAct::Takes { lane }, StepAct::SlotSet { q, wire }))
}

/// The step of an instruction that is done within its rank, where `m` is the outcome of a measurement.
fn local_step(tables: &Tables, rank: u16, instr: Instr, m: bool) -> StepWork
    requires known { rank < length tables.now.ranks.items }
    requires unsent { lane_sent rank instr ≡ None }
    requires unreceived { lane_received rank instr ≡ None }
    ensures letters { (p : Programs) → list_of result.letters
        ≡ (ideal_row_of p (told (tables_of tables.now) m) rank instr).letters }
    ensures acts { (p : Programs) → map act_meant (list_of result.acts)
        ≡ without_own (ideal_row_of p (told (tables_of tables.now) m) rank instr).acts }
{
    match instr {
        Instr::Alloc { q } => {
            let wire = Some(tables.made(rank));
            silent(Few::Two(StepAct::Counts, StepAct::SlotSet { q, wire }))
        }
        Instr::Free { q } => lettered(
            Letter::Take {
                w: tables.wire_in(rank, q),
                m: false,
            },
            Few::One(emptied(q)),
        ),
        Instr::Do { g } => lettered(letter_of(tables, rank, g), Few::Empty),
        Instr::Measure { q, b } => lettered(
            Letter::Keep {
                w: tables.wire_in(rank, q),
                m,
            },
            Few::One(StepAct::BitSet { b, v: m }),
        ),
        Instr::Set { b, v } => silent(Few::One(StepAct::BitSet { b, v })),
        Instr::Xor { b, c } => {
            let v = tables.bit(rank, b) ^ tables.bit(rank, c);
            silent(Few::One(StepAct::BitSet { b, v }))
        }
        Instr::When { b, g } if tables.bit(rank, b) => {
            lettered(letter_of(tables, rank, g), Few::Empty)
        }
        _ => silent(Few::Empty),
    }
}

/// The step of an instruction that sends on this lane.
fn send_step(input: &Input, tables: &Tables, rank: u16, instr: Instr, lane: Lane) -> StepWork
    requires same { length tables.now.ranks.items ≡ length input.now.ranks }
    requires known { rank < length input.now.ranks }
    requires sent { lane_sent rank instr ≡ Some lane }
    ensures letters { (m : Bool) → list_of result.letters
        ≡ (ideal_row_of input.now (told (tables_of tables.now) m) rank instr).letters }
    ensures acts { (m : Bool) → map act_meant (list_of result.acts)
        ≡ without_own (ideal_row_of input.now (told (tables_of tables.now) m) rank instr).acts }
{
    match instr {
        Instr::SendBit { b, .. } => {
            let bit = tables.bit(rank, b);
            silent(Few::One(put(lane, Load::Told { bit })))
        }
        Instr::CopyTo { q, .. } => {
            let c = tables.wire_in(rank, q);
            let t = tables.made(rank);
            let puts = put(lane, Load::Carried { wire: t });
            lettered(Letter::Cx { c, t }, Few::Two(StepAct::Counts, puts))
        }
        Instr::UndoTo { q, to, .. } => {
            let c = tables.offered(input, to);
            let t = tables.wire_in(rank, q);
            StepWork {
                letters: Few::Two(Letter::Cx { c, t }, Letter::Take { w: t, m: false }),
                acts: Few::Two(emptied(q), put(lane, Load::Token)),
            }
        }
        Instr::MoveTo { q, .. } => {
            let a = tables.wire_in(rank, q);
            let b = tables.made(rank);
            let puts = put(lane, Load::Carried { wire: b });
            lettered(
                Letter::Rename { a, b },
                Few::Three(StepAct::Counts, emptied(q), puts),
            )
        }
        Instr::ReachTo { to, tag, .. } => {
            let back = Lane::new(to, rank, Kind::Back, tag);
            silent(Few::Two(StepAct::Counts, StepAct::Takes { lane: back }))
        }
        _ => unreachable!(),
    }
}

/// The step of an instruction that receives on this lane.
fn receive_step(input: &Input, tables: &Tables, rank: u16, instr: Instr, lane: Lane) -> StepWork
    requires same { length tables.now.ranks.items ≡ length input.now.ranks }
    requires known { rank < length input.now.ranks }
    requires received { lane_received rank instr ≡ Some lane }
    ensures letters { (m : Bool) → list_of result.letters
        ≡ (ideal_row_of input.now (told (tables_of tables.now) m) rank instr).letters }
    ensures acts { (m : Bool) → map act_meant (list_of result.acts)
        ≡ without_own (ideal_row_of input.now (told (tables_of tables.now) m) rank instr).acts }
{
    match instr {
        Instr::RecvBit { b, .. } => {
            let v = tables.front_bit(lane);
            silent(Few::Two(StepAct::Takes { lane }, StepAct::BitSet { b, v }))
        }
        Instr::CopyFrom { q, .. } | Instr::MoveFrom { q, .. } => taking(tables, lane, q),
        Instr::UndoFrom { .. } => silent(Few::One(StepAct::Takes { lane })),
        Instr::ReachFrom { t, from, tag } => {
            let c = tables.offered(input, from);
            let t = tables.wire_in(rank, t);
            let back = Lane::new(rank, from, Kind::Back, tag);
            lettered(Letter::Cx { c, t }, Few::One(put(back, Load::Token)))
        }
        _ => unreachable!(),
    }
}

/// A rank's step for an instruction, where `m` is the outcome of a measurement.
pub(crate) fn step_of(input: &Input, tables: &Tables, rank: u16, instr: Instr, m: bool) -> StepWork
    requires same { length tables.now.ranks.items ≡ length input.now.ranks }
    requires known { rank < length input.now.ranks }
    ensures letters { list_of result.letters
        ≡ (ideal_row_of input.now (told (tables_of tables.now) m) rank instr).letters }
    ensures acts { map act_meant (list_of result.acts)
        ≡ without_own (ideal_row_of input.now (told (tables_of tables.now) m) rank instr).acts }
{
    match (send_lane(rank, instr), receive_lane(rank, instr)) {
        (Some(lane), _) => send_step(input, tables, rank, instr, lane),
        (None, Some(lane)) => receive_step(input, tables, rank, instr, lane),
        (None, None) => local_step(tables, rank, instr, m),
    }
}
