//! The table of the events: for each instruction a line for each event. This is the only match on instructions by which a machine acts.
ghost use Rattle.std.specs.Prelude.{◌≡◌, ◌<◌, ℕ, slice_get, Some, ◌∷◌, [], false};
ghost use Rattle.qm_instr.specs.Lanes.{lane};
ghost use Rattle.qm_instr.specs.declared.Kind.TheVariants as kind;
ghost use Rattle.qm_check.specs.Operands.{partner_of};
ghost use Rattle.qm_denot.specs.Protocols.{differing};
ghost use Rattle.qm_proto.specs.Model.State.{wire_in, bit_of, own_next, front, first_bit};
ghost use Rattle.qm_proto.specs.Model.Rows.{row, rows, bit_parcel, letter, letter_checks, gate_letter, few_if};
ghost use Rattle.qm_proto.specs.Model.Runs.{row_next};
ghost use Rattle.qm_machine.specs.Reads.{IsRank, IsReadyRank};
ghost use Rattle.qm_machine.specs.Views.{tables, rank_count};

use crate::books::Books;
use crate::lines::{checks_if, letter, letter_checks, letter_if, plain, tested, waiting};
use crate::messages::{
    Message, copy_from, copy_to, move_from, move_to, reach_from, reach_to, undo_from, undo_to,
};
use crate::parcels::told;
use crate::rules::current;
use qm_denot::Letter;
use qm_instr::{Gate, Input, Instr, Kind, Lane};
use qm_proto::{Act, Check, Event, Few, Row, Rule, gate_letter};

/// The letter of a gate on the slots of a rank.
fn letter_of(books: &Books, rank: u16, gate: Gate) -> Letter
    ensures { result ≡ gate_letter (wire_in (tables books.now) rank) gate }
{
    gate_letter(gate, |q| books.wire_in(rank, q))
}

/// A gate.
fn gate_row(books: &Books, rank: u16, gate: Gate) -> Row
    requires { rank < rank_count books.now }
    ensures { let l = gate_letter (wire_in (tables books.now) rank) gate in
        result ≡ row Event.Gate Rule.Always (letter_checks l) (letter l) }
{
    let l = letter_of(books, rank, gate);
    tested(Event::Gate, letter_checks(l), letter(l))
}

/// A gate where a bit is one.
fn when_row(books: &Books, rank: u16, b: u8, gate: Gate) -> Row
    requires { rank < rank_count books.now }
    ensures { let l = gate_letter (wire_in (tables books.now) rank) gate in
        let set = bit_of (tables books.now) rank b in
        result ≡ row Event.When Rule.Always (few_if set (letter_checks l)) (few_if set (letter l)) }
{
    let l = letter_of(books, rank, gate);
    let set = books.bit(rank, b);
    tested(Event::When, checks_if(set, l), letter_if(set, l))
}

/// A qubit that is zero is given up.
fn free_row(books: &Books, rank: u16, q: u8) -> Row
    requires { rank < rank_count books.now }
    ensures { let checks = Few.One (Check.Zero (wire_in (tables books.now) rank q)) in
        result ≡ row Event.Free Rule.Always checks (Few.One (Act.SlotOut q false)) }
{
    let w = books.wire_in(rank, q);
    tested(
        Event::Free,
        Few::One(Check::Zero { w }),
        Few::One(Act::SlotOut { q, m: false }),
    )
}

/// A measurement by the next outcome of the own tape.
fn measure_row(books: &Books, rank: u16, q: u8, b: u8) -> Row
    requires { rank < rank_count books.now }
    ensures { let w = wire_in (tables books.now) rank q in
        let m = own_next (tables books.now) rank in
        let acts = Few.Three Act.OwnUsed (Act.Apply (Letter.Keep w m)) (Act.BitSet b m) in
        result ≡ row Event.Measure Rule.Always (Few.One (Check.Possible w m)) acts }
{
    let w = books.wire_in(rank, q);
    let m = books.own_next(rank);
    tested(
        Event::Measure,
        Few::One(Check::Possible { w, m }),
        Few::Three(
            Act::OwnUsed,
            Act::Apply {
                letter: Letter::Keep { w, m },
            },
            Act::BitSet { b, v: m },
        ),
    )
}

/// Whether two bits differ.
fn xor_row(books: &Books, rank: u16, b: u8, c: u8) -> Row
    requires { rank < rank_count books.now }
    ensures { let t = tables books.now in
        let v = differing (bit_of t rank b) (bit_of t rank c) in
        result ≡ row Event.Xor Rule.Always Few.Empty (Few.One (Act.BitSet b v)) }
{
    let v = books.bit(rank, b) != books.bit(rank, c);
    plain(Event::Xor, Few::One(Act::BitSet { b, v }))
}

/// A bit goes out.
fn send_row(books: &Books, rank: u16, b: u8, to: u16, tag: u16) -> Row
    requires { rank < rank_count books.now }
    ensures { let a = lane rank to kind.Bit tag in
        let acts = Few.One (Act.Posts a (bit_parcel (bit_of (tables books.now) rank b))) in
        result ≡ row Event.SendBit Rule.Always Few.Empty acts }
{
    let lane = Lane::new(rank, to, Kind::Bit, tag);
    let parcel = told(books.bit(rank, b));
    plain(Event::SendBit, Few::One(Act::Posts { lane, parcel }))
}

/// A bit comes in.
fn receive_row(books: &Books, rank: u16, b: u8, from: u16, tag: u16) -> Row
    ensures { let a = lane from rank kind.Bit tag in
        let v = first_bit (front (tables books.now) a) in
        let acts = Few.Two (Act.Receives a) (Act.BitSet b v) in
        result ≡ row Event.RecvBit (Rule.Filled a) Few.Empty acts }
{
    let lane = Lane::new(from, rank, Kind::Bit, tag);
    let v = books.front_bit(lane);
    waiting(
        Event::RecvBit,
        Rule::Filled { lane },
        Few::Two(Act::Receives { lane }, Act::BitSet { b, v }),
    )
}

/// The line of an instruction that has one event, at a stage.
fn only(row: Row, stage: u32) -> Option<Row>
    ensures { result ≡ slice_get (row ∷ []) stage }
{
    match stage {
        0 => Some(row),
        _ => None,
    }
}

/// The line of an instruction at a stage. `None` exactly where it has no more events than that.
fn row_at(input: &Input, books: &Books, rank: u16, instr: Instr, stage: u32) -> Option<Row>
    requires here { IsRank input.now books.now rank }
    requires partner { (d : ℕ) → partner_of instr ≡ Some d → IsRank input.now books.now d }
    ensures { result ≡ slice_get (rows input.now (tables books.now) rank instr) stage }
{
    match instr {
        Instr::Alloc { q } => only(plain(Event::Alloc, Few::One(Act::Fresh { q })), stage),
        Instr::Free { q } => only(free_row(books, rank, q), stage),
        Instr::Do { g } => only(gate_row(books, rank, g), stage),
        Instr::When { b, g } => only(when_row(books, rank, b, g), stage),
        Instr::Measure { q, b } => only(measure_row(books, rank, q, b), stage),
        Instr::Set { b, v } => only(plain(Event::Set, Few::One(Act::BitSet { b, v })), stage),
        Instr::Xor { b, c } => only(xor_row(books, rank, b, c), stage),
        Instr::SendBit { b, to, tag } => only(send_row(books, rank, b, to, tag), stage),
        Instr::RecvBit { b, from, tag } => only(receive_row(books, rank, b, from, tag), stage),
        Instr::CopyTo { q, to, tag } => copy_to(books, Message::of(rank, q, to, tag), stage),
        Instr::CopyFrom { q, from, tag } => copy_from(
            books,
            Message::of(rank, q, from, tag),
            stage,
        ),
        Instr::UndoTo { q, to, tag } => undo_to(input, books, Message::of(rank, q, to, tag), stage),
        Instr::UndoFrom { q, from, tag } => undo_from(
            books,
            Message::of(rank, q, from, tag),
            stage,
        ),
        Instr::MoveTo { q, to, tag } => move_to(books, Message::of(rank, q, to, tag), stage),
        Instr::MoveFrom { q, from, tag } => move_from(
            books,
            Message::of(rank, q, from, tag),
            stage,
        ),
        Instr::ReachTo { q, to, tag } => reach_to(books, Message::of(rank, q, to, tag), stage),
        Instr::ReachFrom { t, from, tag } => reach_from(
            books,
            Message::of(rank, t, from, tag),
            stage,
        ),
    }
}

/// The line at which a rank stands. `None` exactly where it has no event left.
pub(crate) fn row_next(input: &Input, books: &Books, rank: u16) -> Option<Row>
    requires { IsReadyRank input.now books.now rank }
    ensures { result ≡ row_next input.now (tables books.now) rank }
{
    match current(input, books, rank) {
        Some(instr) => row_at(input, books, rank, instr, books.stage(rank)),
        None => None,
    }
}
