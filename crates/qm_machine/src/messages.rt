//! The lines of the quantum messages.
ghost use Rattle.std.specs.Prelude.{◌≡◌, ◌<◌, slice_get, false};
ghost use Rattle.qm_instr.specs.Programs.{Programs};
ghost use Rattle.qm_proto.specs.Model.State.{wire_in, near_last, far_made, front, protocol_next, wire_of};
ghost use Rattle.qm_proto.specs.Model.Rows.{row, rows, half_parcel, letter, few_if, source_wire};
ghost use Rattle.qm_machine.specs.Reads.{IsRank};
ghost use Rattle.qm_machine.specs.Views.{tables, rank_count};

use crate::books::Books;
use crate::lines::{letter, letter_if, plain, tested, waiting};
use crate::parcels::{first_bit, half, second_bit, told, wire_of};
use crate::rules::current;
use qm_denot::{Letter, Wire};
use qm_instr::{Input, Instr, Kind, Lane};
use qm_proto::{Act, Check, Event, Few, NO_WIRE, Row, Rule};

/// A quantum message at one of its ranks: that rank and its slot, the other rank, and the tag.
#[derive(Clone, Copy)]
pub(crate) struct Message {
    rank: u16,
    q: u8,
    other: u16,
    tag: u16,
}

impl Message {
    ghost use Rattle.qm_instr.specs.Lanes.{lane};

    /// The message at this rank, by its instruction's operands.
    pub(crate) fn of(rank: u16, q: u8, other: u16, tag: u16) -> Message
        ensures { result ≡ record { rank = rank; q = q; other = other; tag = tag } }
    {
        Message {
            rank,
            q,
            other,
            tag,
        }
    }

    /// The lane of this kind to the other rank.
    fn out(self, kind: Kind) -> Lane
        ensures { result ≡ lane self.rank self.other kind self.tag }
    {
        Lane::new(self.rank, self.other, kind, self.tag)
    }

    /// The lane of this kind from there.
    fn back(self, kind: Kind) -> Lane
        ensures { result ≡ lane self.other self.rank kind self.tag }
    {
        Lane::new(self.other, self.rank, kind, self.tag)
    }
}

/// The pair of a message that starts with one.
fn pair_row(books: &Books, rank: u16, lane: Lane) -> Row
    requires { rank < rank_count books.now }
    ensures { let f = far_made (tables books.now) rank in
        let acts = Few.Two (Act.Twin lane.to) (Act.Posts lane (half_parcel f)) in
        result ≡ row Event.Pair (Rule.PairRoom lane) Few.Empty acts }
{
    let parcel = half(books.far_made(rank));
    waiting(
        Event::Pair,
        Rule::PairRoom { lane },
        Few::Two(Act::Twin { to: lane.to }, Act::Posts { lane, parcel }),
    )
}

/// A controlled-not of a slot's wire on the near half.
fn near_cross_row(books: &Books, rank: u16, q: u8) -> Row
    requires { rank < rank_count books.now }
    ensures { let t = tables books.now in
        let l = Letter.Cx (wire_in t rank q) (near_last t rank) in
        result ≡ row Event.Cross Rule.Always Few.Empty (letter l) }
{
    let c = books.wire_in(rank, q);
    let t = books.near_last(rank);
    plain(Event::Cross, letter(Letter::Cx { c, t }))
}

/// A measurement by the next outcome of the protocol tape: what it takes away, and where the outcome goes.
fn outcome_row(event: Event, out: Act, told: Act) -> Row
    ensures { result ≡ row event Rule.Always Few.Empty (Few.Three Act.ProtocolUsed out told) }
{
    plain(event, Few::Three(Act::ProtocolUsed, out, told))
}

/// The near half is measured, and the outcome goes out with the far half.
fn near_post_row(books: &Books, rank: u16, lane: Lane) -> Row
    requires { rank < rank_count books.now }
    ensures { let m = protocol_next (tables books.now) rank in
        let acts = Few.Three Act.ProtocolUsed (Act.NearOut m) (Act.Fills lane (m, false)) in
        result ≡ row Event.Post Rule.Always Few.Empty acts }
{
    let m = books.protocol_next(rank);
    let bits = (m, false);
    outcome_row(Event::Post, Act::NearOut { m }, Act::Fills { lane, bits })
}

/// The front parcel's half goes into a slot.
fn settle_row(books: &Books, lane: Lane, q: u8) -> Row
    ensures { let f = wire_of (front (tables books.now) lane) in
        let acts = Few.Two (Act.Receives lane) (Act.Settle f q) in
        result ≡ row Event.Deliver (Rule.Filled lane) Few.Empty acts }
{
    let f = books.front_wire(lane);
    waiting(
        Event::Deliver,
        Rule::Filled { lane },
        Few::Two(Act::Receives { lane }, Act::Settle { f, q }),
    )
}

/// The front parcel is taken.
fn deliver_row(lane: Lane) -> Row
    ensures { let acts = Few.One (Act.Receives lane) in
        result ≡ row Event.Deliver (Rule.Filled lane) Few.Empty acts }
{
    waiting(
        Event::Deliver,
        Rule::Filled { lane },
        Few::One(Act::Receives { lane }),
    )
}

/// A correction by an exchange of branches, where the bit is one.
fn fix_x_row(set: bool, w: Wire) -> Row
    ensures { let acts = few_if set (letter (Letter.Flip w)) in
        result ≡ row Event.FixX Rule.Always Few.Empty acts }
{
    plain(Event::FixX, letter_if(set, Letter::Flip { w }))
}

/// A correction by a change of sign, where the bit is one.
fn fix_z_row(set: bool, w: Wire) -> Row
    ensures { let acts = few_if set (letter (Letter.Phase 4 w)) in
        result ≡ row Event.FixZ Rule.Always Few.Empty acts }
{
    plain(Event::FixZ, letter_if(set, Letter::Phase { k: 4, w }))
}

/// A `Had` of a protocol.
fn had_row(w: Wire) -> Row
    ensures { let checks = Few.One (Check.Fits w) in
        result ≡ row Event.Had Rule.Always checks (letter (Letter.Had w)) }
{
    tested(
        Event::Had,
        Few::One(Check::Fits { w }),
        letter(Letter::Had { w }),
    )
}

/// The wire of the `undofrom` or `reachto` at which a rank stands.
fn source_wire(input: &Input, books: &Books, rank: u16) -> Wire
    requires { IsRank input.now books.now rank }
    ensures { result ≡ source_wire input.now (tables books.now) rank }
{
    match current(input, books, rank) {
        Some(Instr::UndoFrom { q, .. }) => books.wire_in(rank, q),
        Some(Instr::ReachTo { q, .. }) => books.wire_in(rank, q),
        _ => NO_WIRE,
    }
}

/// A copy at its sender.
pub(crate) fn copy_to(books: &Books, message: Message, stage: u32) -> Option<Row>
    requires { message.rank < rank_count books.now }
    ensures { let instr = Instr.CopyTo message.q message.other message.tag in
        (p : Programs) → result ≡ slice_get (rows p (tables books.now) message.rank instr) stage }
{
    let Message { rank, q, .. } = message;
    let a = message.out(Kind::Copy);
    match stage {
        0 => Some(pair_row(books, rank, a)),
        1 => Some(near_cross_row(books, rank, q)),
        2 => Some(near_post_row(books, rank, a)),
        _ => None,
    }
}

/// A copy at its receiver.
pub(crate) fn copy_from(books: &Books, message: Message, stage: u32) -> Option<Row>
    requires { message.rank < rank_count books.now }
    ensures { let instr = Instr.CopyFrom message.q message.other message.tag in
        (p : Programs) → result ≡ slice_get (rows p (tables books.now) message.rank instr) stage }
{
    let Message { rank, q, .. } = message;
    let x = books.taken(rank);
    match stage {
        0 => Some(settle_row(books, message.back(Kind::Copy), q)),
        1 => Some(fix_x_row(first_bit(x), wire_of(x))),
        _ => None,
    }
}

/// An uncopy at the rank that holds the copy.
pub(crate) fn undo_to(input: &Input, books: &Books, message: Message, stage: u32) -> Option<Row>
    requires here { IsRank input.now books.now message.rank }
    requires partner { IsRank input.now books.now message.other }
    ensures { let instr = Instr.UndoTo message.q message.other message.tag in
        result ≡ slice_get (rows input.now (tables books.now) message.rank instr) stage }
{
    let Message { rank, q, .. } = message;
    let w = books.wire_in(rank, q);
    let a = message.out(Kind::Undo);
    match stage {
        0 => {
            let v = source_wire(input, books, message.other);
            Some(Row {
                event: Event::Test,
                rule: Rule::Engaged { lane: a },
                checks: Few::Two(Check::Equal { w, v }, Check::Fits { w }),
                acts: letter(Letter::Had { w }),
            })
        }
        1 => {
            let m = books.protocol_next(rank);
            let parcel = told(m);
            let posts = Act::Posts { lane: a, parcel };
            Some(outcome_row(Event::Post, Act::SlotOut { q, m }, posts))
        }
        _ => None,
    }
}

/// An uncopy at the rank of the source.
pub(crate) fn undo_from(books: &Books, message: Message, stage: u32) -> Option<Row>
    requires { message.rank < rank_count books.now }
    ensures { let instr = Instr.UndoFrom message.q message.other message.tag in
        (p : Programs) → result ≡ slice_get (rows p (tables books.now) message.rank instr) stage }
{
    let Message { rank, q, .. } = message;
    match stage {
        0 => Some(deliver_row(message.back(Kind::Undo))),
        1 => Some(fix_z_row(first_bit(books.taken(rank)), books.wire_in(rank, q))),
        _ => None,
    }
}

/// A move at its sender.
pub(crate) fn move_to(books: &Books, message: Message, stage: u32) -> Option<Row>
    requires { message.rank < rank_count books.now }
    ensures { let instr = Instr.MoveTo message.q message.other message.tag in
        (p : Programs) → result ≡ slice_get (rows p (tables books.now) message.rank instr) stage }
{
    let Message { rank, q, .. } = message;
    let a = message.out(Kind::Move);
    match stage {
        0 => Some(pair_row(books, rank, a)),
        1 => Some(near_cross_row(books, rank, q)),
        2 => Some(had_row(books.wire_in(rank, q))),
        3 => {
            let m = books.protocol_next(rank);
            Some(outcome_row(Event::Near, Act::NearOut { m }, Act::FirstKept { m }))
        }
        4 => {
            let m = books.protocol_next(rank);
            let bits = (books.first(rank), m);
            let fills = Act::Fills { lane: a, bits };
            Some(outcome_row(Event::Post, Act::SlotOut { q, m }, fills))
        }
        _ => None,
    }
}

/// A move at its receiver.
pub(crate) fn move_from(books: &Books, message: Message, stage: u32) -> Option<Row>
    requires { message.rank < rank_count books.now }
    ensures { let instr = Instr.MoveFrom message.q message.other message.tag in
        (p : Programs) → result ≡ slice_get (rows p (tables books.now) message.rank instr) stage }
{
    let Message { rank, q, .. } = message;
    let x = books.taken(rank);
    match stage {
        0 => Some(settle_row(books, message.back(Kind::Move), q)),
        1 => Some(fix_x_row(first_bit(x), wire_of(x))),
        2 => Some(fix_z_row(second_bit(x), wire_of(x))),
        _ => None,
    }
}

/// A reach at the rank of the control.
pub(crate) fn reach_to(books: &Books, message: Message, stage: u32) -> Option<Row>
    requires { message.rank < rank_count books.now }
    ensures { let instr = Instr.ReachTo message.q message.other message.tag in
        (p : Programs) → result ≡ slice_get (rows p (tables books.now) message.rank instr) stage }
{
    let Message { rank, q, .. } = message;
    let a = message.out(Kind::Reach);
    match stage {
        0 => Some(pair_row(books, rank, a)),
        1 => Some(near_cross_row(books, rank, q)),
        2 => Some(near_post_row(books, rank, a)),
        3 => Some(deliver_row(message.back(Kind::Back))),
        4 => Some(fix_z_row(first_bit(books.taken(rank)), books.wire_in(rank, q))),
        _ => None,
    }
}

/// A reach at the rank of the target.
pub(crate) fn reach_from(books: &Books, message: Message, stage: u32) -> Option<Row>
    requires { message.rank < rank_count books.now }
    ensures { let instr = Instr.ReachFrom message.q message.other message.tag in
        (p : Programs) → result ≡ slice_get (rows p (tables books.now) message.rank instr) stage }
{
    let Message { rank, q, .. } = message;
    let x = books.taken(rank);
    let f = wire_of(x);
    match stage {
        0 => Some(deliver_row(message.back(Kind::Reach))),
        1 => Some(fix_x_row(first_bit(x), f)),
        2 => {
            let t = books.wire_in(rank, q);
            Some(plain(Event::Cross, letter(Letter::Cx { c: f, t })))
        }
        3 => Some(had_row(f)),
        4 => {
            let m = books.protocol_next(rank);
            let a = message.out(Kind::Back);
            let parcel = told(m);
            let posts = Act::Posts { lane: a, parcel };
            Some(outcome_row(Event::Post, Act::FarOut { f, m }, posts))
        }
        _ => None,
    }
}
