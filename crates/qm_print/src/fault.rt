//! The lines of refusals and of other ends without a text.
ghost use Rattle.std.specs.Prelude.{◌≡◌, ◌≢◌, ◌<◌};
ghost use Rattle.qm_io.specs.Ends.{Puts};
ghost use Rattle.qm_instr.specs.declared.Kind.TheVariants.{Back};
ghost use Rattle.qm_print.specs.FaultText.{NamesNoAnswers, IsNamed, cause_name, fault_text, instruction_refused, kind_name, lane_refused, line_refused, number_line, stopped_line, tape_name, tape_refused, unready_line, waiting_at, waiting_ranks, waits_line};
ghost use Rattle.qm_print.specs.Gathering.{Gathers};

use crate::FaultLine;
use crate::page::{Page, Piece};
use qm_check::Fault;
use qm_instr::{Kind, Lane};
use qm_io::{Failed, Sink};
use qm_limits::MOST_RANKS;
use qm_proto::Cause;

/// How many bits a number of ranks has.
const RANKS: u32 = MOST_RANKS as u32;

/// The printed name of what a lane carries, which isn't answers.
fn kind_name(kind: Kind) -> &'static [u8]
    requires { kind ≢ Back }
    ensures { result.now ≡ kind_name kind }
{
    match kind {
        Kind::Bit => b"bit",
        Kind::Copy => b"copy",
        Kind::Move => b"move",
        Kind::Undo => b"undo",
        Kind::Reach => b"reach",
        Kind::Back => unreachable!(),
    }
}

/// The printed name of a cause.
fn cause_name(cause: Cause) -> &'static [u8]
    ensures { result.now ≡ cause_name cause }
{
    match cause {
        Cause::Overflow => b"overflow",
        Cause::Impossible => b"impossible",
        Cause::NotZero => b"not-zero",
        Cause::NotEqual => b"not-equal",
        Cause::Stuck => b"stuck",
    }
}

/// The printed name of a tape.
fn tape_name(own: bool) -> &'static [u8]
    ensures { result.now ≡ tape_name own }
{
    if own { b"own" } else { b"protocol" }
}

/// Adds a line of words and a number.
fn add_number<O: Sink>(
    page: &mut Page,
    sink: &mut O,
    words: &[u8],
    number: u32,
) -> Result<(), Failed>
    ensures { Gathers (O.seen sink.old) (O.seen sink.new) page.old page.new
        (number_line words.now number) result }
{
    page.put_all(
        sink,
        &[
            Piece::Text(words),
            Piece::Number(u64::from(number)),
            Piece::Text(b"\n"),
        ],
    )
}

/// Adds the refusal of a line of the text.
fn add_line_refused<O: Sink>(
    page: &mut Page,
    sink: &mut O,
    why: &[u8],
    line: u32,
) -> Result<(), Failed>
    ensures { Gathers (O.seen sink.old) (O.seen sink.new) page.old page.new
        (line_refused why.now line) result }
{
    page.put_all(
        sink,
        &[
            Piece::Text(b"refused "),
            Piece::Text(why),
            Piece::Text(b" line "),
            Piece::Number(u64::from(line)),
            Piece::Text(b"\n"),
        ],
    )
}

/// Adds the refusal of an instruction of a rank.
fn add_instruction_refused<O: Sink>(
    page: &mut Page,
    sink: &mut O,
    why: &[u8],
    rank: u16,
    at: u32,
) -> Result<(), Failed>
    ensures { Gathers (O.seen sink.old) (O.seen sink.new) page.old page.new
        (instruction_refused why.now rank at) result }
{
    page.put_all(
        sink,
        &[
            Piece::Text(b"refused "),
            Piece::Text(why),
            Piece::Text(b" rank "),
            Piece::Number(u64::from(rank)),
            Piece::Text(b" instruction "),
            Piece::Number(u64::from(at)),
            Piece::Text(b"\n"),
        ],
    )
}

/// Adds the refusal of a lane whose sends and receives aren't as many.
fn add_lane_refused<O: Sink>(
    page: &mut Page,
    sink: &mut O,
    lane: Lane,
    sends: u32,
    receives: u32,
) -> Result<(), Failed>
    requires { lane.kind ≢ Back }
    ensures { Gathers (O.seen sink.old) (O.seen sink.new) page.old page.new
        (lane_refused lane sends receives) result }
{
    page.put_all(
        sink,
        &[
            Piece::Text(b"refused unmatched-lane from "),
            Piece::Number(u64::from(lane.from)),
            Piece::Text(b" to "),
            Piece::Number(u64::from(lane.to)),
            Piece::Text(b" "),
            Piece::Text(kind_name(lane.kind)),
            Piece::Text(b" tag "),
            Piece::Number(u64::from(lane.tag)),
            Piece::Text(b" sends "),
            Piece::Number(u64::from(sends)),
            Piece::Text(b" receives "),
            Piece::Number(u64::from(receives)),
            Piece::Text(b"\n"),
        ],
    )
}

/// Adds the refusal of a tape.
fn add_tape_refused<O: Sink>(
    page: &mut Page,
    sink: &mut O,
    rank: u16,
    own: bool,
    needs: u32,
    has: u32,
) -> Result<(), Failed>
    ensures { Gathers (O.seen sink.old) (O.seen sink.new) page.old page.new
        (tape_refused rank own needs has) result }
{
    page.put_all(
        sink,
        &[
            Piece::Text(b"refused tape-length rank "),
            Piece::Number(u64::from(rank)),
            Piece::Text(b" "),
            Piece::Text(tape_name(own)),
            Piece::Text(b" needs "),
            Piece::Number(u64::from(needs)),
            Piece::Text(b" has "),
            Piece::Number(u64::from(has)),
            Piece::Text(b"\n"),
        ],
    )
}

/// Adds the line of a fault that the check found.
fn add_unready<O: Sink>(page: &mut Page, sink: &mut O, fault: Fault) -> Result<(), Failed>
    requires { IsNamed fault }
    ensures { Gathers (O.seen sink.old) (O.seen sink.new) page.old page.new
        (unready_line fault) result }
{
    match fault {
        Fault::TooWide { capacity } => {
            add_number(page, sink, b"refused too-wide capacity ", capacity)
        }
        Fault::BadRank { rank, at } => {
            add_instruction_refused(page, sink, b"bad-rank", rank, at)
        }
        Fault::SelfMessage { rank, at } => {
            add_instruction_refused(page, sink, b"self-message", rank, at)
        }
        Fault::SameSlot { rank, at } => {
            add_instruction_refused(page, sink, b"same-slot", rank, at)
        }
        Fault::SlotEmpty { rank, at } => {
            add_instruction_refused(page, sink, b"slot-empty", rank, at)
        }
        Fault::SlotFull { rank, at } => {
            add_instruction_refused(page, sink, b"slot-full", rank, at)
        }
        Fault::UnmatchedLane {
            lane,
            sends,
            receives,
        } => add_lane_refused(page, sink, lane, sends, receives),
        Fault::TapeLength {
            rank,
            own,
            needs,
            has,
        } => add_tape_refused(page, sink, rank, own, needs, has),
    }
}

/// Adds the line of a run that stopped.
fn add_stopped<O: Sink>(
    page: &mut Page,
    sink: &mut O,
    rank: u32,
    turns: u64,
    cause: Cause,
) -> Result<(), Failed>
    ensures { Gathers (O.seen sink.old) (O.seen sink.new) page.old page.new
        (stopped_line rank turns cause) result }
{
    page.put_all(
        sink,
        &[
            Piece::Text(b"stopped rank "),
            Piece::Number(u64::from(rank)),
            Piece::Text(b" turns "),
            Piece::Number(turns),
            Piece::Text(b" "),
            Piece::Text(cause_name(cause)),
            Piece::Text(b"\n"),
        ],
    )
}

/// Adds a rank, if its bit is 1.
fn add_rank_if<O: Sink>(page: &mut Page, sink: &mut O, ranks: u16, rank: u32) -> Result<(), Failed>
    requires { rank < MOST_RANKS }
    ensures { Gathers (O.seen sink.old) (O.seen sink.new) page.old page.new
        (waiting_at ranks rank) result }
{
    if (ranks >> rank) % 2 == 1 {
        page.put_all(sink, &[Piece::Text(b" "), Piece::Number(u64::from(rank))])
    } else {
        Ok(())
    }
}

/// Adds the ranks whose bits are 1, rising.
fn add_waiting<O: Sink>(page: &mut Page, sink: &mut O, ranks: u16) -> Result<(), Failed>
    ensures { Gathers (O.seen sink.old) (O.seen sink.new) page.old page.new
        (waiting_ranks ranks) result }
{
    for rank in 0..RANKS {
        add_rank_if(page, sink, ranks, rank)?;
    }
    Ok(())
}

/// Adds the line of the ranks that wait.
fn add_waits<O: Sink>(page: &mut Page, sink: &mut O, ranks: u16) -> Result<(), Failed>
    ensures { Gathers (O.seen sink.old) (O.seen sink.new) page.old page.new
        (waits_line ranks) result }
{
    page.put(sink, b"waits")?;
    add_waiting(page, sink, ranks)?;
    page.put(sink, b"\n")
}

/// Adds the line.
fn add_fault<O: Sink>(page: &mut Page, sink: &mut O, fault: FaultLine) -> Result<(), Failed>
    requires { NamesNoAnswers fault }
    ensures { Gathers (O.seen sink.old) (O.seen sink.new) page.old page.new
        (fault_text fault) result }
{
    match fault {
        FaultLine::Usage => page.put(sink, b"usage\n"),
        FaultLine::ReadFault => page.put(sink, b"read fault\n"),
        FaultLine::TooLong => page.put(sink, b"too long\n"),
        FaultLine::BadByte { line } => add_line_refused(page, sink, b"bad-byte", line),
        FaultLine::Unexpected { line } => add_line_refused(page, sink, b"unexpected", line),
        FaultLine::NumberTooLarge { line } => {
            add_line_refused(page, sink, b"number-too-large", line)
        }
        FaultLine::TooDeep { line } => add_line_refused(page, sink, b"too-deep", line),
        FaultLine::Unended { line } => add_line_refused(page, sink, b"unended", line),
        FaultLine::UnknownName { line } => { add_line_refused(page, sink, b"unknown-name", line) }
        FaultLine::OutOfRange { line } => add_line_refused(page, sink, b"out-of-range", line),
        FaultLine::TooMany { line } => add_line_refused(page, sink, b"too-many", line),
        FaultLine::Unready { fault } => add_unready(page, sink, fault),
        FaultLine::Stopped { rank, turns, cause } => { add_stopped(page, sink, rank, turns, cause) }
        FaultLine::Waits { ranks } => add_waits(page, sink, ranks),
        FaultLine::Wide { width } => add_number(page, sink, b"wide ", width),
        FaultLine::LetterOverflow { at } => add_number(page, sink, b"overflow letter ", at),
    }
}

/// Writes the line of a refusal, a stop or another end without a text. A lane that it names carries no answers.
pub fn put_fault<O: Sink>(sink: &mut O, fault: &FaultLine) -> Result<(), Failed>
    requires { NamesNoAnswers fault.now }
    ensures { Puts (O.seen sink.old) (O.seen sink.new) (fault_text fault.now) result }
{
    let mut page = Page::blank();
    add_fault(&mut page, sink, *fault)?;
    page.write_out(sink)
}
