//! The blocks of a schedule.
ghost use Rattle.std.specs.Prelude.{◌<◌, ◌≤◌, ◌≡◌, ◌++◌, length, IsSome, Some};
ghost use Rattle.qm_io.specs.Ends.{Puts};
ghost use Rattle.qm_instr.specs.Programs.{IsInRange};
ghost use Rattle.qm_proto.specs.Model.Schedules.{IsLegal, IsLegalFrom, state_at_start, tables_at_start};
ghost use Rattle.qm_print.specs.Blocks.{event_line, event_lines, event_name, TurnsLaw, trace_block, turn_line, turn_lines, turns_block, turns_head};
ghost use Rattle.qm_print.specs.Gathering.{Gathers};
ghost use Rattle.qm_print.specs.Walks.{StandsIn, event_at, position_after};

use crate::RANKS;
use crate::page::{Page, Piece};
use qm_check::Ready;
use qm_instr::{Input, event_count};
use qm_io::{Failed, Sink};
use qm_proto::{Event, has_event_after, next_event};

/// Where a rank stands: the number of its next instruction, and how many events of that it has had.
#[derive(Clone, Copy)]
pub(crate) struct Position {
    at: u32,
    stage: u32,
}

/// The event that a rank has next at a position; the position goes on behind it.
fn pass(input: &Input, rank: u16, position: &mut Position) -> Event
    requires known { rank < length input.now.ranks }
    requires left { IsSome (event_at input.now rank position.old) }
    requires in_range { IsInRange input.now }
    ensures event { event_at input.now rank position.old ≡ Some result }
    ensures position { position.new ≡ position_after input.now rank position.old }
{
    let Some(instr) = input.instr(rank, position.at) else {
        unreachable!();
    };
    let Some(event) = next_event(instr, position.stage) else {
        unreachable!();
    };
    if has_event_after(position.stage, event_count(instr)) {
        position.stage += 1;
    } else {
        *position = Position {
            at: position.at + 1,
            stage: 0,
        };
    }
    event
}

/// The printed name of an event.
pub fn event_name(event: Event) -> &'static [u8]
    ensures { result.now ≡ event_name event }
{
    match event {
        Event::Alloc => b"alloc",
        Event::Gate => b"gate",
        Event::Free => b"free",
        Event::Measure => b"measure",
        Event::Set => b"set",
        Event::Xor => b"xor",
        Event::When => b"when",
        Event::SendBit => b"sendbit",
        Event::RecvBit => b"recvbit",
        Event::Pair => b"pair",
        Event::Cross => b"cx",
        Event::Had => b"had",
        Event::Near => b"near",
        Event::Post => b"post",
        Event::Test => b"test",
        Event::Deliver => b"deliver",
        Event::FixX => b"fix-x",
        Event::FixZ => b"fix-z",
    }
}

/// Adds the first line of a block of so many turns.
fn add_turns_head<O: Sink>(page: &mut Page, sink: &mut O, turns: usize) -> Result<(), Failed>
    ensures { Gathers (O.seen sink.old) (O.seen sink.new) page.old page.new
        (turns_head turns) result }
{
    page.put_all(
        sink,
        &[
            Piece::Text(b"turns "),
            Piece::Number(turns as u64),
            Piece::Text(b"\n"),
        ],
    )
}

/// Adds the line of a turn.
fn add_turn<O: Sink>(page: &mut Page, sink: &mut O, rank: u32) -> Result<(), Failed>
    ensures { Gathers (O.seen sink.old) (O.seen sink.new) page.old page.new
        (turn_line rank) result }
{
    page.put_all(sink, &[Piece::Number(u64::from(rank)), Piece::Text(b"\n")])
}

/// Adds a line for each turn: its rank.
fn add_turn_lines<O: Sink>(page: &mut Page, sink: &mut O, schedule: &[u32]) -> Result<(), Failed>
    ensures { Gathers (O.seen sink.old) (O.seen sink.new) page.old page.new
        (turn_lines schedule.now) result }
{
    for rank in schedule {
        add_turn(page, sink, *rank)?;
    }
    Ok(())
}

/// Adds the turns block.
fn add_turns<O: Sink>(page: &mut Page, sink: &mut O, schedule: &[u32]) -> Result<(), Failed>
    ensures { Gathers (O.seen sink.old) (O.seen sink.new) page.old page.new
        (turns_block schedule.now) result }
{
    add_turns_head(page, sink, schedule.len())?;
    add_turn_lines(page, sink, schedule)?;
    page.put(sink, b"end\n")
}

/// Writes the turns block of a schedule.
pub fn put_turns<O: Sink>(sink: &mut O, schedule: &[u32]) -> Result<(), Failed>
    ensures { Puts (O.seen sink.old) (O.seen sink.new) (turns_block schedule.now) result }
{
    let mut page = Page::blank();
    add_turns(&mut page, sink, schedule)?;
    page.write_out(sink)
}

/// Different schedules have different turns blocks, so a schedule can be read off its block.
pub fn turns_law()
    ensures { TurnsLaw }
{}

/// Adds the line of a turn with its event.
fn add_event<O: Sink>(page: &mut Page, sink: &mut O, rank: u32, event: Event) -> Result<(), Failed>
    ensures { Gathers (O.seen sink.old) (O.seen sink.new) page.old page.new
        (event_line rank (event_name event)) result }
{
    page.put_all(
        sink,
        &[
            Piece::Number(u64::from(rank)),
            Piece::Text(b" "),
            Piece::Text(event_name(event)),
            Piece::Text(b"\n"),
        ],
    )
}

/// Adds a line for each turn: its rank and its event. The ranks stand at their starts.
fn add_events<O: Sink>(
    page: &mut Page,
    sink: &mut O,
    input: &Input,
    schedule: &[u32],
    positions: &mut [Position],
) -> Result<(), Failed>
    requires in_range { IsInRange input.now }
    requires legal { IsLegalFrom input.now (state_at_start input.now) schedule.now }
    requires stands { StandsIn input.now positions.old (tables_at_start input.now) }
    ensures { Gathers (O.seen sink.old) (O.seen sink.new) page.old page.new
        (event_lines input.now (state_at_start input.now) schedule.now) result }
{
    for rank in schedule {
        let event = pass(input, *rank as u16, &mut positions[*rank as usize]);
        add_event(page, sink, *rank, event)?;
    }
    Ok(())
}

/// Adds the trace block.
fn add_trace<O: Sink>(
    page: &mut Page,
    sink: &mut O,
    input: &Input,
    schedule: &[u32],
) -> Result<(), Failed>
    requires { IsLegalFrom input.now (state_at_start input.now) schedule.now }
    ensures { Gathers (O.seen sink.old) (O.seen sink.new) page.old page.new
        (trace_block input.now schedule.now) result }
{
    let mut positions = [Position { at: 0, stage: 0 }; RANKS];
    let positions = &mut positions[..usize::from(input.ranks())];
    add_turns_head(page, sink, schedule.len())?;
    add_events(page, sink, input, schedule, positions)?;
    page.put(sink, b"end\n")
}

/// Writes the trace block of a legal schedule: its turns with their events.
pub fn put_trace<O: Sink>(sink: &mut O, ready: &Ready, schedule: &[u32]) -> Result<(), Failed>
    requires { IsLegal ready.now schedule.now }
    ensures { Puts (O.seen sink.old) (O.seen sink.new) (trace_block ready.now schedule.now) result }
{
    let mut page = Page::blank();
    add_trace(&mut page, sink, ready.input(), schedule)?;
    page.write_out(sink)
}
