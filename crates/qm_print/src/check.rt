//! The check text.
ghost use Rattle.std.specs.Prelude.{◌≡◌};
ghost use Rattle.qm_io.specs.Ends.{Puts};
ghost use Rattle.qm_instr.specs.Programs.{instruction_total};
ghost use Rattle.qm_print.specs.CheckText.{check_text, yes_or_no};
ghost use Rattle.qm_print.specs.Gathering.{Gathers};

use crate::page::{Page, Piece};
use qm_check::Ready;
use qm_instr::Input;
use qm_io::{Failed, Sink};

/// How many instructions all ranks have, at most [`qm_limits::MOST_INSTRUCTIONS`].
fn instruction_total(input: &Input) -> u32
    ensures { result ≡ instruction_total input.now }
{
    let mut total = 0;
    for rank in 0..input.ranks() {
        total += input.count(rank);
    }
    total
}

/// How the text answers a question.
fn yes_or_no(b: bool) -> &'static [u8]
    ensures { result.now ≡ yes_or_no b }
{
    if b { b"yes" } else { b"no" }
}

/// Adds the check text.
fn add_check<O: Sink>(
    page: &mut Page,
    sink: &mut O,
    ready: &Ready,
    rendezvous: bool,
) -> Result<(), Failed>
    ensures { Gathers (O.seen sink.old) (O.seen sink.new) page.old page.new
        (check_text ready.now rendezvous) result }
{
    let input = ready.input();
    page.put_all(
        sink,
        &[
            Piece::Text(b"check 1\nranks "),
            Piece::Number(u64::from(input.ranks())),
            Piece::Text(b"\ncapacity "),
            Piece::Number(u64::from(ready.capacity())),
            Piece::Text(b"\ninstructions "),
            Piece::Number(u64::from(instruction_total(input))),
            Piece::Text(b"\nevents "),
            Piece::Number(ready.events()),
            Piece::Text(b"\nown "),
            Piece::Number(ready.own_total()),
            Piece::Text(b"\nprotocol "),
            Piece::Number(ready.protocol_total()),
            Piece::Text(b"\nrendezvous "),
            Piece::Text(yes_or_no(rendezvous)),
            Piece::Text(b"\nend\n"),
        ],
    )
}

/// Writes the check text of ready programs: totals over all ranks, and whether their rendezvous run ends.
pub fn put_check<O: Sink>(sink: &mut O, ready: &Ready, rendezvous: bool) -> Result<(), Failed>
    ensures { Puts (O.seen sink.old) (O.seen sink.new) (check_text ready.now rendezvous) result }
{
    let mut page = Page::blank();
    add_check(&mut page, sink, ready, rendezvous)?;
    page.write_out(sink)
}
