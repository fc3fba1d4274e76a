//! The cost of a run: a machine is played in the order of a seed, and the text tells how long that takes, and the chain of events that
//! makes it so.
ghost use Rattle.std.specs.Prelude.{◌≡◌, ◌++◌, OnOk, IfOk, length};
ghost use Rattle.std.specs.List.{flat_map};
ghost use Rattle.qm_cost.specs.Reports.{AreFew};
ghost use Rattle.qm_tool.specs.Answers.{AnswersReady};
ghost use Rattle.qm_tool.specs.CostText.{cost_head, cost_text, link_line, numbered};
ghost use Rattle.qm_tool.specs.Due.{ReadsReady};

use crate::answer::Answer;
use crate::command::{Command, Order};
use crate::refusal::Refusal;
use crate::running::{halt_of, machine_of, play_as, stop_line};
use crate::status::Status;
use itoa::Buffer;
use qm_check::Ready;
use qm_cost::{Delays, Link, Report, cost};
use qm_denot::Amps;
use qm_print::event_name;
use qm_store::ScaledAmps;
use std::alloc::{AllocError, Global};

/// Appends a number between two texts. `AllocError` comes from the allocator alone.
fn push_numbered(
    text: &mut Vec<u8>,
    before: &[u8],
    number: u64,
    after: &[u8],
) -> Result<(), AllocError>
    ensures { OnOk result (text.new.items ≡ text.old.items
        ++ numbered before.now number after.now) }
{
    let mut buffer = Buffer::new();
    text.extend_from_slice(before)?;
    text.extend_from_slice(buffer.format(number).as_bytes())?;
    text.extend_from_slice(after)?;
    Ok(())
}

/// Appends the lines before the chain. `AllocError` comes from the allocator alone.
fn push_head(text: &mut Vec<u8>, events: usize, report: &Report) -> Result<(), AllocError>
    ensures { OnOk result (text.new.items ≡ text.old.items ++ cost_head events report.now) }
{
    push_numbered(text, b"cost 1\nevents ", events as u64, b"\n")?;
    push_numbered(text, b"time ", report.time(), b"\n")?;
    push_numbered(text, b"chain ", report.chain().len() as u64, b"\n")
}

/// Appends the line of an event of the chain. `AllocError` comes from the allocator alone.
fn push_link(text: &mut Vec<u8>, link: &Link) -> Result<(), AllocError>
    ensures { OnOk result (text.new.items ≡ text.old.items ++ link_line link.now) }
{
    push_numbered(text, b"", u64::from(link.at), b" ")?;
    push_numbered(text, b"", u64::from(link.rank), b" ")?;
    text.extend_from_slice(event_name(link.event))?;
    push_numbered(text, b" ", link.finish, b"\n")
}

/// Appends the lines of the chain. `AllocError` comes from the allocator alone.
fn push_chain(text: &mut Vec<u8>, chain: &[Link]) -> Result<(), AllocError>
    ensures { OnOk result (text.new.items ≡ text.old.items ++ flat_map link_line chain.now) }
{
    for link in chain {
        push_link(text, link)?;
    }
    Ok(())
}

/// The cost text of a schedule of so many events. `AllocError` comes from the allocator alone.
fn cost_text(alloc: Global, events: usize, report: &Report) -> Result<Vec<u8>, AllocError>
    ensures { IfOk result (λ text. text.items ≡ cost_text events report.now) }
{
    let mut text = Vec::new(alloc);
    push_head(&mut text, events, report)?;
    push_chain(&mut text, report.chain())?;
    text.extend_from_slice(b"end\n")?;
    Ok(text)
}

/// How long the programs of a text run in the order of a seed, with these delays; or where and why the run stops.
pub(crate) fn cost_of(
    alloc: Global,
    seed: u64,
    delays: Delays,
    text: Vec<u8>,
    ready: Ready,
) -> Result<Answer<ScaledAmps>, Refusal>
    requires ready { ReadsReady text.items ready }
    requires few { AreFew delays }
    ensures { AnswersReady (⟦<ScaledAmps as Amps>⟧.store) ready (Command.Cost seed delays) result }
{
    let mut machine = machine_of(alloc, text, ready)?;
    play_as(&mut machine, Order::Seeded { seed });
    if let Some(halt) = halt_of(&machine) {
        return Ok(Answer::Line {
            fault: stop_line(halt),
        });
    }
    let report = cost(alloc, machine.ready(), machine.schedule(), delays)?;
    let text = cost_text(alloc, machine.schedule().len(), &report)?;
    Ok(Answer::Text {
        status: Status::Ok,
        text,
    })
}
