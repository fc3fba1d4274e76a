//! The report, from the longest chain that ends at each event.
ghost use Rattle.std.specs.Prelude.{◌≡◌, ℕ, ◌<◌, ◌≤◌, Some, None, IfOk, IfSome, length, map, reverse};
ghost use Rattle.qm_limits.specs.declared.TheConstants.{MOST_EVENTS};
ghost use Rattle.qm_cost.specs.Longest.{finish_in, before_in, Leads, IsBelow, link_at, time_at};
ghost use Rattle.qm_cost.specs.Tellings.{IsTold};

use crate::{Link, Mark, Report};
use qm_proto::Event;
use std::alloc::{AllocError, Global};

/// The first event at which a longest chain ends. `None` exactly where there is none.
fn end(marks: &[Mark]) -> Option<u32>
    requires few { length marks.now ≤ MOST_EVENTS }
    ensures none { result ≡ None → length marks.now ≡ 0 }
    ensures known { IsBelow (length marks.now) result }
    ensures most { IfSome result (λ e.
        (j : ℕ) → j < length marks.now → finish_in marks.now j ≤ finish_in marks.now e) }
    ensures least { IfSome result (λ e.
        (j : ℕ) → j < e → finish_in marks.now j < finish_in marks.now e) }
{
    if marks.is_empty() {
        return None;
    }
    let mut last = 0;
    for (j, mark) in marks.iter().enumerate() {
        if marks[last].finish < mark.finish {
            last = j;
        }
    }
    Some(last as u32)
}

/// The events from one on, back to the first. `AllocError` comes from the allocator alone.
fn back(alloc: Global, marks: &[Mark], end: Option<u32>) -> Result<Vec<u32>, AllocError>
    requires known { IsBelow (length marks.now) end }
    requires below { (j : ℕ) → j < length marks.now → IsBelow j (before_in marks.now j) }
    ensures { IfOk result (λ c. Leads (before_in marks.now) end c.items None) }
{
    let mut chain = Vec::new(alloc);
    let mut next = end;
    while let Some(j) = next {
        chain.push(j)?;
        next = marks[j as usize].before;
    }
    Ok(chain)
}

/// An event of the chain, as its mark tells it.
fn link(marks: &[Mark], at: u32) -> Link
    ensures { result ≡ link_at marks.now at }
{
    let mark = match marks.get(at as usize) {
        Some(mark) => *mark,
        None => Mark {
            finish: 0,
            before: None,
            rank: 0,
            event: Event::Alloc,
        },
    };
    Link {
        at,
        rank: u32::from(mark.rank),
        event: mark.event,
        finish: mark.finish,
    }
}

/// The events of a chain that is listed from its end, from the first one to the last. `AllocError` comes from the allocator alone.
fn forth(alloc: Global, marks: &[Mark], back: &[u32]) -> Result<Vec<Link>, AllocError>
    ensures { IfOk result (λ v. v.items ≡ map (link_at marks.now) (reverse back.now)) }
{
    back.iter().rev().map(|at| link(marks, *at)).collect(alloc)
}

/// The time at which an event is at its end, where there is one.
fn time(marks: &[Mark], end: Option<u32>) -> u64
    ensures { result ≡ time_at marks.now end }
{
    match end {
        Some(at) => match marks.get(at as usize) {
            Some(mark) => mark.finish,
            None => 0,
        },
        None => 0,
    }
}

/// The report on events with these marks. `AllocError` comes from the allocator alone.
pub(crate) fn report(alloc: Global, marks: &[Mark]) -> Result<Report, AllocError>
    requires few { length marks.now ≤ MOST_EVENTS }
    requires below { (j : ℕ) → j < length marks.now → IsBelow j (before_in marks.now j) }
    ensures { IfOk result (λ r. IsTold marks.now r) }
{
    let last = end(marks);
    let events = back(alloc, marks, last)?;
    let chain = forth(alloc, marks, &events)?;
    let time = time(marks, last);
    Ok(Report { time, chain })
}
