//! One pass over a schedule.
ghost use Rattle.std.specs.Prelude.{◌≤◌, length, IfOk};
ghost use Rattle.qm_limits.specs.declared.TheConstants.{MOST_EVENTS};
ghost use Rattle.qm_proto.specs.Model.Schedules.{IsLegal};
ghost use Rattle.qm_cost.specs.Longest.{AreMarked};
ghost use Rattle.qm_cost.specs.Reports.{AreFew};
ghost use Rattle.qm_cost.specs.Turns.{turns_of};

use crate::books::Books;
use crate::longest::next;
use crate::{Delays, Mark};
use qm_instr::Input;
use qm_walk::Walk;
use std::alloc::{AllocError, Global};

/// The longest chain that ends at each event of a schedule. `AllocError` comes from the allocator alone.
pub(crate) fn pass(
    alloc: Global,
    input: &Input,
    schedule: &[u32],
    delays: Delays,
) -> Result<Vec<Mark>, AllocError>
    requires legal { IsLegal input.now schedule.now }
    requires delays { AreFew delays }
    ensures marked { IfOk result (λ ms.
        AreMarked (turns_of input.now schedule.now) delays ms.items (length schedule.now)) }
    ensures few { IfOk result (λ ms. length ms.items ≤ MOST_EVENTS) }
{
    let mut walk = Walk::start(alloc, input)?;
    let mut books = Books::start(alloc, input.ranks())?;
    let mut marks = Vec::with_capacity(alloc, schedule.len())?;
    for rank in schedule {
        let Some(note) = walk.next(input, *rank as u16) else {
            unreachable!()
        };
        let links = books.links(&note);
        let mark = next(&marks, links, delays, note.rank);
        books.write(alloc, marks.len() as u32, &note)?;
        marks.push(mark)?;
    }
    Ok(marks)
}
