//! What is kept on the way over a schedule: the last event of each rank, and the givers of the parcels on the lanes.
ghost use Rattle.std.specs.Prelude.{◌≡◌, ◌<◌, [], None, length, replicate, IfOk, OnOk};
ghost use Rattle.qm_cost.specs.Books.{last_in, front_in, links_by, lanes_taken, lanes_put, lanes_given, books_after, books_of, lanes_of};

use crate::Links;
use crate::lanes::Lanes;
use qm_instr::Lane;
use qm_walk::Note;
use std::alloc::{AllocError, Global};

/// The last event of each rank, and the givers of the parcels on the lanes.
#[derive(Drop)]
pub(crate) struct Books {
    last: Vec<Option<u32>>,
    lanes: Lanes,
}

/// The last event of a rank, where there are the rank and the event.
fn last_some(last: &[Option<u32>], rank: Option<u16>) -> Option<u32>
    ensures { result ≡ last_in last.now rank }
{
    match rank {
        Some(rank) => match last.get(usize::from(rank)) {
            Some(event) => *event,
            None => None,
        },
        None => None,
    }
}

/// The giver of the parcel at a lane's front, where there are the lane, the parcel and the giver.
fn front_some(lanes: &Lanes, lane: Option<Lane>) -> Option<u32>
    ensures { result ≡ front_in (lanes_of lanes.now) lane }
{
    match lane {
        Some(lane) => lanes.front(lane),
        None => None,
    }
}

/// Takes the front parcel of a lane, where there is the lane.
fn take(lanes: &mut Lanes, lane: Option<Lane>)
    ensures { lanes_of lanes.new ≡ lanes_taken (lanes_of lanes.old) lane }
{
    if let Some(lane) = lane {
        lanes.take(lane);
    }
}

/// Puts a parcel without bits on a lane, where there is the lane. `AllocError` comes from the allocator alone.
fn put(alloc: Global, lanes: &mut Lanes, lane: Option<Lane>) -> Result<(), AllocError>
    ensures { OnOk result (lanes_of lanes.new ≡ lanes_put (lanes_of lanes.old) lane) }
{
    if let Some(lane) = lane {
        lanes.put(alloc, lane, None)?;
    }
    Ok(())
}

/// The last parcel of a lane, where there is the lane, gets its bits from this event.
fn give(lanes: &mut Lanes, lane: Option<Lane>, event: u32)
    ensures { lanes_of lanes.new ≡ lanes_given (lanes_of lanes.old) lane event }
{
    if let Some(lane) = lane {
        lanes.set_last(lane, Some(event));
    }
}

impl Books {
    /// Before the first event of so many ranks. `AllocError` comes from the allocator alone.
    pub(crate) fn start(alloc: Global, ranks: u16) -> Result<Books, AllocError>
        ensures { IfOk result (λ b.
            books_of b ≡ record { last = replicate ranks None; lanes = λ a. [] }) }
    {
        let mut last = Vec::with_capacity(alloc, usize::from(ranks))?;
        for _ in 0..ranks {
            last.push(None)?;
        }
        Ok(Books {
            last,
            lanes: Lanes::start(alloc),
        })
    }

    /// The direct predecessors of the next event.
    pub(crate) fn links(&self, note: &Note) -> Links
        requires { note.now.rank < length (books_of self.now).last }
        ensures { result ≡ links_by (books_of self.now) note.now }
    {
        Links {
            event: note.event,
            own: self.last[usize::from(note.rank)],
            partner: last_some(&self.last, note.partner),
            post: front_some(&self.lanes, note.taken),
        }
    }

    /// Writes down the next event, which has this number. `AllocError` comes from the allocator alone.
    pub(crate) fn write(&mut self, alloc: Global, at: u32, note: &Note) -> Result<(), AllocError>
        requires { note.now.rank < length (books_of self.old).last }
        ensures { OnOk result (books_of self.new ≡ books_after (books_of self.old) at note.now) }
    {
        take(&mut self.lanes, note.taken);
        put(alloc, &mut self.lanes, note.put)?;
        give(&mut self.lanes, note.given, at);
        self.last[usize::from(note.rank)] = Some(at);
        Ok(())
    }
}
