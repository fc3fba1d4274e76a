//! The places of the ranks, one event after another.
ghost use Rattle.std.specs.Prelude.{◌≡◌, ◌+◌, ◌^◌, ◌<◌, length, IfOk};
ghost use Rattle.qm_instr.specs.Programs.{Programs};
ghost use Rattle.qm_proto.specs.Model.State.{Tables};
ghost use Rattle.qm_proto.specs.Model.Runs.{next_tables};
ghost use Rattle.qm_proto.specs.Model.Schedules.{tables_at_start};
ghost use Rattle.qm_walk.specs.Notes.{note_next, AreStanding};
ghost use Rattle.qm_walk.specs.Says.{place_after};

use crate::notes::note;
use crate::{Note, Place};
use qm_instr::{Input, event_count};
use qm_proto::has_event_after;
use std::alloc::{AllocError, Global};
use std::marker::Model;

/// The places of all ranks.
#[derive(Drop)]
pub struct Walk {
    places: Vec<Place>,
}

impl Model for Walk {
    ghost use Rattle.std.specs.Prelude.{List};
    ghost use Rattle.qm_walk.specs.declared.Place.{Place};

    ghost Value = { List Place };

    ghost view = { λ w. w.places.items };
}

/// The place behind an event of an instruction that has so many.
fn behind(place: Place, events: u32) -> Place
    requires stage { place.stage + 1 < 2 ^ 32 }
    requires at { place.at + 1 < 2 ^ 32 }
    ensures { result ≡ place_after events place }
{
    if has_event_after(place.stage, events) {
        return Place {
            stage: place.stage + 1,
            ..place
        };
    }
    Place {
        at: place.at + 1,
        stage: 0,
    }
}

impl Walk {
    /// Each rank before its first event. `AllocError` comes from the allocator alone.
    pub fn start(alloc: Global, input: &Input) -> Result<Walk, AllocError>
        ensures { IfOk result (λ w. AreStanding input.now (tables_at_start input.now) w) }
    {
        let mut places = Vec::with_capacity(alloc, usize::from(input.ranks()))?;
        for _ in 0..input.ranks() {
            places.push(Place { at: 0, stage: 0 })?;
        }
        Ok(Walk { places })
    }

    /// The rank's next event. `None` exactly where it has none left; the walk then stays. Where the ranks stand in these places, it is the
    /// event that the model's table has, and they stand in the new ones behind it.
    pub fn next(&mut self, input: &Input, rank: u16) -> Option<Note>
        requires known { rank < length input.now.ranks }
        requires count { length self.old ≡ length input.now.ranks }
        ensures note { (t : Tables) → AreStanding input.now t self.old → result ≡ note_next input.now t rank }
        ensures walk { (t : Tables) → AreStanding input.now t self.old
            → AreStanding input.now (next_tables input.now t rank) self.new }
    {
        let place = self.places[usize::from(rank)];
        if place.at >= input.count(rank) {
            return None;
        }
        let Some(i) = input.instr(rank, place.at) else {
            return None;
        };
        let Some(note) = note(rank, i, place.stage) else {
            return None;
        };
        self.places[usize::from(rank)] = behind(place, event_count(i));
        Some(note)
    }
}
