//! The places of the wires: each live wire in a slot of a rank, or among its near or its far halves.
#![tactic(auto)]

ghost use Rattle.std.specs.Prelude.{◌≡◌, ◌<◌, true, Some, None, IsSome, length, IfOk};
ghost use Rattle.std.specs.Vec.{vec_capacity};
ghost use Rattle.qm_owner.specs.Places.{place_of, wire_at, without, no_places, is_known, IsFree, IsPlacing, with_wire, with_wire_moved};
ghost use Rattle.qm_owner.specs.Slots.{with_slots};

use qm_denot::Wire;
use std::alloc::{AllocError, Global};
use std::marker::Model;

/// How many slots each rank has here; a program may use fewer.
const SLOTS: usize = qm_limits::SLOTS as usize;

/// A place of a wire.
#[derive(Clone, Copy, PartialEq, Eq)]
pub enum Place {
    /// Slot `q` of rank `rank`.
    Slot { rank: u16, q: u8 },
    /// Among the near halves of rank `rank`.
    Near { rank: u16 },
    /// Among the far halves of rank `rank`, which is the receiver.
    Far { rank: u16 },
}

/// The slots of one rank, each with its wire, where it is full.
type Row = [Option<Wire>; SLOTS];

/// Each live wire with its place. No wire has two places, and no slot two wires.
#[derive(Drop)]
pub struct Places {
    placed: Vec<(Wire, Place)>,
    slots: Vec<Row>,
    capacity: u32,
}

impl Model for Places {
    ghost use Rattle.qm_owner.specs.Places.{PlaceMap};

    ghost Value = { PlaceMap };

    ghost use Rattle.qm_owner.specs.Slots.{map_of, IsKept};

    ghost view = { λ a. map_of a.placed.items a.slots.items a.capacity };

    ghost invariant = { λ a. IsKept a.placed a.slots.items a.capacity };
}

/// The place of a wire among these.
fn place_among(placed: &[(Wire, Place)], w: Wire) -> Option<Place>
    ensures { result ≡ place_of placed.now w }
{
    for entry in placed {
        if entry.0 == w {
            return Some(entry.1);
        }
    }
    None
}

/// Takes a wire out of the list.
fn remove(placed: &mut Vec<(Wire, Place)>, w: Wire)
    ensures rest { placed.new.items ≡ without placed.old.items w }
    ensures room { vec_capacity placed.new ≡ vec_capacity placed.old }
{
    placed.retain(|entry| entry.0 != w);
}

/// Fills a slot, or empties it; another place changes no slot.
fn set_slot(slots: &mut Vec<Row>, p: Place, w: Option<Wire>)
    requires { is_known (length slots.old.items) p ≡ true }
    ensures { slots.new.items ≡ with_slots slots.old.items p w }
{
    if let Place::Slot { rank, q } = p {
        let row = &mut slots[usize::from(rank)];
        row[usize::from(q)] = w;
    }
}

impl Places {
    /// No places yet, for ranks below `ranks` and up to `capacity` wires. `AllocError` comes from the allocator alone.
    pub fn start(alloc: Global, ranks: u16, capacity: u32) -> Result<Places, AllocError>
        ensures { IfOk result (λ p. p ≡ no_places ranks capacity) }
    {
        let empty: Row = [None; SLOTS];
        let mut slots = Vec::with_capacity(alloc, usize::from(ranks))?;
        for _ in 0..ranks {
            slots.push_reserved(empty);
        }
        Ok(Places {
            placed: Vec::with_capacity(alloc, capacity as usize)?,
            slots,
            capacity,
        })
    }

    /// The place of a wire; None exactly where it has none.
    pub fn place(&self, w: Wire) -> Option<Place>
        ensures place { result ≡ place_of self.now.placed w }
        ensures placing { IsPlacing self.now.placed }
    {
        place_among(&self.placed, w)
    }

    /// The wire in a slot; None exactly where the slot is empty, or there is no such slot.
    pub fn slot(&self, rank: u16, q: u8) -> Option<Wire>
        ensures { result ≡ wire_at self.now.placed (Place.Slot rank q) }
    {
        let row = self.slots.get(usize::from(rank))?;
        *row.get(usize::from(q))?
    }

    /// Gives a wire a place. The wire has none; a slot is one that there is, and empty; and fewer wires than the capacity have places.
    pub fn put(&mut self, w: Wire, p: Place)
        requires absent { place_of self.old.placed w ≡ None }
        requires known { is_known self.old.ranks p ≡ true }
        requires free { IsFree self.old.placed p }
        requires room { length self.old.placed < self.old.capacity }
        ensures places { self.new ≡ with_wire self.old w p }
        ensures placing { IsPlacing self.new.placed }
    {
        set_slot(&mut self.slots, p, Some(w));
        self.placed.push_reserved((w, p));
    }

    /// Takes a wire away from its place, which it answers.
    pub fn take(&mut self, w: Wire) -> Place
        requires { IsSome (place_of self.old.placed w) }
        ensures place { place_of self.old.placed w ≡ Some result }
        ensures rest { self.new ≡ record self.old { placed = without self.old.placed w } }
        ensures room { length self.new.placed < self.new.capacity }
        ensures placing { IsPlacing self.new.placed }
    {
        match self.place(w) {
            Some(p) => {
                set_slot(&mut self.slots, p, None);
                remove(&mut self.placed, w);
                p
            }
            None => unreachable!(),
        }
    }

    /// Moves a wire from its place to another. A slot is one that there is, and empty.
    pub fn shift(&mut self, w: Wire, p: Place)
        requires placed { IsSome (place_of self.old.placed w) }
        requires known { is_known self.old.ranks p ≡ true }
        requires free { IsFree self.old.placed p }
        ensures places { self.new ≡ with_wire_moved self.old w p }
        ensures placing { IsPlacing self.new.placed }
    {
        self.take(w);
        self.put(w, p);
    }
}
