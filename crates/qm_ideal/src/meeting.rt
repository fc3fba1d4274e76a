//! The rendezvous run: where each rank stands, and which parcels have bits.
ghost use Rattle.std.specs.Prelude.{is_some, if◌then◌else◌, nat_lt, fold, map, option_to_list, ◌≡◌, ◌<◌, ◌+◌, ◌^◌, ℕ, [], true, false, length, Some, None, MatchOption, IfOk, OnOk, IsTrue, ◌↔◌};
ghost use Rattle.qm_instr.specs.Programs.{IsInRange};
ghost use Rattle.qm_proto.specs.Model.Rows.{instr_at};
ghost use Rattle.qm_proto.specs.Model.Runs.{events_at};
ghost use Rattle.qm_ideal.specs.MeetingRuns.{IsMeetingsEnd};
ghost use Rattle.qm_proto.specs.Model.Schedules.{RendezvousEnds};
ghost use Rattle.qm_proto.specs.Model.State.{with_at};
ghost use Rattle.qm_ideal.specs.Meetings.{IsLeast, Stand, shape_next, is_wanted_at, rule_holds, may_go, go, lanes_after};
ghost use Rattle.qm_ideal.specs.MeetingViews.{stand_in, maybe_shape, move_meant};
ghost use Rattle.qm_ideal.specs.Lanes.{lanes_of};

use crate::lanes::Lanes;
use crate::run::receives;
use crate::shapes::{EventShape, Move, shape_at};
use qm_check::Ready;
use qm_instr::{Input, Instr, Lane, event_count};
use qm_proto::{Rule, has_event_after};
use std::alloc::{AllocError, Global};

/// The number of a rank's next instruction, and how many events of it were done.
#[derive(Clone, Copy)]
struct Position {
    at: u32,
    stage: u32,
}

/// Where the ranks stand, and for each parcel of a lane whether it has bits.
#[derive(Drop)]
struct Meeting {
    positions: Vec<Position>,
    lanes: Lanes<bool>,
}

impl Meeting {
    /// Each rank before its first event, and empty lanes.
    fn start(alloc: Global, input: &Input) -> Result<Meeting, AllocError>
        ensures start { IfOk result (λ m. stand_in m
            ≡ record { at = λ r. 0; stage = λ r. 0; lanes = λ a. [] }) }
        ensures ranks { IfOk result (λ m. length m.positions.items ≡ length input.now.ranks) }
        ensures in_range { OnOk result (IsInRange input.now) }
    {
        let mut positions = Vec::with_capacity(alloc, usize::from(input.ranks()))?;
        for _ in 0..input.ranks() {
            positions.push_reserved(Position { at: 0, stage: 0 });
        }
        Ok(Meeting {
            positions,
            lanes: Lanes::start(alloc),
        })
    }

    /// The instruction at which a rank stands; none where there is no such rank.
    fn current(&self, input: &Input, rank: u16) -> Option<Instr>
        requires { length self.now.positions.items ≡ length input.now.ranks }
        ensures { result ≡ instr_at input.now rank ((stand_in self.now).at rank) }
    {
        match self.positions.get(usize::from(rank)) {
            Some(position) => input.instr(rank, position.at),
            None => None,
        }
    }

    /// How many events of its instruction a rank has had.
    fn stage(&self, rank: u16) -> u32
        ensures { result ≡ (stand_in self.now).stage rank }
    {
        match self.positions.get(usize::from(rank)) {
            Some(position) => position.stage,
            None => 0,
        }
    }

    /// How many events the instruction has at which a rank stands.
    fn events(&self, input: &Input, rank: u16) -> u32
        requires { length self.now.positions.items ≡ length input.now.ranks }
        ensures { result ≡ events_at (instr_at input.now rank ((stand_in self.now).at rank)) }
    {
        match self.current(input, rank) {
            Some(instr) => event_count(instr),
            None => 0,
        }
    }

    /// The event at which a rank stands, where it has one left.
    fn shape(&self, input: &Input, rank: u16) -> Option<EventShape>
        requires { length self.now.positions.items ≡ length input.now.ranks }
        ensures { maybe_shape result ≡ shape_next (instr_at input.now) (stand_in self.now) rank }
    {
        match self.current(input, rank) {
            Some(instr) => shape_at(rank, instr, self.stage(rank)),
            None => None,
        }
    }

    /// Whether a lane's receiver stands at the first event of a receive of it, and it is empty.
    fn is_wanted(&self, input: &Input, lane: Lane) -> bool
        requires { length self.now.positions.items ≡ length input.now.ranks }
        ensures { result ≡ is_wanted_at (instr_at input.now) (stand_in self.now) lane }
    {
        self.stage(lane.to) == 0
            && (receives(lane.to, self.current(input, lane.to), lane) && self.lanes.is_empty(lane))
    }

    /// Whether what an event waits for is so, where no buffer has room for a pair that isn't wanted.
    fn holds(&self, input: &Input, rule: Rule) -> bool
        requires { length self.now.positions.items ≡ length input.now.ranks }
        ensures { result ≡ rule_holds (instr_at input.now) (stand_in self.now) rule }
    {
        match rule {
            Rule::Always => true,
            Rule::PairRoom { lane } | Rule::Engaged { lane } => self.is_wanted(input, lane),
            Rule::Filled { lane } => self.lanes.front(lane) == Some(true),
        }
    }

    /// Whether a rank is enabled.
    fn is_enabled(&self, input: &Input, rank: u16) -> bool
        requires { length self.now.positions.items ≡ length input.now.ranks }
        ensures { result ≡ may_go (instr_at input.now) (stand_in self.now) rank }
    {
        match self.shape(input, rank) {
            Some(shape) => self.holds(input, shape.rule),
            None => false,
        }
    }

    /// The lowest enabled rank, where one is.
    fn lowest_enabled(&self, input: &Input) -> Option<u16>
        requires { length self.now.positions.items ≡ length input.now.ranks }
        ensures { MatchOption result
            ((r : ℕ) → r < length input.now.ranks
            → may_go (instr_at input.now) (stand_in self.now) r ≡ false)
            (λ r. IsLeast (may_go (instr_at input.now) (stand_in self.now))
            (length input.now.ranks) r) }
    {
        for rank in 0..input.ranks() {
            if self.is_enabled(input, rank) {
                return Some(rank);
            }
        }
        None
    }

    /// Does what an event does to a lane. `AllocError` comes from the allocator alone.
    fn do_move(&mut self, alloc: Global, act: Option<Move>) -> Result<(), AllocError>
        ensures lanes { OnOk result (lanes_of self.new.lanes
            ≡ fold lanes_after (lanes_of self.old.lanes) (map move_meant (option_to_list act))) }
        ensures positions { OnOk result (self.new.positions ≡ self.old.positions) }
    {
        match act {
            Some(Move::Puts { lane, told }) => self.lanes.put(alloc, lane, told)?,
            Some(Move::Tells { lane }) => self.lanes.set_last(lane, true),
            Some(Move::Gets { lane }) => self.lanes.take(lane),
            None => {}
        }
        Ok(())
    }

    /// Goes on to the next event of an instruction that has so many.
    fn move_on(&mut self, rank: u16, events: u32)
        requires known { rank < length self.old.positions.items }
        requires at { (stand_in self.old).at rank + 1 < 2 ^ 32 }
        requires stage { (stand_in self.old).stage rank + 1 < 2 ^ 32 }
        ensures at { (stand_in self.new).at
            ≡ with_at (stand_in self.old).at rank
            (if nat_lt ((stand_in self.old).stage rank + 1) events then (stand_in self.old).at rank
            else (stand_in self.old).at rank + 1) }
        ensures stage { (stand_in self.new).stage
            ≡ with_at (stand_in self.old).stage rank
            (if nat_lt ((stand_in self.old).stage rank + 1) events
            then (stand_in self.old).stage rank + 1 else 0) }
        ensures lanes { self.new.lanes ≡ self.old.lanes }
        ensures ranks { length self.new.positions.items ≡ length self.old.positions.items }
    {
        let position = &mut self.positions[usize::from(rank)];
        if has_event_after(position.stage, events) {
            position.stage += 1;
        } else {
            position.at += 1;
            position.stage = 0;
        }
    }

    /// Does the next event of a rank. `AllocError` comes from the allocator alone.
    fn step(&mut self, alloc: Global, input: &Input, rank: u16) -> Result<(), AllocError>
        requires same { length self.old.positions.items ≡ length input.now.ranks }
        requires known { rank < length input.now.ranks }
        requires at { (stand_in self.old).at rank + 1 < 2 ^ 32 }
        requires stage { (stand_in self.old).stage rank + 1 < 2 ^ 32 }
        ensures did { OnOk result (stand_in self.new
            ≡ go (instr_at input.now) (stand_in self.old) rank) }
        ensures ranks { OnOk result (length self.new.positions.items
            ≡ length self.old.positions.items) }
    {
        let Some(shape) = self.shape(input, rank) else {
            return Ok(());
        };
        let events = self.events(input, rank);
        self.do_move(alloc, shape.act)?;
        self.move_on(rank, events);
        Ok(())
    }

    /// Whether no rank has an event left.
    fn all_ended(&self, input: &Input) -> bool
        requires { length self.now.positions.items ≡ length input.now.ranks }
        ensures yes { result ≡ true → (r : ℕ) → r < length input.now.ranks
            → is_some (shape_next (instr_at input.now) (stand_in self.now) r) ≡ false }
        ensures no { result ≡ false
            → (r : ℕ) × (r < length input.now.ranks)
            × (is_some (shape_next (instr_at input.now) (stand_in self.now) r) ≡ true) }
    {
        for rank in 0..input.ranks() {
            if self.shape(input, rank).is_some() {
                return false;
            }
        }
        true
    }

    /// The run that steps the lowest enabled rank, up to its end. `AllocError` comes from the allocator alone.
    fn of(alloc: Global, input: &Input) -> Result<Meeting, AllocError>
        ensures end { IfOk result (λ m. IsMeetingsEnd input.now (stand_in m)) }
        ensures ranks { IfOk result (λ m. length m.positions.items ≡ length input.now.ranks) }
    {
        let mut meeting = Meeting::start(alloc, input)?;
        while let Some(rank) = meeting.lowest_enabled(input) {
            meeting.step(alloc, input, rank)?;
        }
        Ok(meeting)
    }
}

/// Whether the rendezvous run ends: the run that steps the lowest enabled rank, where every buffer holds one half and letters, tests and
/// outcomes are left aside, leaves no rank an event. `AllocError` comes from the allocator alone.
pub fn rendezvous(alloc: Global, ready: &Ready) -> Result<bool, AllocError>
    ensures { IfOk result (λ b. IsTrue b ↔ RendezvousEnds ready.now) }
{
    let input = ready.input();
    let meeting = Meeting::of(alloc, input)?;
    Ok(meeting.all_ended(input))
}
