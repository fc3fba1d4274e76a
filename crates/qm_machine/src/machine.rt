//! The machine: a text with its programs, a body, the schedule that it has followed, and the halt that it has come to.
ghost use Rattle.std.specs.Prelude.{◌≡◌, ◌<◌, ◌≤◌, true, false, [], length, count_by, Some, None, Ok, IfOk};
ghost use Rattle.qm_denot.specs.Stores.{StandsFor};
ghost use Rattle.qm_instr.specs.Programs.{rank_of};
ghost use Rattle.qm_check.specs.Checks.{capacity_of};
ghost use Rattle.qm_expand.specs.Reading.{Reads};
ghost use Rattle.qm_proto.specs.Model.Runs.{halves};
ghost use Rattle.qm_proto.specs.Model.Schedules.{AllEnded, RendezvousEnds};
ghost use Rattle.qm_machine.specs.Facts.{is_pauli};
ghost use Rattle.qm_machine.specs.Halting.{HaltsFor, HasSmallExponent, IsAtMeasure};
ghost use Rattle.qm_machine.specs.Keeps.{Keeps, StepIs, StateIs, HaltsAt, HasLeft, MayGo, MustWait, halt_of, state_of};
ghost use Rattle.qm_instr.specs.Bits.{number_of_bits};

use crate::attempt::attempt;
use crate::body::Body;
use crate::rows::row_next;
use crate::rules::{any_enabled, events_here, has_left, lacks, lowest_left};
use crate::{Halt, State, Step, Why};
use qm_check::Ready;
use qm_denot::{Amps, Wire};
use qm_proto::{Cause, Row};
use std::alloc::{AllocError, Global};
use std::marker::Model;

/// A machine: a text, its programs, the schedule so far, the halt if there is one, and the state.
///
/// The programs are the reading of the text. Its state is the model's replay of the schedule, which is legal; its store stands for the circuit of that replay, and the live wires
/// are exactly those that have a place in it; a halt stands at the schedule's end.
#[derive(Drop)]
pub struct Machine<A: Amps> {
    text: Vec<u8>,
    ready: Ready,
    schedule: Vec<u32>,
    halted: Option<Halt>,
    body: Body<A>,
}

impl<A: Amps> Model for Machine<A> {
    ghost use Rattle.std.specs.Prelude.{vec_capacity};
    ghost use Rattle.qm_machine.specs.Keeps.{MachineView, IsKept};
    ghost use Rattle.qm_machine.specs.Views.{facts};

    ghost Value = { MachineView A };

    ghost view = { λ m. record {
      text = m.text.items;
      programs = m.ready;
      schedule = m.schedule.items;
      halted = m.halted;
      amps = m.body.amps;
    } };

    ghost invariant = { λ m. let room = vec_capacity m.schedule in
        IsKept m.text.items m.ready m.schedule.items m.halted (facts A.store m.body) room };
}

impl<A: Amps> Machine<A> {
    /// A machine before its first event, for a text and its programs, over a store that stands for the empty circuit.
    ///
    /// The store has no live wire, and room for as many as the programs' slots and buffers. All memory is taken here; `AllocError` comes
    /// from the allocator alone.
    pub fn start(
        alloc: Global,
        text: Vec<u8>,
        ready: Ready,
        amps: A,
    ) -> Result<Machine<A>, AllocError>
        requires read { Reads text.items (Ok ready) }
        requires stands { StandsFor (A.store amps) [] }
        requires live { (A.store amps).live ≡ [] }
        requires room { capacity_of ready ≤ (A.store amps).capacity }
        ensures { IfOk result (λ m. m ≡ record {
          text = text.items;
          programs = ready;
          schedule = [];
          halted = None;
          amps = amps;
        }) }
    {
        let body = Body::start(alloc, &ready, amps)?;
        let schedule = Vec::with_capacity(alloc, ready.events() as usize)?;
        Ok(Machine {
            text,
            ready,
            schedule,
            halted: None,
            body,
        })
    }

    /// Keeps a halt of this rank at the schedule's end.
    fn halt(&mut self, rank: u16, cause: Cause) -> Step
        requires { let halt = halt_of rank self.old.schedule cause in
            HaltsAt self.old.programs self.old.schedule halt }
        ensures answer { result ≡ Step.Halted }
        ensures new { let halt = halt_of rank self.old.schedule cause in
            self.new ≡ record self.old { halted = Some halt } }
    {
        self.halted = Some(Halt {
            rank: u32::from(rank),
            turns: self.schedule.len() as u64,
            cause,
        });
        Step::Halted
    }

    /// The rank that went on last; this one, where none has yet.
    fn last_rank(&self, rank: u16) -> u16
        requires { rank < length self.now.programs.ranks }
        ensures { result < length self.now.programs.ranks }
    {
        match self.schedule.last() {
            Some(last) => *last as u16,
            None => rank,
        }
    }

    /// The answer where a rank's next event isn't enabled.
    fn wait(&mut self, rank: u16, why: Why) -> Step
        requires { MustWait self.old rank why }
        ensures text { self.new.text ≡ self.old.text }
        ensures programs { self.new.programs ≡ self.old.programs }
        ensures step { StepIs A.store self.old rank result self.new }
    {
        let last = self.last_rank(rank);
        let input = self.ready.input();
        if any_enabled(input, &self.body.books, last) {
            return Step::Blocked { why };
        }
        let lowest = lowest_left(input, &self.body.books, rank);
        self.halt(lowest, Cause::Stuck)
    }

    /// Tries a rank's enabled event, and goes on to the next one where it was done.
    fn go(&mut self, rank: u16, row: Row) -> Step
        requires able { A.able }
        requires go { MayGo self.old rank row }
        ensures text { self.new.text ≡ self.old.text }
        ensures programs { self.new.programs ≡ self.old.programs }
        ensures step { StepIs A.store self.old rank result self.new }
    {
        let events = events_here(self.ready.input(), &self.body.books, rank);
        match attempt(&mut self.body, rank, row) {
            Ok(()) => {
                self.body.move_on(rank, events);
                self.schedule.push_reserved(u32::from(rank));
                Step::Did { event: row.event }
            }
            Err(cause) => self.halt(rank, cause),
        }
    }

    /// One event of a rank, if it may happen.
    ///
    /// The answers are tried in this order. `Halted` where the machine was halted before. `Ended` where the rank has no event left.
    /// `Blocked` where its next event is not enabled and the state is not stuck. `Halted`, which is new then and stays, where the state is
    /// stuck or the event is refused. Else the event is done, and the schedule has the rank at its end. Every other answer leaves the
    /// schedule and the state as they were. No step takes memory.
    ///
    /// The machine isn't halted for `Overflow` while the store's exponent is at most 252 more than the number of protocol measurements
    /// done, nor for `Impossible` but at a `measure`, nor for `Stuck` where the rendezvous run of its programs ends.
    pub fn step(&mut self, rank: u32) -> Step
        requires able { A.able }
        requires known { rank < length self.old.programs.ranks }
        ensures text { self.new.text ≡ self.old.text }
        ensures programs { self.new.programs ≡ self.old.programs }
        ensures step { StepIs A.store self.old rank result self.new }
        ensures overflow { HasSmallExponent A.store self.old
            → ¬ (HaltsFor self.old self.new Cause.Overflow) }
        ensures impossible { HaltsFor self.old self.new Cause.Impossible
            → IsAtMeasure self.old rank }
        ensures stuck { RendezvousEnds self.old.programs
            → ¬ (HaltsFor self.old self.new Cause.Stuck) }
    {
        if self.halted.is_some() {
            return Step::Halted;
        }
        let input = self.ready.input();
        match row_next(input, &self.body.books, rank as u16) {
            None => Step::Ended,
            Some(row) => match lacks(input, &self.body.books, row.rule) {
                None => self.go(rank as u16, row),
                Some(why) => self.wait(rank as u16, why),
            },
        }
    }

    /// Whether some rank has an event left.
    fn has_more(&self) -> bool
        ensures some { result ≡ true → HasLeft self.now.programs (state_of self.now).tables }
        ensures none { result ≡ false → AllEnded self.now.programs (state_of self.now).tables }
    {
        let input = self.ready.input();
        for rank in 0..input.ranks() {
            if has_left(input, &self.body.books, rank) {
                return true;
            }
        }
        false
    }

    /// How far the machine is: `Halted` where a step halted it, `AllEnded` where no rank has an event left, else `Running`.
    pub fn state(&self) -> State
        ensures state { StateIs self.now result }
        ensures kept { Keeps A.store self.now }
    {
        match self.halted {
            Some(halt) => State::Halted { halt },
            None if self.has_more() => State::Running,
            None => State::AllEnded,
        }
    }

    /// The schedule so far: one rank for each event, in their order. What every machine keeps is told here.
    pub fn schedule(&self) -> &[u32]
        ensures value { result.now ≡ self.now.schedule }
        ensures kept { Keeps A.store self.now }
    {
        &self.schedule
    }

    /// The store, which stands for the circuit of the schedule's replay.
    pub fn amps(&self) -> &A
        ensures { result.now ≡ self.now.amps }
    {
        self.body.amps()
    }

    /// The text, of which the programs are the reading.
    pub fn text(&self) -> &[u8]
        ensures { result.now ≡ self.now.text }
    {
        &self.text
    }

    /// The programs.
    pub fn ready(&self) -> &Ready
        ensures { result.now ≡ self.now.programs }
    {
        &self.ready
    }

    /// A rank's classical bits as a number, bit 0 the lowest.
    pub fn bits(&self, rank: u32) -> u32
        requires { rank < length self.now.programs.ranks }
        ensures { result ≡ number_of_bits ((state_of self.now).tables.parts rank).bits }
    {
        self.body.books.bits(rank as u16)
    }

    /// The wire in a rank's slot. `None` exactly where it is empty; a slot or a rank that there isn't counts as empty.
    pub fn slot(&self, rank: u32, q: u8) -> Option<Wire>
        ensures { result ≡ (state_of self.now).tables.slots rank q }
    {
        if rank < u32::from(self.ready.input().ranks()) {
            self.body.books.slot(rank as u16, q)
        } else {
            None
        }
    }

    /// How many halves a rank holds, at most the size of its buffer.
    pub fn halves(&self, rank: u32) -> u32
        requires { rank < length self.now.programs.ranks }
        ensures value { result ≡ halves (state_of self.now).tables rank }
        ensures few { result ≤ (rank_of self.now.programs rank).buffer }
    {
        self.body.books.halves(rank as u16)
    }

    /// How many letters the circuit of the replay has.
    pub fn letters(&self) -> u64
        ensures { result ≡ length (state_of self.now).circuit }
    {
        self.body.letters()
    }

    /// How many of them are Pauli letters: a `Flip`, or the `Phase` of a sign.
    pub fn paulis(&self) -> u64
        ensures { result ≡ count_by is_pauli (state_of self.now).circuit }
    {
        self.body.paulis()
    }
}
