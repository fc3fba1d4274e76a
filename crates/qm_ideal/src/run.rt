//! The run that steps the lowest enabled rank until none is enabled.
ghost use Rattle.std.specs.Prelude.{◌≡◌, ◌<◌, ◌+◌, ◌-◌, ◌^◌, ◌++◌, ◌∷◌, [], ℕ, List, false, length, Some, MatchOption, IfOk, IfErr, OnOk};
ghost use Rattle.qm_instr.specs.Programs.{Programs, IsInRange};
ghost use Rattle.qm_check.specs.Checks.{IsReady};
ghost use Rattle.qm_proto.specs.Model.Acts.{list_of};
ghost use Rattle.qm_proto.specs.Model.Ideal.{ideal_row_of, ideal_holds, ideal_enabled, ideal_current, IsLowestIdeal, sends_on};
ghost use Rattle.qm_proto.specs.Model.Runs.{receives_on};
ghost use Rattle.qm_confluence.specs.Drawn.{Outcome};
ghost use Rattle.qm_confluence.specs.Letters.{IsGoodAfter, AreGoodAfter};
ghost use Rattle.qm_ideal.specs.declared.DrawnError.TheVariants as error;
ghost use Rattle.qm_ideal.specs.Meanings.{rule_meant};
ghost use Rattle.qm_ideal.specs.Drawings.{drawing, nothing_drawn, ExplainsDrawn};
ghost use Rattle.qm_ideal.specs.UnderWay.{IsNext, IsUnderWay, IsToldStep, IsWork, ExplainsAsked, ExplainsWriting, NoneEnabled};
ghost use Rattle.qm_ideal.specs.Views.{tables_of, state_of};

use crate::DrawnError;
use crate::draw::Stop;
use crate::feed::Feed;
use crate::steps::{StepRule, StepWork, rule_of, step_of};
use crate::tables::Tables;
use qm_denot::Letter;
use qm_instr::{Input, Instr, Lane, receive_lane, send_lane};
use qm_proto::Few;
use std::alloc::Global;

/// Whether an instruction of a rank, where there is one, is a receive of the lane.
pub(crate) fn receives(rank: u16, instr: Option<Instr>, lane: Lane) -> bool
    ensures { result ≡ receives_on rank instr lane }
{
    match instr {
        Some(instr) => receive_lane(rank, instr) == Some(lane),
        None => false,
    }
}

/// Whether an instruction of a rank, where there is one, is a send on the lane.
fn sends(rank: u16, instr: Option<Instr>, lane: Lane) -> bool
    ensures { result ≡ sends_on rank instr lane }
{
    match instr {
        Some(instr) => send_lane(rank, instr) == Some(lane),
        None => false,
    }
}

/// Whether what a step waits for is so.
fn holds(input: &Input, tables: &Tables, rule: StepRule) -> bool
    requires { length tables.now.ranks.items ≡ length input.now.ranks }
    ensures { result ≡ ideal_holds input.now (tables_of tables.now) (rule_meant rule) }
{
    match rule {
        StepRule::Always => true,
        StepRule::Filled { lane } => !tables.is_empty(lane),
        StepRule::Engaged { lane } => {
            receives(lane.to, tables.current(input, lane.to), lane) && tables.is_empty(lane)
        }
        StepRule::Lent { lane, back } => {
            sends(lane.from, tables.current(input, lane.from), lane) && tables.is_empty(back)
        }
    }
}

/// Whether a rank is enabled.
fn is_enabled(input: &Input, tables: &Tables, rank: u16) -> bool
    requires { length tables.now.ranks.items ≡ length input.now.ranks }
    ensures { result ≡ ideal_enabled input.now (tables_of tables.now) rank }
{
    match tables.current(input, rank) {
        Some(instr) => holds(input, tables, rule_of(rank, instr)),
        None => false,
    }
}

/// The lowest enabled rank, where one is.
fn lowest_enabled(input: &Input, tables: &Tables) -> Option<u16>
    requires { length tables.now.ranks.items ≡ length input.now.ranks }
    ensures { MatchOption result
        ((r : ℕ) → r < length input.now.ranks
        → ideal_enabled input.now (tables_of tables.now) r ≡ false)
        (λ r. IsLowestIdeal input.now (tables_of tables.now) r) }
{
    for rank in 0..input.ranks() {
        if is_enabled(input, tables, rank) {
            return Some(rank);
        }
    }
    None
}

/// The error of a run that is stopped after these letters.
fn stopped(letters: &[Letter], why: Stop) -> DrawnError
    requires { length letters.now < 2 ^ 32 }
    ensures { result ≡ error.Stopped (length letters.now) why }
{
    DrawnError::Stopped {
        at: letters.len() as u32,
        why,
    }
}

/// Writes a letter at the end of a circuit, where the feed takes it. `Stopped` comes where it doesn't, `Memory` from the allocator alone.
fn write_one<F: Feed>(
    letters: &mut Vec<Letter>,
    letter: Letter,
    feed: &mut F,
) -> Result<(), DrawnError>
    requires fed { (p : Programs) × (xs : List Outcome)
        × F.feeds feed.old p (drawing letters.old.items xs) }
    requires good { IsGoodAfter letters.old.items letter }
    requires few { length letters.old.items < 2 ^ 32 - 1 }
    ensures written { OnOk result (letters.new.items ≡ letters.old.items ++ letter ∷ []) }
    ensures fed { OnOk result ((p : Programs) (xs : List Outcome)
        → F.feeds feed.old p (drawing letters.old.items xs)
        → F.feeds feed.new p (drawing letters.new.items xs)) }
    ensures err { IfErr result (λ e. (p : Programs) → ExplainsWriting (F.feeds feed.old p)
        (F.feeds feed.new p) letters.old.items (letter ∷ []) e) }
{
    if let Err(why) = feed.take(letter) {
        return Err(stopped(letters, why));
    }
    if letters.push(letter).is_err() {
        return Err(DrawnError::Memory);
    }
    Ok(())
}

/// Writes letters at the end of a circuit, one after another, as far as the feed takes them. `Memory` comes from the allocator alone.
fn write<F: Feed>(
    letters: &mut Vec<Letter>,
    more: Few<Letter>,
    feed: &mut F,
) -> Result<(), DrawnError>
    requires fed { (p : Programs) × (xs : List Outcome)
        × F.feeds feed.old p (drawing letters.old.items xs) }
    requires good { AreGoodAfter letters.old.items (list_of more) }
    requires few { length letters.old.items + 3 < 2 ^ 32 - 1 }
    ensures written { OnOk result (letters.new.items ≡ letters.old.items ++ list_of more) }
    ensures fed { OnOk result ((p : Programs) (xs : List Outcome)
        → F.feeds feed.old p (drawing letters.old.items xs)
        → F.feeds feed.new p (drawing letters.new.items xs)) }
    ensures err { IfErr result (λ e. (p : Programs) → ExplainsWriting (F.feeds feed.old p)
        (F.feeds feed.new p) letters.old.items (list_of more) e) }
{
    match more {
        Few::Empty => {}
        Few::One(a) => write_one(letters, a, feed)?,
        Few::Two(a, b) => {
            write_one(letters, a, feed)?;
            write_one(letters, b, feed)?;
        }
        Few::Three(a, b, c) => {
            write_one(letters, a, feed)?;
            write_one(letters, b, feed)?;
            write_one(letters, c, feed)?;
        }
    }
    Ok(())
}

/// The tables, and the letters so far.
#[derive(Drop)]
pub(crate) struct Run {
    pub(crate) tables: Tables,
    pub(crate) letters: Vec<Letter>,
}

impl Run {
    /// The work of a rank's instruction. The feed is asked for the outcome of a measurement; where it stops, so does this.
    fn work<F: Feed>(
        &self,
        input: &Input,
        rank: u16,
        instr: Instr,
        feed: &mut F,
    ) -> Result<StepWork, DrawnError>
        requires same { length self.now.tables.ranks.items ≡ length input.now.ranks }
        requires next { IsNext input.now (state_of self.now) rank }
        requires instr { ideal_current input.now (tables_of self.now.tables) rank ≡ Some instr }
        requires way { IsUnderWay input.now (F.feeds feed.old input.now) (state_of self.now) }
        ensures ok { IfOk result (IsWork input.now (F.feeds feed.old input.now)
            (F.feeds feed.new input.now) (state_of self.now) rank instr) }
        ensures err { IfErr result (ExplainsAsked (F.feeds feed.old input.now)
            (F.feeds feed.new input.now) (state_of self.now) rank instr) }
    {
        let Instr::Measure { q, .. } = instr else {
            return Ok(step_of(input, &self.tables, rank, instr, false));
        };
        match feed.give(rank, self.tables.wire_in(rank, q)) {
            Ok(outcome) => Ok(step_of(input, &self.tables, rank, instr, outcome)),
            Err(why) => Err(stopped(&self.letters, why)),
        }
    }

    /// Does the step of a rank, as far as the feed goes. `Memory` comes from the allocator alone.
    fn step<F: Feed>(
        &mut self,
        alloc: Global,
        input: &Input,
        rank: u16,
        feed: &mut F,
    ) -> Result<(), DrawnError>
        requires same { length self.old.tables.ranks.items ≡ length input.now.ranks }
        requires next { IsNext input.now (state_of self.old) rank }
        requires way { IsUnderWay input.now (F.feeds feed.old input.now) (state_of self.old) }
        ensures did { OnOk result (IsToldStep input.now (state_of self.old) rank
            (state_of self.new)) }
        ensures way { OnOk result (IsUnderWay input.now (F.feeds feed.new input.now)
            (state_of self.new)) }
        ensures ranks { OnOk result (length self.new.tables.ranks.items
            ≡ length self.old.tables.ranks.items) }
        ensures err { IfErr result (ExplainsDrawn input.now (F.feeds feed.new input.now)) }
    {
        if let Some(instr) = self.tables.current(input, rank) {
            let work = self.work(input, rank, instr, feed)?;
            write(&mut self.letters, work.letters, feed)?;
            self.tables.do_acts(alloc, rank, work.acts)?;
            self.tables.move_on(rank);
        }
        Ok(())
    }

    /// The run of the programs up to its end, whose outcomes the feed gives. `Stopped` comes where the feed stops, `Memory` from the
    /// allocator alone.
    pub(crate) fn of<F: Feed>(alloc: Global, input: &Input, feed: &mut F) -> Result<Run, DrawnError>
        requires ready { IsReady input.now }
        requires in_range { IsInRange input.now }
        requires fed { F.feeds feed.old input.now nothing_drawn }
        ensures way { IfOk result (λ x.
            IsUnderWay input.now (F.feeds feed.new input.now) (state_of x)) }
        ensures end { IfOk result (λ x. NoneEnabled input.now (state_of x)) }
        ensures ranks { IfOk result (λ x. length x.tables.ranks.items ≡ length input.now.ranks) }
        ensures err { IfErr result (ExplainsDrawn input.now (F.feeds feed.new input.now)) }
    {
        let mut run = Run {
            tables: Tables::start(alloc, input)?,
            letters: Vec::new(alloc),
        };
        while let Some(rank) = lowest_enabled(input, &run.tables) {
            run.step(alloc, input, rank, feed)?;
        }
        Ok(run)
    }
}
