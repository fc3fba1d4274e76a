//! The programs as far as they are expanded.

ghost use Rattle.std.specs.Prelude.{◌≡◌};
ghost use Rattle.qm_instr.specs.Programs.{instruction_total};

use crate::ReadError;
use crate::head::{Head, size_of};
use crate::joint::{Joint, part_at, part_len};
use crate::ranges::{can_be_called, has_operands};
use crate::values::Scope;
use qm_instr::{Input, Instr};
use qm_limits::{MOST_INSTRUCTIONS, MOST_OUTCOMES, MOST_TURNS};
use std::alloc::{AllocError, Global};

/// The programs as far as they are expanded, and how many turns all loops have had.
#[derive(Drop)]
pub(crate) struct Draft {
    pub(crate) input: Input,
    /// How many instructions there are.
    count: u32,
    turns: u32,
    ghost counted: { count ≡ instruction_total input },
}

impl Draft {
    ghost use Rattle.std.specs.Prelude.{◌<◌, ◌≤◌, ◌==◌, [], ◌∷◌, IfOk, Ok, OnOk, length, map};
    ghost use Rattle.qm_instr.specs.Programs.{rank_of};
    ghost use Rattle.qm_expand.specs.Drafts.{draft, with_made, with_turn, with_outcomes};
    ghost use Rattle.qm_expand.specs.Expansion.{sized_programs};
    ghost use Rattle.qm_expand.specs.Walk.{Answers, shared, tape_of, appended, numbers_in};
    ghost use Rattle.qm_expand.specs.Views.{AreSized, draft_seen};

    /// Ranks with the sizes of a head, without instructions.
    pub(crate) fn start(alloc: Global, head: &Head<'_>) -> Result<Draft, AllocError>
        requires { AreSized head.now }
        ensures { IfOk result (λ d. draft_seen d ≡ draft (sized_programs head.now.version head.now.ranks
            (numbers_in head.now.qubits.now) (numbers_in head.now.buffers.now)) 0) }
    {
        let mut input = Input::start(alloc, head.version.number(), head.ranks)?;
        for rank in 0..head.ranks {
            let qubits = size_of(head.version, head.qubits, rank);
            let buffer = size_of(head.version, head.buffers, rank);
            input.size(rank, qubits, buffer);
        }
        Ok(Draft {
            input,
            count: 0,
            turns: 0,
        })
    }

    /// Appends an instruction to a rank's program.
    pub(crate) fn add(&mut self, line: u32, rank: u16, i: Instr) -> Result<(), ReadError>
        requires { rank < length self.old.input.ranks }
        ensures answers { Answers (λ _. draft_seen self.new) result
            (with_made line rank i (draft_seen self.old)) }
        ensures ranks { length self.new.input.ranks ≡ length self.old.input.ranks }
    {
        if !has_operands(self.input.qubits(rank), i) {
            return Err(ReadError::OutOfRange { line });
        }
        if self.count >= MOST_INSTRUCTIONS {
            return Err(ReadError::TooMany { line });
        }
        let Ok(()) = self.input.push(rank, i) else {
            return Err(ReadError::Memory);
        };
        self.count += 1;
        Ok(())
    }

    /// Appends a rank's instructions in a call that every rank writes.
    pub(crate) fn share(&mut self, line: u32, scope: Scope, which: Joint) -> Result<(), ReadError>
        requires rank { scope.rank < scope.ranks }
        requires ranks { scope.ranks ≡ length self.old.input.ranks }
        ensures answers { Answers (λ _. draft_seen self.new) result
            (shared line scope.rank scope.ranks which (draft_seen self.old)) }
        ensures ranks { length self.new.input.ranks ≡ length self.old.input.ranks }
    {
        let ranks = self.input.ranks();
        if !can_be_called(ranks, which) {
            return Err(ReadError::OutOfRange { line });
        }
        for j in 0..part_len(which, scope.rank, ranks) {
            if let Some(i) = part_at(which, scope.rank, ranks, j) {
                self.add(line, scope.rank, i)?;
            }
        }
        Ok(())
    }

    /// Counts a turn of a loop.
    pub(crate) fn turn(&mut self, line: u32) -> Result<(), ReadError>
        ensures answers { Answers (λ _. draft_seen self.new) result
            (with_turn line (draft_seen self.old)) }
        ensures ranks { length self.new.input.ranks ≡ length self.old.input.ranks }
    {
        if self.turns >= MOST_TURNS {
            return Err(ReadError::TooMany { line });
        }
        self.turns += 1;
        Ok(())
    }

    /// Appends outcomes, each a digit 0 or 1, to a tape.
    pub(crate) fn append(
        &mut self,
        line: u32,
        own: bool,
        rank: u16,
        digits: &[u8],
    ) -> Result<(), ReadError>
        requires { rank < length self.old.input.ranks }
        ensures answers { Answers (λ _. self.new.input) result
            (appended line own rank (map (λ d. d == 49) digits.now) self.old.input) }
        ensures ranks { OnOk result (length self.new.input.ranks ≡ length self.old.input.ranks) }
    {
        let long = if own {
            self.input.own(rank).len()
        } else {
            self.input.protocol(rank).len()
        };
        if long + digits.len() > MOST_OUTCOMES {
            return Err(ReadError::TooMany { line });
        }
        for digit in digits {
            self.push_outcome(own, rank, *digit == b'1')?;
        }
        Ok(())
    }

    /// Appends an outcome to a tape.
    fn push_outcome(&mut self, own: bool, rank: u16, outcome: bool) -> Result<(), ReadError>
        requires rank { rank < length self.old.input.ranks }
        requires room { length (tape_of own (rank_of self.old.input rank)) < MOST_OUTCOMES }
        ensures answers { Answers (λ _. self.new.input) result
            (Ok (with_outcomes own rank (outcome ∷ []) self.old.input)) }
        ensures total { instruction_total self.new.input ≡ instruction_total self.old.input }
    {
        let pushed = if own {
            self.input.push_own(rank, outcome)
        } else {
            self.input.push_protocol(rank, outcome)
        };
        match pushed {
            Ok(()) => Ok(()),
            Err(_) => Err(ReadError::Memory),
        }
    }
}
