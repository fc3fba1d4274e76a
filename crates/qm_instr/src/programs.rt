//! The programs of all ranks, built by appending.
ghost use Rattle.std.specs.Prelude.{◌≡◌, ◌+◌, ◌<◌, ◌≤◌, [], length, slice_get, IfOk, OnOk, OnErr};
ghost use Rattle.qm_instr.specs.Operands.{HasOperands};
ghost use Rattle.qm_instr.specs.Programs.{IsInRange, idle, rank_of, with_sizes, with_instruction, with_own, with_protocol, instruction_total};

use crate::Instr;
use crate::ranks::Program;
use qm_limits::{MOST_HALVES, MOST_INSTRUCTIONS, MOST_OUTCOMES, MOST_RANKS, SLOTS};
use std::alloc::{AllocError, Global};
use std::marker::Model;

/// The programs of all ranks: a version, and for each rank its slots, its buffer, its instructions and its two tapes of outcomes.
///
/// The version is 1 or 2, and there are 1 to [`MOST_RANKS`] ranks. Each rank has 1 to [`SLOTS`] slots and a buffer of 1 to
/// [`MOST_HALVES`], its instructions name slots that it has and bits below [`qm_limits::BITS`], and each tape has at most
/// [`MOST_OUTCOMES`] outcomes. All ranks together have at most [`MOST_INSTRUCTIONS`] instructions.
#[derive(Drop)]
pub struct Input {
    version: u8,
    ranks: Vec<Program>,
}

impl Model for Input {
    ghost use Rattle.qm_instr.specs.Programs.{Programs, IsInRange};

    ghost Value = { Programs };

    ghost view = { λ p. record { version = p.version; ranks = p.ranks.items } };

    ghost invariant = { λ p. IsInRange (record { version = p.version; ranks = p.ranks.items }) };
}

impl Input {
    /// Ranks that do nothing, each with one slot, a buffer of one and empty tapes.
    ///
    /// The version is 1 or 2, and there are 1 to [`MOST_RANKS`] ranks. `AllocError` comes from the allocator alone.
    pub fn start(alloc: Global, version: u8, ranks: u16) -> Result<Input, AllocError>
        requires least_version { 1 ≤ version }
        requires last_version { version ≤ 2 }
        requires some_ranks { 1 ≤ ranks }
        requires most_ranks { ranks ≤ MOST_RANKS }
        ensures { IfOk result (λ p. p ≡ idle version ranks) }
    {
        let mut all = Vec::new(alloc);
        for _ in 0..ranks {
            all.push(Program::idle(alloc))?;
        }
        Ok(Input {
            version,
            ranks: all,
        })
    }

    /// Sets how many slots a rank has, 1 to [`SLOTS`], and how many halves its buffer holds, 1 to [`MOST_HALVES`], before its first
    /// instruction.
    pub fn size(&mut self, rank: u16, qubits: u8, buffer: u8)
        requires known { rank < length self.old.ranks }
        requires unwritten { (rank_of self.old rank).instructions ≡ [] }
        requires some_qubits { 1 ≤ qubits }
        requires most_qubits { qubits ≤ SLOTS }
        requires some_buffer { 1 ≤ buffer }
        requires most_buffer { buffer ≤ MOST_HALVES }
        ensures { self.new ≡ with_sizes self.old rank qubits buffer }
    {
        self.ranks[usize::from(rank)].size(qubits, buffer);
    }

    /// Appends an instruction to a rank's program. `AllocError` comes from the allocator alone, and leaves the programs as they were.
    ///
    /// The instruction's slots are below the rank's, its bits are below [`BITS`], and the ranks have fewer than
    /// [`MOST_INSTRUCTIONS`] instructions together.
    pub fn push(&mut self, rank: u16, i: Instr) -> Result<(), AllocError>
        requires known { rank < length self.old.ranks }
        requires operands { HasOperands (rank_of self.old rank).qubits i }
        requires few { instruction_total self.old < MOST_INSTRUCTIONS }
        ensures ok { OnOk result (self.new ≡ with_instruction self.old rank i) }
        ensures total { OnOk result (instruction_total self.new ≡ instruction_total self.old + 1) }
        ensures err { OnErr result (self.new ≡ self.old) }
    {
        self.ranks[usize::from(rank)].push(i)?;
        Ok(())
    }

    /// Appends an outcome to a rank's own tape, which has fewer than [`MOST_OUTCOMES`]. `AllocError` comes from the allocator alone, and
    /// leaves the programs as they were.
    pub fn push_own(&mut self, rank: u16, m: bool) -> Result<(), AllocError>
        requires known { rank < length self.old.ranks }
        requires room { length (rank_of self.old rank).own < MOST_OUTCOMES }
        ensures ok { OnOk result (self.new ≡ with_own self.old rank m) }
        ensures err { OnErr result (self.new ≡ self.old) }
    {
        self.ranks[usize::from(rank)].push_own(m)?;
        Ok(())
    }

    /// Appends an outcome to a rank's protocol tape, which has fewer than [`MOST_OUTCOMES`]. `AllocError` comes from the allocator alone,
    /// and leaves the programs as they were.
    pub fn push_protocol(&mut self, rank: u16, m: bool) -> Result<(), AllocError>
        requires known { rank < length self.old.ranks }
        requires room { length (rank_of self.old rank).protocol < MOST_OUTCOMES }
        ensures ok { OnOk result (self.new ≡ with_protocol self.old rank m) }
        ensures err { OnErr result (self.new ≡ self.old) }
    {
        self.ranks[usize::from(rank)].push_protocol(m)?;
        Ok(())
    }

    /// The version, 1 or 2.
    pub fn version(&self) -> u8
        ensures value { result ≡ self.now.version }
        ensures in_range { IsInRange self.now }
    {
        self.version
    }

    /// How many ranks there are, from 1 to [`MOST_RANKS`].
    pub fn ranks(&self) -> u16
        ensures value { result ≡ length self.now.ranks }
        ensures in_range { IsInRange self.now }
    {
        self.ranks.len() as u16
    }

    /// How many slots a rank has, from 1 to [`SLOTS`].
    pub fn qubits(&self, rank: u16) -> u8
        requires { rank < length self.now.ranks }
        ensures { result ≡ (rank_of self.now rank).qubits }
    {
        let part = &self.ranks[usize::from(rank)];
        part.qubits
    }

    /// How many halves a rank's buffer holds, from 1 to [`MOST_HALVES`].
    pub fn buffer(&self, rank: u16) -> u8
        requires { rank < length self.now.ranks }
        ensures { result ≡ (rank_of self.now rank).buffer }
    {
        let part = &self.ranks[usize::from(rank)];
        part.buffer
    }

    /// How many instructions a rank has, at most [`MOST_INSTRUCTIONS`].
    pub fn count(&self, rank: u16) -> u32
        requires { rank < length self.now.ranks }
        ensures value { result ≡ length (rank_of self.now rank).instructions }
        ensures few { result ≤ MOST_INSTRUCTIONS }
    {
        let part = &self.ranks[usize::from(rank)];
        part.instructions.len() as u32
    }

    /// The outcomes of a rank's own tape, at most [`MOST_OUTCOMES`].
    pub fn own(&self, rank: u16) -> &[bool]
        requires { rank < length self.now.ranks }
        ensures value { result.now ≡ (rank_of self.now rank).own }
        ensures few { length result.now ≤ MOST_OUTCOMES }
    {
        let part = &self.ranks[usize::from(rank)];
        part.own.as_slice()
    }

    /// The outcomes of a rank's protocol tape, at most [`MOST_OUTCOMES`].
    pub fn protocol(&self, rank: u16) -> &[bool]
        requires { rank < length self.now.ranks }
        ensures value { result.now ≡ (rank_of self.now rank).protocol }
        ensures few { length result.now ≤ MOST_OUTCOMES }
    {
        let part = &self.ranks[usize::from(rank)];
        part.protocol.as_slice()
    }

    /// A rank's instruction number `j`, from 0. `None` exactly where `j` is not below the count.
    pub fn instr(&self, rank: u16, j: u32) -> Option<Instr>
        requires { rank < length self.now.ranks }
        ensures { result ≡ slice_get (rank_of self.now rank).instructions j }
    {
        let part = &self.ranks[usize::from(rank)];
        part.instructions.get(j as usize).copied()
    }
}
