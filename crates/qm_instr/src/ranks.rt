//! The program of one rank.
ghost use Rattle.std.specs.Prelude.{◌≡◌, [], ◌∷◌, ◌++◌, OnOk, OnErr};
ghost use Rattle.qm_instr.specs.Programs.{idle_rank};

use crate::Instr;
use std::alloc::{AllocError, Global};
use std::marker::Model;

/// One rank: its sizes, its instructions, and its two tapes of outcomes.
#[derive(Drop)]
pub(crate) struct Program {
    pub(crate) qubits: u8,
    pub(crate) buffer: u8,
    pub(crate) instructions: Vec<Instr>,
    pub(crate) own: Vec<bool>,
    pub(crate) protocol: Vec<bool>,
}

impl Model for Program {
    ghost use Rattle.qm_instr.specs.Programs.{RankProgram};

    ghost Value = { RankProgram };

    ghost view = { λ r. record {
      qubits = r.qubits;
      buffer = r.buffer;
      instructions = r.instructions.items;
      own = r.own.items;
      protocol = r.protocol.items;
    } };
}

impl Program {
    /// A rank that does nothing, with one slot and a buffer of one.
    pub(crate) fn idle(alloc: Global) -> Program
        ensures { result ≡ idle_rank }
    {
        Program {
            qubits: 1,
            buffer: 1,
            instructions: Vec::new(alloc),
            own: Vec::new(alloc),
            protocol: Vec::new(alloc),
        }
    }

    /// Sets both sizes.
    pub(crate) fn size(&mut self, qubits: u8, buffer: u8)
        ensures { self.new ≡ record self.old { qubits = qubits; buffer = buffer } }
    {
        self.qubits = qubits;
        self.buffer = buffer;
    }

    /// Appends an instruction.
    pub(crate) fn push(&mut self, i: Instr) -> Result<(), AllocError>
        ensures ok { OnOk result (self.new
            ≡ record self.old { instructions = self.old.instructions ++ i ∷ [] }) }
        ensures err { OnErr result (self.new ≡ self.old) }
    {
        self.instructions.push(i)?;
        Ok(())
    }

    /// Appends an outcome to the own tape.
    pub(crate) fn push_own(&mut self, m: bool) -> Result<(), AllocError>
        ensures ok { OnOk result (self.new ≡ record self.old { own = self.old.own ++ m ∷ [] }) }
        ensures err { OnErr result (self.new ≡ self.old) }
    {
        self.own.push(m)?;
        Ok(())
    }

    /// Appends an outcome to the protocol tape.
    pub(crate) fn push_protocol(&mut self, m: bool) -> Result<(), AllocError>
        ensures ok { OnOk result (self.new
            ≡ record self.old { protocol = self.old.protocol ++ m ∷ [] }) }
        ensures err { OnErr result (self.new ≡ self.old) }
    {
        self.protocol.push(m)?;
        Ok(())
    }
}
