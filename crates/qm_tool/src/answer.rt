//! What a command answers. All memory is taken before the first byte is written.
ghost use Rattle.std.specs.Prelude.{◌≡◌};
ghost use Rattle.qm_io.specs.Ends.{Puts};
ghost use Rattle.qm_tool.specs.Answers.{status_of, text_of, MayPut};

use crate::circuits::Amplitudes;
use crate::command::Recipe;
use crate::made::put_work;
use crate::running::{Run, put_run};
use crate::status::Status;
use qm_check::Ready;
use qm_denot::Amps;
use qm_ideal::OneCircuit;
use qm_io::{Failed, Sink};
use qm_print::{FaultLine, put_bytes, put_check, put_circuit, put_fault, put_state};

/// What a command answers.
#[derive(Drop)]
pub(crate) enum Answer<A: Amps> {
    /// A line that says why there is no other text.
    Line { fault: FaultLine },
    /// A run of a program.
    Played { run: Run<A> },
    /// The one circuit of programs.
    Circuit { ready: Ready, circuit: OneCircuit },
    /// Its amplitudes.
    Valued { amplitudes: Amplitudes<A> },
    /// The check of programs, and whether their rendezvous run ends.
    Checked { ready: Ready, meets: bool },
    /// A run of a made program.
    Worked { recipe: Recipe, run: Run<A> },
    /// A text as it is, and the status with it.
    Text { status: Status, text: Vec<u8> },
}

impl<A: Amps> Answer<A> {
    /// The status of a call that wrote the answer.
    pub(crate) fn status(&self) -> Status
        ensures { result ≡ status_of self.now }
    {
        match self {
            Answer::Line { fault } => Status::of_fault(fault),
            Answer::Played { run } | Answer::Worked { run, .. } => run.status(),
            Answer::Circuit { .. } | Answer::Valued { .. } | Answer::Checked { .. } => Status::Ok,
            Answer::Text { status, .. } => *status,
        }
    }
}

/// Writes the answer's text.
fn put_text<A: Amps, O: Sink>(sink: &mut O, answer: Answer<A>) -> Result<(), Failed>
    requires { MayPut A.store answer }
    ensures { Puts (O.seen sink.old) (O.seen sink.new) (text_of A.store answer) result }
{
    match answer {
        Answer::Line { fault } => put_fault(sink, &fault),
        Answer::Played { run } => put_run(sink, &run),
        Answer::Circuit { ready, circuit } => put_circuit(sink, &circuit, &ready),
        Answer::Valued { amplitudes } => {
            put_state(sink, &amplitudes.head, &amplitudes.live, &amplitudes.amps)
        }
        Answer::Checked { ready, meets } => put_check(sink, &ready, meets),
        Answer::Worked { recipe, run } => put_work(sink, recipe, &run),
        Answer::Text { text, .. } => put_bytes(sink, &text),
    }
}

/// Writes the answer's text, and flushes.
pub(crate) fn put_answer<A: Amps, O: Sink>(sink: &mut O, answer: Answer<A>) -> Result<(), Failed>
    requires { MayPut A.store answer }
    ensures { Puts (O.seen sink.old) (O.seen sink.new) (text_of A.store answer) result }
{
    put_text(sink, answer)?;
    sink.flush()
}
