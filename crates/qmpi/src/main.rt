//! The program: a command over standard input and standard output.
#![tactic(auto)]

use qm_io::{StdSink, StdSource};
use qm_ranks::NoGate;
use qm_tool::tool;
use std::alloc::AllocError;
use std::env::{Env, FillError};
use std::process::ExitCode;
use std::str;

/// The exit status where no memory was left for the words.
const OUT_OF_MEMORY: u8 = 8;

/// More bytes than any word of a command has.
const WORD_ROOM: usize = 64;

/// The words after the program's name. The list is empty, which is no command, where one of them is none of a command's words for sure:
/// it has too many bytes, or it isn't UTF-8. `AllocError` comes from the allocator alone.
fn words(rt: &HostRuntime) -> Result<Vec<String>, AllocError> {
    let mut words = Vec::new(rt.alloc());
    let mut room = [0u8; WORD_ROOM];
    for i in 1..usize::MAX {
        let len = match rt.arg(i, &mut room) {
            Ok(len) => len,
            Err(FillError::NotPresent) => break,
            Err(FillError::TooLong) => return Ok(Vec::new(rt.alloc())),
        };
        let Ok(word) = str::from_utf8(&room[..len]) else {
            return Ok(Vec::new(rt.alloc()));
        };
        words.push(String::from_str(rt.alloc(), word)?)?;
    }
    Ok(words)
}

fn main(rt: HostRuntime) -> ExitCode {
    let Ok(words) = words(&rt) else {
        return ExitCode::from(OUT_OF_MEMORY);
    };
    let mut source = StdSource::start(rt.stdin());
    let mut sink = StdSink::start(rt.stdout());
    let status = tool(&rt, rt.alloc(), &words, &mut source, &mut sink, &NoGate);
    ExitCode::from(status.code())
}
