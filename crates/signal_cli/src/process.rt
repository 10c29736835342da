//! The program in its process: its arguments, files and streams.

use crate::{Status, program};
use board_model::OpenGate;
use commands::{Refusal, refuse};
use foundation::text::Text;
use outside_world::{FileShelf, StreamSink, StreamSource};
use std::alloc::{AllocError, Global};
use std::env;
use std::io::{ErrorKind, Read, Write};
use std::process::ExitCode;
use std::rt::{Env, Files};
use std::sync::Wait;
use std::thread::Threads;
use thiserror::Error;

/// The status that says that the runtime refused the arguments themselves.
const REFUSED_WORDS: u8 = 7;

/// Why there are no arguments.
#[derive(Debug, Drop, Error)]
enum NoWords {
    #[error("the words of the command line cannot be had")]
    Refused,
    #[error("out of memory")]
    Memory,
}

/// Calls `program` with the arguments of the command line, which `env` gives, over the files and threads of `rt`, the stream `input` for the
/// source, these streams for `out` and `err`, and the open gate. The answer is its status, or 7 where the arguments are refused.
///
/// docs/FORMATS.md, "Exit statuses and lines of refusal".
pub fn run<
    W: Env + AllocGlobal,
    R: Files + AllocGlobal + Threads + Wait + Sync,
    I: Read + Drop,
    O: Write + Drop,
    E: Write + Drop,
>(env: &W, rt: &R, input: I, out: O, err: E) -> ExitCode {
    let alloc = rt.alloc();
    let words = match words(env, alloc) {
        Ok(words) => words,
        Err(NoWords::Refused) => return ExitCode::from(REFUSED_WORDS),
        Err(NoWords::Memory) => return ExitCode::from(Status::NoMemory.code()),
    };
    let mut shelf = FileShelf::new(alloc, rt);
    let mut out = StreamSink::new(out);
    let mut err = StreamSink::new(err);
    let status = match StreamSource::new(alloc, input) {
        Ok(mut source) => {
            program(
                rt,
                &words,
                &mut shelf,
                &mut source,
                &mut out,
                &mut err,
                &OpenGate,
            )
        }
        Err(AllocError) => refuse(alloc, Refusal::NoMemory, &mut err),
    };
    ExitCode::from(status.code())
}

// The arguments of the command line, without the program's name.
fn words<W: Env + AllocGlobal>(env: &W, alloc: Global) -> Result<Vec<Text>, NoWords> {
    let args = match env::args(env) {
        Ok(args) => args,
        Err(fault) if fault.kind() == ErrorKind::OutOfMemory => return Err(NoWords::Memory),
        Err(_) => return Err(NoWords::Refused),
    };
    let mut words = Vec::new(alloc);
    for word in args.skip(1) {
        if words.push(Text::from_string(word)).is_err() {
            return Err(NoWords::Memory);
        }
    }
    Ok(words)
}
