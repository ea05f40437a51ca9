//! The program `wbody`, with its arguments and two writers as parameters.

use crate::demo;
use crate::execution::execute;
use crate::named_body::NamedBody;
use crate::rewriting::rewrite_demo;
use crate::trace_text::run_text;
use crate::trace_words::{outcomes, turns};
use std::alloc::{AllocError, Global};
use std::io::Write;
use thiserror::Error;
use walrus_body::{FunctionBody, ParseError};
use walrus_ir::{FunctionId, TypeId};
use walrus_rewrite::RewriteError;

/// Why nothing is printed to standard output. Its text is the line that is printed to standard
/// error instead.
#[derive(Debug, Drop, Error)]
enum Failure {
    #[error("usage: wbody rewrite HEX | wbody trace TURNS OUTCOMES HEX")]
    UsageError,
    #[error("refused: {name} at {at}")]
    RefusedAt { name: &'static str, at: usize },
    #[error("refused: {name}")]
    Refused { name: &'static str },
}

const OUT_OF_MEMORY: Failure = Failure::Refused { name: "Memory" };

impl From<AllocError> for Failure {
    fn from(_: AllocError) -> Failure {
        OUT_OF_MEMORY
    }
}

impl From<hex::FromHexError> for Failure {
    fn from(error: hex::FromHexError) -> Failure {
        match error {
            hex::FromHexError::OutOfMemory => OUT_OF_MEMORY,
            _ => Failure::UsageError,
        }
    }
}

impl From<RewriteError> for Failure {
    fn from(error: RewriteError) -> Failure {
        let name = error.name();
        match error {
            RewriteError::Parse(failure) if failure.error != ParseError::Memory => {
                Failure::RefusedAt {
                    name,
                    at: failure.at,
                }
            }
            _ => Failure::Refused { name },
        }
    }
}

impl Failure {
    fn status(&self) -> u8 {
        match self {
            Failure::UsageError => 2,
            Failure::RefusedAt { .. } | Failure::Refused { .. } => 1,
        }
    }
}

/// The written operators of a body, as hexadecimal text.
fn rewritten(alloc: Global, body: &str) -> Result<String, Failure> {
    let body = hex::decode(alloc, body)?;
    let written = rewrite_demo(alloc, &body)?;
    Ok(hex::encode(alloc, written)?)
}

/// Reads the operators of a body in the demo module, as those of its function 0.
fn read_demo(alloc: Global, ops: &[u8]) -> Result<NamedBody, RewriteError> {
    let module = demo::module(alloc)?;
    let indices = match demo::indices(alloc) {
        Ok(indices) => indices,
        Err(_) => return Err(RewriteError::from(AllocError)),
    };
    let body = FunctionBody {
        bytes: ops,
        start: 0,
        ops: 0,
    };
    let (id, ty) = (FunctionId::new(0), TypeId::new(1));
    match NamedBody::read(alloc, &module, &indices, id, ty, body) {
        Ok(body) => Ok(body),
        Err(failure) => Err(RewriteError::Parse(failure)),
    }
}

/// The lines of a body's run.
fn traced(
    alloc: Global,
    turns_word: &str,
    outcomes_word: &str,
    body: &str,
) -> Result<String, Failure> {
    let (Some(turns), Some(outcomes)) = (turns(turns_word), outcomes(alloc, outcomes_word)?) else {
        return Err(Failure::UsageError);
    };
    let bytes = hex::decode(alloc, body)?;
    let body = read_demo(alloc, &bytes)?;
    let run = execute(&body, &outcomes, turns)?;
    Ok(run_text(alloc, &body, &bytes, &run)?)
}

/// The output for these arguments, without the last line end.
fn output_of(alloc: Global, words: &[String]) -> Result<String, Failure> {
    match words {
        [command, body] if command.as_str() == "rewrite" => rewritten(alloc, body.as_str()),
        [command, turns, outcomes, body] if command.as_str() == "trace" => traced(
            alloc,
            turns.as_str(),
            outcomes.as_str(),
            body.as_str(),
        ),
        _ => Err(Failure::UsageError),
    }
}

/// Runs the program with these arguments, which don't include its own name, and returns its status.
///
/// `rewrite HEX` prints the operators that are written for the body that HEX encodes, in lower
/// case, and a line end to `out`; the status is 0. `trace TURNS OUTCOMES HEX` prints the run of the
/// body: a line for each event, and then how it ended. The line of an event has the place of the
/// operator and its bytes; or the place of a construct's opener, `taken`, and the number of the
/// clause that caught an exception. If the body is refused, `refused: ` with the fault's name and
/// its place is printed to `err`, and the status is 1. For any other arguments the usage is printed
/// to `err`, and the status is 2. If a write fails, the status is 1.
///
/// TURNS is a decimal number. OUTCOMES is `-` for none, or items with commas between them: `g` goes
/// on, `t` traps, `1` and `0` say whether a branch is taken or a condition holds, `e` with a number
/// is the operand of a `br_table`, and `r` with tags, which have a `+` between them, raises.
pub fn run_arguments<W: Write, E: Write>(
    alloc: Global,
    words: &[String],
    out: &mut W,
    err: &mut E,
) -> u8 {
    let (written, status) = match output_of(alloc, words) {
        Ok(line) => (writeln!(out, "{line}"), 0),
        Err(refusal) => (writeln!(err, "{refusal}"), refusal.status()),
    };
    if written.is_ok() { status } else { 1 }
}
