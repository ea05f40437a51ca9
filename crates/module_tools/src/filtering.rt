//! The shortest program of a tool: it reads a module, and prints what the tool makes of it.

use crate::running::Tool;
use std::io;
use std::io::{BufWriter, Write};
use std::process::ExitCode;
use std::rt::{Env, Files};
use tool_files::read_file;
use tool_words::{Attempt, ProgramFailure, exit_code, words};
use walrus_ir::IdHashSet;
use wasm_module::{BodyWriter, ModuleError, ParsedModule, Rewriting, RewrittenModule, WriteError};

/// Prints a module that was made of one.
fn print_module<R: Print + AllocGlobal, B: BodyWriter>(
    rt: &R,
    parsed: &mut ParsedModule<'_>,
    module: &RewrittenModule<'_, B>,
) -> Result<(), WriteError> {
    let mut out = match BufWriter::new(rt.alloc(), io::writer(rt)) {
        Ok(out) => out,
        Err(error) => return Err(WriteError::Io(error)),
    };
    match parsed.write_module(module, &mut out) {
        Ok(()) => {}
        Err(error) => return Err(error),
    }
    match out.flush() {
        Ok(()) => Ok(()),
        Err(error) => Err(WriteError::Io(error)),
    }
}

/// Prints what was made of a module, if something was.
fn print_made<'w, R: Print + AllocGlobal, B: BodyWriter + Drop>(
    rt: &R,
    path: &'w str,
    parsed: &mut ParsedModule<'_>,
    made: Result<RewrittenModule<'_, B>, ModuleError>,
) -> Result<(), ProgramFailure<'w>> {
    let module = match made {
        Ok(module) => module,
        Err(error) => return Err(ProgramFailure::refused(rt.alloc(), path, None, &error)),
    };
    match print_module(rt, parsed, &module) {
        Ok(()) => Ok(()),
        Err(WriteError::Module(error)) => Err(ProgramFailure::refused(
            rt.alloc(),
            path,
            None,
            &error,
        )),
        Err(WriteError::Io(error)) => Err(ProgramFailure::file("-", Attempt::Write, error)),
    }
}

/// Prints what a tool makes of a module.
fn print_changed<'w, R: Print + AllocGlobal, T: Tool>(
    rt: &R,
    tool: &T,
    path: &'w str,
    parsed: &mut ParsedModule<'_>,
) -> Result<(), ProgramFailure<'w>> {
    let (change, changes) = match tool.changes(rt.alloc(), parsed, IdHashSet::new(rt.alloc())) {
        Ok(found) => found,
        Err(error) => return Err(ProgramFailure::refused(rt.alloc(), path, None, &error)),
    };
    match change {
        Some(mut change) => {
            let made = parsed.change_all(&mut change, changes);
            print_made(rt, path, parsed, made)
        }
        None => {
            let made = parsed.rewrite_with(Rewriting, changes);
            print_made(rt, path, parsed, made)
        }
    }
}

/// Prints what a tool makes of a module of these bytes.
fn filter_bytes<'w, R: Print + AllocGlobal, T: Tool>(
    rt: &R,
    tool: &T,
    path: &'w str,
    bytes: &[u8],
) -> Result<(), ProgramFailure<'w>> {
    match ParsedModule::read_in_box(rt.alloc(), bytes) {
        Ok(mut parsed) => print_changed(rt, tool, path, &mut parsed),
        Err(error) => Err(ProgramFailure::refused(rt.alloc(), path, None, &error)),
    }
}

/// Prints what a tool makes of the module in a file.
fn filter_file<'w, R: Files + Input + Print + AllocGlobal, T: Tool>(
    rt: &R,
    tool: &T,
    path: &'w str,
) -> Result<(), ProgramFailure<'w>> {
    match read_file(rt, path) {
        Ok(bytes) => filter_bytes(rt, tool, path, &bytes),
        Err(failure) => Err(failure),
    }
}

/// Does so with the file that the only word names.
fn filter_words<R: Files + Input + Print + Eprint + AllocGlobal, T: Tool>(
    rt: &R,
    tool: &T,
    name: &str,
    words: &[String],
) -> ExitCode {
    let [path] = words else {
        // Where standard error can't be written, the status is all that is left.
        let _ = eprintln!(rt; "usage: {name} IN.wasm >OUT.wasm");
        return ExitCode::from(2);
    };
    match filter_file(rt, tool, path.as_str()) {
        Ok(()) => ExitCode::SUCCESS,
        Err(failure) => exit_code(rt, name, failure),
    }
}

/// Runs a tool as a program with this name and one word, `NAME IN.wasm >OUT.wasm`, which is the
/// argument at `first` (1, or 2 if another one names the tool): reads the module whose path is the
/// word (`-` is standard input), and prints what the tool makes of it, where no
/// functions are asked for. The first error is printed to standard error, after the name, and
/// nothing is printed if the module, a body or a change is refused. Returns the status: 0 if the
/// module was printed, 1 if not, 2 for wrong use.
///
/// `run` takes all words that `wrewrite` takes, and links much more.
pub fn filter<R: Files + Input + Env + Print + Eprint + AllocGlobal, T: Tool>(
    rt: &R,
    tool: &T,
    name: &str,
    first: usize,
) -> ExitCode {
    match words(rt, first) {
        Ok(words) => filter_words(rt, tool, name, &words),
        Err(failure) => exit_code(rt, name, failure),
    }
}
