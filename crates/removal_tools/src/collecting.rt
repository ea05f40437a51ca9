//! Running a program that leaves out what nothing reaches.

ghost use Rattle.std.specs.Prelude.{◌≤◌, IfOk};
ghost use Rattle.std.specs.Process.{exit_status};

use crate::snipped_modules::snipped;
use left_modules::{LeftModule, Origins, made_of_left, push_followers, reached, write_left};
use module_debug::DebugFailure;
use module_removal::Remainder;
use module_tools::{Terminals, Tool, check_task, run};
use std::alloc::Global;
use std::io;
use std::process::ExitCode;
use std::rt::{Clock, Env};
use std::time::Instant;
use tool_files::{Done, LockFiles, Outcome, print_done, read_file, status_of_done};
use tool_reading::{check_validity, functions_of, list_removed, refused};
use tool_words::{Program, ProgramFailure, Request, Task, exit_code, read_arguments, words};
use tool_writing::{CodeChange, DebugOutcome, Notes, given_source_map, warn_of};
use wasm_module::{ModuleError, ParsedModule};

/// How the module that is read was made of another one, if it was.
#[derive(Clone, Copy)]
struct Made<'m> {
    /// Where its operators come from.
    origins: Option<&'m Origins>,
    /// Why its debug information doesn't follow that of the other one, if it doesn't.
    failure: Option<DebugFailure>,
    /// How its code differs from that of the other one.
    code: CodeChange,
}

/// A run over a module that was read.
#[derive(Clone, Copy)]
struct Collecting<'w, 'm, R> {
    rt: &'w R,
    /// The program's name.
    program: &'m str,
    task: &'m Task<'w>,
    made: Made<'m>,
}

impl<'w, 'm, R> Collecting<'w, 'm, R>
where
    R: LockFiles + Input + Clock + Print + Eprint + AllocGlobal + Drop,
{
    /// Why the module is refused.
    fn refused(&self, parsed: &ParsedModule<'_>, error: &ModuleError) -> ProgramFailure<'w> {
        refused(self.rt.alloc(), parsed, self.task.input, error)
    }

    /// Writes a module that was made, of which this is left, and what follows it.
    fn write_made(
        &self,
        parsed: &mut ParsedModule<'_>,
        remainder: &Remainder,
        made: &mut Vec<u8>,
        output: &'w str,
    ) -> Result<u64, ProgramFailure<'w>> {
        let (rt, task) = (self.rt, self.task);
        let source = match given_source_map(rt, task) {
            Ok(map) => map,
            Err(failure) => return Err(failure),
        };
        let failure = self.made.failure;
        let followers = match push_followers(rt.alloc(), task, parsed, remainder, failure, made) {
            Ok(followers) => followers,
            Err(error) => return Err(self.refused(parsed, &error)),
        };
        let module = LeftModule {
            remainder,
            made,
            origins: self.made.origins,
        };
        let written = match write_left(rt, task, parsed, module, &source, output) {
            Ok(written) => written,
            Err(failure) => return Err(failure),
        };
        let all = Notes {
            notes: followers.notes.as_slice(),
            code: followers.code.after(self.made.code),
        };
        let outcome = DebugOutcome {
            sections: followers.debug.as_slice(),
            failure: followers.failure,
        };
        warn_of(rt, self.program, all, task, outcome);
        Ok(written)
    }

    /// Writes the module of which this is left, and returns how many bytes it has; or lists the functions that aren't, where no module is
    /// written.
    fn write_or_list(
        &self,
        parsed: &mut ParsedModule<'_>,
        remainder: &Remainder,
    ) -> Result<Option<u64>, ProgramFailure<'w>> {
        let Some(output) = self.task.output else {
            return match list_removed(self.rt, parsed, &remainder.left) {
                Ok(()) => Ok(None),
                Err(failure) => Err(failure),
            };
        };
        let mut made = match made_of_left(self.rt.alloc(), self.task, parsed, remainder) {
            Ok(made) => made,
            Err(error) => return Err(self.refused(parsed, &error)),
        };
        match self.write_made(parsed, remainder, &mut made, output) {
            Ok(written) => Ok(Some(written)),
            Err(failure) => Err(failure),
        }
    }

    /// Does what is asked for with a module that was read. Returns how many bytes were written, if a module was.
    fn collect(&self, parsed: &mut ParsedModule<'_>) -> Result<Option<u64>, ProgramFailure<'w>> {
        let functions = match functions_of(self.rt, parsed, &self.task.kept) {
            Ok(functions) => functions,
            Err(failure) => return Err(failure),
        };
        match reached(self.rt.alloc(), parsed, &functions) {
            Ok(remainder) => self.write_or_list(parsed, &remainder),
            Err(error) => Err(self.refused(parsed, &error)),
        }
    }

    /// The same after the bodies of the functions are taken away that are asked for.
    fn snip_and_collect(
        &self,
        parsed: &mut ParsedModule<'_>,
    ) -> Result<Option<u64>, ProgramFailure<'w>> {
        let (rt, task) = (self.rt, self.task);
        let functions = match functions_of(rt, parsed, &task.functions) {
            Ok(functions) => functions,
            Err(failure) => return Err(failure),
        };
        let snipped = match snipped(rt.alloc(), task, parsed, functions) {
            Ok(snipped) => snipped,
            Err(error) => return Err(self.refused(parsed, &error)),
        };
        let made = Made {
            origins: Some(&snipped.origins),
            failure: snipped.failure,
            code: snipped.code,
        };
        match ParsedModule::read_in_box(rt.alloc(), &snipped.bytes) {
            Ok(mut parsed) => Collecting { made, ..*self }.collect(&mut parsed),
            Err(error) => Err(self.refused(parsed, &error)),
        }
    }

    /// Does what is asked for with a module of these bytes.
    fn run_over(&self, bytes: &[u8]) -> Result<Done, ProgramFailure<'w>> {
        let (rt, task) = (self.rt, self.task);
        let mut parsed = match ParsedModule::read_in_box(rt.alloc(), bytes) {
            Ok(parsed) => parsed,
            Err(error) => return Err(ProgramFailure::not_read(
                rt.alloc(),
                task.input,
                bytes,
                &error,
            )),
        };
        match check_validity(rt.alloc(), task, bytes, &parsed) {
            Ok(()) => {}
            Err(failure) => return Err(failure),
        }
        let functions = parsed.body_count();
        let written = match task.functions.is_empty() {
            true => self.collect(&mut parsed),
            false => self.snip_and_collect(&mut parsed),
        };
        match written {
            Ok(written) => Ok(Done {
                functions,
                read: bytes.len() as u64,
                outcome: Outcome {
                    refused: 0,
                    written,
                },
            }),
            Err(failure) => Err(failure),
        }
    }
}

/// Does what is asked for.
fn collect_task<'w, 'm, R: LockFiles + Input + Clock + Print + Eprint + AllocGlobal + Drop>(
    rt: &'w R,
    program: &'m str,
    task: &'m Task<'w>,
    terminals: Terminals,
) -> Result<Done, ProgramFailure<'w>> {
    match check_task(rt, task, terminals) {
        Ok(()) => {}
        Err(failure) => return Err(failure),
    }
    let made = Made {
        origins: None,
        failure: None,
        code: CodeChange::NONE,
    };
    let collecting = Collecting {
        rt,
        program,
        task,
        made,
    };
    match read_file(rt, task.input) {
        Ok(bytes) => collecting.run_over(&bytes),
        Err(failure) => Err(failure),
    }
}

/// Does what is asked for, and returns its status.
fn collect_timed<R: LockFiles + Input + Clock + Print + Eprint + AllocGlobal + Drop>(
    rt: &R,
    program: &str,
    task: &Task<'_>,
    terminals: Terminals,
) -> io::Result<ExitCode>
    ensures { IfOk result (λ code. exit_status code ≤ 2) }
{
    let start = Instant::now(rt)?;
    let done = match collect_task(rt, program, task, terminals) {
        Ok(done) => done,
        Err(failure) => return Ok(exit_code(rt, program, failure)),
    };
    if task.is_verbose {
        print_done(rt, program, done, start)?;
    }
    Ok(status_of_done(done))
}

/// What the words ask for, if what nothing reaches is left out.
fn collection_of<'w>(
    alloc: Global,
    program: &Program,
    words: &'w [String],
) -> Result<Option<Task<'w>>, ProgramFailure<'w>> {
    match read_arguments(alloc, program, words) {
        Ok(Request::Task(task)) if task.collects => Ok(Some(task)),
        // What they ask for isn't known.
        Err(ProgramFailure::Memory) => Err(ProgramFailure::Memory),
        _ => Ok(None),
    }
}

/// Runs a program that can leave out what nothing reaches, over the arguments from this place on, and returns its status: 0 where the module
/// is written or its functions are listed; 1 where it is refused, or a file can't be read or written; 2 for wrong use.
///
/// # Errors
///
/// Those of `run`, which does all that isn't that.
pub fn run_collecting<R, T: Tool>(
    rt: &R,
    tool: &T,
    program: &Program,
    first: usize,
    terminals: Terminals,
) -> io::Result<ExitCode>
where
    R: LockFiles + Input + Env + Clock + Print + Eprint + AllocGlobal + Drop,
    ensures { IfOk result (λ code. exit_status code ≤ 2) }
{
    let words = match words(rt, first) {
        Ok(words) => words,
        Err(failure) => return Ok(exit_code(rt, program.name, failure)),
    };
    match collection_of(rt.alloc(), program, &words) {
        Ok(Some(task)) => collect_timed(rt, program.name, &task, terminals),
        Ok(None) => run(rt, tool, program, first, terminals),
        Err(failure) => Ok(exit_code(rt, program.name, failure)),
    }
}
