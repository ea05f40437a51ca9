//! Running a program over its words.

ghost use Rattle.std.specs.Prelude.{◌≡◌, ◌≤◌, true, Ok, IfOk, OnOk};
ghost use Rattle.std.specs.Process.{exit_status};
ghost use Rattle.wasm_module.specs.declared.parsed.ParsedModule.{ParsedModule as Parsed};
ghost use Rattle.wasm_module.specs.KeptCode.{AreKept, AreKeptAs, AreKeptWithAs};
ghost use Rattle.wasm_module.specs.RewrittenCode.{Extends, IsRewrittenWith};
ghost use Rattle.wasm_module.specs.WrittenModules.{with_some_pairs};
ghost use Rattle.wasm_sections.specs.Omissions.{OmitsNothing};

use crate::version::{BUILD, VERSION};
use module_debug::DebugSection;
use source_map::SourceMap;
use std::alloc::Global;
use std::io;
use std::process::ExitCode;
use std::rt::{Clock, Env};
use std::time::Instant;
use tool_files::{
    Done, LockFiles, Outcome, check_files, check_source_maps, print_done, read_costs, read_file,
    status_of_done,
};
use tool_reading::{
    Progress, Watched, WatchedChange, check_bodies, check_input, check_validity, functions_of,
    list_functions, refused,
};
use tool_words::{
    ChargeBy, Charging, Program, ProgramFailure, Request, Task, UsageError, exit_code, page_code,
    read_arguments, words,
};
use tool_writing::{DebugOutcome, following_debug, given_source_map, omit, warn, write_module};
use walrus_body::LocalFunction;
use walrus_ir::{FunctionId, IdHashSet, ModuleLocals};
use walrus_metering::Costs;
use wasm_module::{
    BodyWriter, ChangeFunction, Changes, Keeping, Kept, KeptBodies, KeptWithPairs, ModuleError,
    ParsedModule, Rewriting, RewrittenModule,
};

/// Which of the standard streams are terminals.
#[derive(Clone, Copy)]
pub struct Terminals {
    /// Standard output is one.
    pub output: bool,
    /// Standard error is one.
    pub errors: bool,
}

/// What a program makes of a module.
pub trait Tool {
    /// A change of functions.
    type Change: ChangeFunction + Drop;

    /// How the functions of a module that was read are changed, and what is changed of its other
    /// sections, where these functions are asked for. Without a change they are rewritten.
    ///
    /// # Errors
    ///
    /// What the program refuses.
    fn changes(
        &self,
        alloc: Global,
        parsed: &mut ParsedModule<'_>,
        functions: IdHashSet<FunctionId>,
    ) -> Result<(Option<Self::Change>, Changes), ModuleError>;

    /// The same where the words name what the program exports, which only one with `takes_export` is
    /// asked.
    ///
    /// # Errors
    ///
    /// What the program refuses.
    fn changes_with_export(
        &self,
        alloc: Global,
        parsed: &mut ParsedModule<'_>,
        functions: IdHashSet<FunctionId>,
        _export: &str,
    ) -> Result<(Option<Self::Change>, Changes), ModuleError> {
        self.changes(alloc, parsed, functions)
    }

    /// The same where code is charged, which only one with `takes_costs` is asked.
    ///
    /// # Errors
    ///
    /// What the program refuses.
    fn changes_with_costs(
        &self,
        alloc: Global,
        parsed: &mut ParsedModule<'_>,
        functions: IdHashSet<FunctionId>,
        _costs: Costs,
        _by: ChargeBy<'_>,
    ) -> Result<(Option<Self::Change>, Changes), ModuleError> {
        self.changes(alloc, parsed, functions)
    }
}

/// The change of a program that rewrites functions as they are.
#[derive(Clone, Copy, Drop)]
pub struct NoChange;

impl ChangeFunction for NoChange {
    ghost use Rattle.std.specs.Prelude.{◌≡◌};
    ghost use Rattle.wasm_module.specs.RewrittenCode.{alike};

    ghost State = { Unit {0} };

    ghost state = { λ _. tt };

    ghost changes = { alike (λ _ _ old new. new ≡ old) };

    fn change(
        &mut self,
        _index: usize,
        _function: &mut LocalFunction,
        _locals: &mut ModuleLocals,
    ) -> Result<(), ModuleError> {
        Ok(())
    }
}

/// Whether the location pairs of the bodies are told that are written for a task.
fn tells_pairs(task: &Task<'_>, debug: &[DebugSection<'_>]) -> bool {
    task.map.is_some() || task.source_map.is_some() || !debug.is_empty()
}

/// The module with its functions rewritten, whose location pairs are kept too.
fn rewritten_with_pairs<'a, R: Eprint + Clock>(
    parsed: &mut ParsedModule<'a>,
    changes: Changes,
    progress: &'a Progress<'a, R>,
) -> Result<RewrittenModule<'a, Watched<'a, R, KeptWithPairs<'a, Rewriting>>>, ModuleError>
    ensures extends { OnOk result (Extends parsed.old parsed.new) }
    ensures kept { (source : Parsed) → Extends source parsed.old → IfOk result
        (λ made. AreKeptAs (with_some_pairs IsRewrittenWith) source made.bodies.bodies.kept) }
    ensures pairs { (source : Parsed) → Extends source parsed.old → IfOk result
        (λ made. AreKeptWithAs IsRewrittenWith source made.bodies.bodies.kept) }
    ensures changes { IfOk result (λ made. made.changes ≡ changes) }
    ensures omitted { IfOk result (λ made. OmitsNothing made.omitted) }
{
    let keeping = Keeping::CODE_WITH_PAIRS;
    match parsed.rewrite_keeping(Watched::first(progress, Rewriting), changes, keeping) {
        Ok(module) => {
            let (bodies, rest) = module.take_bodies();
            let bodies = bodies.with_bodies(Rewriting).with_pairs();
            Ok(rest.with_bodies(Watched::new(progress, bodies)))
        }
        Err(error) => Err(error),
    }
}

/// The module with its functions rewritten.
fn rewritten<'a, R: Eprint + Clock>(
    parsed: &mut ParsedModule<'a>,
    changes: Changes,
    progress: &'a Progress<'a, R>,
) -> Result<RewrittenModule<'a, Watched<'a, R, Kept<'a, Rewriting>>>, ModuleError>
    ensures extends { OnOk result (Extends parsed.old parsed.new) }
    ensures kept { (source : Parsed) → Extends source parsed.old → IfOk result
        (λ made. AreKeptAs (with_some_pairs IsRewrittenWith) source made.bodies.bodies.kept) }
    ensures changes { IfOk result (λ made. made.changes ≡ changes) }
    ensures omitted { IfOk result (λ made. OmitsNothing made.omitted) }
{
    match parsed.rewrite_with(Watched::first(progress, Rewriting), changes) {
        Ok(module) => {
            let (bodies, rest) = module.take_bodies();
            let bodies = bodies.with_bodies(Rewriting);
            Ok(rest.with_bodies(Watched::new(progress, bodies)))
        }
        Err(error) => Err(error),
    }
}

/// The module with its functions changed.
fn changed<'a, R: Eprint + Clock, C: ChangeFunction + Drop>(
    parsed: &mut ParsedModule<'a>,
    change: C,
    changes: Changes,
    progress: &'a Progress<'a, R>,
) -> Result<RewrittenModule<'a, Watched<'a, R, KeptBodies<'a>>>, ModuleError>
    ensures extends { OnOk result (Extends parsed.old parsed.new) }
    ensures changed { IfOk result (λ made. (after : C.State)
        × AreKept C.changes parsed.old (C.state change) made.bodies.bodies after) }
    ensures changes { IfOk result (λ made. made.changes ≡ changes) }
    ensures omitted { IfOk result (λ made. OmitsNothing made.omitted) }
{
    let mut change = WatchedChange::new(progress, change);
    match parsed.change_all(&mut change, changes) {
        Ok(module) => {
            let (bodies, rest) = module.take_bodies();
            Ok(rest.with_bodies(Watched::new(progress, bodies)))
        }
        Err(error) => Err(error),
    }
}

/// A run of a program over a module that was read.
#[derive(Clone, Copy)]
struct ModuleRun<'w, 'a, R, T> {
    rt: &'w R,
    tool: &'a T,
    /// The program's name.
    program: &'a str,
    task: &'a Task<'w>,
    progress: &'a Progress<'a, R>,
}

impl<'w, 'a, R, T: Tool> ModuleRun<'w, 'a, R, T>
where
    R: LockFiles + Input + Clock + Print + Eprint + AllocGlobal + Drop,
{
    /// Why the module is refused.
    fn refused(&self, parsed: &ParsedModule<'a>, error: &ModuleError) -> ProgramFailure<'w> {
        refused(self.rt.alloc(), parsed, self.task.input, error)
    }

    /// What the program changes of the module, where code is charged.
    fn charges_of(
        &self,
        parsed: &mut ParsedModule<'a>,
        functions: IdHashSet<FunctionId>,
        charging: Charging<'w>,
    ) -> Result<(Option<T::Change>, Changes), ProgramFailure<'w>> {
        let costs = match read_costs(self.rt, charging.costs) {
            Ok(costs) => costs,
            Err(failure) => return Err(failure),
        };
        let (tool, alloc, by) = (self.tool, self.rt.alloc(), charging.by);
        match tool.changes_with_costs(alloc, parsed, functions, costs, by) {
            Ok(changes) => Ok(changes),
            Err(error) => Err(self.refused(parsed, &error)),
        }
    }

    /// What the program changes of the module, where these functions are asked for.
    fn changes_of(
        &self,
        parsed: &mut ParsedModule<'a>,
        functions: IdHashSet<FunctionId>,
    ) -> Result<(Option<T::Change>, Changes), ProgramFailure<'w>> {
        if let Some(charging) = self.task.charging {
            return self.charges_of(parsed, functions, charging);
        }
        let (tool, alloc) = (self.tool, self.rt.alloc());
        let changes = match self.task.export {
            None => tool.changes(alloc, parsed, functions),
            Some(name) => tool.changes_with_export(alloc, parsed, functions, name),
        };
        match changes {
            Ok(changes) => Ok(changes),
            Err(error) => Err(self.refused(parsed, &error)),
        }
    }

    /// Writes what was made of the module, and the source map, if there is one, of which each mapping
    /// follows its operator; then says what is wrong now with the sections of the module that was
    /// made. These sections with debug information follow the code, if it changes. Returns how many bytes
    /// the module has.
    fn write_made<B: BodyWriter + Drop>(
        &self,
        source: &Option<SourceMap>,
        parsed: &mut ParsedModule<'a>,
        mut module: RewrittenModule<'a, B>,
        debug: &[DebugSection<'a>],
        output: &'w str,
    ) -> Result<u64, ProgramFailure<'w>> {
        let count = match module.changes_code() {
            true => debug.len(),
            false => 0,
        };
        let sections = &debug[..count];
        if omit(self.task, parsed, sections, &mut module).is_err() {
            // Its sections were read before.
            return Err(ProgramFailure::Memory);
        }
        match write_module(
            self.rt, parsed, &module, sections, self.task, source, output,
        ) {
            Ok((written, failure)) => {
                let outcome = DebugOutcome { sections, failure };
                warn(self.rt, self.program, &module, self.task, outcome);
                Ok(written)
            }
            Err(failure) => Err(failure),
        }
    }

    /// Writes what was made of the module, and the source map that follows it, if there is one; or says
    /// why nothing was made. Returns how many bytes were written of the module.
    fn write_or_refuse<B: BodyWriter + Drop>(
        &self,
        source: &Option<SourceMap>,
        parsed: &mut ParsedModule<'a>,
        made: Result<RewrittenModule<'a, B>, ModuleError>,
        debug: &[DebugSection<'a>],
        output: &'w str,
    ) -> Result<u64, ProgramFailure<'w>> {
        match made {
            Ok(module) => {
                self.progress.clear();
                self.write_made(source, parsed, module, debug, output)
            }
            Err(error) => Err(self.refused(parsed, &error)),
        }
    }

    /// Writes what the program makes of the module, where these functions are asked for, and the source
    /// map that follows it, if there is one. Returns how many bytes were written of the module.
    fn rewrite(
        &self,
        source: &Option<SourceMap>,
        parsed: &mut ParsedModule<'a>,
        functions: IdHashSet<FunctionId>,
        output: &'w str,
    ) -> Result<u64, ProgramFailure<'w>> {
        let (change, changes) = match self.changes_of(parsed, functions) {
            Ok(found) => found,
            Err(failure) => return Err(failure),
        };
        let Ok(debug) = following_debug(self.rt.alloc(), self.task, parsed) else {
            // Its sections were read before.
            return Err(ProgramFailure::Memory);
        };
        match change {
            None if tells_pairs(self.task, &debug) => {
                let made = rewritten_with_pairs(parsed, changes, self.progress);
                self.write_or_refuse(source, parsed, made, &debug, output)
            }
            None => {
                let made = rewritten(parsed, changes, self.progress);
                self.write_or_refuse(source, parsed, made, &debug, output)
            }
            Some(change) => {
                let made = changed(parsed, change, changes, self.progress);
                self.write_or_refuse(source, parsed, made, &debug, output)
            }
        }
    }

    /// Writes what the program makes of the module, after the source map is read, if one is given.
    /// Returns how many bytes were written of the module.
    fn rewrite_with_map(
        &self,
        parsed: &mut ParsedModule<'a>,
        functions: IdHashSet<FunctionId>,
        output: &'w str,
    ) -> Result<u64, ProgramFailure<'w>> {
        match given_source_map(self.rt, self.task) {
            Ok(map) => self.rewrite(&map, parsed, functions, output),
            Err(failure) => Err(failure),
        }
    }

    /// Writes what the program makes of the module, after the functions are found that are asked for.
    /// Returns how many bytes were written of the module.
    fn rewrite_asked(
        &self,
        parsed: &mut ParsedModule<'a>,
        output: &'w str,
    ) -> Result<u64, ProgramFailure<'w>> {
        match functions_of(self.rt, parsed, &self.task.functions) {
            Ok(functions) => self.rewrite_with_map(parsed, functions, output),
            Err(failure) => Err(failure),
        }
    }

    /// Prints a line for each function, or for each body that is refused, and returns how many are.
    fn read_alone(&self, parsed: &mut ParsedModule<'a>) -> Result<usize, ProgramFailure<'w>> {
        if !self.task.lists {
            let path = self.task.input;
            return check_bodies(self.rt, self.program, parsed, path, self.progress);
        }
        match list_functions(self.rt, parsed) {
            Ok(()) => Ok(0),
            Err(failure) => Err(failure),
        }
    }

    /// Does what is asked for.
    fn outcome(&self, parsed: &mut ParsedModule<'a>) -> Result<Outcome, ProgramFailure<'w>> {
        let Some(output) = self.task.output else {
            return match self.read_alone(parsed) {
                Ok(refused) => Ok(Outcome {
                    refused,
                    written: None,
                }),
                Err(failure) => Err(failure),
            };
        };
        match self.rewrite_asked(parsed, output) {
            Ok(written) => Ok(Outcome {
                refused: 0,
                written: Some(written),
            }),
            Err(failure) => Err(failure),
        }
    }
}

/// Does what is asked for with a module of these bytes.
fn run_over<'w, 'a, R, T: Tool>(
    rt: &'w R,
    tool: &'a T,
    program: &'a str,
    task: &'a Task<'w>,
    bytes: &'a [u8],
    progress: &'a Progress<'a, R>,
) -> Result<Done, ProgramFailure<'w>>
where
    R: LockFiles + Input + Clock + Print + Eprint + AllocGlobal + Drop,
{
    let mut parsed = match ParsedModule::read_in_box(rt.alloc(), bytes) {
        Ok(parsed) => parsed,
        Err(error) => return Err(ProgramFailure::not_read(rt.alloc(), task.input, bytes, &error)),
    };
    match check_validity(rt.alloc(), task, bytes, &parsed) {
        Ok(()) => {}
        Err(failure) => return Err(failure),
    }
    let functions = parsed.body_count();
    progress.begin(functions);
    let run = ModuleRun {
        rt,
        tool,
        program,
        task,
        progress,
    };
    match run.outcome(&mut parsed) {
        Ok(outcome) => Ok(Done {
            functions,
            read: bytes.len() as u64,
            outcome,
        }),
        Err(failure) => Err(failure),
    }
}

/// Reads the module that is named, and does what is asked for.
fn read_and_run<'w, 'a, R, T: Tool>(
    rt: &'w R,
    tool: &'a T,
    program: &'a str,
    task: &'a Task<'w>,
    progress: &'a Progress<'a, R>,
) -> Result<Done, ProgramFailure<'w>>
where
    R: LockFiles + Input + Clock + Print + Eprint + AllocGlobal + Drop,
{
    match read_file(rt, task.input) {
        Ok(bytes) => run_over(rt, tool, program, task, &bytes, progress),
        Err(failure) => Err(failure),
    }
}

/// Checks the files of a task before any is opened.
pub fn check_task<'w, R: LockFiles + AllocGlobal>(
    rt: &R,
    task: &Task<'w>,
    terminals: Terminals,
) -> Result<(), ProgramFailure<'w>> {
    if terminals.output && task.output == Some("-") {
        return Err(ProgramFailure::UsageError(match task.names_output {
            true => UsageError::Terminal,
            false => UsageError::NoOutput,
        }));
    }
    check_input(task)?;
    match check_files(rt, task) {
        Ok(()) => check_source_maps(rt, task),
        Err(failure) => Err(failure),
    }
}

/// Does what is asked for, and shows on a terminal how far it is.
fn run_task<'w, R: LockFiles + Input + Clock + Print + Eprint + AllocGlobal + Drop, T: Tool>(
    rt: &'w R,
    tool: &T,
    program: &str,
    task: &Task<'w>,
    terminals: Terminals,
) -> Result<Done, ProgramFailure<'w>> {
    match check_task(rt, task, terminals) {
        Ok(()) => {}
        Err(failure) => return Err(failure),
    }
    let progress = Progress::new(rt, program, terminals.errors);
    let done = read_and_run(rt, tool, program, task, &progress);
    progress.clear();
    done
}

/// Does what is asked for, and returns its status.
fn run_timed<R: LockFiles + Input + Clock + Print + Eprint + AllocGlobal + Drop, T: Tool>(
    rt: &R,
    tool: &T,
    program: &str,
    task: &Task<'_>,
    terminals: Terminals,
) -> io::Result<ExitCode>
    ensures { IfOk result (λ code. exit_status code ≤ 2) }
{
    let start = Instant::now(rt)?;
    let done = match run_task(rt, tool, program, task, terminals) {
        Ok(done) => done,
        Err(failure) => return Ok(exit_code(rt, program, failure)),
    };
    if task.is_verbose {
        print_done(rt, program, done, start)?;
    }
    Ok(status_of_done(done))
}

/// Runs a program over its words, and returns its status.
fn run_arguments<R: LockFiles + Input + Clock + Print + Eprint + AllocGlobal + Drop, T: Tool>(
    rt: &R,
    tool: &T,
    program: &Program,
    words: &[String],
    terminals: Terminals,
) -> io::Result<ExitCode>
    ensures { IfOk result (λ code. exit_status code ≤ 2) }
{
    match read_arguments(rt.alloc(), program, words) {
        Ok(Request::Task(task)) => run_timed(rt, tool, program.name, &task, terminals),
        Ok(Request::Help) => Ok(page_code(rt, program.name, program.print_help(rt))),
        Ok(Request::Version) => {
            let printed = println!(rt; "{} {VERSION} ({BUILD})", program.name);
            Ok(page_code(rt, program.name, printed))
        }
        Err(failure) => Ok(exit_code(rt, program.name, failure)),
    }
}

/// Runs a program over the arguments from this place on, and returns its status: 0 where the module
/// is written, or none of its bodies is refused; 1 where the module or a body is refused, or a file
/// can't be read or written; 2 for wrong use. Where standard error is a terminal, a run of more than
/// two seconds shows there how far it is.
///
/// # Errors
///
/// Where the clock can't be read, or what `--verbose` prints can't be.
pub fn run<R: LockFiles + Input + Env + Clock + Print + Eprint + AllocGlobal + Drop, T: Tool>(
    rt: &R,
    tool: &T,
    program: &Program,
    first: usize,
    terminals: Terminals,
) -> io::Result<ExitCode>
    ensures { IfOk result (λ code. exit_status code ≤ 2) }
{
    match words(rt, first) {
        Ok(words) => run_arguments(rt, tool, program, &words, terminals),
        Err(failure) => Ok(exit_code(rt, program.name, failure)),
    }
}
