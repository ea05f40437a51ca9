//! `wbench`: passes over the bodies of a module, to measure what a pass costs.

ghost use Rattle.std.specs.Prelude.{◌≤◌, IfOk};
ghost use Rattle.std.specs.Process.{exit_status};

use module_tools::{ProgramFailure, exit_code, read_file, words};
use std::alloc::Global;
use std::io;
use std::process::ExitCode;
use std::rt::{Env, Files};
use walrus_ir::{Instr, InstrLocId};
use wasm_module::{Body, ModuleError, ParsedModule, Scratch};

/// Its name, with which its messages begin.
const NAME: &str = "wbench";

const USAGE: &str = "usage: wbench check|parse|rewrite|map|flat|flatmap|compare PASSES IN.wasm";

/// What a pass does with each body.
#[derive(Clone, Copy)]
enum Pass {
    /// Checks it.
    Check,
    /// Parses it.
    Parse,
    /// Parses and writes it.
    Rewrite,
    /// Parses and writes it, with location pairs.
    Map,
    /// Writes it without a tree.
    Flat,
    /// Writes it without a tree, with location pairs.
    FlatMap,
    /// Writes it by its tree and without it, and compares the bytes and the location pairs.
    Compare,
}

impl Pass {
    fn named(name: &str) -> Option<Pass> {
        match name {
            "check" => Some(Pass::Check),
            "parse" => Some(Pass::Parse),
            "rewrite" => Some(Pass::Rewrite),
            "map" => Some(Pass::Map),
            "flat" => Some(Pass::Flat),
            "flatmap" => Some(Pass::FlatMap),
            "compare" => Some(Pass::Compare),
            _ => None,
        }
    }

    /// Does it with a body, and returns a number that depends on the result: 1 if it is accepted; how
    /// many operators were read; how many bytes were written; how many bytes and pairs; or 1 if both
    /// ways differ.
    fn run<'a>(
        self,
        parsed: &mut ParsedModule<'a>,
        body: Body<'a>,
        instrs: &mut Vec<(Instr, InstrLocId)>,
        scratch: &mut Scratch,
    ) -> Result<usize, ModuleError> {
        match self {
            Pass::Check => {
                parsed.check(body, scratch)?;
                Ok(1)
            }
            Pass::Parse => count_operators(parsed, body, instrs),
            Pass::Rewrite => {
                done(parsed.rewrite(body, instrs, scratch))?;
                Ok(scratch.raw.len())
            }
            Pass::Map => {
                done(parsed.rewrite_with_pairs(body, instrs, scratch))?;
                Ok(scratch.raw.len().saturating_add(scratch.pairs.len()))
            }
            Pass::Flat => {
                parsed.rewrite_flat(body, scratch)?;
                Ok(scratch.raw.len())
            }
            Pass::FlatMap => {
                parsed.rewrite_flat_with_pairs(body, scratch)?;
                Ok(scratch.raw.len().saturating_add(scratch.pairs.len()))
            }
            Pass::Compare => {
                done(parsed.rewrite_with_pairs(body, instrs, scratch))?;
                compare_flat(parsed, body, scratch)
            }
        }
    }
}

/// Drops what was made: a function that takes it apart itself takes long to prove.
fn done<T: Drop>(made: Result<T, ModuleError>) -> Result<(), ModuleError> {
    match made {
        Ok(_made) => Ok(()),
        Err(error) => Err(error),
    }
}

/// Parses a body, and returns how many operators were read.
fn count_operators<'a>(
    parsed: &mut ParsedModule<'a>,
    body: Body<'a>,
    instrs: &mut Vec<(Instr, InstrLocId)>,
) -> Result<usize, ModuleError> {
    match parsed.parse(body, instrs) {
        Ok(function) => Ok(function.instruction_mapping.len()),
        Err(error) => Err(error),
    }
}

/// Writes a body without a tree, and returns 1 if the bytes or the pairs differ from these.
fn compare_flat<'a>(
    parsed: &mut ParsedModule<'a>,
    body: Body<'a>,
    tree: &Scratch,
) -> Result<usize, ModuleError> {
    let mut flat = Scratch::new(*tree.raw.allocator());
    match parsed.rewrite_flat_with_pairs(body, &mut flat) {
        Ok(()) => Ok(usize::from(flat.raw != tree.raw || flat.pairs != tree.pairs)),
        Err(error) => Err(error),
    }
}

/// What the program is asked for.
#[derive(Clone, Copy)]
struct Task<'w> {
    pass: Pass,
    passes: usize,
    path: &'w str,
}

impl<'w> Task<'w> {
    fn of(words: &'w [String]) -> Option<Task<'w>> {
        let [pass, passes, path] = words else {
            return None;
        };
        match (Pass::named(pass.as_str()), passes.as_str().parse::<usize>()) {
            (Some(pass), Ok(passes)) => Some(Task {
                pass,
                passes,
                path: path.as_str(),
            }),
            _ => None,
        }
    }
}

/// Adds up the numbers of one pass over all bodies.
fn pass_once<'a>(
    pass: Pass,
    parsed: &mut ParsedModule<'a>,
    instrs: &mut Vec<(Instr, InstrLocId)>,
    scratch: &mut Scratch,
) -> Result<usize, ModuleError> {
    let mut sum = 0usize;
    for body in parsed.bodies() {
        match pass.run(parsed, body, instrs, scratch) {
            Ok(number) => sum = sum.wrapping_add(number),
            Err(error) => return Err(error),
        }
    }
    Ok(sum)
}

/// Adds up the numbers of so many passes.
fn pass_all(
    task: Task<'_>,
    parsed: &mut ParsedModule<'_>,
    instrs: &mut Vec<(Instr, InstrLocId)>,
    scratch: &mut Scratch,
) -> Result<usize, ModuleError> {
    let mut sum = 0usize;
    for _ in 0..task.passes {
        match pass_once(task.pass, parsed, instrs, scratch) {
            Ok(number) => sum = sum.wrapping_add(number),
            Err(error) => return Err(error),
        }
    }
    Ok(sum)
}

/// How many bytes the bodies of a module have.
fn count_bytes(parsed: &ParsedModule<'_>) -> usize {
    let mut count = 0usize;
    for body in parsed.bodies() {
        count = count.saturating_add(body.bytes().len());
    }
    count
}

/// What is printed of a module that was measured: how many bodies and bytes it has, and the sum of
/// the passes.
#[derive(Clone, Copy)]
struct Measured {
    bodies: usize,
    bytes: usize,
    sum: usize,
}

/// Adds up the numbers of all passes over a module, which share what they work with.
fn sum_passes(
    alloc: Global,
    task: Task<'_>,
    parsed: &mut ParsedModule<'_>,
) -> Result<usize, ModuleError> {
    let mut instrs = Vec::new(alloc);
    let mut scratch = Scratch::new(alloc);
    pass_all(task, parsed, &mut instrs, &mut scratch)
}

/// Measures a module that was read.
fn measure_parsed(
    alloc: Global,
    task: Task<'_>,
    parsed: &mut ParsedModule<'_>,
) -> Result<Measured, ModuleError> {
    match sum_passes(alloc, task, parsed) {
        Ok(sum) => Ok(Measured {
            bodies: parsed.body_count(),
            bytes: count_bytes(parsed),
            sum,
        }),
        Err(error) => Err(error),
    }
}

/// Reads a module and measures it.
fn measure(alloc: Global, task: Task<'_>, bytes: &[u8]) -> Result<Measured, ModuleError> {
    let mut parsed = ParsedModule::read_in_box(alloc, bytes)?;
    measure_parsed(alloc, task, &mut parsed)
}

/// Measures a module, prints what it found or why it found nothing, and returns the status.
fn print_measured<R: Print + Eprint + AllocGlobal>(
    rt: &R,
    task: Task<'_>,
    bytes: &[u8],
) -> io::Result<ExitCode>
    ensures { IfOk result (λ code. exit_status code ≤ 2) }
{
    match measure(rt.alloc(), task, bytes) {
        Ok(Measured { bodies, bytes, sum }) => {
            println!(rt; "{bodies} bodies, {bytes} bytes, sum {sum}")?;
            Ok(ExitCode::SUCCESS)
        }
        Err(error) => {
            let failure = ProgramFailure::refused(rt.alloc(), task.path, None, &error);
            Ok(exit_code(rt, NAME, failure))
        }
    }
}

/// Does what the words ask for, and returns the status.
fn run_words<R: Files + Input + Print + Eprint + AllocGlobal>(
    rt: &R,
    words: &[String],
) -> io::Result<ExitCode>
    ensures { IfOk result (λ code. exit_status code ≤ 2) }
{
    let Some(task) = Task::of(words) else {
        eprintln!(rt; "{USAGE}")?;
        return Ok(ExitCode::from(2));
    };
    match read_file(rt, task.path) {
        Ok(bytes) => print_measured(rt, task, &bytes),
        Err(failure) => Ok(exit_code(rt, NAME, failure)),
    }
}

/// Runs `wbench` over the arguments from this place on, and returns its status: 0 where the module
/// is measured, 1 where it or a body is refused, 2 for wrong use.
///
/// # Errors
///
/// Where a line can't be printed.
pub fn run_passes<R: Files + Input + Env + Print + Eprint + AllocGlobal>(
    rt: &R,
    first: usize,
) -> io::Result<ExitCode>
    ensures { IfOk result (λ code. exit_status code ≤ 2) }
{
    match words(rt, first) {
        Ok(words) => run_words(rt, &words),
        Err(failure) => Ok(exit_code(rt, NAME, failure)),
    }
}
