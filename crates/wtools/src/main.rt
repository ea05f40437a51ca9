//! The programs `wrewrite`, `wsnip`, `wcount`, `wmeter` and `wgc`, and the benchmark `wbench`, in one. It
//! runs as the one under whose name it is started, as by a link or a copy, or else as the one that its
//! first word names.
#![tactic(auto)]

ghost use Rattle.std.specs.Prelude.{◌≡◌, ◌≤◌, [], IfOk};
ghost use Rattle.std.specs.Process.{exit_status};

mod collecting;
mod counting;
mod measuring;
mod metering;
mod naming;
mod rewriting;
mod snipping;

use counting::Count;
use measuring::run_passes;
use metering::Meter;
use module_tools::{
    BUILD, LockFiles, ProgramFailure, Terminals, UsageError, VERSION, exit_code, page_code, run,
    words,
};
use naming::{Chosen, asked};
use removal_tools::run_collecting;
use rewriting::RewriteAll;
use snipping::Snip;
use std::alloc::{AllocError, Global};
use std::io;
use std::io::IsTerminal;
use std::process::ExitCode;
use std::rt::{Clock, Env};

/// Its own name, with which its messages begin where it runs as none of them.
const NAME: &str = "wtools";

const HELP: &str = "usage: wtools PROGRAM [WORD]..

Five programs in one, which read a WebAssembly module and write one, and a benchmark.
Under the name of one of them, as that of a link or a copy, it runs as that one, and
PROGRAM is left out.

  wrewrite       rewrites each function, in the shortest encodings
  wsnip          leaves nothing but `unreachable` of functions that are named
  wcount         lets each function count its calls
  wmeter         lets the functions charge what they execute
  wgc            leaves out what nothing reaches
  wbench         passes over the bodies of a module, to measure what a pass costs

  -h, --help     print this; after PROGRAM, which words it takes
  -V, --version  print the version

Status: that of the program; 2 wrong use.

example: wtools wrewrite in.wasm out.wasm";

/// What is printed where no program is run.
#[derive(Clone, Copy)]
enum Page {
    Help,
    Version,
}

/// The page that the first word requests, which names no program.
fn requested_page(words: &[String]) -> Result<Page, UsageError<'_>> {
    let Some(word) = words.first() else {
        return Err(UsageError::NoProgram);
    };
    match word.as_str() {
        "-h" | "--help" => Ok(Page::Help),
        "-V" | "--version" => Ok(Page::Version),
        name => Err(UsageError::UnknownProgram(name)),
    }
}

/// Prints the page that the words request, or that they are wrong, and returns the status.
fn print_page(rt: &(impl Print + Eprint), words: &[String]) -> io::Result<ExitCode>
    ensures { IfOk result (λ code. exit_status code ≤ 2) }
{
    let printed = match requested_page(words) {
        Ok(Page::Help) => println!(rt; "{HELP}"),
        Ok(Page::Version) => println!(rt; "{NAME} {VERSION} ({BUILD})"),
        Err(wrong) => return Ok(exit_code(rt, NAME, ProgramFailure::UsageError(wrong))),
    };
    Ok(page_code(rt, NAME, printed))
}

/// Runs none of the programs, and returns the status.
fn run_none<R: Env + Print + Eprint + AllocGlobal>(rt: &R) -> io::Result<ExitCode>
    ensures { IfOk result (λ code. exit_status code ≤ 2) }
{
    match words(rt, 1) {
        Ok(words) => print_page(rt, &words),
        Err(failure) => Ok(exit_code(rt, NAME, failure)),
    }
}

/// Runs the program that is asked for, and returns the status, which is `run`'s.
fn run_asked<R: LockFiles + Input + Env + Clock + Print + Eprint + AllocGlobal + Drop>(
    rt: &R,
    terminals: Terminals,
) -> io::Result<ExitCode>
    ensures { IfOk result (λ code. exit_status code ≤ 2) }
{
    match asked(rt) {
        Some((Chosen::Rewrite, first)) => {
            run(rt, &RewriteAll, &rewriting::PROGRAM, first, terminals)
        }
        Some((Chosen::Snip, first)) => {
            run_collecting(rt, &Snip, &snipping::PROGRAM, first, terminals)
        }
        Some((Chosen::Count, first)) => run(rt, &Count, &counting::PROGRAM, first, terminals),
        Some((Chosen::Meter, first)) => run(rt, &Meter, &metering::PROGRAM, first, terminals),
        Some((Chosen::Collect, first)) => {
            run_collecting(rt, &RewriteAll, &collecting::PROGRAM, first, terminals)
        }
        Some((Chosen::Measure, first)) => run_passes(rt, first),
        None => run_none(rt),
    }
}

/// The largest list that is taken from the heap, in bytes.
const LARGEST: usize = 1 << 20;

/// A list with room for so many bytes. It isn't inlined, so that the compiler doesn't leave it out.
///
/// # Errors
///
/// Out of memory.
#[inline(never)]
fn list_with_room(alloc: Global, len: usize) -> Result<Vec<u8>, AllocError>
    ensures { IfOk result (λ list. list.items ≡ []) }
{
    Vec::with_capacity(alloc, len)
}

/// Makes a large list and drops it. The C library maps each large request for memory by itself until
/// one of its size has been given back, and takes such requests from its heap from then on, whose
/// pages stay. Otherwise each block of a type with very long lists would map its lists anew.
fn prepare_heap(alloc: Global) {
    let _list = list_with_room(alloc, LARGEST);
}

fn main(rt: HostRuntime) -> io::Result<ExitCode> {
    prepare_heap(rt.alloc());
    let terminals = Terminals {
        output: rt.stdout().is_terminal(),
        errors: rt.stderr().is_terminal(),
    };
    run_asked(&rt, terminals)
}
