//! The program `wbody_rows`: reads cases from standard input and runs each through the program
//! `wbody`, in memory, and rewrites its body by its tree and without it. If a case's body is
//! accepted, it reads back the bytes written for it, runs both bodies, and checks that each proper
//! prefix of the body's operators is refused.
#![tactic(auto)]

mod both_ways;
mod demo;
mod fault;
mod fronts;
mod read_back;
mod traces;

use crate::both_ways::rewritten_alike;
use crate::demo::{Body, Demo};
use crate::fault::Fault;
use crate::fronts::are_refused;
use crate::read_back::read_back;
use crate::traces::compare_runs;
use std::alloc::{AllocError, Global};
use std::io;
use std::io::{BufRead, BufReader};
use std::process::ExitCode;
use walrus_run::{FlatScratch, NamedBody, run_arguments};

/// The result of a run: its status, and what it prints to standard output and to standard error.
#[derive(Drop)]
struct ProgramOutput {
    status: u8,
    out: Vec<u8>,
    err: Vec<u8>,
}

/// A case: arguments with one space between them, the expected status, and the expected standard
/// output and standard error. Each of these two is empty, or lines with `;` between them.
#[derive(Clone, Copy)]
struct Row<'a> {
    words: &'a str,
    status: &'a str,
    out: &'a str,
    err: &'a str,
}

/// Whether a field of a row is this text, with `;` for the line ends between its lines.
fn is_spelt(alloc: Global, field: &str, text: &[u8]) -> Result<bool, AllocError> {
    let mut spelt: Vec<u8> = Vec::new(alloc);
    for line in field.split_terminator(';') {
        spelt.extend_from_slice(line.as_bytes())?;
        spelt.push(b'\n')?;
    }
    Ok(spelt.as_slice() == text)
}

impl<'a> Row<'a> {
    /// The case in a line: four fields with a tab between them.
    fn of_line(line: &'a str) -> Row<'a> {
        let mut fields = line.split('\t');
        Row {
            words: fields.next().unwrap_or(""),
            status: fields.next().unwrap_or(""),
            out: fields.next().unwrap_or(""),
            err: fields.next().unwrap_or(""),
        }
    }

    /// Whether this result is the expected one.
    fn matches_row(&self, alloc: Global, output: &ProgramOutput) -> Result<bool, AllocError> {
        let status = format!(in alloc; "{}", output.status)?;
        Ok(
            status.as_str() == self.status
                && is_spelt(alloc, self.out, &output.out)?
                && is_spelt(alloc, self.err, &output.err)?,
        )
    }
}

/// The numbers of cases and bodies so far, and of those of each that failed.
#[derive(Clone, Copy)]
struct Counts {
    rows: u64,
    rows_differ: u64,
    rewritten: u64,
    rewritten_differ: u64,
    bodies: u64,
    bodies_differ: u64,
}

/// The list of arguments that have one space between them.
fn list(alloc: Global, words: &str) -> Result<Vec<String>, AllocError> {
    let mut list = Vec::new(alloc);
    for word in words.split(' ') {
        list.push(word.to_string(alloc)?)?;
    }
    Ok(list)
}

/// The result of the program for these arguments, which have one space between them.
fn output_for(alloc: Global, words: &str) -> Result<ProgramOutput, AllocError> {
    let words = list(alloc, words)?;
    let mut out: Vec<u8> = Vec::new(alloc);
    let mut err: Vec<u8> = Vec::new(alloc);
    let status = run_arguments(alloc, &words, &mut out, &mut err);
    Ok(ProgramOutput { status, out, err })
}

/// Runs a body and the bytes written for it.
fn compare_with(
    alloc: Global,
    demo: &Demo,
    source: Body<'_>,
    text: &NamedBody,
) -> Result<(), Fault> {
    match demo.named(alloc, source) {
        Ok(named) => compare_runs(alloc, &named, text),
        Err(fault) => Err(fault),
    }
}

/// Reads the bytes written for a body, and runs both bodies.
fn compare_written(
    alloc: Global,
    demo: &Demo,
    source: Body<'_>,
    written: Body<'_>,
) -> Result<(), Fault> {
    match demo.named(alloc, written) {
        Ok(text) => compare_with(alloc, demo, source, &text),
        Err(fault) => Err(Fault::NotReadBack.unless(fault == Fault::Memory)),
    }
}

/// Reads back the bytes written for a body, and runs both bodies.
fn check_source(alloc: Global, demo: &Demo, source: Body<'_>) -> Result<(), Fault> {
    match read_back(alloc, demo, source) {
        Ok(written) => compare_written(alloc, demo, source, written.body()),
        Err(fault) => Err(fault),
    }
}

/// Reads back the bytes written for the body that the last of these arguments encodes, and runs
/// both bodies; then checks that no proper prefix of its operators is accepted.
fn check_body(alloc: Global, demo: &Demo, words: &str) -> Result<(), Fault> {
    let bytes = hex::decode(alloc, words.rsplit(' ').next().unwrap_or(""))?;
    check_source(alloc, demo, demo.source(&bytes))?;
    are_refused(alloc, demo, &bytes)
}

/// Rewrites the body that the last of these arguments encodes by its tree and without it. `None`: it
/// isn't hexadecimal.
fn is_rewritten_alike(
    alloc: Global,
    demo: &Demo,
    words: &str,
    scratch: &mut FlatScratch,
) -> Result<Option<bool>, AllocError> {
    let bytes = match hex::decode(alloc, words.rsplit(' ').next().unwrap_or("")) {
        Ok(bytes) => bytes,
        Err(hex::FromHexError::OutOfMemory) => return Err(AllocError),
        Err(_) => return Ok(None),
    };
    match rewritten_alike(alloc, demo, demo.source(&bytes), scratch) {
        Ok(()) => Ok(Some(true)),
        Err(Fault::Memory) => Err(AllocError),
        Err(_) => Ok(Some(false)),
    }
}

/// What is wrong with the body of these arguments, if anything.
fn body_fault(alloc: Global, demo: &Demo, words: &str) -> Result<Option<Fault>, AllocError> {
    match check_body(alloc, demo, words) {
        Ok(()) => Ok(None),
        Err(Fault::Memory) => Err(AllocError),
        Err(fault) => Ok(Some(fault)),
    }
}

/// Prints the result for these arguments.
fn print(rt: &HostRuntime, words: &str, output: &ProgramOutput) -> io::Result<()> {
    let out = String::from_utf8_lossy(rt.alloc(), &output.out)?;
    let err = String::from_utf8_lossy(rt.alloc(), &output.err)?;
    println!(rt; "{words}: {} {out:?} {err:?}", output.status)
}

impl Counts {
    /// Counts a case, and prints the result if it isn't the expected one.
    fn compare(
        &mut self,
        rt: &HostRuntime,
        row: Row<'_>,
        output: &ProgramOutput,
    ) -> io::Result<()> {
        self.rows = self.rows.saturating_add(1);
        if !row.matches_row(rt.alloc(), output)? {
            self.rows_differ = self.rows_differ.saturating_add(1);
            print(rt, row.words, output)?;
        }
        Ok(())
    }

    /// Counts a case. Returns the status of the run.
    fn take_row(&mut self, rt: &HostRuntime, row: Row<'_>) -> io::Result<u8> {
        let output = output_for(rt.alloc(), row.words)?;
        self.compare(rt, row, &output)?;
        Ok(output.status)
    }

    /// Counts a body that was rewritten in both ways, and prints its arguments if the results
    /// differ.
    fn take_both_ways(
        &mut self,
        rt: &HostRuntime,
        demo: &Demo,
        scratch: &mut FlatScratch,
        words: &str,
    ) -> io::Result<()> {
        let Some(alike) = is_rewritten_alike(rt.alloc(), demo, words, scratch)? else {
            return Ok(());
        };
        self.rewritten = self.rewritten.saturating_add(1);
        if !alike {
            self.rewritten_differ = self.rewritten_differ.saturating_add(1);
            println!(rt; "{words}: {}", Fault::FlatDiffers)?;
        }
        Ok(())
    }

    /// Counts an accepted body, and prints its arguments and what is wrong with it, if anything.
    fn take_body(&mut self, rt: &HostRuntime, demo: &Demo, words: &str) -> io::Result<()> {
        self.bodies = self.bodies.saturating_add(1);
        if let Some(fault) = body_fault(rt.alloc(), demo, words)? {
            self.bodies_differ = self.bodies_differ.saturating_add(1);
            println!(rt; "{words}: {fault}")?;
        }
        Ok(())
    }

    /// Counts the case in a line, its body in both ways, and its body if it is accepted.
    fn take_line(
        &mut self,
        rt: &HostRuntime,
        demo: &Demo,
        scratch: &mut FlatScratch,
        line: &str,
    ) -> io::Result<()> {
        let row = Row::of_line(line);
        self.take_both_ways(rt, demo, scratch, row.words)?;
        if self.take_row(rt, row)? == 0 {
            self.take_body(rt, demo, row.words)?;
        }
        Ok(())
    }

    /// Counts the cases of standard input.
    fn take_all(
        &mut self,
        rt: &HostRuntime,
        demo: &Demo,
        scratch: &mut FlatScratch,
    ) -> io::Result<()> {
        let alloc = rt.alloc();
        for line in BufReader::new(alloc, rt.reader())?.lines(alloc) {
            self.take_line(rt, demo, scratch, line?.as_str())?;
        }
        Ok(())
    }

    /// The status of the program: 1 where something differs.
    fn status(&self) -> ExitCode {
        match (self.rows_differ, self.rewritten_differ, self.bodies_differ) {
            (0, 0, 0) => ExitCode::SUCCESS,
            _ => ExitCode::FAILURE,
        }
    }

    fn print(&self, rt: &HostRuntime) -> io::Result<()> {
        let Counts {
            rows,
            rows_differ,
            rewritten,
            rewritten_differ,
            bodies,
            bodies_differ,
        } = self;
        println!(rt; "{rows} rows, {rows_differ} differ")?;
        println!(rt;
            "{rewritten} bodies rewritten by their tree and without it, {rewritten_differ} differ"
        )?;
        println!(rt; "{bodies} bodies read back, traced and cut short, {bodies_differ} differ")
    }
}

/// Counts the cases of standard input, prints how many there were, and returns the status.
fn run(rt: &HostRuntime, demo: &Demo) -> io::Result<ExitCode> {
    let mut counts = Counts {
        rows: 0,
        rows_differ: 0,
        rewritten: 0,
        rewritten_differ: 0,
        bodies: 0,
        bodies_differ: 0,
    };
    let mut scratch = FlatScratch::new(rt.alloc());
    counts.take_all(rt, demo, &mut scratch)?;
    counts.print(rt)?;
    Ok(counts.status())
}

/// Does so with a demo module of its own.
fn run_in_demo(rt: &HostRuntime) -> io::Result<ExitCode> {
    let demo = Box::new(rt.alloc(), Demo::new(rt.alloc())?)?;
    run(rt, &demo)
}

/// Its status is 0 where nothing differs, and else 1; also where memory runs out, or the rows can't be
/// read or the results printed, which is then said on standard error.
fn main(rt: HostRuntime) -> ExitCode {
    match run_in_demo(&rt) {
        Ok(status) => status,
        Err(error) => {
            let _ = eprintln!(rt; "wbody_rows: {error}");
            ExitCode::FAILURE
        }
    }
}
