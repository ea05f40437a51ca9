//! Bodies that are read with names and executed.

use crate::bodies::{Demo, bytes_of};
use crate::body_calls::{push_failure, read};
use crate::scenario::{Scenario, Selection};
use crate::text::Text;
use std::alloc::{AllocError, Global};
use std::collections::BTreeSet;
use std::io;
use walrus_ir::TagId;
use walrus_run::{Ending, Event, NamedBody, Outcome, Run, execute};

/// A body, a letter for each outcome of its run, and the number of turns.
#[derive(Clone, Copy)]
struct Execution<'a> {
    alloc: Global,
    demo: &'a Demo<'a>,
    source: &'a [u8],
    letters: &'a str,
    turns: u64,
}

/// The outcome of a letter, as in the arguments of `wbody trace`; `r` raises the first tag.
fn outcome(alloc: Global, letter: char) -> Result<Outcome, AllocError> {
    match letter {
        '1' => Ok(Outcome::Way(true)),
        '0' => Ok(Outcome::Way(false)),
        'r' => {
            let mut tags = BTreeSet::new(alloc);
            tags.insert(TagId::new(0))?;
            Ok(Outcome::Raise(tags))
        }
        _ => Ok(Outcome::Go),
    }
}

fn push_outcome(outcomes: &mut Vec<Outcome>, outcome: Outcome) -> Result<(), AllocError> {
    outcomes.push(outcome)?;
    Ok(())
}

fn push_outcomes(
    outcomes: &mut Vec<Outcome>,
    alloc: Global,
    letters: &str,
) -> Result<(), AllocError> {
    for letter in letters.chars() {
        push_outcome(outcomes, outcome(alloc, letter)?)?;
    }
    Ok(())
}

fn push_run(text: &mut Text, run: &Run) {
    for event in &run.events {
        match event {
            Event::Op(i) => write!(text, " {i}"),
            Event::Taken { i, clause, .. } => write!(text, " {i}:taken{clause}"),
        }
    }
    match &run.ending {
        Ending::Returned => text.push_str(" returned"),
        Ending::Escaped(_) => text.push_str(" escaped"),
        _ => text.push_str(" otherwise"),
    }
}

fn run_named(
    text: &mut Text,
    named: &NamedBody,
    outcomes: &[Outcome],
    turns: u64,
) -> Result<(), AllocError> {
    let run = execute(named, outcomes, turns)?;
    push_run(text, &run);
    Ok(())
}

impl Execution<'_> {
    fn run(&self, returned: &mut Text, outcomes: &[Outcome]) -> Result<(), AllocError> {
        match read(self.alloc, self.demo, self.source) {
            Ok(named) => run_named(returned, &named, outcomes, self.turns),
            Err(failure) => push_failure(returned, failure),
        }
    }
}

impl Scenario for Execution<'_> {
    fn call(&mut self, returned: &mut Text) -> Result<(), AllocError> {
        let mut outcomes = Vec::new(self.alloc);
        match push_outcomes(&mut outcomes, self.alloc, self.letters) {
            Ok(()) => self.run(returned, &outcomes),
            Err(error) => Err(error),
        }
    }
}

/// The rows: a body, a letter for each outcome, and the number of turns.
const ROWS: [(&str, &str, &str, u64); 4] = [
    ("dead", "0002400c0041071a0b41051a0b", "gg", 0),
    ("loop", "00034041010d000b0b", "g1g0", 1),
    ("handler", "0006400800070009000b0b", "r", 0),
    ("delegated", "000640064008001800190b0b", "r", 0),
];

fn run_row(
    selection: Selection<'_>,
    demo: &Demo<'_>,
    row: &str,
    digits: &str,
    letters: &str,
    turns: u64,
) -> io::Result<()> {
    let alloc = selection.alloc();
    let source = bytes_of(alloc, digits)?;
    let mut execution = Execution {
        alloc,
        demo,
        source: &source,
        letters,
        turns,
    };
    selection.run("execute", row, &mut execution)
}

/// Runs the scenarios of `execute` that are selected.
pub(crate) fn run(selection: Selection<'_>, demo: &Demo<'_>) -> io::Result<()> {
    for (row, digits, letters, turns) in &ROWS {
        run_row(selection, demo, row, digits, letters, *turns)?;
    }
    Ok(())
}
