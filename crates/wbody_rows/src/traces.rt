//! Runs of a body and of the bytes written for it.

use crate::fault::Fault;
use std::alloc::{AllocError, Global};
use std::collections::BTreeSet;
use walrus_ir::TagId;
use walrus_run::{Ending, Event, NamedBody, Outcome, Run, execute};

/// The number of outcomes to choose from.
const CHOICES: usize = 8;

/// The greatest number of outcomes that a run is given.
const STEPS: usize = 10;

/// The number of lists of outcomes that are tried for each number of turns.
const SEEDS: usize = 3;

/// The numbers of turns.
const TURNS: [u64; 2] = [0, 2];

/// The first `count` tags of the module.
fn tags(alloc: Global, count: usize) -> Result<BTreeSet<TagId>, AllocError> {
    let mut tags = BTreeSet::new(alloc);
    for tag in 0..count {
        tags.insert(TagId::new(tag))?;
    }
    Ok(tags)
}

/// The outcome with this number.
fn outcome(alloc: Global, number: usize) -> Result<Outcome, AllocError> {
    let outcome = match number % CHOICES {
        0 => Outcome::Way(true),
        1 => Outcome::Entry(0),
        2 => Outcome::Raise(tags(alloc, 1)?),
        3 => Outcome::Go,
        4 => Outcome::Way(false),
        5 => Outcome::Entry(1),
        6 => Outcome::Raise(tags(alloc, 2)?),
        _ => Outcome::Trap,
    };
    Ok(outcome)
}

/// Adds the first outcome, starting at the one with this number, that the next operator can have.
/// Returns whether the run then needs another one.
fn add_outcome(
    alloc: Global,
    source: &NamedBody,
    outcomes: &mut Vec<Outcome>,
    turns: u64,
    first: usize,
) -> Result<bool, AllocError> {
    for number in 0..CHOICES {
        outcomes.push(outcome(alloc, first.wrapping_add(number))?)?;
        match execute(source, outcomes, turns)?.ending {
            Ending::Mismatch => {
                outcomes.pop();
            }
            ending => return Ok(matches!(ending, Ending::OutcomesOut)),
        }
    }
    Ok(false)
}

/// Outcomes that a body takes in this many turns. Another seed usually gives other outcomes.
fn outcomes(
    alloc: Global,
    source: &NamedBody,
    turns: u64,
    seed: usize,
) -> Result<Vec<Outcome>, AllocError> {
    let mut outcomes = Vec::new(alloc);
    let run = execute(source, &outcomes, turns)?;
    let mut continues = matches!(run.ending, Ending::OutcomesOut);
    for step in 0..STEPS {
        if !continues {
            break;
        }
        let first = seed.wrapping_mul(3).wrapping_add(step);
        continues = add_outcome(alloc, source, &mut outcomes, turns, first)?;
    }
    Ok(outcomes)
}

/// Whether both bodies have an operator at these positions, and it is the same operator.
fn is_same_operator(source: &NamedBody, i: usize, text: &NamedBody, j: usize) -> bool {
    match (source.ops().get(i), text.ops().get(j)) {
        (Some(operator), Some(other)) => operator == other,
        _ => false,
    }
}

/// Whether an event of one body and an event of another show the same.
fn is_same_event(source: &NamedBody, event: &Event, text: &NamedBody, other: &Event) -> bool {
    match (event, other) {
        (Event::Op(i), Event::Op(j)) => is_same_operator(source, *i, text, *j),
        (
            Event::Taken { i, clause, tag },
            Event::Taken {
                i: j,
                clause: other_clause,
                tag: other_tag,
            },
        ) => is_same_operator(source, *i, text, *j) && clause == other_clause && tag == other_tag,
        _ => false,
    }
}

fn is_same_ending(ending: &Ending, other: &Ending) -> bool {
    match (ending, other) {
        (Ending::Escaped(tags), Ending::Escaped(others)) => tags == others,
        (Ending::Returned, Ending::Returned)
        | (Ending::TailCalled, Ending::TailCalled)
        | (Ending::Trapped, Ending::Trapped)
        | (Ending::OutcomesOut, Ending::OutcomesOut)
        | (Ending::TurnsOut, Ending::TurnsOut)
        | (Ending::Mismatch, Ending::Mismatch) => true,
        _ => false,
    }
}

/// Compares a run of one body with a run of another.
fn compare(source: &NamedBody, run: &Run, text: &NamedBody, other: &Run) -> Result<(), Fault> {
    if run.events.len() != other.events.len() {
        return Err(Fault::OtherEvents);
    }
    for (event, other) in run.events.iter().zip(other.events.iter()) {
        if !is_same_event(source, event, text, other) {
            return Err(Fault::OtherEvents);
        }
    }
    if !is_same_ending(&run.ending, &other.ending) {
        return Err(Fault::OtherEnding);
    }
    Ok(())
}

/// Runs a body and the bytes written for it, for several lists of outcomes and numbers of turns,
/// and checks that they execute the same operators and end in the same way.
pub(crate) fn compare_runs(
    alloc: Global,
    source: &NamedBody,
    text: &NamedBody,
) -> Result<(), Fault> {
    for turns in TURNS {
        for seed in 0..SEEDS {
            let outcomes = outcomes(alloc, source, turns, seed)?;
            let run = execute(source, &outcomes, turns)?;
            compare(source, &run, text, &execute(text, &outcomes, turns)?)?;
            // A body that takes no outcome gets the same list from every seed.
            if outcomes.is_empty() {
                break;
            }
        }
    }
    Ok(())
}
