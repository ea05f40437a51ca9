//! The program `growths`: makes calls that take memory, each between a line `try` and a line that
//! says what it returned, and prints before and after them what it is made on. So a script that
//! refuses memory between these two lines sees what the call leaves. With the names of a call and
//! of a row it runs one scenario, else all.
#![tactic(auto)]

mod bodies;
mod body_calls;
mod by_hand;
mod bytes;
mod contexts;
mod control;
mod entries;
mod function_calls;
mod insertions;
mod items;
mod maps;
mod no_memory;
mod read_back;
mod runs;
mod scenario;
mod text;
mod walks;

use crate::scenario::Selection;
use std::{env, io};

/// Appends the program's words, without its own name.
fn push_words(rt: &HostRuntime, words: &mut Vec<String>) -> io::Result<()> {
    for word in env::args(rt)?.skip(1) {
        words.push(word)?;
    }
    Ok(())
}

/// Runs the scenarios that are selected.
fn run(selection: Selection<'_>) -> io::Result<()> {
    control::run(selection)?;
    items::run(selection)?;
    maps::run(selection)?;
    bytes::run(selection)?;
    bodies::run(selection)
}

fn main(rt: HostRuntime) -> io::Result<()> {
    let mut words = Vec::new(rt.alloc());
    match push_words(&rt, &mut words) {
        Ok(()) => run(Selection::new(&rt, &words)),
        Err(error) => Err(error),
    }
}
