//! Bodies that are rewritten, and read and rewritten again with old indices that undo the new ones.

use crate::bodies::{Demo, arguments, body, bytes_of};
use crate::body_calls::{push_function, push_rewrite_error, rewrite_into};
use crate::maps::push_old;
use crate::scenario::{Scenario, Selection};
use crate::text::{Text, push_bytes};
use std::alloc::{AllocError, Global};
use std::io;
use walrus_body::{FunctionBody, IndexError, IndicesToIds, Space};
use walrus_ir::{FunctionId, InstrLocId, LocalId, WalkError};
use walrus_run::RewriteError;

/// A body, and the module with its old indices and with those that undo the new ones.
#[derive(Clone, Copy)]
struct Again<'a> {
    alloc: Global,
    first: &'a Demo<'a>,
    second: &'a Demo<'a>,
    source: &'a [u8],
}

/// The place of the first operator among the bytes of a body.
fn first_place(pairs: &[(InstrLocId, usize)]) -> usize {
    match pairs.first() {
        Some((_, place)) => *place,
        None => 0,
    }
}

/// Rewrites a body into these bytes and pairs.
fn rewrite_into_pairs(
    again: &Again<'_>,
    bytes: &mut Vec<u8>,
    pairs: &mut Vec<(InstrLocId, usize)>,
) -> Result<(), RewriteError> {
    let args = match arguments(again.alloc) {
        Ok(args) => args,
        Err(_) => return Err(RewriteError::Walk(WalkError::Memory)),
    };
    let source = body(again.source, false);
    rewrite_into(again.first, args, source, false, bytes, Some(pairs))?;
    Ok(())
}

/// Rewrites a body into these bytes. Returns the place of the first operator.
fn rewrite_first(again: &Again<'_>, bytes: &mut Vec<u8>) -> Result<usize, RewriteError> {
    let mut pairs = Vec::new(again.alloc);
    match rewrite_into_pairs(again, bytes, &mut pairs) {
        Ok(()) => Ok(first_place(&pairs)),
        Err(error) => Err(error),
    }
}

/// Rewrites the body with these bytes into others, and appends its function.
fn rewrite_second(
    text: &mut Text,
    again: &Again<'_>,
    bytes: &[u8],
    ops: usize,
    rewritten: &mut Vec<u8>,
) -> Result<(), AllocError> {
    let args = arguments(again.alloc)?;
    let read = FunctionBody {
        bytes,
        start: 100,
        ops: ops.min(bytes.len()),
    };
    match rewrite_into(again.second, args, read, false, rewritten, None) {
        Ok(function) => push_function(text, &function),
        Err(error) => return push_rewrite_error(text, error),
    }
    Ok(())
}

/// Appends the function that has these bytes, and what they are rewritten into.
fn push_second(
    text: &mut Text,
    again: &Again<'_>,
    bytes: &[u8],
    ops: usize,
) -> Result<(), AllocError> {
    let mut rewritten = Vec::new(again.alloc);
    rewrite_second(text, again, bytes, ops, &mut rewritten)?;
    push_bytes(text, &rewritten);
    Ok(())
}

impl Scenario for Again<'_> {
    fn call(&mut self, returned: &mut Text) -> Result<(), AllocError> {
        let mut bytes = Vec::new(self.alloc);
        match rewrite_first(self, &mut bytes) {
            Ok(ops) => {
                push_bytes(returned, &bytes);
                push_second(returned, self, &bytes, ops)
            }
            Err(error) => push_rewrite_error(returned, error),
        }
    }
}

/// The ids of the new indices, in their order; of locals that is the order of a body that uses the
/// locals 1 and 3.
const UNDONE: [(Space, usize); 7] = [
    (Space::Types, 0),
    (Space::Types, 2),
    (Space::Types, 1),
    (Space::Types, 3),
    (Space::Funcs, 1),
    (Space::Funcs, 0),
    (Space::Globals, 0),
];

const LOCALS: [usize; 3] = [0, 1, 3];

fn push_undone(indices: &mut IndicesToIds) -> Result<(), IndexError> {
    for (space, id) in &UNDONE {
        push_old(indices, *space, *id)?;
    }
    for local in &LOCALS {
        indices.push_local(FunctionId::new(0), LocalId::new(*local))?;
    }
    Ok(())
}

/// The rows: a body that uses the locals 1 and 3 in this order.
const ROWS: [(&str, &str); 2] = [
    ("functions", "0020011a20031ad2001ad2011a10000b"),
    ("types", "0020011a20031ad0011ad0021a02010b0b"),
];

fn run_row(
    selection: Selection<'_>,
    first: &Demo<'_>,
    second: &Demo<'_>,
    row: &str,
    digits: &str,
) -> io::Result<()> {
    let alloc = selection.alloc();
    let source = bytes_of(alloc, digits)?;
    let mut again = Again {
        alloc,
        first,
        second,
        source: &source,
    };
    selection.run("rewrite_body-twice", row, &mut again)
}

fn run_with(selection: Selection<'_>, demo: &Demo<'_>, indices: &IndicesToIds) -> io::Result<()> {
    let second = Demo::new(demo.module, indices, demo.numbers);
    for (row, digits) in &ROWS {
        run_row(selection, demo, &second, row, digits)?;
    }
    Ok(())
}

/// Runs these scenarios that are selected.
pub(crate) fn run(selection: Selection<'_>, demo: &Demo<'_>) -> io::Result<()> {
    let alloc = selection.alloc();
    let mut indices = Box::new(alloc, IndicesToIds::new(alloc))?;
    match push_undone(&mut indices) {
        Ok(()) => run_with(selection, demo, &indices),
        Err(_) => Err(io::Error::from(AllocError)),
    }
}
