//! The functions of a module as lines.

use crate::names::FunctionNames;
use module_removal::LeftItems;
use std::io::{BufWriter, Write};
use std::{fmt, io};
use tool_words::{Attempt, Escaped, ProgramFailure};
use wasm_module::ParsedModule;

/// A function as a line: its index, the size of its body in bytes, and its name if it has one.
#[derive(Clone, Copy)]
struct Listed<'n> {
    index: usize,
    size: usize,
    name: Option<&'n str>,
}

impl fmt::Display for Listed<'_> {
    fn fmt<W: fmt::Write>(&self, f: &mut fmt::Formatter<W>) -> fmt::Result {
        let Listed { index, size, name } = *self;
        match name {
            Some(name) => write!(f, "{index} {size} {}", Escaped(name)),
            None => write!(f, "{index} {size}"),
        }
    }
}

/// Writes a line for each function with a body that isn't left.
fn write_lines<W: Write>(
    parsed: &ParsedModule<'_>,
    names: &FunctionNames<'_>,
    left: Option<&LeftItems>,
    out: &mut W,
) -> io::Result<()> {
    for body in parsed.bodies() {
        if left.is_some_and(|left| left.has_function(body.func)) {
            continue;
        }
        let line = Listed {
            index: body.func,
            size: body.bytes().len(),
            name: names.name_of(body.func),
        };
        writeln!(out, "{line}")?;
    }
    out.flush()
}

/// Writes a line for each function with a body that isn't left, buffered.
fn print_lines<R: Print + AllocGlobal>(
    rt: &R,
    parsed: &ParsedModule<'_>,
    left: Option<&LeftItems>,
    names: &FunctionNames<'_>,
) -> io::Result<()> {
    let mut out = BufWriter::new(rt.alloc(), io::writer(rt))?;
    write_lines(parsed, names, left, &mut out)
}

/// Prints a line for each function with a body that isn't left.
fn list<'w, R: Print + AllocGlobal>(
    rt: &R,
    parsed: &ParsedModule<'_>,
    left: Option<&LeftItems>,
) -> Result<(), ProgramFailure<'w>> {
    let names = FunctionNames::read(rt.alloc(), parsed)?;
    match print_lines(rt, parsed, left, &names) {
        Ok(()) => Ok(()),
        Err(error) => Err(ProgramFailure::file("-", Attempt::Write, error)),
    }
}

/// Prints a line for each function with a body.
///
/// # Errors
///
/// Where they can't be printed, or memory runs out.
pub fn list_functions<'w, R: Print + AllocGlobal>(
    rt: &R,
    parsed: &ParsedModule<'_>,
) -> Result<(), ProgramFailure<'w>> {
    list(rt, parsed, None)
}

/// Prints a line for each function with a body that isn't left.
///
/// # Errors
///
/// Those of `list_functions`.
pub fn list_removed<'w, R: Print + AllocGlobal>(
    rt: &R,
    parsed: &ParsedModule<'_>,
    left: &LeftItems,
) -> Result<(), ProgramFailure<'w>> {
    list(rt, parsed, Some(left))
}
