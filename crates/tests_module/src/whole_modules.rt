//! How a module is written, and what is told of the module that is written.
use crate::importing::CallFirst;
use crate::making::{Step, make_all};
use crate::new_locals::NewLocals;
use crate::numbering::Numbering;
use crate::texts::{push_bytes, push_map, push_written};
use std::alloc::Global;
use walrus_ir::FunctionId;
use wasm_module::{BodyWriter, Changes, ModuleError, ParsedModule, Rewriting, RewrittenModule};

/// How a module is written.
#[derive(Clone, Copy)]
pub(crate) enum Change {
    /// It is rewritten, and the changes are forgotten.
    Rewrite,
    /// It is rewritten with the changes.
    With,
    /// Each function of the source calls that of the last step first.
    CallLast,
    /// Each function of the source calls the one with this id first, with 7, and drops its result.
    CallWithSeven(usize),
    /// Each function begins with its number.
    Number,
    /// Each function gets two locals more.
    AddLocals,
}

/// What is told of the module that is written.
#[derive(Clone, Copy)]
pub(crate) enum Output<'i> {
    /// Its bytes, in hexadecimal.
    Module,
    /// Its location map.
    Map,
    /// Its bytes if a function is imported after it is rewritten.
    Late,
    /// The bytes of this other module if it is written with its bodies.
    Other(&'i str),
}

// Imports a function, and then writes a module.
fn push_late<B: BodyWriter>(
    text: &mut String,
    parsed: &mut ParsedModule<'_>,
    rewritten: &RewrittenModule<'_, B>,
) -> Result<(), ModuleError> {
    let alloc = *text.allocator();
    let mut changes = Changes::new(alloc);
    match make_all(alloc, parsed, &mut changes, &[Step::Import(0)]) {
        Ok(_) => push_written(text, parsed, rewritten),
        Err(error) => Err(error),
    }
}

// Writes the module with these bytes with the bodies of another one.
fn push_other_bytes<B: BodyWriter>(
    text: &mut String,
    bytes: &[u8],
    rewritten: &RewrittenModule<'_, B>,
) -> Result<(), ModuleError> {
    let mut parsed = ParsedModule::read_in_box(*text.allocator(), bytes)?;
    push_written(text, &mut parsed, rewritten)
}

// The same of a module as text, which is in hexadecimal.
fn push_other<B: BodyWriter>(
    text: &mut String,
    module: &str,
    rewritten: &RewrittenModule<'_, B>,
) -> Result<(), ModuleError> {
    let mut bytes = Vec::new(*text.allocator());
    match push_bytes(&mut bytes, module) {
        Ok(()) => push_other_bytes(text, &bytes, rewritten),
        Err(error) => Ok(write!(text, "{error:?}")?),
    }
}

fn push_output<B: BodyWriter>(
    text: &mut String,
    parsed: &mut ParsedModule<'_>,
    rewritten: &RewrittenModule<'_, B>,
    output: Output<'_>,
) -> Result<(), ModuleError> {
    match output {
        Output::Module => push_written(text, parsed, rewritten),
        Output::Map => push_map(text, parsed, rewritten),
        Output::Late => push_late(text, parsed, rewritten),
        Output::Other(module) => push_other(text, module, rewritten),
    }
}

// Appends what is told of the module that is written, if it is rewritten.
fn push_made<B: BodyWriter + Drop>(
    text: &mut String,
    parsed: &mut ParsedModule<'_>,
    made: Result<RewrittenModule<'_, B>, ModuleError>,
    output: Output<'_>,
) -> Result<(), ModuleError> {
    match made {
        Ok(rewritten) => push_output(text, parsed, &rewritten, output),
        Err(error) => Err(error),
    }
}

// Appends what is told of the module that is written with these changes, each function of whose
// source calls one first.
fn push_calling(
    text: &mut String,
    parsed: &mut ParsedModule<'_>,
    mut first: CallFirst,
    changes: Changes,
    output: Output<'_>,
) -> Result<(), ModuleError> {
    let made = parsed.change_all(&mut first, changes);
    push_made(text, parsed, made, output)
}

// Appends what is told of the module that is written with these changes.
fn push_with(
    text: &mut String,
    parsed: &mut ParsedModule<'_>,
    change: Change,
    changes: Changes,
    last: FunctionId,
    output: Output<'_>,
) -> Result<(), ModuleError> {
    match change {
        Change::Rewrite => {
            let made = parsed.rewrite_all();
            push_made(text, parsed, made, output)
        }
        Change::With => {
            let made = parsed.rewrite_with(Rewriting, changes);
            push_made(text, parsed, made, output)
        }
        Change::Number => {
            let made = parsed.change_all(&mut Numbering(0), changes);
            push_made(text, parsed, made, output)
        }
        Change::AddLocals => {
            let made = parsed.change_all(&mut NewLocals, changes);
            push_made(text, parsed, made, output)
        }
        Change::CallLast => {
            let (func, argument) = (last, None);
            push_calling(text, parsed, CallFirst { func, argument }, changes, output)
        }
        Change::CallWithSeven(id) => {
            let (func, argument) = (FunctionId::new(id), Some(7));
            push_calling(text, parsed, CallFirst { func, argument }, changes, output)
        }
    }
}

/// Appends what is told of the module that is written after these steps.
pub(crate) fn push_changed(
    text: &mut String,
    parsed: &mut ParsedModule<'_>,
    steps: &[Step<'_>],
    change: Change,
    output: Output<'_>,
) -> Result<(), ModuleError> {
    let alloc = *text.allocator();
    let mut changes = Changes::new(alloc);
    match make_all(alloc, parsed, &mut changes, steps) {
        Ok(last) => push_with(text, parsed, change, changes, last, output),
        Err(error) => Err(error),
    }
}
