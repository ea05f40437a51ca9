//! Tables of modules, with what is checked about each and the expected result, as text. A module is
//! given as its preamble and its sections in hexadecimal, with spaces between them.

use crate::additions::push_has_globals;
use crate::items::{push_custom_section, push_segments};
use crate::making::Step;
use crate::omissions::{Omission, push_omitted};
use crate::texts::{bytes_of, fault_text};
use crate::views::{
    push_bodies, push_has_bodies, push_references, push_storage, push_viewed, push_visited,
};
use crate::whole_modules::{Change, Output, push_changed};
use std::alloc::Global;
use std::process::Abort;
use std::test::Fail;
use wasm_module::{ModuleError, ParsedModule};

/// What is checked about a module.
#[derive(Clone, Copy)]
pub(crate) enum Query<'i> {
    /// Its exports, imports, functions, numbers of items and custom sections.
    Viewed,
    /// Its start function, and where the bodies of its first four functions are.
    Bodies,
    /// Which of its first four functions have a body.
    HasBodies,
    /// Its tables, memories, tags and globals.
    Storage,
    /// Its data segments.
    Segments,
    /// The contents of the custom section with this name, and the section as it is written.
    Custom(&'i str),
    /// The functions that it names outside of bodies.
    References,
    /// The functions that are visited, up to the one with this index, which is refused.
    Visited(usize),
    /// What is written without these custom sections, and whether code has changed and moved.
    Omitted(&'i [Omission]),
    /// Whether so many globals are added to a module without any.
    HasGlobals(i32),
    /// What is written after these steps and this change.
    Written(&'i [Step<'i>], Change, Output<'i>),
}

// Appends the result for a module that was read.
fn push_result(
    text: &mut String,
    query: Query<'_>,
    parsed: &mut ParsedModule<'_>,
) -> Result<(), ModuleError> {
    match query {
        Query::Viewed => push_viewed(text, parsed),
        Query::Bodies => push_bodies(text, parsed),
        Query::HasBodies => push_has_bodies(text, parsed),
        Query::Storage => push_storage(text, parsed),
        Query::Segments => push_segments(text, parsed),
        Query::Custom(name) => push_custom_section(text, parsed, name),
        Query::References => push_references(text, parsed),
        Query::Visited(last) => push_visited(text, parsed, last),
        Query::Omitted(omissions) => push_omitted(text, parsed, omissions),
        Query::HasGlobals(count) => push_has_globals(text, parsed, count),
        Query::Written(steps, change, output) => {
            push_changed(text, parsed, steps, change, output)
        }
    }
}

/// Appends the result for the module with these bytes.
pub(crate) fn push_found(
    text: &mut String,
    query: Query<'_>,
    bytes: &[u8],
) -> Result<(), ModuleError> {
    let mut parsed = ParsedModule::read_in_box(*text.allocator(), bytes)?;
    push_result(text, query, &mut parsed)
}

/// The result for the module with these bytes, or its first fault.
pub(crate) fn found(alloc: Global, query: Query<'_>, bytes: &[u8]) -> Result<String, Fail> {
    let mut text = String::new(alloc);
    match push_found(&mut text, query, bytes) {
        Ok(()) => Ok(text),
        Err(error) => fault_text(alloc, error),
    }
}

fn found_of(alloc: Global, query: Query<'_>, module: &str) -> Result<String, Fail> {
    let bytes = bytes_of(alloc, module)?;
    found(alloc, query, &bytes)
}

// Whether the result is the expected one: of a module, without the spaces between its sections.
fn is_expected(found: &str, expected: &str) -> bool {
    if !expected.starts_with("0061736d") {
        return found == expected;
    }
    let mut left = found.as_bytes();
    for part in expected.split(' ') {
        match left.strip_prefix(part.as_bytes()) {
            Some(rest) => left = rest,
            None => return false,
        }
    }
    left.is_empty()
}

/// Checks modules, each of which comes before its expected result.
pub(crate) fn check(
    rt: &impl Abort,
    alloc: Global,
    query: Query<'_>,
    cases: &[(&str, &str)],
) -> Result<(), Fail> {
    for (module, expected) in cases {
        let found = found_of(alloc, query, module)?;
        let is_expected = is_expected(&found, expected);
        assert!(rt; is_expected, "{found} is not {expected}, of {module}");
    }
    Ok(())
}
