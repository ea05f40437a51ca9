//! The functions that the words of a program ask for.

use crate::demangling::demangle;
use crate::names::{Found, FunctionNames};
use regex::{Matcher, Regex};
use std::alloc::{AllocError, Global};
use std::rt::Files;
use tool_files::read_file;
use tool_words::{Asked, Charging, FileFault, ProgramFailure, Task, UsageError};
use walrus_ir::{FunctionId, IdHashSet};
use wasm_module::ParsedModule;

/// Texts of which one is in the demangled name of each function of Rust that panics.
const PANICKING: [&str; 5] = [
    "core::panicking::",
    "std::panicking::",
    "rust_begin_unwind",
    "rust_panic",
    "rust_start_panic",
];

/// Texts of which one is in the demangled name of each function of Rust that formats text.
const FORMATTING: [&str; 3] = ["core::fmt::", "alloc::fmt::", "std::fmt::"];

/// Checks that standard input isn't read again for one of these. `is_read`: whether it is read, and then whether it is read up to here.
fn check_names(all: &[Asked<'_>], is_read: &mut bool) -> Result<(), UsageError<'static>> {
    for asked in all {
        if matches!(asked, Asked::NamesFrom("-")) {
            if *is_read {
                return Err(UsageError::SameFile("-", "-"));
            }
            *is_read = true;
        }
    }
    Ok(())
}

/// Checks that standard input is read once: not as two of the module, a source map, a table of costs
/// and a file of names.
///
/// # Errors
///
/// Wrong use, where it is read twice.
pub fn check_input<'w>(task: &Task<'w>) -> Result<(), UsageError<'w>> {
    let source_map = task.source_map.map(|paths| paths.input);
    let mut is_read = task.input == "-" || source_map == Some("-");
    if let Some(
        Charging {
            costs: Some("-"),
            ..
        },
    ) = task.charging
    {
        if is_read {
            return Err(UsageError::SameFile("-", "-"));
        }
        is_read = true;
    }
    check_names(&task.functions, &mut is_read)?;
    check_names(&task.kept, &mut is_read)
}

/// The function with a body that a word names: by its index, or by its name.
fn function_of<'w>(
    parsed: &ParsedModule<'_>,
    names: &FunctionNames<'_>,
    word: &'w str,
) -> Result<FunctionId, UsageError<'w>> {
    let index = match word.parse::<usize>() {
        Ok(index) => index,
        Err(_) => match names.find(word) {
            Found::None => return Err(UsageError::NoFunction(word)),
            Found::One(index) => index,
            Found::Several(first, second) => {
                return Err(UsageError::Ambiguous(word, first, second));
            }
        },
    };
    if parsed.has_body(index) {
        return Ok(FunctionId::new(index));
    }
    if parsed.is_imported(index) {
        return Err(UsageError::Imported(word));
    }
    Err(UsageError::NoFunction(word))
}

/// Adds the function that a word names.
fn add_function<'w>(
    parsed: &ParsedModule<'_>,
    names: &FunctionNames<'_>,
    word: &'w str,
    functions: &mut IdHashSet<FunctionId>,
) -> Result<(), ProgramFailure<'w>> {
    match function_of(parsed, names, word) {
        Ok(function) => {
            functions.insert(function)?;
            Ok(())
        }
        Err(fault) => Err(ProgramFailure::UsageError(fault)),
    }
}

/// The fault of a file of names, for what is wrong with the name in this line.
fn line_fault<'w>(
    alloc: Global,
    path: &'w str,
    number: usize,
    fault: UsageError<'_>,
) -> Result<FileFault<'w>, AllocError> {
    let fault = format!(in alloc; "line {number}: {fault}")?;
    Ok(FileFault {
        path,
        at: None,
        item: None,
        fault,
    })
}

/// What is wrong with a file of names.
fn line_failure<'w>(
    alloc: Global,
    path: &'w str,
    number: usize,
    fault: UsageError<'_>,
) -> ProgramFailure<'w> {
    match line_fault(alloc, path, number, fault) {
        Ok(fault) => ProgramFailure::Refused(fault),
        Err(_) => ProgramFailure::Memory,
    }
}

/// Adds the functions that the lines of a file name.
fn add_lines<'w>(
    alloc: Global,
    parsed: &ParsedModule<'_>,
    names: &FunctionNames<'_>,
    path: &'w str,
    text: &[u8],
    functions: &mut IdHashSet<FunctionId>,
) -> Result<(), ProgramFailure<'w>> {
    let mut number = 0usize;
    for line in text.split(|byte| *byte == b'\n') {
        number = number.saturating_add(1);
        let Ok(line) = str::from_utf8(line) else {
            return Err(line_failure(alloc, path, number, UsageError::NameNotUtf8));
        };
        let line = line.trim_end_matches('\r');
        if !line.is_empty() {
            match function_of(parsed, names, line) {
                Ok(function) => functions.insert(function)?,
                Err(fault) => return Err(line_failure(alloc, path, number, fault)),
            };
        }
    }
    Ok(())
}

/// Adds the functions that a file names.
fn add_named_in<'w, R: Files + Input + AllocGlobal>(
    rt: &R,
    parsed: &ParsedModule<'_>,
    names: &FunctionNames<'_>,
    path: &'w str,
    functions: &mut IdHashSet<FunctionId>,
) -> Result<(), ProgramFailure<'w>> {
    match read_file(rt, path) {
        Ok(text) => add_lines(rt.alloc(), parsed, names, path, &text, functions),
        Err(failure) => Err(failure),
    }
}

/// Names that are looked for.
trait Wanted {
    /// Whether a name is one of them.
    fn accept(&mut self, name: &str) -> bool;
}

/// The names that contain one of these texts.
#[derive(Clone, Copy)]
struct Containing(&'static [&'static str]);

impl Wanted for Containing {
    fn accept(&mut self, name: &str) -> bool {
        self.0.iter().any(|text| name.contains(*text))
    }
}

/// The names that contain a match of a regular expression.
impl Wanted for Matcher<'_> {
    fn accept(&mut self, name: &str) -> bool {
        self.is_match(name)
    }
}

/// Adds each function with a body whose name, or its demangled name, is accepted, and returns whether
/// there is one.
fn add_accepted<W: Wanted>(
    parsed: &ParsedModule<'_>,
    names: &FunctionNames<'_>,
    demangled: &mut String,
    wanted: &mut W,
    functions: &mut IdHashSet<FunctionId>,
) -> Result<bool, AllocError> {
    let mut is_found = false;
    for body in parsed.bodies() {
        let Some(name) = names.name_of(body.func) else {
            continue;
        };
        if wanted.accept(name)
            || (demangle(name, demangled)? && wanted.accept(demangled.as_str()))
        {
            functions.insert(FunctionId::new(body.func))?;
            is_found = true;
        }
    }
    Ok(is_found)
}

/// Adds each function with a body in whose name one of these texts is.
fn add_with_texts(
    alloc: Global,
    parsed: &ParsedModule<'_>,
    names: &FunctionNames<'_>,
    texts: &'static [&'static str],
    functions: &mut IdHashSet<FunctionId>,
) -> Result<(), AllocError> {
    let mut demangled = String::new(alloc);
    let mut wanted = Containing(texts);
    add_accepted(parsed, names, &mut demangled, &mut wanted, functions)?;
    Ok(())
}

/// Adds each function with a body whose name contains a match.
fn add_matches(
    alloc: Global,
    parsed: &ParsedModule<'_>,
    names: &FunctionNames<'_>,
    matcher: &mut Matcher<'_>,
    functions: &mut IdHashSet<FunctionId>,
) -> Result<bool, AllocError> {
    let mut demangled = String::new(alloc);
    add_accepted(parsed, names, &mut demangled, matcher, functions)
}

/// Adds each function with a body whose name contains a match of a regular expression, and returns
/// whether there is one.
fn add_matches_of(
    alloc: Global,
    parsed: &ParsedModule<'_>,
    names: &FunctionNames<'_>,
    regex: &Regex,
    functions: &mut IdHashSet<FunctionId>,
) -> Result<bool, AllocError> {
    let mut matcher = regex.matcher(alloc)?;
    add_matches(alloc, parsed, names, &mut matcher, functions)
}

/// Adds each function with a body whose name contains a match of a regular expression, of which there
/// has to be one.
fn add_pattern<'w>(
    alloc: Global,
    parsed: &ParsedModule<'_>,
    names: &FunctionNames<'_>,
    text: &'w str,
    functions: &mut IdHashSet<FunctionId>,
) -> Result<(), ProgramFailure<'w>> {
    let regex = match Regex::new(alloc, text) {
        Ok(regex) => regex,
        Err(regex::Error::OutOfMemory) => return Err(ProgramFailure::Memory),
        Err(error) => return Err(ProgramFailure::UsageError(UsageError::BadPattern(text, error))),
    };
    match add_matches_of(alloc, parsed, names, &regex, functions) {
        Ok(true) => Ok(()),
        Ok(false) => Err(ProgramFailure::UsageError(UsageError::NoMatch(text))),
        Err(_) => Err(ProgramFailure::Memory),
    }
}

/// Adds functions that are asked for.
fn add_asked<'w, R: Files + Input + AllocGlobal>(
    rt: &R,
    parsed: &ParsedModule<'_>,
    names: &FunctionNames<'_>,
    asked: Asked<'w>,
    functions: &mut IdHashSet<FunctionId>,
) -> Result<(), ProgramFailure<'w>> {
    match asked {
        Asked::Function(word) => add_function(parsed, names, word, functions),
        Asked::Pattern(text) => add_pattern(rt.alloc(), parsed, names, text, functions),
        Asked::NamesFrom(path) => add_named_in(rt, parsed, names, path, functions),
        Asked::RustPanickingCode => {
            add_with_texts(rt.alloc(), parsed, names, &PANICKING, functions)?;
            Ok(())
        }
        Asked::RustFmtCode => {
            add_with_texts(rt.alloc(), parsed, names, &FORMATTING, functions)?;
            Ok(())
        }
    }
}

/// Adds all functions that are asked for.
fn add_all<'w, R: Files + Input + AllocGlobal>(
    rt: &R,
    parsed: &ParsedModule<'_>,
    names: &FunctionNames<'_>,
    all: &[Asked<'w>],
    functions: &mut IdHashSet<FunctionId>,
) -> Result<(), ProgramFailure<'w>> {
    for asked in all {
        match add_asked(rt, parsed, names, *asked, functions) {
            Ok(()) => {}
            Err(failure) => return Err(failure),
        }
    }
    Ok(())
}

/// Adds the functions that are asked for to none.
fn fill_functions<'w, R: Files + Input + AllocGlobal>(
    rt: &R,
    parsed: &ParsedModule<'_>,
    all: &[Asked<'w>],
    functions: &mut IdHashSet<FunctionId>,
) -> Result<(), ProgramFailure<'w>> {
    if all.is_empty() {
        return Ok(());
    }
    let names = FunctionNames::read(rt.alloc(), parsed)?;
    add_all(rt, parsed, &names, all, functions)
}

/// The functions that are asked for, each of which has a body.
///
/// # Errors
///
/// Wrong use where a word names no function with a body, or a regular expression is wrong or matches
/// none; a file of names that can't be read, or is refused; or that memory ran out.
pub fn functions_of<'w, R: Files + Input + AllocGlobal>(
    rt: &R,
    parsed: &ParsedModule<'_>,
    all: &[Asked<'w>],
) -> Result<IdHashSet<FunctionId>, ProgramFailure<'w>> {
    let mut functions = IdHashSet::new(rt.alloc());
    match fill_functions(rt, parsed, all, &mut functions) {
        Ok(()) => Ok(functions),
        Err(failure) => Err(failure),
    }
}
