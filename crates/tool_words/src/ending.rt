//! How a program ends: its errors, and its status.

ghost use Rattle.std.specs.Prelude.{◌≡◌, IfOk, IsOk, IsErr};
ghost use Rattle.std.specs.Process.{exit_status};
ghost use Rattle.tool_words.specs.Endings.{status_of, IsMemoryOr};

use crate::escaped::Escaped;
use crate::not_a_module::NotAModule;
use crate::usage_error::UsageError;
use module_validator::FaultText;
use source_map::{SourceMapError, SourceMapFault};
use std::alloc::{AllocError, AllocFailed, Global};
use std::env::FillError;
use std::process::ExitCode;
use std::rt::Env;
use std::{env, fmt, io};
use wasm_sections::{ModuleError, ModuleFault};

/// No argument is longer on Linux, in bytes.
const LONGEST_WORD: usize = 1 << 17;

/// What was tried with a file.
#[derive(Clone, Copy)]
pub enum Attempt {
    /// To open it.
    Open,
    /// To read from it.
    Read,
    /// To create it.
    Create,
    /// To write to it.
    Write,
    /// To put what was written in its place.
    Rename,
}

impl fmt::Display for Attempt {
    fn fmt<W: fmt::Write>(&self, f: &mut fmt::Formatter<W>) -> fmt::Result {
        f.write_str(match self {
            Attempt::Open => "can't be opened",
            Attempt::Read => "can't be read",
            Attempt::Create => "can't be created",
            Attempt::Write => "can't be written",
            Attempt::Rename => "can't be replaced",
        })
    }
}

/// What a fault is in.
#[derive(Drop)]
pub enum Item {
    /// A function, with its index, and its name if it has one.
    Function(usize, Option<String>),
    /// An export, with its name.
    Export(String),
}

impl fmt::Display for Item {
    fn fmt<W: fmt::Write>(&self, f: &mut fmt::Formatter<W>) -> fmt::Result {
        match self {
            Item::Function(index, None) => write!(f, "function {index}"),
            Item::Function(index, Some(name)) => {
                let name = Escaped(name.as_str());
                write!(f, "function {index} \"{name}\"")
            }
            Item::Export(name) => {
                let name = Escaped(name.as_str());
                write!(f, "export \"{name}\"")
            }
        }
    }
}

/// A path, as it is printed: without control characters, and by the stream's name for `-`.
#[derive(Clone, Copy)]
struct Shown<'w>(&'w str, &'static str);

impl fmt::Display for Shown<'_> {
    fn fmt<W: fmt::Write>(&self, f: &mut fmt::Formatter<W>) -> fmt::Result {
        match self.0 {
            "-" => f.write_str(self.1),
            path => {
                let path = Escaped(path);
                write!(f, "{path}")
            }
        }
    }
}

/// A fault of what was read from a file: of a module, or of a source map.
#[derive(Drop)]
pub struct FileFault<'w> {
    /// The path of the file, as it was given.
    pub path: &'w str,
    /// The place of the fault, a byte offset from the start of the file, if it has one.
    pub at: Option<usize>,
    /// What it is in, where that is known.
    pub item: Option<Item>,
    /// Its text, and its name.
    pub fault: String,
}

/// The text of a fault of a source map, and its name.
fn source_map_fault_text(alloc: Global, fault: SourceMapFault) -> Result<String, AllocError> {
    let name = fault.name();
    format!(in alloc; "{fault} ({name})")
}

/// The text of a fault, and its name.
fn fault_text(alloc: Global, error: &ModuleError) -> Result<String, AllocError> {
    let fault = FaultText(error.fault);
    format!(in alloc; "{fault}")
}

/// What a file is that isn't a module, and the name of the fault that it has as one.
fn not_a_module_text(
    alloc: Global,
    kind: NotAModule,
    error: &ModuleError,
) -> Result<String, AllocError> {
    let name = error.fault.name();
    format!(in alloc; "{kind} ({name})")
}

impl<'w> FileFault<'w> {
    /// A fault of the module that was read from this file.
    ///
    /// # Errors
    ///
    /// Where memory runs out.
    pub fn new(
        alloc: Global,
        path: &'w str,
        item: Option<Item>,
        error: &ModuleError,
    ) -> Result<FileFault<'w>, AllocError>
        ensures { IfOk result (λ fault. fault.path.now ≡ path.entry.now) }
    {
        // A module that is too great is so as a whole.
        let at = match error.fault {
            ModuleFault::TooGreat => None,
            _ => Some(error.at),
        };
        match fault_text(alloc, error) {
            Ok(fault) => Ok(FileFault {
                path,
                at,
                item,
                fault,
            }),
            Err(error) => Err(error),
        }
    }
}

impl<'w> FileFault<'w> {
    /// This file isn't a module, but something else that is known.
    fn of_other(
        alloc: Global,
        path: &'w str,
        kind: NotAModule,
        error: &ModuleError,
    ) -> Result<FileFault<'w>, AllocError>
        ensures { IfOk result (λ fault. fault.path.now ≡ path.entry.now) }
    {
        match not_a_module_text(alloc, kind, error) {
            Ok(fault) => Ok(FileFault {
                path,
                at: Some(error.at),
                item: None,
                fault,
            }),
            Err(error) => Err(error),
        }
    }

    /// A fault of the source map that was read from this file, which has no place.
    fn of_source_map(
        alloc: Global,
        path: &'w str,
        fault: SourceMapFault,
    ) -> Result<FileFault<'w>, AllocError>
        ensures { IfOk result (λ fault. fault.path.now ≡ path.entry.now) }
    {
        match source_map_fault_text(alloc, fault) {
            Ok(fault) => Ok(FileFault {
                path,
                at: None,
                item: None,
                fault,
            }),
            Err(error) => Err(error),
        }
    }
}

/// A place, before what is there.
#[derive(Clone, Copy)]
struct PlaceBefore(Option<usize>);

impl fmt::Display for PlaceBefore {
    fn fmt<W: fmt::Write>(&self, f: &mut fmt::Formatter<W>) -> fmt::Result {
        match self.0 {
            Some(at) => write!(f, "0x{at:x}: "),
            None => Ok(()),
        }
    }
}

/// What a fault is in, before its text.
#[derive(Clone, Copy)]
struct Before<'i>(&'i Option<Item>);

impl fmt::Display for Before<'_> {
    fn fmt<W: fmt::Write>(&self, f: &mut fmt::Formatter<W>) -> fmt::Result {
        match self.0 {
            Some(item) => write!(f, "{item}: "),
            None => Ok(()),
        }
    }
}

/// The file, the place, what the fault is in, its text, and its name.
impl fmt::Display for FileFault<'_> {
    fn fmt<W: fmt::Write>(&self, f: &mut fmt::Formatter<W>) -> fmt::Result {
        let path = Shown(self.path, "standard input");
        let (place, item) = (PlaceBefore(self.at), Before(&self.item));
        let fault = self.fault.as_str();
        write!(f, "{path}: {place}{item}{fault}")
    }
}

/// Why a program writes no module.
#[derive(Drop)]
pub enum ProgramFailure<'w> {
    /// The arguments are wrong.
    UsageError(UsageError<'w>),
    /// The module, or its source map, is refused.
    Refused(FileFault<'w>),
    /// Something can't be done with a file.
    File {
        path: &'w str,
        tried: Attempt,
        error: io::Error,
    },
    /// Memory ran out.
    Memory,
}

impl<'w> ProgramFailure<'w> {
    /// The module that was read from this file is refused.
    pub fn refused(
        alloc: Global,
        path: &'w str,
        item: Option<Item>,
        error: &ModuleError,
    ) -> ProgramFailure<'w> {
        if matches!(error.fault, ModuleFault::Memory) {
            return ProgramFailure::Memory;
        }
        match FileFault::new(alloc, path, item, error) {
            Ok(fault) => ProgramFailure::Refused(fault),
            Err(_) => ProgramFailure::Memory,
        }
    }

    /// The bytes of this file aren't read as a module. Where they are something else that is known,
    /// that is said.
    pub fn not_read(
        alloc: Global,
        path: &'w str,
        bytes: &[u8],
        error: &ModuleError,
    ) -> ProgramFailure<'w> {
        if matches!(error.fault, ModuleFault::Memory) {
            return ProgramFailure::Memory;
        }
        let Some(kind) = NotAModule::of(bytes) else {
            return ProgramFailure::refused(alloc, path, None, error);
        };
        match FileFault::of_other(alloc, path, kind, error) {
            Ok(fault) => ProgramFailure::Refused(fault),
            Err(_) => ProgramFailure::Memory,
        }
    }

    /// The source map that was read from this file is refused.
    pub fn source_map(alloc: Global, path: &'w str, error: SourceMapError) -> ProgramFailure<'w> {
        let SourceMapError::Fault(fault) = error else {
            return ProgramFailure::Memory;
        };
        match FileFault::of_source_map(alloc, path, fault) {
            Ok(fault) => ProgramFailure::Refused(fault),
            Err(_) => ProgramFailure::Memory,
        }
    }

    /// This can't be done with a file.
    pub fn file(path: &'w str, tried: Attempt, error: io::Error) -> ProgramFailure<'w>
        ensures { IsMemoryOr tried path.entry.now result }
    {
        match error.kind() {
            io::ErrorKind::OutOfMemory => ProgramFailure::Memory,
            _ => ProgramFailure::File { path, tried, error },
        }
    }
}

impl fmt::Display for ProgramFailure<'_> {
    fn fmt<W: fmt::Write>(&self, f: &mut fmt::Formatter<W>) -> fmt::Result {
        match self {
            ProgramFailure::UsageError(error) => write!(f, "{error}"),
            ProgramFailure::Refused(error) => write!(f, "{error}"),
            ProgramFailure::File { path, tried, error } => {
                let stream = match tried {
                    Attempt::Open | Attempt::Read => "standard input",
                    _ => "standard output",
                };
                let path = Shown(path, stream);
                write!(f, "{path}: {tried}: {error}")
            }
            ProgramFailure::Memory => {
                let (memory, name) = (ModuleFault::Memory, ModuleFault::Memory.name());
                write!(f, "{memory} ({name})")
            }
        }
    }
}

impl<'w> From<UsageError<'w>> for ProgramFailure<'w> {
    fn from(error: UsageError<'w>) -> ProgramFailure<'w> {
        ProgramFailure::UsageError(error)
    }
}

impl From<AllocError> for ProgramFailure<'_> {
    fn from(_: AllocError) -> Self {
        ProgramFailure::Memory
    }
}

impl<T: Drop> From<AllocFailed<T>> for ProgramFailure<'_> {
    fn from(_: AllocFailed<T>) -> Self {
        ProgramFailure::Memory
    }
}

/// The number of the first word that isn't UTF-8. The words are the arguments from this place on, and
/// their numbers begin with 1.
fn number_of_bad_word<R: Env + AllocGlobal>(rt: &R, first: usize) -> Result<usize, AllocError> {
    let mut buffer = vec![in rt.alloc(); 0u8; LONGEST_WORD]?;
    for place in first..usize::MAX {
        match rt.arg(place, &mut buffer) {
            Ok(len) if str::from_utf8(&buffer[..len]).is_err() => {
                return Ok(place.saturating_sub(first).saturating_add(1));
            }
            Err(FillError::NotPresent) => break,
            _ => {}
        }
    }
    Ok(0)
}

/// The program's words: its arguments from this place on. At 0 is its own name.
///
/// # Errors
///
/// Wrong use where an argument isn't UTF-8, with its number; or that memory ran out.
pub fn words<R: Env + AllocGlobal>(
    rt: &R,
    first: usize,
) -> Result<Vec<String>, ProgramFailure<'static>> {
    let mut words = Vec::new(rt.alloc());
    match env::args(rt) {
        Ok(args) => {
            for word in args.skip(first) {
                words.push(word)?;
            }
            Ok(words)
        }
        Err(error) if error.kind() == io::ErrorKind::InvalidData => {
            let number = number_of_bad_word(rt, first)?;
            Err(ProgramFailure::UsageError(UsageError::NotUtf8(number)))
        }
        Err(_) => Err(ProgramFailure::Memory),
    }
}

/// The status of a program that stops so: 2 for wrong use, else 1.
fn status(failure: &ProgramFailure<'_>) -> u8
    ensures { result ≡ status_of failure.now }
{
    match failure {
        ProgramFailure::UsageError(_) => 2,
        ProgramFailure::Refused(_) => 1,
        ProgramFailure::File { .. } => 1,
        ProgramFailure::Memory => 1,
    }
}

/// Prints to standard error why no module is written. The status is then 2 for wrong use, else 1.
pub fn exit_code(rt: &impl Eprint, program: &str, failure: ProgramFailure<'_>) -> ExitCode
    ensures { exit_status result ≡ status_of failure.entry }
{
    let status = status(&failure);
    // Where standard error can't be written, the status is all that is left.
    let _ = eprintln!(rt; "{program}: {failure}");
    if status == 2 {
        let _ = eprintln!(rt; "try '{program} --help'");
    }
    ExitCode::from(status)
}

/// The status after a page was printed, as help: 0. Where it couldn't be, that is printed to standard
/// error, and the status is 1.
pub fn page_code(rt: &impl Eprint, program: &str, printed: io::Result<()>) -> ExitCode
    ensures printed { IsOk printed → exit_status result ≡ 0 }
    ensures failed { IsErr printed → exit_status result ≡ 1 }
{
    match printed {
        Ok(()) => ExitCode::SUCCESS,
        Err(error) => exit_code(
            rt,
            program,
            ProgramFailure::file("-", Attempt::Write, error),
        ),
    }
}
