//! Why a module isn't read or rewritten.
ghost use Rattle.std.specs.Prelude.{◌≡◌};
ghost use Rattle.walrus_ir.specs.declared.error.WalkError.TheVariants as walk;
ghost use Rattle.wasm_body.specs.declared.error.IndexError.TheVariants as index;
ghost use Rattle.wasm_sections.specs.declared.fault.ModuleFault.TheVariants.{Memory};
ghost use Rattle.wasm_sections.specs.Faults.{index_fault, section_index_fault, walk_fault, parse_fault, emit_fault};

use std::alloc::{AllocError, AllocFailed};
use std::error::Error;
use std::fmt;
use std::fmt::Write;
use thiserror::Error as ErrorText;
use walrus_ir::WalkError;
use wasm_body::{EmitError, IndexError, ParseError, ParseFailure, Space};
use wasm_ops::{ReadError, ReadFault};

/// What is wrong with a module.
#[derive(Clone, Copy, Debug, PartialEq, Eq, ErrorText)]
pub enum ModuleFault {
    /// The bytes, or those of a section, of a body or of a vector, end inside an item.
    #[error("the bytes end too early")]
    Truncated,
    /// The first four bytes aren't `\0asm`.
    #[error("this is no WebAssembly module")]
    BadMagic,
    /// The version isn't 1.
    #[error("the version is not 1")]
    BadVersion,
    /// No section has this id.
    #[error("no section has this id")]
    UnknownSection,
    /// A section comes after one that it has to come before, or there are two of its kind; or a
    /// caller gives contents for a custom section or for the code section.
    #[error("a section is out of order")]
    SectionOutOfOrder,
    /// Bytes are left after the last item of a section, or of bytes that a caller passed.
    #[error("bytes are left after the last item of a section")]
    Trailing,
    /// A name isn't UTF-8.
    #[error("a name is not UTF-8")]
    BadName,
    /// The kind of an import isn't 0 to 4.
    #[error("no import is of this kind")]
    BadImportKind,
    /// The kind of an export isn't 0 to 4.
    #[error("no export is of this kind")]
    BadExportKind,
    /// The flags of limits are greater than 7, or a shared memory has no maximum.
    #[error("the flags of limits are not allowed")]
    BadLimits,
    /// The mutability of a global or of a field is neither 0 nor 1.
    #[error("the mutability is neither 0 nor 1")]
    BadMutability,
    /// The attribute of a tag isn't 0.
    #[error("the attribute of a tag is not 0")]
    BadTagAttribute,
    /// The flags of an element segment are greater than 7, or those of a data segment greater than
    /// 2.
    #[error("the flags of a segment are not allowed")]
    BadSegmentFlags,
    /// The kind of the elements of a segment isn't 0.
    #[error("the kind of an element is not 0")]
    BadElementKind,
    /// A constant expression has an operator that opens, divides or leaves a construct.
    #[error("this operator is not allowed in a constant expression")]
    BadConstant,
    /// Nothing in the module has this index.
    #[error("{}", IndexError::OutOfRange {space: *space, index: *index})]
    IndexOutOfRange { space: Space, index: u32 },
    /// The code section doesn't have as many bodies as the function section has functions; or the
    /// functions of another module were changed, so that nothing is kept for a body.
    #[error("there are not as many bodies as functions")]
    BodyCount,
    /// The data count section doesn't have the number of data segments.
    #[error("the data count is not the number of data segments")]
    DataCount,
    /// A function has more than 50,000 locals, its parameters included.
    #[error("a function has more than 50000 locals")]
    TooManyLocals,
    /// An operator names a local that the function doesn't have.
    #[error("an index is out of bounds for the function's locals")]
    LocalOutOfRange,
    /// A number, a type or an operator can't be read. If the bytes end inside a number or a type,
    /// outside of code, the fault is `Truncated`.
    #[error(transparent)]
    Read(ReadFault),
    /// Nothing has an index that code contains, or an id has no index.
    #[error(transparent)]
    Index(IndexError),
    /// A body isn't accepted; or `NotAFunctionType` if the type of a function or of a tag isn't a
    /// function type. No call of a parsed module is known to return `TypeMissing`: the types that
    /// handlers require are added.
    #[error(transparent)]
    Parse(ParseError),
    /// A function can't be written.
    #[error(transparent)]
    Emit(EmitError),
    /// An export that is to be added has the name of another one, of the source or added before.
    #[error("an export has this name already")]
    ExportTaken,
    /// A custom section is one of an object file (`linking`, or one whose name begins with `reloc.`),
    /// whose relocations wouldn't be true of other code.
    #[error("this is an object file: link it first")]
    ObjectFile,
    /// A function that is to be added doesn't have as many arguments as its type has parameters.
    #[error("a function does not have as many arguments as parameters")]
    ArgumentCount,
    /// A function is imported after a function with a body was added, whose index would change.
    #[error("a function is imported after one was added")]
    LateImport,
    /// The code has another size when it is written than before, so a caller's own `BodyWriter`
    /// wrote other bodies the second time; or functions were imported or added with other changes.
    #[error("a function is changed otherwise than before")]
    InconsistentChange,
    /// A count or a size doesn't fit 32 bits, or there are 2^32 items.
    #[error("a count is too great")]
    TooGreat,
    /// Memory ran out.
    #[error("out of memory")]
    Memory,
}

/// Writes the first word of a text, and leaves out everything else.
#[derive(Drop)]
struct FirstWord<'f, W> {
    out: &'f mut W,
    has_ended: bool,
}

impl<W: fmt::Write> fmt::Write for FirstWord<'_, W> {
    fn write_str(&mut self, text: &str) -> fmt::Result {
        for c in text.chars() {
            if !c.is_ascii_alphanumeric() {
                self.has_ended = true;
            }
            if !self.has_ended {
                self.out.write_char(c)?;
            }
        }
        Ok(())
    }
}

/// Writes the name of a fault's variant, which is the first word of its `Debug`.
fn write_name<W: fmt::Write, F: fmt::Debug>(fault: &F, f: &mut fmt::Formatter<W>) -> fmt::Result {
    let mut word = FirstWord {
        out: f,
        has_ended: false,
    };
    write!(word, "{fault:?}")
}

/// The name of a fault: that of its innermost variant.
#[derive(Clone, Copy, Debug, PartialEq, Eq)]
pub struct FaultName(ModuleFault);

impl fmt::Display for FaultName {
    fn fmt<W: fmt::Write>(&self, f: &mut fmt::Formatter<W>) -> fmt::Result {
        match self.0 {
            ModuleFault::Read(fault) => write_name(&fault, f),
            ModuleFault::Index(error) => f.write_str(error.name()),
            ModuleFault::Parse(error) => f.write_str(error.name()),
            ModuleFault::Emit(error) => f.write_str(error.name()),
            fault => write_name(&fault, f),
        }
    }
}

impl ModuleFault {
    /// The fault of an index or an id in code that isn't found.
    fn of_index(error: IndexError) -> ModuleFault
        ensures { result ≡ index_fault error }
    {
        match error {
            IndexError::Memory => ModuleFault::Memory,
            IndexError::LocalOutOfRange { .. } => ModuleFault::LocalOutOfRange,
            error => ModuleFault::Index(error),
        }
    }

    /// The fault of a body that isn't accepted. The validator refuses locals that the function
    /// doesn't have.
    fn of_parse(error: ParseError) -> ModuleFault
        ensures { result ≡ parse_fault error }
    {
        match error {
            ParseError::Read(error) => ModuleFault::Read(error.fault),
            ParseError::Checked(_) => ModuleFault::LocalOutOfRange,
            ParseError::Index(error) => ModuleFault::of_index(error),
            ParseError::Memory => ModuleFault::Memory,
            error => ModuleFault::Parse(error),
        }
    }

    /// The fault of a function that can't be walked over.
    pub fn of_walk(error: WalkError) -> ModuleFault
        ensures fault { result ≡ walk_fault error }
        ensures memory { error ≡ walk.Memory → result ≡ Memory }
    {
        match error {
            WalkError::Memory => ModuleFault::Memory,
            error => ModuleFault::Emit(EmitError::from(error)),
        }
    }

    /// The fault of a function that can't be written.
    pub fn of_emit(error: EmitError) -> ModuleFault
        ensures { result ≡ emit_fault error }
    {
        match error {
            EmitError::Index(error) => ModuleFault::of_index(error),
            EmitError::Memory => ModuleFault::Memory,
            error => ModuleFault::Emit(error),
        }
    }

    /// The fault's name.
    pub fn name(self) -> FaultName
        ensures { result.0 ≡ self }
    {
        FaultName(self)
    }
}

/// A fault of a module, and its place.
#[derive(Clone, Copy, Debug, PartialEq, Eq)]
pub struct ModuleError {
    /// What is wrong.
    pub fault: ModuleFault,
    /// The place: a byte offset from the start of the file. It is meaningless for `Memory`, and 0 for
    /// an error that was converted from one of a walk or of an index map.
    pub at: usize,
}

/// The place in hexadecimal, the text of the fault, and its name.
impl fmt::Display for ModuleError {
    fn fmt<W: fmt::Write>(&self, f: &mut fmt::Formatter<W>) -> fmt::Result {
        let (at, fault, name) = (self.at, self.fault, self.fault.name());
        write!(f, "0x{at:x}: {fault} ({name})")
    }
}

impl Error for ModuleError {}

impl ModuleError {
    /// Memory ran out.
    pub const MEMORY: ModuleError = ModuleError {
        fault: ModuleFault::Memory,
        at: 0,
    };

    /// The error, at this place, of an index of a section that isn't found in an index map, or of a
    /// map that can't grow.
    pub fn of_index(error: IndexError, at: usize) -> ModuleError
        ensures fault { result.fault ≡ section_index_fault error }
        ensures place { result.at ≡ at }
        ensures memory { error ≡ index.Memory → result.fault ≡ Memory }
    {
        let fault = match error {
            IndexError::OutOfRange { space, index } => {
                ModuleFault::IndexOutOfRange { space, index }
            }
            IndexError::Memory => ModuleFault::Memory,
            IndexError::NoLocals { .. } | IndexError::LocalOutOfRange { .. } => {
                ModuleFault::LocalOutOfRange
            }
            IndexError::Unnumbered { .. } | IndexError::TooMany => ModuleFault::TooGreat,
        };
        ModuleError { fault, at }
    }

    /// The error, at this place, of a type that names no type of the module.
    pub fn of_type(error: ParseError, at: usize) -> ModuleError {
        match error {
            ParseError::Index(error) => ModuleError::of_index(error, at),
            _ => ModuleError {
                fault: ModuleFault::Read(ReadFault::BadType),
                at,
            },
        }
    }

    /// The error of a body that isn't parsed.
    pub fn of_parse(failure: ParseFailure) -> ModuleError
        ensures fault { result.fault ≡ parse_fault failure.error }
        ensures place { result.at ≡ failure.at }
    {
        ModuleError {
            fault: ModuleFault::of_parse(failure.error),
            at: failure.at,
        }
    }

    /// The error of an operator that isn't read.
    pub fn of_read(error: ReadError) -> ModuleError {
        ModuleError::of_parse(ParseFailure {
            error: ParseError::Read(error),
            at: error.at,
        })
    }
}

impl From<AllocError> for ModuleError {
    ghost from_gives = { λ _ error. error.fault ≡ Memory };

    fn from(_failed: AllocError) -> ModuleError {
        ModuleError::MEMORY
    }
}

impl<T: Drop> From<AllocFailed<T>> for ModuleError {
    ghost from_gives = { λ _ error. error.fault ≡ Memory };

    fn from(_failed: AllocFailed<T>) -> ModuleError {
        ModuleError::MEMORY
    }
}

/// The error of an index or an id in a function that isn't found, and of an index map that can't
/// grow; the fault is that of code that contains the index. Its place is 0, since no place is known.
impl From<IndexError> for ModuleError {
    ghost from_gives = { λ cause error. (error.fault ≡ index_fault cause) × (error.at ≡ 0) };

    fn from(error: IndexError) -> ModuleError {
        ModuleError {
            fault: ModuleFault::of_index(error),
            at: 0,
        }
    }
}

/// The error of a function that can't be walked over. Its place is 0, since no place is known.
impl From<WalkError> for ModuleError {
    ghost from_gives = { λ cause error. (error.fault ≡ walk_fault cause) × (error.at ≡ 0) };

    fn from(error: WalkError) -> ModuleError {
        ModuleError {
            fault: ModuleFault::of_walk(error),
            at: 0,
        }
    }
}
