//! The names of errors: for each the name of its innermost variant, as programs print it.
ghost use Rattle.std.specs.Prelude.{◌≡◌};
ghost use Rattle.wasm_body.specs.ErrorNames.{name_of_read_fault, name_of_index_error, name_of_parse_error, name_of_emit_error};

use crate::error::{EmitError, IndexError, ParseError};
use wasm_numbers::ReadFault;

impl IndexError {
    /// The error's name: that of its variant.
    pub fn name(self) -> &'static str
        ensures { result.now ≡ name_of_index_error self }
    {
        match self {
            IndexError::OutOfRange { .. } => "OutOfRange",
            IndexError::NoLocals { .. } => "NoLocals",
            IndexError::Unnumbered { .. } => "Unnumbered",
            IndexError::TooMany => "TooMany",
            IndexError::Memory => "Memory",
            IndexError::LocalOutOfRange { .. } => "LocalOutOfRange",
        }
    }
}

/// The name of a fault of reading: that of its variant.
fn read_name(fault: ReadFault) -> &'static str
    ensures { result.now ≡ name_of_read_fault fault }
{
    match fault {
        ReadFault::Truncated => "Truncated",
        ReadFault::BadNumber => "BadNumber",
        ReadFault::UnknownOperator => "UnknownOperator",
        ReadFault::BadMemArg => "BadMemArg",
        ReadFault::BadType => "BadType",
        ReadFault::BadCatchKind => "BadCatchKind",
        ReadFault::BadCastFlags => "BadCastFlags",
        ReadFault::BadFence => "BadFence",
        ReadFault::BadSelect => "BadSelect",
    }
}

impl ParseError {
    /// The error's name: that of its innermost variant, as `OutOfRange` for an index without an id.
    pub fn name(self) -> &'static str
        ensures { result.now ≡ name_of_parse_error self }
    {
        match self {
            ParseError::Read(error) => read_name(error.fault),
            ParseError::PlaceTooGreat => "PlaceTooGreat",
            ParseError::Checked(_) => "Checked",
            ParseError::Index(error) => error.name(),
            ParseError::NoSuchLabel => "NoSuchLabel",
            ParseError::NotAFunctionType => "NotAFunctionType",
            ParseError::TypeMissing => "TypeMissing",
            ParseError::EntryTypeMissing => "EntryTypeMissing",
            ParseError::ElseOutsideIf => "ElseOutsideIf",
            ParseError::CatchOutsideTry => "CatchOutsideTry",
            ParseError::DelegateOutsideTry => "DelegateOutsideTry",
            ParseError::RethrowOutsideHandler => "RethrowOutsideHandler",
            ParseError::Trailing => "Trailing",
            ParseError::MissingEnd => "MissingEnd",
            ParseError::NoTry => "NoTry",
            ParseError::NoFrame => "NoFrame",
            ParseError::UnknownId => "UnknownId",
            ParseError::Memory => "Memory",
        }
    }
}

impl EmitError {
    /// The error's name: that of its innermost variant, as `Unnumbered` for an id without an index.
    pub fn name(self) -> &'static str
        ensures { result.now ≡ name_of_emit_error self }
    {
        match self {
            EmitError::Index(error) => error.name(),
            EmitError::UnnumberedLocal => "UnnumberedLocal",
            EmitError::UnknownSequence => "UnknownSequence",
            EmitError::SharedSequence => "SharedSequence",
            EmitError::BranchOutside => "BranchOutside",
            EmitError::BadClauses => "BadClauses",
            EmitError::UnknownLocal => "UnknownLocal",
            EmitError::TooLarge => "TooLarge",
            EmitError::Memory => "Memory",
        }
    }
}
