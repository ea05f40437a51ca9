//! The texts of refusals.

use crate::refused_operand::mismatch;
use module_context::validity_words;
use std::alloc::{AllocError, Global};
use std::fmt;
use wasm_sections::{ModuleError, ModuleFault};

/// A fault, which is printed as its text and its name: `a type is not valid (InvalidType)`.
#[derive(Clone, Copy)]
pub struct FaultText(pub ModuleFault);

impl fmt::Display for FaultText {
    fn fmt<W: fmt::Write>(&self, f: &mut fmt::Formatter<W>) -> fmt::Result {
        if let Some((text, name)) = validity_words(self.0) {
            return write!(f, "{text} ({name})");
        }
        let (fault, name) = (self.0, self.0.name());
        write!(f, "{fault} ({name})")
    }
}

/// The text and the name of a fault of validation, and before the name the operand that an operator refuses.
fn operand_text(
    alloc: Global,
    bytes: &[u8],
    error: &ModuleError,
) -> Result<Option<String>, AllocError> {
    let Some((text, name)) = validity_words(error.fault) else {
        return Ok(None);
    };
    match mismatch(alloc, bytes, error) {
        Ok(Some(operand)) => {
            let whole = format!(in alloc; "{text}: {operand} ({name})")?;
            Ok(Some(whole))
        }
        Ok(None) => Ok(None),
        Err(_) => Err(AllocError),
    }
}

/// What the programs print of a module with these bytes for which `validate` returns this error: the text of the fault, what an
/// operator takes and finds if it is refused for an operand, and the fault's name. For instance `the operator is not valid
/// here: expected i32, found f32 (InvalidOperator)`. This may take some ten times the time of validating the operator's body.
///
/// # Errors
///
/// Out of memory.
pub fn refusal_text(
    alloc: Global,
    bytes: &[u8],
    error: &ModuleError,
) -> Result<String, AllocError> {
    match operand_text(alloc, bytes, error) {
        Ok(Some(text)) => Ok(text),
        Ok(None) => {
            let fault = FaultText(error.fault);
            format!(in alloc; "{fault}")
        }
        Err(error) => Err(error),
    }
}
