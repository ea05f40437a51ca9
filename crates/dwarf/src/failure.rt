//! Why debug information isn't moved.

ghost use Rattle.std.specs.Prelude.{◌≡◌, Ok, Err, IfOk, IfErr};
ghost use Rattle.dwarf_bytes.specs.declared.fault.DebugError.TheVariants.{Fault};

use crate::sections::SectionName;
use dwarf_bytes::{DebugError, DebugFault};
use std::fmt;
use std::fmt::{Display, Formatter, Write};

/// Why debug information isn't moved, and in which section.
#[derive(Clone, Copy, Debug, PartialEq, Eq)]
pub struct DebugFailure {
    /// The section.
    pub section: SectionName,
    /// The reason.
    pub error: DebugError,
}

impl DebugFailure {
    /// A fault of a section.
    pub(crate) fn fault(section: SectionName, fault: DebugFault) -> DebugFailure
        ensures section { result.section ≡ section }
        ensures fault { result.error ≡ Fault fault }
    {
        DebugFailure {
            section,
            error: DebugError::Fault(fault),
        }
    }
}

impl Display for DebugFailure {
    fn fmt<W: Write>(&self, f: &mut Formatter<W>) -> Result<(), fmt::Error> {
        write!(f, "{}: {}", self.section.name(), self.error)
    }
}

/// What was moved, or the error with its section.
pub(crate) fn within<T>(
    section: SectionName,
    moved: Result<T, DebugError>,
) -> Result<T, DebugFailure>
    ensures moved { IfOk result (λ value. moved ≡ Ok value) }
    ensures refused { IfErr result (λ failure. (failure.section ≡ section) × (moved ≡ Err failure.error)) }
{
    match moved {
        Ok(value) => Ok(value),
        Err(error) => Err(DebugFailure { section, error }),
    }
}
