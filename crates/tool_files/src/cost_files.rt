//! Tables of what operators cost, read from files.

use crate::files::read_file;
use std::alloc::{AllocError, Global};
use std::rt::Files;
use tool_words::{Escaped, FileFault, ProgramFailure};
use walrus_metering::{Costs, CostsError, MAX_COST};

/// The text of what is wrong with a table, and its name.
fn fault_text(alloc: Global, error: &CostsError) -> Result<String, AllocError> {
    match error {
        CostsError::Memory => Err(AllocError),
        CostsError::NotJson => String::from_str(alloc, "this is no JSON text (NotJson)"),
        CostsError::NotATable => {
            String::from_str(alloc, "a table of costs is a JSON object (NotATable)")
        }
        CostsError::GivenTwice => {
            String::from_str(alloc, "an operator is given twice (GivenTwice)")
        }
        CostsError::NoOperator(name) => {
            let name = Escaped(name.as_str());
            format!(in alloc; "no operator is named '{name}' (NoOperator)")
        }
        CostsError::NotACost(name) => {
            let name = Escaped(name.as_str());
            format!(in alloc;
                "the cost of '{name}' isn't an integer from 0 to {MAX_COST} (NotACost)"
            )
        }
    }
}

/// A table that was read from this file is refused.
fn refused_costs<'w>(alloc: Global, path: &'w str, error: &CostsError) -> ProgramFailure<'w> {
    match fault_text(alloc, error) {
        Ok(fault) => ProgramFailure::Refused(FileFault {
            path,
            at: None,
            item: None,
            fault,
        }),
        Err(_) => ProgramFailure::Memory,
    }
}

/// What operators cost: as the table in this file says, or 1 each where no file is given.
///
/// # Errors
///
/// Where the file can't be read or is refused, or memory runs out.
pub fn read_costs<'w, R: Files + Input + AllocGlobal>(
    rt: &R,
    path: Option<&'w str>,
) -> Result<Costs, ProgramFailure<'w>> {
    let alloc = rt.alloc();
    let Some(path) = path else {
        return match Costs::new(alloc) {
            Ok(costs) => Ok(costs),
            Err(_) => Err(ProgramFailure::Memory),
        };
    };
    let bytes = match read_file(rt, path) {
        Ok(bytes) => bytes,
        Err(failure) => return Err(failure),
    };
    match Costs::read(alloc, &bytes) {
        Ok(costs) => Ok(costs),
        Err(error) => Err(refused_costs(alloc, path, &error)),
    }
}
