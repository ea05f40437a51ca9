//! Functions that are found by their names.

ghost use Rattle.std.specs.Prelude.{ℕ, List, IfOk, IfErr};
ghost use Rattle.wrewrite_c.specs.Outcomes.{IsNamedFunction, IsNamedIn, IsNotRead};

use crate::outcome::{Named, Stop};
use crate::reading::read;
use module_tools::{Found, FunctionNames};
use std::alloc::Global;
use wasm_module::ParsedModule;

/// The function with a body among those with a name.
fn named(parsed: &ParsedModule<'_>, found: Found) -> Named
    ensures { IsNamedFunction parsed.now result }
{
    match found {
        Found::One(index) if parsed.has_body(index) => Named::One(index),
        Found::Several(_, _) => Named::Several,
        _ => Named::None,
    }
}

/// The function of a module that was read with this name.
fn find_in(alloc: Global, parsed: &ParsedModule<'_>, name: &[u8]) -> Result<Named, Stop>
    ensures found { IfOk result (IsNamedFunction parsed.now) }
    ensures stops { (source : List ℕ) → IfErr result (IsNotRead source) }
{
    let Ok(name) = str::from_utf8(name) else {
        return Ok(Named::None);
    };
    match FunctionNames::read(alloc, parsed) {
        Ok(names) => Ok(named(parsed, names.find(name))),
        Err(_) => Err(Stop::MEMORY),
    }
}

/// The function of a module with this name: in the `name` section, else of an export.
pub(crate) fn find(alloc: Global, source: &[u8], name: &[u8]) -> Result<Named, Stop>
    ensures found { IfOk result (IsNamedIn source.now) }
    ensures stops { IfErr result (IsNotRead source.now) }
{
    let parsed = match read(alloc, source) {
        Ok(parsed) => parsed,
        Err(stop) => return Err(stop),
    };
    find_in(alloc, &parsed, name)
}
