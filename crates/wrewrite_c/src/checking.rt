//! Modules that are checked: nothing is made of their bodies, and nothing is written.

ghost use Rattle.std.specs.Prelude.{ℕ, List, IfErr, IfNone, IfSome, OnOk};
ghost use Rattle.wasm_sections.specs.CodeSections.{body_at};
ghost use Rattle.wasm_module.specs.AcceptedModules.{AcceptsBodies};
ghost use Rattle.wasm_module.specs.ReadFrom.{IsModuleOf};
ghost use Rattle.wasm_module.specs.RewrittenCode.{Extends, IsAccepted};
ghost use Rattle.wasm_module.specs.Refusals.{IsRefusedBody};
ghost use Rattle.wrewrite_c.specs.Outcomes.{IsOfBodies, IsOfCheck, IsAcceptedFrom};

use crate::outcome::{RefusedModule, Stop};
use crate::reading::read;
use std::alloc::Global;
use wasm_module::{Body, ModuleError, ParsedModule, Scratch};

/// Why a body is refused, if it is.
fn fault_of<'a>(
    parsed: &mut ParsedModule<'a>,
    body: Body<'a>,
    scratch: &mut Scratch,
) -> Option<ModuleError>
    ensures extends { Extends parsed.old parsed.new }
    ensures accepted { IfNone result
        (IsAccepted parsed.old body.entry.func (body_at body.entry) parsed.new) }
    ensures refused { IfSome result
        (IsRefusedBody parsed.old body.entry.func (body_at body.entry) parsed.new) }
{
    match parsed.check(body, scratch) {
        Ok(()) => None,
        Err(error) => Some(error),
    }
}

/// Checks the bodies from that of this function on.
fn check_bodies(
    parsed: &mut ParsedModule<'_>,
    first: usize,
    scratch: &mut Scratch,
) -> Result<(), Stop>
    ensures accepted { (source : List ℕ) → IsModuleOf source parsed.old
        → OnOk result (AcceptsBodies parsed.old first) }
    ensures refused { (source : List ℕ) → IsModuleOf source parsed.old
        → IfErr result (IsOfBodies parsed.old first) }
{
    'bodies: for body in parsed.bodies() {
        if body.func < first {
            continue;
        }
        if let Some(error) = fault_of(parsed, body, scratch) {
            return Err(Stop::Refused(RefusedModule {
                error,
                function: Some(body.func),
            }));
        }
    }
    Ok(())
}

/// Checks the bodies of a module, from that of this function on.
pub(crate) fn check(alloc: Global, source: &[u8], first: usize) -> Result<(), Stop>
    ensures accepted { OnOk result (IsAcceptedFrom source.now first) }
    ensures refused { IfErr result (IsOfCheck source.now first) }
{
    let mut parsed = match read(alloc, source) {
        Ok(parsed) => parsed,
        Err(stop) => return Err(stop),
    };
    let mut scratch = Scratch::new(alloc);
    check_bodies(&mut parsed, first, &mut scratch)
}
