//! Functions that count their calls.

ghost use Rattle.std.specs.Prelude.{◌≡◌, codes, List, IfOk};
ghost use Rattle.wasm_operators.specs.declared.types.Space.TheVariants.{Globals};
ghost use Rattle.wasm_sections.specs.declared.changes.Changes.{Changes as NewSections};
ghost use Rattle.wasm_sections.specs.Additions.{AddsItem};
ghost use Rattle.wasm_sections.specs.DefinedItems.{DefinesGlobal};
ghost use Rattle.wasm_sections.specs.Omissions.{OmitsNothing};
ghost use Rattle.wasm_sections.specs.Sections.{SectionAt, IsModule};
ghost use Rattle.wasm_module.specs.AddedItems.{AddsExport, ChangesNumbersAlone};
ghost use Rattle.module_tools.specs.Counters.{counter_bytes, HasCounter};
ghost use Rattle.wasm_module.specs.declared.parsed.ParsedModule.{ParsedModule as Parsed};
ghost use Rattle.wasm_module.specs.KeptCode.{AreKeptBodies};
ghost use Rattle.wasm_module.specs.RewrittenCode.{Extends, IsChangedWith, keeps_locals};
ghost use Rattle.module_tools.specs.declared.counting.CountCalls.{CountCalls as Counter};
ghost use Rattle.module_tools.specs.FunctionChanges.{CountsCalls};

use crate::edits::count_call;
use std::alloc::Global;
use walrus_body::LocalFunction;
use walrus_ir::{GlobalId, ModuleLocals};
use wasm_module::{
    ChangeFunction, Changes, KeptBodies, ModuleError, ParsedModule, RewrittenModule,
};

/// The name under which the number of calls is exported.
pub const CALLS: &str = "calls";

/// A mutable i64 that is 0 at first: its type, and `i64.const 0` with its `end`.
const COUNTER: [u8; 5] = [0x7e, 0x01, 0x42, 0x00, 0x0b];

/// Lets each function count its calls in a global, each in the same way.
#[derive(Clone, Copy, Drop)]
pub struct CountCalls(GlobalId);

impl ChangeFunction for CountCalls {
    ghost use Rattle.module_tools.specs.declared.counting.CountCalls.{CountCalls};
    ghost use Rattle.module_tools.specs.FunctionChanges.{CountsCalls};
    ghost use Rattle.wasm_module.specs.RewrittenCode.{alike};

    ghost State = { CountCalls };

    ghost state = { λ self. self };

    // What is written is that of `law_begun_code`.
    ghost changes = { alike (λ count. CountsCalls count.0) };

    fn change(
        &mut self,
        _index: usize,
        function: &mut LocalFunction,
        _locals: &mut ModuleLocals,
    ) -> Result<(), ModuleError> {
        if function.has_entry() {
            count_call(function, self.0)?;
        }
        Ok(())
    }
}

/// What lets each function of a module count its calls, and the sections that change: a global is
/// added, and exported as `calls`.
///
/// # Errors
///
/// `ExportTaken` where the module exports something else under this name; or `Memory`.
pub fn call_counter(
    alloc: Global,
    parsed: &mut ParsedModule<'_>,
) -> Result<(CountCalls, Changes), ModuleError>
    ensures { IfOk result (λ x. HasCounter parsed.old parsed.new x.1 (codes "calls") x.0.0) }
{
    call_counter_named(alloc, parsed, CALLS)
}

/// The same, where the global is exported under this name.
///
/// # Errors
///
/// `ExportTaken` where the module exports something else under this name; or `Memory`.
pub fn call_counter_named(
    alloc: Global,
    parsed: &mut ParsedModule<'_>,
    name: &str,
) -> Result<(CountCalls, Changes), ModuleError>
    ensures { IfOk result (λ x. HasCounter parsed.old parsed.new x.1 name.now x.0.0) }
{
    let mut changes = Changes::new(alloc);
    match add_counter(parsed, &mut changes, name) {
        Ok(global) => Ok((CountCalls(global), changes)),
        Err(error) => Err(error),
    }
}

/// Adds the global, and its export under this name.
pub(crate) fn add_counter(
    parsed: &mut ParsedModule<'_>,
    changes: &mut Changes,
    name: &str,
) -> Result<GlobalId, ModuleError>
    ensures kept { ChangesNumbersAlone Globals parsed.old parsed.new }
    ensures defined { IfOk result (λ id. DefinesGlobal id parsed.old.spaces parsed.new.spaces) }
    ensures adds { (all : List SectionAt) → IsModule parsed.old.bytes.now all → IfOk result
        (λ id. (between : NewSections) × AddsItem all changes.old between 6 counter_bytes
        × AddsExport all between changes.new name.now Globals id) }
{
    let global = match parsed.add_global(changes, &COUNTER) {
        Ok(global) => global,
        Err(error) => return Err(error),
    };
    match parsed.export_global(changes, name, global) {
        Ok(()) => Ok(global),
        Err(error) => Err(error),
    }
}

/// Adds a global, exported as `calls`, and to each function that has a body its increment by 1,
/// before all else that the function does. The changed bodies are kept until the module is written.
///
/// # Errors
///
/// `ExportTaken` where the module exports something else under this name; else the first fault of a
/// body, with its place; or `Memory`.
pub fn count_calls<'a>(
    alloc: Global,
    parsed: &mut ParsedModule<'a>,
) -> Result<RewrittenModule<'a, KeptBodies<'a>>, ModuleError>
    ensures { IfOk result (λ made. (source : Parsed) × (counter : Counter)
        × HasCounter parsed.old source made.changes (codes "calls") counter.0
        × Extends source parsed.new
        × AreKeptBodies (IsChangedWith (keeps_locals (CountsCalls counter.0))) source made.bodies
        × OmitsNothing made.omitted) }
{
    match call_counter(alloc, parsed) {
        Ok((mut counter, changes)) => parsed.change_all(&mut counter, changes),
        Err(error) => Err(error),
    }
}
