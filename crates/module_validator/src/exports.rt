//! Exports (WebAssembly core specification 3.0, validation, modules, exports).
ghost use Rattle.std.specs.Prelude.{◌≡◌, ◌∷◌, ℕ, List, true, not, IfOk, IfErr};
ghost use Rattle.wasm_numbers.specs.Results.{Gives, some_or};
ghost use Rattle.wasm_sections.specs.declared.fault.ModuleFault.TheVariants.{Memory, BadExportKind};
ghost use Rattle.wasm_sections.specs.Format.{export_space, export_part};
ghost use Rattle.wasm_sections.specs.Parts.{just, ◌>=>◌, GivesUnlessMemory};
ghost use Rattle.module_validator.specs.Checks.{HasExportNames, GivesNames, exports_contents};
ghost use Rattle.module_validator.specs.ModuleRules.{is_name_among, export_rule};

use std::alloc::Global;
use std::collections::BTreeMap;
use wasm_ops::Space;
use wasm_sections::{Input, ModuleError, ModuleFault};

/// The index space of what an export of this kind names.
fn exported_space(kind: u8) -> Option<Space>
    ensures { export_space kind ≡ some_or result BadExportKind }
{
    match kind {
        0 => Some(Space::Funcs),
        1 => Some(Space::Tables),
        2 => Some(Space::Memories),
        3 => Some(Space::Globals),
        4 => Some(Space::Tags),
        _ => None,
    }
}

/// The name of an export, which is passed.
fn export_name<'a>(input: &mut Input<'a>) -> Result<&'a str, ModuleError>
    ensures same_end { input.new.end ≡ input.old.end }
    ensures is { Gives (λ name. (name.now, input.new.rest.now)) result
        ((export_part >=> λ x. just x.0) input.old.end input.old.rest.now) }
{
    let name = input.name()?;
    let begin = *input;
    let kind = input.byte()?;
    if exported_space(kind).is_none() {
        return Err(begin.fault(ModuleFault::BadExportKind));
    }
    input.number()?;
    Ok(name)
}

/// Adds a name. Returns whether it is a new one.
fn add_name<'a>(names: &mut BTreeMap<&'a str, ()>, name: &'a str) -> Result<bool, ModuleError>
    ensures ok { IfOk result (λ is_new. (all : List (List ℕ)) → HasExportNames names.old all
        → (not (is_name_among all name.now) ≡ is_new)
        × (is_new ≡ true → HasExportNames names.new (name.now ∷ all))) }
    ensures err { IfErr result (λ error. error.fault ≡ Memory) }
{
    let before = names.insert(name, ())?;
    Ok(before.is_none())
}

/// Reads past an export, and adds its name; `ExportTaken` if it is there already.
fn check_export<'a>(
    names: &mut BTreeMap<&'a str, ()>,
    input: &mut Input<'a>,
) -> Result<(), ModuleError>
    ensures same_end { input.new.end ≡ input.old.end }
    ensures is { (all : List (List ℕ)) → HasExportNames names.old all → GivesNames names.new
        input.new.rest.now result (export_rule all input.old.end input.old.rest.now) }
{
    let begin = *input;
    let name = match export_name(input) {
        Ok(name) => name,
        Err(error) => return Err(error),
    };
    match add_name(names, name) {
        Ok(true) => Ok(()),
        Ok(false) => Err(begin.fault(ModuleFault::ExportTaken)),
        Err(error) => Err(error),
    }
}

/// Checks the exports of an export section with these contents.
pub(crate) fn check_exports(alloc: Global, mut input: Input<'_>) -> Result<(), ModuleError>
    ensures { GivesUnlessMemory (λ _. tt) result (exports_contents input.entry.end
        input.entry.rest.now) }
{
    let count = match input.number() {
        Ok(count) => count,
        Err(error) => return Err(error),
    };
    let mut names = BTreeMap::new(alloc);
    'exports: for _ in 0..count {
        match check_export(&mut names, &mut input) {
            Ok(()) => {}
            Err(error) => return Err(error),
        }
    }
    input.finish()
}
