//! Exports that are added at once (WebAssembly core specification 3.0, binary format, export section).
ghost use Rattle.std.specs.Prelude.{◌≡◌, ◌+◌, ◌++◌, ◌↔◌, ℕ, List, [], Bool, true, false, not, cond, length, option_map, Ok, OnErr, OnOk, IfOk, IfErr};
ghost use Rattle.std.specs.BTreeSet.{contains_text};
ghost use Rattle.std.specs.Str.{bytes_eq};
ghost use Rattle.wasm_operators.specs.Shortest.{short_number};
ghost use Rattle.wasm_sections.specs.declared.fault.ModuleFault.TheVariants.{ExportTaken, TooGreat as TooMuch};
ghost use Rattle.wasm_sections.specs.Components.{Components, module_of};
ghost use Rattle.wasm_sections.specs.Additions.{AreUnchanged, IsTooMuch, SetsContents};
ghost use Rattle.wasm_sections.specs.Sections.{SectionAt, IsModule};
ghost use Rattle.wasm_sections.specs.Views.{IsAmongExports, IsExportKind};
ghost use Rattle.wasm_module.specs.AddedItems.{export_of};
ghost use Rattle.module_items.specs.Replacing.{placed_contents};
ghost use Rattle.module_items.specs.Renaming.{HasExportIn};
ghost use Rattle.module_items.specs.NewExports.{HaveFreeNames, AreExportsWritten, exports_counted, AreExportsAdded};

use crate::exports::export_bytes;
use crate::replacing::{contents_with, join};
use std::alloc::Global;
use std::collections::BTreeSet;
use wasm_body::Space;
use wasm_module::ParsedModule;
use wasm_sections::{
    Changes, Exports, Input, Items, ModuleError, ModuleFault, SectionKind, export_kind,
    write_number,
};

/// An export that is added.
#[derive(Clone, Copy)]
pub struct NewExport<'n> {
    /// Its name.
    pub name: &'n str,
    /// The index space of what it names.
    pub space: Space,
    /// The index of that, in the module that is written.
    pub index: u32,
}

/// Names of exports.
#[derive(Drop)]
struct Names {
    names: BTreeSet<String>,
    alloc: Global,
}

impl Names {
    /// No names. This allocates nothing.
    fn new(alloc: Global) -> Names
        ensures { (name : List ℕ) → contains_text result.names name ≡ false }
    {
        Names {
            names: BTreeSet::new(alloc),
            alloc,
        }
    }

    /// Adds a name, and returns whether it is new.
    fn add(&mut self, name: &str) -> Result<bool, ModuleError>
        ensures is_new { IfOk result (λ is_new. is_new ≡ not (contains_text self.old.names name.now)) }
        ensures added { OnOk result ((other : List ℕ) → contains_text self.new.names other
            ≡ cond (bytes_eq name.now other) true (contains_text self.old.names other)) }
        ensures refused { IfErr result IsTooMuch }
    {
        let name = String::from_str(self.alloc, name)?;
        Ok(self.names.insert(name)?)
    }

    /// Adds a name; `ExportTaken` if it is there.
    fn take(&mut self, name: &str) -> Result<(), ModuleError>
        ensures free { OnOk result (contains_text self.old.names name.now ≡ false) }
        ensures added { OnOk result ((other : List ℕ) → contains_text self.new.names other
            ≡ cond (bytes_eq name.now other) true (contains_text self.old.names other)) }
        ensures taken { IfErr result (λ error. error.fault ≡ ExportTaken → contains_text self.old.names name.now ≡ true) }
    {
        match self.add(name) {
            Ok(true) => Ok(()),
            Ok(false) => Err(ModuleError {
                fault: ModuleFault::ExportTaken,
                at: 0,
            }),
            Err(error) => Err(error),
        }
    }

    /// Adds the names of so many exports, of which these are the bytes.
    fn add_all(&mut self, items: Items<'_>) -> Result<(), ModuleError>
        requires { (name : List ℕ) → contains_text self.old.names name ≡ false }
        ensures named { OnOk result ((name : List ℕ) → (contains_text self.new.names name ≡ true)
            ↔ IsAmongExports name items.entry.count items.entry.left.end items.entry.left.rest.now) }
        ensures never_taken { IfErr result (λ error. error.fault ≡ ExportTaken → ⊥) }
    {
        let exports = Exports { items };
        'exports: for export in exports {
            let export = match export {
                Ok(export) => export,
                Err(error) => return Err(error),
            };
            match self.add(export.name) {
                Ok(_) => {}
                Err(error) => return Err(error),
            }
        }
        Ok(())
    }
}

/// Appends an export of what can be exported.
fn put_export(alloc: Global, export: NewExport<'_>, out: &mut Vec<u8>) -> Result<(), ModuleError>
    ensures written { OnOk result ((kind : ℕ) × IsExportKind export.entry.space kind
        × (out.new.items ≡ out.old.items ++ export_of export.entry.name.now kind export.entry.index)) }
    ensures never_taken { IfErr result (λ error. error.fault ≡ ExportTaken → ⊥) }
{
    let Some(kind) = export_kind(export.space) else {
        return Err(ModuleError {
            fault: ModuleFault::BadExportKind,
            at: 0,
        });
    };
    match export_bytes(alloc, export.name, kind, export.index) {
        Ok(bytes) => {
            out.extend_from_slice(&bytes)?;
            Ok(())
        }
        Err(error) => Err(error),
    }
}

/// Appends these exports, whose names are none of these and differ.
fn put_exports(
    alloc: Global,
    exports: &[NewExport<'_>],
    names: &mut Names,
    out: &mut Vec<u8>,
) -> Result<(), ModuleError>
    ensures free { OnOk result (HaveFreeNames (λ name. contains_text names.old.names name ≡ true) exports.now) }
    ensures written { OnOk result ((bytes : List ℕ) × AreExportsWritten exports.now bytes × (out.new.items ≡ out.old.items ++ bytes)) }
    ensures taken { IfErr result (λ error. error.fault ≡ ExportTaken
        → ¬ HaveFreeNames (λ name. contains_text names.old.names name ≡ true) exports.now) }
{
    'exports: for export in exports {
        match names.take(export.name) {
            Ok(()) => {}
            Err(error) => return Err(error),
        }
        match put_export(alloc, *export, out) {
            Ok(()) => {}
            Err(error) => return Err(error),
        }
    }
    Ok(())
}

/// The exports of a section, if there is one.
fn exports_in(contents: Option<Input<'_>>) -> Result<Items<'_>, ModuleError>
    ensures counted { IfOk result (λ items. exports_counted (option_map (λ i. (i.end, i.rest.now)) contents.entry)
        ≡ Ok (items.count, items.left.rest.now)) }
    ensures named { IfOk result (λ items. (name : List ℕ) → HasExportIn name (option_map (λ i. (i.end, i.rest.now)) contents.entry)
        ↔ IsAmongExports name items.count items.left.end items.left.rest.now) }
    ensures never_taken { IfErr result (λ error. error.fault ≡ ExportTaken → ⊥) }
{
    match contents {
        Some(contents) => Items::of_contents(contents),
        None => Ok(Items {
            left: Input::new(&[]),
            count: 0,
        }),
    }
}

/// The contents of an export section, with these exports after those that are there.
fn with_exports(
    alloc: Global,
    contents: Option<Input<'_>>,
    exports: &[NewExport<'_>],
) -> Result<Vec<u8>, ModuleError>
    ensures free { OnOk result (HaveFreeNames
        (λ name. HasExportIn name (option_map (λ i. (i.end, i.rest.now)) contents.entry)) exports.now) }
    ensures written { IfOk result (λ made. (count : ℕ) × (items : List ℕ) × (bytes : List ℕ)
        × (exports_counted (option_map (λ i. (i.end, i.rest.now)) contents.entry) ≡ Ok (count, items))
        × AreExportsWritten exports.now bytes
        × (made.items ≡ short_number (count + length exports.now) ++ (items ++ bytes))) }
    ensures taken { IfErr result (λ error. error.fault ≡ ExportTaken → ¬ HaveFreeNames
        (λ name. HasExportIn name (option_map (λ i. (i.end, i.rest.now)) contents.entry)) exports.now) }
{
    let items = match exports_in(contents) {
        Ok(items) => items,
        Err(error) => return Err(error),
    };
    let mut names = Names::new(alloc);
    match names.add_all(items) {
        Ok(()) => {}
        Err(error) => return Err(error),
    }
    let mut bytes = Vec::new(alloc);
    match put_exports(alloc, exports, &mut names, &mut bytes) {
        Ok(()) => {}
        Err(error) => return Err(error),
    }
    let Some(count) = (items.count as usize).checked_add(exports.len()) else {
        return Err(too_great());
    };
    match join(alloc, count, &[], items.left.rest(), &bytes) {
        Ok(made) => Ok(made),
        Err(error) => Err(error),
    }
}

/// `TooGreat`, without a place.
fn too_great() -> ModuleError
    ensures { result.fault ≡ TooMuch }
{
    ModuleError {
        fault: ModuleFault::TooGreat,
        at: 0,
    }
}

/// Gives the changes these contents of the export section.
fn give(changes: &mut Changes, made: Vec<u8>) -> Result<(), ModuleError>
    ensures sets { OnOk result (SetsContents changes.old changes.new 7 made.items) }
    ensures unchanged { OnErr result (AreUnchanged changes.old changes.new) }
    ensures refused { IfErr result IsTooMuch }
{
    if made.len() > u32::MAX as usize {
        return Err(too_great());
    }
    match changes.set_contents(SectionKind::Export, made) {
        Ok(()) => Ok(()),
        // The kind has contents, and they aren't too long.
        Err(_) => Err(ModuleError::MEMORY),
    }
}

/// Exports items under names that no export has and that differ, after all other exports: each what has its index in its index space,
/// in the module that is written. It isn't checked whether there is one. Takes time linear in the bytes of all exports, but for a
/// logarithm, where one call of `ParsedModule::export` after the other compares each name with all.
///
/// # Errors
///
/// `ExportTaken` if another export has one of the names; `BadExportKind` if nothing in one of the spaces can be exported; the first fault
/// of exports that a caller gave; `TooGreat` if there are too many; or `Memory`. The changes are as before then.
pub fn export_all(
    parsed: &ParsedModule<'_>,
    changes: &mut Changes,
    exports: &[NewExport<'_>],
) -> Result<(), ModuleError>
    ensures ok { (all : List SectionAt) → IsModule parsed.now.bytes.now all → OnOk result
        (AreExportsAdded exports.now (placed_contents all changes.old 7) changes.old changes.new) }
    ensures err { OnErr result (AreUnchanged changes.old changes.new) }
    ensures taken { (all : List SectionAt) (m : Components) → IsModule parsed.now.bytes.now all
        → module_of parsed.now.bytes.now ≡ Ok m → IfErr result (λ error. error.fault ≡ ExportTaken
        → ¬ HaveFreeNames (λ name. HasExportIn name (placed_contents all changes.old 7)) exports.now) }
{
    if exports.is_empty() {
        return Ok(());
    }
    let alloc = *changes.given.allocator();
    let made = match contents_with(parsed, changes, SectionKind::Export) {
        Ok(contents) => with_exports(alloc, contents, exports),
        Err(error) => return Err(error),
    };
    let made = match made {
        Ok(made) => made,
        Err(error) => return Err(error),
    };
    match give(changes, made) {
        Ok(()) => Ok(()),
        Err(error) => Err(error),
    }
}
