//! Exports that are removed, renamed, or lead elsewhere (WebAssembly core specification 3.0, binary format, export section).
ghost use Rattle.std.specs.Prelude.{◌≡◌, List, option_map, OnErr, OnOk, IfOk, IfErr, MatchOption};
ghost use Rattle.wasm_sections.specs.declared.fault.ModuleFault.TheVariants.{ExportTaken};
ghost use Rattle.wasm_sections.specs.Additions.{AreUnchanged, IsTooMuch};
ghost use Rattle.wasm_sections.specs.Sections.{SectionAt, IsModule};
ghost use Rattle.wasm_sections.specs.Views.{HasExport, IsAmongExports};
ghost use Rattle.wasm_module.specs.AddedItems.{export_of};
ghost use Rattle.module_items.specs.Replacing.{placed_contents};
ghost use Rattle.module_items.specs.Renaming.{HasExportAt, IsExportAmong, HasExportIn, FindsExport, IsExportRemoved, IsExportRenamed, IsExportReplaced, GivesWayTo};

use crate::replacing::{NewItems, contents_with, replace};
use std::alloc::Global;
use wasm_body::Space;
use wasm_module::ParsedModule;
use wasm_sections::{
    Changes, Exports, Input, Items, ModuleError, ModuleFault, SectionKind, export_kind,
    write_bytes, write_number,
};

/// An export, and where it is among the others.
#[derive(Clone, Copy)]
struct PlacedExport {
    /// How many exports come before it.
    place: u32,
    /// The index space of what it names.
    space: Space,
    /// The index of that.
    index: u32,
}

/// The export with this name among so many, of which these are the bytes.
fn export_among(items: Items<'_>, name: &str) -> Result<Option<PlacedExport>, ModuleError>
    ensures found { IfOk result (λ found. MatchOption found
        (¬ IsAmongExports name.now items.entry.count items.entry.left.end items.entry.left.rest.now)
        (λ x. IsExportAmong name.now x.place x.space x.index items.entry.count items.entry.left.end items.entry.left.rest.now)) }
{
    let mut exports = Exports { items };
    'exports: for place in 0..items.count {
        match exports.next() {
            Some(Ok(export)) => {
                if export.name == name {
                    return Ok(Some(PlacedExport {
                        place,
                        space: export.space,
                        index: export.index,
                    }));
                }
            }
            Some(Err(error)) => return Err(error),
            None => return Ok(None),
        }
    }
    Ok(None)
}

/// The export with this name in these contents of an export section; None if there is none.
fn export_in(contents: Input<'_>, name: &str) -> Result<Option<PlacedExport>, ModuleError>
    ensures found { IfOk result (λ found. MatchOption found
        (¬ HasExport name.now contents.entry.end contents.entry.rest.now)
        (λ x. HasExportAt name.now x.place x.space x.index contents.entry.end contents.entry.rest.now)) }
{
    match Items::of_contents(contents) {
        Ok(items) => export_among(items, name),
        Err(error) => Err(error),
    }
}

/// The export with this name, of the source with these changes; None if there is none.
fn find_export(
    parsed: &ParsedModule<'_>,
    changes: &Changes,
    name: &str,
) -> Result<Option<PlacedExport>, ModuleError>
    ensures { (all : List SectionAt) → IsModule parsed.now.bytes.now all → IfOk result
        (λ found. FindsExport name.now (placed_contents all changes.now 7) (option_map (λ x. (x.place, x.space, x.index)) found)) }
{
    match contents_with(parsed, changes, SectionKind::Export) {
        Ok(Some(contents)) => export_in(contents, name),
        Ok(None) => Ok(None),
        Err(error) => Err(error),
    }
}

/// `ExportTaken`, at its place, if an export of these contents has this name.
fn refuse_taken(contents: Input<'_>, name: &str) -> Result<(), ModuleError>
    ensures free { OnOk result (¬ HasExport name.now contents.entry.end contents.entry.rest.now) }
    ensures taken { IfErr result (λ error. error.fault ≡ ExportTaken
        → HasExport name.now contents.entry.end contents.entry.rest.now) }
{
    match Exports::place_in(contents, name) {
        Ok(Some(at)) => Err(ModuleError {
            fault: ModuleFault::ExportTaken,
            at,
        }),
        Ok(None) => Ok(()),
        Err(error) => Err(error),
    }
}

/// `ExportTaken` if an export of the source with these changes has this name.
fn check_free(parsed: &ParsedModule<'_>, changes: &Changes, name: &str) -> Result<(), ModuleError>
    ensures { (all : List SectionAt) → IsModule parsed.now.bytes.now all
        → OnOk result (¬ HasExportIn name.now (placed_contents all changes.now 7)) }
{
    match contents_with(parsed, changes, SectionKind::Export) {
        Ok(Some(contents)) => refuse_taken(contents, name),
        Ok(None) => Ok(()),
        Err(error) => Err(error),
    }
}

/// An export of what has this index in this index space.
#[tactic(auto, using(wasm_encode::proofs::Appending::appending))]
pub(crate) fn export_bytes(
    alloc: Global,
    name: &str,
    kind: u8,
    index: u32,
) -> Result<Vec<u8>, ModuleError>
    ensures written { IfOk result (λ made. made.items ≡ export_of name.now kind index) }
    ensures refused { IfErr result IsTooMuch }
{
    let mut out = Vec::new(alloc);
    match write_bytes(&mut out, name.as_bytes()) {
        Ok(()) => {}
        Err(error) => return Err(error),
    }
    out.push(kind)?;
    match write_number(&mut out, index as usize) {
        Ok(()) => Ok(out),
        Err(error) => Err(error),
    }
}

/// Puts an export of what has this index in this index space in the place of the one at this place.
fn put_export(
    parsed: &ParsedModule<'_>,
    changes: &mut Changes,
    name: &str,
    export: PlacedExport,
) -> Result<bool, ModuleError>
    ensures ok { (all : List SectionAt) → IsModule parsed.now.bytes.now all → IfOk result
        (GivesWayTo export.place name.now export.space export.index (placed_contents all changes.old 7) changes.old changes.new) }
    ensures err { OnErr result (AreUnchanged changes.old changes.new) }
{
    let Some(kind) = export_kind(export.space) else {
        return Err(ModuleError {
            fault: ModuleFault::BadExportKind,
            at: 0,
        });
    };
    let alloc = *changes.given.allocator();
    let bytes = match export_bytes(alloc, name, kind, export.index) {
        Ok(bytes) => bytes,
        Err(error) => return Err(error),
    };
    replace(
        parsed,
        changes,
        SectionKind::Export,
        export.place,
        NewItems::one(&bytes),
    )
}

/// Removes the export with this name. Returns whether there is one; if not, nothing is changed.
///
/// # Errors
///
/// The first fault of exports that a caller gave; or `Memory`. The changes are as before then.
pub fn remove_export(
    parsed: &ParsedModule<'_>,
    changes: &mut Changes,
    name: &str,
) -> Result<bool, ModuleError>
    ensures ok { (all : List SectionAt) → IsModule parsed.now.bytes.now all → IfOk result
        (IsExportRemoved name.now (placed_contents all changes.old 7) changes.old changes.new) }
    ensures err { OnErr result (AreUnchanged changes.old changes.new) }
{
    match find_export(parsed, changes, name) {
        Ok(Some(found)) => {
            replace(
                parsed,
                changes,
                SectionKind::Export,
                found.place,
                NewItems::none(),
            )
        }
        Ok(None) => Ok(false),
        Err(error) => Err(error),
    }
}

/// Gives the export with this name another one. Returns whether there is such an export; if not, nothing is changed.
///
/// # Errors
///
/// `ExportTaken` if an export has the new name, with its place; the first fault of exports that a caller gave; `TooGreat` if the section
/// grows beyond 32 bits; or `Memory`. The changes are as before then.
pub fn rename_export(
    parsed: &ParsedModule<'_>,
    changes: &mut Changes,
    name: &str,
    new_name: &str,
) -> Result<bool, ModuleError>
    ensures ok { (all : List SectionAt) → IsModule parsed.now.bytes.now all → IfOk result
        (IsExportRenamed name.now new_name.now (placed_contents all changes.old 7) changes.old changes.new) }
    ensures err { OnErr result (AreUnchanged changes.old changes.new) }
    // No export has the name of another.
    ensures free { (all : List SectionAt) → IsModule parsed.now.bytes.now all
        → OnOk result (¬ HasExportIn new_name.now (placed_contents all changes.old 7)) }
{
    match check_free(parsed, changes, new_name) {
        Ok(()) => {}
        Err(error) => return Err(error),
    }
    match find_export(parsed, changes, name) {
        Ok(Some(found)) => put_export(parsed, changes, new_name, found),
        Ok(None) => Ok(false),
        Err(error) => Err(error),
    }
}

/// Has the export with this name name another item: the one with this index in this index space, in the module that is written. It
/// isn't checked whether there is one. Returns whether there is such an export; if not, nothing is changed.
///
/// # Errors
///
/// `BadExportKind` if nothing in this space can be exported; the first fault of exports that a caller gave; `TooGreat` if the
/// section grows beyond 32 bits; or `Memory`. The changes are as before then.
pub fn replace_export(
    parsed: &ParsedModule<'_>,
    changes: &mut Changes,
    name: &str,
    space: Space,
    index: u32,
) -> Result<bool, ModuleError>
    ensures ok { (all : List SectionAt) → IsModule parsed.now.bytes.now all → IfOk result
        (IsExportReplaced name.now space index (placed_contents all changes.old 7) changes.old changes.new) }
    ensures err { OnErr result (AreUnchanged changes.old changes.new) }
{
    match find_export(parsed, changes, name) {
        Ok(Some(found)) => {
            let place = found.place;
            put_export(
                parsed,
                changes,
                name,
                PlacedExport {
                    place,
                    space,
                    index,
                },
            )
        }
        Ok(None) => Ok(false),
        Err(error) => Err(error),
    }
}
