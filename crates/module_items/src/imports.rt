//! Imports under other names (WebAssembly core specification 3.0, binary format, import section).
ghost use Rattle.std.specs.Prelude.{◌≡◌, ℕ, List, option_map, OnErr, IfOk, IfErr, MatchOption};
ghost use Rattle.wasm_numbers.specs.Results.{Gives};
ghost use Rattle.wasm_sections.specs.Additions.{AreUnchanged, IsTooMuch};
ghost use Rattle.wasm_sections.specs.Sections.{SectionAt, IsModule};
ghost use Rattle.module_items.specs.Replacing.{placed_contents};
ghost use Rattle.wasm_sections.specs.declared.sections.SectionKind.TheVariants.{Import as ImportKind};
ghost use Rattle.module_items.specs.Renaming.{description_part, import_written, HasItemAt, IsMadeOfItem, IsImportRenamed};

use crate::passing::front_of_item;
use crate::replacing::{NewItems, contents_with, replace};
use std::alloc::Global;
use wasm_module::ParsedModule;
use wasm_sections::{Changes, Input, ModuleError, SectionKind, write_bytes};

/// Reads an import, and returns what it is, as its bytes.
fn description<'a>(input: &mut Input<'a>) -> Result<&'a [u8], ModuleError>
    ensures same_end { input.new.end ≡ input.old.end }
    ensures is { Gives (λ bytes. (bytes.now, input.new.rest.now)) result
        (description_part input.old.end input.old.rest.now) }
{
    let mut names = *input;
    match names.name() {
        Ok(_) => {}
        Err(error) => return Err(error),
    }
    match names.name() {
        Ok(_) => {}
        Err(error) => return Err(error),
    }
    match input.import() {
        Ok(_) => Ok(names.until(input)),
        Err(error) => Err(error),
    }
}

/// What the import at this place of these contents is, as its bytes; None if there is no such import.
fn description_at<'a>(contents: Input<'a>, place: u32) -> Result<Option<&'a [u8]>, ModuleError>
    ensures { IfOk result (λ found. MatchOption found
        (¬ ((bytes : List ℕ) × HasItemAt ImportKind description_part place bytes contents.entry.end contents.entry.rest.now))
        (λ bytes. HasItemAt ImportKind description_part place bytes.now contents.entry.end contents.entry.rest.now)) }
{
    let mut left = match front_of_item(contents, SectionKind::Import, place) {
        Ok(Some(front)) => front,
        Ok(None) => return Ok(None),
        Err(error) => return Err(error),
    };
    match description(&mut left) {
        Ok(bytes) => Ok(Some(bytes)),
        Err(error) => Err(error),
    }
}

/// An import with these names.
#[tactic(auto, using(wasm_encode::proofs::Appending::appending))]
fn import_bytes(
    alloc: Global,
    from: &str,
    name: &str,
    description: &[u8],
) -> Result<Vec<u8>, ModuleError>
    ensures written { IfOk result (λ made. made.items ≡ import_written from.now name.now description.now) }
    ensures refused { IfErr result IsTooMuch }
{
    let mut out = Vec::new(alloc);
    match write_bytes(&mut out, from.as_bytes()) {
        Ok(()) => {}
        Err(error) => return Err(error),
    }
    match write_bytes(&mut out, name.as_bytes()) {
        Ok(()) => {}
        Err(error) => return Err(error),
    }
    out.extend_from_slice(description)?;
    Ok(out)
}

/// The import at this place, of the source with these changes, with other names; None if there is no such import.
fn renamed(
    parsed: &ParsedModule<'_>,
    changes: &Changes,
    place: u32,
    from: &str,
    name: &str,
) -> Result<Option<Vec<u8>>, ModuleError>
    ensures { (all : List SectionAt) → IsModule parsed.now.bytes.now all → IfOk result
        (λ made. IsMadeOfItem ImportKind description_part (import_written from.now name.now) place
        (placed_contents all changes.now 2) (option_map (λ v. v.items) made)) }
{
    let contents = match contents_with(parsed, changes, SectionKind::Import) {
        Ok(Some(contents)) => contents,
        Ok(None) => return Ok(None),
        Err(error) => return Err(error),
    };
    let made = match description_at(contents, place) {
        Ok(Some(description)) => {
            import_bytes(*changes.given.allocator(), from, name, description)
        }
        Ok(None) => return Ok(None),
        Err(error) => return Err(error),
    };
    match made {
        Ok(bytes) => Ok(Some(bytes)),
        Err(error) => Err(error),
    }
}

/// Gives the import at this place, counted from 0 over all imports, another module's name and another name. What it is stays, and so do
/// all indices. Returns whether there is such an import; if not, nothing is changed.
///
/// # Errors
///
/// The first fault of imports that a caller gave; `TooGreat` if the section grows beyond 32 bits; or `Memory`. The changes are as
/// before then.
pub fn rename_import(
    parsed: &ParsedModule<'_>,
    changes: &mut Changes,
    place: u32,
    from: &str,
    name: &str,
) -> Result<bool, ModuleError>
    ensures ok { (all : List SectionAt) → IsModule parsed.now.bytes.now all → IfOk result
        (IsImportRenamed place from.now name.now (placed_contents all changes.old 2) changes.old changes.new) }
    ensures err { OnErr result (AreUnchanged changes.old changes.new) }
{
    match renamed(parsed, changes, place, from, name) {
        Ok(Some(bytes)) => {
            replace(
                parsed,
                changes,
                SectionKind::Import,
                place,
                NewItems::one(&bytes),
            )
        }
        Ok(None) => Ok(false),
        Err(error) => Err(error),
    }
}
