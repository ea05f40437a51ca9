//! The sections with debug information of a module.

ghost use Rattle.std.specs.Prelude.{ℕ, List, OnOk};
ghost use Rattle.std.specs.Io.KnownBytes.{Appends};
ghost use Rattle.module_debug.specs.Sections.{custom, AreDebugSections as AreSections};

use crate::moves::moves_of;
use crate::places::OperatorPlaces;
use dwarf::{DebugFailure, DebugSections, MovedSections, SectionName, move_sections};
use std::alloc::Global;
use std::io::Write;
use wasm_module::{ModuleError, ModuleFault, ParsedModule, SectionKind, WriteError};
use wasm_sections::{write_bytes, write_number};

/// A custom section with debug information in DWARF.
#[derive(Clone, Copy)]
pub struct DebugSection<'a> {
    /// Which it is.
    pub kind: SectionName,
    /// Its name, which begins with `.debug_`.
    pub name: &'a str,
    /// Its contents after its name.
    pub contents: &'a [u8],
}

impl DebugSection<'_> {
    /// Whether it may say where code is.
    pub fn names_code(&self) -> bool {
        self.kind != SectionName::Unmoved && self.kind != SectionName::Abbreviations
    }
}

/// The custom sections of a module with debug information in DWARF, in order.
///
/// # Errors
///
/// Out of memory; the module's sections were read before.
pub fn debug_sections<'a>(
    alloc: Global,
    parsed: &ParsedModule<'a>,
) -> Result<Vec<DebugSection<'a>>, ModuleError> {
    let mut found = Vec::new(alloc);
    for section in parsed.sections()? {
        let section = section?;
        if section.kind != SectionKind::Custom {
            continue;
        }
        let (name, input) = section.named_input()?;
        if let Some(kind) = SectionName::of(name) {
            found.push(DebugSection {
                kind,
                name,
                contents: input.rest(),
            })?;
        }
    }
    Ok(found)
}

/// Moves the debug information of a module that was written as these bytes, with its operators at these places.
///
/// # Errors
///
/// Why it can't be moved, and then nothing of it is; or out of memory.
pub fn move_debug(
    alloc: Global,
    parsed: &ParsedModule<'_>,
    sections: &[DebugSection<'_>],
    written: &[u8],
    places: &OperatorPlaces,
) -> Result<MovedSections, DebugFailure> {
    let mut contents = DebugSections::new(alloc);
    for section in sections {
        contents.add(section.kind, section.contents)?;
    }
    let moves = match moves_of(alloc, parsed, written, places) {
        Ok(moves) => moves,
        Err(error) => {
            return Err(DebugFailure {
                section: SectionName::Info,
                error,
            });
        }
    };
    move_sections(alloc, &contents, &moves)
}

/// Writes a custom section.
fn write_custom<W: Write>(
    alloc: Global,
    name: &str,
    contents: &[u8],
    out: &mut W,
) -> Result<(), WriteError>
    ensures { OnOk result (Appends (W.contents out.old) (W.contents out.new)
        (custom name.now contents.now)) }
{
    let mut front = Vec::new(alloc);
    write_bytes(&mut front, name.as_bytes())?;
    let Some(len) = front.len().checked_add(contents.len()) else {
        return Err(WriteError::from(ModuleError {
            fault: ModuleFault::TooGreat,
            at: 0,
        }));
    };
    let mut header = Vec::new(alloc);
    header.push(0)?;
    write_number(&mut header, len)?;
    out.write_all(&header)?;
    out.write_all(&front)?;
    out.write_all(contents)?;
    Ok(())
}

/// Writes the sections: with their new contents where they are moved, else with their own.
///
/// # Errors
///
/// Those of the writer; `TooGreat` if the size of a section doesn't fit 32 bits; or `Memory`.
pub fn write_debug<W: Write>(
    alloc: Global,
    sections: &[DebugSection<'_>],
    moved: Option<&MovedSections>,
    out: &mut W,
) -> Result<(), WriteError>
    ensures { OnOk result ((bytes : List ℕ) × AreSections sections.now bytes
        × Appends (W.contents out.old) (W.contents out.new) bytes) }
{
    'all: for section in sections {
        let new = match moved {
            Some(moved) => moved.contents_of(section.kind),
            None => None,
        };
        write_custom(alloc, section.name, new.unwrap_or(section.contents), out)?;
    }
    Ok(())
}
