//! Custom sections: one that is read, and one that is added (WebAssembly core specification 3.0, binary format, custom section).
ghost use Rattle.std.specs.Prelude.{◌≡◌, ◌++◌, List, option_map, IfOk, OnOk, IfErr};
ghost use Rattle.wasm_sections.specs.Additions.{IsTooMuch};
ghost use Rattle.wasm_sections.specs.CodeSections.{entry};
ghost use Rattle.wasm_sections.specs.Sections.{SectionAt, IsModule, section_at, section as whole_section};
ghost use Rattle.module_items.specs.CustomSections.{IsFirstCustom, IsCustomSection};

use std::alloc::Global;
use wasm_module::ParsedModule;
use wasm_sections::{ModuleError, Section, SectionKind, Sections, write_bytes};

/// The contents of a section after its name, if it is a custom section with this name.
fn contents_if_named<'a>(section: &Section<'a>, name: &str) -> Result<Option<&'a [u8]>, ModuleError>
    ensures { IfOk result (λ found. IsCustomSection name.now (section_at section.now) (option_map (λ s. s.now) found)) }
{
    if section.kind != SectionKind::Custom {
        return Ok(None);
    }
    match section.named_contents() {
        Ok((own, contents)) => {
            if own == name {
                Ok(Some(contents))
            } else {
                Ok(None)
            }
        }
        Err(error) => Err(error),
    }
}

/// The contents of the first custom section with this name, without the name; None if there is none.
///
/// # Errors
///
/// None, since the sections were read before.
pub fn custom_section<'a>(
    parsed: &ParsedModule<'a>,
    name: &str,
) -> Result<Option<&'a [u8]>, ModuleError>
    ensures { (all : List SectionAt) → IsModule parsed.now.bytes.now all
        → IfOk result (λ found. IsFirstCustom name.now all (option_map (λ s. s.now) found)) }
{
    let sections = match Sections::new(parsed.bytes()) {
        Ok(sections) => sections,
        Err(error) => return Err(error),
    };
    'sections: for section in sections {
        let section = match section {
            Ok(section) => section,
            Err(error) => return Err(error),
        };
        match contents_if_named(&section, name) {
            Ok(Some(contents)) => return Ok(Some(contents)),
            Ok(None) => {}
            Err(error) => return Err(error),
        }
    }
    Ok(None)
}

/// Appends a custom section with this name and these contents to a module that was written. With `omit_custom_section` before, it takes the
/// place of the section of that name.
///
/// # Errors
///
/// `TooGreat` if the number of bytes doesn't fit 32 bits; or `Memory`. A part of the section may have been appended then.
#[tactic(auto, using(wasm_encode::proofs::Appending::appending))]
pub fn put_custom_section(
    alloc: Global,
    name: &str,
    contents: &[u8],
    out: &mut Vec<u8>,
) -> Result<(), ModuleError>
    ensures written { OnOk result (out.new.items ≡ out.old.items ++ whole_section 0 (entry name.now ++ contents.now)) }
    ensures refused { IfErr result IsTooMuch }
{
    let mut whole = Vec::new(alloc);
    match write_bytes(&mut whole, name.as_bytes()) {
        Ok(()) => {}
        Err(error) => return Err(error),
    }
    whole.extend_from_slice(contents)?;
    out.push(0)?;
    write_bytes(out, &whole)
}
