//! Where the source map of a module is: a custom section `sourceMappingURL` (WebAssembly tool
//! conventions, source maps).

ghost use Rattle.std.specs.Prelude.{◌≡◌, IfOk, OnOk};
ghost use Rattle.std.specs.Io.KnownBytes.{Appends};
ghost use Rattle.wasm_sections.specs.Sections.{section as whole_section};
ghost use Rattle.wasm_module.specs.WrittenModules.{url_contents};

use crate::writing::{WriteError, put_section};
use std::alloc::Global;
use std::io::Write;
use wasm_sections::{ModuleError, SectionKind, write_bytes};

/// The contents of a custom section `sourceMappingURL` of this URL.
fn contents_of(alloc: Global, url: &str) -> Result<Vec<u8>, ModuleError>
    ensures { IfOk result (λ contents. contents.items ≡ url_contents url.now) }
{
    let mut contents = Vec::new(alloc);
    match write_bytes(&mut contents, "sourceMappingURL".as_bytes()) {
        Ok(()) => {}
        Err(error) => return Err(error),
    }
    match write_bytes(&mut contents, url.as_bytes()) {
        Ok(()) => Ok(contents),
        Err(error) => Err(error),
    }
}

/// Writes a custom section `sourceMappingURL` of this URL, after a module that was written.
///
/// # Errors
///
/// Those of the writer; `TooGreat` if the number of bytes doesn't fit 32 bits; or `Memory`.
#[tactic(auto, using(crate::proofs::WritingLemmas::appends_section))]
pub fn write_source_map_url<W: Write>(
    alloc: Global,
    url: &str,
    out: &mut W,
) -> Result<(), WriteError>
    ensures { OnOk result (Appends (W.contents out.old) (W.contents out.new)
        (whole_section 0 (url_contents url.now))) }
{
    let contents = match contents_of(alloc, url) {
        Ok(contents) => contents,
        Err(error) => return Err(WriteError::from(error)),
    };
    match put_section(alloc, SectionKind::Custom, &contents, 0, out) {
        Ok(_) => Ok(()),
        Err(error) => Err(error),
    }
}
