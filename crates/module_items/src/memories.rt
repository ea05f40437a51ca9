//! The limits of memories that are changed (WebAssembly core specification 3.0, binary format, memory section).
ghost use Rattle.std.specs.Prelude.{◌≡◌, List, OnErr, IfOk};
ghost use Rattle.wasm_sections.specs.Additions.{AreUnchanged};
ghost use Rattle.wasm_sections.specs.Sections.{SectionAt, IsModule};
ghost use Rattle.wasm_sections.specs.declared.sections.SectionKind.TheVariants.{Memory as MemoryKind};
ghost use Rattle.module_items.specs.Replacing.{placed_contents, IsItemReplaced};
ghost use Rattle.module_items.specs.Renaming.{limits_written};

use crate::limits::{check_limits, limits_bytes};
use crate::replacing::{NewItems, replace};
use wasm_module::ParsedModule;
use wasm_sections::{Changes, Limits, ModuleError, SectionKind};

/// Sets the limits of the memory at this place of those that the module defines, counted from 0; imported ones aren't among them. Returns
/// whether there is such a memory; if not, nothing is changed.
///
/// # Errors
///
/// `BadLimits` for a shared memory without a maximum, and for sizes that don't fit its addresses; the first fault of memories that a
/// caller gave; `TooGreat` if the section grows beyond 32 bits; or `Memory`. The changes are as before then.
pub fn set_memory_limits(
    parsed: &ParsedModule<'_>,
    changes: &mut Changes,
    place: u32,
    limits: &Limits,
) -> Result<bool, ModuleError>
    ensures ok { (all : List SectionAt) → IsModule parsed.now.bytes.now all → IfOk result
        (IsItemReplaced MemoryKind place 1 (limits_written limits.now) (placed_contents all changes.old 5) changes.old changes.new) }
    ensures err { OnErr result (AreUnchanged changes.old changes.new) }
{
    match check_limits(limits, true) {
        Ok(()) => {}
        Err(error) => return Err(error),
    }
    let alloc = *changes.given.allocator();
    let bytes = match limits_bytes(alloc, limits) {
        Ok(bytes) => bytes,
        Err(error) => return Err(error),
    };
    replace(
        parsed,
        changes,
        SectionKind::Memory,
        place,
        NewItems::one(&bytes),
    )
}
