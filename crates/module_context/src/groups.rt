//! The type section (WebAssembly core specification 3.0, binary format, modules).

ghost use Rattle.std.specs.Prelude.{◌≡◌, List, [], map};
ghost use Rattle.wasm_numbers.specs.Results.{Gives};
ghost use Rattle.wasm_context.specs.Contexts.{defined_of};
ghost use Rattle.wasm_context.specs.Declarations.{declared_of};
ghost use Rattle.wasm_context.specs.Definitions.{IsDefining};
ghost use Rattle.wasm_typing.specs.RecursiveTypes.{Group};
ghost use Rattle.wasm_sections.specs.Format.{members_part};
ghost use Rattle.wasm_sections.specs.Parts.{GivesUnlessMemory};
ghost use Rattle.module_context.specs.ReadContexts.{DefinesGroups, DefinesTypes};
ghost use Rattle.module_context.specs.TypeSections.{group_part, with_group, groups_part, type_groups, section_types};

use crate::composite_types::declared_type;
use crate::faults::INVALID_TYPE;
use std::alloc::Global;
use wasm_context::{DeclaredType, DefinedType, Definitions, are_below};
use wasm_sections::{Input, ModuleError, ModuleFault};

/// One more than the greatest number of types.
const TYPE_LIMIT: usize = 1 << 32;

/// The number of types of a recursive group; a type alone is one.
fn member_count(input: &mut Input<'_>) -> Result<u32, ModuleError>
    ensures same_end { input.new.end ≡ input.old.end }
    ensures is { Gives (λ n. (n, input.new.rest.now)) result (members_part input.old.end
        input.old.rest.now) }
{
    if !matches!(input.rest(), [0x4e, ..]) {
        return Ok(1);
    }
    match input.byte() {
        Ok(_) => input.number(),
        Err(error) => Err(error),
    }
}

/// A recursive group.
fn read_group(alloc: Global, input: &mut Input<'_>) -> Result<Vec<DeclaredType>, ModuleError>
    ensures same_end { input.new.end ≡ input.old.end }
    ensures is { GivesUnlessMemory (λ types. (map declared_of types.items, input.new.rest.now)) result
        (group_part input.old.end input.old.rest.now) }
{
    let count = match member_count(input) {
        Ok(count) => count,
        Err(error) => return Err(error),
    };
    let mut types = Vec::new(alloc);
    'members: for _ in 0..count {
        match declared_type(alloc, input) {
            Ok(ty) => types.push(ty)?,
            Err(error) => return Err(error),
        }
    }
    Ok(types)
}

/// Reads a recursive group, and defines its types. `INVALID_TYPE` if one of them names a type after the group's
/// last, and `TooGreat` if there are 2^32 types.
fn define_group(
    alloc: Global,
    input: &mut Input<'_>,
    definitions: &mut Definitions,
) -> Result<(), ModuleError>
    ensures same_end { input.new.end ≡ input.old.end }
    ensures is { (groups : List Group) → IsDefining definitions.old groups
        → DefinesGroups definitions.new input.new.rest.now result (with_group groups input.old.end
        input.old.rest.now) }
{
    let begin = *input;
    let group = match read_group(alloc, input) {
        Ok(group) => group,
        Err(error) => return Err(error),
    };
    let end = definitions.context.types.len().saturating_add(group.len());
    if end >= TYPE_LIMIT {
        return Err(begin.fault(ModuleFault::TooGreat));
    }
    if !are_below(&group, end as u32) {
        return Err(begin.fault(INVALID_TYPE));
    }
    definitions.add(group)?;
    Ok(())
}

/// Reads the groups of a type section, and defines their types. No type is defined before.
fn define_groups(
    alloc: Global,
    input: &mut Input<'_>,
    definitions: &mut Definitions,
) -> Result<(), ModuleError>
    ensures same_end { input.new.end ≡ input.old.end }
    ensures is { IsDefining definitions.old [] → DefinesGroups definitions.new input.new.rest.now result
        (groups_part input.old.end input.old.rest.now) }
{
    let count = match input.number() {
        Ok(count) => count,
        Err(error) => return Err(error),
    };
    'groups: for _ in 0..count {
        match define_group(alloc, input, definitions) {
            Ok(()) => {}
            Err(error) => return Err(error),
        }
    }
    Ok(())
}

/// Reads the contents of a type section, and defines their types, which have to be valid. No type is defined before.
fn define_types(
    alloc: Global,
    mut input: Input<'_>,
    definitions: &mut Definitions,
) -> Result<(), ModuleError>
    ensures { IsDefining definitions.old [] → DefinesTypes definitions.new result (type_groups
        input.entry.end input.entry.rest.now) }
{
    let begin = input;
    match define_groups(alloc, &mut input, definitions) {
        Ok(()) => {}
        Err(error) => return Err(error),
    }
    if !definitions.are_valid() {
        return Err(begin.fault(INVALID_TYPE));
    }
    input.finish()
}

/// The types of a type section with these contents.
///
/// # Errors
///
/// The first fault of the contents. `INVALID_TYPE` where they begin if a supertype isn't valid, and where a group
/// begins if it names a type after its last; `TooGreat` there if there are 2^32 types; or `Memory`.
pub(crate) fn types_of(alloc: Global, input: Input<'_>) -> Result<Vec<DefinedType>, ModuleError>
    ensures { GivesUnlessMemory (λ types. map defined_of types.items) result (section_types
        input.entry.end input.entry.rest.now) }
{
    let mut definitions = Definitions::new(alloc);
    match define_types(alloc, input, &mut definitions) {
        Ok(()) => Ok(definitions.into_types()),
        Err(error) => Err(error),
    }
}
