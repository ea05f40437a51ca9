//! The sections of a module, item by item.
ghost use Rattle.std.specs.Prelude.{◌≡◌};
ghost use Rattle.wasm_sections.specs.Parts.{whole_part, GivesUnlessMemory};
ghost use Rattle.wasm_sections.specs.Sections.{section_id};
ghost use Rattle.module_context.specs.ReadContexts.{read_setting};
ghost use Rattle.module_validator.specs.Checks.{item_rule};
ghost use Rattle.module_validator.specs.ModuleRules.{operands_of_module, each_rule, section_rule};
ghost use Rattle.wasm_context.specs.Contexts.{without_locals};
ghost use Rattle.wasm_numbers.specs.Results.{Gives};
ghost use Rattle.wasm_sections.specs.Format.{limits_part, tag_part};
ghost use Rattle.wasm_sections.specs.Parts.{checked};
ghost use Rattle.module_context.specs.DeclaredItems.{import_type_part};
ghost use Rattle.module_validator.specs.ModuleRules.{import_rule, memory_rule, tag_rule};

use crate::bodies::check_bodies;
use crate::exports::check_exports;
use crate::faults::placed;
use crate::globals::check_globals;
use crate::limits::check_memory;
use crate::scratch::Scratch;
use crate::segments::{check_data_segment, check_element_segment};
use crate::start::check_start_section;
use crate::tables::check_table;
use crate::types::{check_import, check_tag};
use module_context::{ModuleContext, import_type};
use std::alloc::Global;
use wasm_context::Context;
use wasm_sections::{Input, ModuleError, Section, SectionKind};

/// Checks an import.
fn check_next_import(context: &Context, input: &mut Input<'_>) -> Result<(), ModuleError>
    ensures same_end { input.new.end ≡ input.old.end }
    ensures is { Gives (λ _. (tt, input.new.rest.now)) result (checked import_type_part
        (import_rule (without_locals context.now)) input.old.end input.old.rest.now) }
{
    let begin = *input;
    match import_type(input) {
        Ok(ty) => placed(&begin, check_import(context, ty)),
        Err(error) => Err(error),
    }
}

/// Checks a memory.
fn check_next_memory(input: &mut Input<'_>) -> Result<(), ModuleError>
    ensures same_end { input.new.end ≡ input.old.end }
    ensures is { Gives (λ _. (tt, input.new.rest.now)) result (checked limits_part memory_rule
        input.old.end input.old.rest.now) }
{
    let begin = *input;
    match input.limits() {
        Ok(limits) => placed(&begin, check_memory(limits)),
        Err(error) => Err(error),
    }
}

/// Checks a tag.
fn check_next_tag(context: &Context, input: &mut Input<'_>) -> Result<(), ModuleError>
    ensures same_end { input.new.end ≡ input.old.end }
    ensures is { Gives (λ _. (tt, input.new.rest.now)) result (checked tag_part
        (tag_rule (without_locals context.now)) input.old.end input.old.rest.now) }
{
    let begin = *input;
    match input.tag() {
        Ok(ty) => placed(&begin, check_tag(context, ty)),
        Err(error) => Err(error),
    }
}

/// Checks an item of a section of this kind.
fn check_item(
    setting: &ModuleContext,
    kind: SectionKind,
    input: &mut Input<'_>,
    scratch: &mut Scratch,
) -> Result<(), ModuleError>
    ensures same_end { input.new.end ≡ input.old.end }
    ensures is { GivesUnlessMemory (λ _. (tt, input.new.rest.now)) result (item_rule
        (section_id kind) (read_setting setting.now) input.old.end input.old.rest.now) }
{
    match kind {
        SectionKind::Import => check_next_import(&setting.context, input),
        SectionKind::Table => check_table(setting, input, scratch),
        SectionKind::Memory => check_next_memory(input),
        SectionKind::Element => check_element_segment(setting, input, scratch),
        SectionKind::Tag => check_next_tag(&setting.context, input),
        _ => check_data_segment(setting, input, scratch),
    }
}

/// Checks the items of a section of this kind.
fn check_items(
    setting: &ModuleContext,
    kind: SectionKind,
    mut input: Input<'_>,
    scratch: &mut Scratch,
) -> Result<(), ModuleError>
    ensures { GivesUnlessMemory (λ _. tt) result (whole_part (each_rule (item_rule
        (section_id kind) (read_setting setting.now))) input.entry.end input.entry.rest.now) }
{
    let count = match input.number() {
        Ok(count) => count,
        Err(error) => return Err(error),
    };
    'items: for _ in 0..count {
        match check_item(setting, kind, &mut input, scratch) {
            Ok(()) => {}
            Err(error) => return Err(error),
        }
    }
    input.finish()
}

/// Checks a section.
pub(crate) fn check_section(
    alloc: Global,
    setting: &ModuleContext,
    section: &Section<'_>,
    scratch: &mut Scratch,
) -> Result<(), ModuleError>
    ensures { GivesUnlessMemory (λ _. tt) result (section_rule (read_setting setting.now)
        (section_id section.now.kind) tt section.now.contents.end
        section.now.contents.rest.now) }
{
    match section.kind {
        SectionKind::Global => check_globals(setting, section.contents, scratch),
        SectionKind::Export => check_exports(alloc, section.contents),
        SectionKind::Start => check_start_section(&setting.context, section.contents),
        SectionKind::Code => check_bodies(setting, section.contents, scratch),
        SectionKind::Custom | SectionKind::Type | SectionKind::Function | SectionKind::DataCount =>
            Ok(()),
        kind => check_items(setting, kind, section.contents, scratch),
    }
}
