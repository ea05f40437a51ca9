//! How many items a module has.

ghost use Rattle.std.specs.Prelude.{◌≡◌, None, OnOk, IfOk};
ghost use Rattle.module_removal.specs.Counting.{CountsImport, CountsDefined, CountsContents, AreCountsOf};
ghost use Rattle.module_removal.specs.ModuleSteps.{ThroughVector};
ghost use Rattle.module_removal.specs.Written.{section_space};

use crate::copier::Copier;
use crate::item::ItemCounts;
use crate::parts::done;
use std::alloc::Global;
use wasm_ops::Space;
use wasm_sections::{Input, ModuleError, Section, SectionKind, Sections, count_types};

/// The index space of the items that a section of this kind defines.
pub(crate) fn defined_space(kind: SectionKind) -> Option<Space>
    ensures { result ≡ section_space kind }
{
    match kind {
        SectionKind::Function => Some(Space::Funcs),
        SectionKind::Table => Some(Space::Tables),
        SectionKind::Memory => Some(Space::Memories),
        SectionKind::Tag => Some(Space::Tags),
        SectionKind::Global => Some(Space::Globals),
        SectionKind::Element => Some(Space::Elements),
        SectionKind::Data => Some(Space::Data),
        _ => None,
    }
}

/// Counts the next import.
fn count_import(
    copier: &mut Copier<'_>,
    input: &mut Input<'_>,
    counts: &mut ItemCounts,
) -> Result<(), ModuleError>
    ensures same_end { input.new.end ≡ input.old.end }
    ensures same_left { OnOk result (copier.new.left ≡ copier.old.left) }
    ensures is { copier.old.left ≡ None → OnOk result
        (CountsImport input.old.end (counts.old, input.old.rest.now) (counts.new, input.new.rest.now)) }
{
    copier.clear();
    let space = done!(copier.import(input));
    counts.add(space);
    Ok(())
}

/// Counts the imports of a section with these contents.
fn count_imports(
    alloc: Global,
    contents: Input<'_>,
    counts: &mut ItemCounts,
) -> Result<(), ModuleError>
    ensures { OnOk result
        (ThroughVector CountsImport contents.entry.end contents.entry.rest.now counts.old counts.new) }
{
    let mut input = contents;
    let mut copier = Copier::finding(alloc);
    let count = done!(input.number());
    'imports: for _ in 0..count {
        done!(count_import(&mut copier, &mut input, counts));
    }
    Ok(())
}

/// Counts the items of this space that a section with these contents defines, if it defines any.
fn count_defined(
    space: Option<Space>,
    contents: Input<'_>,
    counts: &mut ItemCounts,
) -> Result<(), ModuleError>
    ensures { OnOk result
        (CountsDefined space contents.entry.end contents.entry.rest.now counts.old counts.new) }
{
    let Some(space) = space else {
        return Ok(());
    };
    let mut input = contents;
    let count = done!(input.number());
    counts.add_all(space, count as usize);
    Ok(())
}

/// Counts the items of a section.
fn count_section(
    alloc: Global,
    section: &Section<'_>,
    counts: &mut ItemCounts,
) -> Result<(), ModuleError>
    ensures { OnOk result (CountsContents section.now.kind section.now.contents.end
        section.now.contents.rest.now counts.old counts.new) }
{
    match section.kind {
        SectionKind::Type => {
            counts.types = done!(count_types(alloc, section.contents));
            Ok(())
        }
        SectionKind::Import => count_imports(alloc, section.contents, counts),
        kind => count_defined(defined_space(kind), section.contents, counts),
    }
}

/// The numbers of items of a module with these bytes.
pub(crate) fn count_items(alloc: Global, bytes: &[u8]) -> Result<ItemCounts, ModuleError>
    ensures { IfOk result (AreCountsOf bytes.now) }
{
    let mut counts = ItemCounts::none();
    let sections = done!(Sections::new(bytes));
    'sections: for section in sections {
        let section = done!(section);
        done!(count_section(alloc, &section, &mut counts));
    }
    Ok(counts)
}
