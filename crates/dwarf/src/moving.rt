//! Moving the sections of debug information.

ghost use Rattle.std.specs.Prelude.{◌≡◌, ◌++◌, ◌∷◌, [], ℕ, List as AList, Ok, Err, option_map, OnOk, IfOk, IfErr};
ghost use Rattle.wasm_numbers.specs.Results.{each};
ghost use Rattle.dwarf_bytes.specs.declared.fault.DebugError.TheVariants.{Memory, Fault};
ghost use Rattle.dwarf_bytes.specs.Patches.{changes};
ghost use Rattle.dwarf_line.specs.declared.moved.Moved.{Moved as AMoved};
ghost use Rattle.dwarf_line.specs.Refusals.{IsRefusal};
ghost use Rattle.dwarf_info.specs.EntryViews.{entries_moved};
ghost use Rattle.dwarf_info.specs.Sound.{Ascend};
ghost use Rattle.dwarf.specs.declared.sections.SectionName.TheVariants as names;
ghost use Rattle.dwarf.specs.AddressRanges.{code_followed};
ghost use Rattle.dwarf.specs.Macros.{macro_section_followed};
ghost use Rattle.dwarf.specs.IndexEntries.{name_index_followed};
ghost use Rattle.dwarf.specs.Names.{names_followed};
ghost use Rattle.dwarf.specs.Replacing.{section_with};
ghost use Rattle.dwarf.specs.Sections.{NamedContents, contents_by_name, contents_named, moved_contents, IsFirstNamed};
ghost use Rattle.dwarf.specs.MovedDebug.{section_read, IsFailureOf, section_followed, name_followers, name_sections_moved, last_sections_moved, AreOthersMoved, AreOthersNotMoved, AreLinesMoved, AreSectionsMoved, AreSectionsNotMoved};
ghost use Rattle.dwarf.specs.MovedDebugViews.{debug_setting, entries_of_module};

use crate::address_ranges::move_address_ranges;
use crate::failure::{DebugFailure, within};
use crate::macros::follow_macros;
use crate::moved_entries::{AllEntries, check_names_in_expressions, move_addresses};
use crate::moved_lists::MovedLists;
use crate::moved_units::add_units;
use crate::name_index::follow_name_index;
use crate::names::follow_names;
use crate::replacing::replaced;
use crate::sections::{DebugSections, SectionName};
use code_moves::Moves;
use dwarf_bytes::{AddressUses, DebugError, Patches};
use dwarf_line::{Moved, MovedLines, move_lines};
use std::alloc::Global;

/// A section with its new contents.
#[derive(Drop)]
struct MovedSection {
    name: SectionName,
    contents: Vec<u8>,
}

/// The new contents of sections.
#[derive(Drop)]
pub struct MovedSections {
    sections: Vec<MovedSection>,
}

impl MovedSections {
    /// The new contents of a section; None if they are those of the source.
    pub fn contents_of(&self, name: SectionName) -> Option<&[u8]>
        ensures { IsFirstNamed (moved_contents self.now.sections.items) name (option_map (λ bytes. bytes.now) result) }
    {
        'sections: for section in &self.sections {
            if section.name == name {
                return Some(section.contents.as_slice());
            }
        }
        None
    }

    /// Adds the new contents of a section.
    pub(crate) fn add(&mut self, name: SectionName, contents: Vec<u8>) -> Result<(), DebugFailure>
        ensures added { OnOk result (moved_contents self.new.sections.items ≡ moved_contents self.old.sections.items ++ (name, contents.items) ∷ []) }
        ensures memory { IfErr result (λ f. f.error ≡ Memory) }
    {
        match self.sections.push(MovedSection { name, contents }) {
            Ok(()) => Ok(()),
            Err(_) => Err(DebugFailure {
                section: name,
                error: DebugError::Memory,
            }),
        }
    }
}

/// Adds the addresses that are named by index, of which these parts are replaced.
fn add_addresses(
    alloc: Global,
    sections: &DebugSections<'_>,
    addresses: &Patches,
    out: &mut MovedSections,
) -> Result<(), DebugFailure>
    ensures added { OnOk result ((one : NamedContents)
        × (section_followed (contents_by_name sections.now.sections.items) (names.Addresses, section_with (changes addresses.now)) ≡ Ok one)
        × (moved_contents out.new.sections.items ≡ moved_contents out.old.sections.items ++ one ∷ [])) }
    ensures refused { IfErr result (IsFailureOf (λ section fault.
        section_followed (contents_by_name sections.now.sections.items) (names.Addresses, section_with (changes addresses.now)) ≡ Err (section, fault))) }
{
    let name = SectionName::Addresses;
    let contents = within(name, replaced(alloc, sections.get(name), addresses))?;
    out.add(name, contents)?;
    Ok(())
}

/// Adds the index of names.
fn add_name_index(
    alloc: Global,
    sections: &DebugSections<'_>,
    info: &Patches,
    out: &mut MovedSections,
) -> Result<(), DebugFailure>
    ensures added { OnOk result ((one : NamedContents)
        × (section_followed (contents_by_name sections.now.sections.items) (names.NameIndex, name_index_followed (changes info.now)) ≡ Ok one)
        × (moved_contents out.new.sections.items ≡ moved_contents out.old.sections.items ++ one ∷ [])) }
    ensures refused { IfErr result (IsFailureOf (λ section fault.
        section_followed (contents_by_name sections.now.sections.items) (names.NameIndex, name_index_followed (changes info.now)) ≡ Err (section, fault))) }
{
    let name = SectionName::NameIndex;
    let contents = within(name, follow_name_index(alloc, sections.get(name), info))?;
    out.add(name, contents)?;
    Ok(())
}

/// Adds a section of tables of names.
fn add_name_tables(
    alloc: Global,
    sections: &DebugSections<'_>,
    name: SectionName,
    is_gnu: bool,
    info: &Patches,
    out: &mut MovedSections,
) -> Result<(), DebugFailure>
    ensures added { OnOk result ((one : NamedContents)
        × (section_followed (contents_by_name sections.now.sections.items) (name, names_followed (changes info.now) is_gnu) ≡ Ok one)
        × (moved_contents out.new.sections.items ≡ moved_contents out.old.sections.items ++ one ∷ [])) }
    ensures refused { IfErr result (IsFailureOf (λ section fault.
        section_followed (contents_by_name sections.now.sections.items) (name, names_followed (changes info.now) is_gnu) ≡ Err (section, fault))) }
{
    let contents = within(name, follow_names(alloc, sections.get(name), is_gnu, info))?;
    out.add(name, contents)?;
    Ok(())
}

/// Adds the address ranges.
fn add_address_ranges(
    alloc: Global,
    sections: &DebugSections<'_>,
    entries: &AllEntries<'_>,
    moves: &Moves,
    out: &mut MovedSections,
) -> Result<(), DebugFailure>
    ensures added { OnOk result ((one : NamedContents)
        × (section_followed (contents_by_name sections.now.sections.items) (
          names.AddressRanges,
          code_followed moves.now.bodies.items (entries_moved entries.now.info).code (entries_moved entries.now.info).changes,
        ) ≡ Ok one)
        × (moved_contents out.new.sections.items ≡ moved_contents out.old.sections.items ++ one ∷ [])) }
    ensures refused { IfErr result (IsFailureOf (λ section fault.
        section_followed (contents_by_name sections.now.sections.items) (
          names.AddressRanges,
          code_followed moves.now.bodies.items (entries_moved entries.now.info).code (entries_moved entries.now.info).changes,
        ) ≡ Err (section, fault))) }
{
    let name = SectionName::AddressRanges;
    let code = entries.info.code();
    let info = entries.info.patches();
    let contents = within(
        name,
        move_address_ranges(alloc, sections.get(name), code, info, moves),
    )?;
    out.add(name, contents)?;
    Ok(())
}

/// Adds the sections of names.
fn add_all_names(
    alloc: Global,
    sections: &DebugSections<'_>,
    info: &Patches,
    out: &mut MovedSections,
) -> Result<(), DebugFailure>
    ensures added { OnOk result ((news : AList NamedContents)
        × (each (section_followed (contents_by_name sections.now.sections.items)) (name_followers (changes info.now)) ≡ Ok news)
        × (moved_contents out.new.sections.items ≡ moved_contents out.old.sections.items ++ news)) }
    ensures refused { IfErr result (IsFailureOf (λ section fault.
        each (section_followed (contents_by_name sections.now.sections.items)) (name_followers (changes info.now)) ≡ Err (section, fault))) }
{
    add_name_index(alloc, sections, info, out)?;
    let name = SectionName::PublicNames;
    add_name_tables(alloc, sections, name, false, info, out)?;
    let name = SectionName::PublicTypes;
    add_name_tables(alloc, sections, name, false, info, out)?;
    let name = SectionName::GnuPublicNames;
    add_name_tables(alloc, sections, name, true, info, out)?;
    let name = SectionName::GnuPublicTypes;
    add_name_tables(alloc, sections, name, true, info, out)?;
    Ok(())
}

/// Adds the sections of names, if entries are at other places.
fn add_names(
    alloc: Global,
    sections: &DebugSections<'_>,
    info: &Patches,
    out: &mut MovedSections,
) -> Result<(), DebugFailure>
    ensures added { OnOk result ((news : AList NamedContents)
        × (name_sections_moved (contents_by_name sections.now.sections.items) (changes info.now) ≡ Ok news)
        × (moved_contents out.new.sections.items ≡ moved_contents out.old.sections.items ++ news)) }
    ensures refused { IfErr result (IsFailureOf (λ section fault.
        name_sections_moved (contents_by_name sections.now.sections.items) (changes info.now) ≡ Err (section, fault))) }
{
    if info.resizes() {
        return add_all_names(alloc, sections, info, out);
    }
    Ok(())
}

/// Adds the sections after the units.
fn add_last(
    alloc: Global,
    sections: &DebugSections<'_>,
    moves: &Moves,
    entries: &AllEntries<'_>,
    addresses: &Patches,
    out: &mut MovedSections,
) -> Result<(), DebugFailure>
    ensures added { OnOk result ((news : AList NamedContents)
        × (last_sections_moved (debug_setting sections.now moves.now) (entries_of_module entries.now) (changes addresses.now) ≡ Ok news)
        × (moved_contents out.new.sections.items ≡ moved_contents out.old.sections.items ++ news)) }
    ensures refused { IfErr result (IsFailureOf (λ section fault.
        last_sections_moved (debug_setting sections.now moves.now) (entries_of_module entries.now) (changes addresses.now) ≡ Err (section, fault))) }
{
    add_addresses(alloc, sections, addresses, out)?;
    let info = entries.info.patches();
    add_names(alloc, sections, info, out)?;
    add_address_ranges(alloc, sections, entries, moves, out)?;
    Ok(())
}

/// What becomes of the sections of a module whose code moves so, but for line tables, which go there.
fn move_others(
    alloc: Global,
    sections: &DebugSections<'_>,
    moves: &Moves,
    tables: &[Moved],
    out: &mut MovedSections,
) -> Result<(), DebugFailure>
    ensures moved { OnOk result ((news : AList NamedContents)
        × AreOthersMoved (debug_setting sections.now moves.now) tables.now news
        × (moved_contents out.new.sections.items ≡ moved_contents out.old.sections.items ++ news)) }
    ensures refused { IfErr result (IsFailureOf (AreOthersNotMoved (debug_setting sections.now moves.now) tables.now)) }
{
    let entries = AllEntries::moved(alloc, sections, moves, tables)?;
    let mut uses = AddressUses::new(alloc);
    let lists = MovedLists::moved(alloc, sections, &entries, moves, &mut uses, out)?;
    check_names_in_expressions(&entries)?;
    let name = SectionName::Addresses;
    let addresses = within(name, move_addresses(alloc, uses, &entries))?;
    add_units(alloc, sections, &entries, &lists, &addresses, out)?;
    add_last(alloc, sections, moves, &entries, &addresses, out)?;
    Ok(())
}

/// Adds the macros.
fn add_macros(
    alloc: Global,
    sections: &DebugSections<'_>,
    tables: &[Moved],
    out: &mut MovedSections,
) -> Result<(), DebugFailure>
    requires { Ascend (λ (m : AMoved). m.old) 0 tables.now }
    ensures added { OnOk result ((macros : AList ℕ)
        × (macro_section_followed tables.now (contents_named (contents_by_name sections.now.sections.items) names.Macros) ≡ Ok macros)
        × (moved_contents out.new.sections.items ≡ moved_contents out.old.sections.items ++ (names.Macros, macros) ∷ [])) }
    ensures refused { IfErr result (IsFailureOf (λ section fault. (section ≡ names.Macros)
        × (macro_section_followed tables.now (contents_named (contents_by_name sections.now.sections.items) names.Macros) ≡ Err fault))) }
{
    let name = SectionName::Macros;
    let contents = within(name, follow_macros(alloc, sections.get(name), tables))?;
    out.add(name, contents)?;
    Ok(())
}

/// What becomes of the line tables, and where they go.
fn moved_lines(
    alloc: Global,
    sections: &DebugSections<'_>,
    moves: &Moves,
) -> Result<MovedLines, DebugFailure>
    ensures moved { IfOk result (λ lines. AreLinesMoved (debug_setting sections.now moves.now) lines.bytes.items lines.tables.items) }
    ensures refused { IfErr result (IsFailureOf (λ section fault. (section ≡ names.Lines)
        × IsRefusal (section_read (debug_setting sections.now moves.now) names.Lines) (Fault fault))) }
{
    let name = SectionName::Lines;
    let lines = within(name, move_lines(alloc, sections.get(name), moves))?;
    Ok(lines)
}

/// What becomes of the sections of a module whose code moves so.
///
/// # Errors
///
/// The first fault of a section, or what of it can't be moved; or out of memory. Nothing is moved then.
pub fn move_sections(
    alloc: Global,
    sections: &DebugSections<'_>,
    moves: &Moves,
) -> Result<MovedSections, DebugFailure>
    ensures moved { IfOk result (λ out. AreSectionsMoved (debug_setting sections.now moves.now) (moved_contents out.sections.items)) }
    ensures refused { IfErr result (IsFailureOf (AreSectionsNotMoved (debug_setting sections.now moves.now))) }
{
    let mut out = MovedSections {
        sections: Vec::new(alloc),
    };
    let lines = moved_lines(alloc, sections, moves)?;
    let MovedLines { bytes, tables, .. } = lines;
    out.add(SectionName::Lines, bytes)?;
    add_macros(alloc, sections, &tables, &mut out)?;
    move_others(alloc, sections, moves, &tables, &mut out)?;
    Ok(out)
}
