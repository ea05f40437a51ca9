//! A module without the items that are removed.

ghost use Rattle.std.specs.Prelude.{◌≡◌, ◌++◌, Ok, Err, OnOk, IfOk, IfErr};
ghost use Rattle.wasm_sections.specs.Additions.{IsTooMuch};
ghost use Rattle.module_removal.specs.Refusals.{StopsAtModule, IsRefusedModule};
ghost use Rattle.wasm_sections.specs.Format.{name_part};
ghost use Rattle.wasm_sections.specs.Sections.{section, section_id};
ghost use Rattle.module_removal.specs.LeftSections.{HasNoItems, WritesModule, IsModuleOfLeft};

use crate::code::LeftCode;
use crate::copier::Copier;
use crate::counting::defined_space;
use crate::declared::put_declarations;
use crate::followed::{is_metadata, is_names};
use crate::item::{Item, ItemCounts};
use crate::names::left_names;
use crate::parts::{done, group_members};
use crate::remainder::Remainder;
use std::alloc::Global;
use wasm_encode as encoded;
use wasm_ops::Space;
use wasm_sections::{
    Input, ModuleError, ModuleFault, PREAMBLE, Section, SectionKind, Sections, names_debug,
    names_object, write_bytes, write_number,
};

/// A module while what is left of it is written.
#[derive(Drop)]
struct Writer<'m> {
    alloc: Global,
    remainder: &'m Remainder,
    code: &'m LeftCode,
    /// The numbers of items of the sections that were written.
    next: ItemCounts,
    /// The item that is copied.
    kept: Copier<'m>,
    /// One that is passed over.
    passed: Copier<'m>,
    /// The items of a section that are left.
    items: Vec<u8>,
    count: usize,
    /// Whether the section of element segments was written, or its place was passed.
    has_elements: bool,
    out: Vec<u8>,
}

/// Appends a section with these contents.
#[tactic(auto, using(wasm_encode::proofs::Appending::appending))]
fn put_section(out: &mut Vec<u8>, kind: SectionKind, contents: &[u8]) -> Result<(), ModuleError>
    ensures written { OnOk result (out.new.items ≡ out.old.items ++ section (section_id kind) contents.now) }
    ensures err { IfErr result IsTooMuch }
{
    out.push(kind.id())?;
    write_bytes(out, contents)
}

/// The name of a custom section, and the contents that follow it.
fn named_contents<'a>(section: &Section<'a>) -> Result<(&'a str, Input<'a>), ModuleError>
    ensures end { IfOk result (λ x. x.1.end ≡ section.now.contents.end) }
    ensures is { IfOk result (λ x. name_part section.now.contents.end section.now.contents.rest.now ≡ Ok (x.0.now, x.1.rest.now)) }
    ensures err { IfErr result (λ error. name_part section.now.contents.end section.now.contents.rest.now ≡ Err error) }
{
    let mut contents = section.contents;
    match contents.name() {
        Ok(name) => Ok((name, contents)),
        Err(error) => Err(error),
    }
}

impl<'m> Writer<'m> {
    ghost use Rattle.std.specs.Prelude.{◌≡◌, ◌++◌, ℕ, List, Ok, OnOk, IfOk, IfErr, codes};
    ghost use Rattle.wasm_sections.specs.declared.fault.ModuleFault.TheVariants.{Memory as NoMemory};
    ghost use Rattle.wasm_sections.specs.declared.sections.SectionKind.TheVariants.{Start as OfStart};
    ghost use Rattle.wasm_sections.specs.Additions.{IsTooMuch};
    ghost use Rattle.item_sets.specs.ItemsLeft.{is_left, left_count};
    ghost use Rattle.wasm_operators.specs.declared.types.Space.TheVariants.{Types as OfTypes, Data as OfData, Funcs as OfFuncs};
    ghost use Rattle.wasm_sections.specs.Sections.{section, section_id, section_at};
    ghost use Rattle.module_removal.specs.ItemNumbers.{count_of, counted_more, with_more_items};
    ghost use Rattle.module_removal.specs.LeftSpaces.{marks_of, index_written};
    ghost use Rattle.module_removal.specs.CopiedParts.{Copied, copied_index};
    ghost use Rattle.module_removal.specs.CopiedItems.{copied_export, copied_defined};
    ghost use Rattle.wasm_sections.specs.CodeSections.{entry};
    ghost use Rattle.module_removal.specs.LeftNames.{AreLeftNames};
    ghost use Rattle.module_removal.specs.Written.{data_count_section, group_mark, is_group_left, BeginsGroupIf, WritesNextItem, WritesImport, WritesExport, WritesType, WritesGroup};
    ghost use Rattle.module_removal.specs.LeftSections.{counted_items, items_section, section_of, HasNoItems, WritesBytes, WritesItem, WritesItems, DeclaresFunctions, WritesSegments, WritesSegmentsUnless, WritesSegmentsBefore, WritesContents, WritesSection, LeavesMetadata, WritesCustom, WritesAnySection};
    ghost use Rattle.module_removal.specs.Refusals.{IsFaultOfPart, StopsAfter, StopsAtNext, StopsAtImport, StopsAtType, StopsAtGroup, StopsAtItem, StopsAtItems, StopsAtContents, StopsAtSection, StopsAtCustom, StopsAtAnySection};
    ghost use Rattle.module_removal.specs.SeveralSteps.{SoManySteps};

    /// Adds the item that was copied to those of the section.
    fn add(&mut self) -> Result<(), ModuleError>
        ensures items { OnOk result (self.new.items.items ≡ self.old.items.items ++ self.old.kept.out.items) }
        ensures count { OnOk result (self.new.count ≡ counted_more self.old.count 1) }
        ensures same { self.new ≡ record self.old { items = self.new.items; count = self.new.count } }
        ensures err { IfErr result (λ error. error.fault ≡ NoMemory) }
    {
        self.items.extend_from_slice(&self.kept.out)?;
        self.count = self.count.saturating_add(1);
        Ok(())
    }

    /// Whether the next item of this space is left.
    fn is_next_left(&mut self, space: Space) -> bool
        ensures is { result ≡ is_left (marks_of self.old.remainder.now.left space) (count_of self.old.next space) }
        ensures same { self.new ≡ record self.old { next = with_more_items space 1 self.old.next } }
    {
        let index = self.next.add(space);
        self.remainder.left.space(space).is_left(index)
    }

    /// An item of this space, if it is left.
    fn item(&mut self, space: Space, input: &mut Input<'_>) -> Result<(), ModuleError>
        ensures same_end { input.new.end ≡ input.old.end }
        ensures is { OnOk result (WritesNextItem space (λ w. copied_defined w space) input.old.end input.old.rest.now input.new.rest.now self.old self.new) }
        ensures err { IfErr result (StopsAtNext space (λ w. copied_defined w space) input.old.end input.old.rest.now self.old) }
    {
        if self.is_next_left(space) {
            self.kept.clear();
            done!(self.kept.defined(space, input));
            return self.add();
        }
        self.passed.clear();
        self.passed.defined(space, input)
    }

    /// An import, if it is left.
    fn import(&mut self, input: &mut Input<'_>) -> Result<(), ModuleError>
        ensures same_end { input.new.end ≡ input.old.end }
        ensures is { OnOk result (WritesImport input.old.end input.old.rest.now input.new.rest.now self.old self.new) }
        ensures err { IfErr result (StopsAtImport input.old.end input.old.rest.now self.old) }
    {
        let mut after = *input;
        self.passed.clear();
        let space = done!(self.passed.import(&mut after));
        if self.is_next_left(space) {
            self.kept.clear();
            done!(self.kept.import(input));
            return self.add();
        }
        *input = after;
        Ok(())
    }

    /// An export: all are left.
    fn export(&mut self, input: &mut Input<'_>) -> Result<(), ModuleError>
        ensures same_end { input.new.end ≡ input.old.end }
        ensures is { OnOk result (WritesExport input.old.end input.old.rest.now input.new.rest.now self.old self.new) }
        ensures err { IfErr result (IsFaultOfPart (copied_export (index_written self.old.kept.left) input.old.end input.old.rest.now)) }
    {
        self.kept.clear();
        done!(self.kept.export(input));
        self.add()
    }

    /// The next type, if it is left.
    fn member(&mut self, input: &mut Input<'_>) -> Result<(), ModuleError>
        ensures same_end { input.new.end ≡ input.old.end }
        ensures is { OnOk result
            (WritesType input.old.end (self.old, input.old.rest.now) (self.new, input.new.rest.now)) }
        ensures err { IfErr result (StopsAtType input.old.end (self.old, input.old.rest.now)) }
    {
        if self.is_next_left(Space::Types) {
            self.kept.clear();
            done!(self.kept.subtype(input));
            self.items.extend_from_slice(&self.kept.out)?;
            return Ok(());
        }
        self.passed.clear();
        self.passed.subtype(input)
    }

    /// The next types, so many, if they are left.
    fn members(&mut self, count: u32, input: &mut Input<'_>) -> Result<(), ModuleError>
        ensures same_end { input.new.end ≡ input.old.end }
        ensures is { OnOk result (SoManySteps (WritesType input.old.end) count
            (self.old, input.old.rest.now) (self.new, input.new.rest.now)) }
        ensures err { IfErr result (StopsAfter (WritesType input.old.end) (StopsAtType input.old.end) count (self.old, input.old.rest.now)) }
    {
        'members: for _ in 0..count {
            done!(self.member(input));
        }
        Ok(())
    }

    /// Begins a recursive group with so many types.
    fn begin_group(&mut self, members: u32, is_group: bool) -> Result<(), ModuleError>
        ensures items { OnOk result (self.new.items.items ≡ self.old.items.items ++ group_mark is_group members) }
        ensures count { OnOk result (self.new.count ≡ counted_more self.old.count 1) }
        ensures same { self.new ≡ record self.old { items = self.new.items; count = self.new.count } }
        ensures err { IfErr result (λ error. error.fault ≡ NoMemory) }
    {
        self.count = self.count.saturating_add(1);
        if !is_group {
            return Ok(());
        }
        self.items.push(0x4e)?;
        encoded::write_number(&mut self.items, u64::from(members))?;
        Ok(())
    }

    /// Begins a recursive group with so many types if it is left: if its first type is. One without types isn't.
    fn begin_if_left(&mut self, members: u32, is_group: bool) -> Result<(), ModuleError>
        ensures is { OnOk result (BeginsGroupIf
            (is_group_left members (is_left (marks_of self.old.remainder.now.left OfTypes) self.old.next.types))
            is_group members self.old self.new) }
        ensures err { IfErr result (λ error. error.fault ≡ NoMemory) }
    {
        if members == 0 {
            return Ok(());
        }
        let types = self.remainder.left.space(Space::Types);
        if !types.is_left(self.next.types) {
            return Ok(());
        }
        self.begin_group(members, is_group)
    }

    /// The types of a recursive group, if they are left.
    fn group(&mut self, input: &mut Input<'_>) -> Result<(), ModuleError>
        ensures same_end { input.new.end ≡ input.old.end }
        ensures is { OnOk result
            (WritesGroup input.old.end (self.old, input.old.rest.now) (self.new, input.new.rest.now)) }
        ensures err { IfErr result (StopsAtGroup input.old.end (self.old, input.old.rest.now)) }
    {
        let (members, is_group) = done!(group_members(input));
        done!(self.begin_if_left(members, is_group));
        self.members(members, input)
    }

    /// An item of a section of this kind, if it is left.
    fn one(&mut self, kind: SectionKind, input: &mut Input<'_>) -> Result<(), ModuleError>
        ensures same_end { input.new.end ≡ input.old.end }
        ensures is { OnOk result (WritesItem kind input.old.end (self.old, input.old.rest.now) (self.new, input.new.rest.now)) }
        ensures err { IfErr result (StopsAtItem kind input.old.end (self.old, input.old.rest.now)) }
    {
        match kind {
            SectionKind::Type => self.group(input),
            SectionKind::Import => self.import(input),
            SectionKind::Export => self.export(input),
            kind => match defined_space(kind) {
                Some(space) => self.item(space, input),
                None => Ok(()),
            },
        }
    }

    /// So many items of a section of this kind, if they are left.
    fn several(
        &mut self,
        kind: SectionKind,
        count: u32,
        input: &mut Input<'_>,
    ) -> Result<(), ModuleError>
        ensures same_end { input.new.end ≡ input.old.end }
        ensures is { OnOk result (SoManySteps (WritesItem kind input.old.end) count (self.old, input.old.rest.now) (self.new, input.new.rest.now)) }
        ensures err { IfErr result (StopsAfter (WritesItem kind input.old.end) (StopsAtItem kind input.old.end) count (self.old, input.old.rest.now)) }
    {
        'items: for _ in 0..count {
            done!(self.one(kind, input));
        }
        Ok(())
    }

    /// The items of a section that are left.
    fn items(&mut self, section: &Section<'_>) -> Result<(), ModuleError>
        ensures is { OnOk result (WritesItems section.now.kind section.now.contents.end section.now.contents.rest.now self.old self.new) }
        ensures err { IfErr result (StopsAtItems section.now.kind section.now.contents.end section.now.contents.rest.now self.old) }
    {
        let mut input = section.contents;
        let count = done!(input.number());
        self.several(section.kind, count, &mut input)
    }

    /// The contents of a section with the items that were added; none if there are no items.
    fn take_contents(&mut self) -> Result<Vec<u8>, ModuleError>
        ensures contents { IfOk result (λ contents. contents.items ≡ counted_items self.old.count self.old.items.items) }
        ensures none { OnOk result (HasNoItems self.new) }
        ensures err { IfErr result IsTooMuch }
        ensures same { self.new ≡ record self.old { items = self.new.items; count = self.new.count } }
    {
        let mut contents = Vec::new(self.alloc);
        if self.count > 0 {
            done!(write_number(&mut contents, self.count));
            contents.extend_from_slice(&self.items)?;
        }
        self.items.clear();
        self.count = 0;
        Ok(contents)
    }

    /// Writes the section with the items that were added, unless there are none.
    fn finish(&mut self, kind: SectionKind) -> Result<(), ModuleError>
        ensures is { OnOk result (WritesBytes (section_of (section_id kind) self.old) self.old self.new) }
        ensures err { IfErr result IsTooMuch }
    {
        let count = self.count;
        let contents = done!(self.take_contents());
        if count == 0 {
            return Ok(());
        }
        put_section(&mut self.out, kind, &contents)
    }

    /// Writes the code section, unless no function with a body is left.
    fn put_code(&mut self) -> Result<(), ModuleError>
        ensures is { HasNoItems self.old → OnOk result (WritesBytes (items_section 10 self.old.code.now.count self.old.code.now.bodies.items) self.old self.new) }
        ensures err { IfErr result IsTooMuch }
    {
        let code = self.code;
        self.items.extend_from_slice(&code.bodies)?;
        self.count = code.count;
        self.finish(SectionKind::Code)
    }

    /// Adds a segment that declares functions, if there are some to declare.
    fn declare(&mut self) -> Result<(), ModuleError>
        ensures is { OnOk result (DeclaresFunctions self.old self.new) }
        ensures err { IfErr result IsTooMuch }
    {
        let remainder = self.remainder;
        if remainder.undeclared.is_empty() {
            return Ok(());
        }
        done!(put_declarations(&remainder.undeclared, &remainder.left, &mut self.items));
        self.count = self.count.saturating_add(1);
        Ok(())
    }

    /// Writes the element segments, with one more where functions have to be declared.
    fn put_elements(&mut self) -> Result<(), ModuleError>
        ensures is { OnOk result (WritesSegments self.old self.new) }
        ensures err { IfErr result IsTooMuch }
    {
        self.has_elements = true;
        done!(self.declare());
        self.finish(SectionKind::Element)
    }

    /// The same, if they weren't written yet.
    fn elements(&mut self) -> Result<(), ModuleError>
        ensures is { OnOk result (WritesSegmentsUnless self.old.has_elements self.old self.new) }
        ensures err { IfErr result IsTooMuch }
    {
        if self.has_elements {
            return Ok(());
        }
        self.put_elements()
    }

    /// The same before a section of this kind, if it comes after that of element segments.
    fn elements_before(&mut self, kind: SectionKind) -> Result<(), ModuleError>
        ensures is { OnOk result (WritesSegmentsBefore kind self.old self.new) }
        ensures err { IfErr result IsTooMuch }
    {
        if kind.rank() <= SectionKind::Element.rank() {
            return Ok(());
        }
        self.elements()
    }

    /// The start function.
    fn start(&mut self, mut input: Input<'_>) -> Result<(), ModuleError>
        ensures kept { OnOk result (self.new.kept.left ≡ self.old.kept.left) }
        ensures same { self.new ≡ record self.old { kept = self.new.kept; out = self.new.out } }
        ensures is { OnOk result ((copied : Copied) × (following : List ℕ)
            × (copied_index (index_written self.old.kept.left) OfFuncs input.entry.end input.entry.rest.now ≡ Ok ((tt, copied), following))
            × (self.new.out.items ≡ self.old.out.items ++ section 8 copied.written)) }
        ensures err { IfErr result (StopsAtContents OfStart input.entry.end input.entry.rest.now self.old) }
    {
        self.kept.clear();
        done!(self.kept.index(&mut input, Space::Funcs));
        put_section(&mut self.out, SectionKind::Start, &self.kept.out)
    }

    /// The number of data segments, if there are any.
    fn data_count(&mut self) -> Result<(), ModuleError>
        ensures same { self.new ≡ record self.old { out = self.new.out } }
        ensures is { OnOk result (self.new.out.items
            ≡ self.old.out.items ++ data_count_section (left_count (marks_of self.old.remainder.now.left OfData))) }
        ensures err { IfErr result IsTooMuch }
    {
        let count = self.remainder.left.space(Space::Data).count();
        if count == 0 {
            return Ok(());
        }
        let mut contents = Vec::new(self.alloc);
        done!(write_number(&mut contents, count));
        put_section(&mut self.out, SectionKind::DataCount, &contents)
    }

    /// Metadata of code.
    fn metadata(&mut self, name: &str, contents: Input<'_>) -> Result<(), ModuleError>
        ensures same { self.new ≡ record self.old { out = self.new.out } }
        ensures is { OnOk result ((new : List ℕ) × LeavesMetadata self.old.remainder.now.left self.old.code.now contents.entry.end contents.entry.rest.now new
            × (self.new.out.items ≡ self.old.out.items ++ section 0 (entry name.now ++ new))) }
    {
        let left = &self.remainder.left;
        let mut made = Vec::new(self.alloc);
        done!(write_bytes(&mut made, name.as_bytes()));
        let items = done!(self.code.operators.contents(self.alloc, left, contents));
        made.extend_from_slice(&items)?;
        put_section(&mut self.out, SectionKind::Custom, &made)
    }

    /// The section of names.
    fn names(&mut self, contents: Input<'_>) -> Result<(), ModuleError>
        ensures same { self.new ≡ record self.old { out = self.new.out } }
        ensures is { OnOk result ((new : List ℕ) × AreLeftNames self.old.remainder.now.left self.old.code.now contents.entry.end contents.entry.rest.now new
            × (self.new.out.items ≡ self.old.out.items ++ section 0 (entry (codes "name") ++ new))) }
    {
        let names = done!(left_names(self.alloc, &self.remainder.left, self.code, contents));
        put_section(&mut self.out, SectionKind::Custom, &names)
    }

    /// A custom section: names and metadata of code follow; debug information is left out, since its places don't.
    fn custom(&mut self, section: &Section<'_>) -> Result<(), ModuleError>
        ensures is { HasNoItems self.old → OnOk result (WritesCustom (section_at section.now) self.old self.new) }
        ensures err { IfErr result (StopsAtCustom section.now.contents.end section.now.contents.rest.now) }
    {
        let (name, contents) = done!(named_contents(section));
        if names_object(name) {
            return Err(ModuleError {
                fault: ModuleFault::ObjectFile,
                at: section.at,
            });
        }
        if names_debug(name) {
            return Ok(());
        }
        if is_names(name) {
            return self.names(contents);
        }
        if is_metadata(name) {
            return self.metadata(name, contents);
        }
        self.out.extend_from_slice(section.whole)?;
        Ok(())
    }

    /// A section that isn't custom, in its place.
    fn contents(&mut self, section: &Section<'_>) -> Result<(), ModuleError>
        ensures is { HasNoItems self.old → OnOk result (WritesContents section.now.kind section.now.contents.end section.now.contents.rest.now self.old self.new) }
        ensures err { IfErr result (StopsAtContents section.now.kind section.now.contents.end section.now.contents.rest.now self.old) }
    {
        match section.kind {
            SectionKind::Start => self.start(section.contents),
            SectionKind::DataCount => self.data_count(),
            SectionKind::Code => self.put_code(),
            SectionKind::Element => {
                done!(self.items(section));
                self.put_elements()
            }
            kind => {
                done!(self.items(section));
                self.finish(kind)
            }
        }
    }

    /// A section that isn't custom, after that of element segments if it comes before this one.
    fn section(&mut self, section: &Section<'_>) -> Result<(), ModuleError>
        ensures is { HasNoItems self.old → OnOk result (WritesSection section.now.kind section.now.contents.end section.now.contents.rest.now self.old self.new) }
        ensures err { IfErr result (StopsAtSection section.now.kind section.now.contents.end section.now.contents.rest.now self.old) }
    {
        done!(self.elements_before(section.kind));
        self.contents(section)
    }

    /// A section.
    fn any_section(&mut self, section: &Section<'_>) -> Result<(), ModuleError>
        ensures is { HasNoItems self.old → OnOk result (WritesAnySection section.now.kind (section_at section.now) self.old self.new) }
        ensures err { IfErr result (StopsAtAnySection section.now.kind section.now.contents.end section.now.contents.rest.now self.old) }
    {
        match section.kind {
            SectionKind::Custom => self.custom(section),
            _ => self.section(section),
        }
    }
}

/// Writes all sections.
fn write_all(bytes: &[u8], writer: &mut Writer<'_>) -> Result<(), ModuleError>
    ensures is { HasNoItems writer.old → OnOk result (WritesModule bytes.now writer.old writer.new) }
    ensures err { HasNoItems writer.old → IfErr result (StopsAtModule bytes.now writer.old) }
{
    writer.out.extend_from_slice(&PREAMBLE)?;
    let sections = done!(Sections::new(bytes));
    'sections: for section in sections {
        let section = done!(section);
        done!(writer.any_section(&section));
    }
    writer.elements()
}

/// The module with these bytes with the items that are left alone, and with this code. Each item keeps its order, and each
/// index is the new one. Names and metadata of code follow; debug information is left out.
///
/// # Errors
///
/// `Unnumbered`, at its place, for an item that is named and removed; `ObjectFile`; or `Memory`.
pub fn remove(
    alloc: Global,
    bytes: &[u8],
    remainder: &Remainder,
    code: &LeftCode,
) -> Result<Vec<u8>, ModuleError>
    ensures ok { IfOk result (λ new. IsModuleOfLeft remainder.now code.now bytes.now new.items) }
    ensures err { IfErr result (IsRefusedModule remainder.now code.now bytes.now) }
{
    let mut writer = Writer {
        alloc,
        remainder,
        code,
        next: ItemCounts::none(),
        kept: Copier::renumbering(alloc, &remainder.left),
        passed: Copier::finding(alloc),
        items: Vec::new(alloc),
        count: 0,
        has_elements: false,
        out: Vec::new(alloc),
    };
    match write_all(bytes, &mut writer) {
        Ok(()) => {
            let Writer { out, .. } = writer;
            Ok(out)
        }
        Err(error) => Err(error),
    }
}
