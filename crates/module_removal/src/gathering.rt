//! The references of a module, gathered from its sections.

ghost use Rattle.std.specs.Prelude.{◌≡◌, Some, None, IfOk, IfErr};
ghost use Rattle.module_removal.specs.ItemNumbers.{number_of_item};
ghost use Rattle.module_removal.specs.Gathered.{AreReferencesOf};

use crate::alike::AlikeTypes;
use crate::bounds::{Active, LeastSizes, active_of};
use crate::copier::Copier;
use crate::counting::{count_items, defined_space};
use crate::declared::Taken;
use crate::item::{Item, ItemCounts, MODULE};
use crate::parts::{done, group_members};
use crate::references::{References, too_great};
use crate::vectors::VectorOf;
use reaching::Graph;
use std::alloc::Global;
use wasm_ops::Space;
use wasm_sections::{Body, Input, ModuleError, Section, SectionKind, Sections};

/// The references of a module while they are read.
#[derive(Drop)]
struct Gatherer<'m> {
    references: References,
    /// The numbers of items of the sections that were read.
    next: ItemCounts,
    /// The number of imported functions.
    imported: usize,
    sizes: LeastSizes,
    copier: Copier<'m>,
}

impl<'m> Gatherer<'m> {
    ghost use Rattle.std.specs.Prelude.{◌+◌, true, option_map, OnOk};
    ghost use Rattle.module_removal.specs.ItemNumbers.{count_of, with_more_items};
    ghost use Rattle.module_removal.specs.LeftSpaces.{own_index};
    ghost use Rattle.module_removal.specs.CopiedParts.{item_at};
    ghost use Rattle.module_removal.specs.CopiedItems.{copied_export};
    ghost use Rattle.module_removal.specs.Edges.{AddsReferencesTo, IsNotThere};
    ghost use Rattle.module_removal.specs.SeveralSteps.{SoManySteps};
    ghost use Rattle.module_removal.specs.Gathered.{item_of_active, Activates, GathersOwn, GathersImport, GathersDefined, GathersItem, GathersType, GathersGroup, GathersAlike, GathersTypes, GathersBody, GathersStart, GathersContents};
    ghost use Rattle.module_removal.specs.ModuleSteps.{ThroughVector, OverBody, ThroughBodies, ThroughSections};

    /// Adds references to what was found in an item, which begins at this place.
    fn refer(&mut self, from: u32, at: usize) -> Result<(), ModuleError>
        ensures ok { OnOk result (AddsReferencesTo from self.old.copier.found.items self.old.references self.new.references) }
        ensures same { self.new ≡ record self.old { references = self.new.references } }
        ensures err { IfErr result (IsNotThere self.old.references.counts self.old.copier.found.items at) }
    {
        self.references.add_all(from, &self.copier.found, at)
    }

    /// The number of the next item of a space.
    fn next_number(&mut self, space: Space, at: usize) -> Result<u32, ModuleError>
        ensures ok { IfOk result (λ number.
            number_of_item self.old.references.counts (item_at space (count_of self.old.next space)) ≡ Some number) }
        ensures same { self.new ≡ record self.old { next = with_more_items space 1 self.old.next } }
    {
        let index = self.next.add(space);
        match u32::try_from(index) {
            Ok(index) => self.references.number(Item { space, index }, at),
            Err(_) => Err(too_great(at)),
        }
    }

    /// The next type, which is one of a recursive group with this first type: the two refer to each other.
    fn member(&mut self, first: usize, input: &mut Input<'_>) -> Result<(), ModuleError>
        ensures same_end { input.new.end ≡ input.old.end }
        ensures is { self.old.copier.left ≡ None → OnOk result
            (GathersType first input.old.end (self.old, input.old.rest.now) (self.new, input.new.rest.now)) }
    {
        let at = input.at();
        let index = self.next.types;
        let number = done!(self.next_number(Space::Types, at));
        self.copier.clear();
        done!(self.copier.subtype(input));
        done!(self.refer(number, at));
        done!(self.references.refer_to_type(first, index, at));
        self.references.refer_to_type(index, first, at)
    }

    /// The next types, so many, of a recursive group with this first type.
    fn members(
        &mut self,
        first: usize,
        count: u32,
        input: &mut Input<'_>,
    ) -> Result<(), ModuleError>
        ensures same_end { input.new.end ≡ input.old.end }
        ensures is { self.old.copier.left ≡ None → OnOk result (SoManySteps (GathersType first input.old.end) count
            (self.old, input.old.rest.now) (self.new, input.new.rest.now)) }
    {
        'members: for _ in 0..count {
            done!(self.member(first, input));
        }
        Ok(())
    }

    /// The types of a recursive group, each of which refers to all others.
    fn group(&mut self, input: &mut Input<'_>) -> Result<(), ModuleError>
        ensures same_end { input.new.end ≡ input.old.end }
        ensures is { self.old.copier.left ≡ None → OnOk result
            (GathersGroup input.old.end (self.old, input.old.rest.now) (self.new, input.new.rest.now)) }
    {
        let (members, _) = done!(group_members(input));
        let first = self.next.types;
        self.members(first, members, input)
    }

    /// The types of all groups.
    fn groups(&mut self, contents: Input<'_>) -> Result<(), ModuleError>
        ensures { self.old.copier.left ≡ None → OnOk result
            (ThroughVector GathersGroup contents.entry.end contents.entry.rest.now self.old self.new) }
    {
        let mut input = contents;
        let groups = done!(input.number());
        'groups: for _ in 0..groups {
            done!(self.group(&mut input));
        }
        Ok(())
    }

    /// Adds a reference from each function type to the first one that is alike.
    fn alike(&mut self, alloc: Global, section: &Section<'_>) -> Result<(), ModuleError>
        ensures { OnOk result
            (GathersAlike section.now.contents.end section.now.contents.rest.now self.old self.new) }
    {
        let count = self.references.counts.types;
        match AlikeTypes::read(alloc, section.contents, count) {
            Ok(alike) => self.references.refer_alike(&alike, section.at),
            Err(error) => Err(error),
        }
    }

    /// Types.
    fn types(&mut self, alloc: Global, section: &Section<'_>) -> Result<(), ModuleError>
        ensures { self.old.copier.left ≡ None → OnOk result
            (GathersTypes section.now.contents.end section.now.contents.rest.now self.old self.new) }
    {
        done!(self.groups(section.contents));
        self.alike(alloc, section)
    }

    /// An import.
    fn import(&mut self, input: &mut Input<'_>) -> Result<(), ModuleError>
        ensures same_end { input.new.end ≡ input.old.end }
        ensures is { self.old.copier.left ≡ None → OnOk result
            (GathersImport input.old.end (self.old, input.old.rest.now) (self.new, input.new.rest.now)) }
    {
        let at = input.at();
        self.copier.clear();
        let space = done!(self.copier.import(input));
        let number = done!(self.next_number(space, at));
        done!(self.sizes.add_imported(space));
        self.imported = self.next.funcs;
        self.refer(number, at)
    }

    /// Adds the reference to a segment with this number, if it is active.
    fn activate(
        &mut self,
        number: u32,
        active: Option<Active>,
        at: usize,
    ) -> Result<(), ModuleError>
        ensures ok { OnOk result
            (Activates number (option_map item_of_active active) self.old.references self.new.references) }
        ensures same { self.new ≡ record self.old { references = self.new.references } }
    {
        match active {
            Some(active) => {
                let is_within = self.sizes.has(&active);
                self.references.activate(number, &active, is_within, at)
            }
            None => Ok(()),
        }
    }

    /// An item of this space that the module defines, which isn't a function.
    fn defined(&mut self, space: Space, input: &mut Input<'_>) -> Result<(), ModuleError>
        ensures same_end { input.new.end ≡ input.old.end }
        ensures is { self.old.copier.left ≡ None → OnOk result
            (GathersDefined space input.old.end (self.old, input.old.rest.now) (self.new, input.new.rest.now)) }
    {
        let begin = *input;
        self.copier.clear();
        let number = done!(self.next_number(space, begin.at()));
        done!(self.sizes.add_defined(space, begin));
        let active = done!(active_of(space, begin));
        done!(self.copier.defined(space, input));
        done!(self.activate(number, active, begin.at()));
        done!(self.references.declare_all(number, &self.copier.found));
        self.refer(number, begin.at())
    }

    /// An export, to which the module itself refers.
    fn export(&mut self, input: &mut Input<'_>) -> Result<(), ModuleError>
        ensures same_end { input.new.end ≡ input.old.end }
        ensures is { self.old.copier.left ≡ None → OnOk result
            (GathersOwn true (copied_export own_index input.old.end input.old.rest.now) input.new.rest.now self.old self.new) }
    {
        let at = input.at();
        self.copier.clear();
        done!(self.copier.export(input));
        done!(self.references.declare_all(MODULE, &self.copier.found));
        self.refer(MODULE, at)
    }

    /// The start function.
    fn start(&mut self, mut input: Input<'_>) -> Result<(), ModuleError>
        ensures { self.old.copier.left ≡ None → OnOk result
            (GathersStart input.entry.end input.entry.rest.now self.old self.new) }
    {
        let at = input.at();
        self.copier.clear();
        done!(self.copier.index(&mut input, Space::Funcs));
        self.refer(MODULE, at)
    }

    /// The next item of a section of this kind; nothing of one that has no items.
    fn item(&mut self, kind: SectionKind, input: &mut Input<'_>) -> Result<(), ModuleError>
        ensures same_end { input.new.end ≡ input.old.end }
        ensures is { self.old.copier.left ≡ None → OnOk result
            (GathersItem kind input.old.end (self.old, input.old.rest.now) (self.new, input.new.rest.now)) }
    {
        match kind {
            SectionKind::Import => self.import(input),
            SectionKind::Export => self.export(input),
            kind => match defined_space(kind) {
                Some(space) => self.defined(space, input),
                None => Ok(()),
            },
        }
    }

    /// The items of a section of this kind.
    fn items(&mut self, kind: SectionKind, contents: Input<'_>) -> Result<(), ModuleError>
        ensures { self.old.copier.left ≡ None → OnOk result
            (ThroughVector (GathersItem kind) contents.entry.end contents.entry.rest.now self.old self.new) }
    {
        let mut input = contents;
        let count = done!(input.number());
        'items: for _ in 0..count {
            done!(self.item(kind, &mut input));
        }
        Ok(())
    }

    /// The next body, of the function with this index.
    fn next_body(&mut self, func: usize, input: &mut Input<'_>) -> Result<(), ModuleError>
        ensures same_end { input.new.end ≡ input.old.end }
        ensures is { self.old.copier.left ≡ None → OnOk result (OverBody GathersBody input.old.end
            (self.old, (func, input.old.rest.now)) (self.new, (func + 1, input.new.rest.now))) }
    {
        let len = done!(input.number());
        let input = done!(input.part(len as usize));
        self.body(&Body { func, input })
    }

    /// The bodies of a code section.
    fn bodies(&mut self, contents: Input<'_>) -> Result<(), ModuleError>
        ensures { self.old.copier.left ≡ None → OnOk result
            (ThroughBodies GathersBody self.old.imported contents.entry.end contents.entry.rest.now self.old self.new) }
    {
        let mut input = contents;
        let count = done!(input.number());
        let mut func = self.imported;
        'bodies: for _ in 0..count {
            done!(self.next_body(func, &mut input));
            func = func.saturating_add(1);
        }
        Ok(())
    }

    /// A section.
    fn section(&mut self, alloc: Global, section: &Section<'_>) -> Result<(), ModuleError>
        ensures { self.old.copier.left ≡ None → OnOk result (GathersContents section.now.kind
            section.now.contents.end section.now.contents.rest.now self.old self.new) }
    {
        match section.kind {
            SectionKind::Custom | SectionKind::DataCount => Ok(()),
            SectionKind::Code => self.bodies(section.contents),
            SectionKind::Type => self.types(alloc, section),
            SectionKind::Start => self.start(section.contents),
            kind => self.items(kind, section.contents),
        }
    }

    /// All sections.
    fn sections(&mut self, alloc: Global, bytes: &[u8]) -> Result<(), ModuleError>
        ensures { self.old.copier.left ≡ None → OnOk result (ThroughSections GathersContents bytes.now self.old self.new) }
    {
        let sections = done!(Sections::new(bytes));
        'sections: for section in sections {
            match section {
                Ok(section) => done!(self.section(alloc, &section)),
                Err(error) => return Err(error),
            }
        }
        Ok(())
    }

    /// A body: the types of its locals, and what its operators name.
    fn body(&mut self, body: &Body<'_>) -> Result<(), ModuleError>
        ensures { self.old.copier.left ≡ None → OnOk result
            (GathersBody body.now.func body.now.input.end body.now.input.rest.now self.old self.new) }
    {
        let at = body.start();
        let Ok(func) = u32::try_from(body.func) else {
            return Err(too_great(at));
        };
        let item = Item {
            space: Space::Funcs,
            index: func,
        };
        let number = done!(self.references.number(item, at));
        self.copier.clear();
        let mut input = body.input;
        done!(self.copier.vector(VectorOf::Runs, &mut input));
        done!(
            self.copier
                .find_operators(input, &mut self.references.taken, func)
        );
        self.refer(number, at)
    }
}

/// What each item of a module with these bytes refers to.
///
/// # Errors
///
/// The first fault of a section or a body, or a reference to what the module doesn't have, with its place; or `Memory`.
pub fn references_of(alloc: Global, bytes: &[u8]) -> Result<References, ModuleError>
    ensures { IfOk result (AreReferencesOf bytes.now) }
{
    let counts = done!(count_items(alloc, bytes));
    let graph = match Graph::new(alloc, counts.all()) {
        Ok(graph) => graph,
        Err(_) => return Err(ModuleError::MEMORY),
    };
    let mut gatherer = Gatherer {
        references: References {
            counts,
            graph,
            taken: Taken::new(alloc),
        },
        next: ItemCounts::none(),
        imported: 0,
        sizes: LeastSizes::new(alloc),
        copier: Copier::finding(alloc),
    };
    match gatherer.sections(alloc, bytes) {
        Ok(()) => {
            let Gatherer { references, .. } = gatherer;
            Ok(references)
        }
        Err(error) => Err(error),
    }
}
