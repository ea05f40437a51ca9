//! What each item of a module refers to.

ghost use Rattle.std.specs.Prelude.{◌≡◌, ◌-◌, ◌^◌, length, min, Some, None, IfOk, IfErr};
ghost use Rattle.wasm_sections.specs.declared.fault.ModuleFault.TheVariants.{IndexOutOfRange};
ghost use Rattle.module_removal.specs.ItemNumbers.{all_numbers, number_of_item};

use crate::alike::AlikeTypes;
use crate::bounds::Active;
use crate::declared::Taken;
use crate::item::{Item, ItemCounts, MODULE};
use crate::parts::done;
use reaching::Graph;
use std::alloc::Global;
use wasm_ops::Space;
use wasm_sections::{ModuleError, ModuleFault};

/// What each item of a module refers to. The module itself refers to what is exported, to the start function, and to the
/// active segments that are seen outside of the module or may fail.
#[derive(Drop)]
pub struct References {
    /// The numbers of items.
    pub counts: ItemCounts,
    /// From the number of each item to those of the items to which it refers.
    pub graph: Graph,
    /// The functions of which references are taken.
    pub(crate) taken: Taken,
    pub ghost numbered: { length graph.last.items ≡ min (all_numbers counts) (2 ^ 64 - 1) },
}

/// The error of an item that the module doesn't have, at this place.
fn no_item(item: Item, at: usize) -> ModuleError
    ensures { result ≡ record { fault = IndexOutOfRange item.space item.index; at = at } }
{
    ModuleError {
        fault: ModuleFault::IndexOutOfRange {
            space: item.space,
            index: item.index,
        },
        at,
    }
}

/// The error of an index that doesn't fit 32 bits, at this place.
pub(crate) fn too_great(at: usize) -> ModuleError {
    ModuleError {
        fault: ModuleFault::TooGreat,
        at,
    }
}

impl References {
    ghost use Rattle.std.specs.Prelude.{◌<◌, ◌++◌, ◌∷◌, [], ℕ, OnOk, true, ◌↔◌};
    ghost use Rattle.reaching.specs.Reaching.{edges_of, IsReachedFrom};
    ghost use Rattle.reaching.specs.Searching.{is_set};
    ghost use Rattle.wasm_sections.specs.declared.fault.ModuleFault.TheVariants.{Memory as NoMemory};
    ghost use Rattle.wasm_operators.specs.declared.types.Space.TheVariants.{Types as OfTypes};
    ghost use Rattle.module_removal.specs.CopiedParts.{item_at};
    ghost use Rattle.module_removal.specs.Declaring.{functions_among, NamesFunctions};
    ghost use Rattle.module_removal.specs.Edges.{AddsReferencesTo, ItemRefersTo, IsNotThere, roots_of};
    ghost use Rattle.module_removal.specs.Gathered.{item_of_active, Activates, first_alike, TypeRefersTo, ReferToAlike};

    /// The number of an item, which is named at this place.
    pub(crate) fn number(&self, item: Item, at: usize) -> Result<u32, ModuleError>
        ensures ok { IfOk result (λ number. number_of_item self.now.counts item ≡ Some number) }
        ensures err { IfErr result (IsNotThere self.now.counts (item ∷ []) at) }
    {
        match self.counts.number(item) {
            Some(number) => Ok(number),
            None => Err(no_item(item, at)),
        }
    }

    /// Adds a reference between items with these numbers. All numbers are those of items.
    pub(crate) fn add_numbers(&mut self, from: u32, to: u32) -> Result<(), ModuleError>
        ensures counts { self.new.counts ≡ self.old.counts }
        ensures taken { self.new.taken ≡ self.old.taken }
        ensures edges { OnOk result (from < all_numbers self.old.counts → to < all_numbers self.old.counts
            → edges_of self.new.graph ≡ edges_of self.old.graph ++ (from, to) ∷ []) }
        ensures err { IfErr result (λ error. error.fault ≡ NoMemory) }
    {
        self.graph.add(from, to)?;
        Ok(())
    }

    /// Adds a reference to an item, which is named at this place.
    fn add(&mut self, from: u32, to: Item, at: usize) -> Result<(), ModuleError>
        ensures ok { OnOk result (AddsReferencesTo from (to ∷ []) self.old self.new) }
        ensures err { IfErr result (IsNotThere self.old.counts (to ∷ []) at) }
    {
        match self.number(to, at) {
            Ok(to) => self.add_numbers(from, to),
            Err(error) => Err(error),
        }
    }

    /// Adds references to these items, which are named at this place, in order.
    pub(crate) fn add_all(
        &mut self,
        from: u32,
        items: &[Item],
        at: usize,
    ) -> Result<(), ModuleError>
        ensures ok { OnOk result (AddsReferencesTo from items.now self.old self.new) }
        ensures err { IfErr result (IsNotThere self.old.counts items.now at) }
    {
        'items: for item in items {
            match self.add(from, *item, at) {
                Ok(()) => {}
                Err(error) => return Err(error),
            }
        }
        Ok(())
    }

    /// Adds the functions among what the item with this number names.
    pub(crate) fn declare_all(&mut self, number: u32, found: &[Item]) -> Result<(), ModuleError>
        ensures counts { self.new.counts ≡ self.old.counts }
        ensures graph { self.new.graph ≡ self.old.graph }
        ensures taken { OnOk result (NamesFunctions (functions_among number found.now) self.old.taken self.new.taken) }
        ensures err { IfErr result (λ error. error.fault ≡ NoMemory) }
    {
        self.taken.declare_all(number, found)
    }

    /// Adds the reference from this table or memory, which is named at this place, to an active segment with this number.
    fn activate_from(&mut self, number: u32, target: Item, at: usize) -> Result<(), ModuleError>
        ensures ok { OnOk result (Activates number (Some target) self.old self.new) }
        ensures same { self.new.taken ≡ self.old.taken }
    {
        match self.number(target, at) {
            Ok(from) => self.add_numbers(from, number),
            Err(error) => Err(error),
        }
    }

    /// Adds the reference to an active segment with this number: from its table or memory, or from the module itself.
    pub(crate) fn activate(
        &mut self,
        number: u32,
        active: &Active,
        is_within: bool,
        at: usize,
    ) -> Result<(), ModuleError>
        ensures ok { OnOk result (Activates number (Some (item_of_active active.now)) self.old self.new) }
        ensures same { self.new.taken ≡ self.old.taken }
    {
        if is_within {
            let target = Item {
                space: active.space,
                index: active.index,
            };
            self.activate_from(number, target, at)
        } else {
            self.add_numbers(MODULE, number)
        }
    }

    /// Adds a reference from a type to another.
    pub(crate) fn refer_to_type(
        &mut self,
        from: usize,
        to: usize,
        at: usize,
    ) -> Result<(), ModuleError>
        ensures counts { self.new.counts ≡ self.old.counts }
        ensures taken { self.new.taken ≡ self.old.taken }
        ensures edges { OnOk result (ItemRefersTo self.old.counts (item_at OfTypes from) (item_at OfTypes to)
            (edges_of self.old.graph) (edges_of self.new.graph)) }
    {
        let (Ok(from), Ok(to)) = (u32::try_from(from), u32::try_from(to)) else {
            return Err(too_great(at));
        };
        let space = Space::Types;
        let from = done!(self.number(Item { space, index: from }, at));
        let to = done!(self.number(Item { space, index: to }, at));
        self.add_numbers(from, to)
    }

    /// Adds a reference from this type to the first one that is alike, if it is a function type.
    fn refer_to_first(
        &mut self,
        index: usize,
        alike: &AlikeTypes,
        at: usize,
    ) -> Result<(), ModuleError>
        ensures counts { self.new.counts ≡ self.old.counts }
        ensures taken { self.new.taken ≡ self.old.taken }
        ensures edges { OnOk result (TypeRefersTo self.old.counts index (first_alike alike.now.types index)
            (edges_of self.old.graph) (edges_of self.new.graph)) }
    {
        match alike.first(index) {
            Some(first) => self.refer_to_type(index, first, at),
            None => Ok(()),
        }
    }

    /// Adds a reference from each function type to the first one with the same parameters and results, since a block of its
    /// type is written with that.
    pub(crate) fn refer_alike(&mut self, alike: &AlikeTypes, at: usize) -> Result<(), ModuleError>
        ensures counts { self.new.counts ≡ self.old.counts }
        ensures taken { self.new.taken ≡ self.old.taken }
        ensures edges { OnOk result (ReferToAlike alike.now.types self.old.counts
            (edges_of self.old.graph) (edges_of self.new.graph)) }
    {
        let count = self.counts.types;
        'types: for index in 0..count {
            done!(self.refer_to_first(index, alike, at));
        }
        Ok(())
    }

    /// What is reached from the module itself and from these items: for each number, whether its item is.
    ///
    /// # Errors
    ///
    /// `Memory`.
    pub fn reachable(&self, alloc: Global, roots: &[Item]) -> Result<Vec<bool>, ModuleError>
        ensures reached { IfOk result (λ marks. (x : ℕ) → is_set marks.items x ≡ true
            ↔ IsReachedFrom (length self.now.graph.last.items) (edges_of self.now.graph) (roots_of self.now.counts roots.now) x) }
        ensures err { IfErr result (λ error. error.fault ≡ NoMemory) }
    {
        let mut numbers = Vec::new(alloc);
        numbers.push(MODULE)?;
        'roots: for root in roots {
            if let Some(number) = self.counts.number(*root) {
                numbers.push(number)?;
            }
        }
        match self.graph.reachable(alloc, &numbers) {
            Ok(marks) => Ok(marks),
            Err(_) => Err(ModuleError::MEMORY),
        }
    }
}
