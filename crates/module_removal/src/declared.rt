//! Functions of which references are taken in bodies. Such a function has to be named outside of bodies too, by an export,
//! a global, a table or a segment (WebAssembly core specification 3.0, validation, modules, `refs`).

ghost use Rattle.std.specs.Prelude.{◌≡◌, ◌++◌, ◌∷◌, [], ◌&&◌, if◌then◌else◌, true, nat_lt, not, length, slice_set, OnOk, IfErr};
ghost use Rattle.wasm_sections.specs.declared.fault.ModuleFault.TheVariants.{Memory as NoMemory};
ghost use Rattle.item_sets.specs.ItemsLeft.{is_left as is_left_by};
ghost use Rattle.wasm_sections.specs.Additions.{IsTooMuch};
ghost use Rattle.module_removal.specs.LeftSections.{declaring_segment};

use crate::item::{Item, ItemCounts};
use crate::left::{LeftItems, is_set};
use std::alloc::Global;
use wasm_ops::Space;
use wasm_sections::{ModuleError, write_number};

/// Who names a function, and the function's index.
#[derive(Clone, Copy, Debug)]
struct Named {
    by: u32,
    func: u32,
}

/// The functions of which references are taken in bodies, and those that are named outside of them.
#[derive(Drop)]
pub(crate) struct Taken {
    /// Those that `ref.func` names in bodies, each with the function whose body it is.
    in_bodies: Vec<Named>,
    /// Those that other items name, each with the number of the item.
    outside: Vec<Named>,
}

/// Sets the mark with this number, if there is one.
fn set_mark(marks: &mut Vec<bool>, number: u32)
    ensures { marks.new.items ≡ slice_set marks.old.items number true }
{
    let number = number as usize;
    if number < marks.len() {
        marks[number] = true;
    }
}

/// Sets the mark of a function that an item that is left names.
fn mark_if(is_left: bool, func: u32, declared: &mut Vec<bool>)
    ensures { declared.new.items ≡ (if is_left then slice_set declared.old.items func true else declared.old.items) }
{
    if is_left {
        set_mark(declared, func);
    }
}

/// Whether a function that the body of a function that is left takes is there, and has no mark that is set.
fn is_unmarked(is_left: bool, func: u32, declared: &[bool]) -> bool
    ensures { result ≡ (is_left && nat_lt func (length declared.now) && not (is_left_by declared.now func)) }
{
    match declared.get(func as usize) {
        Some(mark) => is_left && !*mark,
        None => false,
    }
}

/// Adds a function, if it is wanted.
fn push_if(is_wanted: bool, func: u32, funcs: &mut Vec<u32>) -> Result<(), ModuleError>
    ensures ok { OnOk result (funcs.new.items ≡ (if is_wanted then funcs.old.items ++ func ∷ [] else funcs.old.items)) }
    ensures err { IfErr result (λ error. error.fault ≡ NoMemory) }
{
    if is_wanted {
        funcs.push(func)?;
    }
    Ok(())
}

/// Adds a function that a body takes, if that is left and it has no mark that is set, and then marks it.
fn add_once(
    is_left: bool,
    func: u32,
    declared: &mut Vec<bool>,
    undeclared: &mut Vec<u32>,
) -> Result<(), ModuleError>
    ensures marks { OnOk result (declared.new.items ≡ (if is_left then slice_set declared.old.items func true else declared.old.items)) }
    ensures adds { OnOk result (undeclared.new.items
        ≡ (if is_left && nat_lt func (length declared.old.items) && not (is_left_by declared.old.items func) then undeclared.old.items ++ func ∷ [] else undeclared.old.items)) }
    ensures err { IfErr result (λ error. error.fault ≡ NoMemory) }
{
    match push_if(is_unmarked(is_left, func, declared), func, undeclared) {
        Ok(()) => {
            mark_if(is_left, func, declared);
            Ok(())
        }
        Err(error) => Err(error),
    }
}

impl Taken {
    ghost use Rattle.std.specs.Prelude.{◌≡◌, ◌<◌, ◌∷◌, [], ℕ, length, OnOk, IfOk, IfErr};
    ghost use Rattle.item_sets.specs.ItemsLeft.{is_left};
    ghost use Rattle.wasm_sections.specs.declared.fault.ModuleFault.TheVariants.{Memory as NoMemory};
    ghost use Rattle.module_removal.specs.Declaring.{named_if, function_indexed, functions_among, TakesFunctions, NamesFunctions, is_declared, undeclared_in};

    /// None. This allocates nothing.
    pub fn new(alloc: Global) -> Taken
        ensures in_bodies { result.in_bodies.items ≡ [] }
        ensures outside { result.outside.items ≡ [] }
    {
        Taken {
            in_bodies: Vec::new(alloc),
            outside: Vec::new(alloc),
        }
    }

    /// Adds a function of which a reference is taken in the body of another one.
    fn take(&mut self, by: u32, func: u32) -> Result<(), ModuleError>
        ensures ok { OnOk result (TakesFunctions (record { by = by; func = func } ∷ []) self.old self.new) }
        ensures err { IfErr result (λ error. error.fault ≡ NoMemory) }
    {
        self.in_bodies.push(Named { by, func })?;
        Ok(())
    }

    /// The same, if there is one.
    pub fn take_if(&mut self, by: u32, func: Option<u32>) -> Result<(), ModuleError>
        ensures ok { OnOk result (TakesFunctions (named_if by func) self.old self.new) }
        ensures err { IfErr result (λ error. error.fault ≡ NoMemory) }
    {
        match func {
            Some(func) => self.take(by, func),
            None => Ok(()),
        }
    }

    /// Adds what an item names, if that is a function.
    fn declare(&mut self, by: u32, item: Item) -> Result<(), ModuleError>
        ensures ok { OnOk result (NamesFunctions (named_if by (function_indexed item.space item.index)) self.old self.new) }
        ensures err { IfErr result (λ error. error.fault ≡ NoMemory) }
    {
        if item.space == Space::Funcs {
            self.outside.push(Named {
                by,
                func: item.index,
            })?;
        }
        Ok(())
    }

    /// Adds the functions among what the item with this number names.
    pub fn declare_all(&mut self, by: u32, found: &[Item]) -> Result<(), ModuleError>
        ensures ok { OnOk result (NamesFunctions (functions_among by found.now) self.old self.new) }
        ensures err { IfErr result (λ error. error.fault ≡ NoMemory) }
    {
        'items: for item in found {
            match self.declare(by, *item) {
                Ok(()) => {}
                Err(error) => return Err(error),
            }
        }
        Ok(())
    }

    /// Marks for functions: those that an item names that is left. These are the marks of items by their numbers.
    fn declared(
        &self,
        alloc: Global,
        funcs: usize,
        marks: &[bool],
    ) -> Result<Vec<bool>, ModuleError>
        ensures ok { IfOk result (λ declared. (length declared.items ≡ funcs)
            × ((func : ℕ) → func < funcs → is_left declared.items func ≡ is_declared self.now.outside.items marks.now func)) }
        ensures err { IfErr result (λ error. error.fault ≡ NoMemory) }
    {
        let mut declared = Vec::new(alloc);
        declared.resize(funcs, false)?;
        'outside: for named in &self.outside {
            mark_if(is_set(marks, named.by as usize), named.func, &mut declared);
        }
        Ok(declared)
    }

    /// The functions of which references are taken in bodies that are left, and that nothing that is left names outside of
    /// bodies: each once, in the order in which they are taken.
    pub fn undeclared(
        &self,
        alloc: Global,
        counts: &ItemCounts,
        marks: &[bool],
    ) -> Result<Vec<u32>, ModuleError>
        ensures ok { IfOk result (λ undeclared. undeclared.items ≡ undeclared_in self.now counts.now marks.now) }
        ensures err { IfErr result (λ error. error.fault ≡ NoMemory) }
    {
        let mut declared = match self.declared(alloc, counts.funcs, marks) {
            Ok(declared) => declared,
            Err(error) => return Err(error),
        };
        let first = counts.first(Space::Funcs);
        let mut undeclared = Vec::new(alloc);
        'bodies: for named in &self.in_bodies {
            let by = first.saturating_add(named.by as usize);
            match add_once(
                is_set(marks, by),
                named.func,
                &mut declared,
                &mut undeclared,
            ) {
                Ok(()) => {}
                Err(error) => return Err(error),
            }
        }
        Ok(undeclared)
    }
}

/// Appends a declarative segment that names these functions.
pub(crate) fn put_declarations(
    functions: &[u32],
    left: &LeftItems,
    out: &mut Vec<u8>,
) -> Result<(), ModuleError>
    ensures written { OnOk result (out.new.items ≡ out.old.items ++ declaring_segment left.now functions.now) }
    ensures err { IfErr result IsTooMuch }
{
    // The flags of a declarative segment, and the kind of functions.
    out.extend_from_slice(&[0x03, 0x00])?;
    match write_number(out, functions.len()) {
        Ok(()) => {}
        Err(error) => return Err(error),
    }
    'functions: for func in functions {
        let item = Item {
            space: Space::Funcs,
            index: *func,
        };
        let index = left.new_index(item).unwrap_or(*func);
        match write_number(out, index as usize) {
            Ok(()) => {}
            Err(error) => return Err(error),
        }
    }
    Ok(())
}
