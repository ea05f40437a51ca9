//! Parts of a module, copied under other indices, and the items that they name.

ghost use Rattle.std.specs.Prelude.{◌≡◌};
ghost use Rattle.wasm_types.specs.declared.val_type.HeapType.TheVariants.{Concrete};
ghost use Rattle.wasm_types.specs.declared.val_type.ValType.TheVariants.{Ref};

use crate::item::Item;
use crate::left::LeftItems;
use std::alloc::Global;
use walrus_ir::{HeapType, RefType, ValType};
use wasm_body::IndexError;
use wasm_encode as encoded;
use wasm_ops::{RawValType, Space};
use wasm_sections::{Input, ModuleError, ModuleFault};

/// What is copied of a module, and the items that it names.
#[derive(Drop)]
pub(crate) struct Copier<'m> {
    /// The items that are left, with the new indices; if there are none here, each index stays as it is.
    left: Option<&'m LeftItems>,
    /// The items that were named, in order.
    pub found: Vec<Item>,
    /// What was written.
    pub out: Vec<u8>,
}

/// The reference type with this index of a type for its heap type.
fn with_index(ty: RefType<u32>, index: u32) -> RawValType
    ensures { result ≡ Ref (record { nullable = ty.nullable; heap_type = Concrete index }) }
{
    ValType::Ref(RefType {
        nullable: ty.nullable,
        heap_type: HeapType::Concrete(index),
    })
}

impl<'m> Copier<'m> {
    ghost use Rattle.std.specs.Prelude.{◌≡◌, ◌∷◌, [], Some, None, OnOk, IfErr};
    ghost use Rattle.wasm_numbers.specs.Results.{with_fault};
    ghost use Rattle.wasm_operators.specs.Shortest.{short_number, short_value};
    ghost use Rattle.wasm_sections.specs.CodeSections.{entry};
    ghost use Rattle.wasm_sections.specs.declared.fault.ModuleFault.TheVariants.{Memory as NoMemory};
    ghost use Rattle.module_removal.specs.LeftSpaces.{index_written};
    ghost use Rattle.module_removal.specs.CopiedParts.{writes, names_item, new_index_of, named_item, copied_item, copied_index, copied_byte, copied_number, copied_bytes, copied_limits, new_type, copied_value, fault_with_place, AppendsCopied, PutsCopied, Copies};

    /// One that finds what is named, and leaves indices as they are. This allocates nothing.
    pub fn finding(alloc: Global) -> Copier<'m>
        ensures left { result.left ≡ None }
        ensures found { result.found.items ≡ [] }
        ensures out { result.out.items ≡ [] }
    {
        Copier {
            left: None,
            found: Vec::new(alloc),
            out: Vec::new(alloc),
        }
    }

    /// One that writes new indices. This allocates nothing.
    pub fn renumbering(alloc: Global, left: &'m LeftItems) -> Copier<'m>
        ensures left { result.left ≡ Some left.entry }
        ensures found { result.found.items ≡ [] }
        ensures out { result.out.items ≡ [] }
    {
        Copier {
            left: Some(left),
            found: Vec::new(alloc),
            out: Vec::new(alloc),
        }
    }

    /// Forgets what was found and written.
    pub fn clear(&mut self)
        ensures left { self.new.left ≡ self.old.left }
        ensures found { self.new.found.items ≡ [] }
        ensures out { self.new.out.items ≡ [] }
    {
        self.found.clear();
        self.out.clear();
    }

    /// The new index of an item that is named at this place; `Unnumbered` if it is removed.
    fn new_index(&self, item: Item, at: usize) -> Result<u32, ModuleError>
        ensures { result ≡ with_fault (fault_with_place at) (new_index_of (index_written self.now.left) item) }
    {
        let Some(left) = self.left else {
            return Ok(item.index);
        };
        match left.new_index(item) {
            Some(index) => Ok(index),
            None => Err(ModuleError {
                fault: ModuleFault::Index(IndexError::Unnumbered { space: item.space }),
                at,
            }),
        }
    }

    /// Finds an item.
    #[tactic(auto, using(crate::proofs::CopyLemmas::appends_name))]
    pub fn find(&mut self, item: Item) -> Result<(), ModuleError>
        ensures ok { OnOk result (AppendsCopied self.old (names_item item) self.new) }
        ensures err { IfErr result (λ error. error.fault ≡ NoMemory) }
    {
        self.found.push(item)?;
        Ok(())
    }

    /// Finds an item that is named at this place, and returns its new index.
    pub fn name(&mut self, item: Item, at: usize) -> Result<u32, ModuleError>
        ensures { PutsCopied self.old self.new result
            (with_fault (fault_with_place at) (named_item (index_written self.old.left) item)) }
    {
        match self.find(item) {
            Ok(()) => self.new_index(item, at),
            Err(error) => Err(error),
        }
    }

    /// A byte.
    #[tactic(auto, using(crate::proofs::CopyLemmas::appends_bytes))]
    pub fn put_byte(&mut self, byte: u8) -> Result<(), ModuleError>
        ensures ok { OnOk result (AppendsCopied self.old (writes (byte ∷ [])) self.new) }
        ensures err { IfErr result (λ error. error.fault ≡ NoMemory) }
    {
        self.out.push(byte)?;
        Ok(())
    }

    /// Bytes.
    #[tactic(auto, using(crate::proofs::CopyLemmas::appends_bytes))]
    pub fn put(&mut self, bytes: &[u8]) -> Result<(), ModuleError>
        ensures ok { OnOk result (AppendsCopied self.old (writes bytes.now) self.new) }
        ensures err { IfErr result (λ error. error.fault ≡ NoMemory) }
    {
        self.out.extend_from_slice(bytes)?;
        Ok(())
    }

    /// A number.
    #[tactic(auto, using(crate::proofs::CopyLemmas::appends_bytes))]
    pub fn put_number(&mut self, number: u32) -> Result<(), ModuleError>
        ensures ok { OnOk result (AppendsCopied self.old (writes (short_number number)) self.new) }
        ensures err { IfErr result (λ error. error.fault ≡ NoMemory) }
    {
        encoded::write_number(&mut self.out, number as u64)?;
        Ok(())
    }

    /// A value type.
    #[tactic(auto, using(crate::proofs::CopyLemmas::appends_bytes))]
    pub fn put_type(&mut self, ty: RawValType) -> Result<(), ModuleError>
        ensures ok { OnOk result (AppendsCopied self.old (writes (short_value ty)) self.new) }
        ensures err { IfErr result (λ error. error.fault ≡ NoMemory) }
    {
        encoded::write_value_type(&mut self.out, ty)?;
        Ok(())
    }

    /// Finds an item, and writes its new index.
    pub fn put_index(&mut self, item: Item, at: usize) -> Result<(), ModuleError>
        ensures { PutsCopied self.old self.new result
            (with_fault (fault_with_place at) (copied_item (index_written self.old.left) item)) }
    {
        match self.name(item, at) {
            Ok(index) => self.put_number(index),
            Err(error) => Err(error),
        }
    }

    /// An index of this space.
    pub fn index(&mut self, input: &mut Input<'_>, space: Space) -> Result<(), ModuleError>
        ensures same_end { input.new.end ≡ input.old.end }
        ensures is { Copies self.old self.new input.new.rest.now result
            (copied_index (index_written self.old.left) space input.old.end input.old.rest.now) }
    {
        let at = input.at();
        match input.number() {
            Ok(index) => self.put_index(Item { space, index }, at),
            Err(error) => Err(error),
        }
    }

    /// A byte that stays.
    pub fn byte(&mut self, input: &mut Input<'_>) -> Result<u8, ModuleError>
        ensures same_end { input.new.end ≡ input.old.end }
        ensures is { Copies self.old self.new input.new.rest.now result
            (copied_byte input.old.end input.old.rest.now) }
    {
        match input.byte() {
            Ok(byte) => match self.put_byte(byte) {
                Ok(()) => Ok(byte),
                Err(error) => Err(error),
            },
            Err(error) => Err(error),
        }
    }

    /// A number that stays.
    pub fn number(&mut self, input: &mut Input<'_>) -> Result<u32, ModuleError>
        ensures same_end { input.new.end ≡ input.old.end }
        ensures is { Copies self.old self.new input.new.rest.now result
            (copied_number input.old.end input.old.rest.now) }
    {
        match input.number() {
            Ok(number) => match self.put_number(number) {
                Ok(()) => Ok(number),
                Err(error) => Err(error),
            },
            Err(error) => Err(error),
        }
    }

    /// A vector of bytes. Their number was read, so it fits 32 bits.
    #[tactic(auto, using(crate::proofs::CopyLemmas::appends_bytes))]
    fn put_bytes(&mut self, bytes: &[u8]) -> Result<(), ModuleError>
        ensures ok { OnOk result (AppendsCopied self.old (writes (entry bytes.now)) self.new) }
        ensures err { IfErr result (λ error. error.fault ≡ NoMemory) }
    {
        encoded::write_number(&mut self.out, bytes.len() as u64)?;
        self.out.extend_from_slice(bytes)?;
        Ok(())
    }

    /// A vector of bytes.
    pub fn bytes(&mut self, input: &mut Input<'_>) -> Result<(), ModuleError>
        ensures same_end { input.new.end ≡ input.old.end }
        ensures is { Copies self.old self.new input.new.rest.now result
            (copied_bytes input.old.end input.old.rest.now) }
    {
        match input.bytes() {
            Ok(bytes) => self.put_bytes(bytes),
            Err(error) => Err(error),
        }
    }

    /// Limits.
    pub fn limits(&mut self, input: &mut Input<'_>) -> Result<(), ModuleError>
        ensures same_end { input.new.end ≡ input.old.end }
        ensures is { Copies self.old self.new input.new.rest.now result
            (copied_limits input.old.end input.old.rest.now) }
    {
        let begin = *input;
        match input.limits() {
            Ok(_) => self.put(begin.until(input)),
            Err(error) => Err(error),
        }
    }

    /// The value type with the new index of the type that it names.
    fn new_type(&mut self, ty: RawValType, at: usize) -> Result<RawValType, ModuleError>
        ensures { PutsCopied self.old self.new result
            (with_fault (fault_with_place at) (new_type (index_written self.old.left) ty)) }
    {
        let ValType::Ref(reference) = ty else {
            return Ok(ty);
        };
        let HeapType::Concrete(index) = reference.heap_type else {
            return Ok(ty);
        };
        let item = Item {
            space: Space::Types,
            index,
        };
        match self.name(item, at) {
            Ok(index) => Ok(with_index(reference, index)),
            Err(error) => Err(error),
        }
    }

    /// A value type.
    pub fn value_type(&mut self, input: &mut Input<'_>) -> Result<(), ModuleError>
        ensures same_end { input.new.end ≡ input.old.end }
        ensures is { Copies self.old self.new input.new.rest.now result
            (copied_value (index_written self.old.left) input.old.end input.old.rest.now) }
    {
        let at = input.at();
        let ty = match input.value_type() {
            Ok(ty) => ty,
            Err(error) => return Err(error),
        };
        match self.new_type(ty, at) {
            Ok(ty) => self.put_type(ty),
            Err(error) => Err(error),
        }
    }
}
