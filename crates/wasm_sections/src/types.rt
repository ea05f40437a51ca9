//! The type section (WebAssembly core specification 3.0, binary format, types).

ghost use Rattle.std.specs.Prelude.{◌≡◌, ◌<◌, ◌≤◌, ◌+◌, ◌^◌, List, length, OnOk, IfOk, Ok};
ghost use Rattle.wasm_numbers.specs.Results.{Gives};
ghost use Rattle.walrus_ir.specs.Types.{ModuleType, Func};
ghost use Rattle.wasm_operators.specs.declared.types.Space.TheVariants.{Types};
ghost use Rattle.wasm_sections.specs.declared.fault.ModuleFault.TheVariants.{IndexOutOfRange};
ghost use Rattle.wasm_sections.specs.Format.{mutability_part, value_below, members_part, field_part, composite_part, index_part, supertypes_part, subtype_part, next_group, types_part, type_read};
ghost use Rattle.wasm_sections.specs.Parts.{fault_here, number, vector_of, passed, GivesUnlessMemory};
ghost use Rattle.wasm_sections.specs.TypeParts.{fields_part, function_type_part, CountsTypes, type_count};

use crate::fault::{ModuleError, ModuleFault};
use crate::input::Input;
use std::alloc::Global;
use walrus_ir::{HeapType, RefType, ValType};
use wasm_body::Space;
use wasm_ops::{RawValType, ReadFault};

/// What a composite type is, as far as bodies of functions use it.
#[derive(Clone, Copy)]
pub enum TypeKind {
    /// A function type.
    Func,
    /// A struct or array type.
    Other,
}

impl Input<'_> {
    /// The error of a type index that no type has.
    fn no_type(&self, index: u32) -> ModuleError
        ensures { result ≡ fault_here self.now.end self.now.rest.now (IndexOutOfRange Types index) }
    {
        self.fault(ModuleFault::IndexOutOfRange {
            space: Space::Types,
            index,
        })
    }
}

/// Reads the types of a section, in order. Their type indices have to be less than `limit`.
#[derive(Drop)]
pub struct TypeReader<'a> {
    input: Input<'a>,
    limit: usize,
    params: Vec<RawValType>,
    results: Vec<RawValType>,
}

/// Reads a vector of value types into this list, whose type indices have to be less than `limit`.
fn read_value_types(
    input: &mut Input<'_>,
    limit: usize,
    types: &mut Vec<RawValType>,
) -> Result<(), ModuleError>
    ensures same_end { input.new.end ≡ input.old.end }
    ensures shorter { OnOk result (length input.new.rest.now < length input.old.rest.now) }
    ensures is { GivesUnlessMemory (λ _. (types.new.items, input.new.rest.now)) result
        (vector_of (value_below limit) input.old.end input.old.rest.now) }
{
    types.clear();
    let count = match input.number() {
        Ok(count) => count,
        Err(error) => return Err(error),
    };
    'types: for _ in 0..count {
        match read_value_type(input, limit) {
            Ok(ty) => types.push(ty)?,
            Err(error) => return Err(error),
        }
    }
    Ok(())
}

/// Reads a value type, whose type index, if it has one, has to be less than `limit`.
fn read_value_type(input: &mut Input<'_>, limit: usize) -> Result<RawValType, ModuleError>
    ensures same_end { input.new.end ≡ input.old.end }
    ensures shorter { OnOk result (length input.new.rest.now ≤ length input.old.rest.now) }
    ensures is { Gives (λ ty. (ty, input.new.rest.now)) result (value_below limit input.old.end
        input.old.rest.now) }
{
    let begin = *input;
    let ty = input.value_type()?;
    match ty {
        ValType::Ref(
            RefType {
                heap_type: HeapType::Concrete(index),
                ..
            },
        ) if index as usize >= limit => { Err(begin.no_type(index)) }
        _ => Ok(ty),
    }
}

impl<'a> TypeReader<'a> {
    /// A reader of the types of a section. This allocates nothing.
    pub fn new(alloc: Global, section: Input<'a>, limit: usize) -> TypeReader<'a>
        ensures input { result.input ≡ section.entry }
        ensures limit { result.limit ≡ limit }
    {
        TypeReader {
            input: section,
            limit,
            params: Vec::new(alloc),
            results: Vec::new(alloc),
        }
    }

    /// The number of recursive groups, at the front of the section; a type alone counts as a group.
    pub fn groups(&mut self) -> Result<u32, ModuleError>
        ensures same_limit { self.new.limit ≡ self.old.limit }
        ensures same_end { self.new.input.end ≡ self.old.input.end }
        ensures shorter { OnOk result
            (length self.new.input.rest.now ≤ length self.old.input.rest.now) }
        ensures is { Gives (λ n. (n, self.new.input.rest.now)) result (number self.old.input.end
            self.old.input.rest.now) }
    {
        self.input.number()
    }

    /// The number of members of the next group; 1 for a type alone.
    pub fn members(&mut self) -> Result<u32, ModuleError>
        ensures same_limit { self.new.limit ≡ self.old.limit }
        ensures same_end { self.new.input.end ≡ self.old.input.end }
        ensures shorter { OnOk result
            (length self.new.input.rest.now ≤ length self.old.input.rest.now) }
        ensures is { Gives (λ n. (n, self.new.input.rest.now)) result (members_part
            self.old.input.end self.old.input.rest.now) }
    {
        if !matches!(self.input.rest(), [0x4e, ..]) {
            return Ok(1);
        }
        match self.input.byte() {
            Ok(_) => self.input.number(),
            Err(error) => Err(error),
        }
    }

    /// Reads past a mutability.
    fn mutability(&mut self) -> Result<(), ModuleError>
        ensures same_limit { self.new.limit ≡ self.old.limit }
        ensures same_end { self.new.input.end ≡ self.old.input.end }
        ensures shorter { OnOk result
            (length self.new.input.rest.now ≤ length self.old.input.rest.now) }
        ensures is { Gives (λ _. (tt, self.new.input.rest.now)) result
            (passed mutability_part self.old.input.end self.old.input.rest.now) }
    {
        match self.input.mutability() {
            Ok(_) => Ok(()),
            Err(error) => Err(error),
        }
    }

    /// Reads past the type of a field: a value type, or one of 8 or 16 bits, and its mutability.
    fn field(&mut self) -> Result<(), ModuleError>
        ensures same_limit { self.new.limit ≡ self.old.limit }
        ensures same_end { self.new.input.end ≡ self.old.input.end }
        ensures shorter { OnOk result
            (length self.new.input.rest.now ≤ length self.old.input.rest.now) }
        ensures is { Gives (λ _. (tt, self.new.input.rest.now)) result (field_part
            self.old.limit self.old.input.end self.old.input.rest.now) }
    {
        if matches!(self.input.rest(), [0x77 | 0x78, ..]) {
            return match self.input.byte() {
                Ok(_) => self.mutability(),
                Err(error) => Err(error),
            };
        }
        match read_value_type(&mut self.input, self.limit) {
            Ok(_) => self.mutability(),
            Err(error) => Err(error),
        }
    }

    /// Reads past a vector of types of fields.
    fn fields(&mut self) -> Result<(), ModuleError>
        ensures same_limit { self.new.limit ≡ self.old.limit }
        ensures same_end { self.new.input.end ≡ self.old.input.end }
        ensures shorter { OnOk result
            (length self.new.input.rest.now ≤ length self.old.input.rest.now) }
        ensures is { Gives (λ _. (tt, self.new.input.rest.now)) result (fields_part
            self.old.limit self.old.input.end self.old.input.rest.now) }
    {
        let count = match self.input.number() {
            Ok(count) => count,
            Err(error) => return Err(error),
        };
        'fields: for _ in 0..count {
            match self.field() {
                Ok(()) => {}
                Err(error) => return Err(error),
            }
        }
        Ok(())
    }

    /// The lists of a function type.
    fn function_type(&mut self) -> Result<(), ModuleError>
        ensures same_limit { self.new.limit ≡ self.old.limit }
        ensures same_end { self.new.input.end ≡ self.old.input.end }
        ensures shorter { OnOk result
            (length self.new.input.rest.now ≤ length self.old.input.rest.now) }
        ensures is { GivesUnlessMemory (λ _. (
          Func self.new.params.items self.new.results.items,
          self.new.input.rest.now,
        )) result (function_type_part self.old.limit self.old.input.end
            self.old.input.rest.now) }
    {
        match read_value_types(&mut self.input, self.limit, &mut self.params) {
            Ok(()) => {}
            Err(error) => return Err(error),
        }
        read_value_types(&mut self.input, self.limit, &mut self.results)
    }

    /// A composite type.
    fn composite_type(&mut self) -> Result<TypeKind, ModuleError>
        ensures same_limit { self.new.limit ≡ self.old.limit }
        ensures same_end { self.new.input.end ≡ self.old.input.end }
        ensures shorter { OnOk result
            (length self.new.input.rest.now < length self.old.input.rest.now) }
        ensures is { GivesUnlessMemory (λ kind. (
          type_read kind self.new.params.items
              self.new.results.items,
          self.new.input.rest.now,
        )) result (composite_part
            self.old.limit self.old.input.end self.old.input.rest.now) }
    {
        let begin = self.input;
        match self.input.byte() {
            Ok(0x60) => match self.function_type() {
                Ok(()) => Ok(TypeKind::Func),
                Err(error) => Err(error),
            },
            Ok(0x5f) => match self.fields() {
                Ok(()) => Ok(TypeKind::Other),
                Err(error) => Err(error),
            },
            Ok(0x5e) => match self.field() {
                Ok(()) => Ok(TypeKind::Other),
                Err(error) => Err(error),
            },
            Ok(_) => Err(begin.fault(ModuleFault::Read(ReadFault::BadType))),
            Err(error) => Err(error),
        }
    }

    /// Reads past a type index, which has to be less than the limit.
    fn supertype(&mut self) -> Result<(), ModuleError>
        ensures same_limit { self.new.limit ≡ self.old.limit }
        ensures same_end { self.new.input.end ≡ self.old.input.end }
        ensures shorter { OnOk result
            (length self.new.input.rest.now ≤ length self.old.input.rest.now) }
        ensures is { Gives (λ _. (tt, self.new.input.rest.now)) result (index_part
            self.old.limit Types self.old.input.end self.old.input.rest.now) }
    {
        let begin = self.input;
        match self.input.number() {
            Ok(index) if index as usize >= self.limit => Err(begin.no_type(index)),
            Ok(_) => Ok(()),
            Err(error) => Err(error),
        }
    }

    /// Reads past the byte before the supertypes of a type, and past the vector of these.
    fn supertypes(&mut self) -> Result<(), ModuleError>
        ensures same_limit { self.new.limit ≡ self.old.limit }
        ensures same_end { self.new.input.end ≡ self.old.input.end }
        ensures shorter { OnOk result
            (length self.new.input.rest.now ≤ length self.old.input.rest.now) }
        ensures is { Gives (λ _. (tt, self.new.input.rest.now)) result (supertypes_part
            self.old.limit self.old.input.end self.old.input.rest.now) }
    {
        match self.input.byte() {
            Ok(_) => {}
            Err(error) => return Err(error),
        }
        let count = match self.input.number() {
            Ok(count) => count,
            Err(error) => return Err(error),
        };
        'supertypes: for _ in 0..count {
            match self.supertype() {
                Ok(()) => {}
                Err(error) => return Err(error),
            }
        }
        Ok(())
    }

    /// The next type, without its supertypes. The lists of a function type are `params` and `results`
    /// until the next call.
    pub fn subtype(&mut self) -> Result<TypeKind, ModuleError>
        ensures same_limit { self.new.limit ≡ self.old.limit }
        ensures same_end { self.new.input.end ≡ self.old.input.end }
        ensures shorter { OnOk result
            (length self.new.input.rest.now < length self.old.input.rest.now) }
        ensures is { GivesUnlessMemory (λ kind. (
          type_read kind self.new.params.items
              self.new.results.items,
          self.new.input.rest.now,
        )) result (subtype_part
            self.old.limit self.old.input.end self.old.input.rest.now) }
    {
        if !matches!(self.input.rest(), [0x4f | 0x50, ..]) {
            return self.composite_type();
        }
        match self.supertypes() {
            Ok(()) => self.composite_type(),
            Err(error) => Err(error),
        }
    }

    /// The parameters of the function type that was read last.
    pub fn params(&self) -> &[RawValType]
        ensures { result.now ≡ self.now.params.items }
    {
        &self.params
    }

    /// The results of the function type that was read last.
    pub fn results(&self) -> &[RawValType]
        ensures { result.now ≡ self.now.results.items }
    {
        &self.results
    }
}

/// Reads a recursive group, and returns the number of types with those of the group.
fn count_group(reader: &mut TypeReader<'_>, count: usize) -> Result<usize, ModuleError>
    ensures same_limit { reader.new.limit ≡ reader.old.limit }
    ensures same_end { reader.new.input.end ≡ reader.old.input.end }
    ensures few { IfOk result (λ n. n + length reader.new.input.rest.now
        ≤ count + length reader.old.input.rest.now) }
    ensures is { (types : List ModuleType) → length types ≡ count
        → count + length reader.old.input.rest.now < 2 ^ 64
        → CountsTypes reader.new.input.rest.now result (next_group reader.old.limit types
        reader.old.input.end reader.old.input.rest.now) }
{
    let members = match reader.members() {
        Ok(members) => members,
        Err(error) => return Err(error),
    };
    let mut count = count;
    'group: for _ in 0..members {
        match reader.subtype() {
            Ok(_) => count = count.saturating_add(1),
            Err(error) => return Err(error),
        }
    }
    Ok(count)
}

/// Reads the types of a section, and returns their number.
fn count_all(reader: &mut TypeReader<'_>) -> Result<usize, ModuleError>
    ensures same_end { reader.new.input.end ≡ reader.old.input.end }
    ensures is { CountsTypes reader.new.input.rest.now result (types_part reader.old.limit
        reader.old.input.end reader.old.input.rest.now) }
{
    let groups = match reader.groups() {
        Ok(groups) => groups,
        Err(error) => return Err(error),
    };
    // The sum fits, as the place of the end does: each type has at least one byte.
    let _place = reader.input.at();
    let mut count: usize = 0;
    'groups: for _ in 0..groups {
        match count_group(reader, count) {
            Ok(more) => count = more,
            Err(error) => return Err(error),
        }
    }
    Ok(count)
}

/// The number of types of a type section, which are all read; their type indices aren't checked.
///
/// # Errors
///
/// `Truncated`, `BadNumber`, `BadType`, `BadMutability`, `Trailing`; or `Memory`.
pub fn count_types(alloc: Global, section: Input<'_>) -> Result<usize, ModuleError>
    ensures { GivesUnlessMemory (λ count. count) result (type_count section.entry.end
        section.entry.rest.now) }
{
    let mut reader = TypeReader::new(alloc, section, usize::MAX);
    match count_all(&mut reader) {
        Ok(count) => match reader.input.finish() {
            Ok(()) => Ok(count),
            Err(error) => Err(error),
        },
        Err(error) => Err(error),
    }
}
