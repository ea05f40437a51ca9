//! What the indices of a module name. Where nothing has the index, or nothing of the kind that is asked for, a
//! function returns `None`, or `false`.
ghost use Rattle.std.specs.Prelude.{◌≡◌, map, slice_get, option_map, nat_lt, IfSome, Some};
ghost use Rattle.walrus_ir.specs.Types.{signature};
ghost use Rattle.wasm_body.specs.Validity.{required};
ghost use Rattle.wasm_typing.specs.Contexts.{contains, function_type_in, struct_type, array_type};
ghost use Rattle.wasm_context.specs.Validation.{tag_signature};
ghost use Rattle.wasm_context.specs.Contexts.{without_locals, context_of, field_of, table_of, address_of, global_type_in, params_at, results_at, signature_at};

use crate::context::{AddressType, Context, GlobalType, TableType};
use crate::types::{CompositeType, FieldType, RawRefType};
use wasm_operators::RawValType;

impl Context {
    ghost use Rattle.std.specs.Prelude.{[]};

    /// The types of the parameters and of the results of the function type with this index.
    pub fn function_type(&self, index: u32) -> Option<(&[RawValType], &[RawValType])>
        ensures { function_type_in (without_locals self.now) index
            ≡ required (option_map (λ s. signature s.0.now s.1.now) result) }
    {
        match self.types.get(index as usize) {
            Some(ty) => match &ty.composite {
                CompositeType::Function { params, results } => Some((params, results)),
                _ => None,
            },
            None => None,
        }
    }

    /// The types of the parameters of the function type with this index; none if it isn't one.
    pub fn params_at(&self, index: u32) -> &[RawValType]
        ensures { result.now ≡ params_at self.now index }
    {
        match self.function_type(index) {
            Some((params, _)) => params,
            None => &[],
        }
    }

    /// The types of the results of the function type with this index; none if it isn't one.
    pub fn results_at(&self, index: u32) -> &[RawValType]
        ensures { result.now ≡ results_at self.now index }
    {
        match self.function_type(index) {
            Some((_, results)) => results,
            None => &[],
        }
    }

    /// The fields of the struct type with this index.
    pub fn struct_fields(&self, index: u32) -> Option<&[FieldType]>
        ensures { struct_type (without_locals self.now) index
            ≡ required (option_map (λ fields. map field_of fields.now) result) }
    {
        match self.types.get(index as usize) {
            Some(ty) => match &ty.composite {
                CompositeType::Struct(fields) => Some(fields),
                _ => None,
            },
            None => None,
        }
    }

    /// The type of the elements of the array type with this index.
    pub fn array_element(&self, index: u32) -> Option<FieldType>
        ensures { array_type (without_locals self.now) index ≡ required (option_map field_of result) }
    {
        match self.types.get(index as usize) {
            Some(ty) => match ty.composite {
                CompositeType::Array(element) => Some(element),
                _ => None,
            },
            None => None,
        }
    }

    /// The index of the type of the function with this index.
    pub fn function_of(&self, func: u32) -> Option<u32>
        ensures { slice_get (without_locals self.now).functions func ≡ result }
    {
        self.functions.get(func as usize).copied()
    }

    /// Whether `ref.func` may name the function with this index, if it is there.
    fn mark(&self, func: u32) -> Option<bool>
        ensures { slice_get self.now.referenced.items func ≡ result }
    {
        self.referenced.get(func as usize).copied()
    }

    /// Whether `ref.func` may name the function with this index.
    pub fn is_referenced(&self, func: u32) -> bool
        ensures { contains func (without_locals self.now).referenced ≡ result }
    {
        match self.mark(func) {
            Some(is_referenced) => is_referenced,
            None => false,
        }
    }

    /// The index of the type of the tag with this index, which is a function type.
    pub fn tag_type(&self, tag: u32) -> Option<u32>
        ensures signature { tag_signature (context_of self.now []) tag
            ≡ required (option_map (signature_at self.now) result) }
        ensures index { IfSome result (λ index. slice_get self.now.tags.items tag ≡ Some index) }
    {
        match self.tags.get(tag as usize) {
            Some(index) => match self.function_type(*index) {
                Some(_) => Some(*index),
                None => None,
            },
            None => None,
        }
    }

    /// The type of the table with this index.
    pub fn table(&self, index: u32) -> Option<TableType>
        ensures { slice_get (without_locals self.now).tables index ≡ option_map table_of result }
    {
        match self.tables.get(index as usize) {
            Some(table) => Some(*table),
            None => None,
        }
    }

    /// The type of the addresses of the memory with this index.
    pub fn memory(&self, index: u32) -> Option<AddressType>
        ensures { slice_get (without_locals self.now).memories index ≡ option_map address_of result }
    {
        self.memories.get(index as usize).copied()
    }

    /// The type of the global with this index.
    pub fn global(&self, index: u32) -> Option<GlobalType>
        ensures { slice_get (without_locals self.now).globals index ≡ option_map global_type_in result }
    {
        match self.globals.get(index as usize) {
            Some(global) => Some(*global),
            None => None,
        }
    }

    /// The type of the element segment with this index.
    pub fn element(&self, index: u32) -> Option<RawRefType>
        ensures { slice_get (without_locals self.now).elements index ≡ result }
    {
        self.elements.get(index as usize).copied()
    }

    /// Whether there is a data segment with this index.
    pub fn has_data(&self, index: u32) -> bool
        ensures { nat_lt index (without_locals self.now).data_segments ≡ result }
    {
        index < self.data_segments
    }
}
