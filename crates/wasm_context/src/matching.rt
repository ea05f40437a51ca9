//! Which types match (WebAssembly core specification 3.0, validation, matching).
ghost use Rattle.std.specs.Prelude.{◌≡◌, map};
ghost use Rattle.wasm_typing.specs.Matching.{matches_abstract, top_of, bottom_of, matches_heap, matches_reference};
ghost use Rattle.wasm_typing.specs.Matching.{matches_value, matches_values, matches_storage, matches_defined};
ghost use Rattle.wasm_typing.specs.Matching.{first_of, supertype_of, heap_kind_at, is_valid_heap, is_valid_value};
ghost use Rattle.wasm_typing.specs.Matching.{top_heap, difference};
ghost use Rattle.wasm_context.specs.Contexts.{Locals, operands_in, without_locals, storage_of, field_of, composite_in};
ghost use Rattle.wasm_context.specs.ValidTypes.{matches_field, matches_fields, matches_composite};

use crate::context::Context;
use crate::types::{CompositeType, FieldType, RawRefType, StorageType};
use wasm_operators::{RawHeapType, RawValType};
use wasm_types::{AbstractHeapType, HeapType, ValType};

/// Whether one abstract heap type matches another.
pub fn matches_abstract(a: AbstractHeapType, b: AbstractHeapType) -> bool
    ensures { matches_abstract a b ≡ result }
{
    match a {
        AbstractHeapType::Any => matches!(b, AbstractHeapType::Any),
        AbstractHeapType::Eq => matches!(b, AbstractHeapType::Eq | AbstractHeapType::Any),
        AbstractHeapType::I31 => matches!(
            b,
            AbstractHeapType::I31 | AbstractHeapType::Eq | AbstractHeapType::Any
        ),
        AbstractHeapType::Struct => matches!(
            b,
            AbstractHeapType::Struct | AbstractHeapType::Eq | AbstractHeapType::Any
        ),
        AbstractHeapType::Array => matches!(
            b,
            AbstractHeapType::Array | AbstractHeapType::Eq | AbstractHeapType::Any
        ),
        AbstractHeapType::None => matches!(
            b,
            AbstractHeapType::None
                | AbstractHeapType::I31
                | AbstractHeapType::Struct
                | AbstractHeapType::Array
                | AbstractHeapType::Eq
                | AbstractHeapType::Any
        ),
        AbstractHeapType::Func => matches!(b, AbstractHeapType::Func),
        AbstractHeapType::NoFunc => matches!(b, AbstractHeapType::NoFunc | AbstractHeapType::Func),
        AbstractHeapType::Extern => matches!(b, AbstractHeapType::Extern),
        AbstractHeapType::NoExtern => matches!(
            b,
            AbstractHeapType::NoExtern | AbstractHeapType::Extern
        ),
        AbstractHeapType::Exn => matches!(b, AbstractHeapType::Exn),
        AbstractHeapType::NoExn => matches!(b, AbstractHeapType::NoExn | AbstractHeapType::Exn),
    }
}

/// The greatest heap type of the hierarchy of an abstract one.
fn top_of(heap: AbstractHeapType) -> AbstractHeapType
    ensures { top_of heap ≡ result }
{
    match heap {
        AbstractHeapType::Func | AbstractHeapType::NoFunc => AbstractHeapType::Func,
        AbstractHeapType::Extern | AbstractHeapType::NoExtern => AbstractHeapType::Extern,
        AbstractHeapType::Exn | AbstractHeapType::NoExn => AbstractHeapType::Exn,
        _ => AbstractHeapType::Any,
    }
}

/// The least heap type of the hierarchy of an abstract one.
fn bottom_of(heap: AbstractHeapType) -> AbstractHeapType
    ensures { bottom_of heap ≡ result }
{
    match heap {
        AbstractHeapType::Func | AbstractHeapType::NoFunc => AbstractHeapType::NoFunc,
        AbstractHeapType::Extern | AbstractHeapType::NoExtern => AbstractHeapType::NoExtern,
        AbstractHeapType::Exn | AbstractHeapType::NoExn => AbstractHeapType::NoExn,
        _ => AbstractHeapType::None,
    }
}

/// The type of a reference of the first type on which a cast to the second fails.
pub fn difference(a: RawRefType, b: RawRefType) -> RawRefType
    ensures { difference a b ≡ result }
{
    RawRefType {
        nullable: a.nullable && !b.nullable,
        heap_type: a.heap_type,
    }
}

impl Context {
    /// The index of the first type that is the same as the one with this index.
    fn first(&self, index: u32) -> u32
        ensures { first_of (without_locals self.now) index ≡ result }
    {
        match self.types.get(index as usize) {
            Some(ty) => ty.first,
            None => index,
        }
    }

    /// The index of the declared supertype of the type with this index, if it is there and has one.
    fn supertype(&self, index: u32) -> Option<u32>
        ensures { supertype_of (without_locals self.now) index ≡ result }
    {
        match self.types.get(index as usize) {
            Some(ty) => ty.supertype,
            None => None,
        }
    }

    /// The abstract heap type of the type with this index, if it is there.
    fn heap_kind(&self, index: u32) -> Option<AbstractHeapType>
        ensures { heap_kind_at (without_locals self.now) index ≡ result }
    {
        match self.types.get(index as usize) {
            Some(ty) => match &ty.composite {
                CompositeType::Function { .. } => Some(AbstractHeapType::Func),
                CompositeType::Struct(_) => Some(AbstractHeapType::Struct),
                CompositeType::Array(_) => Some(AbstractHeapType::Array),
            },
            None => None,
        }
    }

    /// Whether a type, or a declared supertype of it, is the same as another type; both by their indices.
    fn matches_defined(&self, index: u32, wanted: u32) -> bool
        ensures { (locals : Locals)
            → matches_defined (operands_in self.now locals) index wanted ≡ result }
    {
        let first = self.first(wanted);
        let mut current = index;
        for _step in 0..self.types.len() + 1 {
            if self.first(current) == first {
                return true;
            }
            match self.supertype(current) {
                Some(above) => current = above,
                None => return false,
            }
        }
        false
    }

    /// Whether one heap type matches another.
    pub fn matches_heap(&self, a: RawHeapType, b: RawHeapType) -> bool
        ensures { (locals : Locals)
            → matches_heap (operands_in self.now locals) a b ≡ result }
    {
        match a {
            HeapType::Abstract(x) => match b {
                HeapType::Abstract(y) => matches_abstract(x, y),
                HeapType::Concrete(n) => match self.heap_kind(n) {
                    Some(kind) => matches_abstract(x, bottom_of(kind)),
                    None => false,
                },
            },
            HeapType::Concrete(m) => match b {
                HeapType::Abstract(y) => match self.heap_kind(m) {
                    Some(kind) => matches_abstract(kind, y),
                    None => false,
                },
                HeapType::Concrete(n) => self.matches_defined(m, n),
            },
        }
    }

    /// Whether one reference type matches another.
    pub fn matches_reference(&self, a: RawRefType, b: RawRefType) -> bool
        ensures { (locals : Locals)
            → matches_reference (operands_in self.now locals) a b ≡ result }
    {
        (!a.nullable || b.nullable) && self.matches_heap(a.heap_type, b.heap_type)
    }

    /// Whether one value type matches another.
    pub fn matches_value(&self, a: RawValType, b: RawValType) -> bool
        ensures { (locals : Locals)
            → matches_value (operands_in self.now locals) a b ≡ result }
    {
        match a {
            ValType::I32 => matches!(b, ValType::I32),
            ValType::I64 => matches!(b, ValType::I64),
            ValType::F32 => matches!(b, ValType::F32),
            ValType::F64 => matches!(b, ValType::F64),
            ValType::V128 => matches!(b, ValType::V128),
            ValType::Ref(x) => match b {
                ValType::Ref(y) => self.matches_reference(x, y),
                _ => false,
            },
        }
    }

    /// Whether as many value types match others, each the one at its place.
    pub fn matches_values(&self, given: &[RawValType], wanted: &[RawValType]) -> bool
        ensures { (locals : Locals)
            → matches_values (operands_in self.now locals) given.now wanted.now ≡ result }
    {
        if given.len() != wanted.len() {
            return false;
        }
        for (a, b) in given.iter().zip(wanted) {
            if !self.matches_value(*a, *b) {
                return false;
            }
        }
        true
    }

    /// Whether one storage type matches another.
    pub fn matches_storage(&self, a: StorageType, b: StorageType) -> bool
        ensures { (locals : Locals)
            → matches_storage (operands_in self.now locals) (storage_of a) (storage_of b) ≡ result }
    {
        match a {
            StorageType::I8 => matches!(b, StorageType::I8),
            StorageType::I16 => matches!(b, StorageType::I16),
            StorageType::Value(x) => match b {
                StorageType::Value(y) => self.matches_value(x, y),
                _ => false,
            },
        }
    }

    /// Whether one field matches another.
    pub fn matches_field(&self, a: FieldType, b: FieldType) -> bool
        ensures { (locals : Locals)
            → matches_field (operands_in self.now locals) (field_of a) (field_of b) ≡ result }
    {
        a.mutable == b.mutable
            && self.matches_storage(a.storage, b.storage)
            && (!a.mutable || self.matches_storage(b.storage, a.storage))
    }

    /// Whether fields, of which there may be more, match others, each the one at its place.
    pub fn matches_fields(&self, given: &[FieldType], wanted: &[FieldType]) -> bool
        ensures { (locals : Locals)
            → matches_fields (operands_in self.now locals)
            (map field_of given.now) (map field_of wanted.now) ≡ result }
    {
        if given.len() < wanted.len() {
            return false;
        }
        for (a, b) in given.iter().zip(wanted) {
            if !self.matches_field(*a, *b) {
                return false;
            }
        }
        true
    }

    /// Whether what one type is matches what another is. Functions match the other way round in their parameters.
    pub fn matches_composite(&self, a: &CompositeType, b: &CompositeType) -> bool
        ensures { (locals : Locals)
            → matches_composite (operands_in self.now locals)
            (composite_in a.now) (composite_in b.now) ≡ result }
    {
        match (a, b) {
            (
                CompositeType::Function { params, results },
                CompositeType::Function {
                    params: wanted_params,
                    results: wanted_results,
                },
            ) => {
                self.matches_values(wanted_params, params)
                    && self.matches_values(results, wanted_results)
            }
            (CompositeType::Struct(given), CompositeType::Struct(wanted)) => {
                self.matches_fields(given, wanted)
            }
            (CompositeType::Array(x), CompositeType::Array(y)) => self.matches_field(*x, *y),
            _ => false,
        }
    }

    /// Whether a heap type is abstract or a type of the module.
    pub fn is_valid_heap(&self, heap: RawHeapType) -> bool
        ensures { (locals : Locals) → is_valid_heap (operands_in self.now locals) heap ≡ result }
    {
        match heap {
            HeapType::Abstract(_) => true,
            HeapType::Concrete(index) => (index as usize) < self.types.len(),
        }
    }

    /// Whether a value type names only types of the module.
    pub fn is_valid_value(&self, ty: RawValType) -> bool
        ensures { (locals : Locals) → is_valid_value (operands_in self.now locals) ty ≡ result }
    {
        match ty {
            ValType::Ref(reference) => self.is_valid_heap(reference.heap_type),
            _ => true,
        }
    }

    /// The top of the hierarchy of a heap type; `None` if it names a type that isn't there.
    pub fn top_heap(&self, heap: RawHeapType) -> Option<AbstractHeapType>
        ensures { (locals : Locals) → top_heap (operands_in self.now locals) heap ≡ result }
    {
        match heap {
            HeapType::Abstract(kind) => Some(top_of(kind)),
            HeapType::Concrete(index) => match self.heap_kind(index) {
                Some(kind) => Some(top_of(kind)),
                None => None,
            },
        }
    }
}
