//! The types of a module (WebAssembly core specification 3.0, structure, types), with type indices.
ghost use Rattle.std.specs.Prelude.{◌≡◌};
ghost use Rattle.wasm_typing.specs.Contexts.{unpacked, is_packed, is_number, has_default};
ghost use Rattle.wasm_context.specs.Contexts.{storage_of};

use wasm_operators::RawValType;
use wasm_types::{RefType, ValType};

/// A reference type, with raw type indices.
pub type RawRefType = RefType<u32>;

/// What a field of a struct, or an element of an array, holds.
#[derive(Clone, Copy)]
pub enum StorageType {
    /// An integer of 8 bits.
    I8,
    /// An integer of 16 bits.
    I16,
    /// A value of this type.
    Value(RawValType),
}

impl StorageType {
    /// The type of its values as operands.
    pub fn unpacked(self) -> RawValType
        ensures { unpacked (storage_of self) ≡ result }
    {
        match self {
            StorageType::Value(ty) => ty,
            _ => ValType::I32,
        }
    }

    /// Whether its values are shorter than operands.
    pub fn is_packed(self) -> bool
        ensures { is_packed (storage_of self) ≡ result }
    {
        !matches!(self, StorageType::Value(_))
    }
}

/// A field of a struct, or the elements of an array.
#[derive(Clone, Copy)]
pub struct FieldType {
    /// Whether it can be changed.
    pub mutable: bool,
    /// What it holds.
    pub storage: StorageType,
}

/// What a type is.
#[derive(Drop)]
pub enum CompositeType {
    /// A function type.
    Function {
        /// The types of its parameters.
        params: Vec<RawValType>,
        /// The types of its results.
        results: Vec<RawValType>,
    },
    /// A struct type, by its fields.
    Struct(Vec<FieldType>),
    /// An array type, by its elements.
    Array(FieldType),
}

/// A type of a module.
#[derive(Drop)]
pub struct DefinedType {
    /// What it is.
    pub composite: CompositeType,
    /// The index of the type that it declares as its supertype, if it declares one.
    pub supertype: Option<u32>,
    /// The index of the first type of the module that is the same.
    pub first: u32,
}

/// Whether a value type is a number type or a vector type.
pub fn is_number(ty: RawValType) -> bool
    ensures { is_number ty ≡ result }
{
    !matches!(ty, ValType::Ref(_))
}

/// Whether a value type has a default value: each but references that may not be null.
pub fn has_default(ty: RawValType) -> bool
    ensures { has_default ty ≡ result }
{
    match ty {
        ValType::Ref(reference) => reference.nullable,
        _ => true,
    }
}
