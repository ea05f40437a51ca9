//! Contexts.
ghost use Rattle.std.specs.Prelude.{◌≡◌};
ghost use Rattle.wasm_typing.specs.Contexts.{address, narrower};
ghost use Rattle.wasm_context.specs.Contexts.{address_of};

use crate::types::{DefinedType, RawRefType};
use wasm_operators::RawValType;
use wasm_types::ValType;

/// The type of the addresses of a memory or a table.
#[derive(Clone, Copy)]
pub enum AddressType {
    /// `i32`
    Address32,
    /// `i64`
    Address64,
}

impl AddressType {
    /// The type of an address as an operand.
    pub fn value(self) -> RawValType
        ensures { address (address_of self) ≡ result }
    {
        match self {
            AddressType::Address32 => ValType::I32,
            AddressType::Address64 => ValType::I64,
        }
    }

    /// The narrower one of both.
    pub fn narrower(self, other: AddressType) -> AddressType
        ensures { narrower (address_of self) (address_of other) ≡ address_of result }
    {
        match self {
            AddressType::Address32 => AddressType::Address32,
            AddressType::Address64 => other,
        }
    }
}

/// The type of a global.
#[derive(Clone, Copy)]
pub struct GlobalType {
    /// Whether it can be changed.
    pub mutable: bool,
    /// The type of its value.
    pub ty: RawValType,
}

/// The type of a table.
#[derive(Clone, Copy)]
pub struct TableType {
    /// The type of its addresses.
    pub address: AddressType,
    /// The type of its elements.
    pub element: RawRefType,
}

/// What the types of a module's operators depend on. Each list is an index space, in order.
#[derive(Drop)]
pub struct Context {
    /// The types.
    pub types: Vec<DefinedType>,
    /// The type of each function.
    pub functions: Vec<u32>,
    /// For each function, whether `ref.func` may name it: whether something other than a body does
    /// ("C.refs").
    pub referenced: Vec<bool>,
    /// The tables.
    pub tables: Vec<TableType>,
    /// The type of each memory's addresses.
    pub memories: Vec<AddressType>,
    /// The globals.
    pub globals: Vec<GlobalType>,
    /// The type of each element segment.
    pub elements: Vec<RawRefType>,
    /// The number of data segments.
    pub data_segments: u32,
    /// The type of each tag.
    pub tags: Vec<u32>,
}
