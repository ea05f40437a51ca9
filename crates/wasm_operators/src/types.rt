//! Types and other immediates as they are encoded, with raw indices.

use std::fmt;
use std::marker::Model;
use wasm_types::{AtomicOp, AtomicWidth, HeapType, ValType};

/// A value type, with raw type indices (WebAssembly core specification 3.0, binary format, types).
pub type RawValType = ValType<u32>;
/// A heap type, with raw type indices (WebAssembly core specification 3.0, binary format, types).
pub type RawHeapType = HeapType<u32>;

/// The type of a block, as it is encoded (WebAssembly core specification 3.0, binary format,
/// control instructions).
#[derive(Clone, Copy, Debug, PartialEq, Eq, Hash)]
pub enum BlockType {
    /// No parameters and no results.
    Empty,
    /// No parameters and one result.
    Value(RawValType),
    /// The parameters and results of the function type with this raw index.
    FuncType(u32),
}

/// A memory argument, as it is encoded (WebAssembly core specification 3.0, binary format, memory
/// instructions).
#[derive(Clone, Copy, Debug, PartialEq, Eq)]
pub struct RawMemArg {
    /// The exponent of two of the alignment in bytes; at most 31.
    pub exponent: u32,
    /// The raw index of the memory.
    pub memory: u32,
    /// The number of bytes that is added to the address.
    pub offset: u64,
}

/// The immediates of `br_on_cast` and `br_on_cast_fail`, as they are encoded (WebAssembly core
/// specification 3.0, binary format, control instructions).
#[derive(Clone, Copy, Debug, PartialEq, Eq)]
pub struct RawCast {
    /// Whether the source type of the cast is nullable.
    pub from_nullable: bool,
    /// Whether the target type of the cast is nullable.
    pub to_nullable: bool,
    /// The label, as a depth.
    pub label: u32,
    /// The heap type of the source.
    pub source: RawHeapType,
    /// The heap type of the target.
    pub target: RawHeapType,
}

/// An atomic access other than a plain load or store (the proposal for threads).
#[derive(Clone, Copy, Debug)]
pub enum AtomicKind {
    /// `memory.atomic.notify`
    Notify,
    /// `memory.atomic.wait32`
    Wait32,
    /// `memory.atomic.wait64`
    Wait64,
    /// A read, a change and a write, such as `i32.atomic.rmw.add`.
    Rmw(AtomicOp, AtomicWidth),
    /// A read, a comparison and a write, such as `i32.atomic.rmw.cmpxchg`.
    Cmpxchg(AtomicWidth),
}

/// The index spaces of a module (WebAssembly core specification 3.0, structure, modules, indices).
#[derive(Clone, Copy, Debug, PartialEq, Eq, Hash)]
pub enum Space {
    /// Tables.
    Tables,
    /// Types.
    Types,
    /// Functions.
    Funcs,
    /// Globals.
    Globals,
    /// Memories.
    Memories,
    /// Element segments.
    Elements,
    /// Data segments.
    Data,
    /// Tags.
    Tags,
}

impl fmt::Display for Space {
    fn fmt<W: fmt::Write>(&self, f: &mut fmt::Formatter<W>) -> fmt::Result {
        f.write_str(match self {
            Space::Tables => "tables",
            Space::Types => "types",
            Space::Funcs => "funcs",
            Space::Globals => "globals",
            Space::Memories => "memories",
            Space::Elements => "elements",
            Space::Data => "data",
            Space::Tags => "tags",
        })
    }
}

/// The opcode of an operator (WebAssembly core specification 3.0, binary format, instructions).
#[derive(Clone, Copy, Debug, PartialEq, Eq, Hash)]
pub enum Opcode {
    /// An opcode of one byte.
    Byte(u8),
    /// A prefix byte and the number after it.
    Prefixed(u8, u32),
}

/// A clause of `try_table`, as it is encoded (WebAssembly core specification 3.0, binary format,
/// control instructions). In a contract, it is a `CatchClause`.
#[derive(Clone, Copy, Debug, PartialEq, Eq)]
pub struct RawCatch {
    /// Whether it passes a reference to the exception, as `catch_ref` and `catch_all_ref` do.
    pub by_reference: bool,
    /// The raw index of its tag; `None` if it catches all exceptions.
    pub tag: Option<u32>,
    /// Its label, as a depth.
    pub label: u32,
}

impl Model for RawCatch {
    ghost use Rattle.wasm_operators.specs.Operations.{CatchClause};
    ghost use Rattle.std.specs.Prelude.{ℕ};

    ghost Value = { CatchClause ℕ };

    ghost view = { λ c. record { by_reference = c.by_reference; tag = c.tag; label = c.label } };

    ghost inverse = { λ c. record { by_reference = c.by_reference; tag = c.tag; label = c.label } };
}
