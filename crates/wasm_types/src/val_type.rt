//! Types of values.

use crate::id::TypeId;

/// The abstract heap types (WebAssembly core specification 3.0, heap types), in the order in which
/// references to them are sorted.
#[derive(Clone, Copy, Debug, PartialEq, Eq, PartialOrd, Ord, Hash)]
pub enum AbstractHeapType {
    /// `noexn`.
    NoExn,
    /// `nofunc`.
    NoFunc,
    /// `noextern`.
    NoExtern,
    /// `none`.
    None,
    /// `func`.
    Func,
    /// `extern`.
    Extern,
    /// `any`.
    Any,
    /// `eq`.
    Eq,
    /// `i31`.
    I31,
    /// `struct`.
    Struct,
    /// `array`.
    Array,
    /// `exn`.
    Exn,
}

/// What a reference refers to (WebAssembly core specification 3.0, heap types). `T` identifies a
/// type of the module: an id in instructions, an index in operators of the binary format.
#[derive(Clone, Copy, Debug, PartialEq, Eq, PartialOrd, Ord, Hash)]
pub enum HeapType<T = TypeId> {
    /// An abstract heap type.
    Abstract(AbstractHeapType),
    /// A type of the module.
    Concrete(T),
}

/// The type of a reference (WebAssembly core specification 3.0, reference types). In the order, the
/// types that aren't nullable come first; among them, and among the others, abstract heap types
/// come before concrete ones.
#[derive(Clone, Copy, Debug, PartialEq, Eq, PartialOrd, Ord, Hash)]
pub struct RefType<T = TypeId> {
    /// Whether the reference may be null.
    pub nullable: bool,
    /// What the reference refers to.
    pub heap_type: HeapType<T>,
}

/// The type of a value (WebAssembly core specification 3.0, value types), in the order in which
/// locals are grouped.
#[derive(Clone, Copy, Debug, PartialEq, Eq, PartialOrd, Ord, Hash)]
pub enum ValType<T = TypeId> {
    /// `i32`.
    I32,
    /// `i64`.
    I64,
    /// `f32`.
    F32,
    /// `f64`.
    F64,
    /// `v128`.
    V128,
    /// A reference.
    Ref(RefType<T>),
}
