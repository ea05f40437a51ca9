//! Operators on references, structs and arrays.

use crate::types::{RawCast, RawHeapType};

/// An operator on references, structs or arrays, as it is encoded (WebAssembly core specification
/// 3.0, binary format, instructions): with raw indices, and labels as depths. The fields `ty`,
/// `func`, `data` and `element` are indices; `target` and `source` are indices of types; `label` is
/// a depth; `field` is the number of a field; `len` is the number of elements; `nullable` says
/// whether null passes.
#[derive(Clone, Copy)]
pub enum ReferenceOp {
    /// `ref.null`
    RefNull {
        heap_type: RawHeapType,
    },
    /// `ref.is_null`
    RefIsNull,
    /// `ref.func`
    RefFunc {
        func: u32,
    },
    /// `ref.eq`
    RefEq,
    /// `ref.as_non_null`
    RefAsNonNull,
    /// `br_on_null`
    BrOnNull {
        label: u32,
    },
    /// `br_on_non_null`
    BrOnNonNull {
        label: u32,
    },
    /// `struct.new`
    StructNew {
        ty: u32,
    },
    /// `struct.new_default`
    StructNewDefault {
        ty: u32,
    },
    /// `struct.get`
    StructGet {
        ty: u32,
        field: u32,
    },
    /// `struct.get_s`
    StructGetS {
        ty: u32,
        field: u32,
    },
    /// `struct.get_u`
    StructGetU {
        ty: u32,
        field: u32,
    },
    /// `struct.set`
    StructSet {
        ty: u32,
        field: u32,
    },
    /// `array.new`
    ArrayNew {
        ty: u32,
    },
    /// `array.new_default`
    ArrayNewDefault {
        ty: u32,
    },
    /// `array.new_fixed`
    ArrayNewFixed {
        ty: u32,
        len: u32,
    },
    /// `array.new_data`
    ArrayNewData {
        ty: u32,
        data: u32,
    },
    /// `array.new_elem`
    ArrayNewElem {
        ty: u32,
        element: u32,
    },
    /// `array.get`
    ArrayGet {
        ty: u32,
    },
    /// `array.get_s`
    ArrayGetS {
        ty: u32,
    },
    /// `array.get_u`
    ArrayGetU {
        ty: u32,
    },
    /// `array.set`
    ArraySet {
        ty: u32,
    },
    /// `array.len`
    ArrayLen,
    /// `array.fill`
    ArrayFill {
        ty: u32,
    },
    /// `array.copy`, with the types of both arrays
    ArrayCopy {
        target: u32,
        source: u32,
    },
    /// `array.init_data`
    ArrayInitData {
        ty: u32,
        data: u32,
    },
    /// `array.init_elem`
    ArrayInitElem {
        ty: u32,
        element: u32,
    },
    /// `ref.test`
    RefTest {
        nullable: bool,
        heap_type: RawHeapType,
    },
    /// `ref.cast`
    RefCast {
        nullable: bool,
        heap_type: RawHeapType,
    },
    /// `br_on_cast`
    BrOnCast {
        cast: RawCast,
    },
    /// `br_on_cast_fail`
    BrOnCastFail {
        cast: RawCast,
    },
    /// `any.convert_extern`
    AnyConvertExtern,
    /// `extern.convert_any`
    ExternConvertAny,
    /// `ref.i31`
    RefI31,
    /// `i31.get_s`
    I31GetS,
    /// `i31.get_u`
    I31GetU,
}
