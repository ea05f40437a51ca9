//! Instructions on structs and arrays.

use wasm_types::{DataId, ElementId, TypeId};

/// `struct.new`.
#[derive(Clone, Copy)]
pub struct StructNew {
    /// The struct type.
    pub ty: TypeId,
}

/// `struct.new_default`.
#[derive(Clone, Copy)]
pub struct StructNewDefault {
    /// The struct type.
    pub ty: TypeId,
}

/// `struct.get`.
#[derive(Clone, Copy)]
pub struct StructGet {
    /// The struct type.
    pub ty: TypeId,
    /// The number of the field.
    pub field: u32,
}

/// `struct.get_s`.
#[derive(Clone, Copy)]
pub struct StructGetS {
    /// The struct type.
    pub ty: TypeId,
    /// The number of the field.
    pub field: u32,
}

/// `struct.get_u`.
#[derive(Clone, Copy)]
pub struct StructGetU {
    /// The struct type.
    pub ty: TypeId,
    /// The number of the field.
    pub field: u32,
}

/// `struct.set`.
#[derive(Clone, Copy)]
pub struct StructSet {
    /// The struct type.
    pub ty: TypeId,
    /// The number of the field.
    pub field: u32,
}

/// `array.new`.
#[derive(Clone, Copy)]
pub struct ArrayNew {
    /// The array type.
    pub ty: TypeId,
}

/// `array.new_default`.
#[derive(Clone, Copy)]
pub struct ArrayNewDefault {
    /// The array type.
    pub ty: TypeId,
}

/// `array.new_fixed`.
#[derive(Clone, Copy)]
pub struct ArrayNewFixed {
    /// The array type.
    pub ty: TypeId,
    /// The number of elements.
    pub len: u32,
}

/// `array.new_data`.
#[derive(Clone, Copy)]
pub struct ArrayNewData {
    /// The array type.
    pub ty: TypeId,
    /// The data segment that the elements come from.
    pub data_id: DataId,
}

/// `array.new_elem`.
#[derive(Clone, Copy)]
pub struct ArrayNewElem {
    /// The array type.
    pub ty: TypeId,
    /// The element segment that the elements come from.
    pub elem: ElementId,
}

/// `array.get`.
#[derive(Clone, Copy)]
pub struct ArrayGet {
    /// The array type.
    pub ty: TypeId,
}

/// `array.get_s`.
#[derive(Clone, Copy)]
pub struct ArrayGetS {
    /// The array type.
    pub ty: TypeId,
}

/// `array.get_u`.
#[derive(Clone, Copy)]
pub struct ArrayGetU {
    /// The array type.
    pub ty: TypeId,
}

/// `array.set`.
#[derive(Clone, Copy)]
pub struct ArraySet {
    /// The array type.
    pub ty: TypeId,
}

/// `array.fill`.
#[derive(Clone, Copy)]
pub struct ArrayFill {
    /// The array type.
    pub ty: TypeId,
}

/// `array.copy`.
#[derive(Clone, Copy)]
pub struct ArrayCopy {
    /// The type of the array that is copied to.
    pub dst_ty: TypeId,
    /// The type of the array that is copied from.
    pub src_ty: TypeId,
}

/// `array.init_data`.
#[derive(Clone, Copy)]
pub struct ArrayInitData {
    /// The array type.
    pub ty: TypeId,
    /// The data segment that is copied from.
    pub data_id: DataId,
}

/// `array.init_elem`.
#[derive(Clone, Copy)]
pub struct ArrayInitElem {
    /// The array type.
    pub ty: TypeId,
    /// The element segment that is copied from.
    pub elem: ElementId,
}
