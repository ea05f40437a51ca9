//! The types of accesses to memory.
ghost use Rattle.std.specs.Prelude.{◌≡◌, nat_lt, true, false, Some, None};
ghost use Rattle.wasm_operator_types.specs.AccessTypes.{is_atomic, loads, stores, LoadIs, StoreIs};

use wasm_operators::RawValType;
use wasm_types::ValType::{F32, F64, I32, I64, V128};
use wasm_types::{ExtendedLoad, LoadKind, StoreKind};

/// The values that an access takes after the address.
#[derive(Clone, Copy)]
pub enum Operands {
    /// None.
    Nothing,
    /// One of this type.
    One(RawValType),
    /// Two of these types, the topmost last.
    Two(RawValType, RawValType),
}

/// What an access to memory asks for, takes and gives.
#[derive(Clone, Copy)]
pub struct AccessType {
    /// The exponent of two of the number of bytes that are accessed.
    pub exponent: u32,
    /// Whether its alignment has to be of so many bytes, and not of fewer.
    pub exact: bool,
    /// Whether its lane, if it has one, is a lane of the vector.
    pub has_lane: bool,
    /// The values that it takes after the address.
    pub takes: Operands,
    /// The type of the value that it gives, if it gives one.
    pub gives: Option<RawValType>,
}

/// `t.load`
pub(crate) fn load(exact: bool, exponent: u32, ty: RawValType) -> AccessType
    ensures { result ≡ loads exact exponent ty }
{
    AccessType {
        exponent,
        exact,
        has_lane: true,
        takes: Operands::Nothing,
        gives: Some(ty),
    }
}

/// `t.store`
fn store(exact: bool, exponent: u32, ty: RawValType) -> AccessType
    ensures { result ≡ stores exact exponent ty }
{
    AccessType {
        exponent,
        exact,
        has_lane: true,
        takes: Operands::One(ty),
        gives: None,
    }
}

/// Whether a narrow load is atomic.
fn is_atomic(kind: ExtendedLoad) -> bool
    ensures { result ≡ is_atomic kind }
{
    matches!(kind, ExtendedLoad::ZeroExtendAtomic)
}

/// What the load asks for, takes and gives.
pub fn load_type(kind: LoadKind) -> AccessType
    ensures { LoadIs kind result }
{
    match kind {
        LoadKind::I32 { atomic } => load(atomic, 2, I32),
        LoadKind::I64 { atomic } => load(atomic, 3, I64),
        LoadKind::F32 => load(false, 2, F32),
        LoadKind::F64 => load(false, 3, F64),
        LoadKind::V128 => load(false, 4, V128),
        LoadKind::I32_8 { kind } => load(is_atomic(kind), 0, I32),
        LoadKind::I32_16 { kind } => load(is_atomic(kind), 1, I32),
        LoadKind::I64_8 { kind } => load(is_atomic(kind), 0, I64),
        LoadKind::I64_16 { kind } => load(is_atomic(kind), 1, I64),
        LoadKind::I64_32 { kind } => load(is_atomic(kind), 2, I64),
    }
}

/// What the store asks for, takes and gives.
pub fn store_type(kind: StoreKind) -> AccessType
    ensures { StoreIs kind result }
{
    match kind {
        StoreKind::I32 { atomic } => store(atomic, 2, I32),
        StoreKind::I64 { atomic } => store(atomic, 3, I64),
        StoreKind::F32 => store(false, 2, F32),
        StoreKind::F64 => store(false, 3, F64),
        StoreKind::V128 => store(false, 4, V128),
        StoreKind::I32_8 { atomic } => store(atomic, 0, I32),
        StoreKind::I32_16 { atomic } => store(atomic, 1, I32),
        StoreKind::I64_8 { atomic } => store(atomic, 0, I64),
        StoreKind::I64_16 { atomic } => store(atomic, 1, I64),
        StoreKind::I64_32 { atomic } => store(atomic, 2, I64),
    }
}
