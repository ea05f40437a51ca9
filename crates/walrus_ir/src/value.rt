//! Constants.

/// The value of a constant. A float is represented by its bits.
#[derive(Clone, Copy)]
pub enum Value {
    /// The value of `i32.const`.
    I32(i32),
    /// The value of `i64.const`.
    I64(i64),
    /// The bits of the value of `f32.const`.
    F32(u32),
    /// The bits of the value of `f64.const`.
    F64(u64),
    /// The bits of the value of `v128.const`.
    V128(u128),
}
