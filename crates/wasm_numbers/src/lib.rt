//! The encodings of WebAssembly's numbers and how they are read: integers in LEB128, bits, bytes
//! and lanes; and the reasons why an operator can't be read.
#![tactic(auto)]

mod fault;
mod number;

pub use fault::{ReadError, ReadFault};
pub use number::{
    read_byte, read_f32, read_f64, read_lanes, read_s32, read_s64, read_signed, read_u32, read_u64,
    read_v128, s32_at_front, s64_at_front, u32_at_front, u64_at_front,
};
