//! Location pairs in few bytes: for each operator that is written its location and its place, as a
//! list of bytes that is read back to the same pairs.
#![tactic(auto)]

mod packing;
mod unpacking;

pub use packing::{Packer, pack};
pub use unpacking::{Unpacker, unpack};
