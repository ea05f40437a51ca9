//! Reading the operator of a row.

ghost use Rattle.wasm_numbers.specs.Results.{Gives};
ghost use Rattle.wasm_numbers.specs.Reading.{Then, then_read};
ghost use Rattle.wasm_numbers.specs.Numbers.{u32 as a_u32};

use wasm_numbers::{ReadFault, read_u32};

/// Reads two indices at the front. Returns them and the bytes that follow.
pub(crate) fn read_pair(bytes: &[u8]) -> Result<((u32, u32), &[u8]), ReadFault>
    ensures { Gives (λ x. (x.0, x.1.now)) result (then_read a_u32 (λ first. a_u32) bytes.now) }
{
    let (first, rest) = read_u32(bytes)?;
    let (second, rest) = read_u32(rest)?;
    Ok(((first, second), rest))
}

/// The operator that is made from the immediates that were read, and the bytes that follow; or the
/// fault.
macro_rules! made {
    ($read:expr, $part:pat => $operator:expr) => {
        match $read {
            Ok(($part, rest)) => Ok(($operator, rest)),
            Err(fault) => Err(fault),
        }
    };
}

/// Reads the operator with the indices at the front. Returns it and the bytes that follow.
macro_rules! read_indices {
    ($bytes:ident $name:ident $field:ident) => {
        made!(read_u32($bytes), $field => Operator::$name { $field })
    };
    ($bytes:ident $name:ident $first:ident $second:ident) => {
        made!(read_pair($bytes), ($first, $second) => Operator::$name { $first, $second })
    };
}

pub(crate) use made;
pub(crate) use read_indices;
