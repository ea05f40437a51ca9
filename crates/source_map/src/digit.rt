//! Digits of base64 (RFC 4648, section 4).

ghost use Rattle.std.specs.Prelude.{◌≡◌, ◌<◌, IfOk};
ghost use Rattle.source_map.specs.Shortest.{digit};
ghost use Rattle.wasm_numbers.specs.Results.{Gives};
ghost use Rattle.source_map.specs.Reading.{digit_at};

use crate::fault::MappingsFault;

/// The value of a digit.
pub(crate) fn read_digit(byte: u8) -> Result<u8, MappingsFault>
    ensures gives { Gives (λ x. x) result (digit_at byte) }
    ensures fits { IfOk result (λ x. x < 64) }
{
    match byte {
        b'A'..=b'Z' => Ok(byte - b'A'),
        b'a'..=b'z' => Ok(byte - b'a' + 26),
        b'0'..=b'9' => Ok(byte - b'0' + 52),
        b'+' => Ok(62),
        b'/' => Ok(63),
        b';' => Err(MappingsFault::SecondLine),
        _ => Err(MappingsFault::BadDigit),
    }
}

/// The digit with a value below 64.
pub(crate) fn digit_of(value: u8) -> u8
    requires { value < 64 }
    ensures { result ≡ digit value }
{
    match value {
        0..26 => value + b'A',
        26..52 => value - 26 + b'a',
        52..62 => value - 52 + b'0',
        62 => b'+',
        _ => b'/',
    }
}
