//! Numbers in hexadecimal, which are put into a buffer.

ghost use Rattle.std.specs.Prelude.{◌≡◌, ◌≤◌, ◌<◌, ◌+◌, ◌/◌, ◌++◌, length, take};
ghost use Rattle.wasm_module.specs.MapText.{hexadecimal};

/// The digits of hexadecimal numbers.
const DIGITS: [u8; 16] = *b"0123456789abcdef";

/// How many bytes of lines are gathered before they are written.
pub(super) const LINES: usize = 512;

/// How many hexadecimal digits a number has.
#[inline(always)]
fn digit_count(number: u64) -> usize
    ensures count { result ≡ length (hexadecimal number) }
    ensures few { result ≤ 16 }
{
    if number < 16 {
        return 1;
    }
    number.ilog2() as usize / 4 + 1
}

/// Puts a number in hexadecimal at a place of a buffer that has room for 16 digits there. Returns the
/// place after it.
#[inline(always)]
fn put_digits(buffer: &mut [u8; LINES], at: usize, number: u64) -> usize
    requires { at + 16 ≤ 512 }
    ensures fits { result ≤ at + 16 }
    ensures len { result ≡ at + length (hexadecimal number) }
    ensures written { take result buffer.new ≡ take at buffer.old ++ hexadecimal number }
{
    let end = at + digit_count(number);
    let mut left = number;
    let mut place = end;
    while place > at {
        place -= 1;
        buffer[place] = DIGITS[(left % 16) as usize];
        left /= 16;
    }
    end
}

/// The front of a number as it was put: all but its last two digits. Most numbers of a map differ from
/// the one before in these alone.
#[derive(Clone, Copy)]
pub(super) struct Front {
    /// The number without its last two digits. It isn't 0.
    number: u64,
    /// The digits of that, and then others.
    digits: [u8; 16],
    /// How many digits it has.
    len: usize,
    ghost some: { 0 < number },
    ghost few: { len ≤ 14 },
    ghost digits_are: { take len digits ≡ hexadecimal number },
}

impl Front {
    /// The front of numbers from 256 to 511.
    pub fn one() -> Front {
        Front {
            number: 1,
            digits: [b'1'; 16],
            len: 1,
        }
    }

    /// That of a number of so many digits, which are the first ones here.
    fn of(number: u64, len: usize, digits: &[u8]) -> Front
        requires great { 256 ≤ number }
        requires len { len ≡ length (hexadecimal number) }
        requires room { length digits.now ≡ 16 }
        requires few { len ≤ 16 }
        requires digits { take len digits.now ≡ hexadecimal number }
        ensures { result.number ≡ number / 256 }
    {
        let mut copy = [0u8; 16];
        copy.copy_from_slice(digits);
        Front {
            number: number / 256,
            digits: copy,
            len: len - 2,
        }
    }
}

/// Puts a number in hexadecimal at a place of a buffer that has room for 16 digits there, and keeps its
/// front if it has one. Returns the place after it.
#[inline(never)]
fn put_other(buffer: &mut [u8; LINES], at: usize, number: u64, front: &mut Front) -> usize
    requires { at + 16 ≤ 512 }
    ensures fits { result ≤ at + 16 }
    ensures written { take result buffer.new ≡ take at buffer.old ++ hexadecimal number }
{
    let end = put_digits(buffer, at, number);
    if number >= 256 {
        *front = Front::of(number, end - at, &buffer[at..at + 16]);
    }
    end
}

/// The same. Fastest where its front is this one.
#[inline(always)]
pub(super) fn put_number(
    buffer: &mut [u8; LINES],
    at: usize,
    number: u64,
    front: &mut Front,
) -> usize
    requires { at + 16 ≤ 512 }
    ensures fits { result ≤ at + 16 }
    ensures written { take result buffer.new ≡ take at buffer.old ++ hexadecimal number }
{
    if number / 256 != front.number {
        return put_other(buffer, at, number, front);
    }
    buffer[at..at + 16].copy_from_slice(&front.digits);
    let end = at + front.len;
    buffer[end] = DIGITS[(number / 16 % 16) as usize];
    buffer[end + 1] = DIGITS[(number % 16) as usize];
    end + 2
}
