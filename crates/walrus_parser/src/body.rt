//! The bytes of a body.
ghost use Rattle.std.specs.Prelude.{◌≡◌, ◌≤◌, ◌<◌, ◌+◌, ◌^◌, length, drop};
ghost use Rattle.wasm_operators.specs.Laws.{AreBytes};
ghost use Rattle.walrus_parser.specs.Ranges.{range_of};

use std::ops::Range;

/// Bytes are below 256. A check knows this of a slice that is a parameter, but not of one in a
/// struct that is lent, as `BodySource`.
#[inline(always)]
pub fn law_bytes(bytes: &[u8])
    ensures { AreBytes bytes.now }
{}

/// The bytes of a function's body (WebAssembly core specification 3.0, binary format, code
/// section): its declarations of locals, and then its operators.
#[derive(Clone, Copy, Debug)]
pub struct FunctionBody<'a> {
    /// The bytes.
    pub bytes: &'a [u8],
    /// The place of `bytes[0]`, a byte offset; `bytes[i]` is at the place `start + i`.
    pub start: usize,
    /// The index in `bytes` at which the operators begin.
    pub ops: usize,
}

impl<'a> FunctionBody<'a> {
    /// The bytes from the first operator on.
    pub fn operators(self) -> &'a [u8]
        requires { self.ops ≤ length self.bytes.now }
        ensures { result.now ≡ drop self.entry.ops self.entry.bytes.now }
    {
        &self.bytes[self.ops..]
    }

    /// The places of all bytes, less an offset. Requires that the offset is at most `start`.
    pub fn range(self, offset: usize) -> Range<usize>
        requires fits { self.start + length self.bytes.now < 2 ^ 64 }
        requires offset { offset ≤ self.start }
        ensures { result ≡ range_of self.entry offset }
    {
        Range {
            start: self.start - offset,
            end: self.start + self.bytes.len() - offset,
        }
    }
}
