//! The code section (WebAssembly core specification 3.0, binary format, code section).

ghost use Rattle.std.specs.Prelude.{◌≡◌, ◌<◌, ◌+◌, ◌^◌, [], length, nat_lt, Ok, IfOk, OnOk};
ghost use Rattle.wasm_numbers.specs.Numbers.{u32};
ghost use Rattle.wasm_numbers.specs.Results.{Gives};
ghost use Rattle.wasm_sections.specs.Parts.{number};
ghost use Rattle.wasm_sections.specs.CodeSections.{place_of, body_bytes};

use crate::fault::ModuleError;
use crate::input::Input;
use walrus_ir::FunctionId;

/// A body of more bytes is written in pieces of about so many, after its size, which is counted
/// first.
pub const PIECE: usize = 0x1_0000;

/// The body of a function in the source: its declarations of locals, and its operators.
#[derive(Clone, Copy)]
pub struct Body<'a> {
    /// The index of the function; imported functions have the first indices.
    pub func: usize,
    /// Its bytes, and the place where they end.
    pub input: Input<'a>,
}

impl<'a> Body<'a> {
    /// Its bytes, without its size.
    pub fn bytes(&self) -> &'a [u8]
        ensures { result.now ≡ body_bytes self.now }
    {
        self.input.rest()
    }

    /// The place of its first byte in the file.
    pub fn start(&self) -> usize
        ensures place { result ≡ place_of self.now }
        ensures fits { result + length (body_bytes self.now) < 2 ^ 64 }
    {
        self.input.at()
    }

    /// Whether it is written in pieces.
    pub fn is_large(&self) -> bool
        ensures { result ≡ nat_lt PIECE (length (body_bytes self.now)) }
    {
        self.bytes().len() > PIECE
    }

    /// The function's id.
    pub fn id(&self) -> FunctionId {
        FunctionId::new(self.func)
    }
}

/// The bodies of a code section, in order.
#[derive(Clone, Copy)]
pub struct Bodies<'a> {
    /// The bytes of the bodies that are left.
    pub left: Input<'a>,
    /// The index of the function that the next body belongs to.
    pub next: usize,
}

impl<'a> Bodies<'a> {
    /// The number of bodies and the bodies of a section with these contents. The first is the body
    /// of the function with the index `first`.
    pub fn of_section(contents: Input<'a>, first: usize) -> Result<(u32, Bodies<'a>), ModuleError>
        ensures count_is_read { IfOk result
            (λ x. u32 contents.entry.rest.now ≡ Ok (x.0, x.1.left.rest.now)) }
        ensures end { IfOk result (λ x. x.1.left.end ≡ contents.entry.end) }
        ensures first { IfOk result (λ x. x.1.next ≡ first) }
        ensures is { Gives (λ x. (x.0, x.1.left.rest.now)) result
            (number contents.entry.end contents.entry.rest.now) }
    {
        let mut left = contents;
        match left.number() {
            Ok(count) => Ok((count, Bodies { left, next: first })),
            Err(error) => Err(error),
        }
    }

    /// `Trailing` if bytes are left.
    pub fn finish(&self) -> Result<(), ModuleError>
        ensures { OnOk result (self.now.left.rest.now ≡ []) }
    {
        self.left.finish()
    }

    /// The bodies of a module without a code section.
    pub fn none() -> Bodies<'static> {
        Bodies {
            left: Input::new(&[]),
            next: 0,
        }
    }
}

impl<'a> Iterator for Bodies<'a> {
    ghost use Rattle.std.specs.Prelude.{length};
    ghost use Rattle.std.specs.Iterator.{at_most};
    ghost use Rattle.wasm_sections.specs.CodeSections.{TakesBody};

    type Item = Body<'a>;

    ghost next_gives = { TakesBody };

    ghost remaining = { λ b. at_most (length b.left.rest.now) };

    fn next(&mut self) -> Option<Body<'a>> {
        let func = self.next;
        let next = func.checked_add(1)?;
        let mut left = self.left;
        let Ok(len) = left.number() else {
            return None;
        };
        let Ok(input) = left.part(len as usize) else {
            return None;
        };
        self.left = left;
        self.next = next;
        Some(Body { func, input })
    }
}
