//! Bytes of a module, read from the first one on (WebAssembly core specification 3.0, binary
//! format, values and types).
ghost use Rattle.std.specs.Prelude.{◌≡◌, ◌==◌, ◌<◌, ◌≤◌, ◌+◌, ◌-◌, ◌++◌, ◌∷◌, ◌^◌, [], length, take, drop, OnOk, OnErr, IsErr, IfOk, Ok};
ghost use Rattle.wasm_numbers.specs.Numbers.{u32 as a_u32, u64 as a_u64};
ghost use Rattle.wasm_operators.specs.Types.{value_type as a_value_type};
ghost use Rattle.wasm_numbers.specs.Results.{Gives};
ghost use Rattle.wasm_sections.specs.Format.{name_part, value_part, reference_part};
ghost use Rattle.wasm_sections.specs.Parts.{fault_here, no_more, item_fault, item, number, one_byte, piece, bytes_part};

use crate::fault::{ModuleError, ModuleFault};
use walrus_ir::ValType;
use wasm_ops::{RawValType, ReadFault, read_u32, read_u64, read_value_type};

/// The bytes that are left of a part of a module, and the place where the part ends. Its calls read
/// from the front. The error of an item that can't be read is `Truncated`, at the end of the part,
/// if the bytes end inside the item; otherwise it is at the place where the item begins.
#[derive(Clone, Copy)]
pub struct Input<'a> {
    rest: &'a [u8],
    end: usize,
}

impl<'a> Input<'a> {
    /// All bytes of a file.
    pub fn new(bytes: &'a [u8]) -> Input<'a>
        ensures rest { result.rest.now ≡ bytes.now }
        ensures end { result.end ≡ length bytes.now }
    {
        Input {
            rest: bytes,
            end: bytes.len(),
        }
    }

    /// The place of the next byte.
    pub fn at(&self) -> usize
        ensures place { result ≡ self.now.end - length self.now.rest.now }
        ensures fits { result + length self.now.rest.now < 2 ^ 64 }
    {
        self.end.saturating_sub(self.rest.len())
    }

    /// The bytes that are left.
    pub fn rest(&self) -> &'a [u8]
        ensures { result.now ≡ self.now.rest.now }
    {
        self.rest
    }

    /// Whether no bytes are left.
    pub fn is_empty(&self) -> bool
        ensures { result ≡ (length self.now.rest.now == 0) }
    {
        self.rest.is_empty()
    }

    /// A fault at the next byte.
    pub fn fault(&self, fault: ModuleFault) -> ModuleError
        ensures { result ≡ fault_here self.now.end self.now.rest.now fault }
    {
        ModuleError {
            fault,
            at: self.at(),
        }
    }

    /// The next `len` bytes, as a part of its own; `Truncated` if fewer are left.
    pub fn part(&mut self, len: usize) -> Result<Input<'a>, ModuleError>
        ensures parts { IfOk result
            (λ part. self.old.rest.now ≡ part.rest.now ++ self.new.rest.now) }
        ensures len { IfOk result (λ part. length part.rest.now ≡ len) }
        ensures ends { IfOk result (λ part. part.end ≡ self.old.end - length self.new.rest.now) }
        ensures same_end { self.new.end ≡ self.old.end }
        ensures shorter { OnOk result (length self.new.rest.now ≤ length self.old.rest.now) }
        ensures is { Gives (λ part. (part.rest.now, self.new.rest.now)) result (piece len self.old.end
            self.old.rest.now) }
    {
        if len > self.rest.len() {
            return Err(self.fault(ModuleFault::Truncated));
        }
        let (front, rest) = self.rest.split_at(len);
        self.rest = rest;
        Ok(Input {
            rest: front,
            end: self.end.saturating_sub(rest.len()),
        })
    }

    /// The same part with no bytes left.
    pub fn ended(&self) -> Input<'a>
        ensures none { result.rest.now ≡ [] }
        ensures end { result.end ≡ self.now.end }
    {
        Input {
            rest: &[],
            end: self.end,
        }
    }

    /// The bytes that are left here but no longer there; none if more are left there.
    pub fn until(&self, later: &Input<'a>) -> &'a [u8]
        ensures { result.now ≡ take (length self.now.rest.now - length later.now.rest.now)
            self.now.rest.now }
    {
        match self.rest.len().checked_sub(later.rest.len()) {
            Some(len) => &self.rest[..len],
            None => &[],
        }
    }

    /// Moves past the next `len` bytes; past all of them, if fewer are left.
    pub fn pass(&mut self, len: usize)
        ensures rest { self.new.rest.now ≡ drop len self.old.rest.now }
        ensures same_end { self.new.end ≡ self.old.end }
    {
        self.rest = if len <= self.rest.len() {
            &self.rest[len..]
        } else {
            &[]
        };
    }

    /// `Trailing` if bytes are left.
    pub fn finish(&self) -> Result<(), ModuleError>
        ensures none { OnOk result (self.now.rest.now ≡ []) }
        ensures is { Gives (λ _. tt) result (no_more self.now.rest.now self.now.end) }
    {
        match self.rest {
            [] => Ok(()),
            _ => Err(self.fault(ModuleFault::Trailing)),
        }
    }

    /// The next byte; `Truncated` if there is none.
    pub fn byte(&mut self) -> Result<u8, ModuleError>
        ensures value { IfOk result (λ b. self.old.rest.now ≡ b ∷ self.new.rest.now) }
        ensures same_end { self.new.end ≡ self.old.end }
        ensures is { Gives (λ b. (b, self.new.rest.now)) result (one_byte self.old.end
            self.old.rest.now) }
    {
        match self.rest {
            [first, rest @ ..] => {
                self.rest = rest;
                Ok(*first)
            }
            [] => Err(self.fault(ModuleFault::Truncated)),
        }
    }

    /// The error of an item that can't be read: at the end of the bytes, if they end inside the
    /// item, and else where it begins.
    fn unread(&self, fault: ReadFault) -> ModuleError
        ensures { result ≡ item_fault self.now.end self.now.rest.now fault }
    {
        match fault {
            ReadFault::Truncated => self.ended().fault(ModuleFault::Truncated),
            fault => self.fault(ModuleFault::Read(fault)),
        }
    }

    /// An unsigned number of 32 bits, in LEB128; `Read(BadNumber)` if it is too long or too great.
    pub fn number(&mut self) -> Result<u32, ModuleError>
        ensures value { IfOk result (λ n. a_u32 self.old.rest.now ≡ Ok (n, self.new.rest.now)) }
        ensures same_end { self.new.end ≡ self.old.end }
        ensures shorter { OnOk result (length self.new.rest.now < length self.old.rest.now) }
        ensures refused { OnErr result (IsErr (a_u32 self.old.rest.now)) }
        ensures is { Gives (λ n. (n, self.new.rest.now)) result (number self.old.end
            self.old.rest.now) }
    {
        match read_u32(self.rest) {
            Ok((number, rest)) => {
                self.rest = rest;
                Ok(number)
            }
            Err(fault) => Err(self.unread(fault)),
        }
    }

    /// An unsigned number of 64 bits, in LEB128, with the same faults.
    pub fn long_number(&mut self) -> Result<u64, ModuleError>
        ensures same_end { self.new.end ≡ self.old.end }
        ensures is { Gives (λ n. (n, self.new.rest.now)) result (item a_u64 self.old.end
            self.old.rest.now) }
    {
        match read_u64(self.rest) {
            Ok((number, rest)) => {
                self.rest = rest;
                Ok(number)
            }
            Err(fault) => Err(self.unread(fault)),
        }
    }

    /// A vector of bytes: their number, and the bytes; the faults are those of `number` and `part`.
    pub fn bytes(&mut self) -> Result<&'a [u8], ModuleError>
        ensures value { IfOk result (λ bytes. a_u32 self.old.rest.now
            ≡ Ok (length bytes.now, bytes.now ++ self.new.rest.now)) }
        ensures same_end { self.new.end ≡ self.old.end }
        ensures is { Gives (λ bytes. (bytes.now, self.new.rest.now)) result (bytes_part self.old.end
            self.old.rest.now) }
    {
        let len = self.number()?;
        let part = self.part(len as usize)?;
        Ok(part.rest)
    }

    /// A name: a vector of bytes that is UTF-8; otherwise `BadName`, where the vector begins.
    pub fn name(&mut self) -> Result<&'a str, ModuleError>
        ensures value { IfOk result (λ name. a_u32 self.old.rest.now
            ≡ Ok (length name.now, name.now ++ self.new.rest.now)) }
        ensures same_end { self.new.end ≡ self.old.end }
        ensures is { Gives (λ name. (name.now, self.new.rest.now)) result (name_part self.old.end
            self.old.rest.now) }
    {
        let begin = *self;
        match str::from_utf8(self.bytes()?) {
            Ok(name) => Ok(name),
            Err(_) => Err(begin.fault(ModuleFault::BadName)),
        }
    }

    /// A value type; `Read(BadType)` if there is none.
    pub fn value_type(&mut self) -> Result<RawValType, ModuleError>
        ensures value { IfOk result
            (λ ty. a_value_type self.old.rest.now ≡ Ok (ty, self.new.rest.now)) }
        ensures same_end { self.new.end ≡ self.old.end }
        ensures refused { OnErr result (IsErr (a_value_type self.old.rest.now)) }
        ensures is { Gives (λ ty. (ty, self.new.rest.now)) result (value_part self.old.end
            self.old.rest.now) }
    {
        match read_value_type(self.rest) {
            Ok((ty, rest)) => {
                self.rest = rest;
                Ok(ty)
            }
            Err(fault) => Err(self.unread(fault)),
        }
    }

    /// A reference type; `Read(BadType)` if there is none.
    pub fn reference_type(&mut self) -> Result<RawValType, ModuleError>
        ensures same_end { self.new.end ≡ self.old.end }
        ensures is { Gives (λ ty. (ty, self.new.rest.now)) result (reference_part self.old.end
            self.old.rest.now) }
    {
        let begin = *self;
        match self.value_type()? {
            ValType::Ref(ty) => Ok(ValType::Ref(ty)),
            _ => Err(begin.fault(ModuleFault::Read(ReadFault::BadType))),
        }
    }
}
