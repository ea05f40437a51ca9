//! Bytes of a section, read from the first one on.

ghost use Rattle.std.specs.Prelude.{◌≡◌, ◌≤◌, ◌<◌, ◌-◌, ◌↔◌, [], length, IsTrue, IfOk, OnOk, OnErr};
ghost use Rattle.wasm_numbers.specs.Results.{Gives};
ghost use Rattle.dwarf_bytes.specs.Numbers.{size_in_bytes, fixed_number, unsigned_leb, signed_leb, initial_length, part_and_rest, terminated};

use crate::fault::DebugFault;
use crate::number::{read_initial_length, read_signed, read_sized, read_u8, read_unsigned};
use crate::size::{Format, Size};

/// The bytes that are left of a part of a section, and the place where the part ends.
#[derive(Clone, Copy)]
pub struct Cursor<'a> {
    rest: &'a [u8],
    end: usize,
}

impl<'a> Cursor<'a> {
    /// All bytes of a section.
    pub fn new(section: &'a [u8]) -> Cursor<'a>
        ensures rest { result.rest.now ≡ section.now }
        ensures end { result.end ≡ length section.now }
    {
        Cursor {
            rest: section,
            end: section.len(),
        }
    }

    /// The place of the next byte in the section.
    pub fn at(&self) -> usize
        ensures { result ≡ self.now.end - length self.now.rest.now }
    {
        self.end.saturating_sub(self.rest.len())
    }

    /// The bytes that are left.
    pub fn rest(&self) -> &'a [u8]
        ensures { result.now ≡ self.now.rest.now }
    {
        self.rest
    }

    /// The place where the part ends.
    pub fn end(&self) -> usize
        ensures { result ≡ self.now.end }
    {
        self.end
    }

    /// Whether no bytes are left.
    pub fn is_empty(&self) -> bool
        ensures { IsTrue result ↔ (self.now.rest.now ≡ []) }
    {
        self.rest.is_empty()
    }

    /// The next `count` bytes, as a part of its own.
    ///
    /// # Errors
    ///
    /// `BadLength` if fewer are left.
    pub fn part(&mut self, count: u64) -> Result<Cursor<'a>, DebugFault>
        ensures gives { Gives (λ x. (x.rest.now, self.new.rest.now)) result (part_and_rest count self.old.rest.now) }
        ensures unread { OnErr result (self.new.rest.now ≡ self.old.rest.now) }
        ensures end { self.new.end ≡ self.old.end }
        ensures part_end { IfOk result
            (λ x. x.end ≡ self.old.end - length self.new.rest.now) }
        ensures shorter { length self.new.rest.now ≤ length self.old.rest.now }
    {
        if count > self.rest.len() as u64 {
            return Err(DebugFault::BadLength);
        }
        let (front, rest) = self.rest.split_at(count as usize);
        self.rest = rest;
        Ok(Cursor {
            rest: front,
            end: self.end.saturating_sub(rest.len()),
        })
    }

    /// The next `count` bytes. Errors are those of `part`.
    pub fn bytes(&mut self, count: u64) -> Result<&'a [u8], DebugFault>
        ensures gives { Gives (λ x. (x.now, self.new.rest.now)) result (part_and_rest count self.old.rest.now) }
        ensures unread { OnErr result (self.new.rest.now ≡ self.old.rest.now) }
        ensures end { self.new.end ≡ self.old.end }
        ensures shorter { length self.new.rest.now ≤ length self.old.rest.now }
    {
        Ok(self.part(count)?.rest)
    }

    /// The next byte.
    ///
    /// # Errors
    ///
    /// `Truncated`.
    pub fn byte(&mut self) -> Result<u8, DebugFault>
        ensures gives { Gives (λ x. (x, self.new.rest.now)) result (fixed_number 1 self.old.rest.now) }
        ensures unread { OnErr result (self.new.rest.now ≡ self.old.rest.now) }
        ensures end { self.new.end ≡ self.old.end }
        ensures shorter { length self.new.rest.now ≤ length self.old.rest.now }
    {
        let (byte, rest) = read_u8(self.rest)?;
        self.rest = rest;
        Ok(byte)
    }

    /// The number of this size at the front.
    ///
    /// # Errors
    ///
    /// `Truncated`.
    pub fn sized(&mut self, size: Size) -> Result<u64, DebugFault>
        ensures gives { Gives (λ x. (x, self.new.rest.now)) result (fixed_number (size_in_bytes size) self.old.rest.now) }
        ensures unread { OnErr result (self.new.rest.now ≡ self.old.rest.now) }
        ensures end { self.new.end ≡ self.old.end }
        ensures shorter { OnOk result (length self.new.rest.now < length self.old.rest.now) }
        ensures no_longer { length self.new.rest.now ≤ length self.old.rest.now }
    {
        let (number, rest) = read_sized(size, self.rest)?;
        self.rest = rest;
        Ok(number)
    }

    /// The length of a unit at the front, and the format that it shows.
    ///
    /// # Errors
    ///
    /// `Truncated` or `BadLength`.
    pub fn initial_length(&mut self) -> Result<(Format, u64), DebugFault>
        ensures gives { Gives (λ x. (x, self.new.rest.now)) result (initial_length self.old.rest.now) }
        ensures unread { OnErr result (self.new.rest.now ≡ self.old.rest.now) }
        ensures end { self.new.end ≡ self.old.end }
        ensures shorter { OnOk result (length self.new.rest.now < length self.old.rest.now) }
    {
        let (length, rest) = read_initial_length(self.rest)?;
        self.rest = rest;
        Ok(length)
    }

    /// The unsigned LEB128 number at the front.
    ///
    /// # Errors
    ///
    /// `Truncated`, or `BadNumber` if it doesn't fit 64 bits.
    pub fn unsigned(&mut self) -> Result<u64, DebugFault>
        ensures gives { Gives (λ x. (x, self.new.rest.now)) result (unsigned_leb self.old.rest.now) }
        ensures unread { OnErr result (self.new.rest.now ≡ self.old.rest.now) }
        ensures end { self.new.end ≡ self.old.end }
        ensures shorter { OnOk result (length self.new.rest.now < length self.old.rest.now) }
        ensures no_longer { length self.new.rest.now ≤ length self.old.rest.now }
    {
        let (number, rest) = read_unsigned(self.rest)?;
        self.rest = rest;
        Ok(number)
    }

    /// The signed LEB128 number at the front. Errors are those of `unsigned`.
    pub fn signed(&mut self) -> Result<i64, DebugFault>
        ensures gives { Gives (λ x. (x, self.new.rest.now)) result (signed_leb self.old.rest.now) }
        ensures unread { OnErr result (self.new.rest.now ≡ self.old.rest.now) }
        ensures end { self.new.end ≡ self.old.end }
        ensures shorter { OnOk result (length self.new.rest.now < length self.old.rest.now) }
        ensures no_longer { length self.new.rest.now ≤ length self.old.rest.now }
    {
        let (number, rest) = read_signed(self.rest)?;
        self.rest = rest;
        Ok(number)
    }

    /// The bytes up to the first zero byte, and that one.
    ///
    /// # Errors
    ///
    /// `Truncated` if there is none.
    pub fn terminated(&mut self) -> Result<&'a [u8], DebugFault>
        ensures gives { Gives (λ x. (x.now, self.new.rest.now)) result (terminated self.old.rest.now) }
        ensures unread { OnErr result (self.new.rest.now ≡ self.old.rest.now) }
        ensures end { self.new.end ≡ self.old.end }
        ensures shorter { length self.new.rest.now ≤ length self.old.rest.now }
    {
        let zero_at = self.rest.iter().position(|byte| *byte == 0);
        match zero_at {
            Some(len) => self.bytes(len as u64 + 1),
            None => Err(DebugFault::Truncated),
        }
    }
}
