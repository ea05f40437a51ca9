//! Element and data segments (WebAssembly core specification 3.0, binary format, modules).

ghost use Rattle.std.specs.Prelude.{◌≡◌, true, false};
ghost use Rattle.wasm_numbers.specs.Results.{Gives};
ghost use Rattle.wasm_sections.specs.Format.{flags_up_to, element_kind_part, element_flags_part, element_type_part, before_elements_part, element_part, elements_part, element_segment_part, data_segment_part};
ghost use Rattle.wasm_sections.specs.Parts.{checked, number};

use crate::fault::{ModuleError, ModuleFault};
use crate::input::Input;

impl Input<'_> {
    /// The flags of a segment, which are at most `most`.
    pub fn segment_flags(&mut self, most: u32) -> Result<u32, ModuleError>
        ensures same_end { self.new.end ≡ self.old.end }
        ensures is { Gives (λ flags. (flags, self.new.rest.now)) result
            (checked number (flags_up_to most) self.old.end self.old.rest.now) }
    {
        let begin = *self;
        let flags = self.number()?;
        if flags > most {
            return Err(begin.fault(ModuleFault::BadSegmentFlags));
        }
        Ok(flags)
    }

    /// Reads past the kind of an element segment's elements: a byte 0 for functions, or their
    /// reference type.
    fn element_kind(&mut self, is_type: bool) -> Result<(), ModuleError>
        ensures same_end { self.new.end ≡ self.old.end }
        ensures is { Gives (λ _. (tt, self.new.rest.now)) result (element_kind_part is_type
            self.old.end self.old.rest.now) }
    {
        if is_type {
            self.reference_type()?;
            return Ok(());
        }
        let begin = *self;
        match self.byte()? {
            0 => Ok(()),
            _ => Err(begin.fault(ModuleFault::BadElementKind)),
        }
    }

    /// Reads past the index of a table, memory or function, which isn't looked up.
    fn pass_index(&mut self) -> Result<(), ModuleError>
        ensures same_end { self.new.end ≡ self.old.end }
        ensures is { Gives (λ _. (tt, self.new.rest.now)) result
            (element_part false self.old.end self.old.rest.now) }
    {
        match self.number() {
            Ok(_) => Ok(()),
            Err(error) => Err(error),
        }
    }

    /// Reads past a constant expression.
    fn pass_constant(&mut self) -> Result<(), ModuleError>
        ensures same_end { self.new.end ≡ self.old.end }
        ensures is { Gives (λ _. (tt, self.new.rest.now)) result
            (element_part true self.old.end self.old.rest.now) }
    {
        match self.constant() {
            Ok(_) => Ok(()),
            Err(error) => Err(error),
        }
    }

    /// Reads past the flags of an element segment, and the index of its table, if it names one.
    /// Returns the flags.
    pub fn element_flags(&mut self) -> Result<u32, ModuleError>
        ensures same_end { self.new.end ≡ self.old.end }
        ensures is { Gives (λ flags. (flags, self.new.rest.now)) result
            (element_flags_part self.old.end self.old.rest.now) }
    {
        let flags = match self.segment_flags(7) {
            Ok(flags) => flags,
            Err(error) => return Err(error),
        };
        // An active segment, whose bit 0 is clear, names its table if bit 1 says so.
        if flags % 4 == 2 {
            match self.pass_index() {
                Ok(()) => {}
                Err(error) => return Err(error),
            }
        }
        Ok(flags)
    }

    /// Reads past the kind or the type of the elements of a segment with these flags, if it has one.
    pub fn element_type(&mut self, flags: u32) -> Result<(), ModuleError>
        ensures same_end { self.new.end ≡ self.old.end }
        ensures is { Gives (λ _. (tt, self.new.rest.now)) result (element_type_part flags
            self.old.end self.old.rest.now) }
    {
        match flags % 4 {
            0 => Ok(()),
            _ => self.element_kind(flags >= 4),
        }
    }

    /// Reads past everything before the elements of a segment, and returns its flags.
    fn before_elements(&mut self) -> Result<u32, ModuleError>
        ensures same_end { self.new.end ≡ self.old.end }
        ensures is { Gives (λ flags. (flags, self.new.rest.now)) result
            (before_elements_part self.old.end self.old.rest.now) }
    {
        let flags = match self.element_flags() {
            Ok(flags) => flags,
            Err(error) => return Err(error),
        };
        if flags % 2 == 0 {
            match self.pass_constant() {
                Ok(()) => {}
                Err(error) => return Err(error),
            }
        }
        match self.element_type(flags) {
            Ok(()) => Ok(flags),
            Err(error) => Err(error),
        }
    }

    /// Reads past an element of a segment: an expression, or the index of a function.
    fn element(&mut self, is_expression: bool) -> Result<(), ModuleError>
        ensures same_end { self.new.end ≡ self.old.end }
        ensures is { Gives (λ _. (tt, self.new.rest.now)) result (element_part is_expression
            self.old.end self.old.rest.now) }
    {
        if is_expression {
            self.pass_constant()
        } else {
            self.pass_index()
        }
    }

    /// Reads past the elements of a segment: expressions, or indices of functions.
    pub fn elements(&mut self, are_expressions: bool) -> Result<(), ModuleError>
        ensures same_end { self.new.end ≡ self.old.end }
        ensures is { Gives (λ _. (tt, self.new.rest.now)) result (elements_part are_expressions
            self.old.end self.old.rest.now) }
    {
        let count = match self.number() {
            Ok(count) => count,
            Err(error) => return Err(error),
        };
        'elements: for _ in 0..count {
            match self.element(are_expressions) {
                Ok(()) => {}
                Err(error) => return Err(error),
            }
        }
        Ok(())
    }

    /// Reads past an element segment.
    pub fn element_segment(&mut self) -> Result<(), ModuleError>
        ensures same_end { self.new.end ≡ self.old.end }
        ensures is { Gives (λ _. (tt, self.new.rest.now)) result
            (element_segment_part self.old.end self.old.rest.now) }
    {
        match self.before_elements() {
            Ok(flags) => self.elements(flags >= 4),
            Err(error) => Err(error),
        }
    }

    /// Reads past a data segment.
    pub fn data_segment(&mut self) -> Result<(), ModuleError>
        ensures same_end { self.new.end ≡ self.old.end }
        ensures is { Gives (λ _. (tt, self.new.rest.now)) result
            (data_segment_part self.old.end self.old.rest.now) }
    {
        let flags = self.segment_flags(2)?;
        if flags == 2 {
            self.number()?;
        }
        if flags != 1 {
            self.constant()?;
        }
        self.bytes()?;
        Ok(())
    }
}
