//! Sections whose indices of functions change, since functions are imported: the contents, in which
//! each index of a function is replaced by its new one (WebAssembly core specification 3.0, binary
//! format, modules).

ghost use Rattle.std.specs.Prelude.{◌≡◌, ◌==◌, ◌++◌, ◌∷◌, [], ℕ, List, Ok, OnOk, IfOk};
ghost use Rattle.wasm_numbers.specs.Numbers.{u32};
ghost use Rattle.wasm_operators.specs.Shortest.{short_number};
ghost use Rattle.wasm_operators.specs.Operations.{RawOperation};
ghost use Rattle.wasm_operators.specs.Spelling.{Spells};
ghost use Rattle.wasm_sections.specs.declared.globals.GlobalType.{GlobalType};
ghost use Rattle.wasm_sections.specs.Format.{global_type_part, table_front_part, element_flags_part, element_type_part};
ghost use Rattle.wasm_sections.specs.MovedFunctions.{moved_function, moved_export, MovesIndex, MovesExport, MovesOperator, MovesConstant, MovesConstantIf, MovesGlobal, MovesTable, MovesElement, MovesSegment, MovesContents, AreCounted, AreMovedContents, CopiesPart};

use crate::constant::is_control;
use crate::fault::{ModuleError, ModuleFault};
use crate::input::Input;
use crate::output::{write_bytes, write_number};
use crate::sections::SectionKind;
use std::alloc::Global;
use wasm_ops::Reader;

/// The kind of exported functions (WebAssembly core specification 3.0, binary format, exports).
const EXPORTED_FUNCTION: u8 = 0;

/// The opcode of `ref.func` (WebAssembly core specification 3.0, binary format, reference
/// instructions).
const REF_FUNC: u8 = 0xd2;

/// The opcode of `end` (WebAssembly core specification 3.0, binary format, expressions).
const END: u8 = 0x0b;

/// The new indices of functions, if some are imported after the imported ones.
#[derive(Clone, Copy, Debug)]
pub struct FunctionNumbers {
    /// The number of functions that keep their indices, which are the first ones.
    pub imported: u32,
    /// The number of functions that are imported after them.
    pub added: u32,
}

impl FunctionNumbers {
    /// The numbers if these functions are imported; `TooGreat` if the counts don't fit 32 bits.
    pub fn new(imported: usize, added: usize) -> Result<FunctionNumbers, ModuleError>
        ensures imported { IfOk result (λ numbers. numbers.imported ≡ imported) }
        ensures added { IfOk result (λ numbers. numbers.added ≡ added) }
    {
        match (u32::try_from(imported), u32::try_from(added)) {
            (Ok(imported), Ok(added)) => Ok(FunctionNumbers { imported, added }),
            _ => Err(ModuleError {
                fault: ModuleFault::TooGreat,
                at: 0,
            }),
        }
    }

    /// Whether no index changes.
    pub fn are_same(self) -> bool
        ensures { result ≡ (self.added == 0) }
    {
        self.added == 0
    }

    /// The new index of a function.
    pub fn moved(self, index: u32) -> usize
        ensures { result ≡ moved_function self.imported self.added index }
    {
        if index < self.imported {
            index as usize
        } else {
            index as usize + self.added as usize
        }
    }

    /// The new index of what an export of this kind names.
    fn moved_export(self, kind: u8, index: u32) -> usize
        ensures { result ≡ moved_export self.imported self.added kind index }
    {
        if kind == EXPORTED_FUNCTION {
            self.moved(index)
        } else {
            index as usize
        }
    }

    /// Reads the index of a function, and appends the new one.
    fn move_function(self, input: &mut Input<'_>, out: &mut Vec<u8>) -> Result<(), ModuleError>
        ensures { OnOk result ((written : List ℕ)
            × MovesIndex self.imported self.added input.old.rest.now input.new.rest.now written
            × (out.new.items ≡ out.old.items ++ written)) }
    {
        match input.number() {
            Ok(index) => write_number(out, self.moved(index)),
            Err(error) => Err(error),
        }
    }

    /// An export: its name, the kind of what it names, and the index of that.
    fn move_export(self, input: &mut Input<'_>, out: &mut Vec<u8>) -> Result<(), ModuleError>
        ensures { OnOk result ((written : List ℕ)
            × MovesExport self.imported self.added input.old.rest.now input.new.rest.now written
            × (out.new.items ≡ out.old.items ++ written)) }
    {
        let name = input.name()?;
        let kind = input.byte()?;
        let index = input.number()?;
        write_bytes(out, name.as_bytes())?;
        out.push(kind)?;
        write_number(out, self.moved_export(kind, index))
    }

    /// The instruction `ref.func`, whose opcode was read.
    fn move_ref_func(self, input: &mut Input<'_>, out: &mut Vec<u8>) -> Result<(), ModuleError>
        ensures { OnOk result ((written : List ℕ)
            × MovesIndex self.imported self.added input.old.rest.now input.new.rest.now written
            × (out.new.items ≡ out.old.items ++ 0xd2 ∷ written)) }
    {
        match put_byte(REF_FUNC, out) {
            Ok(()) => {}
            Err(error) => return Err(error),
        }
        match self.move_function(input, out) {
            Ok(()) => Ok(()),
            Err(error) => Err(error),
        }
    }

    /// An operator of a constant expression: an instruction, or the last one, `end`. Returns whether
    /// it is the last.
    fn move_operator(self, input: &mut Input<'_>, out: &mut Vec<u8>) -> Result<bool, ModuleError>
        ensures { IfOk result (λ is_last. (written : List ℕ)
            × MovesOperator self.imported self.added is_last input.old.rest.now input.new.rest.now written
            × (out.new.items ≡ out.old.items ++ written)) }
    {
        let mut after = *input;
        let byte = match after.byte() {
            Ok(byte) => byte,
            Err(error) => return Err(error),
        };
        if byte == END {
            *input = after;
            return match put_byte(END, out) {
                Ok(()) => Ok(true),
                Err(error) => Err(error),
            };
        }
        if byte == REF_FUNC {
            *input = after;
            return match self.move_ref_func(input, out) {
                Ok(()) => Ok(false),
                Err(error) => Err(error),
            };
        }
        match copy_operator(input, out) {
            Ok(()) => Ok(false),
            Err(error) => Err(error),
        }
    }

    /// A constant expression: operators up to the `end`.
    fn move_constant(self, input: &mut Input<'_>, out: &mut Vec<u8>) -> Result<(), ModuleError>
        ensures { OnOk result ((written : List ℕ)
            × MovesConstant self.imported self.added input.old.rest.now input.new.rest.now written
            × (out.new.items ≡ out.old.items ++ written)) }
    {
        // An operator has at least one byte.
        'operators: for _ in 0..input.rest().len() {
            if self.move_operator(input, out)? {
                return Ok(());
            }
        }
        Err(input.fault(ModuleFault::Truncated))
    }

    /// A global: its type, and a constant expression.
    fn move_global(self, input: &mut Input<'_>, out: &mut Vec<u8>) -> Result<(), ModuleError>
        ensures { OnOk result ((written : List ℕ)
            × MovesGlobal self.imported self.added input.old.rest.now input.new.rest.now written
            × (out.new.items ≡ out.old.items ++ written)) }
    {
        match copy_global_type(input, out) {
            Ok(()) => {}
            Err(error) => return Err(error),
        }
        match self.move_constant(input, out) {
            Ok(()) => Ok(()),
            Err(error) => Err(error),
        }
    }

    /// A constant expression, if it is there.
    fn move_constant_if(
        self,
        is_there: bool,
        input: &mut Input<'_>,
        out: &mut Vec<u8>,
    ) -> Result<(), ModuleError>
        ensures { OnOk result ((written : List ℕ)
            × MovesConstantIf self.imported self.added is_there input.old.rest.now
            input.new.rest.now written
            × (out.new.items ≡ out.old.items ++ written)) }
    {
        if is_there {
            self.move_constant(input, out)
        } else {
            Ok(())
        }
    }

    /// A table: its type, and the constant expression of its elements, if it has one.
    fn move_table(self, input: &mut Input<'_>, out: &mut Vec<u8>) -> Result<(), ModuleError>
        ensures { OnOk result ((written : List ℕ)
            × MovesTable self.imported self.added input.old.rest.now input.new.rest.now written
            × (out.new.items ≡ out.old.items ++ written)) }
    {
        let has_elements = match copy_table_front(input, out) {
            Ok(has_elements) => has_elements,
            Err(error) => return Err(error),
        };
        match self.move_constant_if(has_elements, input, out) {
            Ok(()) => Ok(()),
            Err(error) => Err(error),
        }
    }

    /// An element of a segment: an expression, or the index of a function.
    fn move_element(
        self,
        is_expression: bool,
        input: &mut Input<'_>,
        out: &mut Vec<u8>,
    ) -> Result<(), ModuleError>
        ensures { OnOk result ((written : List ℕ)
            × MovesElement self.imported self.added is_expression input.old.rest.now
            input.new.rest.now written
            × (out.new.items ≡ out.old.items ++ written)) }
    {
        if is_expression {
            self.move_constant(input, out)
        } else {
            self.move_function(input, out)
        }
    }

    /// The elements of a segment: their number, and expressions or indices of functions.
    fn move_elements(
        self,
        are_expressions: bool,
        input: &mut Input<'_>,
        out: &mut Vec<u8>,
    ) -> Result<(), ModuleError>
        ensures { OnOk result ((written : List ℕ)
            × AreCounted (MovesElement self.imported self.added are_expressions)
            input.old.rest.now input.new.rest.now written
            × (out.new.items ≡ out.old.items ++ written)) }
    {
        let count = match pass_count(input, out) {
            Ok(count) => count,
            Err(error) => return Err(error),
        };
        'items: for _ in 0..count {
            match self.move_element(are_expressions, input, out) {
                Ok(()) => {}
                Err(error) => return Err(error),
            }
        }
        Ok(())
    }

    /// An element segment: its flags, table, offset and type, and its elements.
    fn move_segment(self, input: &mut Input<'_>, out: &mut Vec<u8>) -> Result<(), ModuleError>
        ensures { OnOk result ((written : List ℕ)
            × MovesSegment self.imported self.added input.old.rest.now input.new.rest.now written
            × (out.new.items ≡ out.old.items ++ written)) }
    {
        let flags = match copy_element_flags(input, out) {
            Ok(flags) => flags,
            Err(error) => return Err(error),
        };
        // Bit 0 is that of segments without an offset.
        match self.move_constant_if(flags % 2 == 0, input, out) {
            Ok(()) => {}
            Err(error) => return Err(error),
        }
        match copy_element_type(flags, input, out) {
            Ok(()) => {}
            Err(error) => return Err(error),
        }
        match self.move_elements(flags >= 4, input, out) {
            Ok(()) => Ok(()),
            Err(error) => Err(error),
        }
    }

    /// The contents of a section of exports: their number, and each with its new index.
    fn move_exports(self, input: &mut Input<'_>, out: &mut Vec<u8>) -> Result<(), ModuleError>
        ensures { OnOk result ((written : List ℕ)
            × AreCounted (MovesExport self.imported self.added) input.old.rest.now input.new.rest.now
            written
            × (out.new.items ≡ out.old.items ++ written)) }
    {
        let count = match pass_count(input, out) {
            Ok(count) => count,
            Err(error) => return Err(error),
        };
        'items: for _ in 0..count {
            match self.move_export(input, out) {
                Ok(()) => {}
                Err(error) => return Err(error),
            }
        }
        Ok(())
    }

    /// The same for globals.
    fn move_globals(self, input: &mut Input<'_>, out: &mut Vec<u8>) -> Result<(), ModuleError>
        ensures { OnOk result ((written : List ℕ)
            × AreCounted (MovesGlobal self.imported self.added) input.old.rest.now input.new.rest.now
            written
            × (out.new.items ≡ out.old.items ++ written)) }
    {
        let count = match pass_count(input, out) {
            Ok(count) => count,
            Err(error) => return Err(error),
        };
        'items: for _ in 0..count {
            match self.move_global(input, out) {
                Ok(()) => {}
                Err(error) => return Err(error),
            }
        }
        Ok(())
    }

    /// The same for tables.
    fn move_tables(self, input: &mut Input<'_>, out: &mut Vec<u8>) -> Result<(), ModuleError>
        ensures { OnOk result ((written : List ℕ)
            × AreCounted (MovesTable self.imported self.added) input.old.rest.now
            input.new.rest.now written
            × (out.new.items ≡ out.old.items ++ written)) }
    {
        let count = match pass_count(input, out) {
            Ok(count) => count,
            Err(error) => return Err(error),
        };
        'items: for _ in 0..count {
            match self.move_table(input, out) {
                Ok(()) => {}
                Err(error) => return Err(error),
            }
        }
        Ok(())
    }

    /// The same for element segments.
    fn move_segments(self, input: &mut Input<'_>, out: &mut Vec<u8>) -> Result<(), ModuleError>
        ensures { OnOk result ((written : List ℕ)
            × AreCounted (MovesSegment self.imported self.added) input.old.rest.now
            input.new.rest.now written
            × (out.new.items ≡ out.old.items ++ written)) }
    {
        let count = match pass_count(input, out) {
            Ok(count) => count,
            Err(error) => return Err(error),
        };
        'items: for _ in 0..count {
            match self.move_segment(input, out) {
                Ok(()) => {}
                Err(error) => return Err(error),
            }
        }
        Ok(())
    }

    /// The contents of a section of this kind.
    fn move_section(
        self,
        kind: SectionKind,
        input: &mut Input<'_>,
        out: &mut Vec<u8>,
    ) -> Result<(), ModuleError>
        ensures { OnOk result (MovesContents self.imported self.added kind input.old.rest.now
            input.new.rest.now out.old.items out.new.items) }
    {
        match kind {
            SectionKind::Start => self.move_function(input, out),
            SectionKind::Export => self.move_exports(input, out),
            SectionKind::Global => self.move_globals(input, out),
            SectionKind::Table => self.move_tables(input, out),
            _ => self.move_segments(input, out),
        }
    }

    /// The contents of the section of this kind with new indices of functions. The section is one
    /// of exports, tables, globals or element segments, or that of the start function.
    ///
    /// # Errors
    ///
    /// The first fault of the contents, with its place among them; `TooGreat` if a new index doesn't
    /// fit 32 bits; or `Memory`.
    pub fn moved_contents(
        self,
        alloc: Global,
        kind: SectionKind,
        contents: &[u8],
    ) -> Result<Vec<u8>, ModuleError>
        ensures { IfOk result (λ new.
            AreMovedContents self.imported self.added kind contents.now new.items) }
    {
        let mut out = Vec::new(alloc);
        let mut input = Input::new(contents);
        match self.move_section(kind, &mut input, &mut out) {
            Ok(()) => {}
            Err(error) => return Err(error),
        }
        match input.finish() {
            Ok(()) => Ok(out),
            Err(error) => Err(error),
        }
    }
}

/// Appends a byte.
fn put_byte(byte: u8, out: &mut Vec<u8>) -> Result<(), ModuleError>
    ensures { OnOk result (out.new.items ≡ out.old.items ++ byte ∷ []) }
{
    out.push(byte)?;
    Ok(())
}

/// Appends bytes.
fn put_bytes(bytes: &[u8], out: &mut Vec<u8>) -> Result<(), ModuleError>
    ensures { OnOk result (out.new.items ≡ out.old.items ++ bytes.now) }
{
    out.extend_from_slice(bytes)?;
    Ok(())
}

/// Reads the number of items, and appends it.
fn pass_count(input: &mut Input<'_>, out: &mut Vec<u8>) -> Result<u32, ModuleError>
    ensures count { IfOk result (λ count. u32 input.old.rest.now ≡ Ok (count, input.new.rest.now)) }
    ensures appends { IfOk result
        (λ count. out.new.items ≡ out.old.items ++ short_number count) }
{
    let count = match input.number() {
        Ok(count) => count,
        Err(error) => return Err(error),
    };
    match write_number(out, count as usize) {
        Ok(()) => Ok(count),
        Err(error) => Err(error),
    }
}

/// Copies the type of a global.
fn copy_global_type(input: &mut Input<'_>, out: &mut Vec<u8>) -> Result<(), ModuleError>
    ensures { OnOk result ((ty : GlobalType) × CopiesPart global_type_part ty input.old.end
        input.old.rest.now input.new.rest.now out.old.items out.new.items) }
{
    let begin = *input;
    match input.global_type() {
        Ok(_) => {}
        Err(error) => return Err(error),
    }
    match put_bytes(begin.until(input), out) {
        Ok(()) => Ok(()),
        Err(error) => Err(error),
    }
}

/// Copies the front of a table, and returns whether the constant expression of its elements follows.
fn copy_table_front(input: &mut Input<'_>, out: &mut Vec<u8>) -> Result<bool, ModuleError>
    ensures { IfOk result (λ has_elements. CopiesPart table_front_part has_elements input.old.end
        input.old.rest.now input.new.rest.now out.old.items out.new.items) }
{
    let begin = *input;
    let has_elements = match input.table_front() {
        Ok(has_elements) => has_elements,
        Err(error) => return Err(error),
    };
    match put_bytes(begin.until(input), out) {
        Ok(()) => Ok(has_elements),
        Err(error) => Err(error),
    }
}

/// Copies the flags of an element segment and the index of its table, and returns the flags.
fn copy_element_flags(input: &mut Input<'_>, out: &mut Vec<u8>) -> Result<u32, ModuleError>
    ensures { IfOk result (λ flags. CopiesPart element_flags_part flags input.old.end
        input.old.rest.now input.new.rest.now out.old.items out.new.items) }
{
    let begin = *input;
    let flags = match input.element_flags() {
        Ok(flags) => flags,
        Err(error) => return Err(error),
    };
    match put_bytes(begin.until(input), out) {
        Ok(()) => Ok(flags),
        Err(error) => Err(error),
    }
}

/// Copies the kind or the type of the elements of a segment with these flags.
fn copy_element_type(
    flags: u32,
    input: &mut Input<'_>,
    out: &mut Vec<u8>,
) -> Result<(), ModuleError>
    ensures { OnOk result (CopiesPart (element_type_part flags) tt input.old.end
        input.old.rest.now input.new.rest.now out.old.items out.new.items) }
{
    let begin = *input;
    match input.element_type(flags) {
        Ok(()) => {}
        Err(error) => return Err(error),
    }
    match put_bytes(begin.until(input), out) {
        Ok(()) => Ok(()),
        Err(error) => Err(error),
    }
}

/// Copies an operator of a constant expression, which may not open, divide or leave a construct.
fn copy_operator(input: &mut Input<'_>, out: &mut Vec<u8>) -> Result<(), ModuleError>
    ensures { OnOk result ((o : RawOperation) × (written : List ℕ) × Spells o written
        × (input.old.rest.now ≡ written ++ input.new.rest.now)
        × (out.new.items ≡ out.old.items ++ written)) }
{
    let mut reader = Reader::new(input.rest(), input.at());
    let operator = match reader.read() {
        Ok(operator) => operator,
        Err(error) => return Err(ModuleError::of_read(error)),
    };
    let (opcode, _) = operator.parts();
    if is_control(opcode) {
        return Err(input.fault(ModuleFault::BadConstant));
    }
    let len = reader.original_position().saturating_sub(input.at());
    let part = input.part(len)?;
    out.extend_from_slice(part.rest())?;
    Ok(())
}
