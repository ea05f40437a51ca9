//! Constant expressions, copied (WebAssembly core specification 3.0, binary format, expressions).

ghost use Rattle.std.specs.Prelude.{◌≡◌, ◌<◌, length, true, OnOk};
ghost use Rattle.wasm_types.specs.declared.val_type.ValType.TheVariants.{Ref};
ghost use Rattle.wasm_numbers.specs.Results.{Gives};
ghost use Rattle.wasm_operators.specs.Meaning.{meaning};
ghost use Rattle.wasm_sections.specs.Format.{is_end_opcode, operator_part};

use crate::copier::Copier;
use crate::item::Item;
use crate::operators::Parts;
use crate::parts::done;
use walrus_ir::{HeapType, RefType, ValType};
use wasm_ops::{Immediates, Opcode, Operator, RawHeapType, Reader, Space};
use wasm_sections::{Input, ModuleError, ModuleFault};

/// The nullable reference type of a heap type.
fn reference_to(heap_type: RawHeapType) -> ValType<u32>
    ensures { result ≡ Ref (record { nullable = true; heap_type = heap_type }) }
{
    ValType::Ref(RefType {
        nullable: true,
        heap_type,
    })
}

/// Whether this is the opcode of `end`.
fn is_end(opcode: Opcode) -> bool
    ensures { result ≡ is_end_opcode opcode }
{
    match opcode {
        Opcode::Byte(byte) => byte == 0x0b,
        Opcode::Prefixed(..) => false,
    }
}

/// The operator at the front.
pub(crate) fn read_operator<'a>(input: &mut Input<'a>) -> Result<Operator<'a>, ModuleError>
    ensures same_end { input.new.end ≡ input.old.end }
    ensures shorter { OnOk result (length input.new.rest.now < length input.old.rest.now) }
    ensures is { Gives (λ operator. (meaning operator, input.new.rest.now)) result
        (operator_part input.old.end input.old.rest.now) }
{
    let rest = input.rest();
    let mut reader = Reader::new(rest, input.at());
    match reader.read() {
        Ok(operator) => {
            input.pass(rest.len().saturating_sub(reader.bytes_remaining()));
            Ok(operator)
        }
        Err(error) => Err(input.fault(ModuleFault::Read(error.fault))),
    }
}

impl Copier<'_> {
    ghost use Rattle.std.specs.Prelude.{◌≡◌, ◌<◌, length, pos, OnOk, IfErr};
    ghost use Rattle.wasm_numbers.specs.Results.{with_fault};
    ghost use Rattle.wasm_operators.specs.Meaning.{meaning};
    ghost use Rattle.wasm_operators.specs.Shortest.{short_integer, short_opcode};
    ghost use Rattle.wasm_sections.specs.declared.fault.ModuleFault.TheVariants.{Memory as NoMemory};
    ghost use Rattle.module_removal.specs.LeftSpaces.{index_written};
    ghost use Rattle.module_removal.specs.CopiedParts.{writes, fault_with_place, AppendsCopied, PutsCopied, Copies};
    ghost use Rattle.module_removal.specs.CopiedConstants.{copied_heap, copied_operation, copied_if_constant, copied_operator, copied_constant};

    /// The opcode of an operator.
    fn put_opcode(&mut self, opcode: Opcode) -> Result<(), ModuleError>
        ensures ok { OnOk result (AppendsCopied self.old (writes (short_opcode opcode)) self.new) }
        ensures err { IfErr result (λ error. error.fault ≡ NoMemory) }
    {
        match opcode {
            Opcode::Byte(byte) => self.put_byte(byte),
            Opcode::Prefixed(prefix, number) => {
                done!(self.put_byte(prefix));
                self.put_number(number)
            }
        }
    }

    /// A signed number in LEB128, with as few bytes as possible.
    #[tactic(auto, using(crate::proofs::CopyLemmas::appends_bytes))]
    fn put_integer(&mut self, number: i64) -> Result<(), ModuleError>
        ensures ok { OnOk result (AppendsCopied self.old (writes (short_integer number)) self.new) }
        ensures err { IfErr result (λ error. error.fault ≡ NoMemory) }
    {
        self.out.reserve(10)?;
        wasm_encode::put_integer(&mut self.out, number);
        Ok(())
    }

    /// The index of a type, as a heap type.
    fn put_heap_index(&mut self, index: u32) -> Result<(), ModuleError>
        ensures ok { OnOk result (AppendsCopied self.old (writes (short_integer (pos index))) self.new) }
        ensures err { IfErr result (λ error. error.fault ≡ NoMemory) }
    {
        self.put_integer(index as i64)
    }

    /// A heap type.
    fn put_heap(&mut self, ty: RawHeapType, at: usize) -> Result<(), ModuleError>
        ensures { PutsCopied self.old self.new result
            (with_fault (fault_with_place at) (copied_heap (index_written self.old.left) ty)) }
    {
        let HeapType::Concrete(index) = ty else {
            // A nullable reference to an abstract heap type is written as the byte of that.
            return self.put_type(reference_to(ty));
        };
        let item = Item {
            space: Space::Types,
            index,
        };
        match self.name(item, at) {
            Ok(index) => self.put_heap_index(index),
            Err(error) => Err(error),
        }
    }

    /// An operator with these parts, whose bytes in the source are these.
    fn put_parts(
        &mut self,
        opcode: Opcode,
        parts: Parts<'_>,
        bytes: &[u8],
        at: usize,
    ) -> Result<(), ModuleError>
        ensures { PutsCopied self.old self.new result
            (with_fault (fault_with_place at) (copied_operation (index_written self.old.left) bytes.now opcode parts.entry)) }
    {
        match parts {
            Immediates::Index(space, index) => {
                done!(self.put_opcode(opcode));
                self.put_index(Item { space, index }, at)
            }
            Immediates::IndexNumber(space, index, number) => {
                done!(self.put_opcode(opcode));
                done!(self.put_index(Item { space, index }, at));
                self.put_number(number)
            }
            Immediates::Heap(ty) => {
                done!(self.put_opcode(opcode));
                self.put_heap(ty, at)
            }
            // No other operator that may name an item is constant.
            Immediates::Pair(..)
            | Immediates::Access(..)
            | Immediates::LaneAccess(..)
            | Immediates::Block(..)
            | Immediates::Clauses(..)
            | Immediates::Value(..)
            | Immediates::Cast(..) => {
                Err(ModuleError {
                    fault: ModuleFault::BadConstant,
                    at,
                })
            }
            _ => self.put(bytes),
        }
    }

    /// An operator, whose bytes in the source are these. Returns whether it is the `end`.
    fn put_operator(
        &mut self,
        operator: &Operator<'_>,
        bytes: &[u8],
        at: usize,
    ) -> Result<bool, ModuleError>
        ensures { PutsCopied self.old self.new result (with_fault (fault_with_place at)
            (copied_if_constant (index_written self.old.left) (meaning operator.now, bytes.now))) }
    {
        let (opcode, parts) = operator.parts();
        done!(self.put_parts(opcode, parts, bytes, at));
        Ok(is_end(opcode))
    }

    /// An operator of a constant expression. Returns whether it is the `end`.
    fn operator(&mut self, input: &mut Input<'_>) -> Result<bool, ModuleError>
        ensures same_end { input.new.end ≡ input.old.end }
        ensures shorter { OnOk result (length input.new.rest.now < length input.old.rest.now) }
        ensures is { Copies self.old self.new input.new.rest.now result
            (copied_operator (index_written self.old.left) input.old.end input.old.rest.now) }
    {
        let begin = *input;
        let operator = done!(read_operator(input));
        self.put_operator(&operator, begin.until(input), begin.at())
    }

    /// A constant expression: operators up to the `end`.
    pub fn constant(&mut self, input: &mut Input<'_>) -> Result<(), ModuleError>
        ensures same_end { input.new.end ≡ input.old.end }
        ensures is { Copies self.old self.new input.new.rest.now result
            (copied_constant (index_written self.old.left) input.old.end input.old.rest.now) }
    {
        'operators: loop {
            match self.operator(input) {
                Ok(true) => return Ok(()),
                Ok(false) => {}
                Err(error) => return Err(error),
            }
        }
    }
}
