//! Operators of bodies, and the items that they name.

ghost use Rattle.std.specs.Prelude.{◌≡◌};
ghost use Rattle.module_removal.specs.Declaring.{function_referred};

use crate::constants::read_operator;
use crate::copier::Copier;
use crate::declared::Taken;
use crate::item::Item;
use walrus_ir::{HeapType, ValType};
use wasm_ops::{
    BlockType, BrTable, CatchList, Immediates, Opcode, Operator, RawCast, RawHeapType, RawMemArg,
    Space,
};
use wasm_sections::{Input, ModuleError};

/// The opcode of `ref.func` (WebAssembly core specification 3.0, binary format, reference instructions).
const REF_FUNC: u8 = 0xd2;

/// The immediates of an operator.
pub(crate) type Parts<'a> = Immediates<BrTable<'a>, CatchList<'a>>;

/// The function that `ref.func` names; None of another operator.
fn referred(opcode: Opcode, parts: &Parts<'_>) -> Option<u32>
    ensures { result ≡ function_referred opcode parts.now }
{
    if opcode != Opcode::Byte(REF_FUNC) {
        return None;
    }
    match parts {
        Immediates::Index(_, index) => Some(*index),
        _ => None,
    }
}

impl Copier<'_> {
    ghost use Rattle.std.specs.Prelude.{◌≡◌, ◌++◌, OnOk, IfErr};
    ghost use Rattle.wasm_operators.specs.declared.types.Space.TheVariants.{Memories as OfMemories};
    ghost use Rattle.wasm_sections.specs.declared.fault.ModuleFault.TheVariants.{Memory as NoMemory};
    ghost use Rattle.module_removal.specs.CopiedParts.{names_item, item_at, AppendsCopied};
    ghost use Rattle.module_removal.specs.NamedItems.{finds, named_by_heap, named_by_type, named_by_block, named_by_tag, named_by_clauses, named_by_parts, named_by, FindsOperators};
    ghost use Rattle.wasm_operators.specs.Meaning.{meaning};
    ghost use Rattle.module_removal.specs.Declaring.{taken_in_body, TakesFunctions};

    /// Finds the type that a heap type names, if it names one.
    fn find_heap(&mut self, ty: RawHeapType) -> Result<(), ModuleError>
        ensures ok { OnOk result (AppendsCopied self.old (finds (named_by_heap ty)) self.new) }
        ensures err { IfErr result (λ error. error.fault ≡ NoMemory) }
    {
        match ty {
            HeapType::Concrete(index) => self.find(Item {
                space: Space::Types,
                index,
            }),
            HeapType::Abstract(_) => Ok(()),
        }
    }

    /// The same for a value type.
    fn find_type(&mut self, ty: ValType<u32>) -> Result<(), ModuleError>
        ensures ok { OnOk result (AppendsCopied self.old (finds (named_by_type ty)) self.new) }
        ensures err { IfErr result (λ error. error.fault ≡ NoMemory) }
    {
        match ty {
            ValType::Ref(reference) => self.find_heap(reference.heap_type),
            _ => Ok(()),
        }
    }

    /// The same for a block type.
    fn find_block(&mut self, ty: BlockType) -> Result<(), ModuleError>
        ensures ok { OnOk result (AppendsCopied self.old (finds (named_by_block ty)) self.new) }
        ensures err { IfErr result (λ error. error.fault ≡ NoMemory) }
    {
        match ty {
            BlockType::Empty => Ok(()),
            BlockType::Value(ty) => self.find_type(ty),
            BlockType::FuncType(index) => self.find(Item {
                space: Space::Types,
                index,
            }),
        }
    }

    /// Both types of a cast.
    fn find_cast(&mut self, cast: RawCast) -> Result<(), ModuleError>
        ensures ok { OnOk result (AppendsCopied self.old (finds (named_by_heap cast.source ++ named_by_heap cast.target)) self.new) }
        ensures err { IfErr result (λ error. error.fault ≡ NoMemory) }
    {
        match self.find_heap(cast.source) {
            Ok(()) => self.find_heap(cast.target),
            Err(error) => Err(error),
        }
    }

    /// The memory of an access.
    fn find_memory(&mut self, access: RawMemArg) -> Result<(), ModuleError>
        ensures ok { OnOk result (AppendsCopied self.old (names_item (item_at OfMemories access.memory)) self.new) }
        ensures err { IfErr result (λ error. error.fault ≡ NoMemory) }
    {
        self.find(Item {
            space: Space::Memories,
            index: access.memory,
        })
    }

    /// The tag of a clause of a `try_table`, if it has one.
    fn find_tag(&mut self, tag: Option<u32>) -> Result<(), ModuleError>
        ensures ok { OnOk result (AppendsCopied self.old (finds (named_by_tag tag)) self.new) }
        ensures err { IfErr result (λ error. error.fault ≡ NoMemory) }
    {
        match tag {
            Some(index) => self.find(Item {
                space: Space::Tags,
                index,
            }),
            None => Ok(()),
        }
    }

    /// The tags of the clauses of a `try_table`.
    fn find_tags(&mut self, clauses: &CatchList<'_>) -> Result<(), ModuleError>
        ensures ok { OnOk result (AppendsCopied self.old (finds (named_by_clauses clauses.now)) self.new) }
        ensures err { IfErr result (λ error. error.fault ≡ NoMemory) }
    {
        let mut left = clauses.iter();
        'clauses: while let Some(clause) = left.next() {
            match self.find_tag(clause.tag) {
                Ok(()) => {}
                Err(error) => return Err(error),
            }
        }
        Ok(())
    }

    /// The block type and the tags of a `try_table`.
    fn find_clauses(&mut self, ty: BlockType, clauses: &CatchList<'_>) -> Result<(), ModuleError>
        ensures ok { OnOk result (AppendsCopied self.old (finds (named_by_block ty ++ named_by_clauses clauses.now)) self.new) }
        ensures err { IfErr result (λ error. error.fault ≡ NoMemory) }
    {
        match self.find_block(ty) {
            Ok(()) => self.find_tags(clauses),
            Err(error) => Err(error),
        }
    }

    /// The items that immediates name.
    fn find_parts(&mut self, parts: &Parts<'_>) -> Result<(), ModuleError>
        ensures ok { OnOk result (AppendsCopied self.old (finds (named_by_parts parts.now)) self.new) }
        ensures err { IfErr result (λ error. error.fault ≡ NoMemory) }
    {
        match parts {
            Immediates::Index(space, index) => self.find(Item {
                space: *space,
                index: *index,
            }),
            Immediates::IndexNumber(space, index, _) => self.find(Item {
                space: *space,
                index: *index,
            }),
            Immediates::Pair(space, index, other, second) => match self.find(Item {
                space: *space,
                index: *index,
            }) {
                Ok(()) => self.find(Item {
                    space: *other,
                    index: *second,
                }),
                Err(error) => Err(error),
            },
            Immediates::Access(access) => self.find_memory(*access),
            Immediates::LaneAccess(access, _) => self.find_memory(*access),
            Immediates::Block(ty) => self.find_block(*ty),
            Immediates::Clauses(ty, clauses) => self.find_clauses(*ty, clauses),
            Immediates::Heap(ty) => self.find_heap(*ty),
            Immediates::Value(ty) => self.find_type(*ty),
            Immediates::Cast(cast) => self.find_cast(*cast),
            _ => Ok(()),
        }
    }

    /// Finds the items that an operator of a body names. A function of which it takes a reference is taken by this one.
    fn find_operator(
        &mut self,
        operator: &Operator<'_>,
        taken: &mut Taken,
        func: u32,
    ) -> Result<(), ModuleError>
        ensures ok { OnOk result (AppendsCopied self.old (finds (named_by (meaning operator.now))) self.new) }
        ensures taken { OnOk result (TakesFunctions (taken_in_body func (meaning operator.now)) taken.old taken.new) }
        ensures err { IfErr result (λ error. error.fault ≡ NoMemory) }
    {
        let (opcode, parts) = operator.parts();
        match taken.take_if(func, referred(opcode, &parts)) {
            Ok(()) => self.find_parts(&parts),
            Err(error) => Err(error),
        }
    }

    /// Finds the items that the operators of the body of this function name, up to the end of the bytes.
    pub fn find_operators(
        &mut self,
        mut input: Input<'_>,
        taken: &mut Taken,
        func: u32,
    ) -> Result<(), ModuleError>
        ensures { FindsOperators func (self.old, taken.old) (self.new, taken.new) result input.entry.end input.entry.rest.now }
    {
        'operators: while !input.is_empty() {
            let operator = match read_operator(&mut input) {
                Ok(operator) => operator,
                Err(error) => return Err(error),
            };
            match self.find_operator(&operator, taken, func) {
                Ok(()) => {}
                Err(error) => return Err(error),
            }
        }
        Ok(())
    }
}
