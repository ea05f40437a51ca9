//! How operators are named: indices are looked up in the order in which they are written.
ghost use Rattle.std.specs.Prelude.{◌≡◌, ◌⊎◌, [], ◌∷◌, ◌++◌, map, IfOk, IfErr, OnOk, Ok, Err};
ghost use Rattle.wasm_numbers.specs.Results.{Gives, each};
ghost use Rattle.walrus_ir.specs.Types.{signature};
ghost use Rattle.wasm_operators.specs.AccessOperations.{access_of};
ghost use Rattle.wasm_operators.specs.Meaning.{meaning};
ghost use Rattle.wasm_operators.specs.Operations.{index as an_index};
ghost use Rattle.wasm_operators.specs.Parts.{immediates_of};
ghost use Rattle.wasm_operators.specs.ReferenceOperations.{cast_of};
ghost use Rattle.wasm_body.specs.declared.error.ParseError.{ParseError as ParseFault};
ghost use Rattle.wasm_body.specs.Naming.{name_block};
ghost use Rattle.wasm_body.specs.Translation.{translate, translate_access, translate_cast, translate_clause, translate_immediate, translate_immediates, translate_tag};
ghost use Rattle.walrus_from_operators.specs.Placed.{GivesOrMemory};
ghost use Rattle.walrus_machine.specs.NamedOperators.{named_index, named_access, named_block, named_clause, named_cast, named_immediates, named_operation};
ghost use Rattle.walrus_run.specs.Namers.{env_of_namer, anywhere};

use std::alloc::Global;
use walrus_body::{IndicesToIds, ParseError, heap_type_of, value_type};
use walrus_ir::{FunctionId, Module, TagId, TypeId, ValType};
use walrus_machine::{
    NamedBlockType, NamedCast, NamedCatch, NamedImmediates, NamedIndex, NamedMemArg, NamedOp,
};
use wasm_ops::{BlockType, BrTable, CatchList, Immediates, Operator, RawCast, RawMemArg, Space};

/// The environment in which the operators of a function's body are named.
#[derive(Clone, Copy)]
pub(crate) struct Namer<'a> {
    /// The allocator of the names.
    pub alloc: Global,
    /// The module, with its types and tags.
    pub module: &'a Module,
    /// The ids of its old indices.
    pub indices: &'a IndicesToIds,
    /// The id of the function, whose locals have their own old indices.
    pub function: FunctionId,
    /// The id of the function's type.
    pub ty: TypeId,
}

/// A block type with these parameters and results.
fn block_type(
    alloc: Global,
    params: &[ValType],
    results: &[ValType],
) -> Result<NamedBlockType, ParseError>
    ensures ok { IfOk result (λ b. named_block b ≡ signature params.now results.now) }
    ensures err { IfErr result (λ e. e ≡ ParseFault.Memory) }
{
    Ok(NamedBlockType {
        params: Vec::from_slice(alloc, params)?,
        results: Vec::from_slice(alloc, results)?,
    })
}

/// Pushes an item.
fn push_or_fail<T: Drop>(list: &mut Vec<T>, item: T) -> Result<(), ParseError>
    ensures ok { OnOk result (list.new.items ≡ list.old.items ++ item ∷ []) }
    ensures err { IfErr result (λ e. e ≡ ParseFault.Memory) }
{
    Ok(list.push(item)?)
}

impl Namer<'_> {
    /// The id of an index in a space.
    fn index(&self, space: Space, index: u32) -> Result<NamedIndex, ParseError>
        ensures { Gives named_index result
            (translate_immediate (anywhere (env_of_namer self.now)) (an_index space index)) }
    {
        let indices = self.indices;
        match space {
            Space::Tables => Ok(NamedIndex::Table(indices.get_table(index)?)),
            Space::Types => Ok(NamedIndex::Type(indices.get_type(index)?)),
            Space::Funcs => Ok(NamedIndex::Func(indices.get_func(index)?)),
            Space::Globals => Ok(NamedIndex::Global(indices.get_global(index)?)),
            Space::Memories => Ok(NamedIndex::Memory(indices.get_memory(index)?)),
            Space::Elements => Ok(NamedIndex::Element(indices.get_element(index)?)),
            Space::Data => Ok(NamedIndex::Data(indices.get_data(index)?)),
            Space::Tags => Ok(NamedIndex::Tag(indices.get_tag(index)?)),
        }
    }

    /// A memory argument.
    fn memory_argument(&self, memarg: RawMemArg) -> Result<NamedMemArg, ParseError>
        ensures { Gives named_access result
            (translate_access (anywhere (env_of_namer self.now)) (access_of memarg)) }
    {
        Ok(NamedMemArg {
            exponent: memarg.exponent,
            memory: self.indices.get_memory(memarg.memory)?,
            offset: memarg.offset,
        })
    }

    /// The immediates of a branch on a cast, with both types.
    fn cast(&self, cast: RawCast) -> Result<NamedCast, ParseError>
        ensures { Gives named_cast result
            (translate_cast (anywhere (env_of_namer self.now)) (cast_of cast)) }
    {
        let source = match heap_type_of(self.indices, cast.source) {
            Ok(source) => source,
            Err(error) => return Err(error),
        };
        match heap_type_of(self.indices, cast.target) {
            Ok(target) => Ok(NamedCast {
                from_nullable: cast.from_nullable,
                to_nullable: cast.to_nullable,
                label: cast.label,
                source,
                target,
            }),
            Err(error) => Err(error),
        }
    }

    /// A block type with its parameters and results.
    fn block(&self, ty: BlockType) -> Result<NamedBlockType, ParseError>
        ensures { GivesOrMemory named_block result (name_block (env_of_namer self.now) ty) }
    {
        match ty {
            BlockType::Empty => block_type(self.alloc, &[], &[]),
            BlockType::Value(ty) => match value_type(self.indices, ty) {
                Ok(ty) => block_type(self.alloc, &[], &[ty]),
                Err(error) => Err(error),
            },
            BlockType::FuncType(index) => {
                let id = self.indices.get_type(index)?;
                let types = &self.module.types;
                if types.is_func(id) {
                    block_type(self.alloc, types.params(id), types.results(id))
                } else {
                    Err(ParseError::NotAFunctionType)
                }
            }
        }
    }

    /// The id of a tag, if there is one.
    fn tag(&self, index: Option<u32>) -> Result<Option<TagId>, ParseError>
        ensures { result ≡ translate_tag (anywhere (env_of_namer self.now)).index index }
    {
        match index {
            Some(index) => Ok(Some(self.indices.get_tag(index)?)),
            None => Ok(None),
        }
    }

    /// The clauses of a `try_table`.
    fn clauses(&self, catches: &CatchList<'_>) -> Result<Vec<NamedCatch>, ParseError>
        ensures ok { IfOk result (λ made. each (translate_clause (anywhere (env_of_namer self.now)))
            catches.now ≡ Ok (map named_clause made.items)) }
        ensures err { IfErr result (λ e. (e ≡ ParseFault.Memory)
            ⊎ (each (translate_clause (anywhere (env_of_namer self.now))) catches.now ≡ Err e)) }
    {
        let mut made = Vec::new(self.alloc);
        let mut raw = catches.iter();
        'clauses: while let Some(clause) = raw.next() {
            let tag = match self.tag(clause.tag) {
                Ok(tag) => tag,
                Err(error) => return Err(error),
            };
            let clause = NamedCatch {
                by_reference: clause.by_reference,
                tag,
                label: clause.label,
            };
            match push_or_fail(&mut made, clause) {
                Ok(()) => {}
                Err(error) => return Err(error),
            }
        }
        Ok(made)
    }

    /// The labels of a `br_table`, without the default.
    fn labels(&self, table: &BrTable<'_>) -> Result<Vec<u32>, ParseError>
        ensures ok { IfOk result (λ made. made.items ≡ table.now.0) }
        ensures err { IfErr result (λ e. e ≡ ParseFault.Memory) }
    {
        match table.targets().collect(self.alloc) {
            Ok(labels) => Ok(labels),
            Err(_) => Err(ParseError::Memory),
        }
    }

    /// The immediates after an opcode.
    fn immediates(
        &self,
        immediates: Immediates<BrTable<'_>, CatchList<'_>>,
    ) -> Result<NamedImmediates, ParseError>
        ensures { GivesOrMemory named_immediates result
            (translate_immediates (anywhere (env_of_namer self.now)) (immediates_of immediates.entry)) }
    {
        match immediates {
            Immediates::Nothing => Ok(NamedImmediates::Nothing),
            Immediates::Index(space, n) => Ok(NamedImmediates::Index(self.index(space, n)?)),
            Immediates::Pair(first, m, second, n) => {
                let one = self.index(first, m)?;
                Ok(NamedImmediates::Pair(one, self.index(second, n)?))
            }
            Immediates::IndexNumber(space, m, n) => {
                Ok(NamedImmediates::IndexNumber(self.index(space, m)?, n))
            }
            Immediates::Local(local) => {
                let local = self.indices.get_local(self.function, local)?;
                Ok(NamedImmediates::Local(local))
            }
            Immediates::Label(depth) => Ok(NamedImmediates::Label(depth)),
            Immediates::Handler(depth) => Ok(NamedImmediates::Handler(depth)),
            Immediates::Outer(depth) => Ok(NamedImmediates::Outer(depth)),
            Immediates::Table(table) => {
                let labels = self.labels(&table)?;
                Ok(NamedImmediates::Table(labels, table.default()))
            }
            Immediates::Access(memarg) => {
                Ok(NamedImmediates::Access(self.memory_argument(memarg)?))
            }
            Immediates::LaneAccess(memarg, lane) => {
                let memarg = self.memory_argument(memarg)?;
                Ok(NamedImmediates::LaneAccess(memarg, lane))
            }
            Immediates::Block(ty) => Ok(NamedImmediates::Block(self.block(ty)?)),
            Immediates::Clauses(ty, catches) => {
                let ty = self.block(ty)?;
                Ok(NamedImmediates::Clauses(ty, self.clauses(&catches)?))
            }
            Immediates::Heap(ty) => Ok(NamedImmediates::Heap(heap_type_of(self.indices, ty)?)),
            Immediates::Value(ty) => Ok(NamedImmediates::Value(value_type(self.indices, ty)?)),
            Immediates::Cast(cast) => Ok(NamedImmediates::Cast(self.cast(cast)?)),
            Immediates::I32(value) => Ok(NamedImmediates::I32(value)),
            Immediates::I64(value) => Ok(NamedImmediates::I64(value)),
            Immediates::F32(bits) => Ok(NamedImmediates::F32(bits)),
            Immediates::F64(bits) => Ok(NamedImmediates::F64(bits)),
            Immediates::V128(bits) => Ok(NamedImmediates::V128(bits)),
            Immediates::Lane(lane) => Ok(NamedImmediates::Lane(lane)),
            Immediates::Lanes(lanes) => Ok(NamedImmediates::Lanes(lanes)),
            Immediates::ZeroByte => Ok(NamedImmediates::ZeroByte),
        }
    }

    /// The name of an operator, or the first fault of its immediates. Its labels are not looked up:
    /// they are labels of open constructs if a parse accepts the operator.
    pub fn name(&self, operator: &Operator<'_>) -> Result<NamedOp, ParseError>
        ensures { GivesOrMemory named_operation result
            (translate (anywhere (env_of_namer self.now)) (meaning operator.now)) }
    {
        let (opcode, immediates) = operator.parts();
        match self.immediates(immediates) {
            Ok(immediates) => Ok(NamedOp { opcode, immediates }),
            Err(error) => Err(error),
        }
    }
}
