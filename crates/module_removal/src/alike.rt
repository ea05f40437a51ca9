//! Function types with the same parameters and results.

ghost use Rattle.std.specs.Prelude.{◌≡◌, ℕ, List, IfOk, IfErr};
ghost use Rattle.wasm_sections.specs.declared.fault.ModuleFault.TheVariants.{Memory as NoMemory};
ghost use Rattle.wasm_sections.specs.Format.{types_part};
ghost use Rattle.wasm_sections.specs.Parts.{GivesUnlessMemory};

use crate::parts::done;
use std::alloc::Global;
use walrus_ir::{HeapType, ModuleTypes, RefType, TypeId, ValType};
use wasm_ops::RawValType;
use wasm_sections::{Input, ModuleError, TypeKind, TypeReader};

/// The types of a module.
#[derive(Drop)]
pub(crate) struct AlikeTypes {
    types: ModuleTypes,
}

/// A value type whose type indices are ids.
fn with_id(ty: RawValType) -> ValType
    ensures { result ≡ ty }
{
    match ty {
        ValType::I32 => ValType::I32,
        ValType::I64 => ValType::I64,
        ValType::F32 => ValType::F32,
        ValType::F64 => ValType::F64,
        ValType::V128 => ValType::V128,
        ValType::Ref(
            RefType {
                nullable,
                heap_type,
            },
        ) => ValType::Ref(RefType {
            nullable,
            heap_type: match heap_type {
                HeapType::Abstract(ty) => HeapType::Abstract(ty),
                HeapType::Concrete(index) => HeapType::Concrete(TypeId::new(index as usize)),
            },
        }),
    }
}

/// Value types whose type indices are ids.
fn with_ids(alloc: Global, types: &[RawValType]) -> Result<Vec<ValType>, ModuleError>
    ensures ok { IfOk result (λ made. made.items ≡ types.now) }
    ensures err { IfErr result (λ error. error.fault ≡ NoMemory) }
{
    let mut made = Vec::new(alloc);
    'types: for ty in types {
        made.push(with_id(*ty))?;
    }
    Ok(made)
}

impl AlikeTypes {
    ghost use Rattle.std.specs.Prelude.{[]};
    ghost use Rattle.walrus_ir.specs.Types.{ModuleType};
    ghost use Rattle.wasm_sections.specs.Format.{next_type, next_group};
    ghost use Rattle.module_removal.specs.Gathered.{first_alike};

    /// Adds the next type.
    fn add(&mut self, alloc: Global, reader: &mut TypeReader<'_>) -> Result<(), ModuleError>
        ensures same_limit { reader.new.limit ≡ reader.old.limit }
        ensures same_end { reader.new.input.end ≡ reader.old.input.end }
        ensures is { GivesUnlessMemory (λ _. (self.new.types, reader.new.input.rest.now)) result
            (next_type reader.old.limit self.old.types reader.old.input.end reader.old.input.rest.now) }
    {
        match done!(reader.subtype()) {
            TypeKind::Func => {
                let params = done!(with_ids(alloc, reader.params()));
                let results = done!(with_ids(alloc, reader.results()));
                self.types.add_func(&params, &results)?;
            }
            TypeKind::Other => {
                self.types.add_other()?;
            }
        }
        Ok(())
    }

    /// Adds the types of the next group.
    fn add_group(&mut self, alloc: Global, reader: &mut TypeReader<'_>) -> Result<(), ModuleError>
        ensures same_limit { reader.new.limit ≡ reader.old.limit }
        ensures same_end { reader.new.input.end ≡ reader.old.input.end }
        ensures is { GivesUnlessMemory (λ _. (self.new.types, reader.new.input.rest.now)) result
            (next_group reader.old.limit self.old.types reader.old.input.end reader.old.input.rest.now) }
    {
        let members = done!(reader.members());
        'group: for _ in 0..members {
            done!(self.add(alloc, reader));
        }
        Ok(())
    }

    /// Adds the types of all groups. There is none before.
    fn add_groups(&mut self, alloc: Global, reader: &mut TypeReader<'_>) -> Result<(), ModuleError>
        ensures { self.old.types ≡ [] → GivesUnlessMemory (λ _. (self.new.types, reader.new.input.rest.now)) result
            (types_part reader.old.limit reader.old.input.end reader.old.input.rest.now) }
    {
        let groups = done!(reader.groups());
        'all: for _ in 0..groups {
            done!(self.add_group(alloc, reader));
        }
        Ok(())
    }

    /// The types of a type section with so many types.
    pub fn read(alloc: Global, section: Input<'_>, count: usize) -> Result<AlikeTypes, ModuleError>
        ensures { (following : List ℕ) × GivesUnlessMemory (λ alike. (alike.types, following)) result
            (types_part count section.entry.end section.entry.rest.now) }
    {
        let mut types = AlikeTypes {
            types: ModuleTypes::new(alloc),
        };
        let mut reader = TypeReader::new(alloc, section, count);
        match types.add_groups(alloc, &mut reader) {
            Ok(()) => Ok(types),
            Err(error) => Err(error),
        }
    }

    /// The first function type with the parameters and results of this one; None if this is no function type.
    pub fn first(&self, index: usize) -> Option<usize>
        ensures { result ≡ first_alike self.now.types index }
    {
        let id = TypeId::new(index);
        if !self.types.is_func(id) {
            return None;
        }
        match self.types.first_alike(id) {
            Some(first) => Some(first.index()),
            None => None,
        }
    }
}
