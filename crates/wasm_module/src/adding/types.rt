//! Function types that are added (WebAssembly core specification 3.0, binary format, types).
ghost use Rattle.std.specs.Prelude.{◌≡◌, ◌++◌, ℕ, List, Some, Ok, IsErr, IfOk, OnOk, OnErr};
ghost use Rattle.wasm_types.specs.declared.val_type.ValType.{ValType as ValueType};
ghost use Rattle.walrus_ir.specs.Types.{find};
ghost use Rattle.wasm_operators.specs.declared.types.Space.TheVariants.{Types};
ghost use Rattle.wasm_operators.specs.Shortest.{short_value};
ghost use Rattle.wasm_body.specs.Translation.{translate_value};
ghost use Rattle.walrus_maps.specs.IndexMaps.{number_of};
ghost use Rattle.wasm_sections.specs.Additions.{AreUnchanged};
ghost use Rattle.wasm_sections.specs.DefinedItems.{DefinesType, ChangesNumbersOf};
ghost use Rattle.wasm_module.specs.AddedItems.{IsWrittenTypes, IsWrittenFunctionType, AddsFunctionType, HasFunctionType, ChangesTypesAndSpaces, ChangesNumbersAlone};
ghost use Rattle.wasm_module.specs.RewrittenCode.{Extends};
ghost use Rattle.wasm_sections.specs.Sections.{SectionAt, IsModule};

use crate::parsed::ParsedModule;
use walrus_ir::{HeapType, RefType, TypeId, ValType};
use wasm_encode::write_value_type;
use wasm_ops::RawValType;
use wasm_sections::{Changes, ModuleError, SectionKind, write_number};

/// The first byte of a function type.
const FUNCTION: u8 = 0x60;

impl<'a> ParsedModule<'a> {
    /// A value type with the index of the type that it names; `TooGreat` if that has none.
    fn raw_type(&self, ty: ValType) -> Result<RawValType, ModuleError>
        ensures { IfOk result
            (λ raw. translate_value (number_of self.now.spaces.numbers) ty ≡ Ok raw) }
    {
        match ty {
            ValType::I32 => Ok(ValType::I32),
            ValType::I64 => Ok(ValType::I64),
            ValType::F32 => Ok(ValType::F32),
            ValType::F64 => Ok(ValType::F64),
            ValType::V128 => Ok(ValType::V128),
            ValType::Ref(
                RefType {
                    nullable,
                    heap_type: HeapType::Abstract(heap),
                },
            ) => Ok(ValType::Ref(RefType {
                nullable,
                heap_type: HeapType::Abstract(heap),
            })),
            ValType::Ref(
                RefType {
                    nullable,
                    heap_type: HeapType::Concrete(id),
                },
            ) => match self.spaces.numbers.get_type_index(id) {
                Ok(index) => Ok(ValType::Ref(RefType {
                    nullable,
                    heap_type: HeapType::Concrete(index),
                })),
                Err(error) => Err(ModuleError::of_index(error, 0)),
            },
        }
    }

    /// Appends a value type; `TooGreat` if it names a type without an index.
    fn write_type(&self, out: &mut Vec<u8>, ty: ValType) -> Result<(), ModuleError>
        ensures { OnOk result ((raw : ValueType ℕ)
            × (translate_value (number_of self.now.spaces.numbers) ty ≡ Ok raw)
            × (out.new.items ≡ out.old.items ++ short_value raw)) }
    {
        match self.raw_type(ty) {
            Ok(raw) => {
                write_value_type(out, raw)?;
                Ok(())
            }
            Err(error) => Err(error),
        }
    }

    /// Appends a vector of value types.
    fn write_types(&self, out: &mut Vec<u8>, types: &[ValType]) -> Result<(), ModuleError>
        ensures { OnOk result ((text : List ℕ)
            × IsWrittenTypes self.now.spaces.numbers types.now text
            × (out.new.items ≡ out.old.items ++ text)) }
    {
        match write_number(out, types.len()) {
            Ok(()) => {}
            Err(error) => return Err(error),
        }
        'types: for ty in types {
            match self.write_type(out, *ty) {
                Ok(()) => {}
                Err(error) => return Err(error),
            }
        }
        Ok(())
    }

    /// The bytes of a function type.
    fn function_item(&self, params: &[ValType], results: &[ValType]) -> Result<Vec<u8>, ModuleError>
        ensures { IfOk result (λ item.
            IsWrittenFunctionType self.now.spaces.numbers params.now results.now item.items) }
    {
        let mut item = Vec::new(self.alloc);
        item.push(FUNCTION)?;
        match self.write_types(&mut item, params) {
            Ok(()) => {}
            Err(error) => return Err(error),
        }
        match self.write_types(&mut item, results) {
            Ok(()) => Ok(item),
            Err(error) => Err(error),
        }
    }

    /// The id of these parameters and results among the types, where they are added if there is no
    /// function type with them. It may have no index.
    fn type_id(&mut self, params: &[ValType], results: &[ValType]) -> Result<TypeId, ModuleError>
        ensures first { IfOk result
            (λ id. find self.new.«module».types params.now results.now ≡ Some id) }
        ensures extends { Extends self.old self.new }
        ensures kept { ChangesTypesAndSpaces self.old self.new }
        ensures spaces { self.new.spaces ≡ self.old.spaces }
    {
        match self.module.types.find(params, results) {
            Some(id) => Ok(id),
            None => match self.module.types.add_func(params, results) {
                Ok(id) => Ok(id),
                Err(error) => Err(ModuleError::from(error)),
            },
        }
    }

    /// Gives this type, which has no index, the next one, and adds it to the type section.
    fn add_function_type(
        &mut self,
        changes: &mut Changes,
        id: TypeId,
        params: &[ValType],
        results: &[ValType],
    ) -> Result<(), ModuleError>
        ensures adds { (all : List SectionAt) → IsModule self.old.bytes.now all → OnOk result
            (AddsFunctionType all self.old changes.old changes.new params.now results.now) }
        ensures defined { IsErr (number_of self.old.spaces.numbers Types id)
            → OnOk result (DefinesType id self.old.spaces self.new.spaces) }
        ensures kept { ChangesNumbersAlone Types self.old self.new }
        ensures err { OnErr result (AreUnchanged changes.old changes.new) }
    {
        let item = match self.function_item(params, results) {
            Ok(item) => item,
            Err(error) => return Err(error),
        };
        match self.spaces.define_type(id) {
            Ok(()) => {}
            Err(error) => return Err(ModuleError::of_index(error, 0)),
        }
        match self.add_item(changes, SectionKind::Type, &item) {
            Ok(()) => Ok(()),
            Err(error) => Err(error),
        }
    }

    /// The first function type with these parameters and results. If the module has none, it is
    /// added after all other types, and changes of functions may then name it by its id; no body of the
    /// source can, since it has no index there. A type that is found may have supertypes, or be in a recursive group with others.
    ///
    /// # Errors
    ///
    /// `TooGreat` if a type is named that the module doesn't have, or if there are too many types; or
    /// `Memory`. The changes are as before then.
    pub fn function_type(
        &mut self,
        changes: &mut Changes,
        params: &[ValType],
        results: &[ValType],
    ) -> Result<TypeId, ModuleError>
        ensures ok { (all : List SectionAt) → IsModule self.old.bytes.now all → IfOk result
            (HasFunctionType all self.old self.new changes.old changes.new params.now results.now) }
        ensures err { OnErr result (AreUnchanged changes.old changes.new) }
        ensures kept { ChangesTypesAndSpaces self.old self.new }
        ensures numbers { ChangesNumbersOf Types self.old.spaces self.new.spaces }
    {
        let id = match self.type_id(params, results) {
            Ok(id) => id,
            Err(error) => return Err(error),
        };
        match self.spaces.numbers.get_type_index(id) {
            Ok(_) => return Ok(id),
            Err(_) => {}
        }
        match self.add_function_type(changes, id, params, results) {
            Ok(()) => Ok(id),
            Err(error) => Err(error),
        }
    }
}
