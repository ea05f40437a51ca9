//! Types that bodies need and that the module lacks: entry types, and types of handlers of legacy
//! `try` constructs.

ghost use Rattle.std.specs.Prelude.{◌≡◌, IfErr};
ghost use Rattle.wasm_sections.specs.declared.fault.ModuleFault.TheVariants.{Memory};
ghost use Rattle.wasm_sections.specs.Declarations.{parameters_of_type, results_of_type};
ghost use Rattle.wasm_module.specs.RewrittenCode.{Extends};

use crate::custom::labels::opened;
use crate::parsed::ParsedModule;
use walrus_body::{ParseError, value_type};
use walrus_ir::{InstrSeqType, TypeId, ValType};
use wasm_ops::{BlockType, Operator, Reader};
use wasm_sections::{Body, ModuleError, ModuleFault};

/// Whether a body needs a type that the module doesn't have.
pub(crate) fn needs_type(error: &ModuleError) -> bool {
    let ModuleFault::Parse(fault) = error.fault else {
        return false;
    };
    fault == ParseError::TypeMissing || fault == ParseError::EntryTypeMissing
}

/// What a call for a body returns. If it fails since the module lacks a type that the body needs, the
/// types are added, and it is called once more.
macro_rules! with_types {
    ($parsed:ident, $body:ident, $call:expr) => {
        match $call {
            Ok(made) => Ok(made),
            Err(error) => {
                if !$crate::missing::needs_type(&error) {
                    return Err(error);
                }
                $parsed.add_missing_types($body)?;
                $call
            }
        }
    };
}

pub(crate) use with_types;

impl<'a> ParsedModule<'a> {
    /// The parameters of functions of this type; none if it isn't a function type.
    pub fn params(&self, ty: TypeId) -> &[ValType]
        ensures { result.now ≡ parameters_of_type self.now.«module».types ty }
    {
        if self.module.types.is_func(ty) {
            self.module.types.params(ty)
        } else {
            &[]
        }
    }

    /// The results of functions of this type; none if it isn't a function type.
    pub fn results(&self, ty: TypeId) -> &[ValType]
        ensures { result.now ≡ results_of_type self.now.«module».types ty }
    {
        if self.module.types.is_func(ty) {
            self.module.types.results(ty)
        } else {
            &[]
        }
    }

    /// The results of a block of this type; none if the type isn't known.
    fn results_of(&self, ty: BlockType) -> Result<Vec<ValType>, ModuleError>
        ensures { IfErr result (λ e. e.fault ≡ Memory) }
    {
        let mut results = Vec::new(self.alloc);
        match ty {
            BlockType::Empty => {}
            BlockType::Value(ty) => {
                if let Ok(ty) = value_type(&self.spaces.indices, ty) {
                    results.push(ty)?;
                }
            }
            BlockType::FuncType(index) => {
                if let Ok(id) = self.spaces.indices.get_type(index)
                    && self.module.types.is_func(id)
                {
                    results.extend_from_slice(self.module.types.results(id))?;
                }
            }
        }
        Ok(results)
    }

    /// The parameters of the handler of a `catch`; none if the tag isn't known.
    fn caught(&self, tag: u32) -> Result<Vec<ValType>, ModuleError>
        ensures { IfErr result (λ e. e.fault ≡ Memory) }
    {
        let mut caught = Vec::new(self.alloc);
        if let Ok(id) = self.spaces.indices.get_tag(tag)
            && let Some(ty) = self.module.tags.get(id)
        {
            caught.extend_from_slice(self.params(ty))?;
        }
        Ok(caught)
    }

    /// Adds a function type, if the module has none with these lists and a sequence needs one.
    fn add_type_for(&mut self, params: &[ValType], results: &[ValType]) -> Result<(), ModuleError>
        ensures extends { Extends self.old self.new }
        ensures refused { IfErr result (λ e. e.fault ≡ Memory) }
    {
        if InstrSeqType::existing(&self.module.types, params, results).is_some() {
            return Ok(());
        }
        match self.module.types.add_func(params, results) {
            Ok(_) => Ok(()),
            Err(error) => Err(ModuleError::from(error)),
        }
    }

    /// Adds the type of a handler with these parameters, in a construct of this type.
    fn add_handler_type(&mut self, caught: &[ValType], ty: BlockType) -> Result<(), ModuleError>
        ensures extends { Extends self.old self.new }
        ensures refused { IfErr result (λ e. e.fault ≡ Memory) }
    {
        let results = self.results_of(ty)?;
        self.add_type_for(caught, &results)
    }

    /// Adds the type of the handler of a `catch`, in a construct of this type.
    fn add_catch_type(&mut self, tag: u32, ty: BlockType) -> Result<(), ModuleError>
        ensures extends { Extends self.old self.new }
        ensures refused { IfErr result (λ e. e.fault ≡ Memory) }
    {
        let caught = self.caught(tag)?;
        self.add_handler_type(&caught, ty)
    }

    /// The results of a function; none if it has no function type.
    fn function_results(&self, func: usize) -> Result<Vec<ValType>, ModuleError>
        ensures { IfErr result (λ e. e.fault ≡ Memory) }
    {
        let mut results = Vec::new(self.alloc);
        if let Some(ty) = self.type_of(func)
            && self.module.types.is_func(ty)
        {
            results.extend_from_slice(self.module.types.results(ty))?;
        }
        Ok(results)
    }

    /// Adds the type of the entry of functions with these results, if the module has none.
    fn add_entry_for(&mut self, results: &[ValType]) -> Result<(), ModuleError>
        ensures extends { Extends self.old self.new }
        ensures refused { IfErr result (λ e. e.fault ≡ Memory) }
    {
        if self.module.types.find_for_function_entry(results).is_some() {
            return Ok(());
        }
        match self.module.types.add_entry(results) {
            Ok(_) => Ok(()),
            Err(error) => Err(ModuleError::from(error)),
        }
    }

    /// Adds the type of the entry of this function, if the module has none.
    fn add_entry_type(&mut self, func: usize) -> Result<(), ModuleError>
        ensures extends { Extends self.old self.new }
        ensures refused { IfErr result (λ e. e.fault ≡ Memory) }
    {
        let results = self.function_results(func)?;
        self.add_entry_for(&results)
    }

    /// Adds the type that an operator needs. `open` has the types of the constructs that the
    /// operators before it opened and didn't end.
    fn add_type_at(
        &mut self,
        operator: &Operator<'_>,
        open: &mut Vec<BlockType>,
    ) -> Result<(), ModuleError>
        ensures extends { Extends self.old self.new }
        ensures refused { IfErr result (λ e. e.fault ≡ Memory) }
    {
        if let Some(ty) = opened(operator) {
            open.push(ty)?;
            return Ok(());
        }
        let Some(ty) = open.last().copied() else {
            return Ok(());
        };
        match operator {
            Operator::Catch { tag } => self.add_catch_type(*tag, ty),
            Operator::CatchAll => self.add_handler_type(&[], ty),
            Operator::End | Operator::Delegate { .. } => {
                let _ = open.pop();
                Ok(())
            }
            _ => Ok(()),
        }
    }

    /// Adds the types that the handlers of a body's `try` constructs need: from what the tag
    /// carries to the results of the construct.
    fn add_handler_types(&mut self, body: Body<'a>) -> Result<(), ModuleError>
        ensures extends { Extends self.old self.new }
        ensures refused { IfErr result (λ e. e.fault ≡ Memory) }
    {
        let mut declarations = body.input;
        if declarations.pass_declarations().is_err() {
            return Ok(());
        }
        let mut open = Vec::new(self.alloc);
        let mut reader = Reader::new(declarations.rest(), declarations.at());
        // An operator has at least one byte.
        'operators: for _ in 0..body.bytes().len() {
            let Ok(operator) = reader.read() else {
                break 'operators;
            };
            match self.add_type_at(&operator, &mut open) {
                Ok(()) => {}
                Err(error) => return Err(error),
            }
        }
        Ok(())
    }

    /// Whether a type of the module has more than one result.
    fn has_many_results(&self) -> bool {
        'types: for index in 0..u32::MAX {
            let Ok(id) = self.spaces.indices.get_type(index) else {
                break 'types;
            };
            if self.results(id).len() > 1 {
                return true;
            }
        }
        false
    }

    /// Whether a handler may need a type that the module lacks. Where there is no tag, one catches
    /// nothing but what has no parameters, and needs a type only for several results.
    fn may_lack_types(&self) -> bool {
        self.spaces.indices.get_tag(0).is_ok() || self.has_many_results()
    }

    /// Adds the types that a body may need and that the module lacks, as `add_missing_types`, but
    /// goes through the body only where a handler may need one.
    pub(crate) fn add_possible_types(&mut self, body: Body<'a>) -> Result<(), ModuleError>
        ensures extends { Extends self.old self.new }
        ensures refused { IfErr result (λ e. e.fault ≡ Memory) }
    {
        match self.add_entry_type(body.func) {
            Ok(()) => {}
            Err(error) => return Err(error),
        }
        match self.may_lack_types() {
            true => self.add_handler_types(body),
            false => Ok(()),
        }
    }

    /// Adds the types that a body needs and that the module lacks: its entry type, and those of the
    /// handlers of its `try` constructs. They are never written, so they have no index.
    pub(crate) fn add_missing_types(&mut self, body: Body<'a>) -> Result<(), ModuleError>
        ensures extends { Extends self.old self.new }
        ensures refused { IfErr result (λ e. e.fault ≡ Memory) }
    {
        match self.add_entry_type(body.func) {
            Ok(()) => self.add_handler_types(body),
            Err(error) => Err(error),
        }
    }
}
