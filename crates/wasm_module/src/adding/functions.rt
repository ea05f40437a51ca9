//! Functions with a body that are added (WebAssembly core specification 3.0, binary format, function
//! section and code section).
ghost use Rattle.std.specs.Prelude.{◌≡◌, List, length, Ok, OnOk, IfOk};
ghost use Rattle.wasm_numbers.specs.Numbers.{u32};
ghost use Rattle.wasm_operators.specs.declared.types.Space.TheVariants.{Types};
ghost use Rattle.walrus_maps.specs.IndexMaps.{number_of};
ghost use Rattle.walrus_rewrite.specs.RawBodies.{IsRawBodyOf};
ghost use Rattle.wasm_module.specs.AddedFunctions.{input_with, AddsRawFunction, AddsFunction, HasOneFunctionMore};
ghost use Rattle.wasm_sections.specs.Declarations.{parameters_of_type};
ghost use Rattle.wasm_sections.specs.Sections.{SectionAt, IsModule};
ghost use Rattle.wasm_sections.specs.GivenContents.{added_bodies};

use crate::bodies::Scratch;
use crate::parsed::ParsedModule;
use std::mem;
use walrus_body::LocalFunction;
use walrus_ir::{FunctionId, ModuleLocals, ValType};
use wasm_sections::{
    Changes, Locals, MAX_LOCALS, ModuleError, ModuleFault, SectionKind, number_len, write_number,
};

impl<'a> ParsedModule<'a> {
    /// `InconsistentChange` unless all functions that were imported or added besides those of the
    /// source are imported or added by these changes.
    pub(crate) fn check_functions(&self, changes: &Changes) -> Result<(), ModuleError> {
        match self.check_imports(changes) {
            Ok(()) => {}
            Err(error) => return Err(error),
        }
        let added = match changes.added_bodies() {
            Ok((count, _)) => count as usize,
            Err(error) => return Err(error),
        };
        if added == self.spaces.more_functions {
            return Ok(());
        }
        Err(ModuleError {
            fault: ModuleFault::InconsistentChange,
            at: 0,
        })
    }

    /// `LateImport` if a function was added.
    pub(crate) fn check_none_added(&self) -> Result<(), ModuleError> {
        if self.spaces.more_functions == 0 {
            return Ok(());
        }
        Err(ModuleError {
            fault: ModuleFault::LateImport,
            at: 0,
        })
    }

    /// The size of the contents of the code section with the bodies that these changes add, if it is
    /// `len` without them.
    pub(crate) fn code_len_with(
        &self,
        changes: &Changes,
        len: usize,
    ) -> Result<usize, ModuleError> {
        let (more, added) = match changes.added_bodies() {
            Ok(bodies) => bodies,
            Err(error) => return Err(error),
        };
        let count = self.body_count();
        let all = number_len(count.saturating_add(more as usize));
        let bodies = len.saturating_sub(number_len(count));
        Ok(all.saturating_add(bodies).saturating_add(added.len()))
    }

    /// The index of a function's type, if the function has an argument for each parameter.
    fn type_to_add(&self, function: &LocalFunction) -> Result<u32, ModuleError>
        ensures args { OnOk result (length function.now.args
            ≡ length (parameters_of_type self.now.«module».types function.now.builder.type)) }
        ensures index { IfOk result (λ index. number_of self.now.spaces.numbers Types
            function.now.builder.type ≡ Ok index) }
    {
        let ty = function.ty();
        let index = match self.imported_type(ty) {
            Ok(index) => index,
            Err(error) => return Err(error),
        };
        if function.args.len() == self.params(ty).len() {
            return Ok(index);
        }
        Err(ModuleError {
            fault: ModuleFault::ArgumentCount,
            at: 0,
        })
    }

    /// The types of the locals of a function that is added.
    fn locals_to_add(&self, types: &[ValType]) -> Result<ModuleLocals, ModuleError>
        ensures { IfOk result (λ locals. locals ≡ types.now) }
    {
        if types.len() > MAX_LOCALS {
            return Err(ModuleError {
                fault: ModuleFault::TooManyLocals,
                at: 0,
            });
        }
        match Locals::of_params(self.alloc, types) {
            Ok(locals) => Ok(locals.types),
            Err(error) => Err(error),
        }
    }

    /// Writes the raw body of a function with these locals.
    fn write_with(
        &mut self,
        function: &LocalFunction,
        locals: ModuleLocals,
        scratch: &mut Scratch,
    ) -> Result<(), ModuleError>
        ensures same { self.new ≡ self.old }
        ensures written { OnOk result (IsRawBodyOf (input_with self.old locals function.now)
            function.now.builder scratch.new.raw.items scratch.new.pairs.items) }
    {
        let before = mem::replace(&mut self.module.locals, locals);
        let written = self.write(function, 0, scratch);
        self.module.locals = before;
        written
    }

    /// Gives the next function its id and its index.
    fn number_function(&mut self) -> Result<FunctionId, ModuleError>
        ensures { IfOk result (HasOneFunctionMore self.old self.new) }
    {
        let total = self.func_types.len();
        match self.spaces.define_func(total) {
            Ok(id) => Ok(id),
            Err(error) => Err(ModuleError::of_index(error, 0)),
        }
    }

    /// Adds a raw body to the code section, and the index of its function's type to the function
    /// section.
    fn add_raw_function(
        &self,
        changes: &mut Changes,
        ty: u32,
        raw: &[u8],
    ) -> Result<(), ModuleError>
        ensures { (all : List SectionAt) → IsModule self.now.bytes.now all
            → OnOk result (AddsRawFunction all changes.old changes.new ty raw.now) }
    {
        match changes.add_body(self.alloc, raw) {
            Ok(()) => {}
            Err(error) => return Err(error),
        }
        let mut item = Vec::new(self.alloc);
        match write_number(&mut item, ty as usize) {
            Ok(()) => {}
            Err(error) => return Err(error),
        }
        match self.add_item(changes, SectionKind::Function, &item) {
            Ok(()) => Ok(()),
            Err(error) => Err(error),
        }
    }

    /// Adds a function after all others (WebAssembly core specification 3.0, structure, functions).
    /// `locals` are the types of its locals by id, those of its arguments included, which may have
    /// any ids. Its body is written at once, with the indices that ids have now; so it may name
    /// functions that were added before, and not itself. No index changes. Instructions may name the
    /// new function by the id that is returned, and so may exports; nothing says that the body is
    /// valid. All functions have to be imported before.
    ///
    /// From this call on the module can be rewritten and written only with these changes, and not if
    /// it was rewritten before.
    ///
    /// # Errors
    ///
    /// `InconsistentChange` if functions were imported or added with other changes;
    /// `NotAFunctionType` if the function's type isn't a function type of the module;
    /// `ArgumentCount`; `TooManyLocals`; why its body can't be written. Nothing is changed then. Or
    /// `TooGreat` if the type has no index, or a number doesn't fit 32 bits; or `Memory`: then the
    /// changes can't be used any more.
    pub fn add_function(
        &mut self,
        changes: &mut Changes,
        function: &LocalFunction,
        locals: &[ValType],
    ) -> Result<FunctionId, ModuleError>
        ensures numbered { IfOk result (HasOneFunctionMore self.old self.new) }
        ensures added { (all : List SectionAt) → IsModule self.old.bytes.now all
            → OnOk result (AddsFunction self.old all changes.old changes.new function.now
            locals.now) }
    {
        self.check_functions(changes)?;
        let ty = self.type_to_add(function)?;
        let locals = self.locals_to_add(locals)?;
        let mut scratch = Box::new(self.alloc, Scratch::new(self.alloc))?;
        self.write_with(function, locals, &mut scratch)?;
        let id = self.number_function()?;
        match self.add_raw_function(changes, ty, &scratch.raw) {
            Ok(()) => Ok(id),
            Err(error) => Err(error),
        }
    }
}
