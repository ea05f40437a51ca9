//! The arguments of parsing a body: its function's type and arguments, and its locals.

ghost use Rattle.std.specs.Prelude.{◌≡◌, ◌≤◌, ◌⊎◌, length, slice_get, Some, OnOk, IfOk, IfErr};
ghost use Rattle.walrus_parser.specs.Bodies.{body_operators};
ghost use Rattle.wasm_module.specs.Bodies.{IsWithinBytes};
ghost use Rattle.wasm_sections.specs.CodeSections.{place_of, body_bytes, body_at};
ghost use Rattle.wasm_sections.specs.declared.fault.ModuleFault.TheVariants.{Memory};
ghost use Rattle.wasm_sections.specs.Declarations.{HaveLocals, parameters_of_type, first_numbers, max_locals};
ghost use Rattle.wasm_module.specs.Refusals.{HasNoFront};
ghost use Rattle.wasm_module.specs.RewrittenCode.{Extends, Enters};

use crate::parsed::ParsedModule;
use walrus_body::FunctionBody;
use walrus_ir::{LocalId, ModuleLocals, TypeId};
use wasm_sections::{Body, Locals, MAX_LOCALS, ModuleError, ModuleFault, arguments};

/// The arguments of parsing a function's body.
#[derive(Drop)]
pub(crate) struct BodyContext<'a> {
    /// The type of the function.
    pub ty: TypeId,
    /// The ids of its parameters, which are their indices.
    pub args: Vec<LocalId>,
    /// Its bytes, their place in the file, and the offset of its operators.
    pub body: FunctionBody<'a>,
    /// The number of its locals, parameters included.
    pub locals: usize,
}

impl<'a> ParsedModule<'a> {
    /// The type of the function with this index, if there is one.
    pub(crate) fn type_of(&self, func: usize) -> Option<TypeId>
        ensures { result ≡ slice_get self.now.func_types.items func }
    {
        self.func_types.get(func).copied()
    }

    /// Reads the declarations of a body's locals. Returns the types of all locals of the function,
    /// and the arguments of parsing its body.
    fn declared(&self, body: Body<'a>) -> Result<(ModuleLocals, BodyContext<'a>), ModuleError>
        ensures is_type { IfOk result
            (λ x. slice_get self.now.func_types.items body.entry.func ≡ Some x.1.ty) }
        ensures bytes { IfOk result (λ x. x.1.body.bytes.now ≡ body_bytes body.entry) }
        ensures start { IfOk result (λ x. x.1.body.start ≡ place_of body.entry) }
        ensures fits { IfOk result (λ x. IsWithinBytes x.1.body) }
        ensures locals { IfOk result (λ x. HaveLocals self.now.spaces.indices
            (parameters_of_type self.now.«module».types x.1.ty) (body_bytes body.entry)
            (body_operators x.1.body) x.0) }
        ensures args { IfOk result (λ x. x.1.args.items
            ≡ first_numbers (length (parameters_of_type self.now.«module».types x.1.ty))) }
        ensures count { IfOk result (λ x. x.1.locals ≡ length x.0) }
        ensures few { IfOk result (λ x. x.1.locals ≤ max_locals) }
        ensures refused { IfErr result (λ e. (e.fault ≡ Memory)
            ⊎ HasNoFront self.now body.entry.func (body_bytes body.entry)) }
    {
        let Some(ty) = self.type_of(body.func) else {
            return Err(body.input.fault(ModuleFault::BodyCount));
        };
        let params = self.params(ty);
        if params.len() > MAX_LOCALS {
            return Err(body.input.fault(ModuleFault::TooManyLocals));
        }
        let mut input = body.input;
        let locals = Locals::declared(self.alloc, params, &mut input, &self.spaces.indices)?;
        let context = BodyContext {
            ty,
            args: arguments(self.alloc, params.len())?,
            body: FunctionBody {
                bytes: body.bytes(),
                start: body.start(),
                ops: body.input.until(&input).len(),
            },
            locals: locals.count,
        };
        Ok((locals.types, context))
    }

    /// Reads the declarations of a body's locals, and makes the function's locals those of the
    /// module.
    pub(crate) fn enter(&mut self, body: Body<'a>) -> Result<BodyContext<'a>, ModuleError>
        ensures extends { Extends self.old self.new }
        ensures enters { IfOk result (λ e. Enters self.old body.entry.func (body_at body.entry)
            self.new e.ty e.args.items e.locals e.body) }
        ensures fits { IfOk result (λ e. IsWithinBytes e.body) }
        ensures offset { OnOk result (self.new.«module».code_section_offset ≡ 0) }
        ensures refused { IfErr result (λ e. (e.fault ≡ Memory)
            ⊎ HasNoFront self.new body.entry.func (body_bytes body.entry)) }
    {
        let (types, context) = self.declared(body)?;
        match self.spaces.ensure_locals(context.locals) {
            Ok(()) => {}
            Err(error) => return Err(ModuleError::of_index(error, context.body.start)),
        }
        self.module.locals = types;
        // Places are offsets from the start of the file.
        self.module.code_section_offset = 0;
        Ok(context)
    }
}
