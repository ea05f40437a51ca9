//! Bodies of a module that are only checked.

ghost use Rattle.std.specs.Prelude.{◌≤◌, ◌<◌, ◌+◌, ◌^◌, length, None, OnOk, IfErr};
ghost use Rattle.walrus_parser.specs.Bodies.{body_setting, body_operators};
ghost use Rattle.walrus_flat.specs.FlatChecks.{ChecksFlat};
ghost use Rattle.wasm_sections.specs.CodeSections.{body_at};
ghost use Rattle.wasm_module.specs.RewrittenCode.{Extends, IsAccepted};
ghost use Rattle.wasm_module.specs.Refusals.{IsRefusedBody};

use crate::bodies::Scratch;
use crate::body_context::BodyContext;
use crate::body_errors::body_error;
use crate::missing::with_types;
use crate::parsed::ParsedModule;
use walrus_body::{FunctionBody, IndicesToIds, OpCheck, ParseFailure};
use walrus_flat::{FlatScratch, check_flat};
use walrus_ir::{FunctionId, Module, TypeId};
use walrus_rewrite::RewriteError;
use wasm_sections::{Body, LocalsBelow, ModuleError};

/// `check_flat` of a body that is lent for longer than the module: a method's check of loans doesn't
/// cover that call, and covers this one.
fn check_lent<V: OpCheck>(
    module: &Module,
    indices: &IndicesToIds,
    id: FunctionId,
    ty: TypeId,
    body: FunctionBody<'_>,
    validator: V,
    scratch: &mut FlatScratch,
) -> Result<(), ParseFailure>
    requires ops { body.ops ≤ length body.bytes.now }
    requires fits { body.start + length body.bytes.now < 2 ^ 64 }
    ensures { ChecksFlat (body_setting «module».now indices.now id ty body.entry V.check
        (V.state validator) None) (body_operators body.entry) result }
{
    check_flat(module, indices, id, ty, body, validator, scratch)
}

impl<'a> ParsedModule<'a> {
    fn check_once(&mut self, body: Body<'a>, scratch: &mut Scratch) -> Result<(), ModuleError>
        ensures extends { Extends self.old self.new }
        ensures accepted { OnOk result
            (IsAccepted self.old body.entry.func (body_at body.entry) self.new) }
        ensures refused { IfErr result
            (IsRefusedBody self.old body.entry.func (body_at body.entry) self.new) }
    {
        let BodyContext {
            ty,
            body: source,
            locals,
            ..
        } = self.enter(body)?;
        let lists = self.spaces.local_lists();
        let checked = check_lent(
            &self.module,
            &self.spaces.indices,
            lists,
            ty,
            source,
            LocalsBelow(locals),
            &mut scratch.flat,
        );
        match checked {
            Ok(()) => Ok(()),
            Err(failure) => Err(body_error(RewriteError::Parse(failure), body.start())),
        }
    }

    /// Checks a body: it is accepted exactly if `parse` accepts it. No tree is made of it, so that this takes
    /// less time and memory.
    ///
    /// # Errors
    ///
    /// Those of `parse`.
    pub fn check(&mut self, body: Body<'a>, scratch: &mut Scratch) -> Result<(), ModuleError>
        ensures extends { Extends self.old self.new }
        ensures accepted { OnOk result
            (IsAccepted self.old body.entry.func (body_at body.entry) self.new) }
        ensures refused { IfErr result
            (IsRefusedBody self.old body.entry.func (body_at body.entry) self.new) }
    {
        with_types!(self, body, self.check_once(body, scratch))
    }
}
