//! Functions whose bodies are taken away.

ghost use Rattle.std.specs.Prelude.{◌≡◌, ◌==◌, [], IfOk, OnOk};
ghost use Rattle.std.specs.HashSet.{contains};
ghost use Rattle.wasm_sections.specs.Omissions.{OmitsNothing};
ghost use Rattle.wasm_module.specs.KeptCode.{AreKeptBodies};
ghost use Rattle.wasm_module.specs.RewrittenCode.{Extends, IsChangedWith, keeps_locals};
ghost use Rattle.wasm_module.specs.WrittenModules.{new_contents_in};
ghost use Rattle.module_tools.specs.FunctionChanges.{Snips};

use crate::edits::trap_if;
use std::alloc::Global;
use walrus_body::LocalFunction;
use walrus_ir::{FunctionId, IdHashSet, ModuleLocals};
use wasm_module::{
    ChangeFunction, Changes, KeptBodies, ModuleError, ParsedModule, RewrittenModule,
};

/// Takes away the bodies of these functions.
#[derive(Drop)]
pub struct Snipping(IdHashSet<FunctionId>);

impl Snipping {
    /// Takes away the bodies of these functions, and no others.
    pub fn new(functions: IdHashSet<FunctionId>) -> Snipping
        ensures { result.0 ≡ functions }
    {
        Snipping(functions)
    }

    /// Whether the body of this function is taken away.
    fn takes(&self, function: FunctionId) -> bool
        ensures { result ≡ contains (λ x y. x == y) self.now.0 function }
    {
        self.0.contains(&function)
    }
}

impl ChangeFunction for Snipping {
    ghost use Rattle.module_tools.specs.declared.snipping.Snipping.{Snipping};
    ghost use Rattle.module_tools.specs.FunctionChanges.{Snips};
    ghost use Rattle.wasm_module.specs.RewrittenCode.{alike};

    ghost State = { Snipping };

    ghost state = { λ self. self };

    ghost changes = { alike (λ snipping. Snips snipping.0) };

    fn change(
        &mut self,
        index: usize,
        function: &mut LocalFunction,
        _locals: &mut ModuleLocals,
    ) -> Result<(), ModuleError> {
        trap_if(self.takes(FunctionId::new(index)), function)?;
        Ok(())
    }
}

/// Puts `unreachable` in the place of the bodies of these functions. Those that have no body are
/// passed over; all other bodies are rewritten. The bodies are kept until the module is written.
///
/// # Errors
///
/// The first fault of a body, with its place, or `Memory`.
pub fn snip<'a>(
    alloc: Global,
    parsed: &mut ParsedModule<'a>,
    functions: IdHashSet<FunctionId>,
) -> Result<RewrittenModule<'a, KeptBodies<'a>>, ModuleError>
    ensures snips { IfOk result
        (λ made. AreKeptBodies (IsChangedWith (keeps_locals (Snips functions))) parsed.old
        made.bodies) }
    ensures none_given { IfOk result (λ made. new_contents_in made ≡ []) }
    ensures none_omitted { IfOk result (λ made. OmitsNothing made.omitted) }
    ensures extends { OnOk result (Extends parsed.old parsed.new) }
{
    let mut snipping = Snipping::new(functions);
    parsed.change_all(&mut snipping, Changes::new(alloc))
}
