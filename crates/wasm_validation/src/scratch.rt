//! Lists that are kept from one body to the next.
ghost use Rattle.std.specs.Prelude.{◌≡◌, length};
ghost use Rattle.wasm_context.specs.TypeLists.{types_in};
ghost use Rattle.wasm_context.specs.Contexts.{context_of};
ghost use Rattle.wasm_context.specs.Validation.{body_start};
ghost use Rattle.wasm_locals.specs.LocalTypes.{types_of_locals};
ghost use Rattle.wasm_validator.specs.Steps.{setting_of, whole_state_of};

use std::alloc::Global;
use std::marker::Model;
use std::mem;
use wasm_context::{Context, TypeList};
use wasm_locals::{LocalTypes, SetLocals};
use wasm_validator::{Frame, Opened, Operand, Validator};

/// The lists of a validator, which one body after the other is validated with, so that their memory is used again.
/// They are empty between two bodies.
#[derive(Drop)]
pub struct ValidationScratch {
    operands: Vec<Operand>,
    outer: Vec<Frame>,
    set: SetLocals,
}

impl Model for ValidationScratch {
    ghost use Rattle.std.specs.Prelude.{◌≡◌, []};

    ghost Value = { Unit {0} };

    ghost view = { λ s. tt };

    ghost invariant = { λ s. (s.operands.items ≡ []) × (s.outer.items ≡ []) × (s.set ≡ []) };
}

impl ValidationScratch {
    /// Empty lists. This allocates nothing.
    pub fn new(alloc: Global) -> Self {
        ValidationScratch {
            operands: Vec::new(alloc),
            outer: Vec::new(alloc),
            set: SetLocals::new(alloc),
        }
    }

    /// A validator with these lists, where the body of a function with these locals and results begins.
    pub(crate) fn begin<'a>(
        &mut self,
        context: &'a Context,
        locals: LocalTypes<'a>,
        results: TypeList,
    ) -> Validator<'a>
        ensures setting { setting_of result ≡ context_of context.now (types_of_locals locals.entry) }
        ensures begins { whole_state_of result
            ≡ body_start (context_of context.now (types_of_locals locals.entry)) (length locals.entry.params.now)
            (types_in context.now results) }
    {
        let alloc = *self.operands.allocator();
        let operands = mem::replace(&mut self.operands, Vec::new(alloc));
        let outer = mem::replace(&mut self.outer, Vec::new(alloc));
        let set = mem::replace(&mut self.set, SetLocals::new(alloc));
        Validator {
            context,
            locals,
            set,
            operands,
            inner: Frame {
                opened: Opened::Function,
                starts: TypeList::Empty,
                ends: results,
                height: 0,
                locals_height: 0,
                unreachable: false,
            },
            outer,
            ended: false,
        }
    }

    /// Keeps the lists of a validator, cleared.
    pub(crate) fn keep(&mut self, validator: Validator<'_>) {
        let Validator {
            mut operands,
            mut outer,
            mut set,
            ..
        } = validator;
        operands.clear();
        outer.clear();
        set.clear();
        self.operands = operands;
        self.outer = outer;
        self.set = set;
    }
}
