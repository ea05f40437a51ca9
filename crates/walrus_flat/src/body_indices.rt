//! The old indices that a function's body names.
ghost use Rattle.std.specs.Prelude.{◌≡◌, IfSome, Ok};
ghost use Rattle.wasm_operators.specs.declared.types.Space.TheVariants.{Funcs, Globals, Memories};
ghost use Rattle.walrus_maps.specs.IndexMaps.{id_of, local_of, locals_in};
ghost use Rattle.walrus_flat.specs.UsedLocals.{is_found};

use walrus_ir::{FunctionId, LocalId};
use walrus_maps::IndicesToIds;

/// Reads the ids of what holds them. A function that lends another part of it does so first: the
/// check of loans knows only types that the function reads.
macro_rules! show_ids {
    ($holder:ident) => {
        let _ids = $holder.indices.ids;
    };
}

pub(crate) use show_ids;

/// The ids of the old indices that a function's body names.
#[derive(Clone, Copy)]
pub(crate) struct BodyIndices<'a> {
    pub ids: &'a IndicesToIds,
    pub function: FunctionId,
    /// The function's locals, by old index.
    pub locals: &'a [LocalId],
    ghost locals_are: { locals.now ≡ locals_in ids.now function },
}

impl BodyIndices<'_> {
    /// The local with this old index, if the function has one.
    #[inline(always)]
    #[tactic(auto, using(walrus_context::proofs::FoundLocals::found_local))]
    pub fn local_at(&self, index: u32) -> Option<LocalId>
        ensures { IfSome result (λ local.
            local_of self.now.ids.now self.now.function index ≡ Ok local) }
    {
        self.locals.get(index as usize).copied()
    }

    /// Whether a memory has an id.
    #[inline(always)]
    pub fn has_memory(&self, memory: u32) -> bool
        ensures { result ≡ is_found (id_of self.now.ids.now Memories memory) }
    {
        self.ids.get_memory(memory).is_ok()
    }

    /// Whether a function has an id.
    #[inline(always)]
    pub fn has_func(&self, func: u32) -> bool
        ensures { result ≡ is_found (id_of self.now.ids.now Funcs func) }
    {
        self.ids.get_func(func).is_ok()
    }

    /// Whether a global has an id.
    #[inline(always)]
    pub fn has_global(&self, global: u32) -> bool
        ensures { result ≡ is_found (id_of self.now.ids.now Globals global) }
    {
        self.ids.get_global(global).is_ok()
    }
}
