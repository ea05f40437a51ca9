//! The types of a function's locals.
ghost use Rattle.std.specs.Prelude.{◌≡◌, Some, slice_get};
ghost use Rattle.std.specs.Option.{option_map};
ghost use Rattle.wasm_typing.specs.Contexts.{has_default};
ghost use Rattle.std.specs.List.Sorted.{IsNonDecreasingBy};
ghost use Rattle.wasm_locals.specs.Runs.{types_of_runs, end_of_runs};

use crate::run::LocalRun;
use wasm_operators::RawValType;
use wasm_types::ValType;

/// The type of the run at this place, if there is one.
fn type_at(runs: &[LocalRun], place: usize) -> Option<RawValType>
    ensures { result ≡ option_map (λ run. run.ty) (slice_get runs.now place) }
{
    match runs.get(place) {
        Some(run) => Some(run.ty),
        None => None,
    }
}

/// The type of the declared local with this number, if there is one.
fn declared_type(runs: &[LocalRun], number: usize) -> Option<RawValType>
    requires { IsNonDecreasingBy end_of_runs runs.now }
    ensures { result ≡ slice_get (types_of_runs 0 runs.now) number }
{
    // most functions declare locals of few types
    if let [first, ..] = runs {
        if number < first.end as usize {
            return Some(first.ty);
        }
    }
    let place = runs.partition_point(|run| run.end as usize <= number);
    type_at(runs, place)
}

/// Whether a local of this type is set where the function begins.
#[inline(always)]
fn has_default(ty: RawValType) -> bool
    ensures { result ≡ has_default ty }
{
    match ty {
        ValType::Ref(reference) => reference.nullable,
        _ => true,
    }
}

/// The types of a function's locals: those of its parameters, and runs of declared locals.
#[derive(Clone, Copy)]
pub struct LocalTypes<'a> {
    /// The types of the parameters, which are the first locals.
    pub params: &'a [RawValType],
    /// The declared locals, which follow the parameters.
    pub declared: &'a [LocalRun],
    ghost ascending: { IsNonDecreasingBy end_of_runs declared.now },
}

impl LocalTypes<'_> {
    ghost use Rattle.wasm_locals.specs.LocalTypes.{types_of_locals, IsInitial};

    /// The type of the local with this number, if there is one. This takes time logarithmic in the
    /// number of runs.
    #[inline(always)]
    pub fn get(&self, number: u32) -> Option<RawValType>
        ensures { result ≡ slice_get (types_of_locals self.now) number }
    {
        let number = number as usize;
        match self.params.get(number) {
            Some(ty) => Some(*ty),
            None => declared_type(self.declared, number - self.params.len()),
        }
    }

    /// Whether the local with this number and type is set where the function begins: it is a
    /// parameter, or its type has a default.
    #[inline(always)]
    pub fn starts_set(&self, number: u32, ty: RawValType) -> bool
        requires { slice_get (types_of_locals self.now) number ≡ Some ty }
        ensures { IsInitial self.now number result }
    {
        (number as usize) < self.params.len() || has_default(ty)
    }

    /// Whether the local with this number is there, and set where the function begins.
    pub fn is_initial(&self, number: u32) -> bool
        ensures { IsInitial self.now number result }
    {
        match self.get(number) {
            Some(ty) => self.starts_set(number, ty),
            None => false,
        }
    }
}
