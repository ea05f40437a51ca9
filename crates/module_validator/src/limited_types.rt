//! Limits that engines have for the types of a module (WebAssembly JavaScript interface, implementation-defined limits).
ghost use Rattle.std.specs.Prelude.{◌≡◌, map, option_map};
ghost use Rattle.std.specs.List.{list_all};
ghost use Rattle.wasm_context.specs.Contexts.{without_locals, defined_of};
ghost use Rattle.module_validator.specs.EngineLimits.{is_short_type, is_shallow, supertype_in, types_limit};

use crate::faults::only_if;
use module_context::faults::{DEEP_TYPE, LONG_TYPE, TOO_MANY_TYPES};
use wasm_context::{CompositeType, Context, DefinedType};
use wasm_sections::ModuleFault;

/// The most types.
const TYPES: usize = 1_000_000;
/// The most parameters of a function type, and the most results.
const VALUES: usize = 1_000;
/// The most fields of a struct type.
const FIELDS: usize = 10_000;
/// A type has fewer supertypes.
const DEPTH: usize = 64;

/// Whether a type has no more parameters, results or fields than engines accept.
fn is_short(ty: &DefinedType) -> bool
    ensures { is_short_type (defined_of ty.now) ≡ result }
{
    match &ty.composite {
        CompositeType::Function { params, results } => {
            params.len() <= VALUES && results.len() <= VALUES
        }
        CompositeType::Struct(fields) => fields.len() <= FIELDS,
        CompositeType::Array(_) => true,
    }
}

/// The declared supertype of a type, where it declares this one.
fn supertype_in(types: &[DefinedType], declared: Option<u32>) -> Option<&DefinedType>
    ensures { option_map (λ ty. defined_of ty.now) result
        ≡ supertype_in (map defined_of types.now) declared }
{
    match declared {
        Some(index) => types.get(index as usize),
        None => None,
    }
}

/// Whether a type has no more supertypes than engines accept.
fn is_shallow(types: &[DefinedType], ty: &DefinedType) -> bool
    ensures { is_shallow (map defined_of types.now) (defined_of ty.now) ≡ result }
{
    let mut declared = ty.supertype;
    'supertypes: for _ in 0..DEPTH {
        match supertype_in(types, declared) {
            Some(supertype) => declared = supertype.supertype,
            None => return true,
        }
    }
    false
}

/// Whether each type is short.
fn are_short(types: &[DefinedType]) -> bool
    ensures { list_all is_short_type (map defined_of types.now) ≡ result }
{
    types.iter().all(|ty| is_short(ty))
}

/// Whether each type is shallow.
fn are_shallow(types: &[DefinedType]) -> bool
    ensures { list_all (is_shallow (map defined_of types.now)) (map defined_of types.now) ≡ result }
{
    types.iter().all(|ty| is_shallow(types, ty))
}

/// Checks the types: `TOO_MANY_TYPES`, `LONG_TYPE` or `DEEP_TYPE`.
pub(crate) fn check_types(context: &Context) -> Result<(), ModuleFault>
    ensures { result ≡ types_limit (without_locals context.now).types }
{
    if context.types.len() > TYPES {
        return Err(TOO_MANY_TYPES);
    }
    if !are_short(&context.types) {
        return Err(LONG_TYPE);
    }
    only_if(are_shallow(&context.types), DEEP_TYPE)
}
