//! The numbers of a function's locals in a table by id, and the declarations of those that aren't
//! arguments, where the used locals are a list and all ids are small.
ghost use Rattle.std.specs.Prelude.{◌≡◌, ◌⊎◌, ◌<◌, ◌≤◌, ◌+◌, ◌^◌, ◌==◌, if◌then◌else◌, ℕ, [], length, is_some, slice_get, All, Some, IfOk, IfErr, Ok, Err};
ghost use Rattle.std.specs.Option.{option_map, option_flatten};
ghost use Rattle.walrus_ir.specs.Unfolding.{among, Apart};
ghost use Rattle.wasm_body.specs.declared.error.EmitError.TheVariants.{Memory, UnknownLocal};
ghost use Rattle.wasm_body.specs.LocalNumbers.{AreDeclared, ids_of, last_place, number_of_local};
ghost use Rattle.walrus_numbering.specs.EmittedLocals.{number_in, saturated, unnumbered, Declares, HasUnknown, IsNotDeclared};
ghost use Rattle.walrus_numbering.specs.NumberMaps.{numbers_by};
ghost use Rattle.walrus_numbering.specs.NumberTables.{entries_in};

use crate::local_numbers::{NUMBERS, declare, saturated_number};
use crate::local_table::number_at;
use std::alloc::{AllocError, Global};
use walrus_ir::{LocalId, Module, ModuleLocals, ValType, kind, law_ids, law_type_order};
use walrus_maps::IdsToIndices;
use wasm_body::EmitError;
use wasm_operators::RawValType;

/// Puts the number of a local into a table that has its id.
fn put_number(table: &mut Vec<Option<u32>>, local: LocalId, number: u32)
    requires { local < length table.old.items }
    ensures len { length table.new.items ≡ length table.old.items }
    ensures put { (id : ℕ) → option_flatten (slice_get table.new.items id)
        ≡ (if local == id then Some number else option_flatten (slice_get table.old.items id)) }
{
    table[local.index()] = Some(number);
}

/// The number of each argument: its last position, as in `emit_locals`. The table has so many ids.
fn argument_table(
    alloc: Global,
    args: &[LocalId],
    len: usize,
) -> Result<Vec<Option<u32>>, AllocError>
    requires { All (λ id. id < len) args.now }
    ensures len { IfOk result (λ table. length table.items ≡ len) }
    ensures numbers { IfOk result (λ table. (id : ℕ)
        → number_in (entries_in table.items) id ≡ option_map saturated (last_place args.now id)) }
{
    let mut table = Vec::new(alloc);
    table.resize(len, None)?;
    for (place, id) in args.iter().enumerate() {
        put_number(&mut table, *id, saturated_number(place));
    }
    Ok(table)
}

/// The used locals that have no number, each with its type, in their order.
fn listed_others(
    alloc: Global,
    locals: &ModuleLocals,
    table: &[Option<u32>],
    used: &[LocalId],
) -> Result<Vec<(ValType, LocalId)>, EmitError>
    ensures ok { IfOk result (λ others.
        unnumbered locals.now (entries_in table.now) used.now ≡ Ok others.items) }
    ensures err { IfErr result (λ e. (e ≡ Memory)
        ⊎ (unnumbered locals.now (entries_in table.now) used.now ≡ Err e)) }
{
    let mut others = Vec::new(alloc);
    let mut left = used;
    'left: while let Some((id, following)) = left.split_first() {
        if number_at(table, *id).is_none() {
            let ty = match locals.get(*id) {
                Some(ty) => ty,
                None => return Err(EmitError::UnknownLocal),
            };
            if others.push((ty, *id)).is_err() {
                return Err(EmitError::Memory);
            }
        }
        left = following;
    }
    Ok(others)
}

/// The locals that are declared, in ascending order.
fn declared_listed(
    alloc: Global,
    locals: &ModuleLocals,
    args: &[LocalId],
    table: &[Option<u32>],
    used: &[LocalId],
) -> Result<Vec<(ValType, LocalId)>, EmitError>
    requires numbered { (id : ℕ) → is_some (number_in (entries_in table.now) id)
        ≡ among id args.now }
    requires apart { Apart used.now }
    ensures ok { IfOk result (λ others. AreDeclared locals.now args.now
        (λ id. among id used.now) others.items) }
    ensures err { IfErr result (λ e. (e ≡ Memory) ⊎ ((e ≡ UnknownLocal)
        × HasUnknown locals.now args.now (λ id. among id used.now))) }
{
    let mut others = match listed_others(alloc, locals, table, used) {
        Ok(others) => others,
        Err(fault) => return Err(fault),
    };
    // By these laws pairs are ordered by their types, and then by their ids.
    law_type_order();
    law_ids::<kind::Local>();
    others.sort_unstable();
    Ok(others)
}

/// Numbers the other locals, in order, after the arguments.
fn number_listed(table: &mut Vec<Option<u32>>, args: &[LocalId], others: &[(ValType, LocalId)])
    requires fit { length args.now + length others.now ≤ 2 ^ 32 }
    requires small { All (λ id. id < length table.old.items) (ids_of others.now) }
    requires arguments { (id : ℕ) → number_in (entries_in table.old.items) id
        ≡ last_place args.now id }
    ensures { (id : ℕ) → number_in (entries_in table.new.items) id
        ≡ number_of_local args.now (ids_of others.now) id }
{
    for (place, (_ty, id)) in others.iter().enumerate() {
        put_number(table, *id, (args.len() + place) as u32);
    }
}

/// As `emit_locals`, for used locals of which none is listed twice, where all ids are less than `len`.
/// The numbers are in a table by id.
///
/// # Errors
///
/// Those of `LocalFunction::emit_locals`.
pub fn emit_listed_locals(
    alloc: Global,
    args: &[LocalId],
    module: &Module,
    indices: &IdsToIndices,
    used: &[LocalId],
    len: usize,
) -> Result<(Vec<(u32, RawValType)>, Vec<Option<u32>>), EmitError>
    requires apart { Apart used.now }
    requires small_args { All (λ id. id < len) args.now }
    requires small_used { All (λ id. id < len) used.now }
    ensures ok { IfOk result (λ made. Declares (numbers_by «module».now.types indices.now [])
        «module».now.locals args.now (λ id. among id used.now) made.0.items
        (entries_in made.1.items)) }
    ensures err { IfErr result (IsNotDeclared (numbers_by «module».now.types indices.now [])
        «module».now.locals args.now (λ id. among id used.now)) }
{
    let mut table = argument_table(alloc, args, len)?;
    let others = match declared_listed(alloc, &module.locals, args, &table, used) {
        Ok(others) => others,
        Err(fault) => return Err(fault),
    };
    if args.len() > NUMBERS || others.len() > NUMBERS - args.len() {
        return Err(EmitError::TooLarge);
    }
    number_listed(&mut table, args, others.as_slice());
    match declare(alloc, module, indices, others.as_slice()) {
        Ok(declarations) => Ok((declarations, table)),
        Err(fault) => Err(fault),
    }
}
