//! The numbers of a function's locals.
ghost use Rattle.std.specs.Prelude.{◌≡◌, ◌≤◌, [], true, nat_lt, IfSome, Some, IfOk, IfErr};
ghost use Rattle.std.specs.List.{list_all};
ghost use Rattle.walrus_numbering.specs.EmittedLocals.{number_in, Declares, IsNotDeclared};
ghost use Rattle.walrus_numbering.specs.NumberMaps.{numbers_by};
ghost use Rattle.walrus_flat.specs.UsedLocals.{is_used, entries_of};

use crate::used_locals::UsedLocals;
use std::alloc::Global;
use walrus_ir::{IdHashMap, LocalId, Module};
use walrus_maps::IdsToIndices;
use walrus_numbering::{emit_listed_locals, emit_locals, number_at};
use wasm_body::EmitError;
use wasm_operators::RawValType;

/// The numbers of a function's locals: in a table by id where all ids are small, else in a map.
#[derive(Drop)]
pub(crate) struct NumberedLocals {
    /// By id.
    pub table: Vec<Option<u32>>,
    /// Those that aren't in the table.
    pub map: IdHashMap<LocalId, u32>,
}

impl NumberedLocals {
    /// The number of a local, if it has one.
    #[tactic(auto, using(crate::proofs::NumberedLocals::in_table_or_map))]
    pub fn number(&self, local: LocalId) -> Option<u32>
        ensures { result ≡ number_in (entries_of self.now) local }
    {
        match number_at(&self.table, local) {
            Some(number) => Some(number),
            None => self.map.get(&local).copied(),
        }
    }
}

/// The numbers of a function's locals, and their table as a slice, so that a look-up takes one step less.
#[derive(Clone, Copy)]
pub(crate) struct LocalNumbers<'a> {
    pub numbered: &'a NumberedLocals,
    pub table: &'a [Option<u32>],
    ghost same: { table.now ≡ numbered.now.table.items },
}

impl LocalNumbers<'_> {
    /// The number of a local, if it is in the table.
    #[inline(always)]
    #[tactic(auto, using(crate::proofs::NumberedLocals::in_table_at_least))]
    pub fn at(&self, local: LocalId) -> Option<u32>
        ensures { IfSome result (λ number.
            number_in (entries_of self.now.numbered.now) local ≡ Some number) }
    {
        number_at(self.table, local)
    }
}

/// Whether these ids are less than a number.
fn are_less(ids: &[LocalId], len: usize) -> bool
    ensures { result ≡ list_all (λ id. nat_lt id len) ids.now }
{
    ids.iter().all(|id| id.index() < len)
}

/// Whether a table of so many ids isn't far longer than there are locals.
fn is_dense(len: usize, locals: usize) -> bool {
    len <= locals.saturating_mul(4).saturating_add(64)
}

/// How many ids a table has that has the ids of the arguments and of the used locals; none if that is
/// far more than there are locals.
fn table_len(args: &[LocalId], used: &UsedLocals) -> Option<usize>
    ensures listed { IfSome result (λ _. used.now.others.keys ≡ []) }
    ensures args { IfSome result (λ len. list_all (λ id. nat_lt id len) args.now ≡ true) }
    ensures reach { IfSome result (λ len. used.now.reach ≤ len) }
{
    if used.others.len() != 0 {
        return None;
    }
    let len = used.reach.max(args.len());
    if !are_less(args, len) {
        return None;
    }
    if is_dense(len, args.len().saturating_add(used.listed.len())) {
        Some(len)
    } else {
        None
    }
}

/// As `declare_locals`, with a table of so many ids.
fn declare_in_table(
    alloc: Global,
    args: &[LocalId],
    module: &Module,
    indices: &IdsToIndices,
    used: &UsedLocals,
    len: usize,
) -> Result<(Vec<(u32, RawValType)>, NumberedLocals), EmitError>
    requires listed { used.now.others.keys ≡ [] }
    requires args { list_all (λ id. nat_lt id len) args.now ≡ true }
    requires reach { used.now.reach ≤ len }
    ensures ok { IfOk result (λ made. Declares (numbers_by «module».now.types indices.now [])
        «module».now.locals args.now (is_used used.now) made.0.items (entries_of made.1)) }
    ensures err { IfErr result (IsNotDeclared (numbers_by «module».now.types indices.now [])
        «module».now.locals args.now (is_used used.now)) }
{
    let map = IdHashMap::new(alloc);
    match emit_listed_locals(alloc, args, module, indices, &used.listed, len) {
        Ok((declarations, table)) => Ok((declarations, NumberedLocals { table, map })),
        Err(fault) => Err(fault),
    }
}

/// As `declare_locals`, with a map.
fn declare_in_map(
    alloc: Global,
    args: &[LocalId],
    module: &Module,
    indices: &IdsToIndices,
    used: &UsedLocals,
) -> Result<(Vec<(u32, RawValType)>, NumberedLocals), EmitError>
    ensures ok { IfOk result (λ made. Declares (numbers_by «module».now.types indices.now [])
        «module».now.locals args.now (is_used used.now) made.0.items (entries_of made.1)) }
    ensures err { IfErr result (IsNotDeclared (numbers_by «module».now.types indices.now [])
        «module».now.locals args.now (is_used used.now)) }
{
    let all = used.all(alloc)?;
    let table = Vec::new(alloc);
    match emit_locals(alloc, args, module, indices, &all) {
        Ok((declarations, map)) => Ok((declarations, NumberedLocals { table, map })),
        Err(fault) => Err(fault),
    }
}

/// The declarations of the used locals that aren't arguments, and the numbers of these and of the
/// arguments, as `walrus_numbering::emit_locals`.
///
/// # Errors
///
/// Those of `emit_locals`.
pub(crate) fn declare_locals(
    alloc: Global,
    args: &[LocalId],
    module: &Module,
    indices: &IdsToIndices,
    used: &UsedLocals,
) -> Result<(Vec<(u32, RawValType)>, NumberedLocals), EmitError>
    ensures ok { IfOk result (λ made. Declares (numbers_by «module».now.types indices.now [])
        «module».now.locals args.now (is_used used.now) made.0.items (entries_of made.1)) }
    ensures err { IfErr result (IsNotDeclared (numbers_by «module».now.types indices.now [])
        «module».now.locals args.now (is_used used.now)) }
{
    match table_len(args, used) {
        Some(len) => declare_in_table(alloc, args, module, indices, used, len),
        None => declare_in_map(alloc, args, module, indices, used),
    }
}
